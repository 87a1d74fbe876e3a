use super::*;
use crate::cases::{Case, expect_limit, expect_run};
use crate::outcome::{Limit, Note};
use std::test::Fail;

/// `replay f` over a file `f` in which two seats intern one text at once.
const AT_ONCE: Case = Case {
    command: Command::Replay,
    words: &["replay", "f"],
    name: "f",
    bytes: b"shape counted 8 1 3 4 4 0\n\
        call 1 intern a\n\
        until 1 K7\n\
        call 2 intern a\n\
        run 2\n\
        run 1\n\
        call 1 intern a\n\
        run 1\n",
    failing_reads: &[],
    failing_writes: &[],
    room: 1024,
    status: 0,
    note: Note::Nothing,
    written: b"log 2 create a 4.0\n\
        2 created 4.0\n\
        log 1 free 2\n\
        1 again\n\
        log 1 take a 4.0\n\
        1 taken 4.0\n",
};

/// Words that are not those of `replay`, so that nothing is written.
const USAGE: Case = Case {
    status: 1,
    written: b"",
    ..AT_ONCE
};

/// A file that cannot be read, so that nothing is written.
const UNREAD: Case = Case {
    status: 2,
    note: Note::File { number: 1 },
    written: b"",
    ..AT_ONCE
};

/// A script whose first line is at fault, so that nothing is written.
const FAULT: Case = Case {
    status: 8,
    note: Note::Line { number: 1 },
    written: b"",
    ..AT_ONCE
};

/// Scripts and what they print.
static SCRIPTS: [Case; 6] = [
    AT_ONCE,
    Case {
        bytes: b"shape counted 8 1 3 4 4 0",
        written: b"",
        ..AT_ONCE
    },
    Case {
        bytes: b"# a reader is inside as the entry is unlinked\n\
            shape counted 8 1 3 4 4 0\n\
            call 0 intern a\n\
            run 0\n\
            call 0 drop 0.0\n\
            run 0\n\
            \n\
            call 1 lookup a\n\
            until 1 K11\n\
            call 0 clean\n\
            run 0\n\
            call 0 poll\n\
            run 0\n\
            run 1\n\
            call 0 poll\n\
            run 0\n",
        written: b"log 0 create a 0.0\n\
            0 created 0.0\n\
            log 0 drop 0.0\n\
            0 dropped 0\n\
            0 begun\n\
            log 0 unlink 0\n\
            0 pending seat 1\n\
            1 miss\n\
            log 0 free 0\n\
            0 done unlinked 1 graces 1 level 3\n",
        ..AT_ONCE
    },
    Case {
        bytes: b"shape weak 2 1 3 3 2 0\n\
            call 0 intern a\n\
            run 0\n\
            call 0 kill 0.0\n\
            run 0\n\
            call 0 kill 0.0\n\
            run 0\n",
        written: b"log 0 create a 0.0\n\
            0 created 0.0\n\
            log 0 kill 0.0\n\
            0 killed\n\
            0 stale\n",
        ..AT_ONCE
    },
    Case {
        words: &["replay", "replay"],
        name: "replay",
        ..AT_ONCE
    },
    Case {
        words: &["replay", "--"],
        name: "--",
        ..AT_ONCE
    },
];

#[test]
fn scripts_and_what_they_print(rt: HostRuntime) -> Result<(), Fail> {
    for (number, case) in SCRIPTS.iter().enumerate() {
        expect_run(&rt, rt.alloc(), number, case)?;
    }
    Ok(())
}

/// Words that are not taken, and calls that fail.
static REFUSALS: [Case; 13] = [
    Case {
        words: &[],
        ..USAGE
    },
    Case {
        words: &["replay"],
        ..USAGE
    },
    Case {
        words: &["replay", "f", "f"],
        ..USAGE
    },
    Case {
        words: &["plain", "f"],
        ..USAGE
    },
    Case {
        words: &["replay f"],
        ..USAGE
    },
    Case {
        words: &["Replay", "f"],
        ..USAGE
    },
    Case {
        words: &["replay", "g"],
        ..UNREAD
    },
    Case {
        failing_reads: &[1],
        ..UNREAD
    },
    Case {
        failing_reads: &[2],
        ..UNREAD
    },
    Case {
        failing_reads: &[3],
        ..UNREAD
    },
    Case {
        failing_writes: &[1],
        status: 3,
        written: b"",
        ..AT_ONCE
    },
    Case {
        room: 10,
        status: 3,
        written: b"log 2 crea",
        ..AT_ONCE
    },
    // Where nothing is printed nothing is written, and a write that would fail is not made.
    Case {
        bytes: b"shape counted 8 1 3 4 4 0",
        failing_writes: &[1],
        written: b"",
        ..AT_ONCE
    },
];

#[test]
fn refused_words_and_failing_calls_of_replay(rt: HostRuntime) -> Result<(), Fail> {
    for (number, case) in REFUSALS.iter().enumerate() {
        expect_run(&rt, rt.alloc(), number, case)?;
    }
    Ok(())
}

/// Scripts with a line at fault.
static FAULTS: [Case; 6] = [
    Case {
        bytes: b"",
        ..FAULT
    },
    Case {
        bytes: b"shape counted 0 1 3 4 4 0",
        ..FAULT
    },
    Case {
        bytes: b"# no line counts\n\n",
        note: Note::Line { number: 3 },
        ..FAULT
    },
    // What the lines before the fault print is not written.
    Case {
        bytes: b"shape counted 8 1 3 4 4 281474976710656\n\
            call 0 clean\n\
            run 0\n\
            run 0\n",
        note: Note::Line { number: 4 },
        ..FAULT
    },
    // A line that is not of the form is found before any line has its turn.
    Case {
        bytes: b"shape counted 8 1 3 4 4 0\n\
            run 0\n\
            run  0\n",
        note: Note::Line { number: 3 },
        ..FAULT
    },
    Case {
        bytes: b"shape counted 8 1 3 4 4 0\n\
            run 18446744073709551615\n\
            run 18446744073709551616\n",
        note: Note::Line { number: 3 },
        ..FAULT
    },
];

#[test]
fn scripts_with_a_line_at_fault(rt: HostRuntime) -> Result<(), Fail> {
    for (number, case) in FAULTS.iter().enumerate() {
        expect_run(&rt, rt.alloc(), number, case)?;
    }
    Ok(())
}

#[test]
fn limit_of_a_script(rt: HostRuntime) -> Result<(), Fail> {
    let newlines = vec![in rt.alloc(); b'\n'; 67_108_865]?;
    expect_limit(
        &rt,
        rt.alloc(),
        &AT_ONCE,
        newlines.as_slice(),
        Limit::Bytes,
        67_108_865,
    )?;
    Ok(())
}
