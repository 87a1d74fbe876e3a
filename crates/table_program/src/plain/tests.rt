use super::*;
use crate::cases::{Case, expect_limit, expect_run};
use crate::outcome::{Limit, Note};
use std::alloc::AllocError;
use std::test::Fail;

/// The longest text and one byte more.
static LETTERS: [u8; 65_536] = [b'a'; 65_536];

/// `plain f` over an empty file `f`.
const EMPTY: Case = Case {
    command: Command::Plain,
    words: &["plain", "f"],
    name: "f",
    bytes: b"",
    failing_reads: &[],
    failing_writes: &[],
    room: 1024,
    status: 0,
    note: Note::Nothing,
    written: b"symbols names=0 live=0 references=0\n\
        symbols buckets=8 longest=0 average=0 rest=0\n\
        strings literals=0 live=0\n\
        strings buckets=8 longest=0 average=0 rest=0\n\
        symbol log created=0 taken=0 dropped=0\n\
        string log created=0 found=0 killed=0\n",
};

/// `plain f` over a file `f` of three names, two of them equal.
const THREE_NAMES: Case = Case {
    bytes: b"a b a",
    written: b"symbols names=3 live=2 references=3\n\
        symbols buckets=8 longest=1 average=0 rest=2\n\
        strings literals=0 live=0\n\
        strings buckets=8 longest=0 average=0 rest=0\n\
        symbol log created=2 taken=1 dropped=0\n\
        string log created=0 found=0 killed=0\n",
    ..EMPTY
};

/// Words that the program does not take, so that it writes nothing.
const USAGE: Case = Case {
    status: 1,
    written: b"",
    ..EMPTY
};

/// A file that cannot be read, so that nothing is written.
const UNREAD: Case = Case {
    status: 2,
    note: Note::File { number: 1 },
    written: b"",
    ..EMPTY
};

/// Files and their reports.
static REPORTS: [Case; 8] = [
    THREE_NAMES,
    EMPTY,
    Case {
        bytes: b"Aa BB",
        written: b"symbols names=2 live=2 references=2\n\
            symbols buckets=8 longest=2 average=0 rest=2\n\
            strings literals=0 live=0\n\
            strings buckets=8 longest=0 average=0 rest=0\n\
            symbol log created=2 taken=0 dropped=0\n\
            string log created=0 found=0 killed=0\n",
        ..EMPTY
    },
    Case {
        bytes: b"9x _y $z",
        written: b"symbols names=2 live=2 references=2\n\
            symbols buckets=8 longest=1 average=0 rest=2\n\
            strings literals=0 live=0\n\
            strings buckets=8 longest=0 average=0 rest=0\n\
            symbol log created=2 taken=0 dropped=0\n\
            string log created=0 found=0 killed=0\n",
        ..EMPTY
    },
    Case {
        bytes: b"\"q\\\"r",
        written: b"symbols names=0 live=0 references=0\n\
            symbols buckets=8 longest=0 average=0 rest=0\n\
            strings literals=1 live=1\n\
            strings buckets=8 longest=1 average=0 rest=1\n\
            symbol log created=0 taken=0 dropped=0\n\
            string log created=1 found=0 killed=0\n",
        ..EMPTY
    },
    Case {
        bytes: b"a b c d e f g h i j k l m n o p q",
        written: b"symbols names=17 live=16 references=16\n\
            symbols buckets=8 longest=2 average=2 rest=0\n\
            strings literals=0 live=0\n\
            strings buckets=8 longest=0 average=0 rest=0\n\
            symbol log created=17 taken=0 dropped=1\n\
            string log created=0 found=0 killed=0\n",
        ..EMPTY
    },
    Case {
        bytes: b"class A {\n  String s = \"hi\";\n  int f() { return g(s, \"hi\"); }\n}\n",
        written: b"symbols names=9 live=8 references=9\n\
            symbols buckets=8 longest=2 average=1 rest=0\n\
            strings literals=2 live=1\n\
            strings buckets=8 longest=1 average=0 rest=1\n\
            symbol log created=8 taken=1 dropped=0\n\
            string log created=1 found=1 killed=0\n",
        ..EMPTY
    },
    Case {
        bytes: b"\"a\" \"b\" \"c\" \"d\" \"e\" \"f\" \"g\" \"h\" \"i\" \
            \"j\" \"k\" \"l\" \"m\" \"n\" \"o\" \"p\" \"q\" ",
        written: b"symbols names=0 live=0 references=0\n\
            symbols buckets=8 longest=0 average=0 rest=0\n\
            strings literals=17 live=16\n\
            strings buckets=8 longest=2 average=2 rest=0\n\
            symbol log created=0 taken=0 dropped=0\n\
            string log created=17 found=0 killed=1\n",
        ..EMPTY
    },
];

#[test]
fn reports_of_files(rt: HostRuntime) -> Result<(), Fail> {
    for (number, case) in REPORTS.iter().enumerate() {
        expect_run(&rt, rt.alloc(), number, case)?;
    }
    Ok(())
}

#[test]
fn limit_of_texts(rt: HostRuntime) -> Result<(), Fail> {
    let cases = [
        Case {
            bytes: &LETTERS[1..],
            written: b"symbols names=1 live=1 references=1\n\
                symbols buckets=8 longest=1 average=0 rest=1\n\
                strings literals=0 live=0\n\
                strings buckets=8 longest=0 average=0 rest=0\n\
                symbol log created=1 taken=0 dropped=0\n\
                string log created=0 found=0 killed=0\n",
            ..EMPTY
        },
        Case {
            bytes: &LETTERS,
            status: 4,
            note: Note::Limit {
                which: Limit::Text,
                value: 65_536,
            },
            written: b"",
            ..EMPTY
        },
    ];
    for (number, case) in cases.iter().enumerate() {
        expect_run(&rt, rt.alloc(), number, case)?;
    }
    Ok(())
}

/// The piece so many times.
fn repeated(alloc: Global, piece: &[u8], times: usize) -> Result<Vec<u8>, AllocError> {
    let mut bytes = Vec::new(alloc);
    for _ in 0..times {
        bytes.extend_from_slice(piece)?;
    }
    Ok(bytes)
}

#[test]
fn limits_of_large_files(rt: HostRuntime) -> Result<(), Fail> {
    let names = repeated(rt.alloc(), b"a ", 1_048_577)?;
    expect_limit(
        &rt,
        rt.alloc(),
        &EMPTY,
        names.as_slice(),
        Limit::Names,
        1_048_577,
    )?;
    let literals = repeated(rt.alloc(), b"\"\"", 1_048_577)?;
    expect_limit(
        &rt,
        rt.alloc(),
        &EMPTY,
        literals.as_slice(),
        Limit::Literals,
        1_048_577,
    )?;
    let spaces = vec![in rt.alloc(); b' '; 67_108_865]?;
    expect_limit(
        &rt,
        rt.alloc(),
        &EMPTY,
        spaces.as_slice(),
        Limit::Bytes,
        67_108_865,
    )?;
    Ok(())
}

/// Words that are taken or not, and calls that fail.
static REFUSALS: [Case; 15] = [
    Case {
        words: &[],
        ..USAGE
    },
    Case {
        words: &["plain"],
        ..USAGE
    },
    Case {
        words: &["plain", "f", "f"],
        ..USAGE
    },
    Case {
        words: &["replay", "f"],
        ..USAGE
    },
    Case {
        words: &["f", "plain"],
        ..USAGE
    },
    Case {
        words: &["plain f"],
        ..USAGE
    },
    Case {
        words: &["Plain", "f"],
        ..USAGE
    },
    Case {
        words: &["plain", "plain"],
        name: "plain",
        ..EMPTY
    },
    Case {
        words: &["plain", "--"],
        name: "--",
        ..EMPTY
    },
    Case {
        words: &["plain", "g"],
        ..UNREAD
    },
    Case {
        failing_reads: &[1],
        ..UNREAD
    },
    Case {
        bytes: b"a",
        failing_reads: &[2],
        ..UNREAD
    },
    Case {
        bytes: b"a",
        failing_reads: &[3],
        ..UNREAD
    },
    Case {
        failing_writes: &[1],
        status: 3,
        written: b"",
        ..THREE_NAMES
    },
    Case {
        room: 10,
        status: 3,
        written: b"symbols na",
        ..THREE_NAMES
    },
];

#[test]
fn refused_words_and_failing_calls(rt: HostRuntime) -> Result<(), Fail> {
    for (number, case) in REFUSALS.iter().enumerate() {
        expect_run(&rt, rt.alloc(), number, case)?;
    }
    Ok(())
}
