ghost use Rattle.std.specs.Prelude.{◌≡◌, ◌+◌, ◌<◌, ◌≤◌, ◌++◌, length, drop, codes, decimal};
ghost use Rattle.table_program.specs.Notes.{limit_word, plain_text, note_text, IsNoteOf};

use itoa::Buffer;
use schedule_sim::ScriptFault;
use std::alloc::AllocError;

/// How a run ended.
#[derive(Clone, Copy, Debug, PartialEq, Eq)]
pub struct Outcome {
    /// The exit status, from 0 (the input was read to its end) to 8.
    pub status: u8,
    /// What there is to say beside the status, of the kind that goes with it.
    pub note: Note,
}

impl Outcome {
    /// Done: the input was read to its end, and everything was written.
    pub const DONE: Outcome = Outcome {
        status: 0,
        note: Note::Nothing,
    };

    /// The words are none that the program takes.
    pub const USAGE: Outcome = Outcome {
        status: 1,
        note: Note::Nothing,
    };

    /// The output took no more.
    pub const WRITE_FAULT: Outcome = Outcome {
        status: 3,
        note: Note::Nothing,
    };

    /// There was no memory.
    pub const NO_MEMORY: Outcome = Outcome {
        status: 6,
        note: Note::Nothing,
    };

    /// The file of that number, from 1, could not be read.
    pub fn read_fault(number: u32) -> Outcome
        ensures status { result.status ≡ 2 }
        ensures note { result.note ≡ Note.File number }
    {
        Outcome {
            status: 2,
            note: Note::File { number },
        }
    }

    /// The line of that number, from 1, is the first of the script at fault.
    pub fn script_fault(number: u64) -> Outcome
        ensures status { result.status ≡ 8 }
        ensures note { result.note ≡ Note.Line number }
    {
        Outcome {
            status: 8,
            note: Note::Line { number },
        }
    }

    /// The input passes a limit by this value.
    pub fn over_limit(which: Limit, value: u64) -> Outcome
        ensures status { result.status ≡ 4 }
        ensures note { result.note ≡ Note.Limit which value }
    {
        Outcome {
            status: 4,
            note: Note::Limit { which, value },
        }
    }
}

impl From<AllocError> for Outcome {
    ghost use Rattle.std.specs.Prelude.{◌≡◌};
    ghost use Rattle.table_program.specs.declared.outcome.Note.TheVariants.{Nothing};

    ghost from_gives = { λ _ outcome. outcome ≡ record { status = 6; note = Nothing } };

    fn from(_: AllocError) -> Outcome {
        Outcome::NO_MEMORY
    }
}

impl From<ScriptFault> for Outcome {
    ghost use Rattle.std.specs.Prelude.{◌≡◌};
    ghost use Rattle.table_program.specs.ReplayRun.{outcome_of};

    ghost from_gives = { λ fault outcome. outcome ≡ outcome_of fault };

    fn from(fault: ScriptFault) -> Outcome {
        match fault {
            ScriptFault::Line { number } => Outcome::script_fault(number),
            ScriptFault::OutOfMemory => Outcome::NO_MEMORY,
        }
    }
}

/// What there is to say of a run beside its status.
#[derive(Clone, Copy, Debug, PartialEq, Eq)]
pub enum Note {
    /// Nothing beside the status: at 0, 1, 3, 5 and 6.
    Nothing,
    /// At status 4, the limit that the input passes.
    Limit {
        which: Limit,
        /// The value that is above the limit.
        value: u64,
    },
    /// At status 2, the file that could not be read.
    File {
        /// The files are counted from 1.
        number: u32,
    },
    /// At status 7, the counter that is spent.
    Counter {
        counter: u64,
    },
    /// At status 8, the line of the script that is at fault.
    Line {
        /// The lines are counted from 1.
        number: u64,
    },
}

/// A bound on the input.
#[derive(Clone, Copy, Debug, PartialEq, Eq)]
pub enum Limit {
    /// The number of references that a run may hold.
    References,
    /// The number of bytes of all files.
    Bytes,
    /// The number of bytes of one name or literal.
    Text,
    /// The number of names.
    Names,
    /// The number of literals.
    Literals,
    /// The number of words of a table.
    Words,
}

impl Limit {
    // How the line that tells of the limit begins, before the value.
    fn opening(self) -> &'static [u8]
        ensures words { result.now ≡ codes "limit: " ++ limit_word self ++ codes " " }
        ensures short { length result.now ≤ 20 }
    {
        match self {
            Limit::References => b"limit: references ",
            Limit::Bytes => b"limit: bytes ",
            Limit::Text => b"limit: text ",
            Limit::Names => b"limit: names ",
            Limit::Literals => b"limit: literals ",
            Limit::Words => b"limit: words ",
        }
    }
}

/// Stores the line of the status and its note at the front of `out`, with no newline, and answers its
/// length; the rest of `out` stays. The line of status 0 is empty.
///
/// The note is of the kind that goes with the status, and `out` has at least 64 bytes, which is more
/// than any line takes.
pub fn note_line(status: u8, note: &Note, out: &mut [u8]) -> usize
    requires kind { IsNoteOf status note.now }
    requires room { 64 ≤ length out.old }
    ensures stored { let line = note_text status note.now in
        out.new ≡ line ++ drop (length line) out.old }
    ensures len { result ≡ length (note_text status note.now) }
    ensures short { result < 64 }
{
    match note {
        Note::Nothing => put(out, plain_line(status)),
        Note::Limit { which, value } => put_numbered(out, which.opening(), *value),
        Note::File { number } => put_numbered(out, b"read fault: file ", *number as u64),
        Note::Counter { counter } => put_numbered(out, b"spent: ", *counter),
        Note::Line { number } => put_numbered(out, b"script fault: line ", *number),
    }
}

// The line of a status that has no note beside it.
fn plain_line(status: u8) -> &'static [u8]
    ensures words { result.now ≡ plain_text status }
    ensures short { length result.now < 20 }
{
    match status {
        1 => b"usage",
        3 => b"write fault",
        5 => b"no slot",
        6 => b"no memory",
        _ => b"",
    }
}

// Stores the text at the front of `out`, and answers its length.
fn put(out: &mut [u8], text: &[u8]) -> usize
    requires room { length text.now ≤ length out.old }
    ensures stored { out.new ≡ text.now ++ drop (length text.now) out.old }
    ensures len { result ≡ length text.now }
{
    out[..text.len()].copy_from_slice(text);
    text.len()
}

// Stores the opening and then the decimal digits of the number at the front of `out`, and answers their
// length.
fn put_numbered(out: &mut [u8], opening: &[u8], number: u64) -> usize
    requires room { length opening.now + 20 ≤ length out.old }
    ensures stored { let line = opening.now ++ decimal number in
        out.new ≡ line ++ drop (length line) out.old }
    ensures len { result ≡ length (opening.now ++ decimal number) }
    ensures short { result ≤ length opening.now + 20 }
{
    let at = put(out, opening);
    let mut buffer = Buffer::new();
    at + put(&mut out[at..], buffer.format(number).as_bytes())
}

#[cfg(test)]
mod tests {
    use super::*;
    use std::process::Abort;

    // Fails unless the line is `want` and the rest of the buffer stays.
    fn expect_line(rt: &impl Abort, status: u8, note: Note, want: &[u8])
        requires { IsNoteOf status note }
    {
        let mut out = [b'#'; 64];
        let length = note_line(status, &note, &mut out);
        assert_eq!(rt; length, want.len());
        assert!(rt; out.starts_with(want));
        assert!(rt; out.iter().skip(length).all(|byte| *byte == b'#'));
    }

    #[test]
    fn lines_of_the_statuses(rt: HostRuntime) {
        expect_line(&rt, 0, Note::Nothing, b"");
        expect_line(&rt, 1, Note::Nothing, b"usage");
        expect_line(&rt, 2, Note::File { number: 3 }, b"read fault: file 3");
        expect_line(&rt, 3, Note::Nothing, b"write fault");
        expect_line(&rt, 5, Note::Nothing, b"no slot");
        expect_line(&rt, 6, Note::Nothing, b"no memory");
        expect_line(&rt, 7, Note::Counter { counter: 0 }, b"spent: 0");
        let number = u64::MAX;
        expect_line(
            &rt,
            8,
            Note::Line { number },
            b"script fault: line 18446744073709551615",
        );
    }

    #[test]
    fn lines_of_the_limits(rt: HostRuntime) {
        let note = |which, value| Note::Limit { which, value };
        expect_line(
            &rt,
            4,
            note(Limit::References, 16_777_217),
            b"limit: references 16777217",
        );
        expect_line(
            &rt,
            4,
            note(Limit::Bytes, 67_108_865),
            b"limit: bytes 67108865",
        );
        expect_line(&rt, 4, note(Limit::Text, 65_536), b"limit: text 65536");
        expect_line(&rt, 4, note(Limit::Names, 10), b"limit: names 10");
        expect_line(&rt, 4, note(Limit::Literals, 1), b"limit: literals 1");
        expect_line(
            &rt,
            4,
            note(Limit::Words, u64::MAX),
            b"limit: words 18446744073709551615",
        );
    }
}
