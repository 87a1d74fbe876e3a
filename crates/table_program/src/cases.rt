//! Cases of tests: one run over one file, and what must come of it.
use crate::command::Command;
use crate::{Limit, Note, Outcome, run_plain, run_replay};
use io_edge::{MemFiles, MemSink};
use std::alloc::{AllocError, Global};
use std::process::Abort;

/// A run over one file, and what must come of it.
#[derive(Clone, Copy)]
pub(crate) struct Case {
    /// The command whose call is made.
    pub(crate) command: Command,
    pub(crate) words: &'static [&'static str],
    pub(crate) name: &'static str,
    pub(crate) bytes: &'static [u8],
    /// The numbers of the calls of the files that fail.
    pub(crate) failing_reads: &'static [u64],
    /// The numbers of the calls of the sink that fail.
    pub(crate) failing_writes: &'static [u64],
    /// How many bytes the sink takes.
    pub(crate) room: usize,
    pub(crate) status: u8,
    pub(crate) note: Note,
    pub(crate) written: &'static [u8],
}

/// The words as strings.
pub(crate) fn strings(alloc: Global, words: &[&str]) -> Result<Vec<String>, AllocError> {
    let mut strings = Vec::new(alloc);
    for word in words {
        strings.push(String::from_str(alloc, word)?)?;
    }
    Ok(strings)
}

/// The outcome of the command's call.
fn outcome_of(
    command: Command,
    alloc: Global,
    words: &[String],
    files: &mut MemFiles,
    out: &mut MemSink,
) -> Outcome {
    match command {
        Command::Plain => run_plain(alloc, words, files, out),
        Command::Replay => run_replay(alloc, words, files, out),
    }
}

/// Fails unless what must come of the case's run comes of it.
pub(crate) fn expect_run(
    rt: &impl Abort,
    alloc: Global,
    number: usize,
    case: &Case,
) -> Result<(), AllocError> {
    let words = strings(alloc, case.words)?;
    let mut files = MemFiles::new(alloc, case.failing_reads)?;
    files.add(case.name, case.bytes)?;
    let mut out = MemSink::new(alloc, case.room, case.failing_writes)?;
    let outcome = outcome_of(case.command, alloc, words.as_slice(), &mut files, &mut out);
    assert_eq!(rt; outcome.status, case.status, "case {number}");
    assert_eq!(rt; outcome.note, case.note, "case {number}");
    assert_eq!(rt; out.bytes(), case.written, "case {number}");
    Ok(())
}

/// Fails unless a file of these bytes passes the limit by the value, and nothing is written.
pub(crate) fn expect_limit(
    rt: &impl Abort,
    alloc: Global,
    case: &Case,
    bytes: &[u8],
    which: Limit,
    value: u64,
) -> Result<(), AllocError> {
    let words = strings(alloc, case.words)?;
    let mut files = MemFiles::new(alloc, &[])?;
    files.add(case.name, bytes)?;
    let mut out = MemSink::new(alloc, case.room, &[])?;
    let outcome = outcome_of(case.command, alloc, words.as_slice(), &mut files, &mut out);
    assert_eq!(rt; outcome, Outcome::over_limit(which, value));
    assert!(rt; out.bytes().is_empty());
    Ok(())
}
