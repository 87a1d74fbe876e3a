use super::*;
use crate::cases::strings;
use crate::outcome::Note;
use io_edge::{MemFiles, MemSink, NoPace};
use std::alloc::AllocError;
use std::process::Abort;
use std::test::Fail;

/// Fails unless a run by these words over a file `f` of these bytes ends and writes so.
fn expect_run<R: Abort + Threads + Wait + Sync>(
    rt: &R,
    alloc: Global,
    words: &[&str],
    bytes: &[u8],
    outcome: Outcome,
    written: &[u8],
) -> Result<(), AllocError> {
    let words = strings(alloc, words)?;
    let mut files = MemFiles::new(alloc, &[])?;
    files.add("f", bytes)?;
    let mut out = MemSink::new(alloc, 1024, &[])?;
    let answer = run(rt, alloc, words.as_slice(), &mut files, &mut out, &NoPace);
    assert_eq!(rt; answer, outcome);
    assert_eq!(rt; out.bytes(), written);
    Ok(())
}

#[test]
fn run_of_plain(rt: HostRuntime) -> Result<(), Fail> {
    let written = b"symbols names=3 live=2 references=3\n\
        symbols buckets=8 longest=1 average=0 rest=2\n\
        strings literals=0 live=0\n\
        strings buckets=8 longest=0 average=0 rest=0\n\
        symbol log created=2 taken=1 dropped=0\n\
        string log created=0 found=0 killed=0\n";
    expect_run(
        &rt,
        rt.alloc(),
        &["plain", "f"],
        b"a b a",
        Outcome::DONE,
        written,
    )?;
    Ok(())
}

#[test]
fn run_of_replay(rt: HostRuntime) -> Result<(), Fail> {
    let script = b"shape counted 8 1 3 4 4 281474976710656\ncall 0 clean\nrun 0\n";
    let written = b"0 spent 281474976710656\n";
    expect_run(
        &rt,
        rt.alloc(),
        &["replay", "f"],
        script,
        Outcome::DONE,
        written,
    )?;
    let fault = Outcome::script_fault(1);
    expect_run(&rt, rt.alloc(), &["replay", "f"], b"", fault, b"")?;
    Ok(())
}

#[test]
fn runs_of_other_words(rt: HostRuntime) -> Result<(), Fail> {
    expect_run(&rt, rt.alloc(), &["report", "f"], b"a", Outcome::USAGE, b"")?;
    expect_run(&rt, rt.alloc(), &["replay"], b"a", Outcome::USAGE, b"")?;
    expect_run(
        &rt,
        rt.alloc(),
        &["plain", "f", "f"],
        b"a",
        Outcome::USAGE,
        b"",
    )?;
    Ok(())
}
