//! The program: the real files and the standard output, and the line of the outcome on standard error.
#![tactic(auto)]

use io_edge::{HostFiles, HostSink, NoPace};
use std::env;
use std::io::{self, Write};
use std::process::ExitCode;
use table_program::{Outcome, note_line, run};

/// The words behind the program's own name.
fn words(rt: &HostRuntime) -> io::Result<Vec<String>> {
    let mut words = Vec::new(rt.alloc());
    for word in env::args(rt)?.skip(1) {
        words.push(word)?;
    }
    Ok(words)
}

fn main(rt: HostRuntime) -> ExitCode {
    let outcome = match words(&rt) {
        Ok(words) => run(
            &rt,
            rt.alloc(),
            words.as_slice(),
            &mut HostFiles::new(rt),
            &mut HostSink::new(rt),
            &NoPace,
        ),
        Err(error) if error.kind() == io::ErrorKind::OutOfMemory => Outcome::NO_MEMORY,
        Err(_) => Outcome::USAGE,
    };
    let mut line = [0u8; 64];
    let length = note_line(outcome.status, &outcome.note, &mut line);
    if length > 0 {
        line[length] = b'\n';
        let _ = rt.stderr().write_all(&line[..length + 1]);
    }
    ExitCode::from(outcome.status)
}
