//! Tests of runs, with scripts made by hand.
use super::*;
use crate::script::{Asked, Line, Numbered};
use atomic_step::{Shape, StepKind};
use intern_log::Kind;
use std::alloc::{AllocError, Global};

mod faults;
mod rows;
mod scripts;
mod stalled;

/// Eight slots of one text word, eight or sixteen buckets, four seats.
static EIGHT: Shape = Shape {
    slots: 8,
    text_words: 1,
    min_level: 3,
    max_level: 4,
    seats: 4,
};

/// A script of a counted table without lines.
fn counted(alloc: Global) -> Script {
    Script {
        kind: Kind::Counted,
        shape: EIGHT,
        first_counter: 0,
        lines: Vec::new(alloc),
    }
}

/// What a run of a script prints.
fn printed(alloc: Global, script: Result<Script, AllocError>) -> Result<Vec<u8>, ScriptFault> {
    run_script(alloc, &script?)
}

impl Script {
    /// The script with one more line.
    fn with(mut self, line: Line) -> Result<Script, AllocError> {
        let number = self.lines.len() as u64 + 2;
        self.lines.push(Numbered { number, line })?;
        Ok(self)
    }

    fn intern(self, alloc: Global, seat: u64, text: &[u8]) -> Result<Script, AllocError> {
        let mut copy = Vec::new(alloc);
        copy.extend_from_slice(text)?;
        self.call(seat, Asked::Intern(copy))
    }

    fn lookup(self, alloc: Global, seat: u64, text: &[u8]) -> Result<Script, AllocError> {
        let mut copy = Vec::new(alloc);
        copy.extend_from_slice(text)?;
        self.call(seat, Asked::Lookup(copy))
    }

    fn call(self, seat: u64, asked: Asked) -> Result<Script, AllocError> {
        self.with(Line::Call { seat, asked })
    }

    fn run(self, seat: u64) -> Result<Script, AllocError> {
        self.with(Line::Run { seat })
    }

    fn until(self, seat: u64, kind: StepKind) -> Result<Script, AllocError> {
        self.with(Line::Until { seat, kind })
    }

    fn step(self, seat: u64, steps: u32) -> Result<Script, AllocError> {
        self.with(Line::Step { seat, steps })
    }

    fn chain(self, row: u64, bucket: u64) -> Result<Script, AllocError> {
        self.with(Line::Chain { row, bucket })
    }
}
