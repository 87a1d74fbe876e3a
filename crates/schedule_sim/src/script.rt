//! A script as it was read.
ghost use Rattle.std.specs.Prelude.{◌≡◌};
ghost use Rattle.cht_core.specs.State.{IsFirstCounter};
ghost use Rattle.schedule_sim.specs.Fit.{IsFit};

use atomic_step::{Shape, StepKind};
use intern_log::Kind;
use std::alloc::AllocError;

/// Why there is no script, or why it was not run to its end.
#[derive(Clone, Copy, Debug, PartialEq, Eq)]
pub enum ScriptFault {
    /// The line of this number, counted from 1, is at fault.
    Line { number: u64 },
    /// There was no memory.
    OutOfMemory,
}

impl From<AllocError> for ScriptFault {
    ghost use Rattle.schedule_sim.specs.declared.script.ScriptFault.TheVariants.{OutOfMemory};

    ghost from_gives = { λ _ fault. fault ≡ OutOfMemory };

    fn from(_: AllocError) -> Self {
        ScriptFault::OutOfMemory
    }
}

/// A table, and what is done with it, line by line. The shape and the first counter are ones of a script.
#[derive(Debug, Drop)]
pub struct Script {
    pub(crate) kind: Kind,
    pub(crate) shape: Shape,
    pub(crate) first_counter: u64,
    /// The lines after the first one that was not passed over, without those that are passed over.
    pub(crate) lines: Vec<Numbered>,
    ghost fit: { IsFit shape },
    ghost begins: { IsFirstCounter first_counter },
}

/// A line and its number in the script, counted from 1.
#[derive(Debug, Drop)]
pub(crate) struct Numbered {
    pub(crate) number: u64,
    pub(crate) line: Line,
}

/// What a line asks for.
#[derive(Debug, Drop)]
pub(crate) enum Line {
    /// Starts a call of the seat.
    Call { seat: u64, asked: Asked },
    /// Makes so many steps of the seat's call, or fewer where it answers.
    Step { seat: u64, steps: u32 },
    /// Makes steps until the next one is of this kind, or the call answers.
    Until { seat: u64, kind: StepKind },
    /// Makes steps until the call answers.
    Run { seat: u64 },
    /// Prints the texts of a chain.
    Chain { row: u64, bucket: u64 },
    /// Makes the table anew with the next seed.
    Rehash,
}

/// The call that a line starts.
#[derive(Debug, Drop)]
pub(crate) enum Asked {
    Intern(Vec<u8>),
    Lookup(Vec<u8>),
    Drop { slot: u64, generation: u64 },
    Permanent { slot: u64, generation: u64 },
    Kill { slot: u64, generation: u64 },
    Clean,
    Grow,
    Shrink,
    Poll,
}
