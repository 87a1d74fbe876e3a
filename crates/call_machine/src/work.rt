//! The unfinished work of a seat.
ghost use Rattle.std.specs.Prelude.{◌≡◌};
ghost use Rattle.table_shape.specs.declared.shape.Shape.{Shape};
ghost use Rattle.table_shape.specs.Shape.{IsSound};
ghost use Rattle.atomic_step.specs.SoundStep.{CanBeFound};
ghost use Rattle.call_machine.specs.Work.{work_row, resumes, begun_work, IsSoundWork};

use crate::begin::Left;
use crate::clean::Clean;
use crate::resize::Resize;
use atomic_step::{Answer, Shape, Step};

/// The unfinished work of a seat: a clean, or a grow or a shrink.
#[derive(Debug, Drop)]
pub enum Work {
    Clean(Clean),
    Resize(Resize),
}

impl Work {
    /// The work that a call has begun.
    pub(crate) fn begun(shape: &Shape, left: Left) -> Option<Work>
        ensures value { result ≡ begun_work shape.now left }
    {
        match left {
            Left::Clean => Some(Work::Clean(Clean::begun(shape.min_level))),
            Left::Resize { direction, level } => {
                Some(Work::Resize(Resize::begun(direction, level)))
            }
            Left::Nothing | Left::Grace(_) => None,
        }
    }

    /// The next step of the work.
    pub fn step(&self) -> Step
        requires sound { (shape : Shape) × IsSound shape × IsSoundWork shape self.now }
        ensures value { (shape : Shape) → result ≡ (work_row shape self.now).step }
    {
        match self {
            Work::Clean(clean) => clean.step(),
            Work::Resize(resize) => resize.step(),
        }
    }

    /// Takes the word that the step found; for a store any word. What the poll answers, if anything.
    pub(crate) fn got(&mut self, shape: &Shape, word: u64) -> Option<Answer>
        requires table { IsSound shape.now }
        requires sound { IsSoundWork shape.now self.old }
        requires fits { CanBeFound shape.now (work_row shape.now self.old).step word }
        ensures value { (self.new, result) ≡ (work_row shape.now self.old).next word }
    {
        match self {
            Work::Clean(clean) => clean.got(shape, word),
            Work::Resize(resize) => resize.got(shape, word),
        }
    }

    /// A new poll begins: what it answers without a step, if anything.
    pub(crate) fn begin_poll(&mut self) -> Option<Answer>
        ensures value { (self.new, result) ≡ resumes self.old }
    {
        match self {
            Work::Clean(clean) => clean.begin_poll(),
            Work::Resize(resize) => resize.begin_poll(),
        }
    }
}
