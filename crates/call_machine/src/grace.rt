//! Graces: the counter is raised, and the section word of each seat number is looked at.
ghost use Rattle.std.specs.Prelude.{◌≡◌, ℕ};
ghost use Rattle.table_shape.specs.declared.shape.Shape.{Shape};
ghost use Rattle.atomic_step.specs.SoundStep.{CanBeFound};
ghost use Rattle.table_shape.specs.Place.{IsInside};
ghost use Rattle.atomic_step.specs.Step.{access_of};
ghost use Rattle.call_machine.specs.Grace as graces;

use atomic_step::{Answer, Step};
use section_core::waits_for;

/// Where its last grace raised the counter to this value or more, a work begins no further one.
pub const LAST_GRACE: u64 = 1 << 63;

/// A grace that has begun: one that waits for each section that was opened with a counter below the
/// raised one.
#[derive(Clone, Copy, Debug, PartialEq, Eq)]
pub struct Grace {
    /// To what the counter was raised.
    pub raised: u64,
    /// The number whose section word is looked at next.
    pub next: u32,
}

/// Where a grace stands.
#[derive(Clone, Copy, Debug, PartialEq, Eq)]
pub enum GraceStage {
    RaiseCounter,
    LoadSection,
}

/// What came of a step of a grace.
#[derive(Clone, Copy, Debug, PartialEq, Eq)]
pub enum Gracing {
    /// There are numbers left to look at.
    Goes,
    /// The section of the next number is waited for.
    Waits,
    /// Each section that was open as the counter was raised has been closed.
    Over,
}

/// No grace is begun any more where the last one raised the counter to the bound: the work waits for good.
pub(crate) fn held_back(raised: u64) -> Option<Answer>
    ensures value { result ≡ graces.held_back raised }
{
    if raised >= LAST_GRACE {
        Some(Answer::PendingSeat { seat: 0 })
    } else {
        None
    }
}

/// How many graces a work has begun after a step of one: one more where the counter is raised.
pub(crate) fn counts_grace(stage: GraceStage, before: u64) -> u64
    ensures value { result ≡ graces.counts_grace stage before }
{
    match stage {
        GraceStage::RaiseCounter => before.saturating_add(1),
        GraceStage::LoadSection => before,
    }
}

impl Grace {
    /// No grace has begun.
    pub const NONE: Grace = Grace { raised: 0, next: 0 };

    /// The step of a stage.
    pub(crate) fn step(self, stage: GraceStage) -> Step
        ensures value { (seats : ℕ) → result ≡ (graces.grace_row seats self stage).step }
    {
        match stage {
            GraceStage::RaiseCounter => Step::RaiseCounter,
            GraceStage::LoadSection => Step::LoadSection { number: self.next },
        }
    }

    /// What comes of the word that was found.
    pub(crate) fn next(self, seats: u32, stage: GraceStage, word: u64) -> (Grace, Gracing)
        requires fits { (shape : Shape) × (shape.seats ≡ seats) × IsInside shape (access_of (graces.grace_row seats self stage).step).place × CanBeFound shape (graces.grace_row seats self stage).step word }
        ensures value { result ≡ (graces.grace_row seats self stage).next word }
    {
        match stage {
            GraceStage::RaiseCounter => {
                let raised = word + 2;
                (Grace { raised, next: 0 }, Gracing::Goes)
            }
            GraceStage::LoadSection if waits_for(self.raised, word) => (self, Gracing::Waits),
            GraceStage::LoadSection if self.next + 1 == seats => (self, Gracing::Over),
            GraceStage::LoadSection => {
                let next = self.next + 1;
                (Grace { next, ..self }, Gracing::Goes)
            }
        }
    }
}
