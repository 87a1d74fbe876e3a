//! Leaving a section: a slot that was claimed in vain is given back, and the section is closed.
ghost use Rattle.std.specs.Prelude.{◌≡◌};
ghost use Rattle.call_machine.specs.Leave as leave;
ghost use Rattle.call_machine.specs.Sought.{asked_of};

use crate::enter::EnterStage;
use crate::find::{FindStage, Walk};
use crate::stage::{Along, CallStage, Goal, Request};
use atomic_step::{Answer, Step};
use intern_log::Handle;

/// What comes once the section is closed.
#[derive(Clone, Copy, Debug, PartialEq, Eq)]
pub enum Then {
    Answer(Answer),
    TryAgain,
}

/// Where a call stands that leaves its section: a slot that it claimed is given back before.
#[derive(Clone, Copy, Debug, PartialEq, Eq)]
pub enum LeaveStage {
    UndoCount { handle: Handle, then: Then },
    UndoClaim { slot: u32, then: Then },
    Close { then: Then },
}

impl LeaveStage {
    /// The step of the stage.
    pub(crate) fn step(self, request: &Request<'_>) -> Step
        ensures value { (w : Along) → result ≡ (leave.leave_row (asked_of request.now) w self).step }
    {
        let number = request.number;
        match self {
            LeaveStage::UndoCount { handle, .. } => Step::PutCount { handle, holds: 0 },
            LeaveStage::UndoClaim { slot, .. } => Step::FreeSlot { slot },
            LeaveStage::Close { .. } => Step::CloseSection { number },
        }
    }

    /// What comes of the step, whatever it found.
    pub(crate) fn next(self, request: &Request<'_>, along: Along, word: u64) -> (Along, CallStage)
        ensures value { result ≡ (leave.leave_row (asked_of request.now) along self).next word }
    {
        match self {
            LeaveStage::UndoCount { handle, then } => {
                let slot = handle.slot;
                let undone = LeaveStage::UndoClaim { slot, then };
                (along, CallStage::Leave(undone))
            }
            LeaveStage::UndoClaim { then, .. } => (
                Along {
                    kept: None,
                    ..along
                },
                CallStage::Leave(LeaveStage::Close { then }),
            ),
            LeaveStage::Close { then } => left_for(along, then),
        }
    }
}

/// The section is closed: the call answers, or finds its head anew.
fn left_for(along: Along, then: Then) -> (Along, CallStage)
    ensures value { result ≡ leave.left_for along then }
{
    match then {
        Then::Answer(answer) => (along, CallStage::Answered(answer)),
        Then::TryAgain => {
            let walk = Walk {
                passed: 0,
                ..along.walk
            };
            let enters = FindStage::Enter(EnterStage::LoadCounter);
            (Along { walk, ..along }, CallStage::Find(enters))
        }
    }
}

/// Leaving to try again.
pub(crate) fn tries_again() -> CallStage
    ensures value { result ≡ leave.tries_again }
{
    CallStage::Leave(LeaveStage::Close {
        then: Then::TryAgain,
    })
}

/// Leaving with an answer; a slot that is kept is given back before.
pub(crate) fn leaves_with(kept: Option<Handle>, answer: Answer) -> CallStage
    ensures value { result ≡ leave.leaves_with kept answer }
{
    let then = Then::Answer(answer);
    CallStage::Leave(match kept {
        None => LeaveStage::Close { then },
        Some(handle) => LeaveStage::UndoCount { handle, then },
    })
}

/// Another was faster: the intern that waits tries again, and any other call answers.
pub(crate) fn loses_with(goal: Goal, kept: Option<Handle>, answer: Answer) -> CallStage
    ensures value { result ≡ leave.loses_with goal kept answer }
{
    match goal {
        Goal::InternWait => tries_again(),
        Goal::Lookup | Goal::Intern => leaves_with(kept, answer),
    }
}
