//! The calls by handle: a drop, a permanence, a kill.
ghost use Rattle.std.specs.Prelude.{◌≡◌};
ghost use Rattle.atomic_step.specs.SoundStep.{IsChangeable};
ghost use Rattle.call_machine.specs.declared.stage.Along.{Along};
ghost use Rattle.call_machine.specs.Handle as handles;
ghost use Rattle.call_machine.specs.Sought.{asked_of};

use crate::stage::{CallStage, Request};
use atomic_step::count::{holds_of, is_live};
use atomic_step::{Answer, Change, Step};
use intern_log::{Handle, PERMANENT};

/// Where a call by handle stands: the count is loaded and changed.
#[derive(Clone, Copy, Debug, PartialEq, Eq)]
pub enum HandleStage {
    Count { change: Change },
    Exchange { change: Change, count: u64 },
}

impl HandleStage {
    /// The step of the stage.
    pub(crate) fn step(self, request: &Request<'_>) -> Step
        ensures value { (w : Along) → result ≡ (handles.handle_row (asked_of request.now) w self).step }
    {
        let handle = request.handle;
        match self {
            HandleStage::Count { change } => Step::SeeHandle { change, handle },
            HandleStage::Exchange { change, count } => Step::ChangeEntry {
                change,
                handle,
                count,
            },
        }
    }

    /// The next stage, after the step has found a word.
    pub(crate) fn next(self, request: &Request<'_>, word: u64) -> CallStage
        requires changeable { handles.CanChange self }
        ensures value { (w : Along) → (w, result) ≡ (handles.handle_row (asked_of request.now) w self).next word }
    {
        match self {
            HandleStage::Count { change } => count_found(change, request.handle, word),
            HandleStage::Exchange { change, count } if word == count => {
                CallStage::Answered(made_answer(change, count))
            }
            HandleStage::Exchange { change, .. } => CallStage::Answered(lost_answer(change)),
        }
    }
}

/// The count was found: a drop leaves 65,535, and a kill needs the live entry of the handle.
fn count_found(change: Change, handle: Handle, word: u64) -> CallStage
    ensures value { result ≡ handles.count_found change handle word }
{
    let exchange = HandleStage::Exchange {
        change,
        count: word,
    };
    match change {
        Change::Drop if holds_of(word) == PERMANENT => CallStage::Answered(Answer::Permanent),
        Change::Kill if !is_live(handle, word) => CallStage::Answered(Answer::Stale),
        Change::Drop | Change::Permanent | Change::Kill => CallStage::Handle(exchange),
    }
}

/// The answer of a change that was made.
fn made_answer(change: Change, count: u64) -> Answer
    requires changeable { IsChangeable change count }
    ensures value { result ≡ handles.made_answer change count }
{
    match change {
        Change::Drop => Answer::Dropped {
            left: holds_of(count) - 1,
        },
        Change::Permanent => Answer::MadePermanent,
        Change::Kill => Answer::Killed,
    }
}

/// The answer of a change that was not made.
fn lost_answer(change: Change) -> Answer
    ensures value { result ≡ handles.lost_answer change }
{
    match change {
        Change::Kill => Answer::Stale,
        Change::Drop | Change::Permanent => Answer::Again,
    }
}
