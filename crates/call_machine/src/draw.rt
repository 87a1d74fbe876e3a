//! A split: it loads how many numbers were drawn, and draws one more.
ghost use Rattle.std.specs.Prelude.{◌≡◌};
ghost use Rattle.call_machine.specs.declared.stage.Along.{Along};
ghost use Rattle.call_machine.specs.Draw as draw;
ghost use Rattle.call_machine.specs.Sought.{asked_of};

use crate::stage::{CallStage, Request};
use atomic_step::{Answer, Step};

/// Where a split stands.
#[derive(Clone, Copy, Debug, PartialEq, Eq)]
pub enum DrawStage {
    Load,
    Add,
}

impl DrawStage {
    /// The step of the stage.
    pub(crate) fn step(self, request: &Request<'_>) -> Step
        ensures value { (w : Along) → result ≡ (draw.draw_row (asked_of request.now) w self).step }
    {
        match self {
            DrawStage::Load => Step::LoadDraws,
            DrawStage::Add => Step::Draw,
        }
    }

    /// The next stage, after the step has found a word.
    pub(crate) fn next(self, request: &Request<'_>, word: u64) -> CallStage
        ensures value { (w : Along) → (w, result) ≡ (draw.draw_row (asked_of request.now) w self).next word }
    {
        if word >= u64::from(request.shape.seats) {
            return CallStage::Answered(Answer::SeatsSpent);
        }
        match self {
            DrawStage::Load => CallStage::Draw(DrawStage::Add),
            DrawStage::Add => CallStage::Answered(Answer::Split {
                number: word as u32,
            }),
        }
    }
}
