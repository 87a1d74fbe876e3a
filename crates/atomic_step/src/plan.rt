//! What comes next in a call.
ghost use Rattle.std.specs.Prelude.{◌≡◌};
ghost use Rattle.table_shape.specs.Shape.{IsSound};
ghost use Rattle.atomic_step.specs.Turn.{want_of};
ghost use Rattle.atomic_step.specs.SoundStep.{CanBeWanted};

use crate::access::{Op, StepKind};
use crate::answer::Answer;
use crate::step::Step;
use table_shape::Shape;

/// What comes next in a call.
#[derive(Clone, Copy)]
pub enum Plan {
    Step(Step),
    Answered(Answer),
}

/// What a machine wants: its next step, as an operation on the word of an index, or nothing any more.
#[derive(Clone, Copy)]
pub enum Want {
    Do { op: Op, kind: StepKind },
    Answered(Answer),
}

impl Plan {
    /// What a machine wants by its plan, in a table of this shape.
    pub fn want(self, shape: &Shape) -> Want
        requires table { IsSound shape.now }
        requires sound { CanBeWanted shape.now self }
        ensures value { result ≡ want_of shape.now self }
    {
        match self {
            Plan::Step(step) => Want::Do {
                op: step.op(shape),
                kind: step.kind(),
            },
            Plan::Answered(answer) => Want::Answered(answer),
        }
    }
}
