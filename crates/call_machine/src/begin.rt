//! The calls that begin a clean, a grow, a shrink or a grace, and the poll of a grace.
ghost use Rattle.std.specs.Prelude.{◌≡◌, ◌<◌, Option, Some, None};
ghost use Rattle.atomic_step.specs.SoundStep.{IsSoundPlan};
ghost use Rattle.call_machine.specs.Begin as begins;
ghost use Rattle.call_machine.specs.Caller.{IsSoundCaller};
ghost use Rattle.call_machine.specs.SoundBegin.{IsSoundBegin, FitsBegin};

use crate::caller::Caller;
use crate::grace::{Grace, GraceStage, Gracing};
use crate::resize::Direction;
use atomic_step::{Answer, Plan, Shape, Step};
use std::marker::Model;

/// The value of the grace counter from which on nothing begins any more.
pub const SPENT: u64 = 1 << 48;

/// Which work is to begin.
#[derive(Clone, Copy, Debug, PartialEq, Eq)]
pub enum Task {
    Clean,
    Grow,
    Shrink,
}

/// What such a call leaves its seat unfinished.
#[derive(Clone, Copy, Debug, PartialEq, Eq)]
pub enum Left {
    Nothing,
    /// A clean has begun.
    Clean,
    /// A grow or a shrink has begun, from this level.
    Resize { direction: Direction, level: u8 },
    /// A grace has begun, or waits for a section.
    Grace(Grace),
}

/// Where a call stands that begins a work or a grace, or polls a grace.
#[derive(Clone, Copy, Debug, PartialEq, Eq)]
pub enum BeginStage {
    /// Before the work of this task, or before a grace.
    LoadCounter { task: Option<Task> },
    TakeResizeLock { task: Task },
    /// A grow or a shrink has the resize lock.
    LoadLevel { direction: Direction },
    /// The level is at its bound, which is the answer.
    GiveResizeLock { answer: Answer },
    Grace { grace: Grace, stage: GraceStage },
    Answered { answer: Answer, left: Left },
}

/// What contracts see of such a call. No value of it is made.
pub struct Beginning {
    pub caller: Caller,
    pub stage: BeginStage,
}

/// A call that begins a work or a grace, or polls a grace.
#[derive(Drop)]
pub struct BeginMachine {
    caller: Caller,
    stage: BeginStage,
}

impl Model for BeginMachine {
    ghost use Rattle.call_machine.specs.declared.begin.Beginning.{Beginning};
    ghost use Rattle.call_machine.specs.SoundBegin.{IsSoundBegin, FitsBegin};

    ghost Value = { Beginning };

    ghost view = { λ m. record { caller = m.caller; stage = m.stage } };

    ghost invariant = { λ m. IsSoundBegin (record { caller = m.caller; stage = m.stage }) };
}

/// The call has answered, and leaves nothing unfinished.
fn answers(answer: Answer) -> BeginStage
    ensures value { result ≡ begins.answers answer }
{
    BeginStage::Answered {
        answer,
        left: Left::Nothing,
    }
}

/// A work has begun.
fn begun(left: Left) -> BeginStage
    ensures value { result ≡ begins.begun left }
{
    BeginStage::Answered {
        answer: Answer::Begun,
        left,
    }
}

/// The counter was loaded.
fn counted(task: Option<Task>, counter: u64) -> BeginStage
    ensures value { result ≡ begins.counted task counter }
{
    match task {
        _ if counter >= SPENT => answers(Answer::Spent { counter }),
        Some(task) => BeginStage::TakeResizeLock { task },
        None => BeginStage::Grace {
            grace: Grace::NONE,
            stage: GraceStage::RaiseCounter,
        },
    }
}

/// The resize lock is taken: a clean has begun, and the others look at the level.
fn taken(task: Task) -> BeginStage
    ensures value { result ≡ begins.taken task }
{
    let direction = match task {
        Task::Clean => return begun(Left::Clean),
        Task::Grow => Direction::Grow,
        Task::Shrink => Direction::Shrink,
    };
    BeginStage::LoadLevel { direction }
}

/// The level was loaded: at its bound the resize lock is given back.
fn bounded(shape: &Shape, direction: Direction, level: u8) -> BeginStage
    ensures value { result ≡ begins.bounded shape.now direction level }
{
    match direction {
        Direction::Grow if level == shape.max_level => BeginStage::GiveResizeLock {
            answer: Answer::AtMaximum { level },
        },
        Direction::Shrink if level == shape.min_level => BeginStage::GiveResizeLock {
            answer: Answer::AtMinimum { level },
        },
        _ => begun(Left::Resize { direction, level }),
    }
}

/// The grace has gone a step: it begins with the raised counter, and is over once no section is waited for.
fn graced(stage: GraceStage, grace: Grace, gracing: Gracing) -> BeginStage
    ensures value { result ≡ begins.graced stage grace gracing }
{
    match (stage, gracing) {
        (GraceStage::RaiseCounter, _) => begun(Left::Grace(grace)),
        (GraceStage::LoadSection, Gracing::Goes) => BeginStage::Grace { grace, stage },
        (GraceStage::LoadSection, Gracing::Waits) => BeginStage::Answered {
            answer: Answer::PendingSeat { seat: grace.next },
            left: Left::Grace(grace),
        },
        (GraceStage::LoadSection, Gracing::Over) => answers(Answer::Ready),
    }
}

impl BeginMachine {
    /// A work of this task is to begin, or a grace.
    pub fn begin(caller: Caller, task: Option<Task>) -> BeginMachine
        requires caller { IsSoundCaller caller }
        ensures value { result ≡ begins.begins caller task }
    {
        BeginMachine {
            caller,
            stage: BeginStage::LoadCounter { task },
        }
    }

    /// A grace is polled.
    pub fn poll(caller: Caller, grace: Grace) -> BeginMachine
        requires caller { IsSoundCaller caller }
        requires grace { grace.next < caller.shape.seats }
        ensures value { result ≡ begins.polls_grace caller grace }
    {
        BeginMachine {
            caller,
            stage: BeginStage::Grace {
                grace,
                stage: GraceStage::LoadSection,
            },
        }
    }

    /// What comes next.
    pub fn plan(&self) -> Plan
        ensures value { result ≡ begins.begin_plan self.now }
        ensures sound { IsSoundPlan self.now.caller.shape self.now.caller.number result }
    {
        Plan::Step(match self.stage {
            BeginStage::LoadCounter { .. } => Step::LoadCounter,
            BeginStage::TakeResizeLock { .. } => Step::TakeResizeLock {
                number: self.caller.number,
            },
            BeginStage::LoadLevel { .. } => Step::LoadLevel,
            BeginStage::GiveResizeLock { .. } => Step::GiveResizeLock,
            BeginStage::Grace { grace, stage } => grace.step(stage),
            BeginStage::Answered { answer, .. } => return Plan::Answered(answer),
        })
    }

    /// Takes the word that the step found; for a store any word.
    pub fn got(&mut self, word: u64)
        requires fits { FitsBegin self.old word }
        ensures value { self.new ≡ begins.begin_got self.old word }
    {
        let shape = self.caller.shape;
        self.stage = match self.stage {
            BeginStage::LoadCounter { task } => counted(task, word),
            BeginStage::TakeResizeLock { task } if word == 0 => taken(task),
            BeginStage::TakeResizeLock { .. } => answers(Answer::Busy),
            BeginStage::LoadLevel { direction } => bounded(&shape, direction, word as u8),
            BeginStage::GiveResizeLock { answer } => answers(answer),
            BeginStage::Grace { grace, stage } => {
                let (grace, gracing) = grace.next(shape.seats, stage, word);
                graced(stage, grace, gracing)
            }
            BeginStage::Answered { .. } => unreachable!(),
        };
    }

    /// Who calls.
    pub fn caller(&self) -> Caller
        ensures value { result ≡ self.now.caller }
        ensures sound { IsSoundCaller result }
    {
        self.caller
    }

    /// What the call leaves its seat unfinished.
    pub fn left(&self) -> Left
        ensures value { result ≡ begins.left_of self.now.stage }
    {
        match self.stage {
            BeginStage::Answered { left, .. } => left,
            _ => Left::Nothing,
        }
    }
}
