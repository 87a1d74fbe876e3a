//! The machine of a sweep: it finds the bucket of a text, locks it within its section, cleans it once, and
//! after a grace frees the slots that it unlinked.
ghost use Rattle.std.specs.Prelude.{◌≡◌, Option, Some, None};
ghost use Rattle.table_shape.specs.Shape.{IsSound};
ghost use Rattle.atomic_step.specs.SoundStep.{CanFollow};
ghost use Rattle.call_machine.specs.Caller.{IsSoundCaller};
ghost use Rattle.call_machine.specs.Sweep as sweeps;
ghost use Rattle.call_machine.specs.SoundSweep.{IsSoundSweep, IsSoundSweepAt, FitsSweep};

use crate::begin::SPENT;
use crate::caller::Caller;
use crate::enter::EnterStage;
use crate::find::{FindStage, Walk};
use crate::grace::{Grace, GraceStage, Gracing};
use crate::lock::{LockStage, Locking};
use crate::pass::{Cleaning, FreeStage, PassStage, passes_on};
use atomic_step::{Answer, Plan, Step};
use marked_word::is_locked;
use std::marker::Model;

/// Who sweeps, and the hash of the text whose bucket is swept.
#[derive(Clone, Copy, Debug, PartialEq, Eq)]
pub struct SweepAsked {
    pub caller: Caller,
    pub hash: u32,
}

/// Why a sweep closes its section.
#[derive(Clone, Copy, Debug, PartialEq, Eq)]
pub enum Closing {
    /// The bucket is locked by another: its head is found anew.
    Again,
    /// The bucket is locked by the sweep, and cleaned next.
    Clean,
}

/// Where a sweep stands.
#[derive(Clone, Copy, Debug, PartialEq, Eq)]
pub enum SweepStage {
    /// The counter is loaded: where it has grown to 2^48 nothing begins any more.
    Check,
    /// The head of the bucket is looked for.
    Find(FindStage),
    /// The head that was found is locked.
    Lock,
    Close(Closing),
    Pass(PassStage),
    UnlockHead,
    Grace(GraceStage),
    Free(FreeStage),
    Answered(Answer),
}

/// What goes along with a sweep.
#[derive(Debug, Drop)]
pub struct SweepAlong {
    pub walk: Walk,
    pub cleaning: Cleaning,
    pub grace: Grace,
}

/// What contracts see of a sweep on its way. No value of it is made.
pub struct Sweeping {
    pub asked: SweepAsked,
    pub along: SweepAlong,
    pub stage: SweepStage,
}

/// A sweep on its way.
#[derive(Drop)]
pub struct SweepMachine {
    asked: SweepAsked,
    along: SweepAlong,
    stage: SweepStage,
}

impl Model for SweepMachine {
    ghost use Rattle.call_machine.specs.declared.sweep.Sweeping.{Sweeping};
    ghost use Rattle.call_machine.specs.SoundSweep.{IsSoundSweepAt};

    ghost Value = { Sweeping };

    ghost view = { λ m. record { asked = m.asked; along = m.along; stage = m.stage } };

    ghost invariant = { λ m. IsSoundSweepAt m.asked m.along m.stage };
}

/// The head of the bucket is looked for anew.
const FINDS_ANEW: SweepStage = SweepStage::Find(FindStage::Enter(EnterStage::LoadCounter));

/// The counter was loaded.
fn checked(counter: u64) -> SweepStage
    ensures value { result ≡ sweeps.checked counter }
{
    if counter >= SPENT {
        SweepStage::Answered(Answer::Spent { counter })
    } else {
        FINDS_ANEW
    }
}

/// The head is still looked for, or it is found.
fn finds_on(head: u64, next: Option<FindStage>) -> SweepStage
    ensures value { result ≡ sweeps.finds_on head next }
{
    match next {
        Some(stage) => SweepStage::Find(stage),
        None if is_locked(head) => SweepStage::Close(Closing::Again),
        None => SweepStage::Lock,
    }
}

/// At the next node of the locked bucket, or at its end.
fn cleans_on(next: Option<PassStage>) -> SweepStage
    ensures value { result ≡ sweeps.cleans_on next }
{
    match next {
        Some(stage) => SweepStage::Pass(stage),
        None => SweepStage::UnlockHead,
    }
}

/// What came of a step of the grace.
fn graces_on(gracing: Gracing) -> SweepStage
    ensures value { result ≡ sweeps.graces_on gracing }
{
    match gracing {
        Gracing::Over => SweepStage::Free(FreeStage::PutNextGeneration { at: 0 }),
        Gracing::Goes | Gracing::Waits => SweepStage::Grace(GraceStage::LoadSection),
    }
}

impl SweepAlong {
    /// What came of the exchange of the head.
    fn locks_on(&mut self, locking: Locking) -> SweepStage
        ensures value { (self.new, result) ≡ sweeps.locks_on self.old locking }
    {
        match locking {
            Locking::Locked { first } => {
                let Walk { row, bucket, .. } = self.walk;
                self.cleaning = Cleaning::none(row, bucket);
                self.cleaning.begin_pass(first);
                SweepStage::Close(Closing::Clean)
            }
            Locking::Goes(_) | Locking::Waits => SweepStage::Close(Closing::Again),
        }
    }

    /// The section is closed.
    fn closed(&self, closing: Closing) -> SweepStage
        ensures value { result ≡ sweeps.closed self.now.cleaning closing }
    {
        match closing {
            Closing::Again => FINDS_ANEW,
            Closing::Clean => cleans_on(passes_on(self.cleaning.first)),
        }
    }

    /// The sweep answers with how many slots it unlinked.
    fn swept(&self) -> SweepStage
        ensures value { result ≡ sweeps.swept self.now.cleaning }
    {
        let unlinked = self.cleaning.unlinked.min(u64::from(u32::MAX)) as u32;
        SweepStage::Answered(Answer::Swept { unlinked })
    }

    /// The bucket is unlocked.
    fn unlocked(&self) -> SweepStage
        ensures value { result ≡ sweeps.unlocked self.now.cleaning self.now.cleaning.waiting.items }
    {
        if self.cleaning.waiting.is_empty() {
            self.swept()
        } else {
            SweepStage::Grace(GraceStage::RaiseCounter)
        }
    }

    /// What comes of the word that the step of a stage found.
    fn next(&mut self, asked: &SweepAsked, stage: SweepStage, word: u64) -> SweepStage
        requires sound { IsSoundSweepAt asked.now self.old stage }
        requires fits { CanFollow asked.now.caller.shape (sweeps.plan_at asked.now self.old stage) word }
        ensures value { (self.new, result) ≡ sweeps.next_at asked.now self.old stage word }
    {
        let SweepAsked { caller, hash } = *asked;
        match stage {
            SweepStage::Check => checked(word),
            SweepStage::Find(stage) => {
                let (walk, next) = stage.next(caller.number, hash, self.walk, word);
                self.walk = walk;
                finds_on(walk.head, next)
            }
            SweepStage::Lock => {
                let Walk {
                    row,
                    bucket,
                    head,
                    ..
                } = self.walk;
                self.locks_on(LockStage::LockHead { head }.next(row, bucket, word))
            }
            SweepStage::Close(closing) => self.closed(closing),
            SweepStage::Pass(stage) => cleans_on(self.cleaning.pass(stage, word)),
            SweepStage::UnlockHead => self.unlocked(),
            SweepStage::Grace(stage) => {
                let (grace, gracing) = self.grace.next(caller.shape.seats, stage, word);
                self.grace = grace;
                graces_on(gracing)
            }
            SweepStage::Free(stage) => match self.cleaning.free(stage) {
                Some(next) => SweepStage::Free(next),
                None => self.swept(),
            },
            SweepStage::Answered(_) => stage,
        }
    }
}

impl SweepMachine {
    /// A sweep of the bucket of a text with this hash.
    pub fn start(caller: Caller, hash: u32) -> SweepMachine
        requires caller { IsSoundCaller caller }
        ensures value { result ≡ sweeps.begun_sweep caller hash }
    {
        SweepMachine {
            asked: SweepAsked { caller, hash },
            along: SweepAlong {
                walk: Walk::NONE,
                cleaning: Cleaning::none(caller.shape.min_level, 0),
                grace: Grace::NONE,
            },
            stage: SweepStage::Check,
        }
    }

    /// What comes next: a step, or nothing but the answer.
    pub fn plan(&self) -> Plan
        ensures value { result ≡ sweeps.sweep_plan self.now }
        ensures sound { IsSoundSweep self.now }
    {
        let SweepAlong {
            walk,
            cleaning,
            grace,
        } = &self.along;
        let Walk {
            row,
            bucket,
            head,
            ..
        } = *walk;
        let number = self.asked.caller.number;
        Plan::Step(match self.stage {
            SweepStage::Check => Step::LoadCounter,
            SweepStage::Find(stage) => stage.step(number, *walk),
            SweepStage::Lock => Step::LockHead { row, bucket, head },
            SweepStage::Close(_) => Step::CloseSection { number },
            SweepStage::Pass(stage) => cleaning.pass_step(stage),
            SweepStage::UnlockHead => Step::UnlockHead {
                row: cleaning.row,
                bucket: cleaning.bucket,
                first: cleaning.first,
            },
            SweepStage::Grace(stage) => grace.step(stage),
            SweepStage::Free(stage) => cleaning.free_step(stage),
            SweepStage::Answered(answer) => return Plan::Answered(answer),
        })
    }

    /// Takes the word that the step found; for a store any word.
    pub fn got(&mut self, word: u64)
        requires fits { FitsSweep self.old word }
        ensures value { self.new ≡ sweeps.sweep_got self.old word }
    {
        self.stage = self.along.next(&self.asked, self.stage, word);
    }

    /// Who calls.
    pub fn caller(&self) -> Caller
        ensures value { result ≡ self.now.asked.caller }
        ensures sound { IsSoundCaller result }
    {
        self.asked.caller
    }
}
