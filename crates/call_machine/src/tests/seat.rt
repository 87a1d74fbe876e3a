//! A seat of a table for tests, with the call that it makes.
ghost use Rattle.std.specs.Prelude.{◌≡◌, ◌↔◌, IsTrue, IfSome, None};
ghost use Rattle.table_shape.specs.declared.shape.Shape.{Shape};
ghost use Rattle.table_shape.specs.Shape.{IsSound};
ghost use Rattle.atomic_step.specs.SoundStep.{CanStandAt, CanBeFound, CanFollow};
ghost use Rattle.call_machine.specs.Machine.{shape_of, plan_of};
ghost use Rattle.call_machine.specs.SoundMachine.{IsSoundMachine, IsSoundOwn, MayStart};

use super::table::Table;
use crate::call::Call;
use crate::machine::{Machine, Own, may_start};
use atomic_step::count::{Change, is_live};
use atomic_step::{Answer, Op, Plan, Step, StepKind, Want};
use intern_log::{Kind, What};
use marked_word::length_in;
use std::alloc::{AllocError, Global};
use std::marker::Model;
use std::mem;
use std::process::Abort;
use table_shape::{Place, Shape};

/// Whether a word can stand at a place.
fn can_stand_at(shape: &Shape, place: Place, word: u64) -> bool
    ensures stands { IsTrue result → CanStandAt shape.now place word }
{
    let levels = u64::from(shape.min_level)..=u64::from(shape.max_level);
    match place {
        Place::Counter => word % 2 == 0 && word <= u64::MAX - 3,
        Place::Level => levels.contains(&word),
        Place::NewLevel => 1 <= word && levels.contains(&(word - 1)),
        Place::Head { .. } => word / 4 <= u64::from(shape.slots),
        Place::Link(_) => word <= u64::from(shape.slots),
        Place::Meta(_) => {
            word < 1 << 48 && u64::from(length_in(word)) <= 8 * u64::from(shape.text_words)
        }
        _ => true,
    }
}

/// Whether a step finds a word that can stand where it looks.
fn can_be_found(shape: &Shape, step: Step, word: u64) -> bool
    ensures found { IsTrue result → CanBeFound shape.now step word }
{
    match step {
        Step::PutNewLevel { .. } => true,
        Step::SeeHandle {
            change: Change::Kill,
            ..
        } => true,
        Step::SeeHandle { handle, .. } => is_live(handle, word),
        _ => can_stand_at(shape, step.place(), word),
    }
}

/// Gives a call the word that its step found, where it can stand there.
fn give(call: &mut Machine<'_>, shape: &Shape, step: Step, word: u64) -> bool
    requires shape { shape_of call.old ≡ shape.now }
    requires step { CanBeFound shape.now step word → CanFollow shape.now (plan_of call.old) word }
    ensures sound { IsSoundMachine call.old → IsSoundMachine call.new }
    ensures shape { shape_of call.new ≡ shape_of call.old }
{
    let fits = can_be_found(shape, step, word);
    if fits {
        call.got(word);
    }
    fits
}

/// What a seat with nothing unfinished has.
fn idle(number: u32, cursor: u32) -> Own
    ensures value { result ≡ record { number = number; cursor = cursor; work = None; grace = None } }
{
    Own {
        number,
        cursor,
        work: None,
        grace: None,
    }
}

/// A call at its first step.
fn started<'t>(rt: &impl Abort, kind: Kind, shape: &Shape, own: Own, call: Call<'t>) -> Machine<'t>
    requires shape { IsSound shape.now }
    requires own { IsSoundOwn shape.now own }
    ensures sound { IsSoundMachine result }
    ensures shape { shape_of result ≡ shape.now }
{
    assert!(rt; may_start(kind, shape, &own, call));
    Machine::start(kind, shape, 0, own, call)
}

/// What a seat does next.
pub(crate) enum Act {
    Makes(StepKind, Place, Op, Option<What>),
    Answers(Answer),
    /// Its step found a word that cannot stand there.
    Refuses(u64),
}

/// A seat with the call that it makes, if any.
#[derive(Drop)]
pub(crate) struct Seat<'t> {
    kind: Kind,
    shape: Shape,
    own: Own,
    call: Option<Machine<'t>>,
    /// How many nodes its last call had passed as it answered.
    passed: u32,
}

impl<'t> Model for Seat<'t> {
    ghost Value = { Shape };

    ghost view = { λ s. s.shape };

    ghost invariant = { λ s. IsSound s.shape × IsSoundOwn s.shape s.own × IfSome s.call (λ m. IsSoundMachine m × (shape_of m ≡ s.shape)) };
}

impl<'t> Seat<'t> {
    /// A seat with nothing unfinished.
    pub(crate) fn of(
        rt: &impl Abort,
        kind: Kind,
        shape: Shape,
        number: u32,
        cursor: u32,
    ) -> Seat<'t> {
        assert!(rt; shape.check().is_ok());
        assert!(rt; number < shape.seats && cursor < shape.slots);
        Seat {
            kind,
            shape,
            own: idle(number, cursor),
            call: None,
            passed: 0,
        }
    }

    /// Whether no call goes on.
    pub(crate) fn is_idle(&self) -> bool {
        self.call.is_none()
    }

    /// The slot from which the seat looks for a free one.
    pub(crate) fn cursor(&self) -> u32 {
        self.own.cursor
    }

    /// How many nodes the call has passed that goes on, or the last one.
    pub(crate) fn passed(&self) -> u32 {
        match &self.call {
            Some(call) => call.passed(),
            None => self.passed,
        }
    }

    /// The text of the call that goes on.
    pub(crate) fn text(&self) -> &[u8] {
        match &self.call {
            Some(call) => call.text(),
            None => b"",
        }
    }

    /// What is unfinished.
    pub(crate) fn keeps(&self) -> &'static str {
        match (self.own.work.is_some(), self.own.grace.is_some()) {
            (true, true) => "both",
            (true, false) => "work",
            (false, true) => "grace",
            (false, false) => "nothing",
        }
    }

    /// Whether the seat may make the call.
    pub(crate) fn may_start(&self, call: Call<'t>) -> bool {
        may_start(self.kind, &self.shape, &self.own, call)
    }

    /// Begins a call.
    pub(crate) fn begins(&mut self, rt: &impl Abort, call: Call<'t>) {
        assert!(rt; self.call.is_none(), "a call goes on");
        let idle = idle(self.own.number, self.own.cursor);
        let own = mem::replace(&mut self.own, idle);
        self.call = Some(started(rt, self.kind, &self.shape, own, call));
    }

    /// Makes the next step of the call, or takes its answer.
    pub(crate) fn acts(
        &mut self,
        rt: &impl Abort,
        alloc: Global,
        table: &mut Table,
    ) -> Result<Act, AllocError> {
        let Some(mut call) = self.call.take() else {
            panic!(rt; "no call goes on");
        };
        match call.plan() {
            Plan::Answered(_) => {
                self.passed = call.passed();
                let (own, answer) = call.finish();
                self.own = own;
                Ok(Act::Answers(answer))
            }
            Plan::Step(step) => {
                let Want::Do { op, kind } = call.want() else {
                    unreachable!();
                };
                let place = step.place();
                assert!(rt; self.shape.check().is_ok() && self.shape.has(place));
                assert_eq!(rt; self.shape.index(place), op.at());
                let word = table.make(op);
                let event = call.event(alloc, word)?;
                let fits = give(&mut call, &self.shape, step, word);
                self.call = Some(call);
                match fits {
                    true => Ok(Act::Makes(kind, place, op, event)),
                    false => Ok(Act::Refuses(word)),
                }
            }
        }
    }
}
