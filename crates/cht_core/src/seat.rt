//! What a seat is at, between two steps.
ghost use Rattle.std.specs.Prelude.{◌≡◌, ℕ, ◌<◌, List, Option, Some, None, MatchOption};
ghost use Rattle.table_shape.specs.Shape.{IsSound};
ghost use Rattle.atomic_step.specs.declared.plan.Plan.TheVariants as plan;
ghost use Rattle.call_machine.specs.Machine as machines;
ghost use Rattle.call_machine.specs.SoundMachine.{IsSoundOwn, MayStart, FitsMachine};
ghost use Rattle.cht_core.specs.Begins.{first_own};
ghost use Rattle.cht_core.specs.State.{seat_after, answer_by};

use crate::table::Table;
use atomic_step::{Answer, Plan, Shape};
use call_machine::{Call, Machine, Own};

/// A seat of a table: between its calls, or in the middle of one.
#[derive(Drop)]
pub enum Seat<'t> {
    Idle { own: Own },
    Running { machine: Machine<'t> },
}

/// A seat whose number has just been drawn. It looks for free slots from its share of them on.
pub(crate) fn drawn<'t>(shape: &Shape, number: u32) -> Seat<'t>
    requires shape { IsSound shape.now }
    requires number { number < shape.now.seats }
    ensures value { result ≡ Seat.Idle (first_own shape.now number) }
{
    Seat::Idle {
        own: Own {
            number,
            cursor: number * (shape.slots / shape.seats),
            work: None,
            grace: None,
        },
    }
}

/// The seat of a call: between its calls again where the call has answered.
fn at_rest<'t>(machine: Machine<'t>) -> (Seat<'t>, Option<Answer>)
    ensures seat { result.0 ≡ seat_after machine.entry }
    ensures answer { result.1 ≡ answer_by (machines.plan_of machine.entry) }
{
    match machine.plan() {
        Plan::Step(_) => (Seat::Running { machine }, None),
        Plan::Answered(_) => {
            let (own, answer) = machine.finish();
            (Seat::Idle { own }, Some(answer))
        }
    }
}

/// A seat after a call of it was started, and the answer of a call that needs no step.
pub(crate) fn begun<'t>(
    table: &Table,
    seed: u32,
    own: Own,
    call: Call<'t>,
) -> (Seat<'t>, Option<Answer>)
    requires shape { IsSound table.now.shape }
    requires own { IsSoundOwn table.now.shape own }
    requires call { MayStart table.now.kind table.now.shape own call }
    ensures seat { result.0 ≡ seat_after (machines.started table.now.kind table.now.shape seed own call.entry) }
    ensures answer { result.1 ≡ answer_by (machines.plan_of (machines.started table.now.kind table.now.shape seed own call.entry)) }
{
    at_rest(Machine::start(table.kind, &table.shape, seed, own, call))
}

/// Tells the call of a seat the word that its step found. The answer of a call that has answered comes out, and its seat
/// is between its calls again. Else the call stays where it is in memory.
pub(crate) fn advance<'t>(seat: &mut Option<Seat<'t>>, word: u64) -> Option<Answer>
    requires fits { (machine : Machine) × (seat.old ≡ Some (Seat.Running machine)) × FitsMachine machine word }
    ensures seat { (machine : Machine) → seat.old ≡ Some (Seat.Running machine) → seat.new ≡ Some (seat_after (machines.got_of machine word)) }
    ensures answer { (machine : Machine) → seat.old ≡ Some (Seat.Running machine) → result ≡ answer_by (machines.plan_of (machines.got_of machine word)) }
{
    if let Some(Seat::Running { machine }) = seat {
        machine.got(word);
        if let Plan::Step(_) = machine.plan() {
            return None;
        }
    }
    rested(seat)
}

/// The answer of a seat's call that has answered. The seat is between its calls again. It moves the whole machine, so it
/// stands apart from the steps that move none.
#[inline(never)]
fn rested<'t>(seat: &mut Option<Seat<'t>>) -> Option<Answer>
    requires running { (machine : Machine) × (seat.old ≡ Some (Seat.Running machine)) }
    ensures seat { (machine : Machine) → seat.old ≡ Some (Seat.Running machine) → seat.new ≡ Some (seat_after machine) }
    ensures answer { (machine : Machine) → seat.old ≡ Some (Seat.Running machine) → result ≡ answer_by (machines.plan_of machine) }
{
    let Some(taken) = seat.take() else {
        unreachable!()
    };
    let Seat::Running { machine } = taken else {
        unreachable!()
    };
    let (next, answer) = at_rest(machine);
    *seat = Some(next);
    answer
}
