//! Graces: a seat raises the grace counter, and polls until each section that was open then has been closed.
ghost use Rattle.std.specs.Prelude.{◌≡◌, ◌<◌, None, Some};
ghost use Rattle.call_machine.specs.declared.begin.Left.TheVariants as left;
ghost use Rattle.call_machine.specs.declared.call.Call.TheVariants as call;
ghost use Rattle.call_machine.specs.declared.grace.Grace.{Grace as Gracing};
ghost use Rattle.call_machine.specs.declared.grace.GraceStage.TheVariants.{LoadSection};
ghost use Rattle.call_machine.specs.Begin.{begun, goes_on, graced};
ghost use Rattle.cht_run.specs.Beginnings.{begins_at, grace_ended, MayBegin, MayPollGrace};
ghost use Rattle.cht_run.specs.Ended.{KeepsFields};
ghost use Rattle.cht_run.specs.Ends.{HasNothing};
ghost use Rattle.cht_run.specs.Graces.{IsGraceOf, BeginsGrace, PollsGrace};
ghost use Rattle.cht_run.specs.Runs.{Ran};
ghost use Rattle.cht_run.specs.Seats.{sight, grace_of, IsOf};
ghost use Rattle.cht_run.specs.Underway.{IsAt, scanned_to};

use crate::layout::COUNTER;
use crate::operations::Began;
use crate::scan::scanned;
use crate::seat::{Raw, Seat};
use crate::table::Cht;
use atomic_step::Step;
use call_machine::Grace as State;
use call_machine::begin::SPENT;
use call_machine::grace::Gracing as Came;
use std::marker::Brand;

/// An unfinished grace of a seat. It is polled until it is over.
pub struct Grace {
    /// How far it has come.
    pub(crate) state: State,
}

/// What comes of a call that is to begin a grace.
pub enum BeganGrace {
    /// The counter was raised, and the grace is to be polled.
    Begun(Grace),
    /// The counter has reached 2^48: nothing begins any more.
    Spent { counter: u64 },
}

/// What comes of the poll of a grace.
pub enum PolledGrace {
    /// Each section that was open as the counter was raised has been closed.
    Ready,
    /// The section of this seat is still open.
    Pending { grace: Grace, seat: u32 },
}

impl Cht {
    /// Raises the counter: the grace begins.
    #[inline(always)]
    fn raise_first<M: Began>(&self, seat: &mut Raw) -> State
        requires at { IsAt self.now M.sight M.call seat.old (begins_at M.sight (goes_on None)) }
        ensures at { IsAt self.now M.sight M.call seat.new (begins_at M.sight (begun (left.Grace result))) }
    {
        let counter = self.fetch_add(seat, Step::RaiseCounter, COUNTER, 2);
        State {
            raised: counter + 2,
            next: 0,
        }
    }

    /// Begins a grace, from the first step to the last.
    fn begin_grace_of<M: Began>(&self, seat: &mut Raw) -> BeganGrace
        requires begins { MayBegin self.now M.sight M.call seat.old }
        requires asks { M.call ≡ call.BeginGrace }
        ensures at { IsAt self.now M.sight M.call seat.new (begins_at M.sight (grace_ended result)) }
    {
        let counter = self.load_counter::<M>(seat);
        if counter >= SPENT {
            return BeganGrace::Spent { counter };
        }
        let state = self.raise_first::<M>(seat);
        BeganGrace::Begun(Grace { state })
    }

    /// Polls a grace, from the first step to the last: whether it is over.
    fn poll_grace_of<M: Began>(&self, seat: &mut Raw, state: &mut State) -> bool
        requires polls { MayPollGrace self.now M.sight M.call seat.old state.old }
        requires inside { state.old.next < self.now.origin.table.shape.seats }
        ensures at { IsAt self.now M.sight M.call seat.new (begins_at M.sight (graced LoadSection state.new (scanned_to result))) }
    {
        let number = state.next;
        let index = self.layout.section(number);
        let word = self.begin_load::<M>(seat, Step::LoadSection { number }, index);
        let (then, came) = scanned(*state, self.origin.table.shape.seats, word);
        *state = then;
        match came {
            Came::Goes => self.scan::<M, Brand>(seat, state),
            Came::Waits => false,
            Came::Over => true,
        }
    }

    /// Begins a grace of a seat.
    fn run_begin_grace(&self, seat: &mut Seat) -> BeganGrace
        requires of { IsOf self.now seat.old }
        requires nothing { HasNothing seat.old }
        ensures of { IsOf self.now seat.new }
        ensures fields { KeepsFields seat.old seat.new }
        ensures ran { Ran (sight seat.old) call.BeginGrace (sight seat.new) (begins_at (sight seat.old) (grace_ended result)) }
    {
        self.begin_grace_of::<Brand>(&mut seat.raw)
    }

    /// Polls a grace that a seat has unfinished: whether it is over.
    fn run_grace_poll(&self, seat: &mut Seat, state: &mut State) -> bool
        requires of { IsOf self.now seat.old }
        requires grace { grace_of seat.old ≡ Some state.old }
        requires inside { state.old.next < self.now.origin.table.shape.seats }
        ensures of { IsOf self.now seat.new }
        ensures fields { KeepsFields seat.old seat.new }
        ensures ran { Ran (sight seat.old) call.PollGrace (sight seat.new) (begins_at (sight seat.old) (graced LoadSection state.new (scanned_to result))) }
    {
        self.poll_grace_of::<Brand>(&mut seat.raw, state)
    }

    /// Begins a grace.
    pub fn begin_grace(&self, seat: &mut Seat) -> BeganGrace
        requires of { IsOf self.now seat.old }
        requires nothing { HasNothing seat.old }
        ensures of { IsOf self.now seat.new }
        ensures fields { KeepsFields seat.old seat.new }
        ensures began { BeginsGrace self.now.origin.table seat.old seat.new result }
    {
        self.run_begin_grace(seat)
    }

    /// Polls a grace that the seat has begun.
    pub fn poll_grace(&self, seat: &mut Seat, grace: Grace) -> PolledGrace
        requires of { IsOf self.now seat.old }
        requires grace { IsGraceOf self.now.origin.table grace seat.old }
        ensures of { IsOf self.now seat.new }
        ensures fields { KeepsFields seat.old seat.new }
        ensures polled { (state : Gracing) → grace_of seat.old ≡ Some state → PollsGrace self.now.origin.table state seat.old seat.new result }
    {
        let Grace { mut state } = grace;
        if self.run_grace_poll(seat, &mut state) {
            return PolledGrace::Ready;
        }
        let number = state.next;
        PolledGrace::Pending {
            grace: Grace { state },
            seat: number,
        }
    }
}
