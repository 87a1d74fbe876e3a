//! Polls of a work.
ghost use Rattle.std.specs.Prelude.{◌≡◌, ◌↔◌, IsTrue, Some};
ghost use Rattle.call_machine.specs.declared.call.Call.TheVariants as call;
ghost use Rattle.call_machine.specs.declared.work.Work.{Work as Working};
ghost use Rattle.call_machine.specs.Work.{IsSoundWork};
ghost use Rattle.cht_run.specs.Ended.{KeepsFields};
ghost use Rattle.cht_run.specs.Pending.{MayPend, IsHeld};
ghost use Rattle.cht_run.specs.Polls.{MayPoll, PendsOn};
ghost use Rattle.cht_run.specs.Runs.{Ran};
ghost use Rattle.cht_run.specs.Seats.{sight, work_of, IsOf};
ghost use Rattle.cht_run.specs.Underway.{IsAt, polled, answer_at};
ghost use Rattle.cht_run.specs.Works.{IsWorkOf, PollsWork};

use crate::operations::Began;
use crate::seat::{Raw, Seat};
use crate::table::Cht;
use crate::work::Work;
use crate::works::Polled;
use call_machine::clean::CleanStage;
use call_machine::grace::GraceStage;
use call_machine::resize::ResizeStage;
use call_machine::{Work as State, Worked};
use std::marker::Brand;

/// How the poll of a work ends.
#[derive(Clone, Copy)]
pub enum PollEnd {
    /// The work is done.
    Done(Worked),
    /// It waits for the section of this seat.
    PendingSeat { seat: u32 },
    /// It waits for this bucket.
    PendingBucket { row: u8, bucket: u32 },
}

/// Whether a work is pending before a grace: it may begin none any more, and waits for good.
fn is_held(state: &State) -> bool
    ensures exact { IsTrue result ↔ IsHeld state.now }
{
    match state {
        State::Clean(clean) => matches!(
            clean.stage,
            CleanStage::Grace {
                stage: GraceStage::RaiseCounter,
                ..
            }
        ),
        State::Resize(resize) => matches!(
            resize.stage,
            ResizeStage::Grace {
                stage: GraceStage::RaiseCounter,
                ..
            }
        ),
    }
}

impl Cht {
    /// Makes the first step of the poll of a work, and goes on with it until the poll ends.
    fn poll_on<M: Began>(&self, seat: &mut Raw, state: &mut State) -> PollEnd
        requires polls { MayPoll self.now M.sight M.call seat.old state.old }
        requires pends { MayPend state.old }
        requires goes { ¬ (IsHeld state.old) }
        ensures at { IsAt self.now M.sight M.call seat.new (polled M.sight (state.new, Some (answer_at result))) }
        ensures pends { PendsOn state.new result }
    {
        let step = state.step();
        let word = self.begin::<M>(seat, step);
        match state {
            State::Clean(clean) => self.poll_clean::<M>(seat, clean, word),
            State::Resize(resize) => self.poll_resize::<M>(seat, resize, word),
        }
    }

    /// Polls a work that a seat has unfinished and that may go on.
    fn run_poll(&self, seat: &mut Seat, state: &mut State) -> PollEnd
        requires of { IsOf self.now seat.old }
        requires work { work_of seat.old ≡ Some state.old }
        requires sound { IsSoundWork self.now.origin.table.shape state.old }
        requires pends { MayPend state.old }
        requires goes { ¬ (IsHeld state.old) }
        ensures of { IsOf self.now seat.new }
        ensures fields { KeepsFields seat.old seat.new }
        ensures ran { Ran (sight seat.old) call.PollWork (sight seat.new) (polled (sight seat.old) (state.new, Some (answer_at result))) }
        ensures pends { PendsOn state.new result }
    {
        self.poll_on::<Brand>(&mut seat.raw, state)
    }

    /// Polls a work that the seat has begun. A work that may begin no further grace waits for good.
    pub fn poll_work(&self, seat: &mut Seat, work: Work) -> Polled
        requires of { IsOf self.now seat.old }
        requires work { (state : Working) × IsWorkOf work state seat.old }
        ensures of { IsOf self.now seat.new }
        ensures fields { KeepsFields seat.old seat.new }
        ensures polled { (state : Working) → work_of seat.old ≡ Some state → PollsWork self.now.origin.table state seat.old seat.new result }
    {
        if is_held(&work.state) {
            return Polled::PendingSeat { work, seat: 0 };
        }
        let Work { mut state } = work;
        match self.run_poll(seat, &mut state) {
            PollEnd::Done(worked) => Polled::Done(worked),
            PollEnd::PendingSeat { seat: number } => Polled::PendingSeat {
                work: Work { state },
                seat: number,
            },
            PollEnd::PendingBucket { row, bucket } => Polled::PendingBucket {
                work: Work { state },
                row,
                bucket,
            },
        }
    }
}
