//! Works that are waited for: a seat begins one and polls it until it is done.
ghost use Rattle.std.specs.Prelude.{◌≡◌, Some};
ghost use Rattle.call_machine.specs.declared.work.Work.{Work as Working};
ghost use Rattle.cht_run.specs.declared.works.Tried.TheVariants as tried;
ghost use Rattle.cht_run.specs.Ended.{KeepsFields};
ghost use Rattle.cht_run.specs.Ends.{HasNothing};
ghost use Rattle.cht_run.specs.Seats.{work_of, IsOf};
ghost use Rattle.cht_run.specs.Waits.{FinishesWork, Finishes, Cleans, Grows, Shrinks};
ghost use Rattle.cht_run.specs.Works.{IsWorkOf, BeginsWork};

use crate::seat::Seat;
use crate::table::Cht;
use crate::work::Work;
use crate::works::{Polled, Tried};
use call_machine::Worked;
use call_machine::begin::Task;
use crossbeam_utils::Backoff;
use std::sync::Wait;

/// What comes of a clean.
#[derive(Clone, Copy, Debug, PartialEq, Eq)]
pub enum Cleaned {
    /// The table was cleaned.
    Done(Worked),
    /// The counter has reached 2^48: nothing begins any more.
    Spent { counter: u64 },
}

/// What comes of a grow.
#[derive(Clone, Copy, Debug, PartialEq, Eq)]
pub enum Grown {
    /// The table is at the next level.
    Done(Worked),
    /// The table is at its greatest level.
    AtMaximum { level: u8 },
    /// The counter has reached 2^48: nothing begins any more.
    Spent { counter: u64 },
}

/// What comes of a shrink.
#[derive(Clone, Copy, Debug, PartialEq, Eq)]
pub enum Shrunk {
    /// The table is at the level before.
    Done(Worked),
    /// The table is at its least level.
    AtMinimum { level: u8 },
    /// The counter has reached 2^48: nothing begins any more.
    Spent { counter: u64 },
}

/// What comes of any of the three.
#[derive(Clone, Copy, Debug, PartialEq, Eq)]
pub(crate) enum Finished {
    Done(Worked),
    AtBound { level: u8 },
    Spent { counter: u64 },
}

impl Cht {
    /// Begins a work, once no other seat has the resize lock.
    fn begin_wait<R: Wait>(&self, rt: &R, seat: &mut Seat, task: Task) -> Tried
        requires of { IsOf self.now seat.old }
        requires nothing { HasNothing seat.old }
        ensures of { IsOf self.now seat.new }
        ensures fields { KeepsFields seat.old seat.new }
        ensures began { BeginsWork self.now.origin.table task seat.old seat.new result }
        ensures not_busy { ¬ (result ≡ tried.Busy) }
    {
        let backoff = Backoff::new();
        for _ in rt.forever() {
            match self.try_begin(seat, task) {
                Tried::Busy => backoff.snooze(),
                tried => return tried,
            }
        }
        unreachable!()
    }

    /// Polls a work until it is done.
    pub(crate) fn finish_work<R: Wait>(&self, rt: &R, seat: &mut Seat, work: Work) -> Worked
        requires of { IsOf self.now seat.old }
        requires work { (state : Working) × IsWorkOf work state seat.old }
        ensures of { IsOf self.now seat.new }
        ensures fields { KeepsFields seat.old seat.new }
        ensures finished { (state : Working) → work_of seat.old ≡ Some state → FinishesWork self.now.origin.table state seat.old seat.new result }
    {
        let backoff = Backoff::new();
        let mut work = work;
        for _ in rt.forever() {
            work = match self.poll_work(seat, work) {
                Polled::Done(worked) => return worked,
                Polled::PendingSeat { work, seat: _seat } => work,
                Polled::PendingBucket {
                    work,
                    row: _row,
                    bucket: _bucket,
                } => work,
            };
            backoff.snooze();
        }
        unreachable!()
    }

    /// Begins a work and waits until it is done.
    fn wait_for_work<R: Wait>(&self, rt: &R, seat: &mut Seat, task: Task) -> Finished
        requires of { IsOf self.now seat.old }
        requires nothing { HasNothing seat.old }
        ensures of { IsOf self.now seat.new }
        ensures fields { KeepsFields seat.old seat.new }
        ensures finished { Finishes self.now.origin.table task seat.old seat.new result }
    {
        match self.begin_wait(rt, seat, task) {
            Tried::Begun(work) => Finished::Done(self.finish_work(rt, seat, work)),
            Tried::AtBound { level } => Finished::AtBound { level },
            Tried::Spent { counter } => Finished::Spent { counter },
            Tried::Busy => unreachable!(),
        }
    }

    /// Cleans the table: unlinks entries that are gone, and frees their slots after a grace.
    pub fn clean<R: Wait>(&self, rt: &R, seat: &mut Seat) -> Cleaned
        requires of { IsOf self.now seat.old }
        requires nothing { HasNothing seat.old }
        ensures of { IsOf self.now seat.new }
        ensures fields { KeepsFields seat.old seat.new }
        ensures cleaned { Cleans self.now.origin.table seat.old seat.new result }
    {
        match self.wait_for_work(rt, seat, Task::Clean) {
            Finished::Done(worked) => Cleaned::Done(worked),
            Finished::Spent { counter } => Cleaned::Spent { counter },
            Finished::AtBound { .. } => unreachable!(),
        }
    }

    /// Grows the table to the next level.
    pub fn grow<R: Wait>(&self, rt: &R, seat: &mut Seat) -> Grown
        requires of { IsOf self.now seat.old }
        requires nothing { HasNothing seat.old }
        ensures of { IsOf self.now seat.new }
        ensures fields { KeepsFields seat.old seat.new }
        ensures grown { Grows self.now.origin.table seat.old seat.new result }
    {
        match self.wait_for_work(rt, seat, Task::Grow) {
            Finished::Done(worked) => Grown::Done(worked),
            Finished::AtBound { level } => Grown::AtMaximum { level },
            Finished::Spent { counter } => Grown::Spent { counter },
        }
    }

    /// Shrinks the table to the level before.
    pub fn shrink<R: Wait>(&self, rt: &R, seat: &mut Seat) -> Shrunk
        requires of { IsOf self.now seat.old }
        requires nothing { HasNothing seat.old }
        ensures of { IsOf self.now seat.new }
        ensures fields { KeepsFields seat.old seat.new }
        ensures shrunk { Shrinks self.now.origin.table seat.old seat.new result }
    {
        match self.wait_for_work(rt, seat, Task::Shrink) {
            Finished::Done(worked) => Shrunk::Done(worked),
            Finished::AtBound { level } => Shrunk::AtMinimum { level },
            Finished::Spent { counter } => Shrunk::Spent { counter },
        }
    }
}
