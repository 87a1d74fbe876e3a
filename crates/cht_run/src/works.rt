//! Works: a seat begins a clean, a grow or a shrink, and polls it until it is done.
ghost use Rattle.std.specs.Prelude.{◌≡◌};
ghost use Rattle.call_machine.specs.declared.begin.BeginStage.TheVariants as stage;
ghost use Rattle.call_machine.specs.Begin.{answers, bounded};
ghost use Rattle.call_machine.specs.Machine.{got_of};
ghost use Rattle.cht_run.specs.Beginnings.{begins_at, at_bound, bound_of, ended, tried_lock, MayBegin};
ghost use Rattle.cht_run.specs.Begins.{own_at, first_of};
ghost use Rattle.cht_run.specs.Ended.{KeepsFields};
ghost use Rattle.cht_run.specs.Ends.{HasNothing};
ghost use Rattle.cht_run.specs.Runs.{Ran};
ghost use Rattle.cht_run.specs.Seats.{sight, IsOf};
ghost use Rattle.cht_run.specs.Underway.{IsAt};
ghost use Rattle.cht_run.specs.Works.{BeginsClean, BeginsGrow, BeginsShrink, BeginsWork, begin_call};

use crate::layout::{COUNTER, LEVEL, RESIZE_LOCK};
use crate::operations::Began;
use crate::seat::{Raw, Seat};
use crate::table::Cht;
use crate::work::Work;
use atomic_step::Step;
use call_machine::begin::{SPENT, Task};
use call_machine::clean::Clean;
use call_machine::resize::{Direction, Resize};
use call_machine::{Work as State, Worked};
use marked_word::owner_word;
use std::marker::Brand;

/// What comes of a call that is to begin a clean.
pub enum BeganClean {
    /// The counter has reached 2^48: nothing begins any more.
    Spent { counter: u64 },
    /// Another seat has the resize lock.
    Busy,
    /// The clean is to be polled.
    Begun(Work),
}

/// What comes of a call that is to begin a grow.
pub enum BeganGrow {
    /// The counter has reached 2^48: nothing begins any more.
    Spent { counter: u64 },
    /// Another seat has the resize lock.
    Busy,
    /// The table is at its greatest level.
    AtMaximum { level: u8 },
    /// The grow is to be polled.
    Begun(Work),
}

/// What comes of a call that is to begin a shrink.
pub enum BeganShrink {
    /// The counter has reached 2^48: nothing begins any more.
    Spent { counter: u64 },
    /// Another seat has the resize lock.
    Busy,
    /// The table is at its least level.
    AtMinimum { level: u8 },
    /// The shrink is to be polled.
    Begun(Work),
}

/// What comes of the poll of a work.
pub enum Polled {
    /// The work is done.
    Done(Worked),
    /// It waits for the section of this seat to be closed.
    PendingSeat { work: Work, seat: u32 },
    /// It waits for this bucket, which another seat has locked or changed.
    PendingBucket { work: Work, row: u8, bucket: u32 },
}

/// What comes of a call that is to begin any of the three.
pub(crate) enum Tried {
    Spent { counter: u64 },
    Busy,
    AtBound { level: u8 },
    Begun(Work),
}

/// How a call ends that is to begin a work.
#[derive(Clone, Copy)]
pub enum BeginEnd {
    /// The counter has reached 2^48.
    Spent { counter: u64 },
    /// Another seat has the resize lock.
    Busy,
    /// The level leads no further in the direction.
    AtBound { direction: Direction, level: u8 },
    /// A clean has begun.
    Clean,
    /// A grow or a shrink has begun, from this level.
    Resize { direction: Direction, level: u8 },
}

impl Cht {
    /// Loads the counter: the call begins.
    #[inline(always)]
    pub(crate) fn load_counter<M: Began>(&self, seat: &mut Raw) -> u64
        requires begins { MayBegin self.now M.sight M.call seat.old }
        ensures at { IsAt self.now M.sight M.call seat.new (got_of (first_of M.sight M.call) result) }
    {
        self.begin_load::<M>(seat, Step::LoadCounter, COUNTER)
    }

    /// Takes the resize lock for a task, by the seat of this number: whether no other seat has it.
    #[inline(always)]
    fn take_resize_lock<M: Began>(&self, seat: &mut Raw, number: u32, task: Task) -> bool
        requires number { number ≡ (own_at M.sight.seat).number }
        requires at { IsAt self.now M.sight M.call seat.old (begins_at M.sight (stage.TakeResizeLock task)) }
        ensures at { IsAt self.now M.sight M.call seat.new (begins_at M.sight (tried_lock task result)) }
    {
        let _task = task;
        let step = Step::TakeResizeLock { number };
        let word = owner_word(Some(number));
        self.compare_exchange(seat, step, RESIZE_LOCK, 0, word) == 0
    }

    /// Loads the level from which on a resize is to begin.
    #[inline(always)]
    fn load_first_level<M: Began>(&self, seat: &mut Raw, direction: Direction) -> u8
        requires at { IsAt self.now M.sight M.call seat.old (begins_at M.sight (stage.LoadLevel direction)) }
        ensures at { IsAt self.now M.sight M.call seat.new (begins_at M.sight (bounded M.sight.origin.table.shape direction result)) }
    {
        let _direction = direction;
        self.load(seat, Step::LoadLevel, LEVEL) as u8
    }

    /// Gives the resize lock back, at a level that leads no further.
    #[inline(always)]
    fn give_back_at_bound<M: Began>(&self, seat: &mut Raw, direction: Direction, level: u8)
        requires at { IsAt self.now M.sight M.call seat.old (begins_at M.sight (stage.GiveResizeLock (at_bound direction level))) }
        ensures at { IsAt self.now M.sight M.call seat.new (begins_at M.sight (answers (at_bound direction level))) }
    {
        let _bound = (direction, level);
        let word = owner_word(None);
        self.store(seat, Step::GiveResizeLock, RESIZE_LOCK, word);
    }

    /// The level from which on a resize in this direction leads no further.
    #[inline(always)]
    fn bound(&self, direction: Direction) -> u8
        ensures value { result ≡ bound_of self.now.origin.table direction }
    {
        let shape = &self.origin.table.shape;
        match direction {
            Direction::Grow => shape.max_level,
            Direction::Shrink => shape.min_level,
        }
    }

    /// Begins a resize under the resize lock, if the level leads any further.
    fn begin_resize<M: Began>(&self, seat: &mut Raw, direction: Direction) -> BeginEnd
        requires at { IsAt self.now M.sight M.call seat.old (begins_at M.sight (stage.LoadLevel direction)) }
        ensures at { IsAt self.now M.sight M.call seat.new (begins_at M.sight (ended result)) }
    {
        let level = self.load_first_level::<M>(seat, direction);
        if level == self.bound(direction) {
            self.give_back_at_bound::<M>(seat, direction, level);
            BeginEnd::AtBound { direction, level }
        } else {
            BeginEnd::Resize { direction, level }
        }
    }

    /// Begins a work, from the first step to the last.
    fn begin_work<M: Began>(&self, seat: &mut Raw, number: u32, task: Task) -> BeginEnd
        requires begins { MayBegin self.now M.sight M.call seat.old }
        requires asks { M.call ≡ begin_call task }
        requires number { number ≡ (own_at M.sight.seat).number }
        ensures at { IsAt self.now M.sight M.call seat.new (begins_at M.sight (ended result)) }
    {
        let counter = self.load_counter::<M>(seat);
        if counter >= SPENT {
            return BeginEnd::Spent { counter };
        }
        if !self.take_resize_lock::<M>(seat, number, task) {
            return BeginEnd::Busy;
        }
        match task {
            Task::Clean => BeginEnd::Clean,
            Task::Grow => self.begin_resize::<M>(seat, Direction::Grow),
            Task::Shrink => self.begin_resize::<M>(seat, Direction::Shrink),
        }
    }

    /// Begins a work of a seat.
    fn run_begin(&self, seat: &mut Seat, task: Task) -> BeginEnd
        requires of { IsOf self.now seat.old }
        requires nothing { HasNothing seat.old }
        ensures of { IsOf self.now seat.new }
        ensures fields { KeepsFields seat.old seat.new }
        ensures ran { Ran (sight seat.old) (begin_call task) (sight seat.new) (begins_at (sight seat.old) (ended result)) }
    {
        self.begin_work::<Brand>(&mut seat.raw, seat.number, task)
    }

    /// Begins a work.
    pub(crate) fn try_begin(&self, seat: &mut Seat, task: Task) -> Tried
        requires of { IsOf self.now seat.old }
        requires nothing { HasNothing seat.old }
        ensures of { IsOf self.now seat.new }
        ensures fields { KeepsFields seat.old seat.new }
        ensures began { BeginsWork self.now.origin.table task seat.old seat.new result }
    {
        match self.run_begin(seat, task) {
            BeginEnd::Spent { counter } => Tried::Spent { counter },
            BeginEnd::Busy => Tried::Busy,
            BeginEnd::AtBound { level, .. } => Tried::AtBound { level },
            BeginEnd::Clean => {
                let clean = Clean::begun(self.origin.table.shape.min_level);
                let state = State::Clean(clean);
                Tried::Begun(Work { state })
            }
            BeginEnd::Resize { direction, level } => {
                let state = State::Resize(Resize::begun(direction, level));
                Tried::Begun(Work { state })
            }
        }
    }

    /// Begins a clean.
    pub fn try_begin_clean(&self, seat: &mut Seat) -> BeganClean
        requires of { IsOf self.now seat.old }
        requires nothing { HasNothing seat.old }
        ensures of { IsOf self.now seat.new }
        ensures fields { KeepsFields seat.old seat.new }
        ensures began { BeginsClean self.now.origin.table seat.old seat.new result }
    {
        match self.try_begin(seat, Task::Clean) {
            Tried::Spent { counter } => BeganClean::Spent { counter },
            Tried::Busy => BeganClean::Busy,
            Tried::Begun(work) => BeganClean::Begun(work),
            Tried::AtBound { .. } => unreachable!(),
        }
    }

    /// Begins a grow to the next level.
    pub fn try_begin_grow(&self, seat: &mut Seat) -> BeganGrow
        requires of { IsOf self.now seat.old }
        requires nothing { HasNothing seat.old }
        ensures of { IsOf self.now seat.new }
        ensures fields { KeepsFields seat.old seat.new }
        ensures began { BeginsGrow self.now.origin.table seat.old seat.new result }
    {
        match self.try_begin(seat, Task::Grow) {
            Tried::Spent { counter } => BeganGrow::Spent { counter },
            Tried::Busy => BeganGrow::Busy,
            Tried::AtBound { level } => BeganGrow::AtMaximum { level },
            Tried::Begun(work) => BeganGrow::Begun(work),
        }
    }

    /// Begins a shrink to the level before.
    pub fn try_begin_shrink(&self, seat: &mut Seat) -> BeganShrink
        requires of { IsOf self.now seat.old }
        requires nothing { HasNothing seat.old }
        ensures of { IsOf self.now seat.new }
        ensures fields { KeepsFields seat.old seat.new }
        ensures began { BeginsShrink self.now.origin.table seat.old seat.new result }
    {
        match self.try_begin(seat, Task::Shrink) {
            Tried::Spent { counter } => BeganShrink::Spent { counter },
            Tried::Busy => BeganShrink::Busy,
            Tried::AtBound { level } => BeganShrink::AtMinimum { level },
            Tried::Begun(work) => BeganShrink::Begun(work),
        }
    }
}
