//! Finding the bucket that a sweep is to clean, and locking it, inside a section that is closed afterwards.
ghost use Rattle.std.specs.Prelude.{None};
ghost use Rattle.call_machine.specs.declared.enter.EnterStage.TheVariants as enter;
ghost use Rattle.call_machine.specs.declared.find.FindStage.TheVariants as find;
ghost use Rattle.call_machine.specs.declared.sweep.SweepStage.TheVariants as stage;
ghost use Rattle.call_machine.specs.Pass.{passes_on};
ghost use Rattle.call_machine.specs.Sweep.{finds_anew, finds_on, cleans_on, closed};
ghost use Rattle.cht_run.specs.SweepSteps.{sweeps_at, headed, closing_of};
ghost use Rattle.cht_run.specs.Underway.{IsAt};

use crate::find::turned_to;
use crate::layout::{COUNTER, LEVEL, NEW_LEVEL};
use crate::operations::Began;
use crate::seat::Raw;
use crate::table::Cht;
use atomic_step::Step;
use call_machine::find::Walk;
use call_machine::pass::Cleaning;
use call_machine::sweep::{SweepAlong, SweepAsked};
use crossbeam_utils::Backoff;
use marked_word::{first_of, is_locked, is_redirected, locked, new_level_of, section_word};
use std::sync::Wait;

impl Cht {
    /// Loads the counter with which the section is opened.
    #[inline(always)]
    fn enter_swept<M: Began>(&self, seat: &mut Raw, asked: &SweepAsked, along: &SweepAlong) -> u64
        requires at { IsAt self.now M.sight M.call seat.old (sweeps_at asked.now along.now finds_anew) }
        ensures at { IsAt self.now M.sight M.call seat.new (sweeps_at asked.now along.now (stage.Find (find.Enter (enter.OpenSection result)))) }
    {
        let _asked = asked;
        let _along = along;
        self.load(seat, Step::LoadCounter, COUNTER)
    }

    /// Opens the seat's section.
    #[inline(always)]
    fn open_swept<M: Began>(
        &self,
        seat: &mut Raw,
        asked: &SweepAsked,
        along: &SweepAlong,
        counter: u64,
    )
        requires at { IsAt self.now M.sight M.call seat.old (sweeps_at asked.now along.now (stage.Find (find.Enter (enter.OpenSection counter)))) }
        ensures at { IsAt self.now M.sight M.call seat.new (sweeps_at asked.now along.now (stage.Find find.LoadLevel)) }
    {
        let _along = along;
        let number = asked.caller.number;
        let index = self.layout.section(number);
        let word = section_word(Some(counter));
        self.store(seat, Step::OpenSection { number, counter }, index, word);
    }

    /// Loads the level, and turns to the bucket of the text in its row.
    #[inline(always)]
    fn turn_swept<M: Began>(&self, seat: &mut Raw, asked: &SweepAsked, along: &mut SweepAlong)
        requires at { IsAt self.now M.sight M.call seat.old (sweeps_at asked.now along.old (stage.Find find.LoadLevel)) }
        ensures at { IsAt self.now M.sight M.call seat.new (sweeps_at asked.now along.new (stage.Find find.LoadHead)) }
    {
        let level = self.load(seat, Step::LoadLevel, LEVEL);
        along.walk = turned_to(along.walk, asked.hash, level as u8);
    }

    /// Loads the head of the bucket.
    #[inline(always)]
    fn look_at_swept<M: Began>(&self, seat: &mut Raw, asked: &SweepAsked, along: &mut SweepAlong)
        requires at { IsAt self.now M.sight M.call seat.old (sweeps_at asked.now along.old (stage.Find find.LoadHead)) }
        ensures at { IsAt self.now M.sight M.call seat.new (sweeps_at asked.now along.new (headed along.new.walk.head)) }
    {
        let _asked = asked;
        let Walk { row, bucket, .. } = along.walk;
        let index = self.layout.head(row, bucket);
        along.walk.head = self.load(seat, Step::LoadHead { row, bucket }, index);
    }

    /// Loads the new level after a redirect, and turns to the bucket of the text in its row.
    #[inline(always)]
    fn turn_swept_anew<M: Began>(&self, seat: &mut Raw, asked: &SweepAsked, along: &mut SweepAlong)
        requires at { IsAt self.now M.sight M.call seat.old (sweeps_at asked.now along.old (stage.Find find.LoadNewLevel)) }
        ensures at { IsAt self.now M.sight M.call seat.new (sweeps_at asked.now along.new (stage.Find find.LoadNewHead)) }
    {
        let level = self.load(seat, Step::LoadNewLevel, NEW_LEVEL);
        along.walk = turned_to(along.walk, asked.hash, new_level_of(level));
    }

    /// Loads the head of the bucket in the row of the new level.
    #[inline(always)]
    fn look_at_swept_anew<M: Began>(
        &self,
        seat: &mut Raw,
        asked: &SweepAsked,
        along: &mut SweepAlong,
    )
        requires at { IsAt self.now M.sight M.call seat.old (sweeps_at asked.now along.old (stage.Find find.LoadNewHead)) }
        ensures at { IsAt self.now M.sight M.call seat.new (sweeps_at asked.now along.new (finds_on along.new.walk.head None)) }
    {
        let _asked = asked;
        let Walk { row, bucket, .. } = along.walk;
        let index = self.layout.head(row, bucket);
        along.walk.head = self.load(seat, Step::LoadHead { row, bucket }, index);
    }

    /// Opens a section, and finds the head of the bucket in it.
    fn find_swept<M: Began>(&self, seat: &mut Raw, asked: &SweepAsked, along: &mut SweepAlong)
        requires at { IsAt self.now M.sight M.call seat.old (sweeps_at asked.now along.old finds_anew) }
        ensures at { IsAt self.now M.sight M.call seat.new (sweeps_at asked.now along.new (finds_on along.new.walk.head None)) }
    {
        let counter = self.enter_swept::<M>(seat, asked, along);
        self.open_swept::<M>(seat, asked, along, counter);
        self.turn_swept::<M>(seat, asked, along);
        self.look_at_swept::<M>(seat, asked, along);
        if is_redirected(along.walk.head) {
            self.turn_swept_anew::<M>(seat, asked, along);
            self.look_at_swept_anew::<M>(seat, asked, along);
        }
    }

    /// Locks the bucket, whose head was found: whether no other was faster.
    #[inline(always)]
    fn lock_swept<M: Began>(
        &self,
        seat: &mut Raw,
        asked: &SweepAsked,
        along: &mut SweepAlong,
    ) -> bool
        requires at { IsAt self.now M.sight M.call seat.old (sweeps_at asked.now along.old stage.Lock) }
        ensures at { IsAt self.now M.sight M.call seat.new (sweeps_at asked.now along.new (stage.Close (closing_of result))) }
    {
        let _asked = asked;
        let Walk {
            row,
            bucket,
            head,
            ..
        } = along.walk;
        let index = self.layout.head(row, bucket);
        let step = Step::LockHead { row, bucket, head };
        if self.compare_exchange(seat, step, index, head, locked(head)) != head {
            return false;
        }
        along.cleaning = Cleaning::none(row, bucket);
        along.cleaning.begin_pass(first_of(head));
        true
    }

    /// Closes the seat's section.
    #[inline(always)]
    fn close_swept<M: Began>(
        &self,
        seat: &mut Raw,
        asked: &SweepAsked,
        along: &SweepAlong,
        is_locked: bool,
    )
        requires at { IsAt self.now M.sight M.call seat.old (sweeps_at asked.now along.now (stage.Close (closing_of is_locked))) }
        ensures at { IsAt self.now M.sight M.call seat.new (sweeps_at asked.now along.now (closed along.now.cleaning (closing_of is_locked))) }
    {
        let _along = along;
        let _is_locked = is_locked;
        let number = asked.caller.number;
        let index = self.layout.section(number);
        let word = section_word(None);
        self.store(seat, Step::CloseSection { number }, index, word);
    }

    /// Finds the bucket and locks it, unless another has its lock.
    fn try_lock_swept<M: Began>(
        &self,
        seat: &mut Raw,
        asked: &SweepAsked,
        along: &mut SweepAlong,
    ) -> bool
        requires at { IsAt self.now M.sight M.call seat.old (sweeps_at asked.now along.old finds_anew) }
        ensures at { IsAt self.now M.sight M.call seat.new (sweeps_at asked.now along.new (closed along.new.cleaning (closing_of result))) }
    {
        self.find_swept::<M>(seat, asked, along);
        let is_mine = !is_locked(along.walk.head) && self.lock_swept::<M>(seat, asked, along);
        self.close_swept::<M>(seat, asked, along, is_mine);
        is_mine
    }

    /// Finds the bucket and locks it, once no other has its lock.
    pub(crate) fn lock_swept_wait<M: Began, R: Wait>(
        &self,
        rt: &R,
        seat: &mut Raw,
        asked: &SweepAsked,
        along: &mut SweepAlong,
    )
        requires at { IsAt self.now M.sight M.call seat.old (sweeps_at asked.now along.old finds_anew) }
        ensures at { IsAt self.now M.sight M.call seat.new (sweeps_at asked.now along.new (cleans_on (passes_on along.new.cleaning.first))) }
    {
        let backoff = Backoff::new();
        for _ in rt.forever() {
            if self.try_lock_swept::<M>(seat, asked, along) {
                return;
            }
            backoff.snooze();
        }
        unreachable!()
    }
}
