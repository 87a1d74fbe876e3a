//! The poll of a grow or a shrink: pair after pair of buckets is made into those of the new row, and then the level is
//! stored.
ghost use Rattle.std.specs.Prelude.{◌≡◌};
ghost use Rattle.atomic_step.specs.SoundStep.{CanBeFound};
ghost use Rattle.call_machine.specs.declared.grace.GraceStage.TheVariants.{RaiseCounter, LoadSection};
ghost use Rattle.call_machine.specs.declared.resize.ResizeStage.TheVariants as stage;
ghost use Rattle.call_machine.specs.Resize.{goes, graces_on, has_locked, locks_on, raises, resize_row};
ghost use Rattle.cht_run.specs.Pending.{ResizePends, IsResizeHeld};
ghost use Rattle.cht_run.specs.Resizes.{resized, scans_in, comes_to, went_on, ended, ended_at, PendsAt, PendsWith, Pends};
ghost use Rattle.cht_run.specs.Runs.{IsPolling};
ghost use Rattle.cht_run.specs.Underway.{IsAt, Further, Onward, IsDone, looked_at, scanned_to};

use crate::layout::{COUNTER, LEVEL, NEW_LEVEL, RESIZE_LOCK};
use crate::operations::Began;
use crate::polls::PollEnd;
use crate::scan::{Scanning, scanned};
use crate::seat::Raw;
use crate::table::Cht;
use atomic_step::Step;
use call_machine::Grace;
use call_machine::grace::{GraceStage, Gracing, LAST_GRACE};
use call_machine::lock::LockStage;
use call_machine::resize::{AfterGrace, Chains, Direction, Resize, ResizeAlong, ResizeStage, Side};
use marked_word::{first_of, is_locked, new_level_word, owner_word};
use std::marker::Brand;

/// With what a resize goes on.
#[derive(Clone, Copy)]
pub(crate) enum ResizeNext {
    /// The old bucket of this side of the pair is locked.
    Bucket(Side),
    /// The chain of the pair is unzipped from this node on; behind its last one the new buckets are unlocked.
    Chain(Option<u32>),
    /// The level is stored.
    Level,
    /// The new level is taken away, and the resize lock given back.
    End,
}

/// A resize goes on, or its poll ends at a stage.
#[derive(Clone, Copy)]
pub(crate) enum ResizeWent {
    Goes(ResizeNext),
    Ends { stage: ResizeStage, end: PollEnd },
}

/// What comes once the sections were looked at.
#[inline(always)]
fn goes_after(along: &ResizeAlong, after: AfterGrace, is_over: bool) -> ResizeWent
    ensures value { went_on along.now result ≡ graces_on along.now after (scanned_to is_over) }
    ensures pends { Pends along.now result }
{
    if !is_over {
        let stage = GraceStage::LoadSection;
        let stage = ResizeStage::Grace { after, stage };
        let seat = along.grace.next;
        let end = PollEnd::PendingSeat { seat };
        return ResizeWent::Ends { stage, end };
    }
    ResizeWent::Goes(match after {
        AfterGrace::Unzip => ResizeNext::Chain(along.rest),
        AfterGrace::UnlockHead => ResizeNext::Chain(None),
        AfterGrace::ClearNewLevel => ResizeNext::End,
    })
}

impl Cht {
    /// Raises the counter: a grace begins.
    #[inline(always)]
    fn raise_in_resize<M: Began>(
        &self,
        seat: &mut Raw,
        direction: Direction,
        along: &mut ResizeAlong,
        after: AfterGrace,
    )
        requires at { IsAt self.now M.sight M.call seat.old (resized M.sight direction (goes along.old (stage.Grace after RaiseCounter))) }
        ensures on { Further self.now M.sight M.call seat.new (resized M.sight direction (goes along.old (stage.Grace after RaiseCounter))) (resized M.sight direction (goes along.new (stage.Grace after LoadSection))) }
    {
        let _of = (direction, after);
        let counter = self.fetch_add(seat, Step::RaiseCounter, COUNTER, 2);
        along.grace = Grace {
            raised: counter + 2,
            next: 0,
        };
        along.graces = along.graces.saturating_add(1);
    }

    /// Looks at the section words from the next number on: whether none is waited for any more.
    #[inline(always)]
    fn scan_in_resize<M: Began, W: Scanning>(
        &self,
        seat: &mut Raw,
        direction: Direction,
        along: &mut ResizeAlong,
        after: AfterGrace,
    ) -> bool
        requires scans { W.scans ≡ scans_in M.sight direction along.old after }
        requires at { IsAt self.now M.sight M.call seat.old (resized M.sight direction (goes along.old (stage.Grace after LoadSection))) }
        ensures on { Further self.now M.sight M.call seat.new (resized M.sight direction (goes along.old (stage.Grace after LoadSection))) (resized M.sight direction (graces_on along.new after (scanned_to result))) }
    {
        let _of = (direction, after);
        self.scan::<M, W>(seat, &mut along.grace)
    }

    /// Begins a grace, if one may begin, and goes on once it is over.
    fn wait_out<M: Began>(
        &self,
        seat: &mut Raw,
        direction: Direction,
        along: &mut ResizeAlong,
        after: AfterGrace,
    ) -> ResizeWent
        requires at { IsAt self.now M.sight M.call seat.old (resized M.sight direction (raises along.old after)) }
        ensures on { Onward self.now M.sight M.call seat.new (resized M.sight direction (raises along.old after)) (resized M.sight direction (went_on along.new result)) }
        ensures pends { Pends along.new result }
    {
        if along.grace.raised >= LAST_GRACE {
            let stage = GraceStage::RaiseCounter;
            let stage = ResizeStage::Grace { after, stage };
            let end = PollEnd::PendingSeat { seat: 0 };
            return ResizeWent::Ends { stage, end };
        }
        self.raise_in_resize::<M>(seat, direction, along, after);
        let is_over = self.scan_in_resize::<M, Brand>(seat, direction, along, after);
        goes_after(along, after, is_over)
    }

    /// Goes on with a grace, of which the section word of the next number was loaded.
    fn wait_further<M: Began>(
        &self,
        seat: &mut Raw,
        direction: Direction,
        along: &mut ResizeAlong,
        after: AfterGrace,
        word: u64,
    ) -> ResizeWent
        requires at { IsAt self.now M.sight M.call seat.old (resized M.sight direction ((resize_row self.now.origin.table.shape direction along.old (stage.Grace after LoadSection)).next word)) }
        ensures on { Onward self.now M.sight M.call seat.new (resized M.sight direction ((resize_row self.now.origin.table.shape direction along.old (stage.Grace after LoadSection)).next word)) (resized M.sight direction (went_on along.new result)) }
        ensures pends { Pends along.new result }
    {
        let seats = self.origin.table.shape.seats;
        let (grace, came) = scanned(along.grace, seats, word);
        along.grace = grace;
        match came {
            Gracing::Goes => {
                let is_over = self.scan_in_resize::<M, Brand>(seat, direction, along, after);
                goes_after(along, after, is_over)
            }
            Gracing::Waits => goes_after(along, after, false),
            Gracing::Over => goes_after(along, after, true),
        }
    }

    /// Makes the locked old bucket of a grow into two: both new ones have its chain until it is unzipped.
    fn grow_pair<M: Began>(
        &self,
        seat: &mut Raw,
        along: &mut ResizeAlong,
        side: Side,
        first: Option<u32>,
    )
        requires at { IsAt self.now M.sight M.call seat.old (resized M.sight Direction.Grow (has_locked Direction.Grow along.old side first)) }
        ensures on { Onward self.now M.sight M.call seat.new (resized M.sight Direction.Grow (has_locked Direction.Grow along.old side first)) (resized M.sight Direction.Grow (comes_to along.new (ResizeNext.Chain first))) }
    {
        let _of = side;
        along.chains = Chains::from(first, first);
        self.put_side::<M>(seat, Direction::Grow, along, Side::Even);
        self.put_side::<M>(seat, Direction::Grow, along, Side::Odd);
        self.redirect_side::<M>(seat, Direction::Grow, along, Side::Even);
    }

    /// Makes the two locked old buckets of a shrink into one, and redirects both to it.
    fn shrink_pair<M: Began>(
        &self,
        seat: &mut Raw,
        along: &mut ResizeAlong,
        first: Option<u32>,
    ) -> ResizeWent
        requires at { IsAt self.now M.sight M.call seat.old (resized M.sight Direction.Shrink (has_locked Direction.Shrink along.old Side.Odd first)) }
        ensures on { Onward self.now M.sight M.call seat.new (resized M.sight Direction.Shrink (has_locked Direction.Shrink along.old Side.Odd first)) (resized M.sight Direction.Shrink (went_on along.new result)) }
        ensures pends { Pends along.new result }
    {
        along.chains = Chains::from(along.chains.even.first, first);
        self.put_side::<M>(seat, Direction::Shrink, along, Side::Even);
        self.join_pair::<M>(seat, Direction::Shrink, along);
        self.redirect_side::<M>(seat, Direction::Shrink, along, Side::Even);
        self.redirect_side::<M>(seat, Direction::Shrink, along, Side::Odd);
        self.wait_out::<M>(seat, Direction::Shrink, along, AfterGrace::UnlockHead)
    }

    /// Goes on with an old bucket whose head was loaded: locks it, and makes the new ones of the pair once all of its old ones
    /// are locked.
    fn take_bucket<M: Began>(
        &self,
        seat: &mut Raw,
        direction: Direction,
        along: &mut ResizeAlong,
        side: Side,
        head: u64,
    ) -> ResizeWent
        requires at { IsAt self.now M.sight M.call seat.old (resized M.sight direction (locks_on direction along.old side (looked_at head))) }
        ensures on { Onward self.now M.sight M.call seat.new (resized M.sight direction (locks_on direction along.old side (looked_at head))) (resized M.sight direction (went_on along.new result)) }
        ensures pends { Pends along.new result }
    {
        if is_locked(head) || !self.lock_side::<M>(seat, direction, along, side, head) {
            let stage = LockStage::LoadHead;
            let stage = ResizeStage::Lock { side, stage };
            let row = along.level;
            let bucket = along.bucket_at(direction, side);
            let end = PollEnd::PendingBucket { row, bucket };
            return ResizeWent::Ends { stage, end };
        }
        let first = first_of(head);
        match (direction, side) {
            (Direction::Grow, _) => {
                self.grow_pair::<M>(seat, along, side, first);
                ResizeWent::Goes(ResizeNext::Chain(first))
            }
            (Direction::Shrink, Side::Even) => {
                along.chains = Chains::from(first, None);
                ResizeWent::Goes(ResizeNext::Bucket(Side::Odd))
            }
            (Direction::Shrink, Side::Odd) => self.shrink_pair::<M>(seat, along, first),
        }
    }

    /// Stores the level to which the resize leads.
    #[inline(always)]
    fn store_level<M: Began>(&self, seat: &mut Raw, direction: Direction, along: &ResizeAlong)
        requires at { IsAt self.now M.sight M.call seat.old (resized M.sight direction (goes along.now stage.StoreLevel)) }
        ensures on { Further self.now M.sight M.call seat.new (resized M.sight direction (goes along.now stage.StoreLevel)) (resized M.sight direction (raises along.now AfterGrace.ClearNewLevel)) }
    {
        let level = direction.end_level(along.level);
        self.store(seat, Step::StoreLevel { level }, LEVEL, u64::from(level));
    }

    /// Takes the new level away.
    #[inline(always)]
    fn clear_level<M: Began>(&self, seat: &mut Raw, direction: Direction, along: &ResizeAlong)
        requires at { IsAt self.now M.sight M.call seat.old (resized M.sight direction (goes along.now stage.ClearNewLevel)) }
        ensures on { Further self.now M.sight M.call seat.new (resized M.sight direction (goes along.now stage.ClearNewLevel)) (resized M.sight direction (goes along.now stage.GiveResizeLock)) }
    {
        let _of = (direction, *along);
        let word = new_level_word(None);
        self.store(seat, Step::PutNewLevel { level: None }, NEW_LEVEL, word);
    }

    /// Gives the resize lock back: the resize is done.
    #[inline(always)]
    fn give_lock<M: Began>(
        &self,
        seat: &mut Raw,
        direction: Direction,
        along: &ResizeAlong,
    ) -> PollEnd
        requires at { IsAt self.now M.sight M.call seat.old (resized M.sight direction (goes along.now stage.GiveResizeLock)) }
        ensures on { Further self.now M.sight M.call seat.new (resized M.sight direction (goes along.now stage.GiveResizeLock)) (resized M.sight direction (ended_at along.now stage.GiveResizeLock result)) }
        ensures done { IsDone result }
    {
        let word = owner_word(None);
        self.store(seat, Step::GiveResizeLock, RESIZE_LOCK, word);
        PollEnd::Done(along.worked(direction))
    }

    /// Does what comes next of a resize.
    fn resize_next<M: Began>(
        &self,
        seat: &mut Raw,
        direction: Direction,
        along: &mut ResizeAlong,
        next: ResizeNext,
    ) -> ResizeWent
        requires at { IsAt self.now M.sight M.call seat.old (resized M.sight direction (comes_to along.old next)) }
        ensures on { Further self.now M.sight M.call seat.new (resized M.sight direction (comes_to along.old next)) (resized M.sight direction (went_on along.new result)) }
        ensures pends { Pends along.new result }
    {
        match next {
            ResizeNext::Bucket(side) => {
                let head = self.look_at_side::<M>(seat, direction, along, side);
                self.take_bucket::<M>(seat, direction, along, side, head)
            }
            ResizeNext::Chain(None) => {
                let next = self.unlock_pair::<M>(seat, direction, along);
                ResizeWent::Goes(next)
            }
            ResizeNext::Chain(Some(slot)) => {
                self.unzip_node::<M>(seat, direction, along, slot);
                self.wait_out::<M>(seat, direction, along, AfterGrace::Unzip)
            }
            ResizeNext::Level => {
                self.store_level::<M>(seat, direction, along);
                self.wait_out::<M>(seat, direction, along, AfterGrace::ClearNewLevel)
            }
            ResizeNext::End => {
                self.clear_level::<M>(seat, direction, along);
                let end = self.give_lock::<M>(seat, direction, along);
                let stage = ResizeStage::GiveResizeLock;
                ResizeWent::Ends { stage, end }
            }
        }
    }

    /// Goes on with a resize until its poll ends: at which stage, and how.
    fn resize_on<M: Began>(
        &self,
        seat: &mut Raw,
        direction: Direction,
        along: &mut ResizeAlong,
        went: ResizeWent,
    ) -> (ResizeStage, PollEnd)
        requires at { IsAt self.now M.sight M.call seat.old (resized M.sight direction (went_on along.old went)) }
        requires pends { Pends along.old went }
        ensures at { IsAt self.now M.sight M.call seat.new (resized M.sight direction (ended_at along.new result.0 result.1)) }
        ensures pends { PendsWith along.new result.0 result.1 }
    {
        let mut went = went;
        loop {
            match went {
                ResizeWent::Goes(next) => {
                    went = self.resize_next::<M>(seat, direction, along, next);
                }
                ResizeWent::Ends { stage, end } => return (stage, end),
            }
        }
    }

    /// Goes on with a resize that was pending at a stage, whose first step has found this word.
    fn resize_found<M: Began>(
        &self,
        seat: &mut Raw,
        direction: Direction,
        along: &mut ResizeAlong,
        stage: ResizeStage,
        word: u64,
    ) -> ResizeWent
        requires pends { ResizePends along.old stage }
        requires goes { ¬ (IsResizeHeld stage) }
        requires at { IsAt self.now M.sight M.call seat.old (resized M.sight direction ((resize_row self.now.origin.table.shape direction along.old stage).next word)) }
        ensures at { IsAt self.now M.sight M.call seat.new (resized M.sight direction (went_on along.new result)) }
        ensures pends { Pends along.new result }
    {
        match stage {
            ResizeStage::PutNewLevel => ResizeWent::Goes(ResizeNext::Bucket(Side::Even)),
            ResizeStage::Lock { side, stage } => match stage {
                LockStage::LoadHead => self.take_bucket::<M>(seat, direction, along, side, word),
                LockStage::LockHead { .. } => unreachable!(),
            },
            ResizeStage::Grace { after, stage } => match stage {
                GraceStage::LoadSection => self.wait_further::<M>(
                    seat, direction, along, after, word,
                ),
                GraceStage::RaiseCounter => unreachable!(),
            },
            _ => unreachable!(),
        }
    }

    /// Polls a resize, whose first step has found this word, until the poll ends.
    pub(crate) fn poll_resize<M: Began>(
        &self,
        seat: &mut Raw,
        resize: &mut Resize,
        word: u64,
    ) -> PollEnd
        requires pends { ResizePends resize.old.along resize.old.stage }
        requires goes { ¬ (IsResizeHeld resize.old.stage) }
        requires fits { CanBeFound self.now.origin.table.shape (resize_row self.now.origin.table.shape resize.old.direction resize.old.along resize.old.stage).step word }
        requires at { IsAt self.now M.sight M.call seat.old (resized M.sight resize.old.direction ((resize_row self.now.origin.table.shape resize.old.direction resize.old.along resize.old.stage).next word)) }
        requires polls { IsPolling self.now.origin.table.shape (resized M.sight resize.old.direction ((resize_row self.now.origin.table.shape resize.old.direction resize.old.along resize.old.stage).next word)) }
        ensures at { IsAt self.now M.sight M.call seat.new (resized M.sight resize.old.direction (ended resize.new result)) }
        ensures direction { resize.new.direction ≡ resize.old.direction }
        ensures pends { PendsAt resize.new result }
    {
        let Resize {
            direction,
            stage,
            ..
        } = *resize;
        let went = self.resize_found::<M>(seat, direction, &mut resize.along, stage, word);
        let (stage, end) = self.resize_on::<M>(seat, direction, &mut resize.along, went);
        resize.stage = stage;
        end
    }
}
