//! The buckets of a pair that a grow or a shrink makes into others: each step on one of their heads.
ghost use Rattle.std.specs.Prelude.{◌≡◌};
ghost use Rattle.table_shape.specs.declared.shape.Shape.{Shape};
ghost use Rattle.table_shape.specs.Shape.{IsSound};
ghost use Rattle.call_machine.specs.declared.lock.LockStage.TheVariants as lock;
ghost use Rattle.call_machine.specs.declared.resize.ResizeStage.TheVariants as stage;
ghost use Rattle.call_machine.specs.Resize.{after_put, goes, locks_on, next_pair, redirected, unlocked};
ghost use Rattle.call_machine.specs.SoundResize.{IsSoundResizing};
ghost use Rattle.cht_run.specs.Resizes.{resized, comes_to};
ghost use Rattle.cht_run.specs.Underway.{IsAt, Further, looked_at, tried_lock};

use crate::heads::{locked_head, plain_head, redirected_head};
use crate::operations::Began;
use crate::resize::ResizeNext;
use crate::seat::Raw;
use crate::table::Cht;
use atomic_step::Step;
use call_machine::resize::{Direction, ResizeAlong, Side};
use marked_word::locked;

/// The next pair of the row, or behind the last one the level.
#[inline(always)]
fn next_pair(direction: Direction, along: &mut ResizeAlong) -> ResizeNext
    requires sound { (shape : Shape) × IsSound shape × IsSoundResizing shape direction along.old }
    ensures value { comes_to along.new result ≡ next_pair direction along.old }
{
    let bucket = along.bucket + 1;
    if bucket < direction.half(along.level) {
        along.bucket = bucket;
        along.passed = 0;
        ResizeNext::Bucket(Side::Even)
    } else {
        ResizeNext::Level
    }
}

impl Cht {
    /// Loads the head of a bucket of the old row.
    #[inline(always)]
    pub(crate) fn look_at_side<M: Began>(
        &self,
        seat: &mut Raw,
        direction: Direction,
        along: &ResizeAlong,
        side: Side,
    ) -> u64
        requires at { IsAt self.now M.sight M.call seat.old (resized M.sight direction (goes along.now (stage.Lock side lock.LoadHead))) }
        ensures on { Further self.now M.sight M.call seat.new (resized M.sight direction (goes along.now (stage.Lock side lock.LoadHead))) (resized M.sight direction (locks_on direction along.now side (looked_at result))) }
    {
        let row = along.level;
        let bucket = along.bucket_at(direction, side);
        let index = self.layout.head(row, bucket);
        self.load(seat, Step::LoadHead { row, bucket }, index)
    }

    /// Locks a bucket of the old row, whose head was this: whether no other was faster.
    #[inline(always)]
    pub(crate) fn lock_side<M: Began>(
        &self,
        seat: &mut Raw,
        direction: Direction,
        along: &ResizeAlong,
        side: Side,
        head: u64,
    ) -> bool
        requires at { IsAt self.now M.sight M.call seat.old (resized M.sight direction (goes along.now (stage.Lock side (lock.LockHead head)))) }
        ensures on { Further self.now M.sight M.call seat.new (resized M.sight direction (goes along.now (stage.Lock side (lock.LockHead head)))) (resized M.sight direction (locks_on direction along.now side (tried_lock head result))) }
    {
        let row = along.level;
        let bucket = along.bucket_at(direction, side);
        let index = self.layout.head(row, bucket);
        let step = Step::LockHead { row, bucket, head };
        self.compare_exchange(seat, step, index, head, locked(head)) == head
    }

    /// Makes a locked head of the new row.
    #[inline(always)]
    pub(crate) fn put_side<M: Began>(
        &self,
        seat: &mut Raw,
        direction: Direction,
        along: &ResizeAlong,
        side: Side,
    )
        requires at { IsAt self.now M.sight M.call seat.old (resized M.sight direction (goes along.now (stage.PutHead side))) }
        ensures on { Further self.now M.sight M.call seat.new (resized M.sight direction (goes along.now (stage.PutHead side))) (resized M.sight direction (goes along.now (after_put direction along.now.chains side))) }
    {
        let row = direction.end_level(along.level);
        let bucket = along.bucket_at(direction, side);
        let first = direction.new_first(along.chains, side);
        let index = self.layout.head(row, bucket);
        let step = Step::PutHead { row, bucket, first };
        self.store(seat, step, index, locked_head(first));
    }

    /// Redirects a head of the old row to the new one.
    #[inline(always)]
    pub(crate) fn redirect_side<M: Began>(
        &self,
        seat: &mut Raw,
        direction: Direction,
        along: &ResizeAlong,
        side: Side,
    )
        requires at { IsAt self.now M.sight M.call seat.old (resized M.sight direction (goes along.now (stage.RedirectHead side))) }
        ensures on { Further self.now M.sight M.call seat.new (resized M.sight direction (goes along.now (stage.RedirectHead side))) (resized M.sight direction (redirected direction along.now side)) }
    {
        let row = along.level;
        let bucket = along.bucket_at(direction, side);
        let first = along.chains.at(side).first;
        let index = self.layout.head(row, bucket);
        let step = Step::RedirectHead { row, bucket, first };
        self.store(seat, step, index, redirected_head(first));
    }

    /// Takes the lock off a head of the new row.
    #[inline(always)]
    fn unlock_side<M: Began>(
        &self,
        seat: &mut Raw,
        direction: Direction,
        along: &ResizeAlong,
        side: Side,
    )
        requires at { IsAt self.now M.sight M.call seat.old (resized M.sight direction (goes along.now (stage.UnlockHead side))) }
        ensures on { Further self.now M.sight M.call seat.new (resized M.sight direction (goes along.now (stage.UnlockHead side))) (resized M.sight direction (unlocked direction along.now side)) }
    {
        let row = direction.end_level(along.level);
        let bucket = along.bucket_at(direction, side);
        let first = direction.new_first(along.chains, side);
        let index = self.layout.head(row, bucket);
        let step = Step::UnlockHead { row, bucket, first };
        self.store(seat, step, index, plain_head(first));
    }

    /// Takes the locks off the new buckets of the pair: a grow has made two, and a shrink one.
    pub(crate) fn unlock_pair<M: Began>(
        &self,
        seat: &mut Raw,
        direction: Direction,
        along: &mut ResizeAlong,
    ) -> ResizeNext
        requires at { IsAt self.now M.sight M.call seat.old (resized M.sight direction (goes along.old (stage.UnlockHead Side.Even))) }
        ensures on { Further self.now M.sight M.call seat.new (resized M.sight direction (goes along.old (stage.UnlockHead Side.Even))) (resized M.sight direction (comes_to along.new result)) }
    {
        self.unlock_side::<M>(seat, direction, along, Side::Even);
        match direction {
            Direction::Grow => {
                self.unlock_side::<M>(seat, direction, along, Side::Odd);
                next_pair(direction, along)
            }
            Direction::Shrink => next_pair(direction, along),
        }
    }
}
