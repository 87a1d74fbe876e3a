//! How a resize goes on.
ghost use Rattle.std.specs.Prelude.{◌≡◌};
ghost use Rattle.table_shape.specs.declared.shape.Shape.{Shape};
ghost use Rattle.table_shape.specs.Shape.{IsSound};
ghost use Rattle.call_machine.specs.Grace as graces;
ghost use Rattle.call_machine.specs.Resize as resizes;
ghost use Rattle.call_machine.specs.SoundResize.{IsSoundResizing};

use super::pair::unzips_on;
use super::{AfterGrace, Chains, Direction, ResizeAlong, ResizeStage, Side, Went};
use crate::grace::{Grace, GraceStage, Gracing, counts_grace, held_back};
use crate::lock::{LockStage, Locking};
use atomic_step::{Answer, Edge, Worked};

impl ResizeAlong {
    /// What goes along with a resize that begins at a level.
    pub(super) fn begun(level: u8) -> ResizeAlong
        ensures value { result ≡ resizes.begun_resize level }
    {
        ResizeAlong {
            level,
            bucket: 0,
            chains: Chains::from(None, None),
            rest: None,
            passed: 0,
            grace: Grace::NONE,
            graces: 0,
        }
    }

    /// The bucket of a side of the present pair.
    pub fn bucket_at(self, direction: Direction, side: Side) -> u32
        requires sound { (shape : Shape) × IsSound shape × IsSoundResizing shape direction self }
        ensures value { result ≡ resizes.bucket_at direction self side }
    {
        match side {
            Side::Even => self.bucket,
            Side::Odd => self.bucket + direction.half(self.level),
        }
    }

    /// The end so far of the chain of a side.
    pub fn end_of(self, direction: Direction, side: Side) -> Edge
        requires sound { (shape : Shape) × IsSound shape × IsSoundResizing shape direction self }
        ensures value { result ≡ resizes.end_of direction self side }
    {
        match self.chains.at(side).last {
            None => Edge::Head {
                row: direction.end_level(self.level),
                bucket: self.bucket_at(direction, side),
            },
            Some(slot) => Edge::Link { slot },
        }
    }

    pub(super) fn goes(self, stage: ResizeStage) -> Went
        ensures value { result ≡ resizes.goes self stage }
    {
        (self, stage, None)
    }

    /// A grace comes next, if one may begin.
    pub(super) fn raises(self, after: AfterGrace) -> Went
        ensures value { result ≡ resizes.raises self after }
    {
        let stage = ResizeStage::Grace {
            after,
            stage: GraceStage::RaiseCounter,
        };
        (self, stage, held_back(self.grace.raised))
    }

    /// A bucket is locked, and this is its first node.
    fn has_locked(self, direction: Direction, side: Side, first: Option<u32>) -> Went
        ensures value { result ≡ resizes.has_locked direction self side first }
    {
        let load_odd = ResizeStage::Lock {
            side: Side::Odd,
            stage: LockStage::LoadHead,
        };
        let put_even = ResizeStage::PutHead { side: Side::Even };
        let (chains, stage) = match (direction, side) {
            (Direction::Grow, _) => (Chains::from(first, first), put_even),
            (Direction::Shrink, Side::Even) => (Chains::from(first, None), load_odd),
            (Direction::Shrink, Side::Odd) => {
                (Chains::from(self.chains.even.first, first), put_even)
            }
        };
        ResizeAlong { chains, ..self }.goes(stage)
    }

    /// What came of a step that locks a bucket.
    pub(super) fn locks_on(self, direction: Direction, side: Side, came: Locking) -> Went
        requires sound { (shape : Shape) × IsSound shape × IsSoundResizing shape direction self }
        ensures value { result ≡ resizes.locks_on direction self side came }
    {
        match came {
            Locking::Goes(stage) => self.goes(ResizeStage::Lock { side, stage }),
            Locking::Waits => {
                let stage = ResizeStage::Lock {
                    side,
                    stage: LockStage::LoadHead,
                };
                let row = self.level;
                let bucket = self.bucket_at(direction, side);
                (self, stage, Some(Answer::PendingBucket { row, bucket }))
            }
            Locking::Locked { first } => self.has_locked(direction, side, first),
        }
    }

    /// A head of the old row is redirected.
    pub(super) fn redirected(self, direction: Direction, side: Side) -> Went
        ensures value { result ≡ resizes.redirected direction self side }
    {
        match (direction, side) {
            (Direction::Grow, _) => self.goes(unzips_on(self.chains.even.first)),
            (Direction::Shrink, Side::Even) => {
                self.goes(ResizeStage::RedirectHead { side: Side::Odd })
            }
            (Direction::Shrink, Side::Odd) => self.raises(AfterGrace::UnlockHead),
        }
    }

    /// The next pair, or the level.
    fn next_pair(self, direction: Direction) -> Went
        requires sound { (shape : Shape) × IsSound shape × IsSoundResizing shape direction self }
        ensures value { result ≡ resizes.next_pair direction self }
    {
        let bucket = self.bucket + 1;
        if bucket < direction.half(self.level) {
            let stage = ResizeStage::Lock {
                side: Side::Even,
                stage: LockStage::LoadHead,
            };
            return ResizeAlong {
                bucket,
                passed: 0,
                ..self
            }
            .goes(stage);
        }
        self.goes(ResizeStage::StoreLevel)
    }

    /// A bucket of the new row is unlocked.
    pub(super) fn unlocked(self, direction: Direction, side: Side) -> Went
        requires sound { (shape : Shape) × IsSound shape × IsSoundResizing shape direction self }
        ensures value { result ≡ resizes.unlocked direction self side }
    {
        match (direction, side) {
            (Direction::Grow, Side::Even) => self.goes(ResizeStage::UnlockHead { side: Side::Odd }),
            (Direction::Grow, Side::Odd) | (Direction::Shrink, _) => self.next_pair(direction),
        }
    }

    /// One more node of the pair was looked at.
    pub(super) fn looks_at(self) -> ResizeAlong
        ensures value { result ≡ resizes.looks_at self }
    {
        ResizeAlong {
            passed: self.passed.saturating_add(1),
            ..self
        }
    }

    /// What comes once a grace is over.
    fn after_grace(self, after: AfterGrace) -> ResizeStage
        ensures value { result ≡ resizes.after_grace self after }
    {
        match after {
            AfterGrace::Unzip => unzips_on(self.rest),
            AfterGrace::UnlockHead => ResizeStage::UnlockHead { side: Side::Even },
            AfterGrace::ClearNewLevel => ResizeStage::ClearNewLevel,
        }
    }

    /// After a step of a grace, with one more that was begun where the counter is raised.
    pub(super) fn with_grace(self, grace: Grace, stage: GraceStage) -> ResizeAlong
        ensures value { result ≡ record self { grace = grace; graces = graces.counts_grace stage self.graces } }
    {
        ResizeAlong {
            grace,
            graces: counts_grace(stage, self.graces),
            ..self
        }
    }

    /// What came of a step of a grace.
    pub(super) fn graces_on(self, after: AfterGrace, came: Gracing) -> Went
        ensures value { result ≡ resizes.graces_on self after came }
    {
        let stage = ResizeStage::Grace {
            after,
            stage: GraceStage::LoadSection,
        };
        let seat = self.grace.next;
        match came {
            Gracing::Goes => self.goes(stage),
            Gracing::Waits => (self, stage, Some(Answer::PendingSeat { seat })),
            Gracing::Over => self.goes(self.after_grace(after)),
        }
    }

    /// What a finished resize did.
    pub fn worked(self, direction: Direction) -> Worked
        requires sound { (shape : Shape) × IsSound shape × IsSoundResizing shape direction self }
        ensures value { result ≡ resizes.worked direction self }
    {
        Worked {
            unlinked: 0,
            graces: self.graces,
            level: direction.end_level(self.level),
        }
    }
}
