//! The step of each stage of a resize, and what comes of the word that it found.
ghost use Rattle.std.specs.Prelude.{◌≡◌};
ghost use Rattle.table_shape.specs.declared.shape.Shape.{Shape};
ghost use Rattle.table_shape.specs.Shape.{IsSound};
ghost use Rattle.atomic_step.specs.SoundStep.{CanBeFound};
ghost use Rattle.call_machine.specs.Resize as resizes;
ghost use Rattle.call_machine.specs.SoundResize.{IsSoundResize, IsSoundResizing};

use super::pair::joins_at;
use super::{AfterGrace, Direction, JoinStage, ResizeAlong, ResizeStage, Side, UnzipStage, Went};
use crate::lock::LockStage;
use atomic_step::{Answer, Shape, Step};
use marked_word::{hash_in, node_of};

impl UnzipStage {
    /// The step of the stage.
    fn step(self, direction: Direction, along: ResizeAlong) -> Step
        requires sound { (shape : Shape) × IsSound shape × IsSoundResizing shape direction along }
        ensures value { result ≡ (resizes.unzip_row direction along self).step }
    {
        match self {
            UnzipStage::LoadMeta { slot } => Step::LoadMeta { slot },
            UnzipStage::LoadLink { slot, .. } => Step::LoadLink { slot },
            UnzipStage::MoveEdge { side, next, .. } => Step::MoveEdge {
                edge: along.end_of(direction, side.other()),
                next,
            },
        }
    }

    /// What comes of the word that was found.
    fn next(self, direction: Direction, along: ResizeAlong, word: u64) -> Went
        requires fits { (shape : Shape) × IsSound shape × IsSoundResizing shape direction along × CanBeFound shape (resizes.unzip_row direction along self).step word }
        ensures value { result ≡ (resizes.unzip_row direction along self).next word }
    {
        match self {
            UnzipStage::LoadMeta { slot } => {
                let side = Side::of(along.level, hash_in(word));
                let stage = UnzipStage::LoadLink { slot, side };
                along.looks_at().goes(ResizeStage::Unzip(stage))
            }
            UnzipStage::LoadLink { slot, side } => {
                let next = node_of(word);
                let stage = UnzipStage::MoveEdge { slot, side, next };
                along.goes(ResizeStage::Unzip(stage))
            }
            UnzipStage::MoveEdge { slot, side, next } => {
                let chains = along.chains.moved(slot, side, next);
                let along = ResizeAlong {
                    chains,
                    rest: next,
                    ..along
                };
                along.raises(AfterGrace::Unzip)
            }
        }
    }
}

impl JoinStage {
    /// The step of the stage.
    fn step(self, along: ResizeAlong) -> Step
        ensures value { result ≡ (resizes.join_row along self).step }
    {
        match self {
            JoinStage::LoadLink { slot } => Step::LoadLink { slot },
            JoinStage::JoinChains { slot } => Step::JoinChains {
                slot,
                next: along.chains.odd.first,
            },
        }
    }

    /// What comes of the word that was found.
    fn next(self, along: ResizeAlong, word: u64) -> Went
        requires fits { (shape : Shape) × IsSound shape × CanBeFound shape (resizes.join_row along self).step word }
        ensures value { result ≡ (resizes.join_row along self).next word }
    {
        match self {
            JoinStage::LoadLink { slot } => along.looks_at().goes(joins_at(slot, node_of(word))),
            JoinStage::JoinChains { .. } => {
                along.goes(ResizeStage::RedirectHead { side: Side::Even })
            }
        }
    }
}

impl ResizeStage {
    /// The step of the stage.
    pub(super) fn step(self, direction: Direction, along: ResizeAlong) -> Step
        requires sound { (shape : Shape) × IsSound shape × IsSoundResizing shape direction along }
        ensures value { (shape : Shape) → result ≡ (resizes.resize_row shape direction along self).step }
    {
        let level = direction.end_level(along.level);
        match self {
            ResizeStage::PutNewLevel => Step::PutNewLevel { level: Some(level) },
            ResizeStage::Lock { side, stage } => {
                stage.step(along.level, along.bucket_at(direction, side))
            }
            ResizeStage::PutHead { side } => Step::PutHead {
                row: level,
                bucket: along.bucket_at(direction, side),
                first: direction.new_first(along.chains, side),
            },
            ResizeStage::RedirectHead { side } => Step::RedirectHead {
                row: along.level,
                bucket: along.bucket_at(direction, side),
                first: along.chains.at(side).first,
            },
            ResizeStage::Unzip(stage) => stage.step(direction, along),
            ResizeStage::Join(stage) => stage.step(along),
            ResizeStage::UnlockHead { side } => Step::UnlockHead {
                row: level,
                bucket: along.bucket_at(direction, side),
                first: direction.new_first(along.chains, side),
            },
            ResizeStage::Grace { stage, .. } => along.grace.step(stage),
            ResizeStage::StoreLevel => Step::StoreLevel { level },
            ResizeStage::ClearNewLevel => Step::PutNewLevel { level: None },
            ResizeStage::GiveResizeLock => Step::GiveResizeLock,
        }
    }

    /// What comes of the word that was found.
    pub(super) fn next(
        self,
        shape: &Shape,
        direction: Direction,
        along: ResizeAlong,
        word: u64,
    ) -> Went
        requires table { IsSound shape.now }
        requires sound { IsSoundResize shape.now direction along self }
        requires fits { CanBeFound shape.now (resizes.resize_row shape.now direction along self).step word }
        ensures value { result ≡ (resizes.resize_row shape.now direction along self).next word }
    {
        match self {
            ResizeStage::PutNewLevel => along.goes(ResizeStage::Lock {
                side: Side::Even,
                stage: LockStage::LoadHead,
            }),
            ResizeStage::Lock { side, stage } => {
                let bucket = along.bucket_at(direction, side);
                along.locks_on(direction, side, stage.next(along.level, bucket, word))
            }
            ResizeStage::PutHead { side } => along.goes(direction.after_put(along.chains, side)),
            ResizeStage::RedirectHead { side } => along.redirected(direction, side),
            ResizeStage::Unzip(stage) => stage.next(direction, along, word),
            ResizeStage::Join(stage) => stage.next(along, word),
            ResizeStage::UnlockHead { side } => along.unlocked(direction, side),
            ResizeStage::Grace { after, stage } => {
                let (grace, came) = along.grace.next(shape.seats, stage, word);
                along.with_grace(grace, stage).graces_on(after, came)
            }
            ResizeStage::StoreLevel => along.raises(AfterGrace::ClearNewLevel),
            ResizeStage::ClearNewLevel => along.goes(ResizeStage::GiveResizeLock),
            ResizeStage::GiveResizeLock => {
                let done = Answer::Done(along.worked(direction));
                (along, ResizeStage::GiveResizeLock, Some(done))
            }
        }
    }
}
