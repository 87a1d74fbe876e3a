//! Growing and shrinking a table: the row of heads of the level above or below is made, pair by pair,
//! and then the level is stored.
//!
//! A grow locks a bucket of the old row, makes the two heads of its pair in the new row, redirects the
//! old head, and unzips the chain: at each node the end of the side to which it does not belong is moved
//! past it, and then a grace is waited for. A shrink locks the two buckets of a pair, makes one head,
//! joins the chains, redirects both, and waits for a grace.
ghost use Rattle.std.specs.Prelude.{◌≡◌};
ghost use Rattle.table_shape.specs.declared.shape.Shape.{Shape};
ghost use Rattle.table_shape.specs.Shape.{IsSound};
ghost use Rattle.atomic_step.specs.SoundStep.{CanBeFound};
ghost use Rattle.call_machine.specs.Resize as resizes;
ghost use Rattle.call_machine.specs.SoundResize.{IsSoundResize};

use crate::grace::{Grace, GraceStage, held_back};
use crate::lock::LockStage;
use atomic_step::{Answer, Shape, Step};

mod along;
mod pair;
mod stage;

/// Whether the level is raised or lowered by one.
#[derive(Clone, Copy, Debug, PartialEq, Eq)]
pub enum Direction {
    Grow,
    Shrink,
}

/// Of the two buckets of a pair the lower or the higher one; a bucket that is alone is the even one.
#[derive(Clone, Copy, Debug, PartialEq, Eq)]
pub enum Side {
    Even,
    Odd,
}

/// The chain of a bucket: its first node, as the locked head has it, and the last node that was passed
/// and stays.
#[derive(Clone, Copy, Debug, PartialEq, Eq)]
pub struct Chain {
    pub first: Option<u32>,
    pub last: Option<u32>,
}

/// The two chains of a pair of buckets.
#[derive(Clone, Copy, Debug, PartialEq, Eq)]
pub struct Chains {
    pub even: Chain,
    pub odd: Chain,
}

/// What a resize does once its grace is over.
#[derive(Clone, Copy, Debug, PartialEq, Eq)]
pub enum AfterGrace {
    /// It goes on unzipping.
    Unzip,
    /// It unlocks the joined bucket.
    UnlockHead,
    /// It takes the new level away.
    ClearNewLevel,
}

/// How a chain is unzipped: the side of a node, its link, and the move past it.
#[derive(Clone, Copy, Debug, PartialEq, Eq)]
pub enum UnzipStage {
    LoadMeta {
        slot: u32,
    },
    LoadLink {
        slot: u32,
        side: Side,
    },
    MoveEdge {
        slot: u32,
        side: Side,
        next: Option<u32>,
    },
}

/// How two chains are joined: along the even one to its last link.
#[derive(Clone, Copy, Debug, PartialEq, Eq)]
pub enum JoinStage {
    LoadLink { slot: u32 },
    JoinChains { slot: u32 },
}

/// Where a resize stands.
#[derive(Clone, Copy, Debug, PartialEq, Eq)]
pub enum ResizeStage {
    PutNewLevel,
    /// A bucket of the old row is locked.
    Lock {
        side: Side,
        stage: LockStage,
    },
    /// A locked head of the new row is written.
    PutHead {
        side: Side,
    },
    /// A head of the old row is redirected.
    RedirectHead {
        side: Side,
    },
    Unzip(UnzipStage),
    Join(JoinStage),
    /// A bucket of the new row is unlocked.
    UnlockHead {
        side: Side,
    },
    Grace {
        after: AfterGrace,
        stage: GraceStage,
    },
    StoreLevel,
    ClearNewLevel,
    GiveResizeLock,
}

/// What goes along with a resize.
#[derive(Clone, Copy, Debug, PartialEq, Eq)]
pub struct ResizeAlong {
    /// The level at the beginning.
    pub level: u8,
    /// The lower bucket of the present pair.
    pub bucket: u32,
    pub chains: Chains,
    /// The node at which unzipping goes on after the grace.
    pub rest: Option<u32>,
    /// How many nodes of the present pair were looked at; 2^32 - 1 stays.
    pub passed: u32,
    /// The last grace.
    pub grace: Grace,
    /// How many graces were begun; 2^64 - 1 stays.
    pub graces: u64,
}

/// A grow or a shrink of a table.
#[derive(Clone, Copy, Debug, PartialEq, Eq)]
pub struct Resize {
    pub direction: Direction,
    pub along: ResizeAlong,
    pub stage: ResizeStage,
}

/// What came of a step: the next stage, and what the poll answers, if anything.
type Went = (ResizeAlong, ResizeStage, Option<Answer>);

impl Resize {
    /// A resize that begins at a level.
    pub fn begun(direction: Direction, level: u8) -> Resize
        ensures value { result ≡ record { direction = direction; along = resizes.begun_resize level; stage = ResizeStage.PutNewLevel } }
    {
        Resize {
            direction,
            along: ResizeAlong::begun(level),
            stage: ResizeStage::PutNewLevel,
        }
    }

    /// The level to which the resize leads.
    pub(crate) fn end_level(&self) -> u8
        requires sound { (shape : Shape) × IsSound shape × IsSoundResize shape self.now.direction self.now.along self.now.stage }
        ensures value { result ≡ resizes.end_level self.now.direction self.now.along.level }
    {
        self.direction.end_level(self.along.level)
    }

    /// What a new poll answers without a step: where no further grace may begin, it waits for good.
    pub(crate) fn begin_poll(&self) -> Option<Answer>
        ensures value { result ≡ resizes.resumed self.now.along self.now.stage }
    {
        match self.stage {
            ResizeStage::Grace {
                stage: GraceStage::RaiseCounter,
                ..
            } => held_back(self.along.grace.raised),
            _ => None,
        }
    }

    /// The step of the stage.
    pub(crate) fn step(&self) -> Step
        requires sound { (shape : Shape) × IsSound shape × IsSoundResize shape self.now.direction self.now.along self.now.stage }
        ensures value { (shape : Shape) → result ≡ (resizes.resize_row shape self.now.direction self.now.along self.now.stage).step }
    {
        self.stage.step(self.direction, self.along)
    }

    /// Takes the word that the step found; for a store any word. What the poll answers, if anything.
    pub(crate) fn got(&mut self, shape: &Shape, word: u64) -> Option<Answer>
        requires table { IsSound shape.now }
        requires sound { IsSoundResize shape.now self.old.direction self.old.along self.old.stage }
        requires fits { CanBeFound shape.now (resizes.resize_row shape.now self.old.direction self.old.along self.old.stage).step word }
        ensures value { (self.new.along, self.new.stage, result) ≡ (resizes.resize_row shape.now self.old.direction self.old.along self.old.stage).next word }
        ensures direction { self.new.direction ≡ self.old.direction }
    {
        let (along, stage, answer) = self.stage.next(shape, self.direction, self.along, word);
        self.along = along;
        self.stage = stage;
        answer
    }
}
