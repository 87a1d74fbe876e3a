//! Locking a bucket: its head is loaded, and exchanged for the same with the lock.
ghost use Rattle.std.specs.Prelude.{◌≡◌};
ghost use Rattle.table_shape.specs.declared.shape.Shape.{Shape};
ghost use Rattle.table_shape.specs.Shape.{IsSound};
ghost use Rattle.atomic_step.specs.SoundStep.{CanBeFound, IsHeadWord};
ghost use Rattle.call_machine.specs.Lock as lock;

use atomic_step::Step;
use marked_word::{first_of, is_locked};

/// Where a call stands that locks a bucket.
#[derive(Clone, Copy, Debug, PartialEq, Eq)]
pub enum LockStage {
    LoadHead,
    /// This head was loaded.
    LockHead { head: u64 },
}

/// What came of a step that locks a bucket.
#[derive(Clone, Copy, Debug, PartialEq, Eq)]
pub enum Locking {
    Goes(LockStage),
    /// Another has the lock, or was faster.
    Waits,
    /// The bucket is locked, and this is its first node.
    Locked { first: Option<u32> },
}

impl LockStage {
    /// The step of the stage, at this bucket.
    pub(crate) fn step(self, row: u8, bucket: u32) -> Step
        ensures value { result ≡ (lock.lock_row row bucket self).step }
    {
        match self {
            LockStage::LoadHead => Step::LoadHead { row, bucket },
            LockStage::LockHead { head } => Step::LockHead { row, bucket, head },
        }
    }

    /// What comes of the word that was found.
    pub(crate) fn next(self, row: u8, bucket: u32, word: u64) -> Locking
        requires fits { (shape : Shape) × IsSound shape × CanBeFound shape (lock.lock_row row bucket self).step word }
        ensures value { result ≡ (lock.lock_row row bucket self).next word }
    {
        match self {
            LockStage::LoadHead if is_locked(word) => Locking::Waits,
            LockStage::LoadHead => Locking::Goes(LockStage::LockHead { head: word }),
            LockStage::LockHead { head } if word == head => Locking::Locked {
                first: first_of(word),
            },
            LockStage::LockHead { .. } => Locking::Waits,
        }
    }
}
