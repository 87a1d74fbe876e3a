//! Finding the head of a bucket, inside a section that is opened first.
ghost use Rattle.std.specs.Prelude.{◌≡◌, ℕ, ◌≤◌};
ghost use Rattle.table_shape.specs.declared.shape.Shape.{Shape};
ghost use Rattle.table_shape.specs.Shape.{IsSound};
ghost use Rattle.atomic_step.specs.SoundStep.{CanBeFound};
ghost use Rattle.call_machine.specs.Find as find;

use crate::enter::EnterStage;
use atomic_step::Step;
use marked_word::{is_redirected, new_level_of};

/// Where a call stands that finds the head of its text's bucket.
#[derive(Clone, Copy, Debug, PartialEq, Eq)]
pub enum FindStage {
    Enter(EnterStage),
    LoadLevel,
    /// The head in the row of the level.
    LoadHead,
    LoadNewLevel,
    /// The head in the row of the new level, after a redirect.
    LoadNewHead,
}

/// The bucket at which a call came into its chain.
#[derive(Clone, Copy, Debug, PartialEq, Eq)]
pub struct Walk {
    pub row: u8,
    pub bucket: u32,
    /// The head's word as it was loaded.
    pub head: u64,
    /// How many nodes were passed since the call last began to find its head.
    pub passed: u32,
}

impl Walk {
    /// The walk of a call that has not begun to find its head.
    pub const NONE: Walk = Walk {
        row: 0,
        bucket: 0,
        head: 0,
        passed: 0,
    };

    /// At the bucket of a text with this hash, in the row of a level.
    fn turned_to(self, hash: u32, level: u8) -> Walk
        requires level { level ≤ 20 }
        ensures value { result ≡ find.turned_to hash level self }
    {
        Walk {
            row: level,
            bucket: hash % (1u32 << level),
            ..self
        }
    }
}

impl FindStage {
    /// The step of the stage, by the seat of this number.
    pub(crate) fn step(self, number: u32, walk: Walk) -> Step
        ensures value { (hash : ℕ) → result ≡ (find.find_row number hash walk self).step }
    {
        let Walk { row, bucket, .. } = walk;
        match self {
            FindStage::Enter(stage) => stage.step(number),
            FindStage::LoadLevel => Step::LoadLevel,
            FindStage::LoadNewLevel => Step::LoadNewLevel,
            FindStage::LoadHead | FindStage::LoadNewHead => Step::LoadHead { row, bucket },
        }
    }

    /// What the word that was found says of the bucket, and the next stage, or `None` where the head is
    /// found.
    pub(crate) fn next(
        self,
        number: u32,
        hash: u32,
        walk: Walk,
        word: u64,
    ) -> (Walk, Option<FindStage>)
        requires fits { (shape : Shape) × IsSound shape × CanBeFound shape (find.find_row number hash walk self).step word }
        ensures value { result ≡ (find.find_row number hash walk self).next word }
    {
        match self {
            FindStage::Enter(stage) => (walk, Some(entered(stage.next(number, word)))),
            FindStage::LoadLevel => (walk.turned_to(hash, word as u8), Some(FindStage::LoadHead)),
            FindStage::LoadHead if is_redirected(word) => (
                Walk { head: word, ..walk },
                Some(FindStage::LoadNewLevel),
            ),
            FindStage::LoadNewLevel => (
                walk.turned_to(hash, new_level_of(word)),
                Some(FindStage::LoadNewHead),
            ),
            FindStage::LoadHead | FindStage::LoadNewHead => (Walk { head: word, ..walk }, None),
        }
    }
}

/// Still opening the section, or inside it.
fn entered(then: Option<EnterStage>) -> FindStage
    ensures value { result ≡ find.entered then }
{
    match then {
        Some(stage) => FindStage::Enter(stage),
        None => FindStage::LoadLevel,
    }
}
