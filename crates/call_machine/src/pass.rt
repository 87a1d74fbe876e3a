//! Cleaning a locked bucket: its dead nodes are unlinked, and later their slots are freed.
ghost use Rattle.std.specs.Prelude.{◌≡◌, ℕ, ◌<◌, ◌≤◌, ◌^◌, length};
ghost use Rattle.table_shape.specs.declared.shape.Shape.{Shape};
ghost use Rattle.table_shape.specs.Shape.{IsSound};
ghost use Rattle.atomic_step.specs.SoundStep.{CanBeFound};
ghost use Rattle.call_machine.specs.Pass as passes;
ghost use Rattle.call_machine.specs.SoundPass.{HasSoundPass, IsSoundFree};

use arrayvec::ArrayVec;
use atomic_step::count::{generation_of, holds_of};
use atomic_step::{Edge, Step};
use marked_word::node_of;

/// How many unlinked slots are kept at most before they are freed.
pub const BATCH: usize = 256;

/// The first generation that no count word has.
const GENERATIONS: u64 = 1 << 48;

/// A slot that was unlinked and waits to be freed, with its generation.
#[derive(Clone, Copy, Debug, Default, PartialEq, Eq)]
pub struct Waiting {
    pub slot: u32,
    pub generation: u64,
}

/// A bucket that is cleaned, and the slots that wait to be freed.
#[derive(Debug, Drop)]
pub struct Cleaning {
    pub row: u8,
    pub bucket: u32,
    /// The first node of the chain, as the locked head has it.
    pub first: Option<u32>,
    /// The last node that was passed and stays.
    pub last: Option<u32>,
    /// The slots that were unlinked and wait to be freed, in the order of their unlinking.
    pub waiting: ArrayVec<Waiting, BATCH>,
    /// How many of them the present pass unlinked.
    pub pass_waiting: u32,
    /// How many nodes the present pass looked at; 2^32 - 1 stays.
    pub passed: u32,
    /// How many slots were unlinked; 2^64 - 1 stays.
    pub unlinked: u64,
}

/// How the dead nodes of a locked bucket are unlinked: the count of a node, with the generation of one
/// that is dead, its link, and the move past it.
#[derive(Clone, Copy, Debug, PartialEq, Eq)]
pub enum PassStage {
    LoadCount {
        slot: u32,
    },
    LoadLink {
        slot: u32,
        dead: Option<u64>,
    },
    Unlink {
        slot: u32,
        generation: u64,
        next: Option<u32>,
    },
}

/// How the slots that wait are freed, one after another: the next generation, and then the claim.
#[derive(Clone, Copy, Debug, PartialEq, Eq)]
pub enum FreeStage {
    PutNextGeneration { at: u32 },
    FreeSlot { at: u32 },
}

/// The generation of a dead node.
#[inline]
pub fn dead_of(word: u64) -> Option<u64>
    ensures value { result ≡ passes.dead_of word }
{
    if holds_of(word) == 0 {
        Some(generation_of(word))
    } else {
        None
    }
}

/// At the next node, or at the end of the chain.
pub(crate) fn passes_on(next: Option<u32>) -> Option<PassStage>
    ensures value { result ≡ passes.passes_on next }
{
    match next {
        None => None,
        Some(slot) => Some(PassStage::LoadCount { slot }),
    }
}

impl Cleaning {
    /// A bucket of which nothing is cleaned yet, and no slot waits.
    pub fn none(row: u8, bucket: u32) -> Cleaning
        ensures value { result ≡ passes.no_cleaning row bucket }
    {
        Cleaning {
            row,
            bucket,
            first: None,
            last: None,
            waiting: ArrayVec::new(),
            pass_waiting: 0,
            passed: 0,
            unlinked: 0,
        }
    }

    /// The bucket is locked, and this is its first node.
    #[inline]
    pub fn begin_pass(&mut self, first: Option<u32>)
        ensures value { self.new ≡ passes.begins_pass self.old first }
    {
        self.first = first;
        self.last = None;
        self.pass_waiting = 0;
        self.passed = 0;
    }

    /// The edge that leads to the present node.
    #[inline]
    pub fn edge(&self) -> Edge
        ensures value { result ≡ passes.edge_behind self.now self.now.last }
    {
        match self.last {
            None => Edge::Head {
                row: self.row,
                bucket: self.bucket,
            },
            Some(slot) => Edge::Link { slot },
        }
    }

    /// The step of a stage of the pass.
    pub(crate) fn pass_step(&self, stage: PassStage) -> Step
        ensures value { result ≡ (passes.pass_row self.now stage).step }
    {
        match stage {
            PassStage::LoadCount { slot } => Step::LoadCount { slot },
            PassStage::LoadLink { slot, .. } => Step::LoadLink { slot },
            PassStage::Unlink { slot, next, .. } => Step::Unlink {
                slot,
                edge: self.edge(),
                next,
            },
        }
    }

    /// What comes of the word that a pass found: the next stage, or `None` where the pass is over.
    pub(crate) fn pass(&mut self, stage: PassStage, word: u64) -> Option<PassStage>
        requires room { length self.old.waiting.items < 256 }
        requires counted { self.old.pass_waiting ≤ length self.old.waiting.items }
        requires generation { HasSoundPass stage }
        requires fits { (shape : Shape) × IsSound shape × CanBeFound shape (passes.pass_row self.old stage).step word }
        ensures value { (self.new, result) ≡ (passes.pass_row self.old stage).next word }
    {
        match stage {
            PassStage::LoadCount { slot } => {
                self.passed = self.passed.saturating_add(1);
                let dead = dead_of(word);
                Some(PassStage::LoadLink { slot, dead })
            }
            PassStage::LoadLink { slot, dead: None } => {
                self.last = Some(slot);
                passes_on(node_of(word))
            }
            PassStage::LoadLink {
                slot,
                dead: Some(generation),
            } => {
                let next = node_of(word);
                Some(PassStage::Unlink {
                    slot,
                    generation,
                    next,
                })
            }
            PassStage::Unlink {
                slot,
                generation,
                next,
            } => {
                self.unlink(slot, generation, next);
                if self.waiting.len() == BATCH {
                    return None;
                }
                passes_on(next)
            }
        }
    }

    /// A slot is out of its chain.
    #[inline]
    pub fn unlink(&mut self, slot: u32, generation: u64, next: Option<u32>)
        requires room { length self.old.waiting.items < 256 }
        requires counted { self.old.pass_waiting ≤ length self.old.waiting.items }
        requires generation { generation < 2 ^ 48 }
        ensures value { self.new ≡ passes.unlinks self.old slot generation next }
    {
        if self.last.is_none() {
            self.first = next;
        }
        self.unlinked = self.unlinked.saturating_add(1);
        self.wait(slot, generation);
    }

    /// An unlinked slot waits to be freed; one of the last generation is never freed.
    #[inline]
    fn wait(&mut self, slot: u32, generation: u64)
        requires room { length self.old.waiting.items < 256 }
        requires counted { self.old.pass_waiting ≤ length self.old.waiting.items }
        requires generation { generation < 2 ^ 48 }
        ensures value { self.new ≡ passes.waits self.old slot generation }
    {
        if generation + 1 < GENERATIONS {
            self.waiting.push(Waiting { slot, generation });
            self.pass_waiting += 1;
        }
    }

    /// The slot of this number of those that wait.
    #[inline]
    pub fn waiting_at(&self, at: u32) -> Waiting
        ensures value { result ≡ passes.waiting_at self.now at }
    {
        match self.waiting.get(at as usize) {
            Some(waiting) => *waiting,
            None => Waiting::default(),
        }
    }

    /// The step of a stage of freeing.
    pub(crate) fn free_step(&self, stage: FreeStage) -> Step
        ensures value { result ≡ (passes.free_row self.now stage).step }
    {
        match stage {
            FreeStage::PutNextGeneration { at } => {
                let Waiting { slot, generation } = self.waiting_at(at);
                Step::PutNextGeneration { slot, generation }
            }
            FreeStage::FreeSlot { at } => Step::FreeSlot {
                slot: self.waiting_at(at).slot,
            },
        }
    }

    /// What comes of a step of freeing: the next stage, or `None` where no slot waits any more.
    pub(crate) fn free(&mut self, stage: FreeStage) -> Option<FreeStage>
        requires waits { IsSoundFree self.old stage }
        requires few { length self.old.waiting.items ≤ 256 }
        ensures value { (word : ℕ) → (self.new, result) ≡ (passes.free_row self.old stage).next word }
    {
        match stage {
            FreeStage::PutNextGeneration { at } => Some(FreeStage::FreeSlot { at }),
            FreeStage::FreeSlot { at } => {
                let at = at + 1;
                if at as usize == self.waiting.len() {
                    self.waiting.clear();
                    self.pass_waiting = 0;
                    return None;
                }
                Some(FreeStage::PutNextGeneration { at })
            }
        }
    }
}
