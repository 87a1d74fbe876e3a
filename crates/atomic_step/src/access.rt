//! Atomic operations, and what each makes of a word.
ghost use Rattle.std.specs.Prelude.{◌≡◌};
ghost use Rattle.atomic_step.specs.Access as access;

use table_shape::Place;

/// One atomic operation on the word of an index.
#[derive(Clone, Copy, Debug, PartialEq, Eq)]
pub enum Op {
    Load { at: u32 },
    Store { at: u32, value: u64 },
    Swap { at: u32, value: u64 },
    Add { at: u32, value: u64 },
    Exchange { at: u32, old: u64, new: u64 },
}

/// What an atomic step does to its word.
#[derive(Clone, Copy, Debug, PartialEq, Eq)]
pub enum Deed {
    Load,
    Store(u64),
    Swap(u64),
    /// Adds to it, modulo 2^64.
    Add(u64),
    /// Stores `new` where it finds `old`, and otherwise leaves the word.
    Exchange { old: u64, new: u64 },
}

/// A step as the words of a table see it: of which kind, on which word, and what it does to it.
#[derive(Clone, Copy)]
pub struct Access {
    pub kind: StepKind,
    pub place: Place,
    pub deed: Deed,
}

/// What an atomic step is for.
#[derive(Clone, Copy, Debug, PartialEq, Eq)]
pub enum StepKind {
    /// Loads how many numbers were drawn, or draws one.
    K1,
    /// Claims a slot.
    K2,
    /// Writes a word of a slot that the seat alone has.
    K3,
    /// Gives a slot back.
    K4,
    /// Loads a head.
    K5,
    /// Loads a link, count, meta or text word.
    K6,
    /// Puts a new entry at the head of its bucket.
    K7,
    /// Changes a count.
    K8,
    /// Loads the grace counter.
    K9,
    /// Opens the seat's section.
    K10,
    /// Closes the seat's section.
    K11,
    /// Raises the grace counter.
    K12,
    /// Loads a section word.
    K13,
    /// Locks a bucket.
    K14,
    /// Unlocks a bucket.
    K15,
    /// Takes a dead entry out of its chain.
    K16,
    /// Takes the resize lock.
    K17,
    /// Gives the resize lock back.
    K18,
    /// Loads the level.
    K19,
    /// Loads the new level.
    K20,
    /// Writes a locked head of the new row.
    K21,
    /// Writes the new level, or that there is none.
    K22,
    /// Redirects a head of the old row.
    K23,
    /// Moves a link of one side of an unzipped chain past an entry of the other.
    K24,
    /// Writes the level.
    K25,
    /// Joins two chains.
    K26,
}

impl Deed {
    /// The operation on the word of an index.
    #[inline(always)]
    pub fn op(self, at: u32) -> Op
        ensures value { result ≡ access.op_of at self }
    {
        match self {
            Deed::Load => Op::Load { at },
            Deed::Store(value) => Op::Store { at, value },
            Deed::Swap(value) => Op::Swap { at, value },
            Deed::Add(value) => Op::Add { at, value },
            Deed::Exchange { old, new } => Op::Exchange { at, old, new },
        }
    }

    /// What the deed makes of a word.
    #[inline(always)]
    pub fn after(self, word: u64) -> u64
        ensures value { result ≡ access.word_after self word }
    {
        match self {
            Deed::Load => word,
            Deed::Store(value) | Deed::Swap(value) => value,
            Deed::Add(value) => word.wrapping_add(value),
            Deed::Exchange { old, new } => { if word == old { new } else { word } }
        }
    }
}

impl Op {
    /// The index of the word.
    #[inline(always)]
    pub fn at(self) -> u32
        ensures value { result ≡ access.index_in self }
    {
        match self {
            Op::Load { at }
            | Op::Store { at, .. }
            | Op::Swap { at, .. }
            | Op::Add { at, .. }
            | Op::Exchange { at, .. } => at,
        }
    }

    /// What the operation makes of a word.
    #[inline(always)]
    pub fn after(self, word: u64) -> u64
        ensures value { result ≡ access.word_after (access.deed_in self) word }
    {
        match self {
            Op::Load { .. } => word,
            Op::Store { value, .. } | Op::Swap { value, .. } => value,
            Op::Add { value, .. } => word.wrapping_add(value),
            Op::Exchange { old, new, .. } => { if word == old { new } else { word } }
        }
    }
}
