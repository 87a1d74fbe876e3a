//! The events of a table.
use crate::text::Text;

/// The count at which an entry is permanent: no drop lowers it, no take raises it.
pub const PERMANENT: u16 = 65_535;

/// What a text is interned as: a slot of the table, and the generation of that slot. The generation
/// rises each time a slot that was linked is freed, so a handle names one entry for good.
#[derive(Clone, Copy, Debug, PartialEq, Eq, PartialOrd, Ord, Hash)]
pub struct Handle {
    /// The slot's number, from 0.
    pub slot: u32,
    /// How often the slot was freed after it was linked; below 2^48.
    pub generation: u64,
}

/// A live entry: its handle, and its count, from 1 to 65,535.
#[derive(Clone, Copy, Debug, PartialEq, Eq)]
pub struct Entry {
    pub handle: Handle,
    pub count: u16,
}

/// How a table keeps its entries.
#[derive(Clone, Copy, Debug, PartialEq, Eq)]
pub enum Kind {
    /// By 16-bit counts, as symbols: an entry whose count falls to 0 is gone, and 65,535 is permanent.
    Counted,
    /// Weakly, as string literals: an entry is gone once it was listed as dead.
    Weak,
}

/// The table that a log is of.
#[derive(Clone, Copy, Debug, PartialEq, Eq)]
pub struct TableKind {
    /// How it keeps its entries.
    pub kind: Kind,
    /// Its level at first, which is its least one.
    pub min_level: u8,
    /// Its greatest level.
    pub max_level: u8,
    /// Its grace counter at first.
    pub first_counter: u64,
}

/// What letting go of a counted handle came to.
#[derive(Clone, Copy, Debug, PartialEq, Eq)]
pub enum Released {
    /// The count fell to `left`; at 0 the entry is gone.
    Dropped { left: u16 },
    /// The count was 65,535 and stayed.
    Permanent,
}

/// What happened to a table in one atomic step.
#[derive(Debug, Drop)]
pub enum What {
    /// The text was put at the head of its bucket, with this handle and count 1.
    Create(Text, Handle),
    /// The count of the text's entry rose by one; 65,534 became 65,535, and 65,535 stayed.
    Take(Text, Handle),
    /// A live entry of the text was seen, in a weak table.
    Found(Text, Handle),
    /// The count fell by one; 65,535 stayed; at 0 the entry is gone.
    Drop(Handle),
    /// The count became 65,535.
    Perm(Handle),
    /// The entry is gone, in a weak table.
    Kill(Handle),
    /// The slot was taken.
    Claim(u32),
    /// The slot was given back.
    Free(u32),
    /// The caller's section was opened, with the grace counter that it had loaded.
    Open(u64),
    /// The caller's section was closed.
    Close,
    /// The grace counter was raised.
    Grace,
    /// The lock mark of the bucket, given by its row's level and its place in the row, was set.
    Lock(u8, u32),
    /// That lock mark was taken away.
    Unlock(u8, u32),
    /// The slot was taken out of its chain.
    Unlink(u32),
    /// The resize lock was taken.
    ResizeTaken,
    /// The resize lock was given back.
    ResizeGiven,
    /// The level was stored.
    Level(u8),
    /// The hashes and the chains were made anew with this seed.
    Rehash { seed: u32 },
}

/// One event of a table's log: which seat made the step, by its number, and what happened.
#[derive(Debug, Drop)]
pub struct Event {
    pub seat: u32,
    pub what: What,
}
