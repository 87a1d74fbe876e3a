//! What the calls of a table answer.
use intern_log::Handle;

/// What a finished work did.
#[derive(Clone, Copy, Debug, PartialEq, Eq)]
pub struct Worked {
    /// How many slots it unlinked; 2^64 - 1 stays there.
    pub unlinked: u64,
    /// How many graces it began; 2^64 - 1 stays there.
    pub graces: u64,
    /// The level at its end.
    pub level: u8,
}

/// What a call answers.
#[derive(Clone, Copy, Debug, PartialEq, Eq)]
pub enum Answer {
    /// The new seat's number.
    Split { number: u32 },
    /// All numbers are drawn.
    SeatsSpent,
    /// The text had no live entry, and has the new one of this handle now.
    Created(Handle),
    /// The count of the text's entry was raised by an intern.
    Taken(Handle),
    /// An intern saw the text's live entry, in a weak table.
    Found(Handle),
    /// A look-up saw the text's live entry; in a counted table it raised the count.
    Hit(Handle),
    /// The text has no live entry.
    Miss,
    /// Another seat was faster.
    Again,
    /// The bucket of the text is locked.
    Locked,
    /// No slot is free.
    NoSlot,
    /// The text is longer than 65,535 bytes or than a slot's text words.
    TooLong,
    /// The handle's text has this length in bytes.
    Text { length: u16 },
    /// The handle's entry is gone.
    Stale,
    /// The count fell to `left`; at 0 the entry is gone.
    Dropped { left: u16 },
    /// The count was 65,535 and stayed.
    Permanent,
    /// The count is 65,535 now.
    MadePermanent,
    /// The entry is gone now.
    Killed,
    /// The work or the grace has begun.
    Begun,
    /// Another seat has the resize lock.
    Busy,
    /// The grace counter is 2^48 or more, so that no work, grace or sweep begins any more.
    Spent { counter: u64 },
    /// The level is the greatest.
    AtMaximum { level: u8 },
    /// The level is the least.
    AtMinimum { level: u8 },
    /// The grace waits for the section of this number; 0 where the work may begin no further grace.
    PendingSeat { seat: u32 },
    /// The work waits for this bucket.
    PendingBucket { row: u8, bucket: u32 },
    /// The work is done.
    Done(Worked),
    /// Each section that was open as the grace began has been closed.
    Ready,
    /// The bucket is swept.
    Swept { unlinked: u32 },
}
