//! An entry of generation 0, as it is kept.
ghost use Rattle.std.specs.Prelude.{◌≡◌, ◌<◌, ◌^◌};
ghost use Rattle.intern_log.specs.Log as log;
ghost use Rattle.intern_log.specs.EntryCounts as counts;

use intern_log::{Handle, PERMANENT};
use std::marker::Model;

/// An entry by its slot and its count. Contracts see the entry.
#[derive(Clone, Copy)]
pub(crate) struct SlotEntry {
    slot: u32,
    count: u16,
}

impl Model for SlotEntry {
    ghost use Rattle.intern_log.specs.declared.event.Entry.{Entry};

    ghost Value = { Entry };

    ghost view = { λ e. record { handle = record { slot = e.slot; generation = 0 }; count = e.count } };

    ghost inverse = { λ e. record { slot = e.handle.slot; count = e.count } };
}

impl SlotEntry {
    /// The entry that a Create makes, with this slot.
    pub(crate) fn new(slot: u32) -> SlotEntry
        ensures { result ≡ log.new_entry (record { slot = slot; generation = 0 }) }
    {
        SlotEntry { slot, count: 1 }
    }

    /// The entry's handle.
    #[inline]
    pub(crate) fn handle(&self) -> Handle
        ensures { result ≡ self.now.handle }
    {
        Handle {
            slot: self.slot,
            generation: 0,
        }
    }

    /// The entry's count.
    #[inline]
    pub(crate) fn count(&self) -> u16
        ensures { result ≡ self.now.count }
    {
        self.count
    }

    /// The entry with one more hold; a permanent one stays.
    #[inline]
    pub(crate) fn raised(&self) -> SlotEntry
        ensures { result ≡ log.raised self.now }
    {
        if self.count == PERMANENT {
            return *self;
        }
        SlotEntry {
            slot: self.slot,
            count: self.count + 1,
        }
    }

    /// The entry with one hold less, or `None` where that was its last; a permanent one stays.
    #[inline]
    pub(crate) fn lowered(&self) -> Option<SlotEntry>
        ensures { result ≡ log.lowered self.now }
    {
        if self.count == PERMANENT {
            return Some(*self);
        }
        if self.count <= 1 {
            return None;
        }
        Some(SlotEntry {
            slot: self.slot,
            count: self.count - 1,
        })
    }

    /// How many holds the entry counts: none, where it is permanent.
    pub(crate) fn references(&self) -> u64
        ensures value { result ≡ counts.references_to self.now }
        ensures small { result < 2 ^ 16 }
    {
        if self.count < PERMANENT {
            u64::from(self.count)
        } else {
            0
        }
    }
}
