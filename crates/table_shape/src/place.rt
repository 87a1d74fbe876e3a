//! The words of a table by what they are for.
ghost use Rattle.std.specs.Prelude.{◌≡◌, ◌+◌, ◌^◌, ◌<◌, ◌≤◌, ◌↔◌, IsTrue};
ghost use Rattle.table_shape.specs.declared.place.Place.TheVariants as place;
ghost use Rattle.table_shape.specs.Shape.{IsSound, slot_words, slots_from, words_of};
ghost use Rattle.table_shape.specs.Place.{IsInside, row_from, slot_from, is_spread, is_for_seat, section_at, head_at, index_of};

use crate::shape::{Shape, heads, row_len};

/// A word of a table.
#[derive(Clone, Copy, Debug, PartialEq, Eq)]
pub enum Place {
    /// How many seat numbers were drawn.
    Draws,
    /// The grace counter.
    Counter,
    /// The resize lock.
    ResizeLock,
    /// The level.
    Level,
    /// The new level, while rows are being replaced.
    NewLevel,
    /// The section word of a seat number.
    Section(u32),
    /// The head of a bucket of a row.
    Head { row: u8, bucket: u32 },
    /// The claim word of a slot.
    Claim(u32),
    /// The link word of a slot.
    Link(u32),
    /// The count word of a slot.
    Count(u32),
    /// The meta word of a slot.
    Meta(u32),
    /// A text word of a slot.
    Text { slot: u32, at: u32 },
}

impl Shape {
    /// Where the slots begin.
    #[inline(always)]
    fn slots_from(&self) -> u32
        requires sound { IsSound self.now }
        ensures value { result ≡ slots_from self.now }
    {
        5 + self.seats + heads(self.min_level, self.max_level + 1)
    }

    /// Where a slot begins.
    #[inline(always)]
    fn slot_from(&self, slot: u32) -> u32
        requires sound { IsSound self.now }
        requires slot { slot < self.now.slots }
        ensures value { result ≡ slot_from self.now slot }
        ensures inside { result + slot_words self.now ≤ words_of self.now }
    {
        self.slots_from() + slot * (4 + self.text_words)
    }

    /// Where the row of a level begins.
    #[inline(always)]
    fn row_from(&self, row: u8) -> u32
        requires sound { IsSound self.now }
        requires row { (self.now.min_level ≤ row) × (row ≤ self.now.max_level) }
        ensures value { result ≡ row_from self.now row }
        ensures inside { result + 2 ^ row ≤ slots_from self.now }
    {
        5 + self.seats + heads(self.min_level, row)
    }

    /// Whether the greatest row is long enough for a section word among each eight of its heads.
    #[inline(always)]
    fn is_spread(&self) -> bool
        requires sound { IsSound self.now }
        ensures value { result ≡ is_spread self.now }
    {
        8 * (self.seats + 1) <= row_len(self.max_level)
    }

    /// Whether a head changes places with the section word of a seat.
    #[inline(always)]
    fn is_for_seat(&self, row: u8, bucket: u32) -> bool
        requires sound { IsSound self.now }
        ensures value { result ≡ is_for_seat self.now row bucket }
    {
        self.is_spread()
            && row == self.max_level
            && bucket % 8 == 0
            && 0 < bucket
            && bucket < 8 * (self.seats + 1)
    }

    /// The index of the section word of a seat.
    #[inline(always)]
    fn section_at(&self, seat: u32) -> u32
        requires sound { IsSound self.now }
        requires seat { seat < self.now.seats }
        ensures value { result ≡ section_at self.now seat }
    {
        if self.is_spread() {
            self.row_from(self.max_level) + 8 * (seat + 1)
        } else {
            5 + seat
        }
    }

    /// The index of a head.
    #[inline(always)]
    fn head_at(&self, row: u8, bucket: u32) -> u32
        requires sound { IsSound self.now }
        requires inside { IsInside self.now (place.Head row bucket) }
        ensures value { result ≡ head_at self.now row bucket }
    {
        if self.is_for_seat(row, bucket) {
            4 + bucket / 8
        } else {
            self.row_from(row) + bucket
        }
    }

    /// Whether a table of the shape has a row of this level.
    fn has_row(&self, row: u8) -> bool
        ensures row { IsTrue result ↔ ((self.now.min_level ≤ row) × (row ≤ self.now.max_level)) }
    {
        self.min_level <= row && row <= self.max_level
    }

    /// Whether a table of the shape has this word.
    pub fn has(&self, place: Place) -> bool
        requires sound { IsSound self.now }
        ensures inside { IsTrue result ↔ IsInside self.now place }
    {
        match place {
            Place::Draws | Place::Counter | Place::ResizeLock | Place::Level | Place::NewLevel =>
                true,
            Place::Section(seat) => seat < self.seats,
            Place::Head { row, bucket } => self.has_row(row) && bucket < row_len(row),
            Place::Claim(slot) | Place::Link(slot) | Place::Count(slot) | Place::Meta(slot) => slot
                < self.slots,
            Place::Text { slot, at } => slot < self.slots && at < self.text_words,
        }
    }

    /// The index of a word.
    #[inline(always)]
    pub fn index(&self, place: Place) -> u32
        requires sound { IsSound self.now }
        requires inside { IsInside self.now place }
        ensures value { result ≡ index_of self.now place }
        ensures inside { result < words_of self.now }
    {
        match place {
            Place::Draws => 0,
            Place::Counter => 1,
            Place::ResizeLock => 2,
            Place::Level => 3,
            Place::NewLevel => 4,
            Place::Section(seat) => self.section_at(seat),
            Place::Head { row, bucket } => self.head_at(row, bucket),
            Place::Claim(slot) => self.slot_from(slot),
            Place::Link(slot) => self.slot_from(slot) + 1,
            Place::Count(slot) => self.slot_from(slot) + 2,
            Place::Meta(slot) => self.slot_from(slot) + 3,
            Place::Text { slot, at } => self.slot_from(slot) + 4 + at,
        }
    }
}

#[cfg(test)]
mod tests {
    use super::*;

    static SMALL: Shape = Shape {
        slots: 8,
        text_words: 1,
        min_level: 3,
        max_level: 4,
        seats: 4,
    };

    static PLACES: [(Place, u32); 8] = [
        (Place::Draws, 0),
        (Place::NewLevel, 4),
        (Place::Section(3), 8),
        (Place::Head { row: 3, bucket: 0 }, 9),
        (Place::Head { row: 4, bucket: 15 }, 32),
        (Place::Claim(0), 33),
        (Place::Count(1), 40),
        (Place::Text { slot: 7, at: 0 }, 72),
    ];

    static WIDE: Shape = Shape {
        slots: 8,
        text_words: 1,
        min_level: 3,
        max_level: 6,
        seats: 4,
    };

    static SPREAD: [(Place, u32); 8] = [
        (Place::NewLevel, 4),
        (Place::Head { row: 6, bucket: 8 }, 5),
        (Place::Head { row: 6, bucket: 32 }, 8),
        (Place::Head { row: 5, bucket: 8 }, 41),
        (Place::Head { row: 6, bucket: 0 }, 65),
        (Place::Section(0), 73),
        (Place::Section(3), 97),
        (Place::Head { row: 6, bucket: 40 }, 105),
    ];

    #[test]
    fn section_words_stand_apart_in_a_wide_table(rt: HostRuntime) {
        assert!(rt; WIDE.check().is_ok());
        for (place, index) in &SPREAD {
            assert!(rt; WIDE.has(*place));
            assert_eq!(rt; WIDE.index(*place), *index);
        }
    }

    #[test]
    fn places_have_their_index(rt: HostRuntime) {
        assert!(rt; SMALL.check().is_ok());
        for (place, index) in &PLACES {
            assert!(rt; SMALL.has(*place));
            assert_eq!(rt; SMALL.index(*place), *index);
        }
    }
}
