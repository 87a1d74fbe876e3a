//! How large a table is.
ghost use Rattle.std.specs.Prelude.{◌≡◌, IfErr, IfOk};
ghost use Rattle.std.specs.Prelude.{◌+◌, ◌-◌, ◌^◌, ◌<◌, ◌≤◌};
ghost use Rattle.table_shape.specs.Shape.{IsSound, IsFaultOf, heads_of, words_of};

/// The numbers that say how large a table is.
#[derive(Clone, Copy, Debug, PartialEq, Eq)]
pub struct Shape {
    /// How many slots there are, each for one text.
    pub slots: u32,
    /// How many words of 8 bytes a slot has for its text, from 1 to 8,192.
    pub text_words: u32,
    /// The least level, at most the greatest one: a row of level l has 2^l buckets.
    pub min_level: u8,
    /// The greatest level, at most 20.
    pub max_level: u8,
    /// How many seat numbers there are, from 1 to 256.
    pub seats: u32,
}

/// Why numbers are no shape of a table. Where several hold, the first of these is told.
#[derive(Clone, Copy, Debug, PartialEq, Eq)]
pub enum ShapeFault {
    /// There are no slots.
    NoSlots,
    /// There are no text words, or more than 8,192.
    NoText,
    /// The least level is above the greatest, or the greatest above 20.
    BadLevels,
    /// There are no seat numbers, or more than 256.
    BadSeats,
    /// The table would have more than 2^27 words.
    TooLarge { words: u64 },
}

/// The greatest number of text words of a slot: those of a text of 65,535 bytes.
pub const MAX_TEXT_WORDS: u32 = 8_192;

/// The greatest level of a table.
pub const MAX_LEVEL: u8 = 20;

/// The greatest number of seats of a table.
pub const MAX_SEATS: u32 = 256;

/// The greatest number of words of a table.
pub const MAX_WORDS: u64 = 1 << 27;

/// How many buckets the row of a level has.
#[inline(always)]
pub(crate) fn row_len(level: u8) -> u32
    requires level { level ≤ 21 }
    ensures value { result ≡ 2 ^ level }
    ensures small { result ≤ 2 ^ 21 }
{
    1u32 << level
}

/// How many heads the rows from level `from` up to but not with level `to` have together.
#[inline(always)]
pub(crate) fn heads(from: u8, to: u8) -> u32
    requires levels { (from ≤ to) × (to ≤ 21) }
    ensures value { result ≡ heads_of from (to - from) }
    ensures small { result ≤ 2 ^ 21 }
{
    row_len(to) - row_len(from)
}

impl Shape {
    /// The number of words of a table of this shape, or the first reason why there is none.
    pub fn check(&self) -> Result<u64, ShapeFault>
        ensures sound { IfOk result (λ words. IsSound self.now × (words ≡ words_of self.now)) }
        ensures fault { IfErr result (IsFaultOf self.now) }
    {
        let Shape {
            slots,
            text_words,
            min_level,
            max_level,
            seats,
        } = *self;
        if slots == 0 {
            return Err(ShapeFault::NoSlots);
        }
        if text_words == 0 || text_words > MAX_TEXT_WORDS {
            return Err(ShapeFault::NoText);
        }
        if min_level > max_level || max_level > MAX_LEVEL {
            return Err(ShapeFault::BadLevels);
        }
        if seats == 0 || seats > MAX_SEATS {
            return Err(ShapeFault::BadSeats);
        }
        let slot_words = u64::from(slots) * (4 + u64::from(text_words));
        let words = 5 + u64::from(seats) + u64::from(heads(min_level, max_level + 1)) + slot_words;
        if words > MAX_WORDS {
            return Err(ShapeFault::TooLarge { words });
        }
        Ok(words)
    }
}

#[cfg(test)]
mod tests {
    use super::*;

    static SMALL: Shape = Shape {
        slots: 8,
        text_words: 1,
        min_level: 3,
        max_level: 4,
        seats: 4,
    };

    #[test]
    fn shapes_are_checked(rt: HostRuntime) {
        assert_eq!(rt; SMALL.check(), Ok(73));
        assert_eq!(rt;
            Shape {
                slots: 0,
                text_words: 0,
                ..SMALL
            }
            .check(),
            Err(ShapeFault::NoSlots)
        );
        assert_eq!(rt;
            Shape {
                text_words: 8_193,
                seats: 0,
                ..SMALL
            }
            .check(),
            Err(ShapeFault::NoText)
        );
        assert_eq!(rt;
            Shape {
                min_level: 5,
                ..SMALL
            }
            .check(),
            Err(ShapeFault::BadLevels)
        );
        assert_eq!(rt;
            Shape {
                max_level: 21,
                ..SMALL
            }
            .check(),
            Err(ShapeFault::BadLevels)
        );
        assert_eq!(rt;
            Shape {
                seats: 257,
                ..SMALL
            }
            .check(),
            Err(ShapeFault::BadSeats)
        );
        let words = 5 + 4 + 8 + 16 + (1 << 28);
        assert_eq!(rt;
            Shape {
                slots: 1 << 26,
                text_words: 0,
                ..SMALL
            }
            .check(),
            Err(ShapeFault::NoText)
        );
        assert_eq!(rt;
            Shape {
                slots: 1 << 25,
                text_words: 4,
                ..SMALL
            }
            .check(),
            Err(ShapeFault::TooLarge { words })
        );
    }
}
