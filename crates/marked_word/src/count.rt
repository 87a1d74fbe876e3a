//! The count of a slot, with the generation in which it counts.

/// The word that counts how often a slot's text is held.
#[derive(Clone, Copy, Debug, PartialEq, Eq)]
pub struct Count {
    /// How often the slot was freed after it was linked; below 2^48.
    pub generation: u64,
    /// How often the text is held; 65,535 is permanent.
    pub count: u16,
}

impl Count {
    ghost use Rattle.std.specs.Prelude.{◌≡◌, ◌^◌, ◌<◌};
    ghost use Rattle.marked_word.specs.Count.{count_word, count_of};

    /// The word of a count: the generation times 65,536, plus the count.
    #[inline]
    pub fn to_word(&self) -> u64
        requires in_range { self.now.generation < 2 ^ 48 }
        ensures value { result ≡ count_word self.now }
    {
        let Count { generation, count } = *self;
        generation << 16 | u64::from(count)
    }

    /// The count whose word this is: each word is one.
    #[inline]
    pub fn of_word(word: u64) -> Count
        ensures value { result ≡ count_of word }
        ensures count { count_word result ≡ word }
        ensures in_range { result.generation < 2 ^ 48 }
    {
        Count {
            generation: word >> 16,
            count: (word & 0xffff) as u16,
        }
    }
}

#[cfg(test)]
mod tests {
    use super::*;

    #[test]
    fn counts(rt: HostRuntime) {
        let count = Count {
            generation: 2,
            count: 1,
        };
        assert_eq!(rt; count.to_word(), 131_073);
        assert_eq!(rt; Count::of_word(131_073), count);
        let last = Count {
            generation: 0xffff_ffff_ffff,
            count: u16::MAX,
        };
        assert_eq!(rt; Count::of_word(u64::MAX), last);
    }
}
