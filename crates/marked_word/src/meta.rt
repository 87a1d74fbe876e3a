//! What a slot's text is: its hash and its length.
ghost use Rattle.std.specs.Prelude.{◌≡◌, ◌^◌, ◌<◌};
ghost use Rattle.marked_word.specs.Meta as meta;

/// The word that says which text a slot has, before its bytes are read.
#[derive(Clone, Copy, Debug, PartialEq, Eq)]
pub struct Meta {
    /// The hash of the text.
    pub hash: u32,
    /// The length of the text, in bytes.
    pub length: u16,
}

impl Meta {
    ghost use Rattle.std.specs.Prelude.{◌≡◌, ◌≤◌, ◌^◌, ◌↔◌, IfSome, IsNone};
    ghost use Rattle.marked_word.specs.Meta.{meta_word, meta_of};

    /// The word of a hash and a length: the hash times 65,536, plus the length.
    #[inline]
    pub fn to_word(&self) -> u64
        ensures value { result ≡ meta_word self.now }
    {
        let Meta { hash, length } = *self;
        u64::from(hash) << 16 | u64::from(length)
    }

    /// The hash and length whose word this is, and `None` where the word is 2^48 or more, so that it is
    /// none.
    #[inline]
    pub fn of_word(word: u64) -> Option<Meta>
        ensures value { result ≡ meta_of word }
        ensures meta { IfSome result (λ meta. meta_word meta ≡ word) }
        ensures none { IsNone result ↔ (2 ^ 48 ≤ word) }
    {
        let hash = u32::try_from(word >> 16).ok()?;
        Some(Meta {
            hash,
            length: (word & 0xffff) as u16,
        })
    }
}

/// The hash in the word of a hash and a length.
#[inline]
pub fn hash_in(word: u64) -> u32
    requires meta { word < 2 ^ 48 }
    ensures value { result ≡ meta.hash_in word }
{
    (word >> 16) as u32
}

/// The length in the word of a hash and a length.
#[inline]
pub fn length_in(word: u64) -> u16
    ensures value { result ≡ meta.length_in word }
{
    (word & 0xffff) as u16
}

#[cfg(test)]
mod tests {
    use super::*;

    #[test]
    fn metas(rt: HostRuntime) {
        let meta = Meta {
            hash: 97,
            length: 1,
        };
        assert_eq!(rt; meta.to_word(), 6_356_993);
        assert_eq!(rt; Meta::of_word(6_356_993), Some(meta));
        assert_eq!(rt; hash_in(6_356_993), 97);
        assert_eq!(rt; length_in(6_356_993), 1);
        assert_eq!(rt; Meta::of_word(0x1_0000_0000_0000), None);
    }
}
