//! The head of a bucket's chain.
ghost use Rattle.std.specs.Prelude.{◌≡◌, ◌/◌, ◌^◌, ◌≤◌, false};
ghost use Rattle.marked_word.specs.Head as head;

use crate::link::{link_of, link_word, node_of};

/// The word at the head of a bucket.
#[derive(Clone, Copy, Debug, PartialEq, Eq)]
pub struct Head {
    /// The first node of the chain.
    pub node: Option<u32>,
    /// Whether the bucket is locked.
    pub lock: bool,
    /// Whether the bucket has moved to the new table, so that its texts are looked for there.
    pub redirect: bool,
}

impl Head {
    ghost use Rattle.std.specs.Prelude.{◌≡◌, ◌/◌, ◌^◌, ◌<◌, ◌↔◌, IfSome, IsNone};
    ghost use Rattle.marked_word.specs.Head.{head_word, head_of};

    /// The word of a head: bit 0 is the lock, bit 1 the redirect, and from bit 2 on stands the link to
    /// the first node.
    #[inline]
    pub fn to_word(&self) -> u64
        ensures value { result ≡ head_word self.now }
    {
        link_word(self.node) << 2 | u64::from(self.redirect) << 1 | u64::from(self.lock)
    }

    /// The head whose word this is, and `None` where a quarter of it is above 2^32, so that it is no
    /// head.
    #[inline]
    pub fn of_word(word: u64) -> Option<Head>
        ensures value { result ≡ head_of word }
        ensures head { IfSome result (λ head. head_word head ≡ word) }
        ensures none { IsNone result ↔ (2 ^ 32 < word / 4) }
    {
        let node = link_of(word >> 2)?;
        Some(Head {
            node,
            lock: word & 1 == 1,
            redirect: word >> 1 & 1 == 1,
        })
    }
}

/// Whether the head of this word is locked.
#[inline]
pub fn is_locked(word: u64) -> bool
    ensures value { result ≡ head.is_locked word }
{
    word & 1 == 1
}

/// Whether the head of this word is redirected.
#[inline]
pub fn is_redirected(word: u64) -> bool
    ensures value { result ≡ head.is_redirected word }
{
    word >> 1 & 1 == 1
}

/// The first node of the chain whose head's word this is, if any.
#[inline]
pub fn first_of(word: u64) -> Option<u32>
    requires head { word / 4 ≤ 2 ^ 32 }
    ensures value { result ≡ head.first_of word }
{
    node_of(word >> 2)
}

/// The word of the same head with its lock set.
#[inline]
pub fn locked(word: u64) -> u64
    requires open { head.is_locked word ≡ false }
    ensures value { result ≡ head.locked word }
{
    word + 1
}

#[cfg(test)]
mod tests {
    use super::*;

    #[test]
    fn heads(rt: HostRuntime) {
        let rows = [
            (
                Head {
                    node: Some(0),
                    lock: true,
                    redirect: false,
                },
                5,
            ),
            (
                Head {
                    node: Some(3),
                    lock: true,
                    redirect: true,
                },
                19,
            ),
            (
                Head {
                    node: None,
                    lock: false,
                    redirect: true,
                },
                2,
            ),
        ];
        for (head, word) in rows {
            assert_eq!(rt; head.to_word(), word);
            assert_eq!(rt; Head::of_word(word), Some(head), "at {word}");
        }
        assert_eq!(rt; Head::of_word(0x4_0000_0004), None);
        assert!(rt; is_locked(5) && !is_locked(2));
        assert!(rt; is_redirected(2) && !is_redirected(5));
        assert_eq!(rt; first_of(19), Some(3));
        assert_eq!(rt; locked(18), 19);
    }
}
