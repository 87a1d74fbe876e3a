//! Links: which node is the next of a chain.
ghost use Rattle.std.specs.Prelude.{◌≡◌, ◌^◌, ◌<◌, ◌≤◌, ◌↔◌, IfSome, IsNone};
ghost use Rattle.marked_word.specs.Link as link;

/// The word of a link: 0 for no node, else the node plus 1.
#[inline]
pub fn link_word(node: Option<u32>) -> u64
    ensures value { result ≡ link.link_word node }
    ensures small { result ≤ 2 ^ 32 }
{
    match node {
        None => 0,
        Some(node) => u64::from(node) + 1,
    }
}

/// The link whose word this is: `Some(None)` for no node, and `None` where the word is above 2^32, so
/// that it is no link.
#[inline]
pub fn link_of(word: u64) -> Option<Option<u32>>
    ensures value { result ≡ link.link_of word }
    ensures link { IfSome result (λ node. link.link_word node ≡ word) }
    ensures none { IsNone result ↔ (2 ^ 32 < word) }
{
    match word.checked_sub(1) {
        None => Some(None),
        Some(node) => u32::try_from(node).ok().map(Some),
    }
}

/// The node that a word names which is a link, if any.
#[inline]
pub fn node_of(word: u64) -> Option<u32>
    requires link { word ≤ 2 ^ 32 }
    ensures value { result ≡ link.node_of word }
{
    match word.checked_sub(1) {
        None => None,
        Some(node) => Some(node as u32),
    }
}

#[cfg(test)]
mod tests {
    use super::*;

    #[test]
    fn links(rt: HostRuntime) {
        for (node, word) in [(None, 0), (Some(0), 1), (Some(u32::MAX), 0x1_0000_0000)] {
            assert_eq!(rt; link_word(node), word);
            assert_eq!(rt; link_of(word), Some(node), "at {word}");
        }
        assert_eq!(rt; link_of(0x1_0000_0001), None);
        assert_eq!(rt; node_of(0), None);
        assert_eq!(rt; node_of(8), Some(7));
    }
}
