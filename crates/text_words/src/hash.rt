//! The hash of a text, by which a table finds its bucket.
ghost use Rattle.std.specs.Prelude.{◌≡◌};
ghost use Rattle.text_words.specs.Hash as hashes;

/// The prime by which the mixture of a text spreads each byte (that of FNV-1a for 32 bits).
const PRIME: u32 = 16_777_619;

/// The polynomial of 31: from 0 on, for each byte, 31 times what there was plus the byte, modulo 2^32.
#[inline]
pub fn hash31(text: &[u8]) -> u32
    ensures value { result ≡ hashes.hash31 text.now }
{
    text.iter().fold(0u32, |hash, byte| {
        hash.wrapping_mul(31).wrapping_add(u32::from(*byte))
    })
}

/// The hash of a text by a seed. By seed 0 it is [`hash31`]. By any other it is a mixture: from the seed
/// on, for each byte, what there was with the byte by exclusive or, times 16,777,619, modulo 2^32; and at
/// the end the upper 16 bits are mixed into the lower ones. Texts that were made to have one polynomial
/// have different mixtures as a rule.
#[inline]
pub fn hash_of(seed: u32, text: &[u8]) -> u32
    ensures value { result ≡ hashes.hash_of seed text.now }
{
    if seed == 0 {
        return hash31(text);
    }
    mixture(seed, text)
}

// The mixture of a text.
fn mixture(seed: u32, text: &[u8]) -> u32
    ensures value { result ≡ hashes.mixture seed text.now }
{
    let mixed = text.iter().fold(seed, |hash, byte| {
        (hash ^ u32::from(*byte)).wrapping_mul(PRIME)
    });
    mixed ^ (mixed >> 16)
}

#[cfg(test)]
mod tests {
    use super::*;
    use std::test::Fail;

    #[test]
    fn hashes_of_known_texts(rt: HostRuntime) -> Result<(), Fail> {
        assert_eq!(rt; hash31(b""), 0);
        assert_eq!(rt; hash31(b"a"), 97);
        assert_eq!(rt; hash31(b"Aa"), 2112);
        assert_eq!(rt; hash31(b"BB"), 2112);
        // long enough that the sum passes 2^32
        assert_eq!(rt; hash31(b"hashing wraps"), 3_907_945_053);
        Ok(())
    }

    #[test]
    fn hashes_by_a_seed(rt: HostRuntime) -> Result<(), Fail> {
        assert_eq!(rt; hash_of(0, b"a"), 97);
        assert_eq!(rt; hash_of(1, b"a"), 1_610_676_000);
        assert_eq!(rt; hash_of(1, b"Aa"), 0x619E_08ED);
        assert_eq!(rt; hash_of(1, b"BB"), 0xB4A5_1344);
        // the upper half of the seed alone
        assert_eq!(rt; hash_of(65_536, b""), 65_537);
        Ok(())
    }
}
