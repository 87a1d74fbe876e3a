//! A text as words of 64 bits: 8 bytes a word, the lowest byte first, with zeros after the last byte.
ghost use Rattle.std.specs.Prelude.{◌≡◌, ◌+◌, ◌*◌, ◌<◌, ◌≤◌, ◌++◌, ◌↔◌, IsTrue, drop, length};
ghost use Rattle.text_words.specs.Words.{words_of, word_at, packed_words, unpacked};

// How many bytes a word holds.
const WORD_BYTES: usize = 8;

/// The least number of words that hold `length` bytes.
#[inline]
pub fn words_of(length: usize) -> usize
    ensures value { result ≡ words_of length }
    ensures enough { length ≤ 8 * result }
    ensures least { 8 * result < length + 8 }
{
    length.div_ceil(WORD_BYTES)
}

/// Stores the words of a text of at most 65,535 bytes at the beginning of `out`, which has room for
/// them. The other words of `out` stay.
pub fn pack(text: &[u8], out: &mut [u64])
    requires short { length text.now ≤ 65535 }
    requires room { words_of (length text.now) ≤ length out.old }
    ensures stored { out.new ≡ packed_words text.now ++ drop (words_of (length text.now)) out.old }
{
    for at in 0..words_of(text.len()) {
        out[at] = word_at(text, at);
    }
}

/// Stores the first `text_length` bytes of `words` at the beginning of `out`, which has room for
/// them. The other bytes of `out` stay.
pub fn unpack(words: &[u64], text_length: usize, out: &mut [u8])
    requires enough { words_of text_length ≤ length words.now }
    requires room { text_length ≤ length out.old }
    ensures stored { out.new ≡ unpacked words.now text_length ++ drop text_length out.old }
{
    let whole = text_length / WORD_BYTES;
    for at in 0..whole {
        let first = at * WORD_BYTES;
        out[first..first + WORD_BYTES].copy_from_slice(&words[at].to_le_bytes());
    }
    let over = text_length % WORD_BYTES;
    if over > 0 {
        let last = words[whole].to_le_bytes();
        out[whole * WORD_BYTES..text_length].copy_from_slice(&last[..over]);
    }
}

/// Whether `word` is word `at` of a text. Only the bytes of that word are read.
#[inline]
pub fn equal_word(text: &[u8], at: usize, word: u64) -> bool
    requires within { at < words_of (length text.now) }
    ensures equal { IsTrue result ↔ (word ≡ word_at text.now at) }
{
    word_at(text, at) == word
}

/// Word `at` of a text. Only the bytes of that word are read.
#[inline]
pub fn word_at(text: &[u8], at: usize) -> u64
    requires within { at < words_of (length text.now) }
    ensures value { result ≡ word_at text.now at }
{
    let rest = &text[at * WORD_BYTES..];
    match rest.first_chunk::<WORD_BYTES>() {
        Some(chunk) => u64::from_le_bytes(*chunk),
        None => padded_word(rest),
    }
}

// The only word of a text that does not fill it.
fn padded_word(text: &[u8]) -> u64
    requires short { length text.now < 8 }
    ensures value { result ≡ word_at text.now 0 }
{
    let mut padded = [0; WORD_BYTES];
    padded[..text.len()].copy_from_slice(text);
    u64::from_le_bytes(padded)
}

#[cfg(test)]
mod tests {
    use super::*;
    use std::test::Fail;

    #[test]
    fn lengths_in_words(rt: HostRuntime) {
        for (length, want) in [(0, 0), (1, 1), (7, 1), (8, 1), (9, 2), (65_535, 8_192)] {
            assert_eq!(rt; words_of(length), want, "at {length}");
        }
        assert_eq!(rt; words_of(usize::MAX), 0x2000_0000_0000_0000);
    }

    #[test]
    fn nine_bytes_make_two_words(rt: HostRuntime) -> Result<(), Fail> {
        let mut words = [7u64; 3];
        pack(b"abcdefghi", &mut words);
        assert_eq!(rt; words, [0x6867_6665_6463_6261, 0x69, 7]);
        assert!(rt; equal_word(b"abcdefghi", 1, 0x69));
        assert!(rt; !equal_word(b"abcdefghi", 0, 0x69));

        let mut bytes = [b'-'; 10];
        unpack(&words, 9, &mut bytes);
        assert_eq!(rt; bytes.as_slice(), b"abcdefghi-".as_slice());
        Ok(())
    }
}
