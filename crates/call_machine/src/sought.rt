//! The text of a call, hashed once.
ghost use Rattle.std.specs.Prelude.{◌≡◌, ◌≤◌, [], length};
ghost use Rattle.call_machine.specs.Sought as texts;
ghost use Rattle.call_machine.specs.Sought.{IsSought};

use marked_word::Meta;
use table_shape::Shape;
use text_words::{hash_of, words_of};

/// A text with its hash, and the hash and length that an entry of it has.
#[derive(Clone, Copy)]
pub struct Sought<'t> {
    pub text: &'t [u8],
    pub hash: u32,
    pub meta: Meta,
}

impl<'t> Sought<'t> {
    /// The text of a call, of at most 65,535 bytes.
    pub(crate) fn of(seed: u32, text: &'t [u8]) -> Sought<'t>
        requires short { length text.now ≤ 65535 }
        ensures text { result.text.now ≡ text.now }
        ensures sought { IsSought seed result }
    {
        let hash = hash_of(seed, text);
        let length = text.len() as u16;
        Sought {
            text,
            hash,
            meta: Meta { hash, length },
        }
    }

    /// No text, as a call has that seeks none.
    pub(crate) fn none(seed: u32) -> Sought<'t>
        ensures text { result.text.now ≡ [] }
        ensures sought { IsSought seed result }
    {
        Sought::of(seed, &[])
    }
}

/// Whether a text is longer than 65,535 bytes or than a slot's text words.
pub(crate) fn is_too_long(shape: &Shape, text: &[u8]) -> bool
    ensures value { result ≡ texts.is_too_long shape.now text.now }
{
    let words = shape.text_words as usize;
    text.len() > (8 * words).min(65_535)
}

/// Whether a text has a word of this number.
pub(crate) fn has_word(text: &[u8], at: u32) -> bool
    ensures value { result ≡ texts.has_word text.now at }
{
    (at as usize) < words_of(text.len())
}
