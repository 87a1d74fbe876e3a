//! Bytes that are cut at each byte of one value.
ghost use Rattle.std.specs.Prelude.{◌≡◌, ◌<◌, [], ◌∷◌, length, None, IsTrue, IfSome, ◌↔◌};
ghost use Rattle.schedule_sim.specs.Parts.{parts_at};

use std::marker::Model;

/// The bytes before the first such byte and those behind it, or nothing where there is none.
pub(crate) fn cut_at(bytes: &[u8], mark: u8) -> Option<(&[u8], &[u8])>
    ensures parts { IfSome result (λ pair. parts_at mark bytes.now ≡ pair.0.now ∷ parts_at mark pair.1.now) }
    ensures shorter { IfSome result (λ pair. length pair.1.now < length bytes.now) }
    ensures whole { result ≡ None → parts_at mark bytes.now ≡ bytes.now ∷ [] }
{
    for (place, byte) in bytes.iter().enumerate() {
        if *byte == mark {
            return Some((&bytes[..place], &bytes[place + 1..]));
        }
    }
    None
}

/// Whether the bytes are those of the word.
pub(crate) fn is_word(bytes: &[u8], word: &[u8]) -> bool
    ensures { IsTrue result ↔ (bytes.now ≡ word.now) }
{
    bytes == word
}

/// The parts of bytes between the bytes of one value, as far as they were not taken. Contracts see
/// the list of the parts that are left.
#[derive(Drop)]
pub(crate) struct Parts<'t> {
    mark: u8,
    rest: Option<&'t [u8]>,
}

impl<'t> Model for Parts<'t> {
    ghost use Rattle.std.specs.Prelude.{ℕ, List};
    ghost use Rattle.schedule_sim.specs.Parts.{parts_left};

    ghost Value = { List (List ℕ) };

    ghost view = { λ parts. parts_left parts.mark parts.rest };
}

impl<'t> Parts<'t> {
    /// All parts of the bytes.
    pub(crate) fn of(bytes: &'t [u8], mark: u8) -> Parts<'t>
        ensures parts { result ≡ parts_at mark bytes.now }
    {
        Parts {
            mark,
            rest: Some(bytes),
        }
    }

    /// Takes the next part.
    pub(crate) fn next(&mut self) -> Option<&'t [u8]>
        ensures part { IfSome result (λ part. self.old ≡ part.now ∷ self.new) }
        ensures none { result ≡ None → self.old ≡ [] }
    {
        let rest = self.rest?;
        match cut_at(rest, self.mark) {
            Some((part, behind)) => {
                self.rest = Some(behind);
                Some(part)
            },
            None => {
                self.rest = None;
                Some(rest)
            },
        }
    }

    /// Whether no part is left.
    #[tactic(auto, using(crate::proofs::Cuts::parts_some))]
    pub(crate) fn is_done(&self) -> bool
        ensures done { IsTrue result ↔ (self.now ≡ []) }
    {
        match self.rest {
            Some(_) => false,
            None => true,
        }
    }
}
