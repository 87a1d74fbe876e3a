//! A text of an event: bytes of its own, at most 65,535 of them.
ghost use Rattle.std.specs.Prelude.{◌≡◌, ◌<◌, ◌≤◌, length, MatchResult};

use std::alloc::{AllocError, Global};
use std::marker::Model;

/// The greatest length of a text in bytes, as that of a symbol (HotSpot, `oops/symbol.hpp`).
pub const MAX_TEXT: usize = 65_535;

/// Why bytes are no text.
#[derive(Clone, Copy, Debug, PartialEq, Eq)]
pub enum TextFault {
    /// There are more than 65,535 bytes.
    TooLong { length: usize },
    /// There was no memory for a copy of the bytes.
    OutOfMemory,
}

impl From<AllocError> for TextFault {
    ghost use Rattle.intern_log.specs.declared.text.TextFault.TheVariants.{OutOfMemory};

    ghost from_gives = { λ _ fault. fault ≡ OutOfMemory };

    fn from(_: AllocError) -> Self {
        TextFault::OutOfMemory
    }
}

/// A list of at most 65,535 bytes. Contracts see the list.
#[derive(Debug, Drop)]
pub struct Text {
    bytes: Vec<u8>,
}

impl Model for Text {
    ghost use Rattle.std.specs.Prelude.{◌≤◌, ℕ, List, length};

    ghost Value = { List ℕ };

    ghost view = { λ text. text.bytes.items };

    ghost invariant = { λ text. length text.bytes.items ≤ 65535 };
}

impl Text {
    /// A text of these bytes. `TooLong` comes exactly where there are more than 65,535. The empty text
    /// takes no memory.
    pub fn of(alloc: Global, bytes: &[u8]) -> Result<Text, TextFault>
        ensures too_long { 65535 < length bytes.now → result ≡ Err (TextFault.TooLong (length bytes.now)) }
        ensures short { length bytes.now ≤ 65535 → MatchResult result (λ text. text ≡ bytes.now) (λ fault. fault ≡ TextFault.OutOfMemory) }
        ensures memory { result ≡ Err TextFault.OutOfMemory → 0 < length bytes.now }
    {
        if bytes.len() > MAX_TEXT {
            return Err(TextFault::TooLong {
                length: bytes.len(),
            });
        }
        let mut copy = Vec::with_capacity(alloc, bytes.len())?;
        copy.extend_from_slice(bytes)?;
        Ok(Text { bytes: copy })
    }

    /// The text's bytes.
    pub fn bytes(&self) -> &[u8]
        ensures value { result.now ≡ self.now }
        ensures short { length result.now ≤ 65535 }
    {
        self.bytes.as_slice()
    }
}

#[cfg(test)]
mod tests {
    use super::*;
    use std::test::Fail;

    #[test]
    fn texts_keep_their_bytes(rt: HostRuntime) -> Result<(), Fail> {
        let text = Text::of(rt.alloc(), b"ab")?;
        assert_eq!(rt; text.bytes(), b"ab".as_slice());
        let empty = Text::of(rt.alloc(), b"")?;
        assert_eq!(rt; empty.bytes(), b"".as_slice());

        let long = vec![in rt.alloc(); b'a'; 65_536]?;
        match Text::of(rt.alloc(), long.as_slice()) {
            Err(TextFault::TooLong { length }) => assert_eq!(rt; length, 65_536),
            _ => assert!(rt; false, "65,536 bytes are no text"),
        }
        Ok(())
    }
}
