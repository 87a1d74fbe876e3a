//! What a file's tokens come to, counted in one pass over its bytes that keeps none of them.
ghost use Rattle.std.specs.Prelude.{◌≡◌, ◌+◌, ◌-◌, ◌^◌, ◌<◌, [], ◌∷◌, length, if◌then◌else◌};
ghost use Rattle.std.specs.Option.{option_or};
ghost use Rattle.name_scan.specs.Places.{IsWithin};
ghost use Rattle.name_scan.specs.FileTexts.{is_name, is_literal, text_of, names_of, literals_of, texts_of, first_longer};

use crate::{Token, TokenKind, next_token};

/// How many names and literals a file has, and whether one of their texts is long.
#[derive(Clone, Copy, Debug, PartialEq, Eq)]
pub struct Census {
    /// How many names there are, each as often as it stands there.
    pub names: usize,
    /// How many literals there are, each as often as it stands there.
    pub literals: usize,
    /// The length of the first text, in the order of the file, that is longer than was asked.
    pub first_longer: Option<usize>,
}

impl Census {
    /// Nothing was counted yet.
    const NOTHING: Census = Census {
        names: 0,
        literals: 0,
        first_longer: None,
    };

    /// The census of one token more.
    fn with_token(self, bytes: &[u8], most: usize, token: Token) -> Census
        requires within { IsWithin bytes.now token }
        requires few_names { self.names < 2 ^ 64 - 1 }
        requires few_literals { self.literals < 2 ^ 64 - 1 }
        ensures names { result.names ≡ self.names + (if is_name token.kind then 1 else 0) }
        ensures literals { result.literals ≡ self.literals + (if is_literal token.kind then 1 else 0) }
        ensures first_longer { result.first_longer ≡ option_or self.first_longer (first_longer most (text_of bytes.now token ∷ [])) }
    {
        let length = token.text(bytes).len();
        let long = if length > most { Some(length) } else { None };
        let first_longer = self.first_longer.or(long);
        match token.kind {
            TokenKind::Name => Census {
                names: self.names + 1,
                first_longer,
                ..self
            },
            TokenKind::Literal => Census {
                literals: self.literals + 1,
                first_longer,
                ..self
            },
        }
    }
}

/// Counts the names and literals of a file's bytes, and looks for a text of more than `most` bytes. It
/// takes no memory.
pub fn count_tokens(bytes: &[u8], most: usize) -> Census
    ensures names { result.names ≡ length (names_of bytes.now) }
    ensures literals { result.literals ≡ length (literals_of bytes.now) }
    ensures first_longer { result.first_longer ≡ first_longer most (texts_of bytes.now) }
{
    let mut census = Census::NOTHING;
    let mut at = 0;
    while let Some(found) = next_token(bytes, at) {
        census = census.with_token(bytes, most, found.token);
        at = found.behind;
    }
    census
}
