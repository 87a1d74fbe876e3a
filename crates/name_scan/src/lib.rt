//! Finds the names and literals in a file's bytes.
//!
//! The bytes are cut into pieces from the front: a run of name bytes, a literal, or one byte of
//! neither kind. A run that begins with no digit is a name, and the text of a literal is a literal.
#![tactic(auto)]

ghost use Rattle.std.specs.Prelude.{◌≡◌, ◌+◌, ◌^◌, ◌<◌, ◌≤◌, ◌↔◌, length, IfOk, OnErr, IsTrue, slice_index, slice_range};
ghost use Rattle.name_scan.specs.Places.{IsWithin};
ghost use Rattle.name_scan.specs.Pieces.{is_name_byte, piece_len, IsRun, IsLiteralText, EndsText, IsTaken, IsLiteralPiece, IsPiece};
ghost use Rattle.name_scan.specs.Tokens.{token_at, tokens};

use class::Class;
use std::alloc::{AllocError, Global};

mod census;
mod class;
mod found;
pub mod laws;

pub use census::{Census, count_tokens};
pub use found::{Found, next_token};

/// The byte before and behind the text of a literal.
const QUOTE: u8 = b'"';

/// The byte that ends a literal which no quote has closed.
const NEWLINE: u8 = b'\n';

/// What a token stands for.
#[derive(Clone, Copy, Debug, PartialEq, Eq)]
pub enum TokenKind {
    /// A longest run of name bytes that begins with no digit.
    Name,
    /// The text of a literal, with its backslashes and without its quotes.
    Literal,
}

/// A name or a literal, and the places of its bytes in the file: from `start` up to `end`, which is
/// the place behind the last one.
#[derive(Clone, Copy, Debug, PartialEq, Eq)]
pub struct Token {
    pub kind: TokenKind,
    pub start: usize,
    pub end: usize,
}

impl Token {
    /// The bytes of the token, in the bytes of its file.
    pub fn text(self, bytes: &[u8]) -> &[u8]
        requires within { IsWithin bytes.now self }
        ensures text { result.now ≡ slice_range bytes.now self.start self.end }
    {
        &bytes[self.start..self.end]
    }
}

/// A piece of a file. The numbers are lengths in bytes: of a run, and of a literal's text.
#[derive(Clone, Copy, Debug, PartialEq, Eq)]
pub enum Piece {
    /// One byte that is neither a name byte nor a quote.
    Skipped,
    /// A longest run of name bytes that begins with a digit.
    DigitRun(usize),
    /// A longest run of name bytes that begins with no digit.
    NameRun(usize),
    /// A quote, a text, and the quote that closes it.
    ClosedLiteral(usize),
    /// A quote and a text that ends at the file's end or at a newline, which is no part of the piece.
    OpenLiteral(usize),
}

impl Piece {
    /// How many bytes of the file the piece takes up.
    pub fn len(self) -> usize
        requires { piece_len self < 2 ^ 64 }
        ensures length { result ≡ piece_len self }
    {
        match self {
            Piece::Skipped => 1,
            Piece::DigitRun(len) | Piece::NameRun(len) => len,
            Piece::ClosedLiteral(len) => len + 2,
            Piece::OpenLiteral(len) => len + 1,
        }
    }

    /// The token of the piece where it begins at the place `at` of the file, if it has one.
    pub fn token(self, at: usize) -> Option<Token>
        requires { at + piece_len self < 2 ^ 64 }
        ensures token { result ≡ token_at at self }
    {
        match self {
            Piece::Skipped | Piece::DigitRun(_) => None,
            Piece::NameRun(len) => Some(Token {
                kind: TokenKind::Name,
                start: at,
                end: at + len,
            }),
            Piece::ClosedLiteral(len) | Piece::OpenLiteral(len) => {
                Some(Token {
                    kind: TokenKind::Literal,
                    start: at + 1,
                    end: at + 1 + len,
                })
            }
        }
    }
}

/// Whether the byte belongs to a run: a letter or a digit of ASCII, `_`, `$`, or a byte of at least
/// 128.
#[inline(always)]
pub fn is_name_byte(byte: u8) -> bool
    ensures value { result ≡ is_name_byte byte }
{
    Class::of(byte).is_of_name()
}

/// The length of the run of name bytes with which the bytes begin.
fn run_len(bytes: &[u8]) -> usize
    requires present { 0 < length bytes.now }
    requires begins { IsTrue (is_name_byte (slice_index bytes.now 0)) }
    ensures { IsRun result bytes.now }
{
    for (place, byte) in bytes.iter().enumerate() {
        if !is_name_byte(*byte) {
            return place;
        }
    }
    bytes.len()
}

/// The length of the text of a literal, in the bytes behind its opening quote.
fn literal_text_len(behind: &[u8]) -> usize
    ensures text { IsLiteralText result behind.now }
    ensures ends { EndsText result behind.now }
{
    let mut len = 0;
    while len < behind.len() {
        match Class::of(behind[len]) {
            Class::Quote | Class::Newline => return len,
            Class::Backslash if may_be_taken(&behind[len + 1..]) => len += 2,
            _ => len += 1,
        }
    }
    len
}

/// Whether the bytes begin with one that a backslash takes along: any but a newline.
fn may_be_taken(bytes: &[u8]) -> bool
    ensures { IsTrue result ↔ IsTaken bytes.now }
{
    !bytes.is_empty() && bytes[0] != NEWLINE
}

/// The literal whose text begins the bytes, which stand behind its opening quote.
fn literal_piece(behind: &[u8]) -> Piece
    ensures { IsLiteralPiece result behind.now }
{
    let len = literal_text_len(behind);
    if len < behind.len() && behind[len] == QUOTE {
        Piece::ClosedLiteral(len)
    } else {
        Piece::OpenLiteral(len)
    }
}

/// The piece with which the bytes begin.
pub fn first_piece(bytes: &[u8]) -> Piece
    requires { 0 < length bytes.now }
    ensures piece { IsPiece result bytes.now }
{
    match Class::of(bytes[0]) {
        Class::Quote => literal_piece(&bytes[1..]),
        Class::Digit => Piece::DigitRun(run_len(bytes)),
        Class::Letter => Piece::NameRun(run_len(bytes)),
        Class::Other | Class::Newline | Class::Backslash => Piece::Skipped,
    }
}

/// The names and literals of a file's bytes, in the order of their starts. The only error is want of
/// memory, and bytes with no name and no literal take none.
pub fn scan(alloc: Global, bytes: &[u8]) -> Result<Vec<Token>, AllocError>
    ensures tokens { IfOk result (λ found. found.items ≡ tokens bytes.now) }
    ensures memory { OnErr result (0 < length (tokens bytes.now)) }
{
    let mut tokens = Vec::new(alloc);
    let mut at = 0;
    while let Some(found) = next_token(bytes, at) {
        tokens.push(found.token)?;
        at = found.behind;
    }
    Ok(tokens)
}

#[cfg(test)]
mod tests {
    use super::TokenKind::{Literal, Name};
    use super::*;

    #[test]
    fn laws_hold_of_all_bytes() {
        laws::bytes_have_a_cut();
        laws::cut_is_unique();
        laws::tokens_are_of_every_cut();
        laws::tokens_are_within();
        laws::tokens_are_in_order();
        laws::tokens_are_in_place();
        laws::tokens_are_no_more_than_bytes();
        laws::tokens_from_the_front_are_all();
    }

    #[test]
    fn finds_one_token_after_another(rt: HostRuntime) {
        let bytes = b"9a (b, \"c\\\"\") d";
        let steps = [
            (0, Name, 4, 5, 5),
            (5, Literal, 8, 11, 12),
            (12, Name, 14, 15, 15),
        ];
        for (at, kind, start, end, behind) in steps {
            let token = Token { kind, start, end };
            assert_eq!(rt; next_token(bytes, at), Some(Found { token, behind }));
        }
        assert_eq!(rt; next_token(bytes, 15), None);
    }

    #[test]
    fn counts_names_and_literals(rt: HostRuntime) {
        let bytes = b"a 9z \"bb\" ccc \"\" \"dddd";
        let all = Census {
            names: 2,
            literals: 3,
            first_longer: None,
        };
        assert_eq!(rt; count_tokens(bytes, 4), all);
        let three = Census {
            first_longer: Some(4),
            ..all
        };
        assert_eq!(rt; count_tokens(bytes, 3), three);
        let two = Census {
            first_longer: Some(3),
            ..all
        };
        assert_eq!(rt; count_tokens(bytes, 2), two);
    }

    #[test]
    fn passes_over_blanks(rt: HostRuntime) -> Result<(), AllocError> {
        for place in 0..64 {
            let mut bytes = [b' '; 64];
            bytes[place] = b'a';
            let found = scan(rt.alloc(), &bytes)?;
            assert_eq!(rt; found.len(), 1, "place {place}");
            for token in found.iter() {
                let wanted = Token {
                    kind: Name,
                    start: place,
                    end: place + 1,
                };
                assert_eq!(rt; *token, wanted, "place {place}");
            }
        }
        Ok(())
    }

    #[test]
    fn finds_names_and_literals(rt: HostRuntime) -> Result<(), AllocError> {
        let cases: [(&[u8], &[(TokenKind, usize, usize)]); 12] = [
            (b"", &[]),
            (b"a \"b\"", &[(Name, 0, 1), (Literal, 3, 4)]),
            (b"9x _y $z", &[(Name, 3, 5), (Name, 6, 8)]),
            (b"\"q\\\"r", &[(Literal, 1, 5)]),
            (
                b"\"a\\\nb\"",
                &[(Literal, 1, 3), (Name, 4, 5), (Literal, 6, 6)],
            ),
            (b"\"a\nb", &[(Literal, 1, 2), (Name, 3, 4)]),
            (b"x\"\"y", &[(Name, 0, 1), (Literal, 2, 2), (Name, 3, 4)]),
            (b"\"\\\\\"k", &[(Literal, 1, 3), (Name, 4, 5)]),
            (b"\"\\", &[(Literal, 1, 2)]),
            (b"12ab+cd3", &[(Name, 5, 8)]),
            (b"\xc3\xa9-\x7f\x80", &[(Name, 0, 2), (Name, 4, 5)]),
            (b"'a'.b\\c", &[(Name, 1, 2), (Name, 4, 5), (Name, 6, 7)]),
        ];
        for (number, (bytes, want)) in cases.iter().enumerate() {
            let found = scan(rt.alloc(), bytes)?;
            assert_eq!(rt; found.len(), want.len(), "case {number}");
            for (token, (kind, start, end)) in found.iter().zip(want.iter()) {
                let wanted = Token {
                    kind: *kind,
                    start: *start,
                    end: *end,
                };
                assert_eq!(rt; *token, wanted, "case {number}");
            }
        }
        Ok(())
    }
}
