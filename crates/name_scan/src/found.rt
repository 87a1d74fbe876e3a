//! The search for the next token from a place of a file.
ghost use Rattle.std.specs.Prelude.{◌≡◌, ◌<◌, ◌≤◌, [], ◌∷◌, length, IfSome, MatchOption};
ghost use Rattle.name_scan.specs.Places.{IsWithin};
ghost use Rattle.name_scan.specs.Tokens.{tokens_from};

use crate::class::Class;
use crate::{Token, first_piece};

/// A token that was found, and the place behind its piece, from which the search goes on.
#[derive(Clone, Copy, Debug, PartialEq, Eq)]
pub struct Found {
    pub token: Token,
    pub behind: usize,
}

/// Blanks that are passed over at once, where so many stand side by side.
const BLANKS: &[u8] = b"                ";

/// A place from `at` on between which and `at` there are blanks alone, and from which fewer than
/// sixteen follow.
fn past_blanks(bytes: &[u8], at: usize) -> usize
    requires { at ≤ length bytes.now }
    ensures further { at ≤ result }
    ensures within { result ≤ length bytes.now }
    ensures tokens { tokens_from bytes.now result ≡ tokens_from bytes.now at }
{
    let mut place = at;
    while bytes[place..].starts_with(BLANKS) {
        place += 16;
    }
    place
}

/// The first place from `at` on whose byte is not passed over by itself, or the end.
fn past_skipped(bytes: &[u8], at: usize) -> usize
    ensures further { at ≤ result }
    ensures tokens { tokens_from bytes.now result ≡ tokens_from bytes.now at }
{
    let mut place = at;
    while place < bytes.len() && Class::of(bytes[place]).is_skipped() {
        place = if place % 16 == 0 {
            past_blanks(bytes, place + 1)
        } else {
            place + 1
        };
    }
    place
}

/// The first token from the place `at` on, where a piece begins at that place: it is 0, or the place
/// from which a search before goes on. There is no answer where the file has no more tokens.
///
/// A caller that begins at 0 and goes on from each place that it is told meets all tokens of the
/// file, in order. It takes no memory.
pub fn next_token(bytes: &[u8], at: usize) -> Option<Found>
    ensures first { MatchOption result (tokens_from bytes.now at ≡ [])
        (λ found. tokens_from bytes.now at ≡ found.token ∷ tokens_from bytes.now found.behind) }
    ensures further { IfSome result (λ found. at < found.behind) }
    ensures within { IfSome result (λ found. found.behind ≤ length bytes.now) }
    ensures token_within { IfSome result (λ found. IsWithin bytes.now found.token) }
{
    let mut place = past_skipped(bytes, at);
    while place < bytes.len() {
        let piece = first_piece(&bytes[place..]);
        let behind = place + piece.len();
        if let Some(token) = piece.token(place) {
            return Some(Found { token, behind });
        }
        place = past_skipped(bytes, behind);
    }
    None
}
