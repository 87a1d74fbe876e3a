//! Numbers in the parts of a line.
ghost use Rattle.std.specs.Prelude.{◌≡◌, ◌≢◌, ℕ, ◌^◌, ◌<◌, List, [], ◌∷◌, None, IfSome, decimal};

use crate::cut::Parts;
use itoa::Buffer;

/// The number of which the bytes are the decimal digits, where it is below 2^64.
pub(crate) fn number_of(bytes: &[u8]) -> Option<u64>
    ensures number { IfSome result (λ n. bytes.now ≡ decimal n) }
    ensures small { IfSome result (λ n. n < 2 ^ 64) }
    ensures none { result ≡ None → (n : ℕ) → n < 2 ^ 64 → bytes.now ≢ decimal n }
{
    let Ok(text) = std::str::from_utf8(bytes) else {
        return None;
    };
    let Ok(number) = text.parse::<u64>() else {
        return None;
    };
    let mut buffer = Buffer::new();
    if buffer.format(number).as_bytes() == bytes {
        Some(number)
    } else {
        None
    }
}

/// Takes a number off the front of the parts.
pub(crate) fn next_number(parts: &mut Parts<'_>) -> Option<u64>
    ensures number { IfSome result (λ n. parts.old ≡ decimal n ∷ parts.new) }
    ensures small { IfSome result (λ n. n < 2 ^ 64) }
    ensures none { result ≡ None → (n : ℕ) (more : List (List ℕ)) → n < 2 ^ 64 → parts.old ≢ decimal n ∷ more }
{
    number_of(parts.next()?)
}

/// Takes a number below 2^32 off the front of the parts.
#[tactic(auto, using(std::proofs::lemmas::Fmt::decimal_injective))]
pub(crate) fn next_u32(parts: &mut Parts<'_>) -> Option<u32>
    ensures number { IfSome result (λ n. parts.old ≡ decimal n ∷ parts.new) }
    ensures small { IfSome result (λ n. n < 2 ^ 32) }
    ensures none { result ≡ None → (n : ℕ) (more : List (List ℕ)) → n < 2 ^ 32 → parts.old ≢ decimal n ∷ more }
{
    let number = next_number(parts)?;
    if number < 1 << 32 {
        Some(number as u32)
    } else {
        None
    }
}

/// Takes a number below 2^8 off the front of the parts.
#[tactic(auto, using(std::proofs::lemmas::Fmt::decimal_injective))]
pub(crate) fn next_u8(parts: &mut Parts<'_>) -> Option<u8>
    ensures number { IfSome result (λ n. parts.old ≡ decimal n ∷ parts.new) }
    ensures small { IfSome result (λ n. n < 2 ^ 8) }
    ensures none { result ≡ None → (n : ℕ) (more : List (List ℕ)) → n < 2 ^ 8 → parts.old ≢ decimal n ∷ more }
{
    let number = next_number(parts)?;
    if number < 1 << 8 {
        Some(number as u8)
    } else {
        None
    }
}

/// The number that is the one part left.
pub(crate) fn last_number(parts: &mut Parts<'_>) -> Option<u64>
    ensures number { IfSome result (λ n. parts.old ≡ decimal n ∷ []) }
    ensures small { IfSome result (λ n. n < 2 ^ 64) }
    ensures none { result ≡ None → (n : ℕ) → n < 2 ^ 64 → parts.old ≢ decimal n ∷ [] }
{
    let number = next_number(parts)?;
    if parts.is_done() { Some(number) } else { None }
}
