//! What holds of the pieces and tokens of all bytes.
ghost use Rattle.std.specs.Prelude.{◌≡◌, ◌≤◌, ℕ, List, length, All};
ghost use Rattle.std.specs.List.{AllPairs};
ghost use Rattle.name_scan.specs.declared.Piece.{Piece};
ghost use Rattle.name_scan.specs.declared.Token.{Token};
ghost use Rattle.name_scan.specs.Pieces.{IsCut};
ghost use Rattle.name_scan.specs.Tokens.{pieces, tokens_at, tokens, tokens_from};
ghost use Rattle.name_scan.specs.Places.{IsWithin, EndsBefore, IsKindAt};

/// All bytes can be cut into pieces: `pieces` does it.
pub fn bytes_have_a_cut()
    ensures law { (bs : List ℕ) → IsCut (pieces bs) bs }
{}

/// Bytes are cut into pieces in one way only.
pub fn cut_is_unique()
    ensures law { (bs : List ℕ) (ps qs : List Piece) → IsCut ps bs → IsCut qs bs → ps ≡ qs }
{}

/// The tokens are those of the pieces, by whichever cut.
pub fn tokens_are_of_every_cut()
    ensures law { (bs : List ℕ) (ps : List Piece) → IsCut ps bs → tokens bs ≡ tokens_at 0 ps }
{}

/// Each token lies within the bytes.
pub fn tokens_are_within()
    ensures law { (bs : List ℕ) → All (IsWithin bs) (tokens bs) }
{}

/// The tokens are apart and in the order of their starts.
pub fn tokens_are_in_order()
    ensures law { (bs : List ℕ) → AllPairs EndsBefore (tokens bs) }
{}

/// Each name is a longest run of name bytes, and each literal stands behind a quote, up to what ends
/// it.
pub fn tokens_are_in_place()
    ensures law { (bs : List ℕ) → All (λ t. IsKindAt bs t.kind t.start t.end) (tokens bs) }
{}

/// There are no more tokens than bytes.
pub fn tokens_are_no_more_than_bytes()
    ensures law { (bs : List ℕ) → length (tokens bs) ≤ length bs }
{}

/// The tokens from the front on are all of them.
pub fn tokens_from_the_front_are_all()
    ensures law { (bs : List ℕ) → tokens_from bs 0 ≡ tokens bs }
{}
