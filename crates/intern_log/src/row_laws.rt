//! Laws of the rows of buckets: which text is in which bucket, how many texts a bucket has at most, and the level at which a
//! table settles. Each function does nothing: its contract is the law.
ghost use Rattle.std.specs.Prelude.{◌≡◌, ◌⊎◌, ℕ, ◌+◌, ◌*◌, ◌%◌, ◌^◌, ◌<◌, ◌≤◌, ◌==◌, if◌then◌else◌, List, [], ◌∷◌, ◌++◌};
ghost use Rattle.std.specs.List.{Contains};
ghost use Rattle.text_words.specs.Hash.{hash_of};
ghost use Rattle.intern_log.specs.Buckets.{bucket_of, in_bucket, longest_bucket, settle_level};

/// A bucket is a place of its row: it lies below 2^level, and differs from the hash by a multiple of 2^level.
pub fn bucket_of_a_text()
    ensures within { (seed level : ℕ) (text : List ℕ) → bucket_of seed level text < 2 ^ level }
    ensures rest { (seed level : ℕ) (text : List ℕ) → (n : ℕ) × (hash_of seed text ≡ 2 ^ level * n + bucket_of seed level text) }
{}

/// A bucket of no texts has none, and one more text counts as one more in its own bucket alone.
pub fn texts_in_a_bucket()
    ensures none { (seed level bucket : ℕ) → in_bucket seed level [] bucket ≡ 0 }
    ensures more { (seed level bucket : ℕ) (text : List ℕ) (texts : List (List ℕ)) →
        in_bucket seed level (text ∷ texts) bucket ≡ (if bucket_of seed level text == bucket then 1 else 0) + in_bucket seed level texts bucket }
{}

/// No bucket has more of the texts than the longest one.
pub fn no_bucket_is_longer()
    ensures law { (seed level bucket : ℕ) (texts : List (List ℕ)) → in_bucket seed level texts bucket ≤ longest_bucket seed level texts }
{}

/// The bucket of one of the texts has so many, or there is no text and the longest one has none.
pub fn some_bucket_is_the_longest()
    ensures law { (seed level : ℕ) (texts : List (List ℕ)) →
        ((texts ≡ []) × (longest_bucket seed level texts ≡ 0))
        ⊎ ((text : List ℕ) × Contains texts text × (in_bucket seed level texts (bucket_of seed level text) ≡ longest_bucket seed level texts)) }
{}

/// In a row of 8 buckets `Aa` and `BB` share one by seed 0, and have two by seed 1.
pub fn two_texts_in_a_row()
    ensures together { longest_bucket 0 3 ((65 ∷ 97 ∷ []) ∷ (66 ∷ 66 ∷ []) ∷ []) ≡ 2 }
    ensures apart { longest_bucket 1 3 ((65 ∷ 97 ∷ []) ∷ (66 ∷ 66 ∷ []) ∷ []) ≡ 1 }
    ensures first { bucket_of 0 3 (65 ∷ 97 ∷ []) ≡ 0 }
{}

/// A table settles at a level from its least to its greatest one.
pub fn settle_level_is_a_level()
    ensures least { (load min_level max_level live : ℕ) → min_level ≤ max_level → min_level ≤ settle_level load min_level max_level live }
    ensures greatest { (load min_level max_level live : ℕ) → min_level ≤ max_level → settle_level load min_level max_level live ≤ max_level }
{}

/// Its row holds the live texts at the load, or it is the greatest level.
pub fn settle_level_holds_the_texts()
    ensures law { (load min_level max_level live : ℕ) → min_level ≤ max_level →
        (live ≤ 2 ^ settle_level load min_level max_level live * load) ⊎ (settle_level load min_level max_level live ≡ max_level) }
{}

/// The row of no lower level from the least one on would hold them.
pub fn no_lower_level_holds_the_texts()
    ensures law { (load min_level max_level live level : ℕ) → min_level ≤ level → level < settle_level load min_level max_level live → 2 ^ level * load < live }
{}

#[cfg(test)]
mod tests {
    use super::*;

    #[test]
    fn laws_can_be_called() {
        bucket_of_a_text();
        texts_in_a_bucket();
        no_bucket_is_longer();
        some_bucket_is_the_longest();
        two_texts_in_a_row();
        settle_level_is_a_level();
        settle_level_holds_the_texts();
        no_lower_level_holds_the_texts();
    }
}
