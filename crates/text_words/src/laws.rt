//! Laws of the words of a text and of its hash. Each function does nothing: its contract is the law.
ghost use Rattle.std.specs.Prelude.{◌≡◌, ◌<◌, ◌^◌, ℕ, List, [], ◌∷◌, All, length};
ghost use Rattle.text_words.specs.Hash.{hash31, hash_of};
ghost use Rattle.text_words.specs.Words.{words_of, word_at, packed_words, unpacked};

/// A text comes back from its words.
pub fn unpacked_text_is_the_packed_one()
    ensures law { (text : List ℕ) → All (λ byte. byte < 256) text → unpacked (packed_words text) (length text) ≡ text }
{}

/// Two texts of one length are equal where their words are.
pub fn texts_with_equal_words_are_equal()
    ensures law { (a b : List ℕ) → All (λ byte. byte < 256) a → All (λ byte. byte < 256) b → length a ≡ length b →
        packed_words a ≡ packed_words b → a ≡ b }
{}

/// Two texts of one length are equal where each word of one is that of the other.
pub fn texts_equal_word_by_word_are_equal()
    ensures law { (a b : List ℕ) → All (λ byte. byte < 256) a → All (λ byte. byte < 256) b → length a ≡ length b →
        ((at : ℕ) → at < words_of (length a) → word_at a at ≡ word_at b at) → a ≡ b }
{}

/// By seed 0 the hash is the polynomial of 31.
pub fn hash_by_seed_0_is_the_polynomial()
    ensures law { (text : List ℕ) → hash_of 0 text ≡ hash31 text }
{}

/// By a seed of 32 bits the hash has 32 bits.
pub fn hashes_are_below_2_32()
    ensures law { (seed : ℕ) (text : List ℕ) → seed < 2 ^ 32 → hash_of seed text < 2 ^ 32 }
{}

/// The polynomials of `a`, and of `Aa` and `BB`, which are one.
pub fn polynomials_of_known_texts()
    ensures a { hash31 (97 ∷ []) ≡ 97 }
    ensures upper_then_lower { hash31 (65 ∷ 97 ∷ []) ≡ 2112 }
    ensures two_uppers { hash31 (66 ∷ 66 ∷ []) ≡ 2112 }
{}

/// The hashes of the same texts by seed 1, which all differ.
pub fn hashes_of_known_texts_by_seed_1()
    ensures a { hash_of 1 (97 ∷ []) ≡ 1610676000 }
    ensures upper_then_lower { hash_of 1 (65 ∷ 97 ∷ []) ≡ 1637746925 }
    ensures two_uppers { hash_of 1 (66 ∷ 66 ∷ []) ≡ 3030717252 }
{}

#[cfg(test)]
mod tests {
    use super::*;

    #[test]
    fn laws_can_be_called() {
        unpacked_text_is_the_packed_one();
        texts_with_equal_words_are_equal();
        texts_equal_word_by_word_are_equal();
        hash_by_seed_0_is_the_polynomial();
        hashes_are_below_2_32();
        polynomials_of_known_texts();
        hashes_of_known_texts_by_seed_1();
    }
}
