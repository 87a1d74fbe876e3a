//! Laws of the words of a table. Each function does nothing: its contract is the law.
ghost use Rattle.std.specs.Prelude.{◌≡◌, ◌^◌, ◌<◌, ℕ, Option, Some, IfSome, true, false};
ghost use Rattle.marked_word.specs.declared.count.Count.{Count};
ghost use Rattle.marked_word.specs.declared.head.Head.{Head};
ghost use Rattle.marked_word.specs.declared.meta.Meta.{Meta};
ghost use Rattle.marked_word.specs.Count.{count_word, count_of};
ghost use Rattle.marked_word.specs.Head.{head_word, head_of, first_of, is_locked, is_redirected, locked};
ghost use Rattle.marked_word.specs.Link.{link_word, link_of, node_of};
ghost use Rattle.marked_word.specs.Meta.{meta_word, meta_of, hash_in, length_in};
ghost use Rattle.marked_word.specs.Number.{section_word, owner_word, new_level_word, new_level_of};

/// A link comes back from its word.
pub fn link_of_its_word()
    ensures law { (node : Option ℕ) → IfSome node (λ n. n < 2 ^ 32) → link_of (link_word node) ≡ Some node }
{}

/// Two links never have one word.
pub fn links_with_one_word_are_equal()
    ensures law { (a b : Option ℕ) → link_word a ≡ link_word b → a ≡ b }
{}

/// A head comes back from its word.
pub fn head_of_its_word()
    ensures law { (head : Head) → IfSome head.node (λ n. n < 2 ^ 32) → head_of (head_word head) ≡ Some head }
{}

/// Two heads never have one word.
pub fn heads_with_one_word_are_equal()
    ensures law { (a b : Head) → head_word a ≡ head_word b → a ≡ b }
{}

/// A count comes back from its word.
pub fn count_of_its_word()
    ensures law { (count : Count) → count.count < 2 ^ 16 → count_of (count_word count) ≡ count }
{}

/// Two counts never have one word.
pub fn counts_with_one_word_are_equal()
    ensures law { (a b : Count) → a.count < 2 ^ 16 → b.count < 2 ^ 16 → count_word a ≡ count_word b → a ≡ b }
{}

/// A hash and a length come back from their word.
pub fn meta_of_its_word()
    ensures law { (meta : Meta) → meta.hash < 2 ^ 32 → meta.length < 2 ^ 16 → meta_of (meta_word meta) ≡ Some meta }
{}

/// Two pairs of a hash and a length never have one word.
pub fn metas_with_one_word_are_equal()
    ensures law { (a b : Meta) → a.length < 2 ^ 16 → b.length < 2 ^ 16 → meta_word a ≡ meta_word b → a ≡ b }
{}

/// The parts of a word are those of the value whose word it is.
pub fn parts_come_back_from_their_word()
    ensures link { (node : Option ℕ) → node_of (link_word node) ≡ node }
    ensures head { (head : Head) → (first_of (head_word head) ≡ head.node) × (is_locked (head_word head) ≡ head.lock) × (is_redirected (head_word head) ≡ head.redirect) }
    ensures meta { (meta : Meta) → meta.length < 2 ^ 16 → (hash_in (meta_word meta) ≡ meta.hash) × (length_in (meta_word meta) ≡ meta.length) }
    ensures level { (level : ℕ) → new_level_of (new_level_word (Some level)) ≡ level }
{}

/// A head that is not locked has, locked, the word of the same head with the lock.
pub fn locked_heads_stay_the_same_heads()
    ensures value { (head : Head) → head.lock ≡ false → locked (head_word head) ≡ head_word (record head { lock = true }) }
    ensures word { (word : ℕ) → is_locked word ≡ false → (is_locked (locked word) ≡ true) × (is_redirected (locked word) ≡ is_redirected word) × (first_of (locked word) ≡ first_of word) }
{}

/// Two counters, two owners or two new levels, or one and none, never have one word.
pub fn numbers_with_one_word_are_equal()
    ensures section { (a b : Option ℕ) → section_word a ≡ section_word b → a ≡ b }
    ensures owner { (a b : Option ℕ) → owner_word a ≡ owner_word b → a ≡ b }
    ensures level { (a b : Option ℕ) → new_level_word a ≡ new_level_word b → a ≡ b }
{}

#[cfg(test)]
mod tests {
    use super::*;

    #[test]
    fn laws_can_be_called() {
        link_of_its_word();
        links_with_one_word_are_equal();
        head_of_its_word();
        heads_with_one_word_are_equal();
        count_of_its_word();
        counts_with_one_word_are_equal();
        meta_of_its_word();
        metas_with_one_word_are_equal();
        parts_come_back_from_their_word();
        locked_heads_stay_the_same_heads();
        numbers_with_one_word_are_equal();
    }
}
