//! Laws of the last texts of a list, and of the different ones among texts.
//! Each function does nothing: its contract is the law.
ghost use Rattle.std.specs.Prelude.{◌≡◌, ◌↔◌, ℕ, min, List, ◌++◌, length};
ghost use Rattle.std.specs.List.{Contains};
ghost use Rattle.std.specs.List.Sorted.{IsStrictlySortedBy};
ghost use Rattle.std.specs.Ordering.{nat_cmp};
ghost use Rattle.std.specs.Cmp.Lexicographic.{slice_cmp};
ghost use Rattle.intern_log.specs.Finals.{finals, distinct_texts};

/// The final texts end the list, and are as many as are held, or all where there are fewer.
pub fn final_texts_end_the_list()
    ensures end { (hold : ℕ) (texts : List (List ℕ)) → (front : List (List ℕ)) × (texts ≡ front ++ finals hold texts) }
    ensures number { (hold : ℕ) (texts : List (List ℕ)) → length (finals hold texts) ≡ min hold (length texts) }
{}

/// The distinct texts are the texts of the list, each once, in the order of their bytes.
pub fn distinct_texts_are_the_texts()
    ensures same { (texts : List (List ℕ)) (text : List ℕ) → Contains (distinct_texts texts) text ↔ Contains texts text }
    ensures rising { (texts : List (List ℕ)) → IsStrictlySortedBy (slice_cmp nat_cmp) (distinct_texts texts) }
{}

#[cfg(test)]
mod tests {
    use super::*;

    #[test]
    fn laws_can_be_called() {
        final_texts_end_the_list();
        distinct_texts_are_the_texts();
    }
}
