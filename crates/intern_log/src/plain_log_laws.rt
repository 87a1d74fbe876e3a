//! Laws of the parts of a plain log: membership, and the Kills of a string log.
//! Each function does nothing: its contract is the law.
ghost use Rattle.std.specs.Prelude.{◌≡◌, ℕ, ◌↔◌, true, List, ◌++◌};
ghost use Rattle.std.specs.List.{Contains};
ghost use Rattle.intern_log.specs.declared.event.Handle.{Handle};
ghost use Rattle.intern_log.specs.declared.event.What.{What};
ghost use Rattle.intern_log.specs.declared.event.What.TheVariants.{Create, Kill};
ghost use Rattle.intern_log.specs.Finals.{is_among_texts};
ghost use Rattle.intern_log.specs.PlainLogs.{kills_of};

/// A text is among the texts exactly where they contain it.
pub fn texts_among_texts()
    ensures law { (texts : List (List ℕ)) (text : List ℕ) → (is_among_texts texts text ≡ true) ↔ Contains texts text }
{}

/// What a string log kills at its end: each handle with which a text was created that is not among the final ones, and
/// nothing else.
pub fn kills_are_of_texts_that_are_not_final()
    ensures law { (final_texts : List (List ℕ)) (whats : List What) (kill : What) →
        Contains (kills_of final_texts whats) kill ↔ ((text : List ℕ) × (h : Handle) × (kill ≡ Kill h) × Contains whats (Create text h) × ¬ (Contains final_texts text)) }
{}

/// The Kills of two pieces are those of the first, then those of the second: they are in the order of the Creates.
pub fn kills_of_two_pieces()
    ensures law { (final_texts : List (List ℕ)) (front rest : List What) → kills_of final_texts (front ++ rest) ≡ kills_of final_texts front ++ kills_of final_texts rest }
{}

#[cfg(test)]
mod tests {
    use super::*;

    #[test]
    fn laws_can_be_called() {
        texts_among_texts();
        kills_are_of_texts_that_are_not_final();
        kills_of_two_pieces();
    }
}
