//! Laws of section words. Each function does nothing: its contract is the law.
ghost use Rattle.std.specs.Prelude.{◌≡◌, ◌≢◌, ◌⊎◌, ◌<◌, ◌≤◌, ◌+◌, ◌*◌, ◌%◌, ℕ, Option, Some, None, List, [], true, false, is_some, length, slice_get, slice_index_or, IfSome};
ghost use Rattle.std.specs.Option.{option_map};
ghost use Rattle.section_core.specs.Sections.{was_inside, state_of};
ghost use Rattle.section_core.specs.Words.{section_word, waits_for};

/// A grace waits for no word without bit 0, such as that of a closed section.
pub fn closed_sections_are_passed()
    ensures closed { (raised : ℕ) → waits_for raised (section_word None) ≡ false }
    ensures even { (raised word : ℕ) → word % 2 ≡ 0 → waits_for raised word ≡ false }
{}

/// It waits for a section that was opened by a counter below the raised one.
pub fn sections_opened_before_are_waited_for()
    ensures law { (raised counter : ℕ) → counter % 2 ≡ 0 → counter < raised → waits_for raised (section_word (Some counter)) ≡ true }
{}

/// It passes a section that was opened by the raised counter or a later one.
pub fn sections_opened_since_are_passed()
    ensures law { (raised counter : ℕ) → raised ≤ counter → waits_for raised (section_word (Some counter)) ≡ false }
{}

/// A grace raises the counter that it finds by 2. Where each open section was opened by a counter that
/// is no later, and so an even one, it waits for exactly the open sections.
pub fn a_grace_waits_for_who_is_inside()
    ensures law { (opened_by : ℕ → Option ℕ) (found : ℕ) →
        ((seat : ℕ) → IfSome (opened_by seat) (λ counter. (counter % 2 ≡ 0) × (counter ≤ found))) →
        (seat : ℕ) → waits_for (found + 2) (section_word (opened_by seat)) ≡ is_some (opened_by seat) }
{}

/// A seat that a grace has passed stays passed. One step changes the section of one seat at most: it
/// leaves it, closes it, or opens it by a counter that is no lower than the raised one. So is each counter
/// that was loaded since the grace raised it, because no step lowers the counter.
pub fn passed_seats_stay_passed()
    ensures law { (raised by : ℕ) (old new : ℕ → Option ℕ) → ((seat : ℕ) → seat ≢ by → new seat ≡ old seat) →
        (new by ≡ old by) ⊎ IfSome (new by) (λ counter. raised ≤ counter) →
        (seat : ℕ) → waits_for raised (section_word (old seat)) ≡ false → waits_for raised (section_word (new seat)) ≡ false }
{}

/// The sections here compare how many graces had been begun. That is the comparison of words, where
/// the counter before the first grace is even and each grace raised it by 2.
pub fn numbers_are_compared_as_words()
    ensures law { (first number : ℕ) (entered : Option ℕ) → first % 2 ≡ 0 →
        was_inside number entered ≡ waits_for (first + 2 * number + 2) (section_word (option_map (λ before. first + 2 * before) entered)) }
    ensures seats { (first begun number seat : ℕ) (entered : List (Option ℕ)) → first % 2 ≡ 0 → number < begun → seat < length entered →
        slice_get (slice_index_or (state_of first begun entered).graces number []) seat
        ≡ Some (waits_for (first + 2 * number + 2) (section_word (option_map (λ before. first + 2 * before) (slice_index_or entered seat None)))) }
{}

#[cfg(test)]
mod tests {
    use super::*;

    #[test]
    fn laws_can_be_called() {
        closed_sections_are_passed();
        sections_opened_before_are_waited_for();
        sections_opened_since_are_passed();
        a_grace_waits_for_who_is_inside();
        passed_seats_stay_passed();
        numbers_are_compared_as_words();
    }
}
