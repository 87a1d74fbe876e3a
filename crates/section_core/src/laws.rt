//! Laws of sections and graces. Each function does nothing: its contract is the law.
ghost use Rattle.std.specs.Prelude.{◌≡◌, ◌↔◌, ℕ, Some, true, List, ◌∷◌, Contains, length, slice_get};
ghost use Rattle.section_core.specs.Sections.{SectionState, Waits, IsOver};
ghost use Rattle.section_core.specs.Steps.{Step, Leave, Begin, after_steps};

/// After whatever was called since it was begun, a grace waits for exactly those sections that were
/// open as it began and whose seat has not left since.
pub fn grace_waits_for_who_was_there()
    ensures law { (state : SectionState) (later : List Step) (seat : ℕ) →
        Waits (after_steps state (Begin ∷ later)) (length state.graces) seat
        ↔ ((slice_get state.inside seat ≡ Some true) × ¬ (Contains later (Leave seat))) }
{}

/// So it is over exactly where each seat whose section was open as it began has left since.
pub fn grace_is_over_when_all_have_left()
    ensures law { (state : SectionState) (later : List Step) →
        IsOver (after_steps state (Begin ∷ later)) (length state.graces)
        ↔ ((seat : ℕ) → slice_get state.inside seat ≡ Some true → Contains later (Leave seat)) }
{}

#[cfg(test)]
mod tests {
    use super::*;

    #[test]
    fn laws_can_be_called() {
        grace_waits_for_who_was_there();
        grace_is_over_when_all_have_left();
    }
}
