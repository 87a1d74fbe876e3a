//! Laws of what callers hold: a caller's own events, how often a handle is held, and which of the callers holds it.
//! Each function does nothing: its contract is the law.
ghost use Rattle.std.specs.Prelude.{◌≡◌, ◌↔◌, ◌⊎◌, ℕ, ◌+◌, ◌<◌, ◌≤◌, true, List, [], ◌∷◌, ◌++◌};
ghost use Rattle.std.specs.List.{Contains};
ghost use Rattle.intern_log.specs.declared.event.Event.{Event};
ghost use Rattle.intern_log.specs.declared.event.Handle.{Handle};
ghost use Rattle.intern_log.specs.declared.event.What.{What};
ghost use Rattle.intern_log.specs.declared.event.What.TheVariants.{Create, Take, Drop};
ghost use Rattle.intern_log.specs.Own.{is_gain, is_loss, mine, gains, losses, total, held};
ghost use Rattle.intern_log.specs.Callers.{AreCallers, DropTheirOwn, IsHeldBySome, IsHeldThroughout};
ghost use Rattle.intern_log.specs.Place.{Begins};
ghost use Rattle.intern_log.specs.Sections.{IsCreatedAs};

/// An event gives a hold on a handle exactly where it is a Create or a Take with it.
pub fn events_that_give_a_hold()
    ensures law { (what : What) (h : Handle) → (is_gain what h ≡ true) ↔ ((text : List ℕ) × ((what ≡ Create text h) ⊎ (what ≡ Take text h))) }
{}

/// An event takes a hold on a handle away exactly where it is a Drop of it.
pub fn events_that_take_a_hold_away()
    ensures law { (what : What) (h : Handle) → (is_loss what h ≡ true) ↔ (what ≡ Drop h) }
{}

/// A handle is held as often as it was gained more often than lost, and 0 times where it was lost as often or more often.
pub fn handles_held_in_all()
    ensures more { (log : List Event) (h : Handle) (n : ℕ) → gains log h ≡ losses log h + n → total log h ≡ n }
    ensures none { (log : List Event) (h : Handle) → gains log h ≤ losses log h → total log h ≡ 0 }
{}

/// A caller holds a handle as often as its own events gained it more often than they lost it.
pub fn handles_held_by_a_caller()
    ensures more { (log : List Event) (numbers : List ℕ) (h : Handle) (n : ℕ) → gains (mine log numbers) h ≡ losses (mine log numbers) h + n → held log numbers h ≡ n }
    ensures none { (log : List Event) (numbers : List ℕ) (h : Handle) → gains (mine log numbers) h ≤ losses (mine log numbers) h → held log numbers h ≡ 0 }
{}

/// Callers share a log of no events.
pub fn callers_of_no_events()
    ensures law { (callers : List (List ℕ)) → AreCallers callers [] }
{}

/// Callers drop their own where each of them lost the handle at most as often as it gained it.
pub fn callers_that_drop_their_own()
    ensures law { (callers : List (List ℕ)) (log : List Event) (h : Handle) →
        DropTheirOwn callers log h ↔ ((numbers : List ℕ) → Contains callers numbers → losses (mine log numbers) h ≤ gains (mine log numbers) h) }
{}

/// Some caller holds a handle where one of them gained it more often than it lost it.
pub fn handles_held_by_some_caller()
    ensures law { (callers : List (List ℕ)) (log : List Event) (h : Handle) →
        IsHeldBySome callers log h ↔ ((numbers : List ℕ) × Contains callers numbers × (losses (mine log numbers) h < gains (mine log numbers) h)) }
{}

/// In a window whose ends are one a text is held throughout where some caller holds a handle of it there.
pub fn texts_held_at_one_place()
    ensures law { (callers : List (List ℕ)) (log : List Event) (text : List ℕ) →
        IsHeldThroughout callers log log text ↔ ((h : Handle) × IsCreatedAs log text h × DropTheirOwn callers log h × IsHeldBySome callers log h) }
{}

/// By one more event it is held throughout where it was so far, and is held at the new end.
pub fn texts_held_by_one_more_event()
    ensures law { (callers : List (List ℕ)) (before after : List Event) (e : Event) (text : List ℕ) → Begins before after →
        IsHeldThroughout callers before (after ++ e ∷ []) text
        ↔ (IsHeldThroughout callers before after text × IsHeldThroughout callers (after ++ e ∷ []) (after ++ e ∷ []) text) }
{}

#[cfg(test)]
mod tests {
    use super::*;

    #[test]
    fn laws_can_be_called() {
        events_that_give_a_hold();
        events_that_take_a_hold_away();
        handles_held_in_all();
        handles_held_by_a_caller();
        callers_of_no_events();
        callers_that_drop_their_own();
        handles_held_by_some_caller();
        texts_held_at_one_place();
        texts_held_by_one_more_event();
    }
}
