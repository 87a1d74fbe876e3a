//! Laws of callers: what they hold together, and what a handle that one of them holds is good for.
//! Each function does nothing: its contract is the law.
ghost use Rattle.std.specs.Prelude.{◌≡◌, ℕ, ◌↔◌, true, List, [], ◌∷◌, ◌++◌, count_by};
ghost use Rattle.std.specs.List.{sum_by, Contains};
ghost use Rattle.intern_log.specs.declared.event.Event.{Event};
ghost use Rattle.intern_log.specs.declared.event.Handle.{Handle};
ghost use Rattle.intern_log.specs.declared.event.Kind.TheVariants.{Counted};
ghost use Rattle.intern_log.specs.declared.event.TableKind.{TableKind};
ghost use Rattle.intern_log.specs.declared.event.What.TheVariants.{Create, Take};
ghost use Rattle.intern_log.specs.TextMap.{HasHandle};
ghost use Rattle.intern_log.specs.Log.{map_of, Allows, IsFresh};
ghost use Rattle.intern_log.specs.Own.{is_visible, is_among, mine, gains, losses};
ghost use Rattle.intern_log.specs.Lawful.{IsLawful};
ghost use Rattle.intern_log.specs.Sections.{with_event};
ghost use Rattle.intern_log.specs.Callers.{AreCallers, DropTheirOwn, IsHeldBySome, IsHeldThroughout};
ghost use Rattle.intern_log.specs.Place.{IsLiveThroughout};
ghost use Rattle.intern_log.specs.CauseEvents.{IsByOther};

/// A number is among those of a caller where they contain it.
pub fn numbers_among_numbers()
    ensures law { (numbers : List ℕ) (seat : ℕ) → (is_among numbers seat ≡ true) ↔ Contains numbers seat }
{}

/// An event is by another where its number is none of these.
pub fn events_by_others()
    ensures law { (numbers : List ℕ) (e : Event) → IsByOther numbers e ↔ ¬ (Contains numbers e.seat) }
{}

/// Callers share a log by one more event where they share it before, and that event is by one of them or unseen.
pub fn callers_by_one_more_event()
    ensures law { (callers : List (List ℕ)) (log : List Event) (e : Event) →
        AreCallers callers (log ++ e ∷ []) ↔ (AreCallers callers log × (is_visible e.what ≡ true → count_by (λ numbers. is_among numbers e.seat) callers ≡ 1)) }
{}

/// The gains of a log are those of its callers together.
pub fn gains_of_the_callers()
    ensures law { (callers : List (List ℕ)) (log : List Event) (h : Handle) → AreCallers callers log →
        sum_by (λ numbers. gains (mine log numbers) h) callers ≡ gains log h }
{}

/// The losses of a log are those of its callers together.
pub fn losses_of_the_callers()
    ensures law { (callers : List (List ℕ)) (log : List Event) (h : Handle) → AreCallers callers log →
        sum_by (λ numbers. losses (mine log numbers) h) callers ≡ losses log h }
{}

/// In a lawful Counted log whose callers drop no more than their own, a handle that one of them holds is live, and each
/// Take of its text that may come next names that handle.
pub fn handles_of_callers_are_live()
    ensures law { (table : TableKind) (callers : List (List ℕ)) (log : List Event) (h : Handle) →
        table.kind ≡ Counted → IsLawful table log → AreCallers callers log → DropTheirOwn callers log h → IsHeldBySome callers log h →
        (text : List ℕ) × HasHandle (map_of log) text h × ((k : Handle) → Allows (map_of log) (Take text k) → k ≡ h) }
{}

/// A handle that is live in a fresh log has the text of its Create.
pub fn text_of_a_live_handle()
    ensures law { (log front back : List Event) (seat : ℕ) (created text : List ℕ) (h : Handle) → IsFresh log →
        log ≡ with_event front seat (Create created h) back → HasHandle (map_of log) text h → text ≡ created }
{}

/// In a lawful Counted log a text of which callers hold a handle at each place of a window is live at each place, so it
/// is not missing in the window.
pub fn texts_held_throughout_are_live()
    ensures law { (table : TableKind) (callers : List (List ℕ)) (before after : List Event) (text : List ℕ) →
        table.kind ≡ Counted → IsLawful table after → AreCallers callers after → IsHeldThroughout callers before after text → IsLiveThroughout before after text }
{}

#[cfg(test)]
mod tests {
    use super::*;

    #[test]
    fn laws_can_be_called() {
        numbers_among_numbers();
        events_by_others();
        callers_by_one_more_event();
        gains_of_the_callers();
        losses_of_the_callers();
        handles_of_callers_are_live();
        text_of_a_live_handle();
        texts_held_throughout_are_live();
    }
}
