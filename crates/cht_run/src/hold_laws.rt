//! Laws of handles that seats hold.
//! Each function does nothing: its contract is the law.
ghost use Rattle.std.specs.Prelude.{◌≡◌, ℕ, List};
ghost use Rattle.std.specs.List.{Contains};
ghost use Rattle.intern_log.specs.declared.event.Event.{Event};
ghost use Rattle.intern_log.specs.declared.event.Handle.{Handle};
ghost use Rattle.intern_log.specs.declared.event.Kind.TheVariants.{Counted};
ghost use Rattle.intern_log.specs.declared.event.TableKind.{TableKind};
ghost use Rattle.intern_log.specs.Callers.{AreCallers, DropTheirOwn};
ghost use Rattle.intern_log.specs.Lawful.{IsLawful};
ghost use Rattle.cht_core.specs.Begins.{IsHeld};
ghost use Rattle.cht_run.specs.declared.seat.Seat.{Seat};
ghost use Rattle.cht_run.specs.History.{Follows};
ghost use Rattle.cht_run.specs.Holds.{WasGiven, HoldLive, Holds};
ghost use Rattle.cht_run.specs.Seats.{history, numbers};

/// Held handles of one text are one: in a lawful log two that were given for it, and that callers hold who hold live
/// ones, are the same.
pub fn held_handles_of_one_text()
    ensures law { (table : TableKind) (log : List Event) (numbers others : List ℕ) (text : List ℕ) (h k : Handle) →
        IsLawful table log → HoldLive log numbers → HoldLive log others → IsHeld log numbers h → IsHeld log others k →
        WasGiven log text h → WasGiven log text k → h ≡ k }
{}

/// In a lawful log of a Counted table, whose callers drop no more than their own, each caller holds live handles.
pub fn callers_hold_live_handles()
    ensures law { (table : TableKind) (callers : List (List ℕ)) (log : List Event) (numbers : List ℕ) →
        table.kind ≡ Counted → IsLawful table log → AreCallers callers log → ((h : Handle) → DropTheirOwn callers log h) → Contains callers numbers → HoldLive log numbers }
{}

/// A seat holds still what it held, where others alone have added to the history.
pub fn holds_stay()
    ensures law { (old new : Seat) (text : List ℕ) (h : Handle) →
        Follows (numbers old) (history old) (history new) → numbers new ≡ numbers old → Holds old text h → Holds new text h }
{}

#[cfg(test)]
mod tests {
    use super::*;

    #[test]
    fn laws_can_be_called() {
        held_handles_of_one_text();
        callers_hold_live_handles();
        holds_stay();
    }
}
