//! Laws of the level and of a row that is being replaced: what the log's words say of them is what `Now` has.
//! Each function does nothing: its contract is the law.
ghost use Rattle.std.specs.Prelude.{◌≡◌, ℕ, ◌+◌, ◌↔◌, true, false, List, Some, length};
ghost use Rattle.std.specs.List.{list_any};
ghost use Rattle.intern_log.specs.declared.event.Event.{Event};
ghost use Rattle.intern_log.specs.declared.event.TableKind.{TableKind};
ghost use Rattle.intern_log.specs.declared.event.What.TheVariants.{Level};
ghost use Rattle.intern_log.specs.Now.{Resizing, now_of};
ghost use Rattle.intern_log.specs.Lawful.{IsLawful};
ghost use Rattle.intern_log.specs.Sections.{with_event};
ghost use Rattle.intern_log.specs.Orderly.{level_after, IsBeingReplaced};
ghost use Rattle.intern_log.specs.Touches.{is_level};

/// The level is that of the last Level, or the least one where there is none.
pub fn level_of_now()
    ensures law { (min_level : ℕ) (log : List Event) → (now_of min_level log).level ≡ level_after min_level log }
{}

/// Where there is no Level, the place after the last Level is 0.
pub fn since_without_a_level()
    ensures law { (min_level : ℕ) (log : List Event) → list_any (λ (e : Event). is_level e.what) log ≡ false → (now_of min_level log).since ≡ 0 }
{}

/// Else it is the place after the last one.
pub fn since_the_last_level()
    ensures law { (min_level : ℕ) (log front back : List Event) (k level : ℕ) → log ≡ with_event front k (Level level) back →
        list_any (λ (e : Event). is_level e.what) back ≡ false → (now_of min_level log).since ≡ length front + 1 }
{}

/// In a lawful log a row is being replaced where the resizing is of its level and is marked as replacing.
pub fn row_being_replaced()
    ensures law { (table : TableKind) (log : List Event) (row : ℕ) → IsLawful table log →
        IsBeingReplaced table.min_level log row ↔ ((r : Resizing) × ((now_of table.min_level log).resizing ≡ Some r) × (r.level ≡ row) × (r.replacing ≡ true)) }
{}

#[cfg(test)]
mod tests {
    use super::*;

    #[test]
    fn laws_can_be_called() {
        level_of_now();
        since_without_a_level();
        since_the_last_level();
        row_being_replaced();
    }
}
