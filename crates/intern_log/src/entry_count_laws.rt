//! Laws of the counts of entries: their range, the holds that they count, and what letting go of one comes to.
//! Each function does nothing: its contract is the law.
ghost use Rattle.std.specs.Prelude.{◌≡◌, ℕ, ◌+◌, ◌<◌, ◌≤◌, List, Some, None};
ghost use Rattle.std.specs.Option.{option_map, unwrap_or};
ghost use Rattle.intern_log.specs.declared.event.Entry.{Entry};
ghost use Rattle.intern_log.specs.declared.event.Event.{Event};
ghost use Rattle.intern_log.specs.declared.event.Handle.{Handle};
ghost use Rattle.intern_log.specs.declared.event.Released.TheVariants.{Dropped, Permanent};
ghost use Rattle.intern_log.specs.TextMap.{TextMap, no_texts, entry_of, put_at, IsLive};
ghost use Rattle.intern_log.specs.Log.{map_of, lowered};
ghost use Rattle.intern_log.specs.Ledger.{MeetsLedger};
ghost use Rattle.intern_log.specs.Own.{gains, losses};
ghost use Rattle.intern_log.specs.EntryCounts.{released_of, references_to, references_of};

/// A live entry has a count from 1 to 65,535, in the map of each log.
pub fn live_counts_are_from_1_to_65535()
    ensures law { (log : List Event) (text : List ℕ) (e : Entry) → entry_of (map_of log) text ≡ Some e → (1 ≤ e.count) × (e.count ≤ 65535) }
{}

/// At the end of a log that meets the ledger, a handle was gained as often as it was lost and is counted, below 65,535,
/// and just as often as it was lost where it is not live.
pub fn counts_of_a_ledger()
    ensures law { (log : List Event) → MeetsLedger log →
        ((text : List ℕ) (e : Entry) → entry_of (map_of log) text ≡ Some e → e.count < 65535 → gains log e.handle ≡ losses log e.handle + e.count)
        × ((h : Handle) → ¬ (IsLive (map_of log) h) → gains log h ≡ losses log h) }
{}

/// An entry counts its holds below 65,535, and none at 65,535.
pub fn holds_that_an_entry_counts()
    ensures law { (e : Entry) → (e.count < 65535 → references_to e ≡ e.count) × (65535 ≤ e.count → references_to e ≡ 0) }
{}

/// A map with no text counts no holds.
pub fn holds_of_no_texts()
    ensures law { references_of no_texts ≡ 0 }
{}

/// With the entry of a text that had none, a map counts the entry's holds beside its own.
pub fn holds_with_one_more_text()
    ensures law { (m : TextMap) (text : List ℕ) (e : Entry) → entry_of m text ≡ None → references_of (put_at m text (Some e)) ≡ references_of m + references_to e }
{}

/// Letting go of a permanent entry leaves it as it is.
pub fn release_of_a_permanent_entry()
    ensures law { released_of 65535 ≡ Permanent }
{}

/// Letting go of another one leaves the count that a Drop leaves, or 0 where the entry is gone.
pub fn release_of_a_counted_entry()
    ensures law { (e : Entry) → ¬ (e.count ≡ 65535) → released_of e.count ≡ Dropped (unwrap_or (option_map (λ (f : Entry). f.count) (lowered e)) 0) }
{}

#[cfg(test)]
mod tests {
    use super::*;

    #[test]
    fn laws_can_be_called() {
        live_counts_are_from_1_to_65535();
        counts_of_a_ledger();
        holds_that_an_entry_counts();
        holds_of_no_texts();
        holds_with_one_more_text();
        release_of_a_permanent_entry();
        release_of_a_counted_entry();
    }
}
