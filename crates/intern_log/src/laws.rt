//! Laws of the definitions in `specs/`. Each function does nothing: its contract is the law.
ghost use Rattle.std.specs.Prelude.{◌≡◌, ℕ, ◌↔◌, List, [], ◌∷◌, ◌++◌};
ghost use Rattle.intern_log.specs.declared.event.Event.{Event};
ghost use Rattle.intern_log.specs.declared.event.Handle.{Handle};
ghost use Rattle.intern_log.specs.declared.event.What.{What};
ghost use Rattle.intern_log.specs.TextMap.{TextMap, entry_of};
ghost use Rattle.intern_log.specs.Log.{next, entry_after, map_after, map_of, Allows, IsLegalFrom, IsLegal, IsFresh, HandlesDiffer};
ghost use Rattle.intern_log.specs.Own.{mine};
ghost use Rattle.intern_log.specs.Window.{IsCountedIntern, IsWeakIntern, IsWindowRun, IsLiteralList, let_go};
ghost use Rattle.intern_log.specs.PlainLogs.{IsPlainSymbolLog, IsPlainStringLog};

/// The map after an event, text by text.
pub fn entry_after_an_event()
    ensures law { (m : TextMap) (what : What) (text : List ℕ) → entry_of (next m what) text ≡ entry_after what text (entry_of m text) }
{}

/// Two maps with the same entries are one.
pub fn same_entries_make_one_map()
    ensures law { (m n : TextMap) → ((text : List ℕ) → entry_of m text ≡ entry_of n text) → m ≡ n }
{}

/// The map of two pieces is that of the second from the map of the first on.
pub fn map_of_two_pieces()
    ensures law { (front rest : List Event) → map_of (front ++ rest) ≡ map_after (map_of front) rest }
{}

/// Two pieces are legal where the first is, and the second is from the map of the first on.
pub fn legality_of_two_pieces()
    ensures law { (front rest : List Event) → IsLegal (front ++ rest) ↔ (IsLegal front × IsLegalFrom (map_of front) rest) }
{}

/// One more event keeps a log legal where the map allows it.
pub fn legality_of_one_more_event()
    ensures law { (log : List Event) (event : Event) → IsLegal (log ++ event ∷ []) ↔ (IsLegal log × Allows (map_of log) event.what) }
{}

/// A caller's events in two pieces are those of the first, then those of the second.
pub fn own_events_of_two_pieces()
    ensures law { (front rest : List Event) (numbers : List ℕ) → mine (front ++ rest) numbers ≡ mine front numbers ++ mine rest numbers }
{}

/// What begins a fresh log is fresh.
pub fn prefix_of_a_fresh_log()
    ensures law { (front rest : List Event) → IsFresh (front ++ rest) → IsFresh front }
{}

/// In a legal log two live texts never have one handle.
pub fn live_handles_differ()
    ensures law { (log : List Event) → IsLegal log → HandlesDiffer (map_of log) }
{}

/// A window run goes on by the intern of one more name and the Drop of the handle that leaves the window.
pub fn window_run_with_one_more_name()
    ensures law { (hold : ℕ) (before : List Handle) (names : List (List ℕ)) (whats : List What) (after : List Handle) (name : List ℕ) (h : Handle) (what : What) →
        IsWindowRun hold before names whats after → IsCountedIntern name h what →
        IsWindowRun hold before (names ++ name ∷ []) (whats ++ what ∷ let_go hold (after ++ h ∷ [])) (after ++ h ∷ []) }
{}

/// A literal list goes on by the intern of one more literal.
pub fn literal_list_with_one_more_literal()
    ensures law { (literals : List (List ℕ)) (whats : List What) (literal : List ℕ) (h : Handle) (what : What) →
        IsLiteralList literals whats → IsWeakIntern literal h what → IsLiteralList (literals ++ literal ∷ []) (whats ++ what ∷ []) }
{}

/// Names have one plain symbol log at most.
pub fn plain_symbol_log_is_unique()
    ensures law { (hold : ℕ) (names : List (List ℕ)) (a b : List Event) → IsPlainSymbolLog hold names a → IsPlainSymbolLog hold names b → a ≡ b }
{}

/// Literals have one plain string log at most.
pub fn plain_string_log_is_unique()
    ensures law { (hold : ℕ) (literals : List (List ℕ)) (a b : List Event) → IsPlainStringLog hold literals a → IsPlainStringLog hold literals b → a ≡ b }
{}

#[cfg(test)]
mod tests {
    use super::*;

    #[test]
    fn laws_can_be_called() {
        entry_after_an_event();
        same_entries_make_one_map();
        map_of_two_pieces();
        legality_of_two_pieces();
        legality_of_one_more_event();
        own_events_of_two_pieces();
        prefix_of_a_fresh_log();
        live_handles_differ();
        window_run_with_one_more_name();
        literal_list_with_one_more_literal();
        plain_symbol_log_is_unique();
        plain_string_log_is_unique();
    }
}
