//! Laws of window lists: over events of several numbers, and what they hold at their end.
//! Each function does nothing: its contract is the law.
ghost use Rattle.std.specs.Prelude.{◌≡◌, ℕ, ◌+◌, ◌↔◌, List, [], ◌∷◌, ◌++◌, length, slice_get, Some, count_by};
ghost use Rattle.std.specs.List.{Contains};
ghost use Rattle.intern_log.specs.declared.event.Event.{Event};
ghost use Rattle.intern_log.specs.declared.event.Handle.{Handle};
ghost use Rattle.intern_log.specs.declared.event.What.{What};
ghost use Rattle.intern_log.specs.TextMap.{handle_eq};
ghost use Rattle.intern_log.specs.Own.{gains, losses};
ghost use Rattle.intern_log.specs.Finals.{finals};
ghost use Rattle.intern_log.specs.Window.{by_seat, IsCountedIntern, IsWindowRun, IsWindowList, IsWindowListOf, whats_of};

/// What happened in the events of one seat.
pub fn whats_of_one_seat()
    ensures law { (seat : ℕ) (whats : List What) → whats_of (by_seat seat whats) ≡ whats }
{}

/// What happened in two pieces is that of the first, then that of the second.
pub fn whats_of_two_pieces()
    ensures law { (front rest : List Event) → whats_of (front ++ rest) ≡ whats_of front ++ whats_of rest }
{}

/// What happened by one more event.
pub fn whats_by_one_more_event()
    ensures law { (log : List Event) (e : Event) → whats_of (log ++ e ∷ []) ≡ whats_of log ++ e.what ∷ [] }
{}

/// The events of one seat are a window list where what happened in them is one.
pub fn window_list_of_one_seat()
    ensures law { (hold : ℕ) (names : List (List ℕ)) (seat : ℕ) (whats : List What) →
        IsWindowListOf hold names (by_seat seat whats) ↔ IsWindowList hold names whats }
{}

/// After a window list each handle is held exactly as often as it is among the last `hold` handles.
pub fn held_after_a_window_list()
    ensures law { (hold : ℕ) (names : List (List ℕ)) (events : List Event) (handles : List Handle) (h : Handle) →
        IsWindowRun hold [] names (whats_of events) handles →
        gains events h ≡ losses events h + count_by (λ k. handle_eq k h) (finals hold handles) }
{}

/// Those handles are as many as the last `hold` names, and one by one the events interned the name as the handle.
pub fn names_held_after_a_window_list()
    ensures law { (hold : ℕ) (names : List (List ℕ)) (whats : List What) (handles : List Handle) → IsWindowRun hold [] names whats handles →
        (length (finals hold handles) ≡ length (finals hold names))
        × ((i : ℕ) (name : List ℕ) (h : Handle) → slice_get (finals hold names) i ≡ Some name → slice_get (finals hold handles) i ≡ Some h →
        (what : What) × Contains whats what × IsCountedIntern name h what) }
{}

#[cfg(test)]
mod tests {
    use super::*;

    #[test]
    fn laws_can_be_called() {
        whats_of_one_seat();
        whats_of_two_pieces();
        whats_by_one_more_event();
        window_list_of_one_seat();
        held_after_a_window_list();
        names_held_after_a_window_list();
    }
}
