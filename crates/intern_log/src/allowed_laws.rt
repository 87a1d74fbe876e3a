//! Laws of the events that a map allows, each kind in the map's own words, and of logs in which no handle has two Creates.
//! Each function does nothing: its contract is the law.
ghost use Rattle.std.specs.Prelude.{◌≡◌, ◌↔◌, ℕ, true, false, List, [], ◌∷◌, Some, None};
ghost use Rattle.intern_log.specs.declared.event.Event.{Event};
ghost use Rattle.intern_log.specs.declared.event.Handle.{Handle};
ghost use Rattle.intern_log.specs.declared.event.What.{What};
ghost use Rattle.intern_log.specs.declared.event.What.TheVariants.{Create, Take, Found, Drop, Perm, Kill};
ghost use Rattle.intern_log.specs.TextMap.{TextMap, entry_of, IsLive};
ghost use Rattle.intern_log.specs.Log.{Allows, creates, IsFresh};
ghost use Rattle.intern_log.specs.Own.{is_visible};
ghost use Rattle.intern_log.specs.Sections.{with_event};

/// A Create is allowed exactly where its text has no entry, and no text has an entry of its handle.
pub fn creates_that_are_allowed()
    ensures law { (m : TextMap) (text : List ℕ) (h : Handle) → Allows m (Create text h) ↔ ((entry_of m text ≡ None) × ¬ (IsLive m h)) }
{}

/// A Take is allowed exactly where its text has an entry of its handle.
pub fn takes_that_are_allowed()
    ensures law { (m : TextMap) (text : List ℕ) (h : Handle) → Allows m (Take text h) ↔ ((n : ℕ) × (entry_of m text ≡ Some (record { handle = h; count = n }))) }
{}

/// A Found is allowed exactly where its text has an entry of its handle.
pub fn founds_that_are_allowed()
    ensures law { (m : TextMap) (text : List ℕ) (h : Handle) → Allows m (Found text h) ↔ ((n : ℕ) × (entry_of m text ≡ Some (record { handle = h; count = n }))) }
{}

/// A Drop is allowed exactly where its handle is live.
pub fn drops_that_are_allowed()
    ensures law { (m : TextMap) (h : Handle) → Allows m (Drop h) ↔ IsLive m h }
{}

/// A Perm is allowed exactly where its handle is live.
pub fn perms_that_are_allowed()
    ensures law { (m : TextMap) (h : Handle) → Allows m (Perm h) ↔ IsLive m h }
{}

/// A Kill is allowed exactly where its handle is live.
pub fn kills_that_are_allowed()
    ensures law { (m : TextMap) (h : Handle) → Allows m (Kill h) ↔ IsLive m h }
{}

/// Each event that callers do not see is allowed.
pub fn unseen_events_are_allowed()
    ensures law { (m : TextMap) (what : What) → is_visible what ≡ false → Allows m what }
{}

/// An event creates a handle exactly where it is a Create with that handle.
pub fn events_that_create_a_handle()
    ensures law { (what : What) (h : Handle) → (creates what h ≡ true) ↔ ((text : List ℕ) × (what ≡ Create text h)) }
{}

/// A log is fresh exactly where no handle has Creates at two of its places.
pub fn fresh_logs_create_each_handle_once()
    ensures law { (log : List Event) → IsFresh log ↔ ((front between back : List Event) (seat other : ℕ) (text again : List ℕ) (h : Handle) →
        ¬ (log ≡ with_event front seat (Create text h) (with_event between other (Create again h) back))) }
{}

#[cfg(test)]
mod tests {
    use super::*;

    #[test]
    fn laws_can_be_called() {
        creates_that_are_allowed();
        takes_that_are_allowed();
        founds_that_are_allowed();
        drops_that_are_allowed();
        perms_that_are_allowed();
        kills_that_are_allowed();
        unseen_events_are_allowed();
        events_that_create_a_handle();
        fresh_logs_create_each_handle_once();
    }
}
