//! Laws of counts: the kinds of event that are counted, how many of a kind a log has, and how the slots of Creates are numbered.
//! Each function does nothing: its contract is the law.
ghost use Rattle.std.specs.Prelude.{◌≡◌, ◌↔◌, ℕ, ◌+◌, Bool, true, if◌then◌else◌, List, [], ◌∷◌, ◌++◌, count_by};
ghost use Rattle.intern_log.specs.declared.event.Event.{Event};
ghost use Rattle.intern_log.specs.declared.event.Handle.{Handle};
ghost use Rattle.intern_log.specs.declared.event.What.{What};
ghost use Rattle.intern_log.specs.declared.event.What.TheVariants.{Create, Take, Found, Drop, Kill};
ghost use Rattle.intern_log.specs.Counts.{is_create, is_take, is_found, is_drop, is_kill, events_in};
ghost use Rattle.intern_log.specs.PlainLogs.{IsNumberedFrom};

/// The Creates are the events that create a text with a handle.
pub fn events_that_are_creates()
    ensures law { (what : What) → (is_create what ≡ true) ↔ ((text : List ℕ) × (h : Handle) × (what ≡ Create text h)) }
{}

/// The Takes are the events that take a text with a handle.
pub fn events_that_are_takes()
    ensures law { (what : What) → (is_take what ≡ true) ↔ ((text : List ℕ) × (h : Handle) × (what ≡ Take text h)) }
{}

/// The Founds are the events that find a text with a handle.
pub fn events_that_are_founds()
    ensures law { (what : What) → (is_found what ≡ true) ↔ ((text : List ℕ) × (h : Handle) × (what ≡ Found text h)) }
{}

/// The Drops are those that drop a handle.
pub fn events_that_are_drops()
    ensures law { (what : What) → (is_drop what ≡ true) ↔ ((h : Handle) × (what ≡ Drop h)) }
{}

/// The Kills are the events that kill a handle.
pub fn events_that_are_kills()
    ensures law { (what : What) → (is_kill what ≡ true) ↔ ((h : Handle) × (what ≡ Kill h)) }
{}

/// A log of no events has none of any kind.
pub fn events_of_no_log()
    ensures law { (test : What → Bool) → events_in test [] ≡ 0 }
{}

/// One more event counts as one more where it is of the kind.
pub fn events_by_one_more_event()
    ensures law { (test : What → Bool) (log : List Event) (e : Event) → events_in test (log ++ e ∷ []) ≡ events_in test log + (if test e.what then 1 else 0) }
{}

/// Creates are numbered from a slot on exactly where each has the slot that lies as many above it as there are Creates
/// before, and generation 0.
pub fn slots_of_numbered_creates()
    ensures law { (first : ℕ) (whats : List What) → IsNumberedFrom first whats ↔ ((front back : List What) (text : List ℕ) (h : Handle) →
        whats ≡ front ++ Create text h ∷ back → h ≡ record { slot = first + count_by is_create front; generation = 0 }) }
{}

#[cfg(test)]
mod tests {
    use super::*;

    #[test]
    fn laws_can_be_called() {
        events_that_are_creates();
        events_that_are_takes();
        events_that_are_founds();
        events_that_are_drops();
        events_that_are_kills();
        events_of_no_log();
        events_by_one_more_event();
        slots_of_numbered_creates();
    }
}
