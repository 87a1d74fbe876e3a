//! Laws of windows: their places, their events, and the texts that are missing in them.
//! Each function does nothing: its contract is the law.
ghost use Rattle.std.specs.Prelude.{◌≡◌, ℕ, ◌↔◌, ◌⊎◌, List, [], ◌∷◌, ◌++◌, None};
ghost use Rattle.intern_log.specs.declared.event.Event.{Event};
ghost use Rattle.intern_log.specs.TextMap.{entry_of};
ghost use Rattle.intern_log.specs.Log.{map_of};
ghost use Rattle.intern_log.specs.Place.{Begins, IsPlaceOf, StandsIn, IsMissing, IsLiveThroughout};

/// What begins a log that begins another begins that one too.
pub fn beginning_of_a_beginning()
    ensures law { (first second third : List Event) → Begins first second → Begins second third → Begins first third }
{}

/// A place of a window is what was logged before the window and a front of what is in it.
pub fn places_of_a_window()
    ensures law { (before after done : List Event) →
        IsPlaceOf before after done ↔ ((seen rest : List Event) × (after ≡ before ++ seen ++ rest) × (done ≡ before ++ seen)) }
{}

/// Both ends of a window are places of it.
pub fn ends_of_a_window()
    ensures law { (before after : List Event) → Begins before after → IsPlaceOf before after before × IsPlaceOf before after after }
{}

/// A window whose ends are one has that place alone.
pub fn window_of_one_place()
    ensures law { (log done : List Event) → IsPlaceOf log log done ↔ (done ≡ log) }
{}

/// By one more event a window has one more place, the new end.
pub fn places_by_one_more_event()
    ensures law { (before after : List Event) (e : Event) (done : List Event) → Begins before after →
        IsPlaceOf before (after ++ e ∷ []) done ↔ (IsPlaceOf before after done ⊎ (done ≡ after ++ e ∷ [])) }
{}

/// A wider window, from an earlier beginning to a later end, has the places of the narrower one.
pub fn places_of_a_wider_window()
    ensures law { (earlier before after later done : List Event) → Begins earlier before → Begins after later →
        IsPlaceOf before after done → IsPlaceOf earlier later done }
{}

/// A window of two pieces has the places of both, and no other.
pub fn places_of_two_pieces()
    ensures law { (before middle after done : List Event) → Begins before middle → Begins middle after →
        IsPlaceOf before after done ↔ (IsPlaceOf before middle done ⊎ IsPlaceOf middle after done) }
{}

/// An event of a window follows a front of what is in it.
pub fn events_of_a_window()
    ensures law { (before after done : List Event) (e : Event) →
        StandsIn before after done e ↔ ((seen rest : List Event) × (after ≡ before ++ seen ++ e ∷ rest) × (done ≡ before ++ seen)) }
{}

/// A window whose ends are one has no event.
pub fn no_event_in_a_window_of_one_place()
    ensures law { (log done : List Event) (e : Event) → ¬ (StandsIn log log done e) }
{}

/// By one more event a window has that event beside those that it had.
pub fn events_by_one_more_event()
    ensures law { (before after : List Event) (e : Event) (done : List Event) (x : Event) → Begins before after →
        StandsIn before (after ++ e ∷ []) done x ↔ (StandsIn before after done x ⊎ ((done ≡ after) × (x ≡ e))) }
{}

/// A wider window has the events of the narrower one.
pub fn events_of_a_wider_window()
    ensures law { (earlier before after later done : List Event) (e : Event) → Begins earlier before → Begins after later →
        StandsIn before after done e → StandsIn earlier later done e }
{}

/// A window of two pieces has the events of both, and no other.
pub fn events_of_two_pieces()
    ensures law { (before middle after done : List Event) (e : Event) → Begins before middle → Begins middle after →
        StandsIn before after done e ↔ (StandsIn before middle done e ⊎ StandsIn middle after done e) }
{}

/// A text that is live at each place of a window is not missing in it.
pub fn live_texts_are_not_missing()
    ensures law { (before after : List Event) (text : List ℕ) → IsLiveThroughout before after text → ¬ (IsMissing before after text) }
{}

/// In a window whose ends are one a text is missing where it is absent there.
pub fn missing_at_one_place()
    ensures law { (log : List Event) (text : List ℕ) → IsMissing log log text ↔ (entry_of (map_of log) text ≡ None) }
{}

/// By one more event a text is missing where it was, or where it is absent now.
pub fn missing_by_one_more_event()
    ensures law { (before after : List Event) (e : Event) (text : List ℕ) → Begins before after →
        IsMissing before (after ++ e ∷ []) text ↔ (IsMissing before after text ⊎ (entry_of (map_of (after ++ e ∷ [])) text ≡ None)) }
{}

/// What is missing in a window is missing in each wider one.
pub fn missing_in_a_wider_window()
    ensures law { (earlier before after later : List Event) (text : List ℕ) → Begins earlier before → Begins after later →
        IsMissing before after text → IsMissing earlier later text }
{}

#[cfg(test)]
mod tests {
    use super::*;

    #[test]
    fn laws_can_be_called() {
        beginning_of_a_beginning();
        places_of_a_window();
        ends_of_a_window();
        window_of_one_place();
        places_by_one_more_event();
        places_of_a_wider_window();
        places_of_two_pieces();
        events_of_a_window();
        no_event_in_a_window_of_one_place();
        events_by_one_more_event();
        events_of_a_wider_window();
        events_of_two_pieces();
        live_texts_are_not_missing();
        missing_at_one_place();
        missing_by_one_more_event();
        missing_in_a_wider_window();
    }
}
