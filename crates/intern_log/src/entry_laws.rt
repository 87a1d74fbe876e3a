//! Laws of entries: the entry that a Create makes, what a Take, a Drop and a Perm make of one, and where an entry stands in a map.
//! Each function does nothing: its contract is the law.
ghost use Rattle.std.specs.Prelude.{◌≡◌, ◌≢◌, ◌↔◌, ◌+◌, ◌-◌, ◌<◌, ℕ, true, List, Option, Some, None};
ghost use Rattle.std.specs.List.{Contains};
ghost use Rattle.intern_log.specs.declared.event.Entry.{Entry};
ghost use Rattle.intern_log.specs.declared.event.Handle.{Handle};
ghost use Rattle.intern_log.specs.TextMap.{TextMap, no_texts, entry_of, handle_eq, HasHandle, IsLive, live_texts, put_at, alter, at_handle};
ghost use Rattle.intern_log.specs.Log.{new_entry, raised, lowered, made_permanent, HandlesDiffer};

/// A new entry has its handle and count 1.
pub fn new_entry_is_counted_once()
    ensures law { (h : Handle) → new_entry h ≡ record { handle = h; count = 1 } }
{}

/// A count below 65,535 rises by one, and 65,535 stays.
pub fn count_that_is_raised()
    ensures rises { (e : Entry) → e.count < 65535 → raised e ≡ record { handle = e.handle; count = e.count + 1 } }
    ensures stays { (e : Entry) → e.count ≡ 65535 → raised e ≡ e }
{}

/// A count between 1 and 65,535 falls by one, an entry of count 1 is gone, and 65,535 stays.
pub fn count_that_is_lowered()
    ensures falls { (e : Entry) → 1 < e.count → e.count < 65535 → lowered e ≡ Some (record { handle = e.handle; count = e.count - 1 }) }
    ensures gone { (e : Entry) → e.count ≡ 1 → lowered e ≡ None }
    ensures stays { (e : Entry) → e.count ≡ 65535 → lowered e ≡ Some e }
{}

/// A permanent entry has count 65,535, and its handle.
pub fn count_that_is_permanent()
    ensures law { (e : Entry) → made_permanent e ≡ record { handle = e.handle; count = 65535 } }
{}

/// Two handles are the same where their slots are and their generations are.
pub fn handles_are_their_numbers()
    ensures law { (a b : Handle) → (handle_eq a b ≡ true) ↔ ((a.slot ≡ b.slot) × (a.generation ≡ b.generation)) }
{}

/// A change at a handle changes an entry with that handle, and leaves every other.
pub fn change_at_a_handle()
    ensures there { (h : Handle) (change : Entry → Option Entry) (e : Entry) → e.handle ≡ h → at_handle h change e ≡ change e }
    ensures elsewhere { (h : Handle) (change : Entry → Option Entry) (e : Entry) → e.handle ≢ h → at_handle h change e ≡ Some e }
{}

/// At first no text has an entry.
pub fn no_entry_at_first()
    ensures law { (text : List ℕ) → entry_of no_texts text ≡ None }
{}

/// What was put at a text is there, and every other text has what it had.
pub fn entry_that_was_put()
    ensures there { (m : TextMap) (text : List ℕ) (put : Option Entry) → entry_of (put_at m text put) text ≡ put }
    ensures elsewhere { (m : TextMap) (text : List ℕ) (put : Option Entry) (other : List ℕ) → other ≢ text → entry_of (put_at m text put) other ≡ entry_of m other }
{}

/// A change of each entry leaves at a text what it makes of the entry there, and nothing where there is none.
pub fn entry_that_was_altered()
    ensures some { (m : TextMap) (change : Entry → Option Entry) (text : List ℕ) (e : Entry) → entry_of m text ≡ Some e → entry_of (alter change m) text ≡ change e }
    ensures none { (m : TextMap) (change : Entry → Option Entry) (text : List ℕ) → entry_of m text ≡ None → entry_of (alter change m) text ≡ None }
{}

/// A text has a handle where it has an entry of that handle and of some count.
pub fn texts_that_have_a_handle()
    ensures law { (m : TextMap) (text : List ℕ) (h : Handle) → HasHandle m text h ↔ ((n : ℕ) × (entry_of m text ≡ Some (record { handle = h; count = n }))) }
{}

/// A handle is live where some text has an entry of it.
pub fn handles_that_are_live()
    ensures law { (m : TextMap) (h : Handle) → IsLive m h ↔ ((text : List ℕ) × (n : ℕ) × (entry_of m text ≡ Some (record { handle = h; count = n }))) }
{}

/// The live texts are those that have an entry.
pub fn texts_that_are_live()
    ensures law { (m : TextMap) (text : List ℕ) → Contains (live_texts m) text ↔ ((e : Entry) × (entry_of m text ≡ Some e)) }
{}

/// Handles differ where no two texts have entries of one handle.
pub fn handles_that_differ()
    ensures law { (m : TextMap) → HandlesDiffer m ↔ ((text other : List ℕ) (e f : Entry) →
        entry_of m text ≡ Some e → entry_of m other ≡ Some f → e.handle ≡ f.handle → text ≡ other) }
{}

#[cfg(test)]
mod tests {
    use super::*;

    #[test]
    fn laws_can_be_called() {
        new_entry_is_counted_once();
        count_that_is_raised();
        count_that_is_lowered();
        count_that_is_permanent();
        handles_are_their_numbers();
        change_at_a_handle();
        no_entry_at_first();
        entry_that_was_put();
        entry_that_was_altered();
        texts_that_have_a_handle();
        handles_that_are_live();
        texts_that_are_live();
        handles_that_differ();
    }
}
