//! Laws of the map after one event: what each kind of event that changes it makes of the entry of a text.
//! Each function does nothing: its contract is the law.
ghost use Rattle.std.specs.Prelude.{◌≡◌, ◌≢◌, ℕ, ◌+◌, ◌-◌, ◌<◌, List, Some, None};
ghost use Rattle.intern_log.specs.declared.event.Entry.{Entry};
ghost use Rattle.intern_log.specs.declared.event.Handle.{Handle};
ghost use Rattle.intern_log.specs.declared.event.What.TheVariants.{Create, Take, Found, Drop, Perm, Kill};
ghost use Rattle.intern_log.specs.TextMap.{TextMap, entry_of};
ghost use Rattle.intern_log.specs.Log.{next};

/// After a Create its text has an entry of its handle and count 1, and every other text has what it had.
pub fn map_after_a_create()
    ensures there { (m : TextMap) (text : List ℕ) (h : Handle) → entry_of (next m (Create text h)) text ≡ Some (record { handle = h; count = 1 }) }
    ensures elsewhere { (m : TextMap) (text : List ℕ) (h : Handle) (other : List ℕ) → other ≢ text → entry_of (next m (Create text h)) other ≡ entry_of m other }
{}

/// After a Take the count of its text is one more, and 65,535 stays; every other text has what it had.
pub fn map_after_a_take()
    ensures rises { (m : TextMap) (text : List ℕ) (h : Handle) (e : Entry) → entry_of m text ≡ Some e → e.count < 65535 →
        entry_of (next m (Take text h)) text ≡ Some (record { handle = e.handle; count = e.count + 1 }) }
    ensures stays { (m : TextMap) (text : List ℕ) (h : Handle) (e : Entry) → entry_of m text ≡ Some e → e.count ≡ 65535 → entry_of (next m (Take text h)) text ≡ Some e }
    ensures elsewhere { (m : TextMap) (text : List ℕ) (h : Handle) (other : List ℕ) → other ≢ text → entry_of (next m (Take text h)) other ≡ entry_of m other }
{}

/// After a Found the map is what it was.
pub fn map_after_a_found()
    ensures law { (m : TextMap) (text : List ℕ) (h : Handle) → next m (Found text h) ≡ m }
{}

/// After a Drop an entry of its handle has one count less, is gone where that was its last, and 65,535 stays; an entry of another handle stays.
pub fn map_after_a_drop()
    ensures falls { (m : TextMap) (text : List ℕ) (h : Handle) (e : Entry) → entry_of m text ≡ Some e → e.handle ≡ h → 1 < e.count → e.count < 65535 →
        entry_of (next m (Drop h)) text ≡ Some (record { handle = e.handle; count = e.count - 1 }) }
    ensures gone { (m : TextMap) (text : List ℕ) (h : Handle) (e : Entry) → entry_of m text ≡ Some e → e.handle ≡ h → e.count ≡ 1 → entry_of (next m (Drop h)) text ≡ None }
    ensures stays { (m : TextMap) (text : List ℕ) (h : Handle) (e : Entry) → entry_of m text ≡ Some e → e.handle ≡ h → e.count ≡ 65535 → entry_of (next m (Drop h)) text ≡ Some e }
    ensures elsewhere { (m : TextMap) (text : List ℕ) (h : Handle) (e : Entry) → entry_of m text ≡ Some e → e.handle ≢ h → entry_of (next m (Drop h)) text ≡ Some e }
{}

/// After a Perm an entry of its handle has count 65,535, and an entry of another handle stays.
pub fn map_after_a_perm()
    ensures there { (m : TextMap) (text : List ℕ) (h : Handle) (e : Entry) → entry_of m text ≡ Some e → e.handle ≡ h →
        entry_of (next m (Perm h)) text ≡ Some (record { handle = e.handle; count = 65535 }) }
    ensures elsewhere { (m : TextMap) (text : List ℕ) (h : Handle) (e : Entry) → entry_of m text ≡ Some e → e.handle ≢ h → entry_of (next m (Perm h)) text ≡ Some e }
{}

/// After a Kill an entry of its handle is gone, and an entry of another handle stays.
pub fn map_after_a_kill()
    ensures there { (m : TextMap) (text : List ℕ) (h : Handle) (e : Entry) → entry_of m text ≡ Some e → e.handle ≡ h → entry_of (next m (Kill h)) text ≡ None }
    ensures elsewhere { (m : TextMap) (text : List ℕ) (h : Handle) (e : Entry) → entry_of m text ≡ Some e → e.handle ≢ h → entry_of (next m (Kill h)) text ≡ Some e }
{}

/// A text that has no entry has none after a Drop, a Perm or a Kill.
pub fn no_entry_comes_back()
    ensures drop { (m : TextMap) (text : List ℕ) (h : Handle) → entry_of m text ≡ None → entry_of (next m (Drop h)) text ≡ None }
    ensures perm { (m : TextMap) (text : List ℕ) (h : Handle) → entry_of m text ≡ None → entry_of (next m (Perm h)) text ≡ None }
    ensures kill { (m : TextMap) (text : List ℕ) (h : Handle) → entry_of m text ≡ None → entry_of (next m (Kill h)) text ≡ None }
{}

#[cfg(test)]
mod tests {
    use super::*;

    #[test]
    fn laws_can_be_called() {
        map_after_a_create();
        map_after_a_take();
        map_after_a_found();
        map_after_a_drop();
        map_after_a_perm();
        map_after_a_kill();
        no_entry_comes_back();
    }
}
