//! What stays after an event: each part of what a log says is changed by few kinds of event, and every other leaves it.
//! Each function does nothing: its contract is the law.
ghost use Rattle.std.specs.Prelude.{◌≡◌, ℕ, false, List, [], ◌∷◌, ◌++◌};
ghost use Rattle.intern_log.specs.declared.event.Event.{Event};
ghost use Rattle.intern_log.specs.Log.{map_of};
ghost use Rattle.intern_log.specs.Own.{is_visible};
ghost use Rattle.intern_log.specs.Now.{Now, owner_of, now_after_event};
ghost use Rattle.intern_log.specs.Orderly.{is_grace};
ghost use Rattle.intern_log.specs.Touches.{touches_slot, touches_section, touches_lock, touches_owner, touches_resizing, is_level, is_rehash};

/// The phase of a slot, after an event that is no Create, Claim, Free or Unlink of it.
pub fn slot_stays()
    ensures law { (now : Now) (e : Event) (s : ℕ) → touches_slot s e.what ≡ false → (now_after_event now e).slot s ≡ now.slot s }
{}

/// The section of a number, after an event of another number, or one that is no Open or Close.
pub fn section_stays()
    ensures law { (now : Now) (e : Event) (k : ℕ) → touches_section k e.seat e.what ≡ false → (now_after_event now e).section k ≡ now.section k }
{}

/// The lock of a bucket, after an event that is no Lock or Unlock of it and no Level of another row's level.
pub fn lock_stays()
    ensures law { (now : Now) (e : Event) (row bucket : ℕ) → touches_lock row bucket e.what ≡ false → (now_after_event now e).lock row bucket ≡ now.lock row bucket }
{}

/// Who has the resize lock, after an event that is no ResizeTaken or ResizeGiven.
pub fn resize_owner_stays()
    ensures law { (now : Now) (e : Event) → touches_owner e.what ≡ false → owner_of (now_after_event now e).resizing ≡ owner_of now.resizing }
{}

/// All that is known of the resizing, after an event that is no Lock either.
pub fn resizing_stays()
    ensures law { (now : Now) (e : Event) → touches_resizing e.what ≡ false → (now_after_event now e).resizing ≡ now.resizing }
{}

/// The level, after an event that is no Level.
pub fn level_stays()
    ensures law { (now : Now) (e : Event) → is_level e.what ≡ false → (now_after_event now e).level ≡ now.level }
{}

/// The place after the last Level, after an event that is no Level.
pub fn since_stays()
    ensures law { (now : Now) (e : Event) → is_level e.what ≡ false → (now_after_event now e).since ≡ now.since }
{}

/// The number of graces, after an event that is no Grace.
pub fn graces_stay()
    ensures law { (now : Now) (e : Event) → is_grace e.what ≡ false → (now_after_event now e).graces ≡ now.graces }
{}

/// The seed, after an event that is no Rehash.
pub fn seed_stays()
    ensures law { (now : Now) (e : Event) → is_rehash e.what ≡ false → (now_after_event now e).seed ≡ now.seed }
{}

/// The map, after an event that callers do not see.
pub fn map_stays()
    ensures law { (log : List Event) (e : Event) → is_visible e.what ≡ false → map_of (log ++ e ∷ []) ≡ map_of log }
{}

/// The map in what a log says, after such an event.
pub fn texts_stay()
    ensures law { (now : Now) (e : Event) → is_visible e.what ≡ false → (now_after_event now e).texts ≡ now.texts }
{}

#[cfg(test)]
mod tests {
    use super::*;

    #[test]
    fn laws_can_be_called() {
        slot_stays();
        section_stays();
        lock_stays();
        resize_owner_stays();
        resizing_stays();
        level_stays();
        since_stays();
        graces_stay();
        seed_stays();
        map_stays();
        texts_stay();
    }
}
