//! What changes: each kind of event that may change a part of what a log says does change it somewhere. The laws of what
//! stays say that no other event does.
//! Each function does nothing: its contract is the law.
ghost use Rattle.std.specs.Prelude.{◌≡◌, ℕ, ◌↔◌, ◌⊎◌, true};
ghost use Rattle.intern_log.specs.declared.event.What.{What};
ghost use Rattle.intern_log.specs.declared.event.What.TheVariants.{Lock, Unlock, Level};
ghost use Rattle.intern_log.specs.Now.{Now, owner_of, now_after_event};
ghost use Rattle.intern_log.specs.Orderly.{is_grace};
ghost use Rattle.intern_log.specs.Touches.{touches_slot, touches_section, touches_lock, touches_owner, touches_resizing, is_level, is_rehash};

/// A Create, Claim, Free or Unlink of a slot changes its phase somewhere.
pub fn slot_changes()
    ensures law { (s seat : ℕ) (what : What) → touches_slot s what ≡ true →
        (now : Now) × ¬ ((now_after_event now (record { seat = seat; what = what })).slot s ≡ now.slot s) }
{}

/// An Open or Close of a number changes its section somewhere.
pub fn section_changes()
    ensures law { (k seat : ℕ) (what : What) → touches_section k seat what ≡ true →
        (now : Now) × ¬ ((now_after_event now (record { seat = seat; what = what })).section k ≡ now.section k) }
{}

/// A Lock or Unlock of a bucket, and a Level of another row's level, changes its lock somewhere.
pub fn lock_changes()
    ensures law { (row bucket seat : ℕ) (what : What) → touches_lock row bucket what ≡ true →
        (now : Now) × ¬ ((now_after_event now (record { seat = seat; what = what })).lock row bucket ≡ now.lock row bucket) }
{}

/// These are the events that touch a lock.
pub fn events_that_touch_a_lock()
    ensures law { (row bucket : ℕ) (what : What) →
        (touches_lock row bucket what ≡ true) ↔ ((what ≡ Lock row bucket) ⊎ (what ≡ Unlock row bucket) ⊎ ((level : ℕ) × (what ≡ Level level) × ¬ (level ≡ row))) }
{}

/// A ResizeTaken or ResizeGiven changes somewhere who has the resize lock.
pub fn resize_owner_changes()
    ensures law { (seat : ℕ) (what : What) → touches_owner what ≡ true →
        (now : Now) × ¬ (owner_of (now_after_event now (record { seat = seat; what = what })).resizing ≡ owner_of now.resizing) }
{}

/// One of these or a Lock changes somewhere what is known of the resizing.
pub fn resizing_changes()
    ensures law { (seat : ℕ) (what : What) → touches_resizing what ≡ true →
        (now : Now) × ¬ ((now_after_event now (record { seat = seat; what = what })).resizing ≡ now.resizing) }
{}

/// A Level changes the level somewhere.
pub fn level_changes()
    ensures law { (seat : ℕ) (what : What) → is_level what ≡ true →
        (now : Now) × ¬ ((now_after_event now (record { seat = seat; what = what })).level ≡ now.level) }
{}

/// A Level changes the place after the last Level somewhere.
pub fn since_changes()
    ensures law { (seat : ℕ) (what : What) → is_level what ≡ true →
        (now : Now) × ¬ ((now_after_event now (record { seat = seat; what = what })).since ≡ now.since) }
{}

/// A Grace changes the number of graces somewhere.
pub fn graces_change()
    ensures law { (seat : ℕ) (what : What) → is_grace what ≡ true →
        (now : Now) × ¬ ((now_after_event now (record { seat = seat; what = what })).graces ≡ now.graces) }
{}

/// A Rehash changes the seed somewhere.
pub fn seed_changes()
    ensures law { (seat : ℕ) (what : What) → is_rehash what ≡ true →
        (now : Now) × ¬ ((now_after_event now (record { seat = seat; what = what })).seed ≡ now.seed) }
{}

#[cfg(test)]
mod tests {
    use super::*;

    #[test]
    fn laws_can_be_called() {
        slot_changes();
        section_changes();
        lock_changes();
        events_that_touch_a_lock();
        resize_owner_changes();
        resizing_changes();
        level_changes();
        since_changes();
        graces_change();
        seed_changes();
    }
}
