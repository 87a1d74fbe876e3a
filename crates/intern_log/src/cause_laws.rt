//! Laws of the events on one handle and on one bucket, of events by others, and of locks with their places.
//! Each function does nothing: its contract is the law.
ghost use Rattle.std.specs.Prelude.{◌≡◌, ℕ, ◌↔◌, ◌⊎◌, true, false, List, [], ◌∷◌, ◌++◌, length, Some, None};
ghost use Rattle.intern_log.specs.declared.event.Event.{Event};
ghost use Rattle.intern_log.specs.declared.event.Handle.{Handle};
ghost use Rattle.intern_log.specs.declared.event.TableKind.{TableKind};
ghost use Rattle.intern_log.specs.declared.event.What.{What};
ghost use Rattle.intern_log.specs.declared.event.What.TheVariants.{Lock};
ghost use Rattle.intern_log.specs.Own.{is_visible, is_gain, is_loss};
ghost use Rattle.intern_log.specs.Now.{Now, now_after_event};
ghost use Rattle.intern_log.specs.Lawful.{MayFollow};
ghost use Rattle.intern_log.specs.Orderly.{ends_lock, IsLockedAt};
ghost use Rattle.intern_log.specs.Touches.{is_level};
ghost use Rattle.intern_log.specs.CauseEvents.{IsVisibleOn, IsCreateUnlinkOrLockOn, IsCreateLockOrUnlockOn, JoinsChain, LeavesChain};

/// Callers see an event exactly where it is on a handle.
pub fn visible_events_are_on_a_handle()
    ensures law { (what : What) → (is_visible what ≡ true) ↔ ((h : Handle) × IsVisibleOn h what) }
{}

/// That handle is one.
pub fn visible_events_are_on_one_handle()
    ensures law { (what : What) (h k : Handle) → IsVisibleOn h what → IsVisibleOn k what → h ≡ k }
{}

/// An event that gives its caller a hold on a handle is on the handle.
pub fn gains_are_on_their_handle()
    ensures law { (what : What) (h : Handle) → is_gain what h ≡ true → IsVisibleOn h what }
{}

/// An event that takes a hold on a handle away is on the handle.
pub fn losses_are_on_their_handle()
    ensures law { (what : What) (h : Handle) → is_loss what h ≡ true → IsVisibleOn h what }
{}

/// An event that may follow is a Create, an Unlink or a Lock on a bucket exactly where it puts a slot into the bucket's
/// chain, takes one out, or sets the bucket's lock.
pub fn create_unlink_or_lock_on_a_bucket()
    ensures law { (table : TableKind) (now : Now) (e : Event) (row bucket : ℕ) → MayFollow table now e.seat e.what →
        IsCreateUnlinkOrLockOn now row bucket e.what
        ↔ (JoinsChain now e row bucket ⊎ LeavesChain now e row bucket ⊎ ((now.lock row bucket ≡ None) × ((now_after_event now e).lock row bucket ≡ Some e.seat))) }
{}

/// An event that may follow and is no Level is a Create, a Lock or an Unlock on a bucket exactly where it puts a slot into
/// the bucket's chain or changes the bucket's lock.
pub fn create_lock_or_unlock_on_a_bucket()
    ensures law { (table : TableKind) (now : Now) (e : Event) (row bucket : ℕ) → MayFollow table now e.seat e.what → is_level e.what ≡ false →
        IsCreateLockOrUnlockOn now row bucket e.what ↔ (JoinsChain now e row bucket ⊎ ¬ ((now_after_event now e).lock row bucket ≡ now.lock row bucket)) }
{}

/// No bucket is locked before the first event.
pub fn no_lock_at_first()
    ensures law { (row bucket k place : ℕ) → ¬ (IsLockedAt [] row bucket k place) }
{}

/// By one more event a lock stays at its place unless the event ends it, and a Lock is one at its own place.
pub fn locks_by_one_more_event()
    ensures law { (log : List Event) (e : Event) (row bucket k place : ℕ) →
        IsLockedAt (log ++ e ∷ []) row bucket k place
        ↔ ((IsLockedAt log row bucket k place × (ends_lock row bucket e.what ≡ false)) ⊎ ((e ≡ record { seat = k; what = Lock row bucket }) × (place ≡ length log))) }
{}

#[cfg(test)]
mod tests {
    use super::*;

    #[test]
    fn laws_can_be_called() {
        visible_events_are_on_a_handle();
        visible_events_are_on_one_handle();
        gains_are_on_their_handle();
        losses_are_on_their_handle();
        create_unlink_or_lock_on_a_bucket();
        create_lock_or_unlock_on_a_bucket();
        no_lock_at_first();
        locks_by_one_more_event();
    }
}
