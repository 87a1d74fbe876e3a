//! Laws of what a lawful log says at its end: each part of `Now`, in the log's own words.
//! The map, the place and the level have theirs in `lawful_logs`, `event_laws` and `resize_laws`.
//! Each function does nothing: its contract is the law.
ghost use Rattle.std.specs.Prelude.{◌≡◌, ◌↔◌, ℕ, List, Some, None};
ghost use Rattle.intern_log.specs.declared.event.Event.{Event};
ghost use Rattle.intern_log.specs.declared.event.Handle.{Handle};
ghost use Rattle.intern_log.specs.declared.event.TableKind.{TableKind};
ghost use Rattle.intern_log.specs.Counts.{events_in};
ghost use Rattle.intern_log.specs.Now.{Vacant, Claimed, Linked, Unlinked, OpenSection, Resizing, owner_of, now_of};
ghost use Rattle.intern_log.specs.Lawful.{IsLawful};
ghost use Rattle.intern_log.specs.Sections.{IsOpenAs, IsOpenIn, IsTakenIn, IsClaimedBy, IsLinkedAt, IsUnlinkedAt};
ghost use Rattle.intern_log.specs.Orderly.{is_grace, HasResizeLock, IsLockedBy, IsResizingAs};

/// A slot is vacant where it was not claimed, or was freed since.
pub fn vacant_slot_of_now()
    ensures law { (table : TableKind) (log : List Event) (s : ℕ) → IsLawful table log →
        (now_of table.min_level log).slot s ≡ Vacant ↔ ¬ (IsTakenIn log s) }
{}

/// It is claimed by the seat that claimed it, where it was neither created in nor freed since.
pub fn claimed_slot_of_now()
    ensures law { (table : TableKind) (log : List Event) (s seat : ℕ) → IsLawful table log →
        (now_of table.min_level log).slot s ≡ Claimed seat ↔ IsClaimedBy log s seat }
{}

/// It is linked with the text, the handle and the place of its last Create, where it was not unlinked since.
pub fn linked_slot_of_now()
    ensures law { (table : TableKind) (log : List Event) (s : ℕ) (text : List ℕ) (h : Handle) (born : ℕ) → IsLawful table log →
        (now_of table.min_level log).slot s ≡ Linked text h born ↔ IsLinkedAt log s text h born }
{}

/// It is unlinked by the seat and at the place of its last Unlink, where it was not freed since.
pub fn unlinked_slot_of_now()
    ensures law { (table : TableKind) (log : List Event) (s seat place : ℕ) → IsLawful table log →
        (now_of table.min_level log).slot s ≡ Unlinked seat place ↔ IsUnlinkedAt log s seat place }
{}

/// The open section of a number has the place and the counter of its Open with no later Close.
pub fn section_of_now()
    ensures law { (table : TableKind) (log : List Event) (k : ℕ) (o : OpenSection) → IsLawful table log →
        (now_of table.min_level log).section k ≡ Some o ↔ IsOpenAs log k o.place o.counter }
{}

/// A number has none where there is no such Open.
pub fn no_section_of_now()
    ensures law { (table : TableKind) (log : List Event) (k : ℕ) → IsLawful table log →
        (now_of table.min_level log).section k ≡ None ↔ ¬ (IsOpenIn log k) }
{}

/// The lock of a bucket is had by the number that locked it, where nothing ended that since.
pub fn lock_of_now()
    ensures law { (table : TableKind) (log : List Event) (row bucket k : ℕ) → IsLawful table log →
        (now_of table.min_level log).lock row bucket ≡ Some k ↔ IsLockedBy log row bucket k }
{}

/// A bucket is not locked where nobody has its lock.
pub fn no_lock_of_now()
    ensures law { (table : TableKind) (log : List Event) (row bucket : ℕ) → IsLawful table log →
        (now_of table.min_level log).lock row bucket ≡ None ↔ ((k : ℕ) → ¬ (IsLockedBy log row bucket k)) }
{}

/// The resizing has the seat and the place of the ResizeTaken with no later ResizeGiven, the level there, and whether its seat has locked a bucket of another row since.
pub fn resizing_of_now()
    ensures law { (table : TableKind) (log : List Event) (r : Resizing) → IsLawful table log →
        (now_of table.min_level log).resizing ≡ Some r ↔ IsResizingAs table.min_level log r.seat r.place r.level r.replacing }
{}

/// The owner of the resizing is who has the resize lock.
pub fn resize_owner_of_now()
    ensures law { (table : TableKind) (log : List Event) (k : ℕ) → IsLawful table log →
        owner_of (now_of table.min_level log).resizing ≡ Some k ↔ HasResizeLock log k }
{}

/// There is no resizing where nobody has the resize lock.
pub fn no_resizing_of_now()
    ensures law { (table : TableKind) (log : List Event) → IsLawful table log →
        (now_of table.min_level log).resizing ≡ None ↔ ((k : ℕ) → ¬ (HasResizeLock log k)) }
{}

/// The graces are the number of the log's Graces.
pub fn graces_of_now()
    ensures law { (min_level : ℕ) (log : List Event) → (now_of min_level log).graces ≡ events_in is_grace log }
{}

#[cfg(test)]
mod tests {
    use super::*;

    #[test]
    fn laws_can_be_called() {
        vacant_slot_of_now();
        claimed_slot_of_now();
        linked_slot_of_now();
        unlinked_slot_of_now();
        section_of_now();
        no_section_of_now();
        lock_of_now();
        no_lock_of_now();
        resizing_of_now();
        resize_owner_of_now();
        no_resizing_of_now();
        graces_of_now();
    }
}
