//! Laws of buckets at a place of a log.
//! Each function does nothing: its contract is the law.
ghost use Rattle.std.specs.Prelude.{◌≡◌, ℕ, ◌<◌, ◌^◌, false, List, ◌∷◌, Some};
ghost use Rattle.intern_log.specs.declared.event.Event.{Event};
ghost use Rattle.intern_log.specs.declared.event.Handle.{Handle};
ghost use Rattle.intern_log.specs.declared.event.TableKind.{TableKind};
ghost use Rattle.intern_log.specs.declared.event.What.TheVariants.{Unlink, Rehash};
ghost use Rattle.intern_log.specs.Buckets.{bucket_of};
ghost use Rattle.intern_log.specs.Lawful.{IsLawful};
ghost use Rattle.intern_log.specs.Now.{Now, Linked, now_after_event, now_of};
ghost use Rattle.intern_log.specs.Sections.{with_event, IsLinkedAs};
ghost use Rattle.intern_log.specs.SlotBuckets.{bucket_now, slot_bucket, IsUnlinkOn};
ghost use Rattle.intern_log.specs.Touches.{touches_slot, is_rehash};

/// A bucket is one of its row.
pub fn bucket_is_in_its_row()
    ensures law { (now : Now) (row : ℕ) (text : List ℕ) → bucket_now now row text < 2 ^ row }
{}

/// The bucket of a text at a place is the one by the seed there.
pub fn bucket_is_that_of_the_seed()
    ensures law { (now : Now) (row : ℕ) (text : List ℕ) → bucket_now now row text ≡ bucket_of now.seed row text }
{}

/// The bucket of a slot that is in a chain is that of its text.
pub fn bucket_of_a_linked_slot()
    ensures law { (now : Now) (row s : ℕ) (text : List ℕ) (h : Handle) (born : ℕ) → now.slot s ≡ Linked text h born →
        slot_bucket now row s ≡ Some (bucket_now now row text) }
{}

/// An event that is no Rehash, and no Create, Claim, Free or Unlink of a slot, leaves its bucket.
pub fn bucket_of_a_slot_stays()
    ensures law { (now : Now) (e : Event) (row s : ℕ) → touches_slot s e.what ≡ false → is_rehash e.what ≡ false →
        slot_bucket (now_after_event now e) row s ≡ slot_bucket now row s }
{}

/// After a Rehash the bucket of a slot that is in a chain is that of its text by the new seed.
pub fn bucket_of_a_slot_after_a_rehash()
    ensures law { (now : Now) (k seed row s : ℕ) (text : List ℕ) (h : Handle) (born : ℕ) → now.slot s ≡ Linked text h born →
        slot_bucket (now_after_event now (record { seat = k; what = Rehash seed })) row s ≡ Some (bucket_of seed row text) }
{}

/// In a lawful log each Unlink is on the bucket of the text with which its slot was linked.
pub fn unlinks_are_on_the_bucket_of_their_text()
    ensures law { (table : TableKind) (log front back : List Event) (seat s row : ℕ) → IsLawful table log → log ≡ with_event front seat (Unlink s) back →
        (text : List ℕ) × (h : Handle) × IsLinkedAs front s text h
        × IsUnlinkOn (now_of table.min_level front) row (bucket_now (now_of table.min_level front) row text) (Unlink s) }
{}

#[cfg(test)]
mod tests {
    use super::*;

    #[test]
    fn laws_can_be_called() {
        bucket_is_in_its_row();
        bucket_is_that_of_the_seed();
        bucket_of_a_linked_slot();
        bucket_of_a_slot_stays();
        bucket_of_a_slot_after_a_rehash();
        unlinks_are_on_the_bucket_of_their_text();
    }
}
