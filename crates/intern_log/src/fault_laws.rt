//! Laws of the first fault of a log, and of the Creates that a log reaches.
//! Each function does nothing: its contract is the law.
ghost use Rattle.std.specs.Prelude.{◌≡◌, ◌↔◌, ℕ, ◌+◌, ◌<◌, List, ◌++◌, length, take};
ghost use Rattle.intern_log.specs.declared.event.Event.{Event};
ghost use Rattle.intern_log.specs.declared.event.TableKind.{TableKind};
ghost use Rattle.intern_log.specs.Counts.{is_create, events_in};
ghost use Rattle.intern_log.specs.Faults.{IsFirstFault, IsNotAllowedAt, ReachesCreate};
ghost use Rattle.intern_log.specs.Lawful.{IsLawful};
ghost use Rattle.intern_log.specs.Log.{IsLegal};

/// A place is the first fault where the events before it are as they should be, and are not with the event there.
pub fn place_of_the_first_fault()
    ensures legal { (log : List Event) (n : ℕ) → IsFirstFault IsLegal log n ↔ ((n < length log) × IsLegal (take n log) × ¬ (IsLegal (take (n + 1) log))) }
    ensures lawful { (table : TableKind) (log : List Event) (n : ℕ) →
        IsFirstFault (IsLawful table) log n ↔ ((n < length log) × IsLawful table (take n log) × ¬ (IsLawful table (take (n + 1) log))) }
{}

/// A log has one first fault at most.
pub fn first_fault_is_one()
    ensures legal { (log : List Event) (n m : ℕ) → IsFirstFault IsLegal log n → IsFirstFault IsLegal log m → n ≡ m }
    ensures lawful { (table : TableKind) (log : List Event) (n m : ℕ) → IsFirstFault (IsLawful table) log n → IsFirstFault (IsLawful table) log m → n ≡ m }
{}

/// The first fault of a log that should be legal is the place of an event that is not allowed, after a legal beginning.
pub fn first_fault_is_not_allowed()
    ensures law { (log : List Event) (n : ℕ) → IsFirstFault IsLegal log n ↔ (IsLegal (take n log) × IsNotAllowedAt log n) }
{}

/// A log reaches a Create where some beginning of it is as it should be and has a Create.
pub fn creates_that_are_reached()
    ensures legal { (log : List Event) → ReachesCreate IsLegal log ↔ ((front back : List Event) × (log ≡ front ++ back) × IsLegal front × (0 < events_in is_create front)) }
    ensures lawful { (table : TableKind) (log : List Event) →
        ReachesCreate (IsLawful table) log ↔ ((front back : List Event) × (log ≡ front ++ back) × IsLawful table front × (0 < events_in is_create front)) }
{}

#[cfg(test)]
mod tests {
    use super::*;

    #[test]
    fn laws_can_be_called() {
        place_of_the_first_fault();
        first_fault_is_one();
        first_fault_is_not_allowed();
        creates_that_are_reached();
    }
}
