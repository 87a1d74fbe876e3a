//! Laws of lawful logs: each sentence that a reader believes, from the one definition that proofs work with.
//! Each function does nothing: its contract is the law.
ghost use Rattle.std.specs.Prelude.{◌≡◌, ◌↔◌, ℕ, ◌<◌, true, List, ◌++◌};
ghost use Rattle.std.specs.List.{list_any};
ghost use Rattle.intern_log.specs.declared.event.Event.{Event};
ghost use Rattle.intern_log.specs.declared.event.Handle.{Handle};
ghost use Rattle.intern_log.specs.declared.event.Kind.TheVariants.{Counted};
ghost use Rattle.intern_log.specs.TextMap.{IsLive};
ghost use Rattle.intern_log.specs.Log.{map_of, creates, IsLegal};
ghost use Rattle.intern_log.specs.Own.{gains, losses};
ghost use Rattle.intern_log.specs.Now.{now_of};
ghost use Rattle.intern_log.specs.declared.event.TableKind.{TableKind};
ghost use Rattle.intern_log.specs.Lawful.{IsLawful};
ghost use Rattle.intern_log.specs.Sections.{IsGraced, IsCareful, IsCreatedByItsClaimer, IsFreedByItsOwner};
ghost use Rattle.intern_log.specs.Orderly.{IsOrderly};
ghost use Rattle.intern_log.specs.Seeded.{IsSeeded};
ghost use Rattle.intern_log.specs.Rules.{KeepsTheRules};
ghost use Rattle.intern_log.specs.Ledger.{MeetsLedger};

/// A lawful log is legal.
pub fn lawful_logs_are_legal()
    ensures law { (table : TableKind) (log : List Event) → IsLawful table log → IsLegal log }
{}

/// The map of what a log says at its end is the log's map.
pub fn texts_of_now()
    ensures law { (min_level : ℕ) (log : List Event) → (now_of min_level log).texts ≡ map_of log }
{}

/// What begins a lawful log is lawful.
pub fn prefix_of_a_lawful_log()
    ensures law { (table : TableKind) (front rest : List Event) → IsLawful table (front ++ rest) → IsLawful table front }
{}

/// In a lawful log a slot is freed only after every section open at its unlinking has closed.
pub fn lawful_logs_are_graced()
    ensures law { (table : TableKind) (log : List Event) → IsLawful table log → IsGraced log }
{}

/// In a lawful log a slot is unlinked only where its entry is gone.
pub fn lawful_logs_are_careful()
    ensures law { (table : TableKind) (log : List Event) → IsLawful table log → IsCareful log }
{}

/// In a lawful log sections, locks, levels and kinds are in order.
pub fn lawful_logs_are_orderly()
    ensures law { (table : TableKind) (log : List Event) → IsLawful table log → IsOrderly table log }
{}

/// In a lawful log the seed rises one by one, by number 0, and only where nothing is going on.
pub fn lawful_logs_are_seeded()
    ensures law { (table : TableKind) (log : List Event) → IsLawful table log → IsSeeded log }
{}

/// In a lawful log an entry is created only in a slot that its own seat claimed.
pub fn lawful_logs_create_in_claimed_slots()
    ensures law { (table : TableKind) (log : List Event) → IsLawful table log → IsCreatedByItsClaimer log }
{}

/// In a lawful log a slot is freed by the seat that claimed or unlinked it.
pub fn lawful_logs_free_by_the_owner()
    ensures law { (table : TableKind) (log : List Event) → IsLawful table log → IsFreedByItsOwner log }
{}

/// Lawful logs are exactly those that keep all these rules.
pub fn lawful_logs_keep_exactly_the_rules()
    ensures law { (table : TableKind) (log : List Event) → IsLawful table log ↔ KeepsTheRules table log }
{}

/// In a lawful Counted log the count of an entry is what all callers hold.
pub fn lawful_logs_meet_the_ledger()
    ensures law { (table : TableKind) (log : List Event) → table.kind ≡ Counted → IsLawful table log → MeetsLedger log }
{}

/// In a lawful Counted log a handle that was gained more often than lost is live.
pub fn held_handles_are_live()
    ensures law { (table : TableKind) (log : List Event) (h : Handle) → table.kind ≡ Counted → IsLawful table log → losses log h < gains log h → IsLive (map_of log) h }
{}

/// In a lawful log a handle that was created and is gone never comes back.
pub fn gone_handles_never_come_back()
    ensures law { (table : TableKind) (front rest : List Event) (h : Handle) → IsLawful table (front ++ rest) →
        list_any (λ (e : Event). creates e.what h) front ≡ true → ¬ (IsLive (map_of front) h) → ¬ (IsLive (map_of (front ++ rest)) h) }
{}

#[cfg(test)]
mod tests {
    use super::*;

    #[test]
    fn laws_can_be_called() {
        lawful_logs_are_legal();
        texts_of_now();
        prefix_of_a_lawful_log();
        lawful_logs_are_graced();
        lawful_logs_are_careful();
        lawful_logs_are_orderly();
        lawful_logs_are_seeded();
        lawful_logs_create_in_claimed_slots();
        lawful_logs_free_by_the_owner();
        lawful_logs_keep_exactly_the_rules();
        lawful_logs_meet_the_ledger();
        held_handles_are_live();
        gone_handles_never_come_back();
    }
}
