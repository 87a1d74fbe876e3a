//! Laws of the seed: what the log's words say of it is what `Now` has.
//! Each function does nothing: its contract is the law.
ghost use Rattle.std.specs.Prelude.{◌≡◌, ℕ, ◌≤◌, false, List};
ghost use Rattle.std.specs.List.{list_any};
ghost use Rattle.intern_log.specs.declared.event.Event.{Event};
ghost use Rattle.intern_log.specs.declared.event.TableKind.{TableKind};
ghost use Rattle.intern_log.specs.declared.event.What.TheVariants.{Rehash};
ghost use Rattle.intern_log.specs.Now.{now_of};
ghost use Rattle.intern_log.specs.Lawful.{IsLawful};
ghost use Rattle.intern_log.specs.Sections.{with_event};
ghost use Rattle.intern_log.specs.Seeded.{seed_after};
ghost use Rattle.intern_log.specs.Touches.{is_rehash};

/// The seed is that of the last Rehash, or 0 where there is none.
pub fn seed_of_now()
    ensures law { (min_level : ℕ) (log : List Event) → (now_of min_level log).seed ≡ seed_after 0 log }
{}

/// Where there is no Rehash, the seed is 0.
pub fn seed_without_a_rehash()
    ensures law { (min_level : ℕ) (log : List Event) → list_any (λ (e : Event). is_rehash e.what) log ≡ false → (now_of min_level log).seed ≡ 0 }
{}

/// Else it is that of the last one.
pub fn seed_of_the_last_rehash()
    ensures law { (min_level : ℕ) (log front back : List Event) (k seed : ℕ) → log ≡ with_event front k (Rehash seed) back →
        list_any (λ (e : Event). is_rehash e.what) back ≡ false → (now_of min_level log).seed ≡ seed }
{}

/// In a lawful log the seed is at most 2.
pub fn seeds_are_at_most_2()
    ensures law { (table : TableKind) (log : List Event) → IsLawful table log → (now_of table.min_level log).seed ≤ 2 }
{}

#[cfg(test)]
mod tests {
    use super::*;

    #[test]
    fn laws_can_be_called() {
        seed_of_now();
        seed_without_a_rehash();
        seed_of_the_last_rehash();
        seeds_are_at_most_2();
    }
}
