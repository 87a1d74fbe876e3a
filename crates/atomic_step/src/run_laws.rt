//! Laws of runs, and worked runs of the monitors. Each function does nothing: its contract is the law.
ghost use Rattle.std.specs.Prelude.{◌≡◌, ◌+◌, ◌*◌, ℕ, List, [], ◌∷◌, ◌++◌, Some, None, true, false};
ghost use Rattle.intern_log.specs.declared.event.What.TheVariants as what;
ghost use Rattle.atomic_step.specs.Monitor.{after_all, section, slot, seen, locked, resize, graces};
ghost use Rattle.atomic_step.specs.WorkedRun.{adding};
ghost use Rattle.atomic_step.specs.Run.{AreFitting, after_words, events_of_words, cost_of_words};

/// A run is made word by word: its state, its events and its costs are those of each step after the other, and
/// each word has to fit where it is told.
pub fn runs_are_made_word_by_word()
    ensures state { after_words adding 1 (1 ∷ 0 ∷ 2 ∷ []) ≡ 4 }
    ensures events { events_of_words adding 1 (1 ∷ 0 ∷ 2 ∷ []) ≡ what.Open 1 ∷ what.Open 2 ∷ [] }
    ensures cost { cost_of_words adding (λ sum word. 10 * sum + word) 1 (1 ∷ 0 ∷ 2 ∷ []) ≡ 53 }
    ensures fitting { AreFitting adding 1 (1 ∷ 0 ∷ 2 ∷ []) }
    ensures first_unfit { ¬ (AreFitting adding 1 (2 ∷ 0 ∷ [])) }
    ensures last_unfit { ¬ (AreFitting adding 1 (1 ∷ 3 ∷ [])) }
{}

/// Sections are opened and closed in turn.
pub fn sections_come_in_turn()
    ensures pair { after_all section (Some false) (what.Open 4 ∷ what.Claim 1 ∷ what.Close ∷ []) ≡ Some false }
    ensures open { after_all section (Some false) (what.Open 4 ∷ []) ≡ Some true }
    ensures opened_twice { after_all section (Some false) (what.Open 4 ∷ what.Open 4 ∷ []) ≡ None }
    ensures closed_twice { after_all section (Some false) (what.Open 4 ∷ what.Close ∷ what.Close ∷ []) ≡ None }
{}

/// A slot that was claimed is given back, or has an entry created in it, before the next one is claimed.
pub fn claims_come_in_turn()
    ensures created { after_all slot (Some None) (what.Claim 3 ∷ what.Create (97 ∷ []) (record { slot = 3; generation = 2 }) ∷ []) ≡ Some None }
    ensures given_back { after_all slot (Some None) (what.Claim 3 ∷ what.Open 4 ∷ what.Free 3 ∷ what.Claim 5 ∷ []) ≡ Some (Some 5) }
    ensures claimed_twice { after_all slot (Some None) (what.Claim 3 ∷ what.Claim 5 ∷ []) ≡ None }
    ensures another_freed { after_all slot (Some None) (what.Claim 3 ∷ what.Free 5 ∷ []) ≡ None }
    ensures none_freed { after_all slot (Some None) (what.Free 3 ∷ []) ≡ None }
    ensures created_in_another { after_all slot (Some None) (what.Claim 3 ∷ what.Create (97 ∷ []) (record { slot = 4; generation = 2 }) ∷ []) ≡ None }
    ensures created_in_none { after_all slot (Some None) (what.Create (97 ∷ []) (record { slot = 3; generation = 2 }) ∷ []) ≡ None }
{}

/// A bucket is locked once before it is unlocked.
pub fn locks_come_in_turn()
    ensures pair { after_all locked (Some []) (what.Lock 3 1 ∷ what.Lock 4 1 ∷ what.Unlock 3 1 ∷ []) ≡ Some ((4, 1) ∷ []) }
    ensures locked_twice { after_all locked (Some []) (what.Lock 3 1 ∷ what.Lock 3 1 ∷ []) ≡ None }
    ensures another_unlocked { after_all locked (Some []) (what.Lock 3 1 ∷ what.Unlock 3 2 ∷ []) ≡ None }
    ensures level { after_all locked (Some []) (what.Lock 3 1 ∷ what.Level 4 ∷ []) ≡ Some ((3, 1) ∷ []) }
{}

/// The resize lock is taken and given back in turn, and the level is stored between the two.
pub fn resize_locks_come_in_turn()
    ensures pair { after_all resize (Some false) (what.ResizeTaken ∷ what.Level 4 ∷ what.ResizeGiven ∷ []) ≡ Some false }
    ensures taken_twice { after_all resize (Some false) (what.ResizeTaken ∷ what.ResizeTaken ∷ []) ≡ None }
    ensures given_twice { after_all resize (Some true) (what.ResizeGiven ∷ what.ResizeGiven ∷ []) ≡ None }
    ensures level { after_all resize (Some false) (what.Level 4 ∷ []) ≡ None }
{}

/// Events that callers see are collected in their order, and graces are counted.
pub fn events_are_collected_and_counted()
    ensures seen { after_all seen (Some []) (what.Open 4 ∷ what.Drop (record { slot = 3; generation = 2 }) ∷ what.Close ∷ what.Kill (record { slot = 5; generation = 1 }) ∷ [])
        ≡ Some (what.Drop (record { slot = 3; generation = 2 }) ∷ what.Kill (record { slot = 5; generation = 1 }) ∷ []) }
    ensures graces { after_all graces (Some 1) (what.Grace ∷ what.Unlink 3 ∷ what.Grace ∷ []) ≡ Some 3 }
{}
