//! Laws of how many steps a call makes.
//! Each function does nothing: its contract is the law.
ghost use Rattle.std.specs.Prelude.{◌≡◌, ℕ, ◌<◌, ◌≤◌, ◌^◌, ◌⊎◌, true, false, List, [], ◌∷◌, length};
ghost use Rattle.atomic_step.specs.declared.answer.Answer.{Answer};
ghost use Rattle.atomic_step.specs.declared.answer.Answer.TheVariants as answer;
ghost use Rattle.atomic_step.specs.declared.plan.Plan.TheVariants as plan;
ghost use Rattle.atomic_step.specs.Run.{AreFitting, after_words};
ghost use Rattle.call_machine.specs.declared.clean.CleanAlong.{CleanAlong};
ghost use Rattle.call_machine.specs.declared.clean.CleanStage.{CleanStage};
ghost use Rattle.call_machine.specs.declared.clean.CleanStage.TheVariants as clean;
ghost use Rattle.call_machine.specs.declared.lock.LockStage.TheVariants.{LoadHead};
ghost use Rattle.call_machine.specs.declared.resize.Direction.TheVariants.{Grow};
ghost use Rattle.call_machine.specs.declared.stage.Goal.TheVariants.{Lookup, Intern};
ghost use Rattle.call_machine.specs.declared.stage.Calling.{Calling};
ghost use Rattle.call_machine.specs.BeginCall.{AtEachBeginning, begun_walk};
ghost use Rattle.call_machine.specs.CallMeasure.{IsTry, left, passes_node, passed_after, steps_left, most_steps, short_walks};
ghost use Rattle.call_machine.specs.Calls.{plan_of, got_of};
ghost use Rattle.call_machine.specs.Clean.{begun_clean};
ghost use Rattle.call_machine.specs.CleanMeasure as of_clean;
ghost use Rattle.call_machine.specs.ResizeMeasure as of_resize;
ghost use Rattle.call_machine.specs.ResizeRuns.{two_slots, worked_caller, begun, is_done};
ghost use Rattle.call_machine.specs.SoundCall.{IsSoundCall, FitsCall};
ghost use Rattle.call_machine.specs.Sweep.{begun_sweep, sweep_plan};
ghost use Rattle.call_machine.specs.SweepMeasure.{between_waits};

/// What is left of a call that does not try again falls by each step but those that load a link.
pub fn steps_lower_what_is_left()
    ensures law { (c : Calling) (word : ℕ) → IsSoundCall c → FitsCall c word → IsTry c.asked.goal → passes_node c.stage ≡ false → left (got_of c word) < left c }
{}

/// The load of a link passes one more node, trying again passes none so far, and any other step leaves how many were passed.
pub fn nodes_are_passed_by_their_links()
    ensures law { (c : Calling) (word : ℕ) → (got_of c word).along.walk.passed ≡ passed_after c.stage c.along.walk.passed }
{}

/// A sound call that does not try again is told no more words than it has steps left, as long as it passes no more nodes than
/// the table has slots.
pub fn runs_are_no_longer_than_what_is_left()
    ensures law { (c : Calling) (words : List ℕ) → IsSoundCall c → IsTry c.asked.goal → AreFitting short_walks c words → length words ≤ steps_left c }
{}

/// A sound call has answered, or there is a word that it may be told.
pub fn calls_go_on_until_they_answer()
    ensures law { (c : Calling) → IsSoundCall c → ((a : Answer) × (plan_of c ≡ plan.Answered a)) ⊎ ((word : ℕ) × (word < 2 ^ 64) × FitsCall c word) }
{}

/// So a call that does not try again, and passes no more nodes than the table has slots, answers after
/// `16 + text_words + slots * (4 + text_words)` steps at most.
pub fn calls_answer_in_time()
    ensures law { AtEachBeginning (λ c. IsTry c.asked.goal → (words : List ℕ) → AreFitting short_walks c words → length words ≤ most_steps c.asked.shape) }
{}

/// Runs that are counted, worked by hand in a table of two slots and one seat: a look-up that passes one node of another text, a sweep
/// that frees the one dead node of its bucket, a poll of a clean that does so and comes to its end, and one of a grow of an empty bucket.
pub fn worked_runs_are_counted()
    ensures walk { let c = begun_walk worked_caller Lookup (97 ∷ []) in let words = 0 ∷ 0 ∷ 0 ∷ 4 ∷ 5 ∷ 0 ∷ 0 ∷ [] in
        AreFitting short_walks c words × (plan_of (after_words short_walks c words) ≡ plan.Answered answer.Miss) }
    ensures sweep { let s = begun_sweep worked_caller 97 in let words = 0 ∷ 0 ∷ 0 ∷ 0 ∷ 4 ∷ 4 ∷ 0 ∷ 65536 ∷ 0 ∷ 0 ∷ 0 ∷ 0 ∷ 0 ∷ 0 ∷ 0 ∷ [] in
        AreFitting between_waits s words × (sweep_plan (after_words between_waits s words) ≡ plan.Answered (answer.Swept 1)) }
    ensures clean { let c : CleanAlong × CleanStage = (begun_clean 0, clean.Lock LoadHead) in let words = 4 ∷ 4 ∷ 65536 ∷ 0 ∷ 0 ∷ 0 ∷ 0 ∷ 0 ∷ 0 ∷ 0 ∷ [] in
        AreFitting (of_clean.one_poll two_slots) c words × ((after_words (of_clean.one_poll two_slots) c words).1 ≡ clean.GiveResizeLock) }
    ensures grow { let words = 0 ∷ 0 ∷ 0 ∷ 0 ∷ 0 ∷ 0 ∷ 0 ∷ 0 ∷ 0 ∷ 0 ∷ 0 ∷ 0 ∷ 0 ∷ [] in
        AreFitting (of_resize.one_poll two_slots Grow) (begun 0) words × (is_done (after_words (of_resize.one_poll two_slots Grow) (begun 0) words).1 ≡ true) }
    ensures tries { IsTry Lookup × IsTry Intern }
{}
