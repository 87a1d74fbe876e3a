//! Laws of the slots that a call claims: one at most, none where it answers NoSlot, and only interns claim.
//! Each function does nothing: its contract is the law.
ghost use Rattle.std.specs.Prelude.{◌≡◌, ◌≤◌, ◌+◌, ℕ, List};
ghost use Rattle.atomic_step.specs.declared.answer.Answer.TheVariants as answer;
ghost use Rattle.atomic_step.specs.declared.plan.Plan.TheVariants as plan;
ghost use Rattle.atomic_step.specs.Run.{after_words, events_of_words};
ghost use Rattle.call_machine.specs.declared.stage.Calling.{Calling};
ghost use Rattle.call_machine.specs.CallClaims.{claims_of, claims_in, may_claim, AtEachBeginningButInterns};
ghost use Rattle.call_machine.specs.Calls.{plan_of, got_of, event_of};
ghost use Rattle.call_machine.specs.WholeCall.{calls};

/// A Claim uses up what the call may still claim, and no step adds to it, whatever word it finds.
pub fn claims_use_up_what_may_be_claimed()
    ensures law { (c : Calling) (word : ℕ) → claims_of (event_of c word) + may_claim (got_of c word) ≤ may_claim c }
{}

/// A call claims one slot at most, also an intern that tries again, from each stage on and whatever words it is told.
pub fn calls_claim_once()
    ensures law { (c : Calling) (words : List ℕ) → claims_in (events_of_words calls c words) ≤ 1 }
{}

/// A call that answers NoSlot has claimed none.
pub fn no_slot_is_answered_without_a_claim()
    ensures law { (c : Calling) (words : List ℕ) → plan_of (after_words calls c words) ≡ plan.Answered answer.NoSlot → claims_in (events_of_words calls c words) ≡ 0 }
{}

/// A split, a look-up, a change of a count and a reading claim none.
pub fn only_interns_claim()
    ensures law { AtEachBeginningButInterns (λ c. (words : List ℕ) → claims_in (events_of_words calls c words) ≡ 0) }
{}
