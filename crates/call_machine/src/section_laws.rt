//! Laws of the section of a call, and of the slot that it claims, step by step and from its beginning to its
//! answer. Each function does nothing: its contract is the law.
ghost use Rattle.std.specs.Prelude.{◌≡◌, ℕ, false, Some, None};
ghost use Rattle.atomic_step.specs.declared.access.StepKind.TheVariants.{K3};
ghost use Rattle.atomic_step.specs.declared.answer.Answer.{Answer};
ghost use Rattle.atomic_step.specs.declared.plan.Plan.TheVariants as plan;
ghost use Rattle.atomic_step.specs.declared.step.Step.{Step};
ghost use Rattle.atomic_step.specs.Monitor.{after_one, section, slot};
ghost use Rattle.atomic_step.specs.Step.{access_of};
ghost use Rattle.call_machine.specs.declared.stage.Calling.{Calling};
ghost use Rattle.call_machine.specs.BeginCall.{AtEachBeginning};
ghost use Rattle.call_machine.specs.Calls.{plan_of, got_of, event_of};
ghost use Rattle.call_machine.specs.CallSections.{is_inside, claimed_slot, slot_of_place};
ghost use Rattle.call_machine.specs.SoundCall.{IsSoundCall, FitsCall};
ghost use Rattle.call_machine.specs.WholeCall.{LeadsTo};

/// A call begins outside its section, opens it where it is outside, closes it where it is inside, stays where it
/// is at any other step, and answers outside.
pub fn sections_follow_the_events()
    ensures begin { AtEachBeginning (λ c. is_inside c ≡ false) }
    ensures answer { (c : Calling) (a : Answer) → plan_of c ≡ plan.Answered a → is_inside c ≡ false }
    ensures step { (c : Calling) (word : ℕ) → IsSoundCall c → FitsCall c word → after_one section (is_inside c) (event_of c word) ≡ Some (is_inside (got_of c word)) }
{}

/// The Opens and Closes of a call that has answered come in pairs, with one section open at most.
pub fn sections_of_a_call_come_in_pairs()
    ensures law { AtEachBeginning (LeadsTo section false false) }
{}

/// A call begins without a slot, claims one where it has none, creates in the slot that it has or gives that one
/// back, keeps what it has at any other step, and answers without one.
pub fn slots_follow_the_events()
    ensures begin { AtEachBeginning (λ c. claimed_slot c ≡ None) }
    ensures answer { (c : Calling) (a : Answer) → IsSoundCall c → plan_of c ≡ plan.Answered a → claimed_slot c ≡ None }
    ensures step { (c : Calling) (word : ℕ) → IsSoundCall c → FitsCall c word → after_one slot (claimed_slot c) (event_of c word) ≡ Some (claimed_slot (got_of c word)) }
{}

/// Each Claim of a call that has answered is followed by its Create or its Free before the next Claim, also of
/// an intern that tries again.
pub fn claims_of_a_call_come_in_pairs()
    ensures law { AtEachBeginning (LeadsTo slot None None) }
{}

/// A call writes words of the slot that it has claimed alone.
pub fn writes_are_on_the_claimed_slot()
    ensures law { (c : Calling) (s : Step) → plan_of c ≡ plan.Step s → (access_of s).kind ≡ K3 → slot_of_place (access_of s).place ≡ claimed_slot c }
{}
