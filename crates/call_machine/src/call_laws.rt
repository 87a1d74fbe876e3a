//! Laws of a call on its way: it stays sound, and what callers see of it is what its answer stands for.
//! Each function does nothing: its contract is the law.
ghost use Rattle.std.specs.Prelude.{◌≡◌, ℕ, ◌<◌, ◌≤◌, ◌^◌, [], Some, IfSome, length};
ghost use Rattle.atomic_step.specs.declared.access.StepKind.TheVariants.{K3};
ghost use Rattle.atomic_step.specs.declared.answer.Answer.{Answer};
ghost use Rattle.atomic_step.specs.declared.plan.Plan.TheVariants as plan;
ghost use Rattle.atomic_step.specs.declared.step.Step.{Step};
ghost use Rattle.atomic_step.specs.Monitor.{after_one, seen};
ghost use Rattle.atomic_step.specs.SoundStep.{IsSoundStep};
ghost use Rattle.atomic_step.specs.Step.{access_of};
ghost use Rattle.call_machine.specs.declared.stage.Calling.{Calling};
ghost use Rattle.call_machine.specs.BeginCall.{AtEachBeginning};
ghost use Rattle.call_machine.specs.CallEvents.{stands_for, made_of, IsOfCall};
ghost use Rattle.call_machine.specs.Calls.{plan_of, got_of, event_of};
ghost use Rattle.call_machine.specs.SoundCall.{IsSoundCall, FitsCall};
ghost use Rattle.call_machine.specs.WholeCall.{ShowsItsAnswer};

/// Each call of a seat of a table begins sound.
pub fn calls_begin_sound()
    ensures law { AtEachBeginning IsSoundCall }
{}

/// A sound call stays sound by each word that its step may find.
pub fn got_keeps_a_call_sound()
    ensures law { (c : Calling) (word : ℕ) → word < 2 ^ 64 → IsSoundCall c → FitsCall c word → IsSoundCall (got_of c word) }
{}

/// Each step of a sound call is one that its seat may make in its table.
pub fn steps_of_calls_are_sound()
    ensures law { (c : Calling) (s : Step) → IsSoundCall c → plan_of c ≡ plan.Step s → IsSoundStep c.asked.shape c.asked.number s }
{}

/// No call locks, unlinks, begins a grace, or takes part in a resize.
pub fn calls_do_no_work()
    ensures law { (c : Calling) (word : ℕ) → IfSome (event_of c word) IsOfCall }
{}

/// The visible events that a call has made after a step are those before it and that of the step.
pub fn visible_events_follow_the_steps()
    ensures law { (c : Calling) (word : ℕ) → IsSoundCall c → FitsCall c word → after_one seen (made_of c) (event_of c word) ≡ Some (made_of (got_of c word)) }
{}

/// A call that begins has made none.
pub fn no_visible_event_at_the_beginning()
    ensures law { AtEachBeginning (λ c. made_of c ≡ []) }
{}

/// A call that answers has made those that its answer stands for.
pub fn visible_events_of_an_answer()
    ensures law { (c : Calling) (a : Answer) → plan_of c ≡ plan.Answered a → made_of c ≡ stands_for c.asked a }
{}

/// A call makes one at most.
pub fn one_visible_event_at_most()
    ensures law { (c : Calling) → length (made_of c) ≤ 1 }
{}

/// What callers see of a call that has answered is what its answer stands for.
pub fn callers_see_what_the_answer_stands_for()
    ensures law { AtEachBeginning ShowsItsAnswer }
{}
