//! Laws of the machine of any call.
//! Each function does nothing: its contract is the law.
ghost use Rattle.std.specs.Prelude.{◌≡◌, ◌<◌, ◌^◌, ℕ, false, IfSome, Some, List, is_some};
ghost use Rattle.intern_log.specs.declared.event.Kind.{Kind};
ghost use Rattle.intern_log.specs.Own.{is_visible};
ghost use Rattle.table_shape.specs.declared.shape.Shape.{Shape};
ghost use Rattle.table_shape.specs.Shape.{IsSound};
ghost use Rattle.atomic_step.specs.declared.answer.Answer.{Answer};
ghost use Rattle.atomic_step.specs.declared.plan.Plan.TheVariants as plan;
ghost use Rattle.atomic_step.specs.declared.step.Step.{Step};
ghost use Rattle.atomic_step.specs.Monitor.{after_one, after_all, resize};
ghost use Rattle.atomic_step.specs.Run.{AreFitting, after_words, events_of_words};
ghost use Rattle.atomic_step.specs.SoundStep.{IsSoundStep};
ghost use Rattle.call_machine.specs.declared.call.Call.{Call};
ghost use Rattle.call_machine.specs.declared.machine.Machine.{Machine};
ghost use Rattle.call_machine.specs.declared.machine.Own.{Own};
ghost use Rattle.call_machine.specs.Machine.{started, plan_of, got_of, own_of, shape_of, number_of, event_of, IsOfWork, IsSameMachine};
ghost use Rattle.call_machine.specs.SoundMachine.{IsSoundOwn, MayStart, IsSoundMachine, FitsMachine};
ghost use Rattle.call_machine.specs.WholeMachine.{machines, has_lock, IsSingle};

/// Each step of a sound machine is one that its seat may make: on a word of the table, with a value that can stand there, and on
/// its own section and with its own number in the resize lock.
pub fn steps_of_machines_are_sound()
    ensures law { (m : Machine) (step : Step) → IsSoundMachine m → plan_of m ≡ plan.Step step → IsSoundStep (shape_of m) (number_of m) step }
{}

/// Each call that a seat may make begins sound.
#[tactic(auto, using(crate::proofs::Machines::start_law))]
pub fn calls_that_may_start_begin_sound()
    ensures law { (kind : Kind) (shape : Shape) (seed : ℕ) (own : Own) (c : Call) → IsSound shape → seed < 2 ^ 32 → IsSoundOwn shape own →
        MayStart kind shape own c → IsSoundMachine (started kind shape seed own c) }
{}

/// A sound machine stays sound by each word that it may be told.
#[tactic(auto, using(crate::proofs::Machines::got_law))]
pub fn got_keeps_a_machine_sound()
    ensures law { (m : Machine) (word : ℕ) → word < 2 ^ 64 → IsSoundMachine m → FitsMachine m word → IsSoundMachine (got_of m word) }
{}

/// What a sound machine leaves its seat is sound.
#[tactic(auto, using(crate::proofs::Machines::left_law))]
pub fn what_a_machine_leaves_is_sound()
    ensures law { (m : Machine) → IsSoundMachine m → IsSoundOwn (shape_of m) (own_of m) }
{}

/// A step leaves whose call it is and what it asks, and a try call what its seat has unfinished.
#[tactic(auto, using(crate::proofs::Machines::same_law))]
pub fn got_leaves_whose_machine_it_is()
    ensures law { (m : Machine) (word : ℕ) → IsSameMachine m (got_of m word) }
{}

/// Only the calls of readers and inserters and those by handle have events that callers see.
#[tactic(auto, using(crate::proofs::Quiet::hidden_law))]
pub fn works_have_no_visible_event()
    ensures law { (m : Machine) (word : ℕ) → IsOfWork m → IfSome (event_of m word) (λ e. is_visible e ≡ false) }
{}

/// A seat has the resize lock exactly while it has an unfinished work: a call that has answered leaves the lock taken where it
/// leaves a work, and else not.
#[tactic(auto, using(crate::proofs::WorkLock::lock_law, crate::proofs::WorkLock::runs_law, crate::proofs::WorkLock::begin_law, crate::proofs::WorkLock::end_law))]
pub fn a_seat_has_the_resize_lock_while_it_has_a_work()
    ensures begin { (kind : Kind) (shape : Shape) (seed : ℕ) (own : Own) (c : Call) → IsSingle own → MayStart kind shape own c →
        has_lock (started kind shape seed own c) ≡ is_some own.work }
    ensures step { (m : Machine) (word : ℕ) → FitsMachine m word → after_one resize (has_lock m) (event_of m word) ≡ Some (has_lock (got_of m word)) }
    ensures run { (m : Machine) (words : List ℕ) → AreFitting machines m words →
        after_all resize (Some (has_lock m)) (events_of_words machines m words) ≡ Some (has_lock (after_words machines m words)) }
    ensures end { (m : Machine) (a : Answer) → plan_of m ≡ plan.Answered a → has_lock m ≡ is_some (own_of m).work }
{}
