//! Laws of a poll of an unfinished work: each of its steps leaves less, and it looks at few nodes.
//! Each function does nothing: its contract is the law.
ghost use Rattle.std.specs.Prelude.{◌≡◌, ℕ, ◌<◌, ◌≤◌, ◌^◌, List, Option, Some};
ghost use Rattle.intern_log.specs.declared.event.Event.{Event};
ghost use Rattle.intern_log.specs.declared.event.Kind.{Kind};
ghost use Rattle.table_shape.specs.declared.shape.Shape.{Shape};
ghost use Rattle.atomic_step.specs.declared.answer.Answer.{Answer};
ghost use Rattle.atomic_step.specs.declared.plan.Plan.TheVariants as plan;
ghost use Rattle.atomic_step.specs.declared.step.Step.{Step};
ghost use Rattle.call_machine.specs.declared.call.Call.{Call};
ghost use Rattle.call_machine.specs.declared.machine.Machine.{Machine};
ghost use Rattle.call_machine.specs.declared.machine.Machine.TheVariants as machine;
ghost use Rattle.call_machine.specs.declared.machine.Own.{Own};
ghost use Rattle.call_machine.specs.declared.poll.Polling.{Polling};
ghost use Rattle.call_machine.specs.declared.resize.Resize.{Resize};
ghost use Rattle.call_machine.specs.declared.work.Work.TheVariants as work;
ghost use Rattle.call_machine.specs.Machine.{started, shape_of, plan_of, got_of};
ghost use Rattle.call_machine.specs.SoundMachine.{IsSoundMachine, FitsMachine};
ghost use Rattle.cht_core.specs.declared.seat.Seat.TheVariants as doing;
ghost use Rattle.cht_core.specs.declared.table.Table.{Table};
ghost use Rattle.cht_core.specs.Bounds.{work_of};
ghost use Rattle.cht_core.specs.Invariant.{Inv};
ghost use Rattle.cht_core.specs.Memory.{Memory};
ghost use Rattle.cht_core.specs.PollMeasure.{poll_left, looked_in, IsOnPollOf};
ghost use Rattle.cht_core.specs.Runs.{word_in};
ghost use Rattle.cht_core.specs.State.{Core, IsCore, seat_in};
ghost use Rattle.cht_core.specs.View.{View};

/// As a call begins, its poll, if it is one, has made few full passes, and so it goes on by each word that it is told.
pub fn full_passes_of_a_poll_stay_few()
    ensures begins { (kind : Kind) (shape : Shape) (seed : ℕ) (own : Own) (asked : Call) → IsOnPollOf shape (started kind shape seed own asked) }
    ensures goes_on { (shape : Shape) (k : Machine) (word : ℕ) → shape_of k ≡ shape → IsOnPollOf shape k → IsOnPollOf shape (got_of k word) }
{}

/// A poll that has not answered has less left after each of its steps, as long as it has looked at no more nodes than the table has
/// slots. Once it has answered none is left.
pub fn each_step_of_a_poll_leaves_less()
    ensures less { (shape : Shape) (q : Polling) (word : ℕ) → shape_of (machine.Poll q) ≡ shape → IsSoundMachine (machine.Poll q) → IsOnPollOf shape (machine.Poll q) → word < 2 ^ 64 →
        FitsMachine (machine.Poll q) word → looked_in (got_of (machine.Poll q) word) ≤ shape.slots → poll_left shape (got_of (machine.Poll q) word) < poll_left shape (machine.Poll q) }
    ensures answered { (shape : Shape) (q : Polling) (a : Answer) → q.answer ≡ Some a → poll_left shape (machine.Poll q) ≡ 0 }
{}

/// An unfinished grow or shrink has looked at no more nodes of its pair than the table has slots, and so has its poll. It is so in any
/// state, and after each step that the poll makes in one.
pub fn polls_look_at_few_nodes()
    ensures works { (t : Table) (m : Memory) (seat : ℕ → Option View) (log : List Event) → Inv t m seat log → (k : ℕ) (v : View) → seat k ≡ Some v → (r : Resize) →
        work_of v.seat ≡ Some (work.Resize r) → r.along.passed ≤ t.shape.slots }
    ensures polls { (t : Table) (m : Memory) (seat : ℕ → Option View) (log : List Event) → Inv t m seat log → (k : ℕ) (v : View) → seat k ≡ Some v → (q : Polling) (r : Resize) →
        v.seat ≡ doing.Running (machine.Poll q) → q.work ≡ work.Resize r → looked_in (machine.Poll q) ≤ t.shape.slots }
    ensures steps { (d : Core) → IsCore d → (k : ℕ) (q : Polling) (r : Resize) (s : Step) → seat_in d.seats k ≡ Some (doing.Running (machine.Poll q)) → q.work ≡ work.Resize r →
        plan_of (machine.Poll q) ≡ plan.Step s → looked_in (got_of (machine.Poll q) (word_in d s)) ≤ d.table.shape.slots }
{}
