//! Laws of what the passes of cleans and sweeps look at, and what they leave. The functions do nothing: their contracts are the laws.
ghost use Rattle.std.specs.Prelude.{◌≡◌, ◌<◌, ◌≤◌, Bool, true, ℕ, List, Option, Some};
ghost use Rattle.intern_log.specs.declared.event.Event.{Event};
ghost use Rattle.intern_log.specs.declared.event.What.{What};
ghost use Rattle.atomic_step.specs.declared.answer.Answer.TheVariants as answer;
ghost use Rattle.atomic_step.specs.declared.answer.Worked.{Worked};
ghost use Rattle.atomic_step.specs.declared.plan.Plan.TheVariants as plan;
ghost use Rattle.atomic_step.specs.declared.step.Step.{Step};
ghost use Rattle.call_machine.specs.declared.clean.Clean.{Clean};
ghost use Rattle.call_machine.specs.declared.machine.Machine.TheVariants as machine;
ghost use Rattle.call_machine.specs.declared.poll.Polling.{Polling};
ghost use Rattle.call_machine.specs.declared.sweep.SweepStage.TheVariants as sweep;
ghost use Rattle.call_machine.specs.declared.sweep.Sweeping.{Sweeping};
ghost use Rattle.call_machine.specs.declared.work.Work.TheVariants as work;
ghost use Rattle.call_machine.specs.Machine.{plan_of, got_of};
ghost use Rattle.cht_core.specs.declared.seat.Seat.TheVariants as doing;
ghost use Rattle.cht_core.specs.declared.table.Table.{Table};
ghost use Rattle.cht_core.specs.Bounds.{work_of};
ghost use Rattle.cht_core.specs.Invariant.{Inv};
ghost use Rattle.cht_core.specs.Memory.{Memory};
ghost use Rattle.cht_core.specs.Passes.{IsLast, HasCleaned, HasSwept};
ghost use Rattle.cht_core.specs.Runs.{word_in};
ghost use Rattle.cht_core.specs.State.{Core, IsCore, seat_in, after_step};
ghost use Rattle.cht_core.specs.View.{View};

/// The pass of a clean over its bucket has looked at no more nodes than the table has slots, whoever else makes steps meanwhile. So it is of
/// an unfinished clean, of one that is polled, and of a sweep.
pub fn passes_look_at_few_nodes()
    ensures unfinished { (t : Table) (m : Memory) (seat : ℕ → Option View) (log : List Event) → Inv t m seat log → (k : ℕ) (v : View) → seat k ≡ Some v → (c : Clean) →
        work_of v.seat ≡ Some (work.Clean c) → c.along.cleaning.passed ≤ t.shape.slots }
    ensures polled { (t : Table) (m : Memory) (seat : ℕ → Option View) (log : List Event) → Inv t m seat log → (k : ℕ) (v : View) → seat k ≡ Some v → (q : Polling) (c : Clean) →
        v.seat ≡ doing.Running (machine.Poll q) → q.work ≡ work.Clean c → c.along.cleaning.passed ≤ t.shape.slots }
    ensures swept { (t : Table) (m : Memory) (seat : ℕ → Option View) (log : List Event) → Inv t m seat log → (k : ℕ) (v : View) → seat k ≡ Some v → (s : Sweeping) →
        v.seat ≡ doing.Running (machine.Sweep s) → s.along.cleaning.passed ≤ t.shape.slots }
{}

/// A clean that is done has unlinked all that was dead: since the place in the log at which its seat took the resize lock for the last time
/// each slot that was linked there with a dead entry was unlinked. So it is of each slot that was so at an earlier place, behind that place.
/// The second clause says it of the step of a state in which the poll answers.
pub fn a_clean_that_is_done_has_unlinked_what_was_dead()
    ensures done { (t : Table) (m : Memory) (seat : ℕ → Option View) (log : List Event) → Inv t m seat log → (k : ℕ) (v : View) → seat k ≡ Some v → (q : Polling) (c : Clean) (did : Worked) →
        v.seat ≡ doing.Running (machine.Poll q) → q.work ≡ work.Clean c → q.answer ≡ Some (answer.Done did) → HasCleaned t.shape.min_level log k }
    ensures answers { (d : Core) → IsCore d → (k : ℕ) (q : Polling) (c : Clean) (s : Step) (did : Worked) → seat_in d.seats k ≡ Some (doing.Running (machine.Poll q)) →
        q.work ≡ work.Clean c → plan_of (machine.Poll q) ≡ plan.Step s → plan_of (got_of (machine.Poll q) (word_in d s)) ≡ plan.Answered (answer.Done did) →
        HasCleaned d.table.shape.min_level (after_step d k (machine.Poll q) s (word_in d s)).log k }
{}

/// A sweep that unlinked fewer than 256 slots has unlinked all that was dead in the bucket of its hash: the bucket that its seat locked for the
/// last time is that one, and since the place of that event in the log each slot of the bucket that was linked there with a dead entry was
/// unlinked.
pub fn a_sweep_of_few_slots_has_unlinked_what_was_dead()
    ensures done { (t : Table) (m : Memory) (seat : ℕ → Option View) (log : List Event) → Inv t m seat log → (k : ℕ) (v : View) → seat k ≡ Some v → (w : Sweeping) (many : ℕ) →
        v.seat ≡ doing.Running (machine.Sweep w) → w.stage ≡ sweep.Answered (answer.Swept many) → many < 256 →
        HasSwept t.shape.min_level log k w.asked.hash }
    ensures answers { (d : Core) → IsCore d → (k : ℕ) (w : Sweeping) (s : Step) (many : ℕ) → seat_in d.seats k ≡ Some (doing.Running (machine.Sweep w)) →
        plan_of (machine.Sweep w) ≡ plan.Step s → plan_of (got_of (machine.Sweep w) (word_in d s)) ≡ plan.Answered (answer.Swept many) → many < 256 →
        HasSwept d.table.shape.min_level (after_step d k (machine.Sweep w) s (word_in d s)).log k w.asked.hash }
{}

/// A log has one last event of a seat that passes a test, at one place. So what a clean or a sweep has unlinked is said of one place.
pub fn last_events_are_at_one_place()
    ensures one { (passes : What → Bool) (i : ℕ) (last other : What) (log : List Event) (at place : ℕ) → passes last ≡ true → passes other ≡ true →
        IsLast passes i last log at → IsLast passes i other log place → (last ≡ other) × (at ≡ place) }
{}
