//! A law of how many graces a grow takes. The function does nothing: its contract is the law.
ghost use Rattle.std.specs.Prelude.{◌≡◌, ◌≢◌, ◌≤◌, ◌+◌, ℕ, List, Option, Some};
ghost use Rattle.intern_log.specs.declared.event.Event.{Event};
ghost use Rattle.intern_log.specs.Counts.{is_create, events_in};
ghost use Rattle.atomic_step.specs.declared.answer.Answer.TheVariants as answer;
ghost use Rattle.atomic_step.specs.declared.answer.Worked.{Worked};
ghost use Rattle.atomic_step.specs.declared.plan.Plan.TheVariants as plan;
ghost use Rattle.atomic_step.specs.declared.step.Step.{Step};
ghost use Rattle.call_machine.specs.declared.grace.GraceStage.TheVariants.{LoadSection};
ghost use Rattle.call_machine.specs.declared.machine.Machine.TheVariants as machine;
ghost use Rattle.call_machine.specs.declared.poll.Polling.{Polling};
ghost use Rattle.call_machine.specs.declared.resize.AfterGrace.TheVariants as after;
ghost use Rattle.call_machine.specs.declared.resize.Direction.TheVariants.{Grow};
ghost use Rattle.call_machine.specs.declared.resize.Resize.{Resize};
ghost use Rattle.call_machine.specs.declared.resize.ResizeStage.TheVariants.{Grace, ClearNewLevel, GiveResizeLock};
ghost use Rattle.call_machine.specs.declared.work.Work.TheVariants as work;
ghost use Rattle.call_machine.specs.Machine.{plan_of, got_of};
ghost use Rattle.cht_core.specs.declared.seat.Seat.TheVariants as doing;
ghost use Rattle.cht_core.specs.declared.table.Table.{Table};
ghost use Rattle.cht_core.specs.Bounds.{work_of};
ghost use Rattle.cht_core.specs.Invariant.{Inv};
ghost use Rattle.cht_core.specs.Memory.{Memory};
ghost use Rattle.cht_core.specs.Runs.{word_in};
ghost use Rattle.cht_core.specs.State.{Core, IsCore, seat_in, after_step};
ghost use Rattle.cht_core.specs.View.{View};

/// Of the graces that an unfinished grow has begun all but one at most are for an entry that was made: there are no more of them than
/// Creates in the log, and before the last grace, which comes after the level, no more in all. So a grow that is done has made at
/// most one grace more than there are Creates: that is what its poll tells in the step in which it answers.
pub fn a_grow_has_few_graces()
    ensures law { (t : Table) (m : Memory) (seat : ℕ → Option View) (log : List Event) → Inv t m seat log → (k : ℕ) (v : View) → seat k ≡ Some v → (r : Resize) →
        work_of v.seat ≡ Some (work.Resize r) → r.direction ≡ Grow → r.along.graces ≤ events_in is_create log + 1 }
    ensures early { (t : Table) (m : Memory) (seat : ℕ → Option View) (log : List Event) → Inv t m seat log → (k : ℕ) (v : View) → seat k ≡ Some v → (r : Resize) →
        work_of v.seat ≡ Some (work.Resize r) → r.direction ≡ Grow → r.stage ≢ Grace after.ClearNewLevel LoadSection → r.stage ≢ ClearNewLevel → r.stage ≢ GiveResizeLock →
        r.along.graces ≤ events_in is_create log }
    ensures done { (t : Table) (m : Memory) (seat : ℕ → Option View) (log : List Event) → Inv t m seat log → (k : ℕ) (v : View) → seat k ≡ Some v → (q : Polling) (r : Resize) (did : Worked) →
        v.seat ≡ doing.Running (machine.Poll q) → q.work ≡ work.Resize r → r.direction ≡ Grow → q.answer ≡ Some (answer.Done did) → did.graces ≤ events_in is_create log + 1 }
    ensures answers { (d : Core) → IsCore d → (k : ℕ) (q : Polling) (r : Resize) (s : Step) (did : Worked) → seat_in d.seats k ≡ Some (doing.Running (machine.Poll q)) →
        q.work ≡ work.Resize r → r.direction ≡ Grow → plan_of (machine.Poll q) ≡ plan.Step s → plan_of (got_of (machine.Poll q) (word_in d s)) ≡ plan.Answered (answer.Done did) →
        did.graces ≤ events_in is_create (after_step d k (machine.Poll q) s (word_in d s)).log + 1 }
{}
