//! Laws of the causes of answers: what a call has found out of what was logged since it began, and why it answers as it
//! does. The log is `seen`, what was there as the call began, and then `window`, what came since.
//! Each function does nothing: its contract is the law.
ghost use Rattle.std.specs.Prelude.{◌≡◌, ◌≢◌, ℕ, ◌+◌, ◌*◌, ◌/◌, ◌^◌, ◌<◌, ◌≤◌, ◌⊎◌, true, List, [], ◌∷◌, ◌++◌, length, Option, Some, None, IfSome};
ghost use Rattle.table_shape.specs.declared.shape.Shape.{Shape};
ghost use Rattle.table_shape.specs.Shape.{IsSound};
ghost use Rattle.intern_log.specs.declared.event.Event.{Event};
ghost use Rattle.intern_log.specs.declared.event.Handle.{Handle};
ghost use Rattle.intern_log.specs.declared.event.Kind.TheVariants.{Counted};
ghost use Rattle.intern_log.specs.declared.event.What.{What};
ghost use Rattle.intern_log.specs.declared.event.What.TheVariants as what;
ghost use Rattle.intern_log.specs.Log.{map_of, IsLegal};
ghost use Rattle.intern_log.specs.Now.{owner_of};
ghost use Rattle.intern_log.specs.SlotBuckets.{slot_bucket, IsUnlinkOn};
ghost use Rattle.intern_log.specs.TextMap.{entry_of, IsLive};
ghost use Rattle.atomic_step.specs.declared.answer.Answer.{Answer};
ghost use Rattle.atomic_step.specs.declared.plan.Plan.TheVariants as plan;
ghost use Rattle.atomic_step.specs.declared.step.Step.{Step};
ghost use Rattle.atomic_step.specs.Event as steps;
ghost use Rattle.call_machine.specs.declared.begin.Left.{Left};
ghost use Rattle.call_machine.specs.declared.call.Call.{Call};
ghost use Rattle.call_machine.specs.declared.caller.Caller.{Caller};
ghost use Rattle.call_machine.specs.declared.clean.Clean.{Clean};
ghost use Rattle.call_machine.specs.declared.machine.Machine.{Machine};
ghost use Rattle.call_machine.specs.declared.machine.Machine.TheVariants as machine;
ghost use Rattle.call_machine.specs.declared.machine.Own.{Own};
ghost use Rattle.call_machine.specs.declared.poll.Polling.{Polling};
ghost use Rattle.call_machine.specs.declared.work.Work.{Work};
ghost use Rattle.call_machine.specs.declared.work.Work.TheVariants as work;
ghost use Rattle.call_machine.specs.Machine.{started, plan_of, got_of, event_of, shape_of};
ghost use Rattle.call_machine.specs.Poll.{poll_got};
ghost use Rattle.call_machine.specs.Sought.{is_too_long};
ghost use Rattle.call_machine.specs.Work.{begun_work, resumes};
ghost use Rattle.call_machine.specs.SoundMachine.{IsSoundOwn, MayStart, IsSoundMachine, FitsMachine};
ghost use Rattle.cht_core.specs.declared.seat.Seat.TheVariants as doing;
ghost use Rattle.cht_core.specs.declared.table.Table.{Table};
ghost use Rattle.cht_core.specs.Backs.{Backs};
ghost use Rattle.cht_core.specs.Begins.{IsHeld};
ghost use Rattle.cht_core.specs.Caused.{way_of, Caused, Hears, MayCause, Cause};
ghost use Rattle.cht_core.specs.CauseCalls.{Way, WasMade};
ghost use Rattle.cht_core.specs.Causes.{now_in, PlanSays, loaded_at, IsCreateAt, own_unlinks, IsResting, Rests};
ghost use Rattle.cht_core.specs.Flow.{Flow};
ghost use Rattle.cht_core.specs.Invariant.{Inv, events_of};
ghost use Rattle.cht_core.specs.HeadKept.{Headed};
ghost use Rattle.cht_core.specs.Memory.{Memory, IsMade, found};
ghost use Rattle.cht_core.specs.Owes.{Owes};
ghost use Rattle.cht_core.specs.Past.{Past, by, past_of, kind_of, MayTell};
ghost use Rattle.cht_core.specs.TableState.{IsTable};
ghost use Rattle.cht_core.specs.Tidy.{IsTidy};
ghost use Rattle.cht_core.specs.View.{View, IsOfSeat, KnowsMachine, seed_in};
ghost use Rattle.cht_core.specs.Windows.{Another, IsTold, whats_by};

/// A call that begins has found out nothing yet, and its window is empty.
#[tactic(auto, using(crate::proofs::CauseAnswers::caused_begins))]
pub fn a_call_begins_with_nothing_found_out()
    ensures law { (t : Table) (i : ℕ) (seen : List Event) (load seed : ℕ) (own : Own) (c : Call) → IsSound t.shape → seed < 2 ^ 32 → IsSoundOwn t.shape own →
        MayStart t.kind t.shape own c → MayCause t i seen own c → Caused t i (way_of c) seen [] load (started t.kind t.shape seed own c) }
{}

/// What a call has found out stays so as events of other seats come to its window.
#[tactic(auto, using(crate::proofs::CauseAnswers::caused_waits))]
pub fn what_is_found_out_stays_so()
    ensures law { (t : Table) (i : ℕ) (way : Way) (seen window more : List Event) (load : ℕ) (m : Machine) → whats_by i more ≡ [] →
        Caused t i way seen window load m → Caused t i way seen (window ++ more) load m }
{}

/// A call that finds a word has found out what its next stage asks, by what the word says of the log and what the seat knows.
#[tactic(auto, using(crate::proofs::CauseAnswers::caused_steps))]
pub fn each_word_is_found_out()
    ensures law { (t : Table) (i : ℕ) (way : Way) (seen window : List Event) (load : ℕ) (f : Flow) (m : Machine) (word : ℕ) → shape_of m ≡ t.shape →
        IsSoundMachine m → FitsMachine m word → IsTold t (seen ++ window) → IsTidy t (now_in t (seen ++ window)) → Caused t i way seen window load m →
        PlanSays t (past_of t.shape.min_level (seen ++ window)) f (plan_of m) word →
        Hears t (past_of t.shape.min_level (seen ++ window)) f i load (seen ++ window) m word →
        Caused t i way seen (window ++ events_of i (event_of m word))
        (loaded_at (plan_of m) (past_of t.shape.min_level (seen ++ window)).now.place load) (got_of m word) }
{}

/// A call that has answered says why: by what was so at places of its window, by events of other seats in it, and by its own.
#[tactic(auto, using(crate::proofs::CauseAnswers::cause_answered))]
pub fn each_answer_has_its_cause()
    ensures law { (t : Table) (i : ℕ) (way : Way) (seen window : List Event) (load : ℕ) (m : Machine) (a : Answer) → IsSoundMachine m →
        plan_of m ≡ plan.Answered a → Caused t i way seen window load m → Cause t i way seen window m a }
{}

/// A log stays told by an event that may be told, and a told log is legal.
#[tactic(auto, using(crate::proofs::CauseLogs::told_more, crate::proofs::CauseLogs::told_is_legal))]
pub fn logs_are_told_event_by_event()
    ensures more { (t : Table) (log : List Event) (i : ℕ) (e : Option What) → IsTold t log → MayTell (kind_of t) (past_of t.shape.min_level log) i e → IsTold t (log ++ events_of i e) }
    ensures legal { (t : Table) (log : List Event) → IsTold t log → IsLegal log }
{}

/// What the call knows as its step finds a word follows from the words of the table, from what its seat knows and owes, and from
/// what it knows of the head that it loaded.
#[tactic(auto, using(crate::proofs::CauseKnown::hears))]
pub fn a_machine_knows_what_it_needs()
    ensures law { (t : Table) (m : Memory) (f : Flow) (i load : ℕ) (log : List Event) (passed : List ℕ) (machine : Machine) (s : Step) →
        IsTable t m (past_of t.shape.min_level log) f → IsOfSeat t (past_of t.shape.min_level log).now i machine →
        KnowsMachine m (past_of t.shape.min_level log) f i load passed machine → Owes (past_of t.shape.min_level log) i (doing.Running machine) →
        Headed t m i load log machine → plan_of machine ≡ plan.Step s → Hears t (past_of t.shape.min_level log) f i load log machine (found s m) }
{}

/// What a call knows of the head that it loaded: nothing as it begins; it stays so by steps of other seats and by its own.
#[tactic(auto, using(crate::proofs::CauseRests::headed_begins, crate::proofs::CauseHeaded::headed_waits, crate::proofs::CauseWorkHeads::headed_steps))]
pub fn a_head_is_what_was_loaded_or_another_changed_it()
    ensures begins { (t : Table) (m : Memory) (i load : ℕ) (log : List Event) (seed : ℕ) (own : Own) (c : Call) → IfSome own.work IsResting →
        Headed t m i load log (started t.kind t.shape seed own c) }
    ensures waits { (t : Table) (m m' : Memory) (f : Flow) (i j : ℕ) (text : List ℕ) (s : Step) (log : List Event) (load : ℕ) → j ≢ i → IsMade s m m' →
        Backs t m (past_of t.shape.min_level log) f j text s → (passed : List ℕ) (machine : Machine) → seed_in machine ≡ (now_in t log).seed →
        KnowsMachine m (past_of t.shape.min_level log) f i load passed machine → Headed t m i load log machine →
        Headed t m' i load (log ++ events_of j (steps.event_of text s (found s m))) machine }
    ensures steps { (t : Table) (m m' : Memory) (i : ℕ) (log more : List Event) (now load : ℕ) → now ≡ length log → (machine : Machine) (s : Step) →
        plan_of machine ≡ plan.Step s → IsMade s m m' → Headed t m i load log machine →
        Headed t m' i (loaded_at (plan_of machine) now load) (log ++ more) (got_of machine (found s m)) }
{}

/// A work rests between its polls: a work that was begun rests, and a poll that begins with a work that rests leaves one where it
/// answers.
#[tactic(auto, using(crate::proofs::CauseRests::begun_rests, crate::proofs::CauseRests::poll_begins_resting, crate::proofs::CauseRests::poll_rests))]
pub fn works_rest_between_their_polls()
    ensures begun { (shape : Shape) (l : Left) → IfSome (begun_work shape l) IsResting }
    ensures begins { (w : Work) → IsResting w → Rests (resumes w).0 (resumes w).1 }
    ensures steps { (p : Polling) (word : ℕ) → Rests p.work p.answer → Rests (poll_got p word).work (poll_got p word).answer }
{}

/// A handle that is live as a call begins was created before it.
#[tactic(auto, using(crate::proofs::CauseLogs::live_was_made))]
pub fn live_handles_were_created()
    ensures law { (t : Table) (log : List Event) (h : Handle) → IsLive (map_of log) h → WasMade t log h }
{}

/// A handle that a seat holds as a call begins was created before it.
pub fn held_handles_were_created()
    ensures law { (t : Table) (m : Memory) (seat : ℕ → Option View) (log : List Event) (i : ℕ) (v : View) (h : Handle) → Inv t m seat log → seat i ≡ Some v → t.kind ≡ Counted →
        IsHeld log v.numbers h → WasMade t log h }
{}

/// A seat that has an unfinished work between its calls has the resize lock.
pub fn an_unfinished_work_has_the_resize_lock()
    ensures law { (t : Table) (m : Memory) (seat : ℕ → Option View) (log : List Event) (i : ℕ) (v : View) (own : Own) (w : Work) → Inv t m seat log → seat i ≡ Some v →
        v.seat ≡ doing.Idle own → own.work ≡ Some w → owner_of (now_in t log).resizing ≡ Some i }
{}

/// What a seat unlinked of a bucket in a window is counted by the log: none as the window begins, one more by each Unlink by the
/// seat of a slot of the table that is in the bucket, and no more by any other event.
pub fn own_unlinks_are_counted()
    ensures none { (t : Table) (i row bucket : ℕ) (seen : List Event) → own_unlinks t i row bucket seen [] ≡ 0 }
    ensures one { (t : Table) (i : ℕ) (seen window : List Event) (row bucket s : ℕ) → slot_bucket (now_in t (seen ++ window)) row s ≡ Some bucket → s < t.shape.slots →
        own_unlinks t i row bucket seen (window ++ by i (what.Unlink s) ∷ []) ≡ own_unlinks t i row bucket seen window + 1 }
    ensures other { (t : Table) (i : ℕ) (seen window : List Event) (row bucket : ℕ) (e : Event) →
        (e.seat ≢ i) ⊎ (¬ (IsUnlinkOn (now_in t (seen ++ window)) row bucket e.what)) →
        own_unlinks t i row bucket seen (window ++ e ∷ []) ≡ own_unlinks t i row bucket seen window }
{}

/// A poll of a clean makes few full passes over a bucket: each of them unlinked 256 slots of the bucket in the window of the poll, and
/// where no other seat created an entry in the bucket there are at most `slots / 256`.
pub fn a_poll_makes_few_full_passes()
    ensures passes { (t : Table) (i : ℕ) (way : Way) (seen window : List Event) (load : ℕ) (caller : Caller) (c : Clean) →
        Caused t i way seen window load (machine.Poll (record { caller = caller; work = work.Clean c; answer = None })) →
        256 * c.along.full_passes ≤ own_unlinks t i c.along.cleaning.row c.along.cleaning.bucket seen window }
    ensures few { (t : Table) (i : ℕ) (way : Way) (seen window : List Event) (load : ℕ) (caller : Caller) (c : Clean) →
        Caused t i way seen window load (machine.Poll (record { caller = caller; work = work.Clean c; answer = None })) → IsTold t (seen ++ window) →
        ¬ (Another i (IsCreateAt t c.along.cleaning.row c.along.cleaning.bucket) seen window) → c.along.full_passes ≤ t.shape.slots / 256 }
{}

/// A text that is too long for the table has no entry, so that a look-up of it misses without a step.
#[tactic(auto, using(crate::proofs::CauseRests::too_long_is_absent))]
pub fn a_text_that_is_too_long_is_absent()
    ensures law { (t : Table) (m : Memory) (p : Past) (f : Flow) (text : List ℕ) → IsTable t m p f → is_too_long t.shape text ≡ true → entry_of p.now.texts text ≡ None }
{}

#[cfg(test)]
mod tests {
    use super::*;

    #[test]
    fn laws_can_be_called() {
        a_call_begins_with_nothing_found_out();
        what_is_found_out_stays_so();
        each_word_is_found_out();
        each_answer_has_its_cause();
        logs_are_told_event_by_event();
        a_machine_knows_what_it_needs();
        a_head_is_what_was_loaded_or_another_changed_it();
        works_rest_between_their_polls();
        live_handles_were_created();
        held_handles_were_created();
        an_unfinished_work_has_the_resize_lock();
        own_unlinks_are_counted();
        a_poll_makes_few_full_passes();
        a_text_that_is_too_long_is_absent();
    }
}
