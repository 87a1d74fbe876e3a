//! Laws of runs: what comes of a table by moves of anybody, and of a call in the middle of them.
//! Each function does nothing: its contract is the law.
ghost use Rattle.std.specs.Prelude.{◌≡◌, ◌≢◌, ℕ, ◌+◌, ◌*◌, ◌<◌, List, [], ◌∷◌, ◌++◌, Some};
ghost use Rattle.std.specs.Borrow.{Bor};
ghost use Rattle.intern_log.specs.declared.event.Event.{Event};
ghost use Rattle.intern_log.specs.declared.event.Handle.{Handle};
ghost use Rattle.atomic_step.specs.declared.answer.Answer.{Answer};
ghost use Rattle.atomic_step.specs.declared.answer.Answer.TheVariants as answer;
ghost use Rattle.atomic_step.specs.declared.plan.Plan.TheVariants as plan;
ghost use Rattle.atomic_step.specs.declared.step.Step.{Step as AtomicStep};
ghost use Rattle.atomic_step.specs.declared.step.Step.TheVariants as step;
ghost use Rattle.call_machine.specs.declared.call.Call.{Call};
ghost use Rattle.call_machine.specs.declared.call.Call.TheVariants as call;
ghost use Rattle.call_machine.specs.declared.machine.Machine.{Machine};
ghost use Rattle.call_machine.specs.declared.machine.Own.{Own};
ghost use Rattle.call_machine.specs.Machine.{started, plan_of, got_of};
ghost use Rattle.cht_core.specs.declared.seat.Seat.TheVariants as doing;
ghost use Rattle.cht_core.specs.Begins.{HasBytes};
ghost use Rattle.cht_core.specs.Runs.{Move, Start, Step, Rehash, Makes, LeadsTo, IsNoStart, IsUnderWay, IsTryCall, steps_of, word_in, HasCause, CauseAtOnce, BringsSeat};
ghost use Rattle.cht_core.specs.State.{Core, IsCore, CanStart, seat_in, seat_after, with_seat};

/// What moves of anybody make of a state is a state.
#[tactic(auto, using(crate::proofs::RunMoves::run_core))]
pub fn states_of_a_run_are_states()
    ensures core { (c d : Core) (moves : List Move) → IsCore c → LeadsTo c moves d → IsCore d }
{}

/// A run only adds to the log, and the table is the same.
#[tactic(auto, using(crate::proofs::RunMoves::logs_grow, crate::proofs::RunMoves::tables_stay))]
pub fn logs_only_grow()
    ensures law { (c d : Core) (moves : List Move) → LeadsTo c moves d → (window : List Event) × (d.log ≡ c.log ++ window) }
    ensures table { (c d : Core) (moves : List Move) → LeadsTo c moves d → d.table ≡ c.table }
{}

/// A call that makes a step is under way as it begins, and by each move that starts no call of its seat it stays so as long as it runs.
/// No move of others changes what it is at.
#[tactic(auto, using(crate::proofs::RunGoesOn::under_way_begins))]
pub fn calls_are_under_way_from_their_start()
    ensures begins { (c : Core) → IsCore c → (k : ℕ) (own : Own) (asked : Call) (s : AtomicStep) → seat_in c.seats k ≡ Some (doing.Idle own) → HasBytes asked → CanStart c own asked →
        plan_of (started c.table.kind c.table.shape c.seed own asked) ≡ plan.Step s →
        IsUnderWay c k own asked [] (with_seat c k (seat_after (started c.table.kind c.table.shape c.seed own asked))) (started c.table.kind c.table.shape c.seed own asked) }
    ensures goes_on { (c d new : Core) (k : ℕ) (own : Own) (asked : Call) (moves : List Move) (move : Move) (m n : Machine) → IsUnderWay c k own asked moves d m → Makes d move new →
        IsNoStart k move → seat_in new.seats k ≡ Some (doing.Running n) → IsUnderWay c k own asked (moves ++ move ∷ []) new n }
    ensures others { (c d new : Core) (k : ℕ) (own : Own) (asked : Call) (moves : List Move) (move : Move) (m : Machine) → IsCore c → IsUnderWay c k own asked moves d m →
        Makes d move new → IsNoStart k move → move ≢ Step k → seat_in new.seats k ≡ Some (doing.Running m) }
{}

/// Each answer that a call gives in a run has its cause in the window that began with the call, whatever others did meanwhile.
/// So has each answer that it gives as it begins.
#[tactic(auto, using(crate::proofs::RunCauses::caused_in_run, crate::proofs::RunBegins::caused_at_once))]
pub fn each_answer_of_a_run_has_its_cause()
    ensures running { (c d : Core) (k : ℕ) (own : Own) (asked : Call) (moves : List Move) (m : Machine) (s : AtomicStep) (a : Answer) → IsCore c →
        IsUnderWay c k own asked moves d m → plan_of m ≡ plan.Step s → plan_of (got_of m (word_in d s)) ≡ plan.Answered a → HasCause c k asked d m (word_in d s) a }
    ensures at_once { (c : Core) → IsCore c → (k : ℕ) (own : Own) (asked : Call) → seat_in c.seats k ≡ Some (doing.Idle own) → HasBytes asked → CanStart c own asked → (a : Answer) →
        plan_of (started c.table.kind c.table.shape c.seed own asked) ≡ plan.Answered a → CauseAtOnce c.table k c.log (started c.table.kind c.table.shape c.seed own asked) asked a }
{}

/// A try call that still has a step to make has made fewer steps than this, whatever others do. So it answers in time. Its steps
/// are the moves that are steps of its seat.
#[tactic(auto, using(crate::proofs::RunTimes::in_time_in_run))]
pub fn try_calls_answer_in_time()
    ensures law { (c d : Core) (k : ℕ) (own : Own) (asked : Call) (moves : List Move) (m : Machine) → IsCore c → IsUnderWay c k own asked moves d m → IsTryCall asked →
        steps_of k moves < 16 + c.table.shape.text_words + c.table.shape.slots * (4 + c.table.shape.text_words) }
    ensures tries { IsTryCall call.Split × ((text : Bor (List ℕ)) → IsTryCall (call.Intern text) × IsTryCall (call.Lookup text))
        × ((h : Handle) → IsTryCall (call.TextOf h) × IsTryCall (call.Drop h) × IsTryCall (call.Permanent h) × IsTryCall (call.Kill h)) }
    ensures counted { (asked : Call) → steps_of 1 (Step 1 ∷ Step 0 ∷ Rehash ∷ Start 1 asked ∷ Step 1 ∷ []) ≡ 2 }
{}

/// A split that answers with a number has drawn it: it is a number of the table that no seat had, and now a seat has it that is
/// between its calls and has nothing unfinished. A draw that finds a number of the table answers with it and brings its seat, and no
/// other call ever answers so.
#[tactic(auto, using(crate::proofs::RunSplits::draw_answers, crate::proofs::RunSplits::draw_brings, crate::proofs::RunSplits::none_at_once))]
pub fn splits_bring_a_new_seat()
    ensures brings { (c d : Core) (k : ℕ) (own : Own) (moves : List Move) (m : Machine) (s : AtomicStep) (number : ℕ) → IsCore c → IsUnderWay c k own call.Split moves d m →
        plan_of m ≡ plan.Step s → plan_of (got_of m (word_in d s)) ≡ plan.Answered (answer.Split number) → BringsSeat d k m s number }
    ensures draws { (d : Core) (k : ℕ) (m : Machine) → IsCore d → seat_in d.seats k ≡ Some (doing.Running m) → plan_of m ≡ plan.Step step.Draw →
        word_in d step.Draw < d.table.shape.seats → plan_of (got_of m (word_in d step.Draw)) ≡ plan.Answered (answer.Split (word_in d step.Draw)) }
    ensures seat { (d : Core) (k : ℕ) (m : Machine) → IsCore d → word_in d step.Draw < d.table.shape.seats → BringsSeat d k m step.Draw (word_in d step.Draw) }
    ensures others { (c d : Core) (k : ℕ) (own : Own) (asked : Call) (moves : List Move) (m : Machine) (s : AtomicStep) (number : ℕ) → IsCore c → IsUnderWay c k own asked moves d m →
        asked ≢ call.Split → plan_of m ≡ plan.Step s → plan_of (got_of m (word_in d s)) ≡ plan.Answered (answer.Split number) → ⊥ }
    ensures at_once { (c : Core) → IsCore c → (k : ℕ) (own : Own) (asked : Call) (number : ℕ) → seat_in c.seats k ≡ Some (doing.Idle own) →
        plan_of (started c.table.kind c.table.shape c.seed own asked) ≡ plan.Answered (answer.Split number) → ⊥ }
{}

#[cfg(test)]
mod tests {
    use super::*;

    #[test]
    fn laws_can_be_called() {
        states_of_a_run_are_states();
        logs_only_grow();
        calls_are_under_way_from_their_start();
        each_answer_of_a_run_has_its_cause();
        try_calls_answer_in_time();
        splits_bring_a_new_seat();
    }
}
