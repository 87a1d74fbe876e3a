//! Laws of the calls that begin a work or a grace, and of the poll of a grace.
//! Each function does nothing: its contract is the law.
ghost use Rattle.std.specs.Prelude.{◌≡◌, ◌<◌, ◌≤◌, ◌+◌, ℕ, Bool, false, Option, Some, None, List, length};
ghost use Rattle.atomic_step.specs.declared.answer.Answer.{Answer};
ghost use Rattle.atomic_step.specs.Monitor.{after_all, resize};
ghost use Rattle.atomic_step.specs.Run.{AreFitting, events_of_words};
ghost use Rattle.call_machine.specs.declared.begin.Beginning.{Beginning};
ghost use Rattle.call_machine.specs.declared.begin.Left.{Left};
ghost use Rattle.call_machine.specs.declared.begin.Task.{Task};
ghost use Rattle.call_machine.specs.declared.caller.Caller.{Caller};
ghost use Rattle.call_machine.specs.declared.grace.Grace.{Grace};
ghost use Rattle.call_machine.specs.Begin.{begins, polls_grace, begin_got, begin_event, beginnings, AnswersBy, is_begun, is_work, IsBeginEvent};
ghost use Rattle.call_machine.specs.Caller.{IsSoundCaller};
ghost use Rattle.call_machine.specs.SoundBegin.{IsSoundBegin, FitsBegin};

/// Each such call of a seat begins sound.
pub fn beginnings_begin_sound()
    ensures begin { (caller : Caller) (task : Option Task) → IsSoundCaller caller → IsSoundBegin (begins caller task) }
    ensures poll { (caller : Caller) (grace : Grace) → IsSoundCaller caller → grace.next < caller.shape.seats → IsSoundBegin (polls_grace caller grace) }
{}

/// It stays sound by each word that its step may find.
pub fn beginnings_stay_sound()
    ensures law { (b : Beginning) (word : ℕ) → IsSoundBegin b → FitsBegin b word → IsSoundBegin (begin_got b word) }
{}

/// It takes the resize lock or gives it back, or raises the counter: it has no other event.
pub fn events_of_beginnings()
    ensures law { (b : Beginning) (word : ℕ) → IsBeginEvent (begin_event b word) }
{}

/// A seat that begins a work has the resize lock then exactly where the work has begun: with each other answer the lock is not
/// taken, or given back. Beginning or polling a grace leaves the lock as it is.
#[tactic(auto, using(crate::proofs::Beginnings::grace_law))]
pub fn resize_lock_after_beginnings()
    ensures work { (caller : Caller) (task : Task) (words : List ℕ) (a : Answer) (left : Left) → let b = begins caller (Some task) in
        AnswersBy b words a left → after_all resize (Some false) (events_of_words beginnings b words) ≡ Some (is_begun a) }
    ensures left { (caller : Caller) (task : Task) (words : List ℕ) (a : Answer) (left : Left) →
        AnswersBy (begins caller (Some task)) words a left → is_work left ≡ is_begun a }
    ensures grace { (caller : Caller) (words : List ℕ) (has : Bool) → let b = begins caller None in
        AreFitting beginnings b words → after_all resize (Some has) (events_of_words beginnings b words) ≡ Some has }
    ensures poll { (caller : Caller) (grace : Grace) (words : List ℕ) (has : Bool) → let b = polls_grace caller grace in
        AreFitting beginnings b words → after_all resize (Some has) (events_of_words beginnings b words) ≡ Some has }
{}

/// Beginning makes at most 4 steps, and the poll of a grace one for each number of a seat that is left to look at.
#[tactic(auto, using(crate::proofs::Beginnings::time_law))]
pub fn beginnings_answer_in_time()
    ensures begin { (caller : Caller) (task : Option Task) (words : List ℕ) → IsSoundCaller caller → AreFitting beginnings (begins caller task) words → length words ≤ 4 }
    ensures poll { (caller : Caller) (grace : Grace) (words : List ℕ) → IsSoundCaller caller → grace.next < caller.shape.seats →
        AreFitting beginnings (polls_grace caller grace) words → length words + grace.next ≤ caller.shape.seats }
{}
