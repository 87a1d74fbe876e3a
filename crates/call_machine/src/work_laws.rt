//! Laws of an unfinished work over all its polls: they are those of a clean, or of a grow or a shrink.
//! Each function does nothing: its contract is the law.
ghost use Rattle.std.specs.Prelude.{◌≡◌, ℕ, ◌<◌, ◌^◌};
ghost use Rattle.table_shape.specs.declared.shape.Shape.{Shape};
ghost use Rattle.call_machine.specs.declared.poll.Polling.{Polling};
ghost use Rattle.call_machine.specs.declared.resize.Direction.{Direction};
ghost use Rattle.call_machine.specs.Poll.{poll_got, poll_event, state_of, works, RunsAs, resizing};
ghost use Rattle.call_machine.specs.Polls.{polled_on};
ghost use Rattle.call_machine.specs.ResizeRuns.{resizes};
ghost use Rattle.call_machine.specs.SoundPoll.{FitsPoll};
ghost use Rattle.call_machine.specs.WholeClean.{cleans};
ghost use Rattle.call_machine.specs.Work.{of_clean, resumes};

/// After a step a work is what its poll leaves, and where that is pending the next poll begins. The step has the event of the poll, and
/// each word of 64 bits fits that the poll may be told.
pub fn polls_of_a_work_follow_one_another()
    ensures next { (p : Polling) (word : ℕ) → (works p.caller.shape).got (state_of p) word ≡ polled_on resumes (state_of (poll_got p word)) }
    ensures event { (p : Polling) (word : ℕ) → (works p.caller.shape).event (state_of p) word ≡ poll_event p word }
    ensures fits { (p : Polling) (word : ℕ) → word < 2 ^ 64 → FitsPoll p word → (works p.caller.shape).Fits (state_of p) word }
{}

/// So a clean that is polled runs as the laws of cleans say.
pub fn cleans_are_polled_as_works()
    ensures law { (shape : Shape) → RunsAs shape (cleans shape) of_clean }
{}

/// And a grow or a shrink runs as the laws of resizes say.
pub fn resizes_are_polled_as_works()
    ensures law { (shape : Shape) (d : Direction) → RunsAs shape (resizes shape d) (resizing d) }
{}
