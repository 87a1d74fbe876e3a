//! Laws of events: what was done to which word, in plain numbers. Each function does nothing: its contract
//! is the law.
ghost use Rattle.std.specs.Prelude.{ℕ, List, IfSome};
ghost use Rattle.atomic_step.specs.declared.step.Step.{Step};
ghost use Rattle.atomic_step.specs.Event.{event_of};
ghost use Rattle.atomic_step.specs.EventWord.{SaysWhatWasDone};
ghost use Rattle.atomic_step.specs.Kind.{IsKindOf};
ghost use Rattle.atomic_step.specs.SoundStep.{HasSoundValue, IsBySeat};
ghost use Rattle.atomic_step.specs.Step.{access_of};

/// The event of a step says what was done, to which word, and which word was found. A step without an event
/// is of a kind that has none, or it did not find the word that it looked for.
pub fn events_say_what_was_done()
    ensures law { (text : List ℕ) (seat : ℕ) (s : Step) (word : ℕ) → HasSoundValue s → IsBySeat seat s → SaysWhatWasDone text seat s word (event_of text s word) }
{}

/// The event of a step is one that its kind may have.
pub fn events_are_of_their_kind()
    ensures law { (text : List ℕ) (s : Step) (word : ℕ) → IfSome (event_of text s word) (λ e. IsKindOf e (access_of s).kind) }
{}
