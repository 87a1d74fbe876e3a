//! Laws of steps, in plain numbers: of which kinds they are, on which words, and what they leave there.
//! Each function does nothing: its contract is the law.
ghost use Rattle.std.specs.Prelude.{◌≡◌, ◌+◌, ◌/◌, ◌%◌, ◌^◌, ◌<◌, ◌≤◌, ◌↔◌, ℕ, IsTrue};
ghost use Rattle.table_shape.specs.declared.shape.Shape.{Shape};
ghost use Rattle.table_shape.specs.Place.{index_of};
ghost use Rattle.intern_log.specs.declared.event.Handle.{Handle};
ghost use Rattle.atomic_step.specs.declared.access.Deed.{Deed};
ghost use Rattle.atomic_step.specs.declared.access.Deed.TheVariants as deed;
ghost use Rattle.atomic_step.specs.declared.step.Step.{Step};
ghost use Rattle.atomic_step.specs.Access.{op_of, index_in, deed_in, word_after};
ghost use Rattle.atomic_step.specs.Count.{is_live};
ghost use Rattle.atomic_step.specs.Kind.{IsOfKind};
ghost use Rattle.atomic_step.specs.NamedWord.{IsAsNamed};
ghost use Rattle.atomic_step.specs.SoundStep.{HasSoundValue};
ghost use Rattle.atomic_step.specs.Step.{access_of, op_at};

/// Each step is of its kind: it is on a word that the kind is made on, and does to it what the kind does.
pub fn steps_are_of_their_kind()
    ensures law { (s : Step) → HasSoundValue s → IsOfKind (access_of s).kind (access_of s).place (access_of s).deed }
{}

/// Each step is on the word that it names, and stores there the number that it names.
pub fn steps_are_on_the_words_that_they_name()
    ensures law { (s : Step) → IsAsNamed s (access_of s) }
{}

/// The operation of a step is on the index of its word, and does what the step does.
pub fn operations_are_those_of_their_steps()
    ensures at { (shape : Shape) (s : Step) → index_in (op_at shape (access_of s)) ≡ index_of shape (access_of s).place }
    ensures does { (at : ℕ) (d : Deed) → deed_in (op_of at d) ≡ d }
{}

/// A load and an exchange that finds another word leave the word, and each other deed leaves its own.
pub fn words_are_left_by_their_deeds()
    ensures load { (word : ℕ) → word_after deed.Load word ≡ word }
    ensures store { (value word : ℕ) → word_after (deed.Store value) word ≡ value }
    ensures swap { (value word : ℕ) → word_after (deed.Swap value) word ≡ value }
    ensures add { (value word : ℕ) → word + value < 2 ^ 64 → word_after (deed.Add value) word ≡ word + value }
    ensures exchange { (old new : ℕ) → word_after (deed.Exchange old new) old ≡ new }
    ensures lost { (old new word : ℕ) → ¬ (word ≡ old) → word_after (deed.Exchange old new) word ≡ word }
{}

/// A count word is live for a handle where it has the handle's generation and at least one hold.
pub fn live_counts_are_held_in_their_generation()
    ensures law { (h : Handle) (word : ℕ) → IsTrue (is_live h word) ↔ ((word / 65536 ≡ h.generation) × (1 ≤ word % 65536)) }
{}
