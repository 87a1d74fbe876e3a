//! Laws of the words of a table: what a step changes, and what stays so whatever is done. Each function does
//! nothing: its contract is the law.
ghost use Rattle.std.specs.Prelude.{◌≡◌, ◌/◌, ◌%◌, ◌<◌, ◌≤◌, ◌↔◌, ℕ, List, length};
ghost use Rattle.intern_log.specs.declared.event.Handle.{Handle};
ghost use Rattle.table_shape.specs.declared.shape.Shape.{Shape};
ghost use Rattle.table_shape.specs.declared.place.Place.{Place};
ghost use Rattle.table_shape.specs.Shape.{words_of};
ghost use Rattle.table_shape.specs.Place.{IsInside};
ghost use Rattle.atomic_step.specs.declared.count.Change.{Change};
ghost use Rattle.atomic_step.specs.declared.count.Change.TheVariants.{Kill};
ghost use Rattle.atomic_step.specs.declared.step.Step.{Step};
ghost use Rattle.atomic_step.specs.declared.step.Step.TheVariants as step;
ghost use Rattle.atomic_step.specs.Access.{word_after};
ghost use Rattle.atomic_step.specs.SoundStep.{IsSoundStep, CanStandAt, CanBeFound};
ghost use Rattle.atomic_step.specs.Step.{access_of};
ghost use Rattle.atomic_step.specs.Table.{word_at, words_after, IsWordAt, AreWordsOf, IsReadable, IsFoundAt};

/// A step changes its own word by its deed, and no other word of the table.
pub fn a_step_changes_at_most_its_word()
    ensures length { (shape : Shape) (s : Step) (words : List ℕ) → length (words_after shape s words) ≡ length words }
    ensures own { (shape : Shape) (s : Step) (words : List ℕ) → length words ≡ words_of shape → IsInside shape (access_of s).place
        → word_at shape (access_of s).place (words_after shape s words) ≡ word_after (access_of s).deed (word_at shape (access_of s).place words) }
    ensures others { (shape : Shape) (s : Step) (words : List ℕ) (other : Place) → IsInside shape (access_of s).place → IsInside shape other → ¬ (other ≡ (access_of s).place)
        → word_at shape other (words_after shape s words) ≡ word_at shape other words }
{}

/// A step of a seat leaves words that may stand in the table: a section word is 0 or odd, a head leads to a slot or to none and
/// is locked where it is redirected, a claim is 0 or 1, and so on.
pub fn sound_steps_keep_the_words_of_a_table()
    ensures word { (shape : Shape) (seat : ℕ) (s : Step) (word : ℕ) → seat < shape.seats → IsSoundStep shape seat s
        → IsWordAt shape (access_of s).place word → IsWordAt shape (access_of s).place (word_after (access_of s).deed word) }
    ensures table { (shape : Shape) (seat : ℕ) (s : Step) (words : List ℕ) → length words ≡ words_of shape → seat < shape.seats → IsSoundStep shape seat s
        → AreWordsOf shape words → AreWordsOf shape (words_after shape s words) }
{}

/// A word that may stand in the table is one that a step of it can find: the counter while it has room, and
/// the new level while there is one. Who finds a word knows that it is in range.
pub fn words_of_a_table_can_be_found()
    ensures law { (shape : Shape) (place : Place) (word : ℕ) → IsWordAt shape place word → IsReadable place word → CanStandAt shape place word }
    ensures found { (shape : Shape) (place : Place) (word : ℕ) → CanStandAt shape place word → IsFoundAt shape place word }
{}

/// A count that is loaded for a drop or a permanence is one of the handle's own entry that is held, and any
/// count is found for a kill.
pub fn counts_that_are_changed_are_held()
    ensures held { (shape : Shape) (change : Change) (h : Handle) (word : ℕ) → ¬ (change ≡ Kill) → CanBeFound shape (step.SeeHandle change h) word ↔ ((word / 65536 ≡ h.generation) × (1 ≤ word % 65536)) }
    ensures kill { (shape : Shape) (h : Handle) (word : ℕ) → CanBeFound shape (step.SeeHandle Kill h) word }
{}
