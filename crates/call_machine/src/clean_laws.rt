//! Laws of a clean, of each of its steps and over all its polls.
//! Each function does nothing: its contract is the law.
ghost use Rattle.std.specs.Prelude.{◌≡◌, ◌⊎◌, ℕ, ◌+◌, ◌*◌, ◌/◌, ◌<◌, ◌≤◌, ◌^◌, List, [], ◌∷◌, Some, None, length};
ghost use Rattle.intern_log.specs.declared.event.What.TheVariants as what;
ghost use Rattle.table_shape.specs.declared.shape.Shape.{Shape};
ghost use Rattle.table_shape.specs.Shape.{IsSound};
ghost use Rattle.atomic_step.specs.declared.answer.Answer.TheVariants as answer;
ghost use Rattle.atomic_step.specs.declared.answer.Worked.{Worked};
ghost use Rattle.atomic_step.specs.Event.{event_of};
ghost use Rattle.atomic_step.specs.Run.{AreFitting, after_words};
ghost use Rattle.atomic_step.specs.SoundStep.{IsLevel, CanBeFound};
ghost use Rattle.call_machine.specs.declared.clean.CleanAlong.{CleanAlong};
ghost use Rattle.call_machine.specs.declared.clean.CleanStage.{CleanStage};
ghost use Rattle.call_machine.specs.declared.clean.CleanStage.TheVariants.{LoadLevel};
ghost use Rattle.call_machine.specs.Clean.{begun_clean, clean_row, worked};
ghost use Rattle.call_machine.specs.CleanMeasure.{left, IsOnPoll, one_poll};
ghost use Rattle.call_machine.specs.SoundClean.{IsSoundClean};
ghost use Rattle.call_machine.specs.WholeClean.{cleans, due_cleans, due_at, begun, has_locked, counted, end_to_come, waiting_slots, Follows, EndsWith, IsLastGeneration, IsCleanEvent};
ghost use Rattle.call_machine.specs.WorkMonitor.{locked, counts, ends, queue};

/// A clean begins sound, and stays so by each word that its step may find.
pub fn cleans_are_sound()
    ensures begin { (shape : Shape) (level : ℕ) → IsLevel shape level → IsSoundClean shape (begun_clean level) LoadLevel }
    ensures step { (shape : Shape) (w : CleanAlong) (s : CleanStage) (word : ℕ) → word < 2 ^ 64 → IsSound shape → IsSoundClean shape w s →
        CanBeFound shape (clean_row shape w s).step word → let went = (clean_row shape w s).next word in IsSoundClean shape went.0 went.1 }
{}

/// A clean locks and unlocks buckets, unlinks slots and frees them, begins graces, and gives the resize lock back. It has no other
/// event.
pub fn events_of_a_clean()
    ensures law { (shape : Shape) (w : CleanAlong) (s : CleanStage) (word : ℕ) → IsCleanEvent (event_of [] (clean_row shape w s).step word) }
{}

/// A clean locks a bucket where it has none locked and unlocks the one that it has, over all its polls. Once it is done its Locks
/// and Unlocks have come in pairs.
pub fn locks_of_a_clean_come_in_pairs()
    ensures run { Follows cleans locked has_locked }
    ensures end { EndsWith cleans locked None (λ did. None) }
{}

/// Each Unlink raises by one how many slots a clean has unlinked, and each Grace how many graces it has begun, up to 2^64 - 1. A
/// clean that is done answers with these numbers, and with its level.
pub fn a_clean_answers_with_what_it_counted()
    ensures run { Follows cleans counts counted }
    ensures end { EndsWith cleans counts (0, 0) (λ did. (did.unlinked, did.graces)) }
    ensures answer { (shape : Shape) (level : ℕ) (words : List ℕ) (did : Worked) → IsSound shape → IsLevel shape level → AreFitting (cleans shape) (begun level) words →
        (after_words (cleans shape) (begun level) words).2 ≡ Some (answer.Done did) → did ≡ worked (after_words (cleans shape) (begun level) words).0 }
{}

/// A clean that is done has made at most as many graces as it has unlinked slots.
pub fn graces_of_a_clean_are_at_most_its_unlinks()
    ensures law { (shape : Shape) (level : ℕ) (words : List ℕ) (did : Worked) → IsSound shape → IsLevel shape level → AreFitting (cleans shape) (begun level) words →
        (after_words (cleans shape) (begun level) words).2 ≡ Some (answer.Done did) → did.graces ≤ did.unlinked }
{}

/// The full passes of a poll over its bucket, which unlinked 256 slots each, are at most `slots / 256 + 1`.
pub fn full_passes_of_a_poll_are_few()
    ensures law { (shape : Shape) (level : ℕ) (words : List ℕ) → AreFitting (cleans shape) (begun level) words →
        (after_words (cleans shape) (begun level) words).0.full_passes ≤ shape.slots / 256 + 1 }
{}

/// Where a chain has at most as many nodes as the table has slots, each step of a poll after the level was loaded lowers how many
/// are left, unless the poll answers. So it makes at most `(2^level * (slots / 256 + 2) + 1) * (518 + seats + 3 * slots)` of them.
pub fn a_poll_of_a_clean_answers_in_time()
    ensures polls { (shape : Shape) (level : ℕ) (words : List ℕ) → IsSound shape → IsLevel shape level → AreFitting (cleans shape) (begun level) words →
        let c = after_words (cleans shape) (begun level) words in IsOnPoll shape (c.0, c.1) }
    ensures step { (shape : Shape) (c : CleanAlong × CleanStage) (word : ℕ) → IsSound shape → IsOnPoll shape c → (one_poll shape).Fits c word →
        let next = (one_poll shape).got c word in left shape next.0 next.1 < left shape c.0 c.1 }
    ensures run { (shape : Shape) (c : CleanAlong × CleanStage) (words : List ℕ) → IsSound shape → IsOnPoll shape c → AreFitting (one_poll shape) c words → length words ≤ left shape c.0 c.1 }
    ensures most { (shape : Shape) (c : CleanAlong × CleanStage) (words : List ℕ) → IsSound shape → IsOnPoll shape c → AreFitting (one_poll shape) c words →
        length words ≤ (2 ^ c.0.cleaning.row * (shape.slots / 256 + 2) + 1) * (518 + shape.seats + 3 * shape.slots) }
{}

/// A clean stores no level, and gives the resize lock back once, at its end alone.
pub fn a_clean_gives_the_resize_lock_back_at_its_end_alone()
    ensures run { Follows cleans ends end_to_come }
    ensures end { EndsWith cleans ends (what.ResizeGiven ∷ []) (λ did. []) }
{}

/// A clean frees the slots that it unlinks in the order of their unlinking, and those that are not free yet still wait. Once it is
/// done it has freed each. The slots of generation 2^48 - 1 are left out, and no other.
pub fn slots_of_a_clean_are_freed_in_the_order_of_their_unlinking()
    ensures run { Follows due_cleans queue waiting_slots }
    ensures end { EndsWith due_cleans queue [] (λ did. []) }
    ensures due { (shape : Shape) (w : CleanAlong) (s : CleanStage) (word : ℕ) → (due_at shape w s word ≡ event_of [] (clean_row shape w s).step word) ⊎ IsLastGeneration s }
{}
