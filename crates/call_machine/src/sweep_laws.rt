//! Laws of a sweep, of each of its steps and from its beginning to its end.
//! Each function does nothing: its contract is the law.
ghost use Rattle.std.specs.Prelude.{◌≡◌, ◌⊎◌, ℕ, ◌+◌, ◌*◌, ◌<◌, ◌≤◌, ◌^◌, false, List, [], None, length};
ghost use Rattle.atomic_step.specs.Run.{AreFitting};
ghost use Rattle.atomic_step.specs.Monitor.{section};
ghost use Rattle.call_machine.specs.declared.caller.Caller.{Caller};
ghost use Rattle.call_machine.specs.declared.sweep.Sweeping.{Sweeping};
ghost use Rattle.call_machine.specs.Caller.{IsSoundCaller};
ghost use Rattle.call_machine.specs.SoundSweep.{IsSoundSweep, FitsSweep};
ghost use Rattle.call_machine.specs.Sweep.{begun_sweep, sweep_got, sweep_event};
ghost use Rattle.call_machine.specs.SweepMeasure.{left, GoesOn, between_waits};
ghost use Rattle.call_machine.specs.WholeSweep.{sweeps, due_sweeps, due_event, is_inside, has_locked, unlinked, waiting_slots, Follows, EndsWith, TellsItsUnlinks, IsLastGeneration, IsSweepEvent};
ghost use Rattle.call_machine.specs.WorkMonitor.{locked, unlinks, queue};

/// A sweep begins sound, and stays so by each word that its step may find.
pub fn sweeps_are_sound()
    ensures begin { (caller : Caller) (hash : ℕ) → IsSoundCaller caller → IsSoundSweep (begun_sweep caller hash) }
    ensures step { (s : Sweeping) (word : ℕ) → word < 2 ^ 64 → IsSoundSweep s → FitsSweep s word → IsSoundSweep (sweep_got s word) }
{}

/// A sweep opens and closes its section, locks and unlocks its bucket, unlinks slots and frees them, and begins a grace. It has no
/// other event.
pub fn events_of_a_sweep()
    ensures law { (s : Sweeping) (word : ℕ) → IsSweepEvent (sweep_event s word) }
{}

/// A sweep opens its section outside it and closes it inside it, and once it has answered its Opens and Closes have come in pairs.
pub fn sections_of_a_sweep_come_in_pairs()
    ensures run { Follows sweeps section is_inside }
    ensures end { EndsWith sweeps section false }
{}

/// A sweep locks a bucket where it has none locked and unlocks the one that it has, and once it has answered its Locks and Unlocks
/// have come in pairs.
pub fn locks_of_a_sweep_come_in_pairs()
    ensures run { Follows sweeps locked has_locked }
    ensures end { EndsWith sweeps locked None }
{}

/// Each Unlink raises by one how many slots a sweep has unlinked. It answers with this number, up to 2^32 - 1, or that the counter
/// is spent.
pub fn a_sweep_answers_with_how_many_slots_it_unlinked()
    ensures run { Follows sweeps unlinks unlinked }
    ensures end { TellsItsUnlinks }
{}

/// A sweep frees the slots that it unlinks in the order of their unlinking, and those that are not free yet still wait. Once it has
/// answered it has freed each. The slots of generation 2^48 - 1 are left out, and no other.
pub fn slots_of_a_sweep_are_freed_in_the_order_of_their_unlinking()
    ensures run { Follows due_sweeps queue waiting_slots }
    ensures end { EndsWith due_sweeps queue [] }
    ensures due { (s : Sweeping) (word : ℕ) → (due_event s word ≡ sweep_event s word) ⊎ IsLastGeneration s.stage }
{}

/// Where its chain has at most as many nodes as the table has slots, each step of a sweep lowers how many are left, unless it waits:
/// for a bucket that another has locked, or for a section.
pub fn a_sweep_goes_on_in_time()
    ensures step { (s : Sweeping) (word : ℕ) → IsSoundSweep s → GoesOn s word → left (sweep_got s word) < left s }
    ensures run { (s : Sweeping) (words : List ℕ) → IsSoundSweep s → AreFitting between_waits s words →
        length words ≤ 524 + s.asked.caller.shape.seats + 3 * s.asked.caller.shape.slots }
{}
