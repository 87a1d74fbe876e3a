//! Laws of what the words of a table show of its log. Each function does nothing: its contract is the law.
ghost use Rattle.std.specs.Prelude.{ℕ, List, Option};
ghost use Rattle.intern_log.specs.declared.event.Event.{Event};
ghost use Rattle.intern_log.specs.Now.{now_of};
ghost use Rattle.atomic_step.specs.declared.step.Step.{Step};
ghost use Rattle.cht_core.specs.declared.table.Table.{Table};
ghost use Rattle.cht_core.specs.Flow.{Flow};
ghost use Rattle.cht_core.specs.Invariant.{Inv};
ghost use Rattle.cht_core.specs.Memory.{Memory, found};
ghost use Rattle.cht_core.specs.Past.{Past};
ghost use Rattle.cht_core.specs.Shows.{ShowsLog};
ghost use Rattle.cht_core.specs.TableState.{IsTable};
ghost use Rattle.cht_core.specs.View.{View};
ghost use Rattle.cht_core.specs.WordSays.{WordSays};

/// Whatever its seats are at, the words of a table show its log: its counter, level and resize lock, its claims, sections and locks,
/// the words of each linked slot, and its chains.
pub fn the_words_show_the_log()
    ensures law { (t : Table) (m : Memory) (seat : ℕ → Option View) (log : List Event) → Inv t m seat log → ShowsLog t m (now_of t.shape.min_level log) }
{}

/// What the word that a step finds says of the log at that moment, whoever makes the step: a counter the graces so far, a level the level,
/// a head whether its bucket is locked, a count word the count of the live entry.
#[tactic(auto, using(crate::proofs::Says::word_says))]
pub fn words_that_are_found_speak_of_the_log()
    ensures law { (t : Table) (m : Memory) (p : Past) (f : Flow) → IsTable t m p f → (s : Step) → WordSays t p f s (found s m) }
{}
