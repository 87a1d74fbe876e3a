//! Laws of a table that is made anew by the next seed of its hash.
//!
//! Each function does nothing: its contract is the law.
ghost use Rattle.cht_core.specs.Rehash.{KeepsRehash};
ghost use Rattle.cht_core.specs.RehashStays.{SaysTheSame, KeepsWords, IsQuietBefore, HasOneOutcome};

/// From any state that meets the invariant and in which nobody works, a table that is made anew leads to one that meets it, with the
/// same seats, and the event of it may be added to the log. The map, the slots, the sections, the locks, the level and the graces
/// of the log are as they were. So is each word but the heads of the level's row and the links and the meta words of linked slots.
pub fn a_rehash_keeps_the_invariant()
    ensures keeps { KeepsRehash }
    ensures now { SaysTheSame }
    ensures words { KeepsWords }
{}

/// Where a table may be made anew, no section is open, no bucket is locked, nobody has the resize lock, and no linked slot is dead.
pub fn a_table_is_quiet_before_a_rehash()
    ensures quiet { IsQuietBefore }
{}

/// There is one way to make a table anew: its words and its log tell each word after it.
pub fn a_rehash_has_one_outcome()
    ensures one { HasOneOutcome }
{}
