//! Laws of the parts of the invariant of a table in a resize: where its heads lead while a grow unzips a bucket or a shrink joins a
//! pair, and where walkers may stand meanwhile. They hold whether the seat polls its grow or its shrink, or has left it unfinished.
//! Each function does nothing: its contract is the law.
ghost use Rattle.std.specs.Prelude.{ℕ, List, Option};
ghost use Rattle.intern_log.specs.declared.event.Event.{Event};
ghost use Rattle.intern_log.specs.Now.{now_of};
ghost use Rattle.cht_core.specs.declared.table.Table.{Table};
ghost use Rattle.cht_core.specs.Invariant.{Inv};
ghost use Rattle.cht_core.specs.Memory.{Memory};
ghost use Rattle.cht_core.specs.PartsResize.{LinkedSlotsAreOnPaths, ChainsAreUnzipped, MovesAreOfUnzipping, PairsAreJoined};
ghost use Rattle.cht_core.specs.PartsResize.{WalkersKeepToTheirSides, WalkersStayInTheirPairs, WalkersStandOnPaths};
ghost use Rattle.cht_core.specs.View.{View};

/// Each linked slot is on the path from the head to which callers of its text come, at any stage of a resize. That is the head of its
/// bucket in the level's row, or where this one is redirected in the row that the new-level word names.
pub fn linked_slots_are_on_a_path()
    ensures law { (t : Table) (m : Memory) (seat : ℕ → Option View) (log : List Event) → Inv t m seat log → LinkedSlotsAreOnPaths m (now_of t.shape.min_level log) }
{}

/// From the redirect of a bucket to its first unlock a grow unzips it. Its linked slots are in an order, each once, in which a number of
/// moves were made. The new head of the even bucket leads to the even ones among as many first nodes, and then to all that are left.
/// That of the odd bucket leads to the odd ones among them, and then to all that are left. The node that the grow comes to next is the
/// first one that is left.
pub fn unzipped_chains_are_split()
    ensures law { (t : Table) (m : Memory) (seat : ℕ → Option View) (log : List Event) → Inv t m seat log → ChainsAreUnzipped m (now_of t.shape.min_level log) seat }
{}

/// The move that a grow makes next is that which `resize_core` says for unzipping these nodes after so many moves: at a node of one side
/// the other side is led past it, by the link of its last own node that was passed, or by its head where there is none.
pub fn moves_are_those_of_unzipping()
    ensures law { (t : Table) (m : Memory) (seat : ℕ → Option View) (log : List Event) → Inv t m seat log → MovesAreOfUnzipping m (now_of t.shape.min_level log) seat }
{}

/// From the join of a pair to the second of its redirects the new head leads to the linked slots of the even bucket, each once, and then
/// to those of the odd one, along which the odd head leads too.
pub fn joined_pairs_lead_to_both_chains()
    ensures law { (t : Table) (m : Memory) (seat : ℕ → Option View) (log : List Event) → Inv t m seat log → PairsAreJoined m (now_of t.shape.min_level log) seat }
{}

/// Where a grow unzips the bucket of a walker's text, a linked node of the walk, be it the walker's own or one ahead, is on the path of
/// the side of that text after the moves so far. Where the raise for the last move was not made, or the section was open by then, it may
/// also be on that path as it was before the last move. Each other node of the walk was unlinked after the walker's Open.
pub fn walkers_keep_to_their_sides()
    ensures law { (t : Table) (m : Memory) (seat : ℕ → Option View) (log : List Event) → Inv t m seat log → WalkersKeepToTheirSides m (now_of t.shape.min_level log) seat }
{}

/// Where a shrink redirects the pair of a walker's text, each linked node of the walk is on the path from the pair's new head, and where
/// the text is of the odd bucket on that from the odd head. Each other one was unlinked after the walker's Open.
pub fn walkers_stay_in_their_pairs()
    ensures law { (t : Table) (m : Memory) (seat : ℕ → Option View) (log : List Event) → Inv t m seat log → WalkersStayInTheirPairs m (now_of t.shape.min_level log) seat }
{}

/// Where no grow unzips the bucket of a walker's text, and no shrink redirects its pair, each linked node of the walk is on the path from
/// the head to which callers of that text come, if the walker's section was opened since the last Level. In an older section, which is
/// open in the last stage of a resize alone, each linked node is on the path from a head of the level's row, be it of that text or not.
/// Each other node of the walk was unlinked after the walker's Open.
pub fn walkers_stand_where_callers_come()
    ensures law { (t : Table) (m : Memory) (seat : ℕ → Option View) (log : List Event) → Inv t m seat log → WalkersStandOnPaths m (now_of t.shape.min_level log) seat }
{}
