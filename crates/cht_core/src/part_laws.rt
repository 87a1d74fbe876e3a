//! Laws of the parts of the invariant of a table: what its words, its log and what its seats are at say together, after each
//! step of any seat. Each function does nothing: its contract is the law.
ghost use Rattle.std.specs.Prelude.{ℕ, List, Option, Some};
ghost use Rattle.intern_log.specs.declared.event.Event.{Event};
ghost use Rattle.intern_log.specs.declared.event.What.TheVariants as what;
ghost use Rattle.intern_log.specs.Log.{HandlesDiffer};
ghost use Rattle.intern_log.specs.Now.{now_of};
ghost use Rattle.intern_log.specs.Sections.{IsGraced};
ghost use Rattle.intern_log.specs.Short.{IsShort};
ghost use Rattle.cht_core.specs.declared.table.Table.{Table};
ghost use Rattle.cht_core.specs.Edges.{UnlinkedLead};
ghost use Rattle.cht_core.specs.Invariant.{Inv};
ghost use Rattle.cht_core.specs.Memory.{Memory};
ghost use Rattle.cht_core.specs.Parts.{EdgesLead, UnlinkedLeadLater, SectionsAreCounted, SectionsAreCountedAtOpen, WalkersStandSafely, WalkersAreLedSafely, GracesHavePlaces, PassedSectionsAreNewer};
ghost use Rattle.cht_core.specs.Parts.{WalksAreRouted, WalkersMissNothing, FirstNodesAreOld, InsertedTextsAreAbsent, NodesAreVisitedOnce, PassedNodesAreFew};
ghost use Rattle.cht_core.specs.Parts.{LiveSlotsDiffer, TextsHaveOneEntry, IsFreedSafely, TakenSlotsAreKnown};
ghost use Rattle.cht_core.specs.Past.{Past, kind_of, MayTell};
ghost use Rattle.cht_core.specs.View.{View};

/// The link of a linked slot, and each head of the level's row that is not redirected, lead to a linked slot or to none. The link of an
/// unlinked slot leads to none, or to another slot that was linked as it was unlinked. So it leads to no slot that was unlinked before it.
pub fn edges_lead_to_linked_slots()
    ensures law { (t : Table) (m : Memory) (seat : ℕ → Option View) (log : List Event) → Inv t m seat log → EdgesLead m (now_of t.shape.min_level log) }
    ensures unlinked { (t : Table) (m : Memory) (seat : ℕ → Option View) (log : List Event) → Inv t m seat log → UnlinkedLead t m log }
    ensures later { (t : Table) (m : Memory) (seat : ℕ → Option View) (log : List Event) → Inv t m seat log → UnlinkedLeadLater m (now_of t.shape.min_level log) }
{}

/// A section word without its lowest bit is at most the counter, and in a log of fewer than 2^47 Creates at most what the counter was at
/// the section's Open. The node of a walker, and each node that lies ahead of it, is linked, or was unlinked after the Open of the
/// walker's section.
pub fn sections_hold_what_their_walkers_meet()
    ensures counter { (t : Table) (m : Memory) (seat : ℕ → Option View) (log : List Event) → Inv t m seat log → SectionsAreCounted m }
    ensures opened { (t : Table) (m : Memory) (seat : ℕ → Option View) (log : List Event) → Inv t m seat log → IsShort log → SectionsAreCountedAtOpen t m (now_of t.shape.min_level log) log }
    ensures node { (t : Table) (m : Memory) (seat : ℕ → Option View) (log : List Event) → Inv t m seat log → WalkersStandSafely (now_of t.shape.min_level log) seat }
    ensures ahead { (t : Table) (m : Memory) (seat : ℕ → Option View) (log : List Event) → Inv t m seat log → WalkersAreLedSafely m (now_of t.shape.min_level log) seat }
{}

/// For each grace of a seat there is a place before which the slots that wait for it were unlinked, and after which each open section was
/// opened whose number the grace has passed. So no section of a passed number was open as one of these slots was unlinked.
pub fn graces_pass_no_section_that_they_wait_for()
    ensures place { (t : Table) (m : Memory) (seat : ℕ → Option View) (log : List Event) → Inv t m seat log → GracesHavePlaces (now_of t.shape.min_level log) seat }
    ensures waiting { (t : Table) (m : Memory) (seat : ℕ → Option View) (log : List Event) → Inv t m seat log → PassedSectionsAreNewer (now_of t.shape.min_level log) seat }
{}

/// A walk is in the bucket of its text in its row. That is the level's row while nobody has the resize lock, and for a section that was
/// opened since the last Level also while no row is being replaced. The live entry of its text, if there is one, was made at or after the
/// load of the head, or lies ahead of the walker, at any stage of a resize.
pub fn walkers_miss_no_live_entry()
    ensures bucket { (t : Table) (m : Memory) (seat : ℕ → Option View) (log : List Event) → Inv t m seat log → WalksAreRouted (now_of t.shape.min_level log) seat }
    ensures ahead { (t : Table) (m : Memory) (seat : ℕ → Option View) (log : List Event) → Inv t m seat log → WalkersMissNothing m (now_of t.shape.min_level log) seat }
{}

/// Where the head of its walk is the word that an inserter loaded, each live entry of a text of that bucket in that row was made before
/// the load. So the inserter's text has no live entry.
pub fn heads_that_are_as_loaded_have_old_entries()
    ensures old { (t : Table) (m : Memory) (seat : ℕ → Option View) (log : List Event) → Inv t m seat log → FirstNodesAreOld m (now_of t.shape.min_level log) seat }
    ensures absent { (t : Table) (m : Memory) (seat : ℕ → Option View) (log : List Event) → Inv t m seat log → InsertedTextsAreAbsent m (now_of t.shape.min_level log) seat }
{}

/// No node that a walker has passed lies ahead of it, none was passed twice, and they are at most the slots of the table.
pub fn walkers_visit_no_node_twice()
    ensures law { (t : Table) (m : Memory) (seat : ℕ → Option View) (log : List Event) → Inv t m seat log → NodesAreVisitedOnce t m seat }
{}

/// A call has passed no more nodes, since it last began to find its head, than the table has slots. So it answers in as many steps as
/// `call_machine` counts for such walks.
pub fn calls_pass_no_more_nodes_than_there_are_slots()
    ensures law { (t : Table) (m : Memory) (seat : ℕ → Option View) (log : List Event) → Inv t m seat log → PassedNodesAreFew t seat }
{}

/// Two live texts never have one handle, nor one slot. No two slots that are linked with one text both have a count word with a hold.
pub fn live_texts_have_their_own_entries()
    ensures handle { (t : Table) (m : Memory) (seat : ℕ → Option View) (log : List Event) → Inv t m seat log → HandlesDiffer (now_of t.shape.min_level log).texts }
    ensures slot { (t : Table) (m : Memory) (seat : ℕ → Option View) (log : List Event) → Inv t m seat log → LiveSlotsDiffer (now_of t.shape.min_level log) }
    ensures entry { (t : Table) (m : Memory) (seat : ℕ → Option View) (log : List Event) → Inv t m seat log → TextsHaveOneEntry m (now_of t.shape.min_level log) }
{}

/// A Free that may be added to a log, of any length, is that of a slot which its seat has claimed, or which it has unlinked, after every
/// section has closed that was open at the Unlink. So a log of fewer than 2^47 Creates is graced as a whole.
pub fn slots_are_freed_after_their_graces()
    ensures step { (t : Table) (p : Past) (i s : ℕ) → MayTell (kind_of t) p i (Some (what.Free s)) → IsFreedSafely p.now i s }
    ensures log { (t : Table) (m : Memory) (seat : ℕ → Option View) (log : List Event) → Inv t m seat log → IsShort log → IsGraced log }
{}

/// Each slot whose claim word is 1 is linked; or claimed by a seat whose call has it; or unlinked by a seat that is still to free it; or
/// an entry was made in it 2^48 times.
pub fn each_taken_slot_is_known()
    ensures law { (t : Table) (m : Memory) (seat : ℕ → Option View) (log : List Event) → Inv t m seat log → TakenSlotsAreKnown m (now_of t.shape.min_level log) seat log }
{}
