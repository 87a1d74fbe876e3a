//! One law for each kind of atomic step: from any state that meets the invariant a step of the kind, by any seat, leads to one that
//! meets it. Its event may be added to the log, at most its word has changed, and no other seat has moved.
//!
//! Each function does nothing: its contract is the law.
ghost use Rattle.cht_core.specs.Invariant.{Keeps};
ghost use Rattle.atomic_step.specs.declared.access.StepKind.TheVariants.{K1, K2, K3, K4, K5, K6, K7, K8, K9, K10, K11, K12, K13, K14, K15, K16, K17, K18, K19, K20, K21, K22, K23, K24, K25, K26};

/// K1: a load of the number of drawn seats, and the draw of one more.
pub fn draws_keep_the_invariant()
    ensures keeps { Keeps K1 }
{}

/// K2: a swap of 1 into a claim word, whether the slot was free or not.
pub fn claims_keep_the_invariant()
    ensures keeps { Keeps K2 }
{}

/// K3: a store into a link, a count, a meta or a text word of a slot that the seat alone has.
pub fn stores_into_an_own_slot_keep_the_invariant()
    ensures keeps { Keeps K3 }
{}

/// K4: a slot is given back, which the seat had claimed or has unlinked.
pub fn frees_keep_the_invariant()
    ensures keeps { Keeps K4 }
{}

/// K5: a load of a head, by a walker or by a work.
pub fn loads_of_a_head_keep_the_invariant()
    ensures keeps { Keeps K5 }
{}

/// K6: a load of a link, a count, a meta or a text word. A live entry that is seen in a weak table and a drop that sees 65,535 have their events here.
pub fn loads_of_a_slot_keep_the_invariant()
    ensures keeps { Keeps K6 }
{}

/// K7: an exchange of a head to create an entry, whether it succeeds or another was faster.
pub fn creates_keep_the_invariant()
    ensures keeps { Keeps K7 }
{}

/// K8: an exchange of a count word, by a take, a drop, a permanence or a kill, whether it succeeds or not.
pub fn changes_of_a_count_keep_the_invariant()
    ensures keeps { Keeps K8 }
{}

/// K9: a load of the grace counter.
pub fn loads_of_the_counter_keep_the_invariant()
    ensures keeps { Keeps K9 }
{}

/// K10: the seat opens its section with the counter that it loaded.
pub fn openings_of_a_section_keep_the_invariant()
    ensures keeps { Keeps K10 }
{}

/// K11: the seat closes its section.
pub fn closings_of_a_section_keep_the_invariant()
    ensures keeps { Keeps K11 }
{}

/// K12: the counter is raised by 2.
pub fn graces_keep_the_invariant()
    ensures keeps { Keeps K12 }
{}

/// K13: a grace looks at a section word.
pub fn loads_of_a_section_keep_the_invariant()
    ensures keeps { Keeps K13 }
{}

/// K14: an exchange of a head to lock its bucket, whether it succeeds or not.
pub fn locks_keep_the_invariant()
    ensures keeps { Keeps K14 }
{}

/// K15: the seat unlocks the bucket that it has locked.
pub fn unlocks_keep_the_invariant()
    ensures keeps { Keeps K15 }
{}

/// K16: a dead slot is taken out of its chain, at the link before it or at the head.
pub fn unlinkings_keep_the_invariant()
    ensures keeps { Keeps K16 }
{}

/// K17: an exchange of the resize lock, whether it was free or not.
pub fn takings_of_the_resize_lock_keep_the_invariant()
    ensures keeps { Keeps K17 }
{}

/// K18: the owner gives the resize lock back.
pub fn givings_of_the_resize_lock_keep_the_invariant()
    ensures keeps { Keeps K18 }
{}

/// K19: a load of the level.
pub fn loads_of_the_level_keep_the_invariant()
    ensures keeps { Keeps K19 }
{}

/// K20: a load of the new level, by a walker that met a redirected head.
pub fn loads_of_the_new_level_keep_the_invariant()
    ensures keeps { Keeps K20 }
{}

/// K21: a head of the new row is stored with its lock, to which no callers come yet.
pub fn heads_made_keep_the_invariant()
    ensures keeps { Keeps K21 }
{}

/// K22: the word of the new level is stored, as a resize begins to tell it, or it is cleared.
pub fn new_levels_keep_the_invariant()
    ensures keeps { Keeps K22 }
{}

/// K23: the mark of a redirect is stored into a locked head, so that callers go on to the new row.
pub fn redirects_keep_the_invariant()
    ensures keeps { Keeps K23 }
{}

/// K24: an edge is moved past a node of the other side of the bucket that is unzipped.
pub fn moves_keep_the_invariant()
    ensures keeps { Keeps K24 }
{}

/// K25: the level is stored, once each bucket or each pair of buckets is redirected.
pub fn levels_keep_the_invariant()
    ensures keeps { Keeps K25 }
{}

/// K26: the last even node of a pair is led to the odd chain.
pub fn joins_keep_the_invariant()
    ensures keeps { Keeps K26 }
{}
