//! Laws of a grow and of a shrink, from its beginning on, over all its polls.
//! Each function does nothing: its contract is the law.
ghost use Rattle.std.specs.Prelude.{◌≡◌, ℕ, ◌≤◌, length, ◌+◌, ◌*◌, ◌-◌, ◌^◌, true, min, List, [], ◌∷◌, Some, None};
ghost use Rattle.intern_log.specs.declared.event.What.TheVariants as what;
ghost use Rattle.table_shape.specs.declared.shape.Shape.{Shape};
ghost use Rattle.table_shape.specs.Shape.{IsSound};
ghost use Rattle.atomic_step.specs.declared.answer.Answer.TheVariants as answer;
ghost use Rattle.atomic_step.specs.declared.answer.Worked.{Worked};
ghost use Rattle.atomic_step.specs.declared.plan.Plan.TheVariants as plan;
ghost use Rattle.atomic_step.specs.declared.step.Edge.TheVariants as edge;
ghost use Rattle.atomic_step.specs.declared.step.Step.TheVariants as step;
ghost use Rattle.atomic_step.specs.Monitor.{after_all, graces, locked};
ghost use Rattle.atomic_step.specs.Run.{AreFitting, after_words};
ghost use Rattle.atomic_step.specs.SoundStep.{CanBeFound};
ghost use Rattle.atomic_step.specs.Turn.{plan_in};
ghost use Rattle.call_machine.specs.declared.resize.Direction.{Direction};
ghost use Rattle.call_machine.specs.declared.resize.Direction.TheVariants.{Grow, Shrink};
ghost use Rattle.call_machine.specs.declared.resize.ResizeAlong.{ResizeAlong};
ghost use Rattle.call_machine.specs.declared.resize.ResizeStage.{ResizeStage};
ghost use Rattle.call_machine.specs.declared.resize.ResizeStage.TheVariants.{PutNewLevel};
ghost use Rattle.call_machine.specs.Polls.{turn_by};
ghost use Rattle.call_machine.specs.Resize.{begun_resize, end_level, half, resize_row};
ghost use Rattle.call_machine.specs.ResizeLocks.{locked_heads, row_left, pairs_left};
ghost use Rattle.call_machine.specs.ResizeMeasure.{left_at, one_poll};
ghost use Rattle.call_machine.specs.ResizeRuns.{Being, IsRun, end_to_come, ends_at, events_of_run, is_done, moves_of_run, rows, two_slots};
ghost use Rattle.call_machine.specs.SoundResize.{LeadsToLevel, IsSoundResize};
ghost use Rattle.call_machine.specs.WorkMonitor.{ends};

/// A grow or a shrink begins sound, where the table has the level to which it leads.
pub fn resizes_begin_sound()
    ensures law { (shape : Shape) (d : Direction) (level : ℕ) → LeadsToLevel shape d level → IsSoundResize shape d (begun_resize level) PutNewLevel }
{}

/// It stays sound by each word that its step may find.
pub fn steps_keep_a_resize_sound()
    ensures law { (shape : Shape) (d : Direction) (w : ResizeAlong) (s : ResizeStage) (word : ℕ) → IsSound shape → IsSoundResize shape d w s →
        CanBeFound shape (resize_row shape d w s).step word → let next = (resize_row shape d w s).next word in IsSoundResize shape d next.0 next.1 }
{}

/// Each Lock of a run is of a head that it has not locked, each Unlock of one that it has, and the heads that are locked are those of
/// its stage.
pub fn heads_locked_by_a_resize()
    ensures law { (shape : Shape) (d : Direction) (level : ℕ) (words : List ℕ) → IsRun shape d level words →
        let end = ends_at shape d level words in after_all locked (Some []) (events_of_run shape d level words) ≡ Some (locked_heads d end.0.0 end.0.1) }
{}

/// A grow that is done has locked each head of the row that it leaves, and has unlocked each other head that it locked.
pub fn a_whole_grow_unlocks_all_but_the_old_row()
    ensures law { (shape : Shape) (level : ℕ) (words : List ℕ) → IsRun shape Grow level words → is_done (ends_at shape Grow level words).1 ≡ true →
        after_all locked (Some []) (events_of_run shape Grow level words) ≡ Some (row_left level (2 ^ level)) }
{}

/// So has a shrink; it locks the heads of the row that it leaves in pairs of a lower and an upper one.
pub fn a_whole_shrink_unlocks_all_but_the_old_row()
    ensures law { (shape : Shape) (level : ℕ) (words : List ℕ) → IsRun shape Shrink level words → is_done (ends_at shape Shrink level words).1 ≡ true →
        after_all locked (Some []) (events_of_run shape Shrink level words) ≡ Some (pairs_left level (2 ^ (level - 1)) (2 ^ (level - 1))) }
{}

/// A grow or a shrink stores the level to which it leads and then gives the resize lock back, each once and in its turn. What it has
/// still to do of this is said by its stage, and as long as it is not done it has not given the lock back.
pub fn a_resize_stores_its_level_and_gives_the_resize_lock_back()
    ensures law { (shape : Shape) (d : Direction) (level : ℕ) (words : List ℕ) → IsRun shape d level words → let end = ends_at shape d level words in
        after_all ends (Some (what.Level (end_level d level) ∷ what.ResizeGiven ∷ [])) (events_of_run shape d level words) ≡ Some (end_to_come d end.0.0 end.0.1 (is_done end.1)) }
{}

/// One that is done has done both, and no more.
pub fn a_whole_resize_stores_its_level_and_gives_the_resize_lock_back()
    ensures law { (shape : Shape) (d : Direction) (level : ℕ) (words : List ℕ) → IsRun shape d level words → is_done (ends_at shape d level words).1 ≡ true →
        after_all ends (Some (what.Level (end_level d level) ∷ what.ResizeGiven ∷ [])) (events_of_run shape d level words) ≡ Some [] }
{}

/// A grow that is done has begun one grace for each node that it moved an edge past, and one after its level.
pub fn a_whole_grow_has_a_grace_for_each_move()
    ensures law { (shape : Shape) (level : ℕ) (words : List ℕ) → IsRun shape Grow level words → is_done (ends_at shape Grow level words).1 ≡ true →
        after_all graces (Some 0) (events_of_run shape Grow level words) ≡ Some (moves_of_run shape Grow level words + 1) }
{}

/// A shrink that is done has begun one grace for each pair of buckets, and one after its level.
pub fn a_whole_shrink_has_a_grace_for_each_pair()
    ensures law { (shape : Shape) (level : ℕ) (words : List ℕ) → IsRun shape Shrink level words → is_done (ends_at shape Shrink level words).1 ≡ true →
        after_all graces (Some 0) (events_of_run shape Shrink level words) ≡ Some (2 ^ (level - 1) + 1) }
{}

/// A grow or a shrink answers at its end with no slot unlinked, its graces, up to 2^64 - 1, and the level to which it led.
pub fn resizes_answer_with_their_counts()
    ensures law { (shape : Shape) (d : Direction) (level : ℕ) (words : List ℕ) (did : Worked) (begun : ℕ) → IsRun shape d level words → (ends_at shape d level words).1 ≡ Some (answer.Done did) →
        after_all graces (Some 0) (events_of_run shape d level words) ≡ Some begun → (did.unlinked ≡ 0) × (did.graces ≡ min begun 18446744073709551615) × (did.level ≡ end_level d level) }
{}

/// What a poll of a sound resize has left falls with each of its steps, as long as it looks at no more nodes of a pair than the table
/// has slots: so it makes at most `half * (slots * (seats + 5) + seats + 30) + seats + 6` steps, where `half` is the number of pairs.
pub fn polls_of_resizes_answer_in_time()
    ensures falls { (shape : Shape) (d : Direction) (at : Being) (words : List ℕ) → IsSound shape → IsSoundResize shape d at.0.0 at.0.1 → AreFitting (one_poll shape d) at words →
        length words + left_at shape d (after_words (one_poll shape d) at words) ≤ left_at shape d at }
    ensures most { (shape : Shape) (d : Direction) (at : Being) (words : List ℕ) → IsSound shape → IsSoundResize shape d at.0.0 at.0.1 → AreFitting (one_poll shape d) at words →
        length words ≤ half d at.0.0.level * (shape.slots * (shape.seats + 5) + shape.seats + 30) + shape.seats + 6 }
{}

/// A grow from level 0 whose only bucket has two nodes, worked by hand: the first belongs to the even side, so that the end of the odd
/// one, its head, is led to the second; that one is odd, and the end of the even one, the link of the first, is led to nothing.
pub fn a_grow_of_two_nodes()
    ensures events { events_of_run two_slots Grow 0 (0 ∷ 4 ∷ 4 ∷ 0 ∷ 0 ∷ 0 ∷ 131073 ∷ 2 ∷ 0 ∷ 0 ∷ 0 ∷ 65537 ∷ 0 ∷ 0 ∷ 2 ∷ 0 ∷ 0 ∷ 0 ∷ 0 ∷ 4 ∷ 0 ∷ 0 ∷ 0 ∷ [])
        ≡ what.Lock 0 0 ∷ what.Lock 1 0 ∷ what.Lock 1 1 ∷ what.Grace ∷ what.Grace ∷ what.Unlock 1 0 ∷ what.Unlock 1 1 ∷ what.Level 1 ∷ what.Grace ∷ what.ResizeGiven ∷ [] }
    ensures first { plan_in (turn_by (rows two_slots Grow) (ends_at two_slots Grow 0 (0 ∷ 4 ∷ 4 ∷ 0 ∷ 0 ∷ 0 ∷ 131073 ∷ 2 ∷ []))) ≡ plan.Step (step.MoveEdge (edge.Head 1 1) (Some 1)) }
    ensures second { plan_in (turn_by (rows two_slots Grow) (ends_at two_slots Grow 0 (0 ∷ 4 ∷ 4 ∷ 0 ∷ 0 ∷ 0 ∷ 131073 ∷ 2 ∷ 0 ∷ 0 ∷ 0 ∷ 65537 ∷ 0 ∷ []))) ≡ plan.Step (step.MoveEdge (edge.Link 0) None) }
    ensures answer { (ends_at two_slots Grow 0 (0 ∷ 4 ∷ 4 ∷ 0 ∷ 0 ∷ 0 ∷ 131073 ∷ 2 ∷ 0 ∷ 0 ∷ 0 ∷ 65537 ∷ 0 ∷ 0 ∷ 2 ∷ 0 ∷ 0 ∷ 0 ∷ 0 ∷ 4 ∷ 0 ∷ 0 ∷ 0 ∷ [])).1
        ≡ Some (answer.Done (record { unlinked = 0; graces = 3; level = 1 })) }
{}

/// A shrink from level 1 whose two buckets have a node each: the link of the even node is led to the odd one.
pub fn a_shrink_of_two_nodes()
    ensures events { events_of_run two_slots Shrink 1 (0 ∷ 4 ∷ 4 ∷ 8 ∷ 8 ∷ 0 ∷ 0 ∷ 0 ∷ 0 ∷ 0 ∷ 0 ∷ 0 ∷ 0 ∷ 0 ∷ 2 ∷ 0 ∷ 0 ∷ 0 ∷ [])
        ≡ what.Lock 1 0 ∷ what.Lock 1 1 ∷ what.Lock 0 0 ∷ what.Grace ∷ what.Unlock 0 0 ∷ what.Level 0 ∷ what.Grace ∷ what.ResizeGiven ∷ [] }
    ensures join { plan_in (turn_by (rows two_slots Shrink) (ends_at two_slots Shrink 1 (0 ∷ 4 ∷ 4 ∷ 8 ∷ 8 ∷ 0 ∷ 0 ∷ []))) ≡ plan.Step (step.JoinChains 0 (Some 1)) }
    ensures answer { (ends_at two_slots Shrink 1 (0 ∷ 4 ∷ 4 ∷ 8 ∷ 8 ∷ 0 ∷ 0 ∷ 0 ∷ 0 ∷ 0 ∷ 0 ∷ 0 ∷ 0 ∷ 0 ∷ 2 ∷ 0 ∷ 0 ∷ 0 ∷ [])).1
        ≡ Some (answer.Done (record { unlinked = 0; graces = 2; level = 0 })) }
{}
