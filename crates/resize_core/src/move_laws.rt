//! Laws of one move, for any function that gives the next nodes. Each function does nothing: its
//! contract is the law.
ghost use Rattle.std.specs.Prelude.{◌≡◌, ◌≤◌, ◌+◌, ◌++◌, ℕ, Bool, Option, Some, List, All, filter, length, slice_get, take};
ghost use Rattle.chain_core.specs.Path.{IsPath};
ghost use Rattle.resize_core.specs.declared.moves.Heads.{Heads};
ghost use Rattle.resize_core.specs.declared.moves.Move.{Move};
ghost use Rattle.resize_core.specs.declared.moves.Place.TheVariants.{EvenHead, OddHead};
ghost use Rattle.resize_core.specs.Moves.{IsPlaceIn, Split, split_in, links_after, links_after_all, heads_after, heads_after_all, after_move, after_moves};
ghost use Rattle.resize_core.specs.Unzip.{moves_of, move_past, side_after, IsSplit};
ghost use Rattle.resize_core.specs.Join.{joining, ShareNone};

/// A move in a list of links is that move in the function which the list gives, and so are moves one
/// after the other.
pub fn links_are_moved_as_functions()
    ensures one { (links : List (Option ℕ)) (heads : Heads) (step : Move) → IsPlaceIn (length links) step.place →
        split_in (links_after links step) (heads_after heads step) ≡ after_move (split_in links heads) step }
    ensures all { (links : List (Option ℕ)) (heads : Heads) (moves : List Move) → All (λ step. IsPlaceIn (length links) step.place) moves →
        split_in (links_after_all links moves) (heads_after_all heads moves) ≡ after_moves (split_in links heads) moves }
{}

/// Before the first move both sides have all nodes, and when all nodes are passed each has its own.
pub fn sides_at_first_and_at_the_end()
    ensures first { (next : ℕ → Option ℕ) (first : Option ℕ) (is_odd : ℕ → Bool) (nodes : List ℕ) → IsPath next first nodes →
        IsSplit (record { heads = record { even = first; odd = first }; next = next }) is_odd nodes 0 }
    ensures end { (belongs : ℕ → Bool) (nodes : List ℕ) (k : ℕ) → length nodes ≤ k → side_after belongs k nodes ≡ filter belongs nodes }
{}

/// Where both sides have their paths after k moves, the move at the k-th node gives both their paths
/// after k + 1 moves: the side to which the node does not belong is led past it.
pub fn one_move_leads_the_other_side_past_the_node()
    ensures law { (split : Split) (is_odd : ℕ → Bool) (nodes : List ℕ) (k node : ℕ) → slice_get nodes k ≡ Some node →
        IsSplit split is_odd nodes k → IsSplit (after_move split (move_past split.next is_odd (take k nodes) node)) is_odd nodes (k + 1) }
{}

/// There is one move for each node, and it is the move at that node.
pub fn each_node_has_its_move()
    ensures law { (next : ℕ → Option ℕ) (is_odd : ℕ → Bool) (nodes : List ℕ) (k node : ℕ) → slice_get nodes k ≡ Some node →
        slice_get (moves_of next is_odd EvenHead OddHead nodes) k ≡ Some (move_past next is_odd (take k nodes) node) }
    ensures length { (next : ℕ → Option ℕ) (is_odd : ℕ → Bool) (nodes : List ℕ) →
        length (moves_of next is_odd EvenHead OddHead nodes) ≡ length nodes }
{}

/// So the moves of a chain, made one after the other, unzip it: after each of them both sides have
/// their paths.
pub fn moves_unzip_a_chain()
    ensures law { (next : ℕ → Option ℕ) (first : Option ℕ) (is_odd : ℕ → Bool) (nodes : List ℕ) (k : ℕ) → IsPath next first nodes →
        IsSplit (after_moves (record { heads = record { even = first; odd = first }; next = next }) (take k (moves_of next is_odd EvenHead OddHead nodes))) is_odd nodes k }
{}

/// The move that joins two chains leads the even head to all even and then all odd nodes, and the odd
/// head to the odd ones as before.
pub fn one_move_joins_two_chains()
    ensures even { (split : Split) (even odd : List ℕ) → IsPath split.next split.heads.even even → IsPath split.next split.heads.odd odd → ShareNone even odd →
        IsPath (after_move split (joining split.heads even)).next (after_move split (joining split.heads even)).heads.even (even ++ odd) }
    ensures odd { (split : Split) (even odd : List ℕ) → IsPath split.next split.heads.even even → IsPath split.next split.heads.odd odd → ShareNone even odd →
        IsPath (after_move split (joining split.heads even)).next (after_move split (joining split.heads even)).heads.odd odd }
{}

#[cfg(test)]
mod tests {
    use super::*;

    #[test]
    fn laws_can_be_called() {
        links_are_moved_as_functions();
        sides_at_first_and_at_the_end();
        one_move_leads_the_other_side_past_the_node();
        each_node_has_its_move();
        moves_unzip_a_chain();
        one_move_joins_two_chains();
    }
}
