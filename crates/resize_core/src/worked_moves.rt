//! The chain 3, 2, 1, 0 with the odd nodes 2 and 0, unzipped and joined again by hand. Each function
//! does nothing: its contract is what comes out.
ghost use Rattle.std.specs.Prelude.{◌≡◌, ◌∷◌, [], not, take, Some, None};
ghost use Rattle.chain_core.specs.Path.{IsPath, next_in};
ghost use Rattle.chain_core.specs.Worked.{worked_links};
ghost use Rattle.resize_core.specs.declared.moves.Place.TheVariants.{EvenHead, OddHead, Link};
ghost use Rattle.resize_core.specs.Moves.{split_in, end_of, after_move, after_moves};
ghost use Rattle.resize_core.specs.Unzip.{moves_of, move_past, side_after};
ghost use Rattle.resize_core.specs.Join.{joining};
ghost use Rattle.resize_core.specs.Worked.{worked_nodes, worked_is_odd, worked_heads, worked_moves};

/// The moves, and the third of them by the nodes that were passed before it.
pub fn moves_of_the_worked_chain()
    ensures moves { moves_of (next_in worked_links) worked_is_odd EvenHead OddHead worked_nodes ≡ worked_moves }
    ensures third { move_past (next_in worked_links) worked_is_odd (3 ∷ 2 ∷ []) 1 ≡ record { place = Link 2; to = Some 0 } }
    ensures end { end_of OddHead (3 ∷ 2 ∷ []) ≡ Link 2 }
{}

/// Both sides after two moves, and their paths.
pub fn sides_of_the_worked_chain_after_two_moves()
    ensures even { side_after (λ node. not (worked_is_odd node)) 2 worked_nodes ≡ 3 ∷ 1 ∷ 0 ∷ [] }
    ensures odd { side_after worked_is_odd 2 worked_nodes ≡ 2 ∷ 1 ∷ 0 ∷ [] }
    ensures even_path { IsPath (after_moves (split_in worked_links worked_heads) (take 2 worked_moves)).next (Some 3) (3 ∷ 1 ∷ 0 ∷ []) }
    ensures odd_path { IsPath (after_moves (split_in worked_links worked_heads) (take 2 worked_moves)).next (Some 2) (2 ∷ 1 ∷ 0 ∷ []) }
    ensures heads { (after_moves (split_in worked_links worked_heads) (take 2 worked_moves)).heads ≡ record { even = Some 3; odd = Some 2 } }
{}

/// The two chains 3, 1 and 2, 0 that come out, joined into one.
pub fn the_worked_chain_is_joined_again()
    ensures stored { joining (record { even = Some 3; odd = Some 2 }) (3 ∷ 1 ∷ []) ≡ record { place = Link 1; to = Some 2 } }
    ensures path { IsPath (after_move (after_moves (split_in worked_links worked_heads) worked_moves) (record { place = Link 1; to = Some 2 })).next
        (Some 3) (3 ∷ 1 ∷ 2 ∷ 0 ∷ []) }
{}

#[cfg(test)]
mod tests {
    use super::*;

    #[test]
    fn worked_values_can_be_called() {
        moves_of_the_worked_chain();
        sides_of_the_worked_chain_after_two_moves();
        the_worked_chain_is_joined_again();
    }
}
