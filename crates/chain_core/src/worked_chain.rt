//! The chain 3, 2, 1, 0, with each store worked out. Each function does nothing: its contract is
//! what comes out.
ghost use Rattle.std.specs.Prelude.{◌≡◌, ℕ, List, Option, Some, None, [], ◌∷◌};
ghost use Rattle.chain_core.specs.Path.{Leads, IsPath, next_in, next_with, without};
ghost use Rattle.chain_core.specs.Worked.{worked_links};

/// Its path, and the way to its node 0.
pub fn the_path_of_the_worked_chain()
    ensures path { IsPath (next_in worked_links) (Some 3) (3 ∷ 2 ∷ 1 ∷ 0 ∷ []) }
    ensures way { Leads (next_in worked_links) (Some 3) (3 ∷ 2 ∷ 1 ∷ []) (Some 0) }
    ensures outside { next_in worked_links 4 ≡ None }
{}

/// After node 2 is taken out, who is at node 2 still finds the rest.
pub fn a_node_of_the_worked_chain_is_taken_out()
    ensures path { IsPath (next_with (next_in worked_links) 3 (Some 1)) (Some 3) (3 ∷ 1 ∷ 0 ∷ []) }
    ensures from_the_node { IsPath (next_with (next_in worked_links) 3 (Some 1)) (Some 2) (2 ∷ 1 ∷ 0 ∷ []) }
    ensures left { without 2 (3 ∷ 2 ∷ 1 ∷ 0 ∷ []) ≡ 3 ∷ 1 ∷ 0 ∷ [] }
{}

/// The chain 7 is put after it.
pub fn a_chain_is_put_after_the_worked_chain()
    ensures path { IsPath (next_with (next_in worked_links) 0 (Some 7)) (Some 3) (3 ∷ 2 ∷ 1 ∷ 0 ∷ 7 ∷ []) }
{}

#[cfg(test)]
mod tests {
    use super::*;

    #[test]
    fn worked_values_can_be_called() {
        the_path_of_the_worked_chain();
        a_node_of_the_worked_chain_is_taken_out();
        a_chain_is_put_after_the_worked_chain();
    }
}
