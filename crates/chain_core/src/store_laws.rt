//! Laws of one store in a chain, for any function that gives the next nodes. Each function does
//! nothing: its contract is the law.
ghost use Rattle.std.specs.Prelude.{◌≡◌, ◌≢◌, ◌<◌, ◌↔◌, ◌++◌, ℕ, List, Option, Some, None, AllPairs, Contains, length, slice_set};
ghost use Rattle.chain_core.specs.Path.{Leads, IsPath, next_in, next_with, without};

/// A store gives one node its next one and leaves all others; no other function does.
pub fn a_store_changes_one_node()
    ensures here { (next : ℕ → Option ℕ) (node : ℕ) (to : Option ℕ) → next_with next node to node ≡ to }
    ensures others { (next : ℕ → Option ℕ) (node : ℕ) (to : Option ℕ) (other : ℕ) → other ≢ node →
        next_with next node to other ≡ next other }
    ensures only { (next new : ℕ → Option ℕ) (node : ℕ) (to : Option ℕ) → new node ≡ to →
        ((other : ℕ) → other ≢ node → new other ≡ next other) → new ≡ next_with next node to }
{}

/// A link that is stored in a list of links is stored so in the function that the list gives.
pub fn links_are_stored_one_by_one()
    ensures law { (links : List (Option ℕ)) (node : ℕ) (to : Option ℕ) → node < length links →
        next_in (slice_set links node to) ≡ next_with (next_in links) node to }
{}

/// A way, and so a path, that does not pass the node whose link is stored stays as it is.
pub fn a_store_elsewhere_leaves_a_way()
    ensures law { (next : ℕ → Option ℕ) (at : ℕ) (stored : Option ℕ) (first to : Option ℕ) (nodes : List ℕ) →
        Leads next first nodes to → ¬ (Contains nodes at) → Leads (next_with next at stored) first nodes to }
{}

/// Where the link of `before` is led past the node after it, each path that passes `before` is the
/// same path without that node. So is a way on which no node is met twice and that does not end at
/// that node.
pub fn a_node_is_taken_out()
    ensures path { (next : ℕ → Option ℕ) (before node : ℕ) → next before ≡ Some node → (first : Option ℕ) (nodes : List ℕ) →
        IsPath next first nodes → Contains nodes before → IsPath (next_with next before (next node)) first (without node nodes) }
    ensures way { (next : ℕ → Option ℕ) (before node : ℕ) → next before ≡ Some node → (first to : Option ℕ) (nodes : List ℕ) →
        Leads next first nodes to → AllPairs (λ earlier later. earlier ≢ later) nodes → to ≢ Some node → Contains nodes before →
        Leads (next_with next before (next node)) first (without node nodes) to }
{}

/// A head that is led past its first node has the same path without that node.
pub fn a_head_is_led_past_its_first_node()
    ensures law { (next : ℕ → Option ℕ) (node : ℕ) (nodes : List ℕ) → IsPath next (Some node) nodes →
        IsPath next (next node) (without node nodes) }
{}

/// Where the link of a node without a next one is led to another chain, a path that passes the node
/// is followed by the path from there.
pub fn a_chain_is_put_after_the_last_node()
    ensures law { (next : ℕ → Option ℕ) (last : ℕ) (other : Option ℕ) → next last ≡ None → (first : Option ℕ) (nodes rest : List ℕ) →
        IsPath next first nodes → Contains nodes last → IsPath next other rest → ¬ (Contains rest last) →
        IsPath (next_with next last other) first (nodes ++ rest) }
{}

/// The nodes that are left without one are all others.
pub fn all_others_are_left()
    ensures law { (node other : ℕ) (nodes : List ℕ) → Contains (without node nodes) other ↔ (Contains nodes other × (other ≢ node)) }
{}

#[cfg(test)]
mod tests {
    use super::*;

    #[test]
    fn laws_can_be_called() {
        a_store_changes_one_node();
        links_are_stored_one_by_one();
        a_store_elsewhere_leaves_a_way();
        a_node_is_taken_out();
        a_head_is_led_past_its_first_node();
        a_chain_is_put_after_the_last_node();
        all_others_are_left();
    }
}
