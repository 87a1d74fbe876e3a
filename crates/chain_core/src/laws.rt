//! Laws of paths. Each function does nothing: its contract is the law.
ghost use Rattle.std.specs.Prelude.{◌≡◌, ◌≢◌, ◌++◌, ◌⊎◌, ℕ, List, Option, Some, AllPairs, Contains};
ghost use Rattle.chain_core.specs.Path.{Leads, IsPath, IsPathWithin, IsPathIn};
ghost use Rattle.chain_core.specs.Faults.{IsFaultWithin, IsFaultOf};
ghost use Rattle.chain_core.specs.declared.chain.PathFault.{PathFault};

/// A chain has one path at the most.
pub fn paths_are_one()
    ensures law { (next : ℕ → Option ℕ) (first : Option ℕ) (a b : List ℕ) → IsPath next first a → IsPath next first b → a ≡ b }
{}

/// No node is on a path twice.
pub fn nodes_of_a_path_differ()
    ensures law { (next : ℕ → Option ℕ) (first : Option ℕ) (nodes : List ℕ) → IsPath next first nodes →
        AllPairs (λ earlier later. earlier ≢ later) nodes }
{}

/// What is met before a node of the chain begins the path, and the rest of it is the path from there.
pub fn way_begins_the_path()
    ensures law { (next : ℕ → Option ℕ) (first to : Option ℕ) (met nodes : List ℕ) → Leads next first met to → IsPath next first nodes →
        (rest : List ℕ) × (nodes ≡ met ++ rest) × IsPath next to rest }
{}

/// A way and the path from where it ends are one path.
pub fn way_goes_on()
    ensures law { (next : ℕ → Option ℕ) (first middle to : Option ℕ) (met rest : List ℕ) → Leads next first met middle → Leads next middle rest to →
        Leads next first (met ++ rest) to }
{}

/// A way stays where another next node is given to a node that it does not meet.
pub fn way_stays()
    ensures law { (next new : ℕ → Option ℕ) (changed : ℕ) → ((node : ℕ) → node ≢ changed → new node ≡ next node) →
        (first to : Option ℕ) (met : List ℕ) → ¬ (Contains met changed) → Leads next first met to → Leads new first met to }
{}

/// A chain that has a path has no fault, whichever nodes have a link.
pub fn path_has_no_fault()
    ensures law { (next : ℕ → Option ℕ) (bound : ℕ) (first : Option ℕ) (nodes : List ℕ) (fault : PathFault) →
        IsPathWithin next bound first nodes → ¬ (IsFaultWithin next bound first fault) }
{}

/// A chain has one first fault at the most.
pub fn first_fault_is_one()
    ensures law { (next : ℕ → Option ℕ) (bound : ℕ) (first : Option ℕ) (a b : PathFault) →
        IsFaultWithin next bound first a → IsFaultWithin next bound first b → a ≡ b }
{}

/// Every chain has a path or a first fault: one by a function, where the nodes below a bound have a
/// link, and so one by a list of links.
pub fn every_chain_has_a_path_or_a_fault()
    ensures law { (next : ℕ → Option ℕ) (bound : ℕ) (first : Option ℕ) →
        ((nodes : List ℕ) × IsPathWithin next bound first nodes) ⊎ ((fault : PathFault) × IsFaultWithin next bound first fault) }
    ensures links { (links : List (Option ℕ)) (first : Option ℕ) →
        ((nodes : List ℕ) × IsPathIn links first nodes) ⊎ ((fault : PathFault) × IsFaultOf links first fault) }
{}

#[cfg(test)]
mod tests {
    use super::*;

    #[test]
    fn laws_can_be_called() {
        paths_are_one();
        nodes_of_a_path_differ();
        way_begins_the_path();
        way_goes_on();
        way_stays();
        path_has_no_fault();
        first_fault_is_one();
        every_chain_has_a_path_or_a_fault();
    }
}
