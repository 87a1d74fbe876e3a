//! Reading a chain from a node to its end.
ghost use Rattle.std.specs.Prelude.{◌≡◌, ◌⊎◌, IfOk, IfErr, MatchResult, ℕ, List};
ghost use Rattle.chain_core.specs.Path.{IsPathIn};
ghost use Rattle.chain_core.specs.Faults.{IsFaultOf, IsRefused};
ghost use Rattle.chain_core.specs.declared.chain.PathFault.{PathFault};

use std::alloc::{AllocError, AllocFailed, Global};

/// Why a chain has no path to its end.
#[derive(Clone, Copy, Debug, PartialEq, Eq)]
pub enum PathFault {
    /// This node is the first one on the way that has no link.
    Outside { node: u32 },
    /// This node is the first one on the way that was met before.
    Loop { node: u32 },
    /// There was no memory for the nodes.
    OutOfMemory,
}

impl From<AllocError> for PathFault {
    ghost use Rattle.chain_core.specs.declared.chain.PathFault.TheVariants.{OutOfMemory};

    ghost from_gives = { λ _ fault. fault ≡ OutOfMemory };

    fn from(_: AllocError) -> Self {
        PathFault::OutOfMemory
    }
}

impl<T: Drop> From<AllocFailed<T>> for PathFault {
    ghost use Rattle.chain_core.specs.declared.chain.PathFault.TheVariants.{OutOfMemory};

    ghost from_gives = { λ _ fault. fault ≡ OutOfMemory };

    fn from(_: AllocFailed<T>) -> Self {
        PathFault::OutOfMemory
    }
}

/// The nodes from `first` on, in order, to the end of the chain. Where the chain leads to a node
/// without a link, or to one that was met before, the first such node on the way is the fault. It
/// takes time and memory in proportion to the number of links.
pub fn path(alloc: Global, next: &[Option<u32>], first: Option<u32>) -> Result<Vec<u32>, PathFault>
    ensures path { IfOk result (λ nodes. IsPathIn next.now first nodes.items) }
    ensures fault { IfErr result (λ fault. (fault ≡ PathFault.OutOfMemory) ⊎ IsFaultOf next.now first fault) }
    ensures found { (nodes : List ℕ) → IsPathIn next.now first nodes →
        MatchResult result (λ path. path.items ≡ nodes) (λ fault. fault ≡ PathFault.OutOfMemory) }
    ensures refused { (fault : PathFault) → IsFaultOf next.now first fault → IsRefused fault result }
{
    let mut seen = vec![in alloc; false; next.len()]?;
    let mut nodes = Vec::new(alloc);
    let mut at = first;
    while let Some(node) = at {
        let index = node as usize;
        if index >= next.len() {
            return Err(PathFault::Outside { node });
        }
        if seen[index] {
            return Err(PathFault::Loop { node });
        }
        seen[index] = true;
        nodes.push(node)?;
        at = next[index];
    }
    Ok(nodes)
}

#[cfg(test)]
mod tests {
    use super::*;
    use std::test::Fail;

    // A chain of up to four nodes, the node to begin with, and what `path` answers.
    struct Case {
        next: &'static [Option<u32>],
        first: Option<u32>,
        nodes: &'static [u32],
        fault: Option<PathFault>,
    }

    static CASES: [Case; 10] = [
        Case {
            next: &[],
            first: None,
            nodes: &[],
            fault: None,
        },
        Case {
            next: &[None],
            first: Some(0),
            nodes: &[0],
            fault: None,
        },
        Case {
            next: &[Some(1), None],
            first: Some(0),
            nodes: &[0, 1],
            fault: None,
        },
        // two chains in one slice
        Case {
            next: &[None, Some(0), None, Some(1)],
            first: Some(3),
            nodes: &[3, 1, 0],
            fault: None,
        },
        Case {
            next: &[None, Some(0), None, Some(1)],
            first: Some(2),
            nodes: &[2],
            fault: None,
        },
        Case {
            next: &[Some(2), Some(3), Some(1), None],
            first: Some(0),
            nodes: &[0, 2, 1, 3],
            fault: None,
        },
        Case {
            next: &[Some(7)],
            first: Some(0),
            nodes: &[],
            fault: Some(PathFault::Outside { node: 7 }),
        },
        Case {
            next: &[],
            first: Some(0),
            nodes: &[],
            fault: Some(PathFault::Outside { node: 0 }),
        },
        Case {
            next: &[Some(0)],
            first: Some(0),
            nodes: &[],
            fault: Some(PathFault::Loop { node: 0 }),
        },
        // the loop is met after a node that is not in it
        Case {
            next: &[Some(1), Some(2), Some(3), Some(1)],
            first: Some(0),
            nodes: &[],
            fault: Some(PathFault::Loop { node: 1 }),
        },
    ];

    #[test]
    fn paths_and_faults(rt: HostRuntime) -> Result<(), Fail> {
        for case in &CASES {
            match path(rt.alloc(), case.next, case.first) {
                Ok(nodes) => {
                    assert_eq!(rt; nodes.as_slice(), case.nodes);
                    assert_eq!(rt; case.fault, None);
                }
                Err(fault) => assert_eq!(rt; Some(fault), case.fault),
            }
        }
        Ok(())
    }
}
