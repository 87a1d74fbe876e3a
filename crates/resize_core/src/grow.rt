//! Unzipping one chain into two.
ghost use Rattle.std.specs.Prelude.{◌≡◌, ◌⊎◌, ◌<◌, ℕ, List, All, IfOk, IfErr, MatchResult, length, take};
ghost use Rattle.chain_core.specs.Path.{IsPathIn, next_in};
ghost use Rattle.chain_core.specs.Faults.{IsFaultOf, IsRefused};
ghost use Rattle.chain_core.specs.declared.chain.PathFault.{PathFault};
ghost use Rattle.chain_core.specs.declared.chain.PathFault.TheVariants.{OutOfMemory};
ghost use Rattle.resize_core.specs.declared.moves.Place.TheVariants.{EvenHead, OddHead, Link};
ghost use Rattle.resize_core.specs.Moves.{IsPlaceIn};
ghost use Rattle.resize_core.specs.Unzip.{marked_odd, moves_of, IsUnzipped, place_past, even_end, odd_end};

use crate::moves::{Move, Place};
use chain_core::{PathFault, path};
use std::alloc::Global;

/// The moves that unzip the chain from `first` into an even and an odd one, where both heads lead to
/// `first` and `odd` says of each node whether it is odd: one for each node of the chain, in order.
/// Its faults are those of the chain's path. Time and memory are in proportion to the number of links.
pub fn unzip(
    alloc: Global,
    next: &[Option<u32>],
    first: Option<u32>,
    odd: &[bool],
) -> Result<Vec<Move>, PathFault>
    requires marked { length odd.now ≡ length next.now }
    ensures moves { IfOk result (λ moves. (nodes : List ℕ) × IsPathIn next.now first nodes
        × (moves.items ≡ moves_of (next_in next.now) (marked_odd odd.now) EvenHead OddHead nodes)) }
    ensures paths { IfOk result (λ moves. (nodes : List ℕ) (k : ℕ) → IsPathIn next.now first nodes →
        IsUnzipped next.now first (marked_odd odd.now) nodes moves.items k) }
    ensures inside { IfOk result (λ moves. All (λ step. IsPlaceIn (length next.now) step.place) moves.items) }

    ensures fault { IfErr result (λ fault. (fault ≡ OutOfMemory) ⊎ IsFaultOf next.now first fault) }
    ensures found { (nodes : List ℕ) → IsPathIn next.now first nodes → MatchResult result
        (λ moves. moves.items ≡ moves_of (next_in next.now) (marked_odd odd.now) EvenHead OddHead nodes)
        (λ fault. fault ≡ OutOfMemory) }
    ensures refused { (fault : PathFault) → IsFaultOf next.now first fault → IsRefused fault result }
{
    let nodes = path(alloc, next, first)?;
    let mut ends = Ends {
        even: Place::EvenHead,
        odd: Place::OddHead,
    };
    let mut moves = Vec::new(alloc);
    for node in nodes.iter() {
        let index = *node as usize;
        let place = ends.pass(*node, odd[index]);
        moves.push(Move {
            place,
            to: next[index],
        })?;
    }
    Ok(moves)
}

// Where the link is that leads out of what each side has passed for good.
#[derive(Drop)]
struct Ends {
    even: Place,
    odd: Place,
}

impl Ends {
    // Passes a node, which becomes the last one of its own side; the answer is where the other side is
    // to be led past it.
    fn pass(&mut self, node: u32, is_odd: bool) -> Place
        ensures place { result ≡ place_past is_odd self.old.even self.old.odd }
        ensures even { self.new.even ≡ even_end is_odd self.old.even node }
        ensures odd { self.new.odd ≡ odd_end is_odd self.old.odd node }
    {
        if is_odd {
            self.odd = Place::Link(node);
            self.even
        } else {
            self.even = Place::Link(node);
            self.odd
        }
    }
}

#[cfg(test)]
mod tests {
    use super::*;
    use crate::moves::{Heads, apply};
    use std::test::Fail;

    // The links of a chain 3, 2, 1, 0, and of the shorter ones that begin further on.
    static NEXT: [Option<u32>; 4] = [None, Some(0), Some(1), Some(2)];

    // An even node.
    const E: bool = false;

    // An odd node.
    const O: bool = true;

    // The first node, which of the nodes 0 to 3 are odd, and the even and the odd path at the end: all
    // patterns of up to four nodes.
    static PATTERNS: [(Option<u32>, [bool; 4], &[u32], &[u32]); 31] = [
        (None, [E, E, E, E], &[], &[]),
        (Some(0), [E, E, E, E], &[0], &[]),
        (Some(0), [O, E, E, E], &[], &[0]),
        (Some(1), [E, E, E, E], &[1, 0], &[]),
        (Some(1), [E, O, E, E], &[0], &[1]),
        (Some(1), [O, E, E, E], &[1], &[0]),
        (Some(1), [O, O, E, E], &[], &[1, 0]),
        (Some(2), [E, E, E, E], &[2, 1, 0], &[]),
        (Some(2), [E, E, O, E], &[1, 0], &[2]),
        (Some(2), [E, O, E, E], &[2, 0], &[1]),
        (Some(2), [E, O, O, E], &[0], &[2, 1]),
        (Some(2), [O, E, E, E], &[2, 1], &[0]),
        (Some(2), [O, E, O, E], &[1], &[2, 0]),
        (Some(2), [O, O, E, E], &[2], &[1, 0]),
        (Some(2), [O, O, O, E], &[], &[2, 1, 0]),
        (Some(3), [E, E, E, E], &[3, 2, 1, 0], &[]),
        (Some(3), [E, E, E, O], &[2, 1, 0], &[3]),
        (Some(3), [E, E, O, E], &[3, 1, 0], &[2]),
        (Some(3), [E, E, O, O], &[1, 0], &[3, 2]),
        (Some(3), [E, O, E, E], &[3, 2, 0], &[1]),
        (Some(3), [E, O, E, O], &[2, 0], &[3, 1]),
        (Some(3), [E, O, O, E], &[3, 0], &[2, 1]),
        (Some(3), [E, O, O, O], &[0], &[3, 2, 1]),
        (Some(3), [O, E, E, E], &[3, 2, 1], &[0]),
        (Some(3), [O, E, E, O], &[2, 1], &[3, 0]),
        (Some(3), [O, E, O, E], &[3, 1], &[2, 0]),
        (Some(3), [O, E, O, O], &[1], &[3, 2, 0]),
        (Some(3), [O, O, E, E], &[3, 2], &[1, 0]),
        (Some(3), [O, O, E, O], &[2], &[3, 1, 0]),
        (Some(3), [O, O, O, E], &[3], &[2, 1, 0]),
        (Some(3), [O, O, O, O], &[], &[3, 2, 1, 0]),
    ];

    #[test]
    fn every_pattern_of_up_to_four_nodes(rt: HostRuntime) -> Result<(), Fail> {
        for (first, odd, evens, odds) in &PATTERNS {
            let mut next = NEXT;
            let mut heads = Heads {
                even: *first,
                odd: *first,
            };
            let moves = unzip(rt.alloc(), &NEXT, *first, odd)?;
            assert_eq!(rt; moves.len(), path(rt.alloc(), &NEXT, *first)?.len());
            for step in moves.iter() {
                let fits = step.place.is_in(next.len());
                assert!(rt; fits);
                if fits {
                    apply(&mut next, &mut heads, *step);
                }
            }
            assert_eq!(rt; path(rt.alloc(), &next, heads.even)?.as_slice(), *evens);
            assert_eq!(rt; path(rt.alloc(), &next, heads.odd)?.as_slice(), *odds);
        }
        Ok(())
    }

    #[test]
    fn moves_of_four_nodes_and_faults(rt: HostRuntime) -> Result<(), Fail> {
        let moves = unzip(rt.alloc(), &NEXT, Some(3), &[O, E, O, E])?;
        let wanted = [
            (Place::OddHead, Some(2)),
            (Place::Link(3), Some(1)),
            (Place::Link(2), Some(0)),
            (Place::Link(1), None),
        ];
        assert_eq!(rt; moves.len(), wanted.len());
        for (step, (place, to)) in moves.iter().zip(wanted) {
            assert_eq!(rt; *step, Move { place, to });
        }

        let outside = unzip(rt.alloc(), &[Some(7)], Some(0), &[E]).err();
        assert_eq!(rt; outside, Some(PathFault::Outside { node: 7 }));
        let again = unzip(rt.alloc(), &[Some(0)], Some(0), &[E]).err();
        assert_eq!(rt; again, Some(PathFault::Loop { node: 0 }));
        Ok(())
    }
}
