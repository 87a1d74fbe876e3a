//! Joining two chains into one.
ghost use Rattle.std.specs.Prelude.{◌≡◌, ◌⊎◌, ◌++◌, ◌∷◌, [], ℕ, List, All, Contains, IfOk, IfErr, MatchResult, length};
ghost use Rattle.chain_core.specs.Path.{IsPathIn};
ghost use Rattle.chain_core.specs.Faults.{IsFaultOf, IsRefused};
ghost use Rattle.chain_core.specs.declared.chain.PathFault.{PathFault};
ghost use Rattle.chain_core.specs.declared.chain.PathFault.TheVariants.{OutOfMemory};
ghost use Rattle.resize_core.specs.Moves as moves;
ghost use Rattle.resize_core.specs.Moves.{IsPlaceIn, links_after_all, heads_after_all};
ghost use Rattle.resize_core.specs.Join.{joining, ShareNone};
ghost use Rattle.resize_core.specs.declared.moves.Place.TheVariants.{EvenHead};

use crate::moves::{Heads, Move, Place};
use chain_core::{PathFault, path};
use std::alloc::Global;

/// The one move that puts the odd chain after the even one: at the link of the last even node, or at
/// the even head where the even chain is empty. Its faults are those of the two paths, the even one
/// first. Two chains that share a node have their ends in common, and then the move makes a loop.
pub fn join(alloc: Global, next: &[Option<u32>], heads: Heads) -> Result<Vec<Move>, PathFault>
    ensures moves { IfOk result (λ moves. (even odd : List ℕ) × IsPathIn next.now heads.even even
        × IsPathIn next.now heads.odd odd × (moves.items ≡ joining heads even ∷ [])) }
    ensures path { IfOk result (λ moves. (even odd : List ℕ) → IsPathIn next.now heads.even even →
        IsPathIn next.now heads.odd odd → ShareNone even odd →
        IsPathIn (links_after_all next.now moves.items) (heads_after_all heads moves.items).even (even ++ odd)) }
    ensures odd_stays { IfOk result (λ moves. (even odd : List ℕ) → IsPathIn next.now heads.even even →
        IsPathIn next.now heads.odd odd → ShareNone even odd →
        IsPathIn (links_after_all next.now moves.items) (heads_after_all heads moves.items).odd odd) }
    ensures inside { IfOk result (λ moves. All (λ step. IsPlaceIn (length next.now) step.place) moves.items) }

    ensures fault { IfErr result (λ fault. (fault ≡ OutOfMemory) ⊎ IsFaultOf next.now heads.even fault
        ⊎ ((even : List ℕ) × IsPathIn next.now heads.even even × IsFaultOf next.now heads.odd fault)) }
    ensures found { (even odd : List ℕ) → IsPathIn next.now heads.even even → IsPathIn next.now heads.odd odd →
        MatchResult result (λ moves. moves.items ≡ joining heads even ∷ []) (λ fault. fault ≡ OutOfMemory) }
    ensures refused { (fault : PathFault) → IsFaultOf next.now heads.even fault → IsRefused fault result }
    ensures refused_odd { (even : List ℕ) (fault : PathFault) → IsPathIn next.now heads.even even →
        IsFaultOf next.now heads.odd fault → IsRefused fault result }
{
    let even = path(alloc, next, heads.even)?;
    let _odd = path(alloc, next, heads.odd)?;
    let mut moves = Vec::new(alloc);
    moves.push(Move {
        place: end_of(&even),
        to: heads.odd,
    })?;
    Ok(moves)
}

// Where the link is that leads out of the even chain of these nodes.
fn end_of(nodes: &[u32]) -> Place
    ensures value { result ≡ moves.end_of EvenHead nodes.now }
{
    match nodes.last() {
        None => Place::EvenHead,
        Some(last) => Place::Link(*last),
    }
}

#[cfg(test)]
mod tests {
    use super::*;
    use crate::moves::apply;
    use std::test::Fail;

    // Links, the first even and the first odd node, where the move stores the odd one, and the path at
    // the end.
    static JOINS: [(&[Option<u32>], Option<u32>, Option<u32>, Place, &[u32]); 5] = [
        (&[None, None], Some(0), Some(1), Place::Link(0), &[0, 1]),
        (&[None, None], None, Some(1), Place::EvenHead, &[1]),
        (&[None, None], Some(0), None, Place::Link(0), &[0]),
        (&[None, None], None, None, Place::EvenHead, &[]),
        (
            &[None, None, Some(0), Some(1)],
            Some(3),
            Some(2),
            Place::Link(1),
            &[3, 1, 2, 0],
        ),
    ];

    // The links of an even chain from 0 and an odd one from 1, and the first fault.
    static FAULTS: [(&[Option<u32>], PathFault); 3] = [
        (&[Some(0), None], PathFault::Loop { node: 0 }),
        (&[None, Some(7)], PathFault::Outside { node: 7 }),
        // the even chain first
        (&[Some(5), Some(7)], PathFault::Outside { node: 5 }),
    ];

    #[test]
    fn joins_with_empty_sides(rt: HostRuntime) -> Result<(), Fail> {
        for (links, even, odd, place, joined) in JOINS {
            let mut next = Vec::from_slice(rt.alloc(), links)?;
            let mut heads = Heads { even, odd };
            let moves = join(rt.alloc(), links, heads)?;
            assert_eq!(rt; moves.len(), 1);
            for step in moves.iter() {
                assert_eq!(rt; *step, Move { place, to: odd });
                if step.place.is_in(next.len()) {
                    apply(next.as_mut_slice(), &mut heads, *step);
                }
            }
            assert_eq!(rt;
                path(rt.alloc(), next.as_slice(), heads.even)?.as_slice(),
                joined
            );
        }
        Ok(())
    }

    #[test]
    fn faults_of_both_chains(rt: HostRuntime) {
        let heads = Heads {
            even: Some(0),
            odd: Some(1),
        };
        for (links, fault) in FAULTS {
            assert_eq!(rt; join(rt.alloc(), links, heads).err(), Some(fault));
        }
    }
}
