//! Unzipping a chain into two, and joining two chains, as lists of moves.
//!
//! A table that grows splits each bucket in two, and one that shrinks makes one bucket of two, while
//! others read. So a chain is not copied: its nodes stay, and one link is stored after the other, each
//! a move. Between two moves there is time for all who may still read on the old way.
//!
//! Each node is even or odd. Unzipping begins with two heads that both lead to the first node, and
//! goes along the chain. At each node the side to which it does not belong is led past it: the last
//! link of that side, or its head while it has no node yet, gets the node after it. Below, even nodes
//! are `(a)` and odd ones `[b]`, and what a side has passed for good is left of the bar.
//!
//! ```text
//!   the chain        (3) -> [2] -> (1) -> [0]
//!
//!   at first         even: | 3 2 1 0            odd: | 3 2 1 0
//!   OddHead to 2     even: 3 | 2 1 0            odd: | 2 1 0
//!   Link(3) to 1     even: 3 | 1 0              odd: 2 | 1 0
//!   Link(2) to 0     even: 3 1 | 0              odd: 2 | 0
//!   Link(1) to none  even: 3 1                  odd: 2 0
//! ```
//!
//! After each move each side still meets all of its own nodes, and from some node on those of the
//! other too. Who was on a node that a side was led past finds the rest of the chain from there,
//! since the link of that node was not changed by the move.
//!
//! Joining is one move: the odd chain is put after the last even node, or at the even head where
//! there is none. Who reads the odd chain still finds all of it.
//!
//! ```text
//!   at first         even: 3 1                  odd: 2 0
//!   Link(1) to 2     even: 3 1 2 0              odd: 2 0
//! ```
//!
//! The functions here take the chains as slices of links, as in `chain_core`, and calls come one after
//! the other. What one move makes of both paths is a law over any function that gives the next nodes
//! (`move_laws`), such as the words of a table. The contract of `unzip` follows from it, move by move.
//! The chain above is worked out by hand (`worked_moves`).
#![tactic(auto)]

pub mod grow;
pub mod move_laws;
pub mod moves;
pub mod shrink;
pub mod worked_moves;

pub use grow::unzip;
pub use moves::{Heads, Move, Place, apply};
pub use shrink::join;
