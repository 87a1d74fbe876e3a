//! Chains.
//!
//! A chain is a list of nodes in which each node knows the next one. A node is a number, and a chain
//! is a function that gives the next node of each node, or `None` where it is the last. Several chains
//! may share one function, and a chain has no other start than the node from which it is read.
//!
//! The code here reads such a function from a slice: `next[node]` is the node after `node`. The words
//! of a table give one too, and the laws are about any.
//!
//! ```text
//!   node       0     1     2     3
//!   next     [ None, 0,    None, 1 ]
//!
//!   from 3:    3 -> 1 -> 0            from 2:    2
//! ```
//!
//! `path` reads a chain from a node to its end. `unlink` takes a node out after another one, and
//! `append` puts a chain after the last node of another; each stores one link, and what it leaves of
//! every path is said in its contract. What one store leaves of the paths of any function is a law
//! (`store_laws`), and the contracts of the slices follow from it.
//!
//! A path is a relation between a chain and a list of nodes (`specs/Path.antt`), not what a loop
//! computes. That a chain has one path at the most, or else a first fault, and never both at once,
//! are laws (`laws`). One chain is worked out by hand (`worked_chain`).
#![tactic(auto)]

pub mod chain;
pub mod edit;
pub mod laws;
pub mod store_laws;
pub mod worked_chain;

pub use chain::{PathFault, path};
pub use edit::{append, unlink};
