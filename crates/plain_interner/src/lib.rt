//! An interner for one thread.
//!
//! It keeps one entry a text while the text is live, and gives it a handle. A counted interner counts
//! the holds on each entry: an intern adds one, a release takes one away, and the entry is gone with
//! its last one. A weak interner counts none: an entry stays until it is killed.
//!
//! A new entry gets the next slot, and no slot is used twice, so every handle is of generation 0 and
//! names one entry for good. There is room for 2^32 - 1 entries over an interner's life.
//!
//! The entries are in a hash map that keeps them side by side, and a list has the place of each slot's
//! entry there. So `intern` hashes the text once where it is live, and twice where it is not;
//! `release`, `kill` and `is_live` hash nothing. A live text is kept once. Beside it the interner keeps
//! four bytes for each slot that it ever gave out. Only an intern that makes a new entry takes memory
//! that stays.
#![tactic(auto)]

mod entries;
mod name;
mod numbers;
pub mod plain;
mod slot_entry;

pub use plain::{Plain, PlainInterned};
