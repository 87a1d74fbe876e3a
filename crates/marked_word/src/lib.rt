//! The words of a table.
//!
//! A table in shared memory is words of 64 bits, each read and written whole. Here stands what the
//! words mean, and nowhere else are numbers packed into one another.
//!
//! | word  | what it holds                                          | value                            | which words |
//! |-------|--------------------------------------------------------|----------------------------------|-------------|
//! | link  | the next node of a chain, or that there is none        | 0, or the node + 1               | at most 2^32 |
//! | head  | the first node of a bucket, its lock and its redirect  | 4 * link + 2 * redirect + lock   | a quarter of it at most 2^32 |
//! | count | the generation of a slot, and how often its text is held | 65,536 * generation + count    | each        |
//! | meta  | the hash of a slot's text, and its length in bytes     | 65,536 * hash + length           | below 2^48  |
//! | section | the counter with which a reader opened its section   | 0, or the counter + 1            | 0, or odd   |
//! | resize lock | the number of the seat that has it               | 0, or the number + 1             | at most 2^32 |
//! | new level | the level of the row that is made                  | 0, or the level + 1              | at most 2^8 |
//!
//! No two values of one kind have one word, and each value comes back from its word (`laws`).
#![tactic(auto)]

pub mod count;
pub mod head;
pub mod laws;
pub mod link;
pub mod meta;
pub mod number;

pub use count::Count;
pub use head::{Head, first_of, is_locked, is_redirected, locked};
pub use link::{link_of, link_word, node_of};
pub use meta::{Meta, hash_in, length_in};
pub use number::{new_level_of, new_level_word, owner_word, section_word};
