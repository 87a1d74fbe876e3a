//! The shape of a table, and where each of its words stands.
//!
//! A table in shared memory is one list of words of 64 bits. Its shape says how many there are:
//!
//! | from                 | words                                                                        |
//! |----------------------|------------------------------------------------------------------------------|
//! | 0                    | how many seat numbers were drawn, the grace counter, the resize lock, the level, the new level |
//! | 5                    | one section word for each seat number                                         |
//! | 5 + seats            | the rows of heads, from the least level to the greatest, each of 2^level heads |
//! | behind the last row  | the slots, each with its claim, link, count and meta, and its text words      |
//!
//! A section word is written by the thread of its seat alone, at each of its calls, so that it is to have a cache
//! line without another one. Where the greatest row has at least 8 * (seats + 1) heads, the section word of seat i
//! changes places with the head of bucket 8 * (i + 1) of that row; the other heads around it are seldom written.
//!
//! A place names a word by what it is for, and a shape gives its index: no two places have one index,
//! and each index below the number of words is that of a place (`laws`). What the words mean is said
//! in `marked_word`.
#![tactic(auto)]

pub mod laws;
pub mod place;
pub mod shape;

pub use place::Place;
pub use shape::{Shape, ShapeFault};
