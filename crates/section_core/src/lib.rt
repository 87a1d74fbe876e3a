//! Sections and grace periods, by one counter.
//!
//! Readers read without a lock, so what a writer takes out of a structure may still be read by those
//! who came before. A reader therefore opens a read-side critical section, and the writer, before it
//! destroys what it took out, waits for a grace period: until each section that was open when the
//! grace period began has been left.
//!
//! No set of sections is kept for that. There is one counter, which each grace period raises by 2. A
//! section remembers how far the counter was when it was entered, and a grace period how far it raised
//! it. An open section was open when a grace period began exactly where it remembers less than that, so one
//! number for each reader is all that a grace period has to look at, and several grace periods can run
//! at once. (What is remembered here is how many grace periods had been begun, which says how far the
//! counter was.)
//!
//! ```text
//!   counter    0                      2                      4
//!   reader 0   enter ------------------------------------------------- leave
//!   reader 1         enter -- leave          enter ---------------------------- leave
//!   writer                            begin                  begin
//! ```
//!
//! The first grace period waits for reader 0 alone, since reader 1 had left before it began and came
//! back later. The second waits for both.
//!
//! `Sections` is the plain form, in which calls come one after the other. What a grace period waits for
//! is said in contracts by sets of readers (`specs/Sections.antt`); the comparison of counters is how
//! it is computed.
//!
//! In a table each reader has a section word: 0 while its section is closed, else the counter that it
//! loaded, which is even, with bit 0 set. `waits_for` is the one comparison of such a word with the
//! raised counter. Its laws (`word_laws`) are about one word and about any function from seats to
//! sections, and say that the comparison in `Sections` is this one.
#![tactic(auto)]

pub mod laws;
pub mod sections;
pub mod word_laws;
pub mod words;

pub use sections::{PlainCheck, PlainGrace, Sections, Spent};
pub use words::waits_for;
