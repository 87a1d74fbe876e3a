//! The program's commands.
//!
//! `run` takes the words of a command line and does what they say on the files and the output that it
//! is given; `run_plain` and `run_replay` are what it calls for `plain` and `replay`. An `Outcome` has the
//! exit status and a note, and `note_line` stores the line that tells of both. Bytes are scripts that print
//! one text, or have one first line at fault, and never both (`laws`).
#![tactic(auto)]

#[cfg(test)]
mod cases;
mod command;
mod commands;
mod interning;
pub mod laws;
mod limits;
mod literals;
mod names;
mod outcome;
mod plain;
mod reading;
mod replay;
mod settle;
mod writing;

pub use commands::run;
pub use outcome::{Limit, Note, Outcome, note_line};
pub use plain::run_plain;
pub use replay::run_replay;
