//! Runs one given schedule of calls on a table of plain words, and tells what happened.
//!
//! A script is text. Its first line that counts says what table there is. Each further one starts a call
//! of a seat, makes steps of it, prints a chain, or makes the table anew. A line that is empty or begins
//! with `#` does not count. A line is of the form where its parts, which stand between its spaces, are
//! those that some line writes: `specs/Line.antt` and `specs/Script.antt` say what each writes. So no
//! line has two spellings. Bytes are a script or have one first fault, and never both (`laws`).
#![tactic(auto)]

mod chain;
mod cut;
pub mod laws;
mod line;
mod number;
mod opening;
mod parse;
mod print;
mod run;
mod script;
#[cfg(test)]
mod tests;
mod told;

pub use parse::parse_script;
pub use run::run_script;
pub use script::{Script, ScriptFault};
