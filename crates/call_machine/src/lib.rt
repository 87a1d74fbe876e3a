//! The calls of a table as step machines.
//!
//! Each call makes atomic steps on the words of a table, one at a time. It is told the word that a step
//! found, and goes on. The steps, and the protocol that they keep, are told in `atomic_step`.
//!
//! # Where to read
//!
//! A machine has what is asked, which no step changes, what goes along, and a stage. In `specs/` a file a
//! family has a row for each stage: its step, and what comes of the word that it finds. The file in `src/`
//! of the same name says it in code, by a function `step` and a function `next`.
//!
//! [`enter`], [`find`], [`lock`], [`grace`] and [`pass`] are what several calls do. [`calls`] has the calls
//! of readers, inserters and by handle, with their families [`draw`], [`node`], [`insert`], [`leave`],
//! [`handle`] and [`read`]. [`begin`] begins works and graces. [`clean`] and [`resize`] are the works, which
//! [`poll`] goes on with. [`sweep`] cleans the bucket of a text. [`Machine`] is any of them. The modules of
//! laws say what holds of each by itself.
#![tactic(auto)]

pub mod begin;
pub mod begin_laws;
pub mod call;
pub mod call_laws;
pub mod caller;
pub mod calls;
pub mod claim_laws;
pub mod clean;
pub mod clean_laws;
pub mod draw;
pub mod enter;
pub mod find;
pub mod grace;
pub mod grace_laws;
pub mod handle;
pub mod insert;
pub mod leave;
pub mod lock;
pub mod machine;
pub mod machine_laws;
pub mod measure_laws;
pub mod node;
pub mod pass;
pub mod poll;
pub mod read;
pub mod resize;
pub mod resize_laws;
pub mod section_laws;
pub mod sought;
pub mod stage;
pub mod sweep;
pub mod sweep_laws;
#[cfg(test)]
mod tests;
pub mod work;
pub mod work_laws;

pub use atomic_step::{Answer, Op, Place, Shape, ShapeFault, StepKind, Want, Worked};
pub use call::Call;
pub use calls::CallMachine;
pub use grace::Grace;
pub use machine::{Machine, Own};
pub use work::Work;
