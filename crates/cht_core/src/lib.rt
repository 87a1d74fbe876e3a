//! The pure core of the tables: a whole table as one state, and one atomic step of any of its seats.
#![tactic(auto)]

pub mod cause_laws;
mod condition;
pub mod grace_bound_laws;
pub mod kind_laws;
pub mod part_laws;
pub mod pass_laws;
pub mod poll_laws;
pub mod rehash;
pub mod rehash_laws;
pub mod resize_laws;
pub mod run_laws;
pub mod seat;
pub mod seat_laws;
pub mod show_laws;
pub mod state;
pub mod table;
#[cfg(test)]
mod tests;

pub use rehash::Rehashing;
pub use seat::Seat;
pub use state::{MakeFault, OutOfMemory, Started, State, Stepped};
pub use table::Table;
