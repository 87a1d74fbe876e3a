//! Whether a list of events is a lawful log of a table.
//!
//! A lawful log is defined in `intern_log`: each event may follow the events before it, and no handle is
//! created twice. Here that definition is a program. It is for tests, and for a reader who would rather run
//! the definition than read it. It is not made for speed.
//!
//! Nothing except the map of the live texts is kept from one event to the next. What else an event asks, as
//! where a slot is or who has a lock, is read from the events before it, from the first one on. So an event
//! costs the reading of all events before it. A Free of a slot that was unlinked, a ResizeGiven and a Rehash
//! read them once for each of these events.
//!
//! That counts in a counted table are what its callers hold is not asked: it is a law of lawful logs.
#![tactic(auto)]

pub mod check;
mod follow;
mod past;

pub use check::first_unlawful;
