//! Texts, handles and the events of a table, and what a list of events stands for.
//!
//! A table interns texts: equal texts have one handle while they are live. Whatever its callers do, in
//! whatever order their steps fall, makes one list of events, the table's **log**. Here are the types of an
//! event, and the definitions by which a log is read: the map from texts to entries that it stands for, which
//! events that map allows, which logs of a table are lawful, and which events are a caller's own. They know
//! of slots, sections, locks and buckets by their events alone, and nothing of chains or words.
//!
//! A [`Replay`] is that map in code: it tells whether the map allows an event, and goes on by one that
//! is allowed. [`first_fault`] finds the first event of a list that the map before it does not allow.
#![tactic(auto)]

pub mod allowed_laws;
pub mod bucket_laws;
pub mod caller_laws;
pub mod cause_laws;
pub mod changes_laws;
pub mod count_laws;
pub mod entry_count_laws;
pub mod entry_laws;
pub mod event;
pub mod event_laws;
pub mod fault;
pub mod fault_laws;
mod fields;
pub mod final_laws;
pub mod grown_log;
pub mod held_laws;
pub mod lawful_logs;
pub mod laws;
pub mod next_laws;
pub mod now_laws;
pub mod plain_log_laws;
pub mod refilled_log;
pub mod rehashed_log;
pub mod replay;
pub mod resize_laws;
pub mod row_laws;
pub mod seed_laws;
pub mod stays_laws;
pub mod text;
pub mod window_laws;
pub mod window_list_laws;
pub mod worked_log;
pub mod worked_plain_logs;

pub use event::{Entry, Event, Handle, Kind, PERMANENT, Released, TableKind, What};
pub use fault::first_fault;
pub use replay::Replay;
pub use text::{MAX_TEXT, Text, TextFault};
