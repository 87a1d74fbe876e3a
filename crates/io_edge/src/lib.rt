//! The edge to the outside: where bytes come from, and where they go.
//!
//! `Files` opens files by name and reads them piece by piece, and `Sink` takes bytes. Their contracts name
//! the bytes where an implementation tells them, and count faults where it does not: each answer `Failed`
//! comes with a rise of the count of faults of the object that was called.
//!
//! `MemFiles` and `MemSink` keep everything in memory and tell all of it: which call fails, which bytes a
//! read gives and which a write takes follow from their contracts. What `MemFiles` tells of a name is
//! `bytes_named` of its list of files: `new` makes an empty list, `add` puts a file at its end, and the
//! lemma `bytes_named-append` says what that means for each name. `HostFiles` and `HostSink` stand on the
//! files and the standard output of the system. They tell no bytes, and count each fault that the system
//! reports.
#![tactic(auto)]

mod files;
mod host;
mod memory;
mod pace;
mod sink;
#[cfg(test)]
mod tests;

pub use files::{Files, Got, Opened};
pub use host::{HostFiles, HostSink};
pub use memory::{MemFiles, MemSink};
pub use pace::{NoPace, Pace};
pub use sink::{Sink, Wrote};
