ghost use Rattle.std.specs.Prelude.{◌≡◌, ℕ, ◌<◌, ◌≤◌, ◌+◌, false, List, [], ◌++◌, length, take, min, Option, option_map, IsTrue, IfOk};
ghost use Rattle.std.specs.Vec.{vec_len, vec_capacity};
ghost use Rattle.io_edge.specs.Faults.{Rose};
ghost use Rattle.io_edge.specs.MemSinkState.{taken, refused};
ghost use Rattle.io_edge.specs.PlannedCalls.{next_fails};
ghost use Rattle.io_edge.specs.Wrote.{IfWrote, OnWriteFailed};

use super::call_plan::CallPlan;
use crate::sink::{Sink, Wrote};
use std::alloc::{AllocError, Global};
use std::marker::Model;

/// A sink that keeps what it takes in memory, up to a number of bytes that is fixed at the start.
///
/// Writes are numbered from 1. A write fails exactly where its number is listed or no room is left.
#[derive(Debug, Drop)]
pub struct MemSink {
    calls: CallPlan,
    faults: u64,
    bytes: Vec<u8>,
    room: usize,
}

impl Model for MemSink {
    ghost use Rattle.std.specs.Prelude.{◌≤◌, ◌+◌};
    ghost use Rattle.std.specs.Vec.{vec_len, vec_capacity};
    ghost use Rattle.io_edge.specs.MemSinkState.{MemSinkState};

    ghost Value = { MemSinkState };

    ghost view = { λ a. record { calls = a.calls; faults = a.faults; bytes = a.bytes.items; room = a.room } };

    ghost invariant = { λ a. vec_len a.bytes + a.room ≤ vec_capacity a.bytes };
}

impl MemSink {
    /// An empty sink with room for that many bytes, whose writes with the listed numbers fail.
    pub fn new(alloc: Global, room: usize, failing: &[u64]) -> Result<MemSink, AllocError>
        ensures fresh { IfOk result (λ sink. sink ≡ record {
          calls = record { made = 0; failing = failing.now };
          faults = 0;
          bytes = [];
          room = room;
        }) }
    {
        Ok(MemSink {
            calls: CallPlan::new(alloc, failing)?,
            faults: 0,
            bytes: Vec::with_capacity(alloc, room)?,
            room,
        })
    }

    /// All bytes that were written so far.
    pub fn bytes(&self) -> &[u8]
        ensures bytes { result.now ≡ self.now.bytes }
    {
        self.bytes.as_slice()
    }
}

impl Sink for MemSink {
    ghost use Rattle.std.specs.Prelude.{Some};

    ghost written = { λ sink. Some sink.bytes };

    ghost faults = { λ sink. sink.faults };

    fn write_some(&mut self, piece: &[u8]) -> Wrote
        requires some { 0 < length piece.now }

        ensures count { IfWrote result (λ n. (1 ≤ n) × (n ≤ length piece.now)) }
        ensures appends { IfWrote result (λ n. self.new.bytes ≡ self.old.bytes ++ take n piece.now) }

        ensures fault { OnWriteFailed result (Rose (self.old.faults) (self.new.faults)) }
        ensures unchanged { OnWriteFailed result (self.new.bytes ≡ self.old.bytes) }

        ensures never_falls { self.old.faults ≤ self.new.faults }

        // A write fails exactly where it is listed or no room is left, and else takes what fits.
        ensures listed { IsTrue (next_fails self.old.calls) → result ≡ Wrote.Failed }
        ensures full { self.old.room ≡ 0 → result ≡ Wrote.Failed }
        ensures fits { next_fails self.old.calls ≡ false → 0 < self.old.room →
            result ≡ Wrote.Bytes (min (length piece.now) self.old.room) }

        ensures after_bytes { IfWrote result (λ n. self.new ≡ taken self.old (take n piece.now)) }
        ensures after_failed { OnWriteFailed result (self.new ≡ refused self.old) }
    {
        let fails = self.calls.next_fails();
        let count = piece.len().min(self.room);
        if fails || count == 0 {
            self.faults = self.faults.saturating_add(1);
            return Wrote::Failed;
        }
        append_reserved(&mut self.bytes, &piece[..count]);
        self.room -= count;
        Wrote::Bytes(count)
    }
}

/// Appends the piece to a list with room for it.
fn append_reserved(bytes: &mut Vec<u8>, piece: &[u8])
    requires { vec_len bytes.old + length piece.now ≤ vec_capacity bytes.old }
    ensures items { bytes.new.items ≡ bytes.old.items ++ piece.now }
    ensures len { vec_len bytes.new ≡ vec_len bytes.old + length piece.now }
    ensures capacity { vec_capacity bytes.old ≤ vec_capacity bytes.new }
{
    let _ = bytes.extend_from_slice(piece);
}
