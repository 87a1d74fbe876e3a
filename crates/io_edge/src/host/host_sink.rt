ghost use Rattle.std.specs.Prelude.{◌≡◌, ◌<◌, ◌≤◌, length, take};
ghost use Rattle.std.specs.Io.KnownBytes.{Appends, Keeps};
ghost use Rattle.io_edge.specs.Faults.{Rose, raised};
ghost use Rattle.io_edge.specs.Wrote.{IfWrote, OnWriteFailed};

use crate::sink::{Sink, Wrote};
use std::io::{self, Write};
use std::marker::Model;

/// The standard output of the system. Nothing is buffered: a write that fails is reported at once.
///
/// Each error that the system reports is a fault, and so is a write that takes no byte. The count of faults
/// stays at its end, 2^64 - 1.
#[derive(Drop)]
pub struct HostSink<R: Print + Drop> {
    rt: R,
    faults: u64,
}

impl<R: Print + Drop> Model for HostSink<R> {
    ghost use Rattle.std.specs.Prelude.{ℕ};

    ghost Value = { ℕ };

    ghost view = { λ a. a.faults };
}

impl<R: Print + Drop> HostSink<R> {
    /// No fault was met.
    pub fn new(rt: R) -> HostSink<R>
        ensures fresh { result ≡ 0 }
    {
        HostSink { rt, faults: 0 }
    }
}

impl<R: Print + Drop> Sink for HostSink<R> {
    ghost use Rattle.std.specs.Prelude.{None};

    ghost written = { λ _. None };

    ghost faults = { λ faults. faults };

    fn write_some(&mut self, piece: &[u8]) -> Wrote
        requires some { 0 < length piece.now }

        ensures count { IfWrote result (λ n. (1 ≤ n) × (n ≤ length piece.now)) }

        ensures fault { OnWriteFailed result (Rose self.old self.new) }
        ensures never_falls { self.old ≤ self.new }

        // One fault is counted where the write failed, and none where bytes were taken.
        ensures after_bytes { IfWrote result (λ _. self.new ≡ self.old) }
        ensures after_failed { OnWriteFailed result (self.new ≡ raised self.old) }
    {
        write_counted(&mut io::writer(&self.rt), &mut self.faults, piece)
    }
}

/// Writes some bytes from the front of the piece, and counts a fault where the writer took none.
///
/// The number in the answer is how many bytes the writer took, where it tells them.
fn write_counted<W: Write>(to: &mut W, faults: &mut u64, piece: &[u8]) -> Wrote
    ensures count { IfWrote result (λ n. (1 ≤ n) × (n ≤ length piece.now)) }
    ensures appends { IfWrote result (λ n. Appends (W.contents to.old) (W.contents to.new) (take n piece.now)) }
    ensures no_fault { IfWrote result (λ _. faults.new ≡ faults.old) }

    ensures fault { OnWriteFailed result (faults.new ≡ raised faults.old) }
    ensures unchanged { OnWriteFailed result (Keeps (W.contents to.old) (W.contents to.new)) }
{
    match to.write(piece) {
        Ok(count) if 0 < count => Wrote::Bytes(count),
        _ => {
            *faults = faults.saturating_add(1);
            Wrote::Failed
        }
    }
}

#[cfg(test)]
mod tests;
