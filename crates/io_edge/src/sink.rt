ghost use Rattle.std.specs.Prelude.{◌≡◌, ℕ, ◌<◌, ◌≤◌, List, ◌++◌, length, take, Option, option_map};
ghost use Rattle.io_edge.specs.Faults.{Rose};
ghost use Rattle.io_edge.specs.Wrote.{IfWrote, OnWriteFailed};

/// The answer of a write.
#[derive(Clone, Copy, Debug, PartialEq, Eq)]
pub enum Wrote {
    /// That many bytes were taken, at least one: the first ones of the piece.
    Bytes(usize),
    /// No byte was taken, and the count of faults rose.
    Failed,
}

/// A place where bytes go, in the order in which they are written.
pub trait Sink {
    // All bytes that were taken so far, where they are told.
    ghost written: { Self → Option (List ℕ) };

    // The count of faults, at most 2^64 - 1.
    ghost faults: { Self → ℕ };

    /// Takes bytes from the front of `piece`, one at least.
    fn write_some(&mut self, piece: &[u8]) -> Wrote
        requires some { 0 < length piece.now }

        ensures count { IfWrote result (λ n. (1 ≤ n) × (n ≤ length piece.now)) }
        ensures appends { IfWrote result (λ n. written self.new ≡ option_map (λ w. w ++ take n piece.now) (written self.old)) }

        ensures fault { OnWriteFailed result (Rose (faults self.old) (faults self.new)) }
        ensures unchanged { OnWriteFailed result (written self.new ≡ written self.old) }

        ensures never_falls { faults self.old ≤ faults self.new };
}
