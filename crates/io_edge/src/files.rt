ghost use Rattle.std.specs.Prelude.{◌≡◌, ℕ, ◌<◌, ◌≤◌, Bool, true, false, List, [], ◌++◌, length, take, Option, IsTrue, IsSome, IfSome, MatchOption, option_map};
ghost use Rattle.io_edge.specs.Faults.{Rose};
ghost use Rattle.io_edge.specs.Got.{IfRead, OnEnd, OnReadFailed, UnlessReadFailed};
ghost use Rattle.io_edge.specs.Opened.{OnReady, OnOpenFailed};

/// The answer of an opening.
#[derive(Clone, Copy, Debug, PartialEq, Eq)]
pub enum Opened {
    /// The file is open, at its first byte.
    Ready,
    /// No file is open, and the count of faults of the name rose.
    Failed,
}

/// The answer of a read.
#[derive(Clone, Copy, Debug, PartialEq, Eq)]
pub enum Got {
    /// That many bytes came, at least one, and stand at the front of the buffer.
    Bytes(usize),
    /// Nothing of the file is left.
    End,
    /// No file is open any more, and the count of faults of its name rose.
    Failed,
}

/// Files that are opened by name, one at a time, and read from front to back.
///
/// Opening a file closes the one that was open before.
pub trait Files {
    // The bytes of the file of each name, where they are told.
    ghost bytes_of: { Self → List ℕ → Option (List ℕ) };

    // The name of the file that is open, where it is told.
    ghost current: { Self → Option (List ℕ) };

    // What is left to read of the file that is open, where it is told.
    ghost rest: { Self → Option (List ℕ) };

    // Whether a file is open.
    ghost is_open: { Self → Bool };

    // The count of faults of each name, at most 2^64 - 1.
    ghost faults: { Self → List ℕ → ℕ };

    /// Opens the file of that name, to be read from its first byte.
    fn open_file(&mut self, name: &str) -> Opened
        ensures opens { OnReady result (is_open self.new ≡ true) }
        ensures named { OnReady result (IfSome (current self.new) (λ n. n ≡ name.now)) }
        ensures told { OnReady result (IsSome (bytes_of self.old name.now) → current self.new ≡ Some name.now) }
        ensures rest { OnReady result (rest self.new ≡ bytes_of self.old name.now) }

        ensures fault { OnOpenFailed result (Rose (faults self.old name.now) (faults self.new name.now)) }
        ensures closes { OnOpenFailed result (is_open self.new ≡ false) }
        ensures forgets { OnOpenFailed result (current self.new ≡ None) }

        ensures keeps { (n : List ℕ) → bytes_of self.new n ≡ bytes_of self.old n }
        ensures never_falls { (n : List ℕ) → faults self.old n ≤ faults self.new n };

    /// Reads the next bytes of the open file into the front of `buf`, at least one unless the end is met.
    fn read_some(&mut self, buf: &mut [u8]) -> Got
        requires open { IsTrue (is_open self.old) }
        requires room { 0 < length buf.old }

        ensures count { IfRead result (λ n. (1 ≤ n) × (n ≤ length buf.old)) }
        ensures takes { IfRead result (λ n. rest self.old ≡ option_map (λ r. take n buf.new ++ r) (rest self.new)) }

        ensures end { OnEnd result (IfSome (rest self.old) (λ r. r ≡ [])) }
        ensures rest_stays { OnEnd result (rest self.new ≡ rest self.old) }

        ensures stays_open { UnlessReadFailed result (is_open self.new ≡ true) }
        ensures stays_current { UnlessReadFailed result (current self.new ≡ current self.old) }

        ensures fault { OnReadFailed result
            (MatchOption (current self.old)
            ((n : List ℕ) → Rose (faults self.old n) (faults self.new n))
            (λ n. Rose (faults self.old n) (faults self.new n))) }
        ensures closes { OnReadFailed result (is_open self.new ≡ false) }
        ensures forgets { OnReadFailed result (current self.new ≡ None) }

        ensures keeps { (n : List ℕ) → bytes_of self.new n ≡ bytes_of self.old n }
        ensures never_falls { (n : List ℕ) → faults self.old n ≤ faults self.new n };
}
