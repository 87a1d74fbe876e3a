ghost use Rattle.std.specs.Prelude.{◌≡◌, ◌≢◌, ℕ, ◌<◌, ◌≤◌, ◌+◌, true, false, List, [], ◌∷◌, ◌++◌, length, take, drop, min, Option, None, option_map, is_some, IsTrue, IsSome, IfSome, MatchOption, IfOk, OnErr, nat_lt, if◌then◌else◌, slice_index_or, slice_set};
ghost use Rattle.io_edge.specs.Faults.{Rose, raised};
ghost use Rattle.io_edge.specs.Got.{IfRead, OnEnd, OnReadFailed, UnlessReadFailed};
ghost use Rattle.io_edge.specs.MemFilesState.{bytes_named, place_named, faults_named, current_name, current_rest, is_reading, goes_on, failed_at};
ghost use Rattle.io_edge.specs.Opened.{OnReady, OnOpenFailed};
ghost use Rattle.io_edge.specs.PlannedCalls.{next_fails, one_more};

use super::call_plan::CallPlan;
use super::held_file::HeldFile;
use crate::files::{Files, Got, Opened};
use std::alloc::{AllocError, Global};
use std::marker::Model;

/// The next byte that is read: the file's place among the files, and how many of its bytes were read.
#[derive(Clone, Copy, Debug)]
pub(crate) struct Place {
    file: usize,
    from: usize,
}

/// Files in memory.
///
/// Calls of `open_file` and `read_some` are numbered together, from 1. Those that are listed fail, and so
/// does the opening of a name that no file has; no other call fails. Of files with equal names the first
/// counts. Faults are counted for the name of each file, and together for all names that no file has.
#[derive(Debug, Drop)]
pub struct MemFiles {
    alloc: Global,
    files: Vec<HeldFile>,
    calls: CallPlan,
    faults: Vec<u64>,
    other_faults: u64,
    place: Option<Place>,
}

impl Model for MemFiles {
    ghost use Rattle.std.specs.Prelude.{option_map};
    ghost use Rattle.io_edge.specs.MemFilesState.{MemFilesState, reading_at, IsInOrder};

    ghost Value = { MemFilesState };

    ghost view = { λ a. record {
      files = a.files.items;
      calls = a.calls;
      faults = a.faults.items;
      other_faults = a.other_faults;
      reading = option_map (reading_at a.files.items) a.place;
    } };

    ghost invariant = { λ a. IsInOrder a.files.items a.calls a.faults.items a.place };
}

impl MemFiles {
    /// No files. The calls of `open_file` and `read_some` with the listed numbers will fail.
    pub fn new(alloc: Global, failing: &[u64]) -> Result<MemFiles, AllocError>
        ensures fresh { IfOk result (λ state. state ≡ record {
          files = [];
          calls = record { made = 0; failing = failing.now };
          faults = [];
          other_faults = 0;
          reading = None;
        }) }
    {
        Ok(MemFiles {
            alloc,
            files: Vec::new(alloc),
            calls: CallPlan::new(alloc, failing)?,
            faults: Vec::new(alloc),
            other_faults: 0,
            place: None,
        })
    }

    /// Adds a file, before the first call of `open_file` or `read_some`.
    pub fn add(&mut self, name: &str, bytes: &[u8]) -> Result<(), AllocError>
        requires { self.old.calls.made ≡ 0 }
        ensures ok { IfOk result (λ _. self.new ≡ record self.old {
          files = self.old.files ++ record { name = name.now; bytes = bytes.now } ∷ [];
          faults = self.old.faults ++ 0 ∷ [];
        }) }
        ensures err { OnErr result (self.new ≡ self.old) }
    {
        let file = HeldFile::new(self.alloc, name, bytes)?;
        self.faults.reserve(1)?;
        self.files.push(file)?;
        self.faults.push_reserved(0);
        Ok(())
    }
}

impl Files for MemFiles {
    ghost bytes_of = { λ state. bytes_named state.files };

    ghost current = { current_name };

    ghost rest = { current_rest };

    ghost is_open = { is_reading };

    ghost faults = { faults_named };

    #[tactic(auto, using(crate::proofs::Named::places))]
    fn open_file(&mut self, name: &str) -> Opened
        ensures opens { OnReady result (is_reading self.new ≡ true) }
        ensures named { OnReady result (IfSome (current_name self.new) (λ n. n ≡ name.now)) }
        ensures told { OnReady result (IsSome (bytes_named self.old.files name.now) → current_name self.new ≡ Some name.now) }
        ensures rest { OnReady result (current_rest self.new ≡ bytes_named self.old.files name.now) }

        ensures fault { OnOpenFailed result (Rose (faults_named self.old name.now) (faults_named self.new name.now)) }
        ensures closes { OnOpenFailed result (is_reading self.new ≡ false) }
        ensures forgets { OnOpenFailed result (current_name self.new ≡ None) }

        ensures keeps { (n : List ℕ) → bytes_named self.new.files n ≡ bytes_named self.old.files n }
        ensures never_falls { (n : List ℕ) → faults_named self.old n ≤ faults_named self.new n }

        // It fails exactly where the call is listed or no file has the name.
        ensures listed { IsTrue (next_fails self.old.calls) → result ≡ Opened.Failed }
        ensures missing { bytes_named self.old.files name.now ≡ None → result ≡ Opened.Failed }
        ensures finds { next_fails self.old.calls ≡ false → IsSome (bytes_named self.old.files name.now) →
            result ≡ Opened.Ready }

        ensures after_ready { OnReady result
            (IfSome (bytes_named self.old.files name.now)
            (λ bytes. self.new ≡ goes_on self.old (record { name = name.now; rest = bytes }))) }
        ensures after_failed { OnOpenFailed result (self.new ≡ failed_at self.old name.now) }
    {
        let fails = self.calls.next_fails();
        let file = place_of(self.files.as_slice(), name.as_bytes());
        if fails || file == self.files.len() {
            count_fault(&mut self.faults, &mut self.other_faults, file);
            self.place = None;
            return Opened::Failed;
        }
        self.place = Some(Place { file, from: 0 });
        Opened::Ready
    }

    #[tactic(auto, using(crate::proofs::Named::places))]
    fn read_some(&mut self, buf: &mut [u8]) -> Got
        requires open { IsTrue (is_reading self.old) }
        requires room { 0 < length buf.old }

        ensures count { IfRead result (λ n. (1 ≤ n) × (n ≤ length buf.old)) }
        ensures takes { IfRead result (λ n. current_rest self.old ≡ option_map (λ r. take n buf.new ++ r) (current_rest self.new)) }

        ensures end { OnEnd result (IfSome (current_rest self.old) (λ r. r ≡ [])) }
        ensures rest_stays { OnEnd result (current_rest self.new ≡ current_rest self.old) }

        ensures stays_open { UnlessReadFailed result (is_reading self.new ≡ true) }
        ensures stays_current { UnlessReadFailed result (current_name self.new ≡ current_name self.old) }

        ensures fault { OnReadFailed result
            (MatchOption (current_name self.old)
            ((n : List ℕ) → Rose (faults_named self.old n) (faults_named self.new n))
            (λ n. Rose (faults_named self.old n) (faults_named self.new n))) }
        ensures closes { OnReadFailed result (is_reading self.new ≡ false) }
        ensures forgets { OnReadFailed result (current_name self.new ≡ None) }

        ensures keeps { (n : List ℕ) → bytes_named self.new.files n ≡ bytes_named self.old.files n }
        ensures never_falls { (n : List ℕ) → faults_named self.old n ≤ faults_named self.new n }

        // It fails exactly where the call is listed, and else gives what fits of what is left.
        ensures listed { IsTrue (next_fails self.old.calls) → result ≡ Got.Failed }
        ensures at_end { next_fails self.old.calls ≡ false →
            IfSome self.old.reading (λ reading. reading.rest ≡ [] → result ≡ Got.End) }
        ensures fits { next_fails self.old.calls ≡ false →
            IfSome self.old.reading (λ reading. reading.rest ≢ [] →
            result ≡ Got.Bytes (min (length reading.rest) (length buf.old))) }

        ensures fills { IfRead result (λ n. IfSome self.old.reading (λ reading.
            buf.new ≡ take n reading.rest ++ drop n buf.old)) }
        ensures after_bytes { IfRead result (λ n. IfSome self.old.reading (λ reading.
            self.new ≡ goes_on self.old (record reading { rest = drop n reading.rest }))) }
        ensures after_end { OnEnd result (self.new ≡ record self.old { calls = one_more self.old.calls }) }
        ensures after_failed { OnReadFailed result (IfSome self.old.reading (λ reading. self.new ≡ failed_at self.old reading.name)) }
    {
        let fails = self.calls.next_fails();
        let Some(place) = self.place else {
            unreachable!()
        };
        if fails {
            count_fault(&mut self.faults, &mut self.other_faults, place.file);
            self.place = None;
            return Got::Failed;
        }
        let count = fill(buf, self.files[place.file].bytes(), place.from);
        if count == 0 {
            return Got::End;
        }
        self.place = Some(Place {
            file: place.file,
            from: place.from + count,
        });
        Got::Bytes(count)
    }
}

/// The place of the first file of that name, or the number of files where none has it.
fn place_of(files: &[HeldFile], name: &[u8]) -> usize
    ensures { result ≡ place_named files.now name.now }
{
    for (place, file) in files.iter().enumerate() {
        if file.has_name(name) {
            return place;
        }
    }
    files.len()
}

/// Raises the count at that place, or that of the others where there is no such place.
fn count_fault(faults: &mut Vec<u64>, other_faults: &mut u64, place: usize)
    ensures faults { faults.new.items
        ≡ slice_set faults.old.items place (raised (slice_index_or faults.old.items place other_faults.old)) }
    ensures others { other_faults.new
        ≡ (if nat_lt place (length faults.old.items) then other_faults.old else raised other_faults.old) }
{
    if place < faults.len() {
        faults[place] = faults[place].saturating_add(1);
    } else {
        *other_faults = other_faults.saturating_add(1);
    }
}

/// Copies what fits of `bytes` from the place `from` on into the front of `buf`, and answers how many bytes that is.
#[tactic(auto, using(crate::proofs::Named::pieces))]
fn fill(buf: &mut [u8], bytes: &[u8], from: usize) -> usize
    requires { from ≤ length bytes.now }
    ensures count { result ≡ min (length (drop from bytes.now)) (length buf.old) }
    ensures filled { buf.new ≡ take result (drop from bytes.now) ++ drop result buf.old }
    ensures gives { drop from bytes.now ≡ take result buf.new ++ drop (from + result) bytes.now }
    ensures within { from + result ≤ length bytes.now }
{
    let count = (bytes.len() - from).min(buf.len());
    buf[..count].copy_from_slice(&bytes[from..from + count]);
    count
}
