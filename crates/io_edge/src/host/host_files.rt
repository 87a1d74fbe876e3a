ghost use Rattle.std.specs.Prelude.{◌≡◌, ℕ, ◌<◌, ◌≤◌, true, false, length, take, None, IsTrue};
ghost use Rattle.std.specs.Io.KnownBytes.{Consumes, IsAtEnd};
ghost use Rattle.io_edge.specs.Faults.{Rose, raised};
ghost use Rattle.io_edge.specs.Got.{IfRead, OnEnd, OnReadFailed, UnlessReadFailed};

use crate::files::{Files, Got, Opened};
use std::io::Read;
use std::marker::Model;
use std::{fs, rt};

/// The files of the system, by their paths.
///
/// Each error that the system reports is a fault, and all names have one count of faults, which stays at its
/// end, 2^64 - 1. A folder in place of a file is a fault of the opening or of the first read.
#[derive(Drop)]
pub struct HostFiles<R: rt::Files + Drop> {
    rt: R,
    file: Option<R::File>,
    faults: u64,
}

impl<R: rt::Files + Drop> Model for HostFiles<R> {
    ghost use Rattle.std.specs.Prelude.{is_some, option_and_then};
    ghost use Rattle.io_edge.specs.HostState.{HostFilesState};

    ghost Value = { HostFilesState };

    ghost view = { λ a. record { is_open = is_some a.file; left = option_and_then R.File.remaining a.file; faults = a.faults } };
}

impl<R: rt::Files + Drop> HostFiles<R> {
    /// No file is open, and no fault was met.
    pub fn new(rt: R) -> HostFiles<R>
        ensures fresh { result ≡ record { is_open = false; left = None; faults = 0 } }
    {
        HostFiles {
            rt,
            file: None,
            faults: 0,
        }
    }

    /// Closes the file, if one is open, and counts a fault.
    fn close_at_fault(&mut self)
        ensures { self.new ≡ record { is_open = false; left = None; faults = raised self.old.faults } }
    {
        self.file = None;
        self.faults = self.faults.saturating_add(1);
    }
}

impl<R: rt::Files + Drop> Files for HostFiles<R> {
    ghost use Rattle.std.specs.Prelude.{None};

    ghost bytes_of = { λ _ _. None };

    ghost current = { λ _. None };

    ghost rest = { λ _. None };

    ghost is_open = { λ state. state.is_open };

    ghost faults = { λ state _. state.faults };

    fn open_file(&mut self, name: &str) -> Opened {
        match fs::open(&self.rt, name) {
            Ok(file) => {
                self.file = Some(file);
                Opened::Ready
            }
            Err(_) => {
                self.close_at_fault();
                Opened::Failed
            }
        }
    }

    fn read_some(&mut self, buf: &mut [u8]) -> Got
        requires open { IsTrue self.old.is_open }
        requires room { 0 < length buf.old }

        ensures count { IfRead result (λ n. (1 ≤ n) × (n ≤ length buf.old)) }
        ensures stays_open { UnlessReadFailed result (self.new.is_open ≡ true) }

        ensures fault { OnReadFailed result (Rose self.old.faults self.new.faults) }
        ensures closes { OnReadFailed result (self.new.is_open ≡ false) }
        ensures never_falls { self.old.faults ≤ self.new.faults }

        // The bytes are those of the system, in their order, and its end is the end, where it tells them.
        ensures consumes { IfRead result (λ n. Consumes self.old.left self.new.left (take n buf.new)) }
        ensures at_end { OnEnd result (IsAtEnd self.new.left) }
    {
        let Some(file) = &mut self.file else {
            unreachable!()
        };
        match file.read(buf) {
            Ok(0) => Got::End,
            Ok(count) => Got::Bytes(count),
            Err(_) => {
                self.close_at_fault();
                Got::Failed
            }
        }
    }
}
