ghost use Rattle.std.specs.Prelude.{◌≡◌, ℕ, ◌+◌, ◌<◌, ◌≤◌, ◌^◌, Bool, true, List, [], drop, length, Option, IsTrue, IsSome, IfSome, MatchOption, option_map, IfOk, OnOk};
ghost use Rattle.io_edge.specs.Faults.{Rose};

use io_edge::{Files, Got, Opened};
use std::alloc::{AllocError, Global};

/// Why a file was not read whole.
#[derive(Clone, Copy, Debug, PartialEq, Eq)]
pub enum ReadFault {
    /// The file could not be opened, or a read failed.
    Failed,
    /// The file has more bytes than may be read.
    TooLong,
    /// There is no memory for the bytes.
    OutOfMemory,
}

impl From<AllocError> for ReadFault {
    ghost use Rattle.table_program.specs.declared.reading.ReadFault.TheVariants.{OutOfMemory};

    ghost from_gives = { λ _ e. e ≡ OutOfMemory };

    fn from(_: AllocError) -> ReadFault {
        ReadFault::OutOfMemory
    }
}

/// The bytes that one read asks for at most.
const CHUNK: usize = 65_536;

/// Reads the file of that name to its end, if it has at most `most` bytes.
///
/// At most `most + 1` bytes are asked for in all.
pub fn read_file<F: Files>(
    alloc: Global,
    name: &str,
    files: &mut F,
    most: usize,
) -> Result<Vec<u8>, ReadFault>
    requires { most < 2 ^ 32 }

    ensures read { IfOk result (λ bytes.
        IfSome (F.bytes_of files.old name.now) (λ all. bytes.items ≡ all)) }
    ensures within { IfOk result (λ bytes. length bytes.items ≤ most) }
    ensures at_end { OnOk result
        (IsSome (F.bytes_of files.old name.now) → F.rest files.new ≡ Some []) }

    ensures fault { result ≡ Err ReadFault.Failed →
        Rose (F.faults files.old name.now) (F.faults files.new name.now) }
    ensures too_long { result ≡ Err ReadFault.TooLong →
        IfSome (F.bytes_of files.old name.now) (λ all. most < length all) }
    ensures one_above { result ≡ Err ReadFault.TooLong →
        F.rest files.new ≡ option_map (λ all. drop (most + 1) all) (F.bytes_of files.old name.now) }

    ensures keeps { (n : List ℕ) → F.bytes_of files.new n ≡ F.bytes_of files.old n }
    ensures never_falls { (n : List ℕ) → F.faults files.old n ≤ F.faults files.new n }
{
    match files.open_file(name) {
        Opened::Ready => read_rest(alloc, files, most),
        Opened::Failed => Err(ReadFault::Failed),
    }
}

// Reads what is left of the open file, if that is at most `most` bytes.
fn read_rest<F: Files>(alloc: Global, files: &mut F, most: usize) -> Result<Vec<u8>, ReadFault>
    requires open { IsTrue (F.is_open files.old) }
    requires bound { most < 2 ^ 32 }

    ensures read { IfOk result (λ bytes. IfSome (F.rest files.old) (λ all. bytes.items ≡ all)) }
    ensures within { IfOk result (λ bytes. length bytes.items ≤ most) }
    ensures at_end { OnOk result (IsSome (F.rest files.old) → F.rest files.new ≡ Some []) }

    ensures fault { result ≡ Err ReadFault.Failed →
        MatchOption (F.current files.old)
        ((n : List ℕ) → Rose (F.faults files.old n) (F.faults files.new n))
        (λ n. Rose (F.faults files.old n) (F.faults files.new n)) }
    ensures too_long { result ≡ Err ReadFault.TooLong →
        IfSome (F.rest files.old) (λ all. most < length all) }
    ensures one_above { result ≡ Err ReadFault.TooLong →
        F.rest files.new ≡ option_map (λ all. drop (most + 1) all) (F.rest files.old) }

    ensures keeps { (n : List ℕ) → F.bytes_of files.new n ≡ F.bytes_of files.old n }
    ensures never_falls { (n : List ℕ) → F.faults files.old n ≤ F.faults files.new n }
{
    let mut bytes = Vec::new(alloc);
    let mut chunk = [0; CHUNK];
    while bytes.len() <= most {
        let room = CHUNK.min(most + 1 - bytes.len());
        match files.read_some(&mut chunk[..room]) {
            Got::Bytes(count) => bytes.extend_from_slice(&chunk[..count])?,
            Got::End => return Ok(bytes),
            Got::Failed => return Err(ReadFault::Failed),
        }
    }
    Err(ReadFault::TooLong)
}

#[cfg(test)]
mod tests;
