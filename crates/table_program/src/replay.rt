//! The command `replay`: one script, run on one thread, and what it prints.
ghost use Rattle.std.specs.Prelude.{◌≡◌, ◌≢◌, ℕ, ◌<◌, ◌≤◌, ◌↔◌, List, [], ◌∷◌, length, Some, None, IsSome, IfSome, IfOk, IfErr};
ghost use Rattle.io_edge.specs.Faults.{Rose};
ghost use Rattle.table_program.specs.declared.command.Command.TheVariants as command;
ghost use Rattle.table_program.specs.Words.{name_for};
ghost use Rattle.table_program.specs.Runs.{told_file, NamedRose, limit_note, IsOneOf, IsRunNote, Writes, WritesPartOf};
ghost use Rattle.table_program.specs.ReplayRun.{IsReplay, HasScriptFault, TellsScriptFault};

use crate::command::{Command, refused, write_text};
use crate::limits::MOST_BYTES;
use crate::outcome::Outcome;
use crate::reading::read_file;
use io_edge::{Files, Sink};
use schedule_sim::{parse_script, run_script};
use std::alloc::Global;

/// What a run of the bytes' script prints, or the outcome where a line is at fault or memory is wanting.
fn printed(alloc: Global, bytes: &[u8]) -> Result<Vec<u8>, Outcome>
    ensures replay { IfOk result (λ text. IsReplay bytes.now text.items) }
    ensures statuses { IfErr result (λ outcome. IsOneOf (6 ∷ 8 ∷ []) outcome.status) }
    ensures script_fault { IfErr result (λ outcome. outcome.status ≡ 8 → TellsScriptFault bytes.now outcome.note) }
    ensures note { IfErr result (λ outcome. IsRunNote outcome.status outcome.note) }
{
    let script = parse_script(alloc, bytes)?;
    Ok(run_script(alloc, &script)?)
}

/// Writes what a run of the bytes' script prints.
fn write_printed<K: Sink>(alloc: Global, bytes: &[u8], out: &mut K) -> Outcome
    ensures replay { result.status ≡ 0 → Writes (IsReplay bytes.now) (K.written out.old) (K.written out.new) }
    ensures part_of_replay { result.status ≡ 3 → WritesPartOf (IsReplay bytes.now) (K.written out.old) (K.written out.new) }
    ensures write_fault { result.status ≡ 3 → Rose (K.faults out.old) (K.faults out.new) }
    ensures script_fault { result.status ≡ 8 → TellsScriptFault bytes.now result.note }
    ensures faulty { (number : ℕ) → HasScriptFault bytes.now number → IsOneOf (6 ∷ 8 ∷ []) result.status }
    ensures untouched { result.status ≢ 0 → result.status ≢ 3 → out.new ≡ out.old }
    ensures statuses { IsOneOf (0 ∷ 3 ∷ 6 ∷ 8 ∷ []) result.status }
    ensures note { IsRunNote result.status result.note }
    ensures never_falls { K.faults out.old ≤ K.faults out.new }
{
    match printed(alloc, bytes) {
        Ok(text) => write_text(text.as_slice(), out),
        Err(outcome) => outcome,
    }
}

/// Runs the command `replay FILE`: reads the file, runs the script that it is, and writes what the run
/// prints. It waits for nobody.
///
/// The statuses are 0 where it was written, 1 where the words are not `replay` and one more, 2 where the
/// file could not be read, 3 where the output took no more, 4 where the file has too many bytes, 6 where
/// there was no memory, and 8 where a line of the script is at fault, with the first one in the note. At
/// any but 0 and 3 nothing was written.
pub fn run_replay<F: Files, K: Sink>(
    alloc: Global,
    words: &[String],
    files: &mut F,
    out: &mut K,
) -> Outcome
    ensures usage { (result.status ≡ 1) ↔ (name_for command.Replay words.now ≡ None) }
    ensures read_fault { result.status ≡ 2 →
        NamedRose command.Replay words.now (F.faults files.old) (F.faults files.new) }
    ensures write_fault { result.status ≡ 3 → Rose (K.faults out.old) (K.faults out.new) }
    ensures over_limit { result.status ≡ 4 →
        IfSome (told_file command.Replay (F.bytes_of files.old) words.now)
        (λ bytes. limit_note command.Replay bytes ≡ Some result.note) }
    ensures limit { IfSome (told_file command.Replay (F.bytes_of files.old) words.now)
        (λ bytes. IsSome (limit_note command.Replay bytes) → IsOneOf (2 ∷ 4 ∷ 6 ∷ []) result.status) }

    ensures replay { result.status ≡ 0 →
        IfSome (told_file command.Replay (F.bytes_of files.old) words.now)
        (λ bytes. Writes (IsReplay bytes) (K.written out.old) (K.written out.new)) }
    ensures read_to_end { result.status ≡ 0 →
        IsSome (told_file command.Replay (F.bytes_of files.old) words.now) → F.rest files.new ≡ Some [] }
    ensures part_of_replay { result.status ≡ 3 →
        IfSome (told_file command.Replay (F.bytes_of files.old) words.now)
        (λ bytes. WritesPartOf (IsReplay bytes) (K.written out.old) (K.written out.new)) }
    ensures script_fault { result.status ≡ 8 →
        IfSome (told_file command.Replay (F.bytes_of files.old) words.now)
        (λ bytes. TellsScriptFault bytes result.note) }
    ensures faulty { IfSome (told_file command.Replay (F.bytes_of files.old) words.now)
        (λ bytes. (number : ℕ) → HasScriptFault bytes number → IsOneOf (2 ∷ 4 ∷ 6 ∷ 8 ∷ []) result.status) }
    ensures untouched { result.status ≢ 0 → result.status ≢ 3 → out.new ≡ out.old }

    // Where the words are accepted, the limit is kept and no count of faults rose, only memory can be wanting, or a line is at fault.
    ensures complete { IfSome (told_file command.Replay (F.bytes_of files.old) words.now)
        (λ bytes. limit_note command.Replay bytes ≡ None
        → ¬ (NamedRose command.Replay words.now (F.faults files.old) (F.faults files.new))
        → ¬ (Rose (K.faults out.old) (K.faults out.new))
        → IsOneOf (0 ∷ 6 ∷ 8 ∷ []) result.status) }
    ensures statuses { IsOneOf (0 ∷ 1 ∷ 2 ∷ 3 ∷ 4 ∷ 6 ∷ 8 ∷ []) result.status }
    ensures note { IsRunNote result.status result.note }

    ensures files_untouched { result.status ≡ 1 → files.new ≡ files.old }
    ensures keeps { (name : List ℕ) → F.bytes_of files.new name ≡ F.bytes_of files.old name }
    ensures files_never_fall { (name : List ℕ) → F.faults files.old name ≤ F.faults files.new name }
    ensures out_never_falls { K.faults out.old ≤ K.faults out.new }
{
    let Some(name) = Command::Replay.name_in(words) else {
        return Outcome::USAGE;
    };
    match read_file(alloc, name, files, MOST_BYTES) {
        Ok(bytes) => write_printed(alloc, bytes.as_slice(), out),
        Err(fault) => refused(fault),
    }
}

#[cfg(test)]
mod tests;
