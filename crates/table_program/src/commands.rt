//! The program's top call.
ghost use Rattle.std.specs.Prelude.{◌≡◌, ◌≢◌, ℕ, ◌<◌, ◌≤◌, ◌↔◌, ◌⊎◌, List, [], ◌∷◌, length, Option, Some, None, IsSome, IfSome};
ghost use Rattle.io_edge.specs.Faults.{Rose};
ghost use Rattle.table_report.specs.FileReport.{IsPlainReport};
ghost use Rattle.table_program.specs.declared.command.Command.{Command};
ghost use Rattle.table_program.specs.declared.command.Command.TheVariants.{Plain, Replay};
ghost use Rattle.table_program.specs.Words.{name_for, IsNoCommand};
ghost use Rattle.table_program.specs.Runs.{told_file, NamedRose, limit_note, complete_statuses, IsOneOf, IsRunNote, Writes, WritesPartOf};
ghost use Rattle.table_program.specs.ReplayRun.{IsReplay, HasScriptFault, TellsScriptFault};

use crate::command::Command;
use crate::outcome::Outcome;
use crate::plain::run_plain;
use crate::replay::run_replay;
use io_edge::{Files, Pace, Sink};
use std::alloc::Global;
use std::sync::Wait;
use std::thread::Threads;

/// Runs the command that the words tell, on the files and into the output that it is given. The words are
/// `plain` or `replay` and one more. Every other list of words is status 1.
///
/// `rt` is what threads and waiting need, and `pace` is called before each call that a worker makes;
/// neither command has workers, and both wait for nobody.
pub fn run<R: Threads + Wait + Sync, F: Files, K: Sink, P: Pace>(
    _rt: &R,
    alloc: Global,
    words: &[String],
    files: &mut F,
    out: &mut K,
    _pace: &P,
) -> Outcome
    ensures usage { (result.status ≡ 1) ↔ IsNoCommand words.now }
    ensures read_fault { result.status ≡ 2 → (command : Command)
        → NamedRose command words.now (F.faults files.old) (F.faults files.new) }
    ensures write_fault { result.status ≡ 3 → Rose (K.faults out.old) (K.faults out.new) }
    ensures over_limit { result.status ≡ 4 → (command : Command)
        → IfSome (told_file command (F.bytes_of files.old) words.now)
        (λ bytes. limit_note command bytes ≡ Some result.note) }
    ensures limit { (command : Command) → IfSome (told_file command (F.bytes_of files.old) words.now)
        (λ bytes. IsSome (limit_note command bytes) → IsOneOf (2 ∷ 4 ∷ 6 ∷ []) result.status) }

    ensures report { result.status ≡ 0 →
        IfSome (told_file Plain (F.bytes_of files.old) words.now)
        (λ bytes. Writes (IsPlainReport bytes) (K.written out.old) (K.written out.new)) }
    ensures part_of_report { result.status ≡ 3 →
        IfSome (told_file Plain (F.bytes_of files.old) words.now)
        (λ bytes. WritesPartOf (IsPlainReport bytes) (K.written out.old) (K.written out.new)) }
    ensures replay { result.status ≡ 0 →
        IfSome (told_file Replay (F.bytes_of files.old) words.now)
        (λ bytes. Writes (IsReplay bytes) (K.written out.old) (K.written out.new)) }
    ensures part_of_replay { result.status ≡ 3 →
        IfSome (told_file Replay (F.bytes_of files.old) words.now)
        (λ bytes. WritesPartOf (IsReplay bytes) (K.written out.old) (K.written out.new)) }
    ensures script_fault { result.status ≡ 8 →
        IfSome (told_file Replay (F.bytes_of files.old) words.now)
        (λ bytes. TellsScriptFault bytes result.note) }
    ensures faulty { IfSome (told_file Replay (F.bytes_of files.old) words.now)
        (λ bytes. (number : ℕ) → HasScriptFault bytes number → IsOneOf (2 ∷ 4 ∷ 6 ∷ 8 ∷ []) result.status) }
    ensures read_to_end { result.status ≡ 0 → (command : Command)
        → IsSome (told_file command (F.bytes_of files.old) words.now) → F.rest files.new ≡ Some [] }
    ensures untouched { result.status ≢ 0 → result.status ≢ 3 → out.new ≡ out.old }

    // Where the words are accepted, the limits are kept and no count of faults rose, only memory can be wanting, or a line of a script is at fault.
    ensures complete { (command : Command) → IfSome (told_file command (F.bytes_of files.old) words.now)
        (λ bytes. limit_note command bytes ≡ None
        → ¬ (NamedRose command words.now (F.faults files.old) (F.faults files.new))
        → ¬ (Rose (K.faults out.old) (K.faults out.new))
        → IsOneOf (complete_statuses command) result.status) }
    ensures statuses { IsOneOf (0 ∷ 1 ∷ 2 ∷ 3 ∷ 4 ∷ 6 ∷ 8 ∷ []) result.status }
    ensures only_scripts { result.status ≡ 8 → IsSome (name_for Replay words.now) }
    ensures note { IsRunNote result.status result.note }

    ensures files_untouched { result.status ≡ 1 → files.new ≡ files.old }
    ensures keeps { (name : List ℕ) → F.bytes_of files.new name ≡ F.bytes_of files.old name }
    ensures files_never_fall { (name : List ℕ) → F.faults files.old name ≤ F.faults files.new name }
    ensures out_never_falls { K.faults out.old ≤ K.faults out.new }
{
    match Command::of(words) {
        Some(Command::Plain) => run_plain(alloc, words, files, out),
        Some(Command::Replay) => run_replay(alloc, words, files, out),
        None => Outcome::USAGE,
    }
}

#[cfg(test)]
mod tests;
