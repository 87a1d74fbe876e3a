//! The command `plain`: one file, interned on one thread, and its report.
ghost use Rattle.std.specs.Prelude.{◌≡◌, ◌≢◌, ℕ, ◌<◌, ◌≤◌, ◌↔◌, List, [], ◌∷◌, length, All, None, Some, IsSome, IfSome, IfOk, IfErr, OnOk};
ghost use Rattle.io_edge.specs.Faults.{Rose};
ghost use Rattle.intern_log.specs.TextMap.{live_texts};
ghost use Rattle.table_report.specs.FileReport as file_report_spec;
ghost use Rattle.table_report.specs.FileReport.{IsPlainReport};
ghost use Rattle.name_scan.specs.Tokens as tokens_of;
ghost use Rattle.table_program.specs.declared.command.Command.TheVariants as command;
ghost use Rattle.table_program.specs.Limits.{IsShort};
ghost use Rattle.table_program.specs.Words.{name_for};
ghost use Rattle.table_program.specs.Runs.{told_file, NamedRose, limit_note, IsOneOf, IsPlainNote, Writes, WritesPartOf};

use crate::command::{Command, refused, write_text};
use crate::interning::intern_tokens;
use crate::limits::{MOST_BYTES, limit_of};
use crate::outcome::Outcome;
use crate::reading::read_file;
use crate::settle::settle_level;
use io_edge::{Files, Sink};
use plain_interner::Plain;
use std::alloc::{AllocError, Global};
use table_report::{Report, Statistics2, report_text};

/// How many handles of names are held at once.
const HOLD: usize = 16;

/// The least and the greatest level at which a table may settle.
const MIN_LEVEL: u8 = 3;

const MAX_LEVEL: u8 = 16;

/// How many texts a bucket holds on the average where a table settles: of symbols, and of strings.
const SYMBOL_LOAD: u16 = 8;

const STRING_LOAD: u16 = 2;

/// What the interner's live texts show at the level where a table of them settles.
fn settled(load: u16, plain: &Plain, references: u64) -> Statistics2
    ensures settled { result ≡ file_report_spec.settled load 3 16 (live_texts plain.now.texts) references }
{
    let live = plain.live();
    let level = settle_level(load, live, MIN_LEVEL, MAX_LEVEL);
    Statistics2 {
        live,
        references,
        buckets: 1 << level,
        longest: plain.longest(level),
    }
}

/// The report of a file's bytes, or the outcome where they pass a limit or memory is wanting.
fn file_report(alloc: Global, bytes: &[u8]) -> Result<Vec<u8>, Outcome>
    requires few { length bytes.now ≤ 67108864 }
    ensures report { IfOk result (λ text. IsPlainReport bytes.now text.items) }
    ensures within { OnOk result (limit_note command.Plain bytes.now ≡ None) }
    ensures statuses { IfErr result (λ outcome. IsOneOf (4 ∷ 6 ∷ []) outcome.status) }
    ensures over_limit { IfErr result (λ outcome. outcome.status ≡ 4 → limit_note command.Plain bytes.now ≡ Some outcome.note) }
    ensures note { IfErr result (λ outcome. IsPlainNote outcome.status outcome.note) }
{
    if let Some(note) = limit_of(bytes) {
        return Err(Outcome { status: 4, note });
    }
    Ok(short_report(alloc, bytes)?)
}

/// The report of a file's bytes, which are within the limits.
fn short_report(alloc: Global, bytes: &[u8]) -> Result<Vec<u8>, AllocError>
    requires few { length bytes.now ≤ 67108864 }
    requires short { All (IsShort bytes.now) (tokens_of.tokens bytes.now) }
    ensures report { IfOk result (λ text. IsPlainReport bytes.now text.items) }
{
    let left = intern_tokens(alloc, bytes, HOLD)?;
    let references = left.symbols.plain.references();
    let report = Report {
        names: left.symbols.names,
        symbols: settled(SYMBOL_LOAD, &left.symbols.plain, references),
        literals: left.strings.literals,
        strings: settled(STRING_LOAD, &left.strings.plain, 0),
        symbol_log: left.symbols.counts,
        string_log: left.strings.counts,
    };
    report_text(alloc, &report)
}

/// Writes the report of a file's bytes, where they are within the limits.
fn write_report<K: Sink>(alloc: Global, bytes: &[u8], out: &mut K) -> Outcome
    requires few { length bytes.now ≤ 67108864 }
    ensures report { result.status ≡ 0 → Writes (IsPlainReport bytes.now) (K.written out.old) (K.written out.new) }
    ensures part_of_report { result.status ≡ 3 → WritesPartOf (IsPlainReport bytes.now) (K.written out.old) (K.written out.new) }
    ensures write_fault { result.status ≡ 3 → Rose (K.faults out.old) (K.faults out.new) }
    ensures over_limit { result.status ≡ 4 → limit_note command.Plain bytes.now ≡ Some result.note }
    ensures limit { IsSome (limit_note command.Plain bytes.now) → IsOneOf (4 ∷ 6 ∷ []) result.status }
    ensures untouched { result.status ≢ 0 → result.status ≢ 3 → out.new ≡ out.old }
    ensures statuses { IsOneOf (0 ∷ 3 ∷ 4 ∷ 6 ∷ []) result.status }
    ensures note { IsPlainNote result.status result.note }
    ensures never_falls { K.faults out.old ≤ K.faults out.new }
{
    match file_report(alloc, bytes) {
        Ok(text) => write_text(text.as_slice(), out),
        Err(outcome) => outcome,
    }
}

/// Runs the command `plain FILE`: reads the file, interns its names and its string literals on one
/// thread, and writes the report. It waits for nobody.
///
/// The statuses are 0 where the report was written, 1 where the words are not `plain` and one more, 2
/// where the file could not be read, 3 where the output took no more, 4 where the file passes a limit
/// (bytes, the length of a text, the number of names, of literals), with the first that it passes in
/// the note, and 6 where there was no memory. At any but 0 and 3 nothing was written.
pub fn run_plain<F: Files, K: Sink>(
    alloc: Global,
    words: &[String],
    files: &mut F,
    out: &mut K,
) -> Outcome
    ensures usage { (result.status ≡ 1) ↔ (name_for command.Plain words.now ≡ None) }
    ensures read_fault { result.status ≡ 2 →
        NamedRose command.Plain words.now (F.faults files.old) (F.faults files.new) }
    ensures write_fault { result.status ≡ 3 → Rose (K.faults out.old) (K.faults out.new) }
    ensures over_limit { result.status ≡ 4 →
        IfSome (told_file command.Plain (F.bytes_of files.old) words.now) (λ bytes. limit_note command.Plain bytes ≡ Some result.note) }
    ensures limit { IfSome (told_file command.Plain (F.bytes_of files.old) words.now)
        (λ bytes. IsSome (limit_note command.Plain bytes) → IsOneOf (2 ∷ 4 ∷ 6 ∷ []) result.status) }

    ensures report { result.status ≡ 0 →
        IfSome (told_file command.Plain (F.bytes_of files.old) words.now)
        (λ bytes. Writes (IsPlainReport bytes) (K.written out.old) (K.written out.new)) }
    ensures read_to_end { result.status ≡ 0 →
        IsSome (told_file command.Plain (F.bytes_of files.old) words.now) → F.rest files.new ≡ Some [] }
    ensures part_of_report { result.status ≡ 3 →
        IfSome (told_file command.Plain (F.bytes_of files.old) words.now)
        (λ bytes. WritesPartOf (IsPlainReport bytes) (K.written out.old) (K.written out.new)) }
    ensures untouched { result.status ≢ 0 → result.status ≢ 3 → out.new ≡ out.old }

    // Where the words are accepted, the limit is kept and no count of faults rose, only memory can be wanting.
    ensures complete { IfSome (told_file command.Plain (F.bytes_of files.old) words.now)
        (λ bytes. limit_note command.Plain bytes ≡ None
        → ¬ (NamedRose command.Plain words.now (F.faults files.old) (F.faults files.new))
        → ¬ (Rose (K.faults out.old) (K.faults out.new))
        → IsOneOf (0 ∷ 6 ∷ []) result.status) }
    ensures statuses { IsOneOf (0 ∷ 1 ∷ 2 ∷ 3 ∷ 4 ∷ 6 ∷ []) result.status }
    ensures note { IsPlainNote result.status result.note }

    ensures files_untouched { result.status ≡ 1 → files.new ≡ files.old }
    ensures keeps { (name : List ℕ) → F.bytes_of files.new name ≡ F.bytes_of files.old name }
    ensures files_never_fall { (name : List ℕ) → F.faults files.old name ≤ F.faults files.new name }
    ensures out_never_falls { K.faults out.old ≤ K.faults out.new }
{
    let Some(name) = Command::Plain.name_in(words) else {
        return Outcome::USAGE;
    };
    match read_file(alloc, name, files, MOST_BYTES) {
        Ok(bytes) => write_report(alloc, bytes.as_slice(), out),
        Err(fault) => refused(fault),
    }
}

#[cfg(test)]
mod tests;
