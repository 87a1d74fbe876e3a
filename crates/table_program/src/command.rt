//! What the commands have in common: their words, the file that cannot be read whole, and the text that
//! is written.
ghost use Rattle.std.specs.Prelude.{◌≡◌, ◌≤◌, ◌++◌, [], ◌∷◌, None, IsSome, IfSome};
ghost use Rattle.std.specs.Option.{option_copied, option_map};
ghost use Rattle.io_edge.specs.Faults.{Rose};
ghost use Rattle.table_program.specs.Words.{name_for, word_of, IsNoCommand};
ghost use Rattle.table_program.specs.Runs.{IsOneOf, IsPlainNote, status_of};
ghost use Rattle.table_program.specs.Writing.{WritesPart};

use crate::limits::MOST_BYTES;
use crate::outcome::{Limit, Note, Outcome};
use crate::reading::ReadFault;
use crate::writing::write_all;
use io_edge::Sink;

/// A command that takes the name of one file.
#[derive(Clone, Copy, Debug, PartialEq, Eq)]
pub(crate) enum Command {
    /// Interns the names and the literals of a file, and writes a report.
    Plain,
    /// Runs a script, and writes what it prints.
    Replay,
}

impl Command {
    /// The word of the command.
    fn word(self) -> &'static str
        ensures word { result.now ≡ word_of self }
    {
        match self {
            Command::Plain => "plain",
            Command::Replay => "replay",
        }
    }

    /// The command that the words are of.
    pub(crate) fn of(words: &[String]) -> Option<Command>
        ensures named { IfSome result (λ command. IsSome (name_for command words.now)) }
        ensures none { result ≡ None → IsNoCommand words.now }
    {
        if Command::Plain.name_in(words).is_some() {
            return Some(Command::Plain);
        }
        if Command::Replay.name_in(words).is_some() {
            return Some(Command::Replay);
        }
        None
    }

    /// The name of the file, where the words are the command's and one more.
    pub(crate) fn name_in(self, words: &[String]) -> Option<&str>
        ensures name { option_copied result ≡ name_for self words.now }
    {
        match words {
            [word, name] if word.as_str() == self.word() => Some(name.as_str()),
            _ => None,
        }
    }
}

/// The outcome where the one file was not read whole.
pub(crate) fn refused(fault: ReadFault) -> Outcome
    ensures status { result.status ≡ status_of fault }
    ensures note { IsPlainNote result.status result.note }
    ensures limit { fault ≡ ReadFault.TooLong → result.note ≡ Note.Limit Limit.Bytes 67108865 }
{
    match fault {
        ReadFault::Failed => Outcome::read_fault(1),
        ReadFault::TooLong => Outcome::over_limit(Limit::Bytes, MOST_BYTES as u64 + 1),
        ReadFault::OutOfMemory => Outcome::NO_MEMORY,
    }
}

/// Writes the whole text, and answers how the run ended.
pub(crate) fn write_text<K: Sink>(text: &[u8], out: &mut K) -> Outcome
    ensures whole { result.status ≡ 0 →
        K.written out.new ≡ option_map (λ written. written ++ text.now) (K.written out.old) }
    ensures part { result.status ≡ 3 → WritesPart text.now (K.written out.old) (K.written out.new) }
    ensures fault { result.status ≡ 3 → Rose (K.faults out.old) (K.faults out.new) }
    ensures statuses { IsOneOf (0 ∷ 3 ∷ []) result.status }
    ensures note { IsPlainNote result.status result.note }
    ensures never_falls { K.faults out.old ≤ K.faults out.new }
{
    match write_all(out, text) {
        Ok(()) => Outcome::DONE,
        Err(_) => Outcome::WRITE_FAULT,
    }
}
