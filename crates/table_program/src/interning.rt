//! One pass over a file's bytes that interns its names and its literals.
ghost use Rattle.std.specs.Prelude.{◌≡◌, ◌-◌, ◌^◌, ◌<◌, length, All, IfOk};
ghost use Rattle.name_scan.specs.FileTexts.{names_of, literals_of};
ghost use Rattle.name_scan.specs.Tokens.{tokens};
ghost use Rattle.table_program.specs.Limits.{IsShort};
ghost use Rattle.table_program.specs.SymbolRun.{IsSymbolWindow};
ghost use Rattle.table_program.specs.Symbols.{IsSymbolsOf};
ghost use Rattle.table_program.specs.StringRun.{IsStringsOf};

use crate::literals::{Literals, Strings};
use crate::names::{Names, Symbols};
use name_scan::next_token;
use std::alloc::{AllocError, Global};

/// What is left of a file's names and of its literals.
#[derive(Drop)]
pub(crate) struct Interned {
    pub symbols: Symbols,
    pub strings: Strings,
}

/// Interns the names and the literals of a file's bytes in one pass, which keeps no list of the tokens.
/// The last `hold` names are held, and of the literals the last `hold` stay. Want of memory is the only
/// error.
pub(crate) fn intern_tokens(
    alloc: Global,
    bytes: &[u8],
    hold: usize,
) -> Result<Interned, AllocError>
    requires window { IsSymbolWindow hold }
    requires few { length bytes.now < 2 ^ 32 - 1 }
    requires short { All (IsShort bytes.now) (tokens bytes.now) }
    ensures symbols { IfOk result (λ all. IsSymbolsOf hold (names_of bytes.now) all.symbols.plain.texts all.symbols.counts) }
    ensures names { IfOk result (λ all. all.symbols.names ≡ length (names_of bytes.now)) }
    ensures strings { IfOk result (λ all. IsStringsOf hold (literals_of bytes.now) all.strings.plain.texts all.strings.counts) }
    ensures literals { IfOk result (λ all. all.strings.literals ≡ length (literals_of bytes.now)) }
{
    let mut names = Names::new(alloc, hold)?;
    let mut literals = Literals::new(alloc, hold)?;
    let mut at = 0;
    while let Some(found) = next_token(bytes, at) {
        names.add(bytes, found.token)?;
        literals.add(bytes, found.token)?;
        at = found.behind;
    }
    Ok(Interned {
        symbols: names.into_symbols(),
        strings: literals.into_strings(alloc, bytes)?,
    })
}
