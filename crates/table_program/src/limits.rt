//! The limits of the input, beyond which nothing is interned.
ghost use Rattle.std.specs.Prelude.{◌≡◌};
ghost use Rattle.std.specs.Option.{option_map};
ghost use Rattle.name_scan.specs.Tokens.{tokens};
ghost use Rattle.table_program.specs.Limits.{above, tokens_note};

use crate::outcome::{Limit, Note};
use intern_log::MAX_TEXT;
use name_scan::count_tokens;

/// The most bytes that a file may have.
pub const MOST_BYTES: usize = 67_108_864;

/// The most names that a file may have, each as often as it stands there.
pub const MOST_NAMES: usize = 1_048_576;

/// The most literals that a file may have, each as often as it stands there.
pub const MOST_LITERALS: usize = 1_048_576;

/// The note of the first text that is too long, by its length.
fn long_text_note(first_longer: Option<usize>) -> Option<Note>
    ensures { result ≡ option_map (λ n. Note.Limit Limit.Text n) first_longer }
{
    first_longer.map(|length| Note::Limit {
        which: Limit::Text,
        value: length as u64,
    })
}

/// The note of a number that passes its limit.
fn above(which: Limit, most: usize, number: usize) -> Option<Note>
    ensures { result ≡ above which most number }
{
    if number > most {
        Some(Note::Limit {
            which,
            value: number as u64,
        })
    } else {
        None
    }
}

/// The note of the first limit that a file passes by its names and literals, if it passes one: a text is
/// looked for that is too long, then the names are counted, then the literals.
///
/// It takes no memory, so that no file needs more than its bytes before it is known to be within the limits.
pub(crate) fn limit_of(bytes: &[u8]) -> Option<Note>
    ensures note { result ≡ tokens_note bytes.now (tokens bytes.now) }
{
    let census = count_tokens(bytes, MAX_TEXT);
    let text = long_text_note(census.first_longer);
    let names = above(Limit::Names, MOST_NAMES, census.names);
    let literals = above(Limit::Literals, MOST_LITERALS, census.literals);
    text.or(names).or(literals)
}
