//! Numbers, places and words of a table as a text has them.
use atomic_step::Op;
use intern_log::{Handle, What};
use std::alloc::AllocError;
use std::fmt::Write;
use std::process::Abort;
use std::str::FromStr;
use table_shape::Place;

/// The number that a text has.
pub(crate) fn number<T: FromStr>(rt: &impl Abort, text: &str) -> T
where
    T::Err: Drop,
{
    match text.parse::<T>() {
        Ok(number) => number,
        Err(_) => panic!(rt; "no number: {text}"),
    }
}

/// The handle that a text has, as `3.2`: its slot and its generation.
pub(crate) fn handle(rt: &impl Abort, text: &str) -> Handle {
    let (slot, generation) = text.split_once('.').unwrap_or((text, "0"));
    Handle {
        slot: number(rt, slot),
        generation: number(rt, generation),
    }
}

/// The place that a text names, if any, as `head 3.1`.
fn place_of(rt: &impl Abort, text: &str) -> Option<Place> {
    let (name, at) = text.split_once(' ').unwrap_or((text, "0"));
    let (first, last) = at.split_once('.').unwrap_or(("0", at));
    let place = match name {
        "draws" => Place::Draws,
        "counter" => Place::Counter,
        "lock" => Place::ResizeLock,
        "level" => Place::Level,
        "new" => Place::NewLevel,
        "section" => Place::Section(number(rt, last)),
        "head" => Place::Head {
            row: number(rt, first),
            bucket: number(rt, last),
        },
        "claim" => Place::Claim(number(rt, last)),
        "link" => Place::Link(number(rt, last)),
        "count" => Place::Count(number(rt, last)),
        "meta" => Place::Meta(number(rt, last)),
        "text" => Place::Text {
            slot: number(rt, first),
            at: number(rt, last),
        },
        _ => return None,
    };
    Some(place)
}

/// Writes the name of a place.
fn write_place(text: &mut String, place: Place) -> Result<(), AllocError> {
    match place {
        Place::Draws => text.push_str("draws"),
        Place::Counter => text.push_str("counter"),
        Place::ResizeLock => text.push_str("lock"),
        Place::Level => text.push_str("level"),
        Place::NewLevel => text.push_str("new"),
        Place::Section(seat) => write!(text, "section {seat}"),
        Place::Head { row, bucket } => write!(text, "head {row}.{bucket}"),
        Place::Claim(slot) => write!(text, "claim {slot}"),
        Place::Link(slot) => write!(text, "link {slot}"),
        Place::Count(slot) => write!(text, "count {slot}"),
        Place::Meta(slot) => write!(text, "meta {slot}"),
        Place::Text { slot, at } => write!(text, "text {slot}.{at}"),
    }
}

/// The word of a place that a text has.
fn word_of(rt: &impl Abort, text: &str) -> u64 {
    if let Some(quoted) = text.strip_prefix('\'') {
        let bytes = quoted.bytes().filter(|byte| *byte != b'\'');
        return bytes
            .rev()
            .fold(0, |word: u64, byte| (word << 8) | u64::from(byte));
    }
    match text.split_once('.') {
        Some((high, low)) => (number::<u64>(rt, high) << 16) | number::<u64>(rt, low),
        None => number(rt, text),
    }
}

/// The place and its word that a text tells, if it does, as `head 3.1 = 12`.
pub(crate) fn told(rt: &impl Abort, text: &str) -> Option<(Place, u64)> {
    let (place, word) = text.split_once(" = ")?;
    Some((place_of(rt, place)?, word_of(rt, word)))
}

/// Writes the word of a place.
fn write_word(text: &mut String, place: Place, word: u64) -> Result<(), AllocError> {
    match place {
        Place::Count(_) | Place::Meta(_) => write!(text, "{}.{}", word >> 16, word % 65_536),
        Place::Text { .. } => {
            text.push('\'')?;
            for byte in word.to_le_bytes() {
                if byte != 0 {
                    text.push(char::from(byte))?;
                }
            }
            text.push('\'')
        }
        _ => write!(text, "{word}"),
    }
}

/// Writes what a step does to the word of a place.
pub(crate) fn write_step(text: &mut String, place: Place, op: Op) -> Result<(), AllocError> {
    write_place(text, place)?;
    let (sign, word) = match op {
        Op::Load { .. } => return Ok(()),
        Op::Store { value, .. } => (" = ", value),
        Op::Swap { value, .. } => (" <- ", value),
        Op::Add { value, .. } => (" + ", value),
        Op::Exchange { old, new, .. } => {
            text.push_str(": ")?;
            write_word(text, place, old)?;
            (" > ", new)
        }
    };
    text.push_str(sign)?;
    write_word(text, place, word)
}

/// Writes what a step adds to the log, without the text of its call.
pub(crate) fn write_event(text: &mut String, event: Option<What>) -> Result<(), AllocError> {
    let (name, handle) = match event {
        Some(What::Create(_, handle)) => ("Create", handle),
        Some(What::Take(_, handle)) => ("Take", handle),
        Some(What::Found(_, handle)) => ("Found", handle),
        Some(What::Drop(handle)) => ("Drop", handle),
        Some(What::Perm(handle)) => ("Perm", handle),
        Some(What::Kill(handle)) => ("Kill", handle),
        Some(what) => return write!(text, " {what:?}"),
        None => return Ok(()),
    };
    write!(text, " {name}({}, {})", handle.slot, handle.generation)
}
