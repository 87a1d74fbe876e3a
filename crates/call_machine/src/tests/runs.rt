//! Runs: items that many scenes have, said once.
use super::words::number;
use std::alloc::{AllocError, Global};
use std::fmt::Write;
use std::process::Abort;

/// Each run with its items. `$1` stands for the first word after its name, `$2` for the second and so on. An item
/// `down 9 4 ITEM` is one for each slot from 9 down to 4 (`count_down`).
static RUNS: &str = "
node SLOT COUNT META TEXT LINK: claim $1 = 1; count $1 = $2; meta $1 = $3; text $1.0 = $4; link $1 = $5
slot SLOT COUNT LINK: claim $1 = 1; count $1 = $2; link $1 = $3
opens SEAT COUNTER SECTION: K9 counter; K10 section $1 = $3 Open($2)
finds SEAT COUNTER SECTION HEAD: opens $1 $2 $3; K19 level; K5 head $4
closes SEAT: K11 section $1 = 0 Close
skips SLOT: K6 meta $1; K6 link $1
meets SLOT: K6 meta $1; K6 text $1.0; K6 count $1
claims SLOT: K2 claim $1 <- 1 Claim($1); K6 count $1
fills SLOT META TEXT LINK COUNT: K3 meta $1 = $2; K3 text $1.0 = $3; K3 link $1 = $4; K3 count $1 = $5
frees SLOT COUNT: K3 count $1 = $2; K4 claim $1 = 0 Free($1)
answers NAME SLOT GENERATION CURSOR: $1(Handle { slot: $2, generation: $3 }); cursor $4
left_node SLOT COUNT META TEXT: left claim $1 = 1; left count $1 = $2; left meta $1 = $3; left text $1.0 = $4
takes LOCK: K9 counter; K17 lock: 0 > $1 ResizeTaken
gives: K18 lock = 0 ResizeGiven
cleans SEAT LOCK: seat $1; clean; takes $2; Begun; poll work; K19 level
resizes SEAT CALL LOCK NEW: seat $1; $2; takes $3; K19 level; Begun; poll work; K22 new = $4
locks ROW BUCKET HEAD LOCKED: K5 head $1.$2; K14 head $1.$2: $3 > $4 Lock($1, $2)
unlocks ROW BUCKET HEAD: K15 head $1.$2 = $3 Unlock($1, $2)
makes ROW BUCKET HEAD: K21 head $1.$2 = $3 Lock($1, $2)
passes SLOT: K6 count $1; K6 link $1
short_grace: K12 counter + 2 Grace; K13 section 0; K13 section 1
long_grace: short_grace; K13 section 2; K13 section 3
unlinks ROW BUCKET SLOT HEAD: passes $3; K16 head $1.$2 = $4 Unlink($3)
frees_for_good SLOT COUNT: frees $1 $2; left count $1 = $2; left claim $1 = 0
parts ROW BUCKET NEW_ROW ODD_BUCKET: locks $1 $2 0 1; makes $3 $2 1; makes $3 $4 1; K23 head $1.$2 = 3; unlocks $3 $2 0; unlocks $3 $4 0
joins ROW BUCKET NEW_ROW ODD_BUCKET: locks $1 $2 0 1; locks $1 $4 0 1; makes $3 $2 1; K23 head $1.$2 = 3; K23 head $1.$4 = 3
joins_empty EVEN ODD: locks 4 $1 0 1; locks 4 $2 0 1; makes 3 $1 1; K23 head 4.$1 = 3; K23 head 4.$2 = 3; short_grace; \
    K13 section 2; K13 section 3; unlocks 3 $1 0; left head 4.$1 = 3; left head 4.$2 = 3; left head 3.$1 = 0
two_chains: node 0 0.1 121.1 'y' 0; node 1 0.1 113.1 'q' 0; node 2 0.1 105.1 'i' 1; node 3 0.1 97.1 'a' 2; head 3.0 = 3; \
    head 3.1 = 19; head 3.2 = 3; head 3.3 = 3; head 3.4 = 3; head 3.5 = 3; head 3.6 = 3; head 3.7 = 3; head 4.1 = 16; head 4.9 = 12
shrinks_on: unlocks 3 0 0; locks 4 1 16 17; locks 4 9 12 13; makes 3 1 17; K6 link 3; K6 link 1; K26 link 1 = 3; K23 head 4.1 = 19; \
    K23 head 4.9 = 15; long_grace; unlocks 3 1 16; joins_empty 2 10; joins_empty 3 11; joins_empty 4 12; joins_empty 5 13; \
    joins_empty 6 14; joins_empty 7 15; K25 level = 3 Level(3); long_grace; ends 3 9; passed 0; keeps nothing; left head 4.0 = 3; \
    left head 4.8 = 3; left head 3.0 = 0; left head 4.1 = 19; left head 4.9 = 15; left head 3.1 = 16; left link 1 = 3; \
    left counter = 28; left level = 3
ends LEVEL GRACES: K22 new = 0; gives; done 0 $2 $1
done UNLINKED GRACES LEVEL: Done(Worked { unlinked: $1, graces: $2, level: $3 })
";

/// The items of a run.
fn run(name: &str) -> Option<&'static str> {
    for line in RUNS.lines() {
        let (run, items) = line.split_once(": ").unwrap_or(("", ""));
        if run.split_whitespace().next() == Some(name) {
            return Some(items);
        }
    }
    None
}

/// Puts words in place of `$1`, `$2` and so on.
fn fill(text: &mut String, items: &str, words: &[&str]) -> Result<(), AllocError> {
    let mut marked = false;
    for letter in items.chars() {
        if marked {
            let at = letter.to_digit(10).unwrap_or(0) as usize;
            text.push_str(words.get(at).copied().unwrap_or(""))?;
        } else if letter != '$' {
            text.push(letter)?;
        }
        marked = letter == '$';
    }
    Ok(())
}

/// Adds an item for each slot from the first number down to the second: `@` stands for the slot, and `%` for the word
/// of a locked head that leads to the slot below it.
fn count_down(rt: &impl Abort, text: &mut String, words: &[&str]) -> Result<(), AllocError> {
    let (high, low, item) = match words {
        [_, high, low, item @ ..] => (number::<u32>(rt, high), number::<u32>(rt, low), item),
        _ => return Ok(()),
    };
    for slot in (low..high.saturating_add(1)).rev() {
        for word in item {
            match *word {
                "@" => write!(text, "{slot} ")?,
                "%" => write!(text, "{} ", 4 * u64::from(slot) + 1)?,
                word => write!(text, "{word} ")?,
            }
        }
        text.push(';')?;
    }
    Ok(())
}

/// Adds an item to a text, or the items that it stands for.
fn expand_item(
    rt: &impl Abort,
    alloc: Global,
    text: &mut String,
    item: &str,
) -> Result<(), AllocError> {
    if item.starts_with('K') {
        return text.push_str(item);
    }
    let mut words = Vec::new(alloc);
    for word in item.split_whitespace() {
        words.push(word)?;
    }
    let name = words.first().copied().unwrap_or("");
    match run(name) {
        Some(items) => fill(text, items, &words),
        None if name == "down" => count_down(rt, text, &words),
        None => text.push_str(item),
    }
}

/// A text with the items of each run that it names, which may name runs in turn.
fn expand_once(rt: &impl Abort, alloc: Global, text: &str) -> Result<String, AllocError> {
    let mut expanded = String::new(alloc);
    for line in text.lines() {
        for item in line.split(';') {
            expand_item(rt, alloc, &mut expanded, item)?;
            expanded.push(';')?;
        }
        expanded.push('\n')?;
    }
    Ok(expanded)
}

/// A text with the items of all runs.
pub(crate) fn expand(rt: &impl Abort, alloc: Global, text: &str) -> Result<String, AllocError> {
    let mut expanded = expand_once(rt, alloc, text)?;
    for _ in 0..2 {
        expanded = expand_once(rt, alloc, expanded.as_str())?;
    }
    Ok(expanded)
}
