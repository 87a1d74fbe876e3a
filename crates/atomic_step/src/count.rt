//! What calls make of count words: a generation, and how often the text is held.
ghost use Rattle.std.specs.Prelude.{◌≡◌, ◌^◌, ◌<◌};
ghost use Rattle.atomic_step.specs.Count as counts;

use intern_log::{Handle, PERMANENT};
use marked_word::Count;

/// How a call by handle changes the count of its entry.
#[derive(Clone, Copy, Debug, PartialEq, Eq)]
pub enum Change {
    Drop,
    Permanent,
    Kill,
}

/// How often the text of a count word is held.
#[inline(always)]
pub fn holds_of(word: u64) -> u16
    ensures value { result ≡ counts.holds_of word }
{
    Count::of_word(word).count
}

/// The generation of a count word.
#[inline(always)]
pub fn generation_of(word: u64) -> u64
    ensures value { result ≡ counts.generation_of word }
    ensures small { result < 2 ^ 48 }
{
    Count::of_word(word).generation
}

/// The handle of the entry in a slot with this count word.
#[inline(always)]
pub fn handle_at(slot: u32, word: u64) -> Handle
    ensures value { result ≡ counts.handle_at slot word }
    ensures small { result.generation < 2 ^ 48 }
{
    let generation = generation_of(word);
    Handle { slot, generation }
}

/// A count word of the same generation with another count.
#[inline(always)]
fn with_holds(word: u64, count: u16) -> u64
    ensures value { result ≡ counts.with_holds word count }
{
    let generation = generation_of(word);
    Count { generation, count }.to_word()
}

/// A count word with one more hold; 65,535 stays.
#[inline(always)]
pub fn raised(word: u64) -> u64
    ensures value { result ≡ counts.raised word }
{
    with_holds(word, holds_of(word).saturating_add(1))
}

/// The count word of a handle's slot while its entry has so many holds.
#[inline(always)]
pub fn holds_word(handle: Handle, count: u16) -> u64
    requires small { handle.generation < 2 ^ 48 }
    ensures value { result ≡ counts.holds_word handle count }
{
    let generation = handle.generation;
    Count { generation, count }.to_word()
}

/// Whether a count word is that of the handle's live entry.
#[inline(always)]
pub fn is_live(handle: Handle, word: u64) -> bool
    ensures value { result ≡ counts.is_live handle word }
{
    let Count { generation, count } = Count::of_word(word);
    generation == handle.generation && count != 0
}

/// The count word that a call by handle leaves.
#[inline(always)]
pub fn changed(change: Change, word: u64) -> u64
    ensures value { result ≡ counts.changed change word }
{
    match change {
        Change::Drop => with_holds(word, holds_of(word).saturating_sub(1)),
        Change::Permanent => with_holds(word, PERMANENT),
        Change::Kill => with_holds(word, 0),
    }
}
