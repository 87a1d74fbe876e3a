//! Making a table anew by the next seed of its hash.
//!
//! Nobody works in the table meanwhile. First the heads of the level's row are cleared. Then the slots are
//! gone through from the last one down: each linked one gets the hash of its text by the new seed, and is
//! put before the others of its bucket. So each chain has its slots in ascending order. A slot that is
//! taken and has a count above 0 is linked, as no seat has claimed one. Of one whose count is 0 the words do
//! not tell whether it is linked, so the log is asked, and where it is linked nothing is made anew.
ghost use Rattle.std.specs.Prelude.{◌≡◌, ◌*◌, ◌^◌, ◌<◌, ◌≤◌, ◌↔◌, ℕ, length, Some, true};
ghost use Rattle.table_shape.specs.Place.{IsInside};
ghost use Rattle.table_shape.specs.Shape.{IsSound, words_of};
ghost use Rattle.text_words.specs.Hash.{hash_of as seeded_hash_of};
ghost use Rattle.atomic_step.specs.Table.{word_at};
ghost use Rattle.cht_core.specs.declared.seat.Seat.{Seat as SeatValue};
ghost use Rattle.cht_core.specs.Anew as anew;
ghost use Rattle.cht_core.specs.Rehash.{IsFree};
ghost use Rattle.cht_core.specs.State.{seat_in};

use crate::seat::Seat;
use atomic_step::count::holds_of;
use atomic_step::{Place, Shape};
use intern_log::{Event, What};
use marked_word::{Head, Meta, length_in, link_word};
use text_words::{hash_of, unpack};

/// What making a table anew came to. After the last two nothing has changed.
#[derive(Clone, Copy, Debug, PartialEq, Eq)]
pub enum Rehashing {
    /// The table has the next seed.
    Done,
    /// A seat has a running call, an unfinished work or an unfinished grace, a slot is linked and
    /// dead, or the seed is 2.
    Refused,
    /// There was no memory for one more event, or for a text.
    OutOfMemory,
}

/// Whether no seat has a running call, an unfinished work or an unfinished grace.
pub(crate) fn are_free(seats: &[Option<Seat<'_>>]) -> bool
    ensures exact { (result ≡ true) ↔ ((k : ℕ) (s : SeatValue) → seat_in seats.now k ≡ Some s → IsFree s) }
{
    for seat in seats {
        if let Some(seat) = seat {
            if !is_free(seat) {
                return false;
            }
        }
    }
    true
}

/// Whether a seat has no running call, no unfinished work and no unfinished grace.
fn is_free(seat: &Seat<'_>) -> bool
    ensures exact { (result ≡ true) ↔ IsFree seat.now }
{
    match seat {
        Seat::Idle { own } => own.work.is_none() && own.grace.is_none(),
        Seat::Running { .. } => false,
    }
}

/// Whether a slot is taken, its count is 0, and the log has it linked.
pub(crate) fn has_dead(words: &[u64], shape: &Shape, log: &[Event]) -> bool
    requires shape { IsSound shape.now }
    requires sized { length words.now ≡ words_of shape.now }
    ensures exact { (result ≡ true) ↔ ((slot : ℕ) × (slot < shape.now.slots) × (anew.is_dead_in shape.now words.now log.now slot ≡ true)) }
{
    for slot in 0..shape.slots {
        if is_dead(words, shape, log, slot) {
            return true;
        }
    }
    false
}

/// Whether this slot is taken, its count is 0, and the log has it linked. A slot that was used too often
/// stays taken after it was unlinked, so the words do not tell.
fn is_dead(words: &[u64], shape: &Shape, log: &[Event], slot: u32) -> bool
    requires shape { IsSound shape.now }
    requires sized { length words.now ≡ words_of shape.now }
    requires slot { slot < shape.now.slots }
    ensures value { result ≡ anew.is_dead_in shape.now words.now log.now slot }
{
    load(words, shape, Place::Claim(slot)) == 1
        && holds_of(load(words, shape, Place::Count(slot))) == 0
        && is_linked(log, slot)
}

/// Whether the slot is linked at the end of the log.
fn is_linked(log: &[Event], slot: u32) -> bool
    ensures value { result ≡ anew.is_linked_in log.now slot }
{
    log.iter().fold(false, |linked, event| {
        linked_after(slot, linked, &event.what)
    })
}

/// Whether the slot is linked after one more event.
fn linked_after(slot: u32, linked: bool, what: &What) -> bool
    ensures value { result ≡ anew.linked_after slot linked what.now }
{
    match what {
        What::Create(_, handle) => slot == handle.slot || linked,
        What::Claim(other) | What::Free(other) | What::Unlink(other) => slot != *other && linked,
        _ => linked,
    }
}

/// Makes the hash of each counted slot and the chains of the level's row anew by a seed. `text` has
/// room for the bytes of a text.
pub fn make_anew(words: &mut [u64], shape: &Shape, level: u8, seed: u32, text: &mut [u8])
    requires shape { IsSound shape.now }
    requires sized { length words.old ≡ words_of shape.now }
    requires level { (shape.now.min_level ≤ level) × (level ≤ shape.now.max_level) }
    requires rooms { anew.HaveRoom shape.now words.old }
    requires room { length text.old ≡ 8 * shape.now.text_words }
    ensures value { words.new ≡ anew.made_anew shape.now level seed words.old }
{
    for bucket in 0..buckets_of(level) {
        store(words, shape, Place::Head { row: level, bucket }, 0);
    }
    for done in 0..shape.slots {
        relink(words, shape, level, seed, shape.slots - 1 - done, text);
    }
}

/// Puts a slot before the others of its bucket by the hash of its text, if the slot is counted.
fn relink(words: &mut [u64], shape: &Shape, level: u8, seed: u32, slot: u32, text: &mut [u8])
    requires shape { IsSound shape.now }
    requires sized { length words.old ≡ words_of shape.now }
    requires level { (shape.now.min_level ≤ level) × (level ≤ shape.now.max_level) }
    requires rooms { anew.HaveRoom shape.now words.old }
    requires slot { slot < shape.now.slots }
    requires room { length text.old ≡ 8 * shape.now.text_words }
    ensures value { words.new ≡ anew.with_slot shape.now level seed slot words.old }
{
    if is_counted(words, shape, slot) {
        let hash = hash_at(words, shape, seed, slot, text);
        put_first(words, shape, level, slot, hash);
    }
}

/// Whether the slot is taken and its count is above 0.
fn is_counted(words: &[u64], shape: &Shape, slot: u32) -> bool
    requires shape { IsSound shape.now }
    requires sized { length words.now ≡ words_of shape.now }
    requires slot { slot < shape.now.slots }
    ensures value { result ≡ anew.is_counted_in shape.now words.now slot }
{
    load(words, shape, Place::Claim(slot)) == 1
        && holds_of(load(words, shape, Place::Count(slot))) > 0
}

/// The hash of a slot's text by a seed. `text` has room for its bytes.
fn hash_at(words: &[u64], shape: &Shape, seed: u32, slot: u32, text: &mut [u8]) -> u32
    requires shape { IsSound shape.now }
    requires sized { length words.now ≡ words_of shape.now }
    requires slot { slot < shape.now.slots }
    requires rooms { anew.HaveRoom shape.now words.now }
    requires room { length text.old ≡ 8 * shape.now.text_words }
    ensures value { result ≡ seeded_hash_of seed (anew.text_at shape.now words.now slot) }
{
    let length = usize::from(length_in(load(words, shape, Place::Meta(slot))));
    let from = shape.index(Place::Text { slot, at: 0 }) as usize;
    unpack(&words[from..from + shape.text_words as usize], length, text);
    hash_of(seed, &text[..length])
}

/// Puts a slot before the others of the bucket of its hash.
fn put_first(words: &mut [u64], shape: &Shape, level: u8, slot: u32, hash: u32)
    requires shape { IsSound shape.now }
    requires sized { length words.old ≡ words_of shape.now }
    requires level { (shape.now.min_level ≤ level) × (level ≤ shape.now.max_level) }
    requires slot { slot < shape.now.slots }
    ensures value { words.new ≡ anew.with_first shape.now level slot hash words.old }
{
    let head = Place::Head {
        row: level,
        bucket: hash % buckets_of(level),
    };
    let length = length_in(load(words, shape, Place::Meta(slot)));
    let next = first_in(load(words, shape, head));
    store(
        words,
        shape,
        Place::Meta(slot),
        Meta { hash, length }.to_word(),
    );
    store(words, shape, Place::Link(slot), link_word(next));
    store(words, shape, head, headed_by(slot));
}

/// The first node of a head.
fn first_in(word: u64) -> Option<u32>
    ensures value { result ≡ anew.node_in word }
{
    Head::of_word(word)?.node
}

/// The word of a head whose first node is the slot, and which is not locked.
fn headed_by(slot: u32) -> u64
    ensures value { result ≡ anew.headed_by slot }
{
    let head = Head {
        node: Some(slot),
        lock: false,
        redirect: false,
    };
    head.to_word()
}

/// How many buckets the row of a level has.
fn buckets_of(level: u8) -> u32
    requires level { level ≤ 20 }
    ensures value { result ≡ 2 ^ level }
{
    1u32 << level
}

/// The word at a place.
fn load(words: &[u64], shape: &Shape, place: Place) -> u64
    requires shape { IsSound shape.now }
    requires sized { length words.now ≡ words_of shape.now }
    requires inside { IsInside shape.now place }
    ensures value { result ≡ word_at shape.now place words.now }
{
    words[shape.index(place) as usize]
}

/// Stores a word at a place.
fn store(words: &mut [u64], shape: &Shape, place: Place, word: u64)
    requires shape { IsSound shape.now }
    requires sized { length words.old ≡ words_of shape.now }
    requires inside { IsInside shape.now place }
    ensures value { words.new ≡ anew.with_word shape.now place word words.old }
{
    words[shape.index(place) as usize] = word;
}
