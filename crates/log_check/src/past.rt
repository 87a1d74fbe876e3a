//! What the events so far leave of one slot, one seat, one bucket or the whole table.
ghost use Rattle.std.specs.Prelude.{◌≡◌, ℕ, ◌↔◌, IsTrue};
ghost use Rattle.std.specs.List.{list_any};
ghost use Rattle.std.specs.Option.{option_map};
ghost use Rattle.intern_log.specs.Log.{creates};
ghost use Rattle.intern_log.specs.Lawful.{IsGracedSince};
ghost use Rattle.intern_log.specs.Now.{now_of};
ghost use Rattle.log_check.specs.Parts.{phase_seen, phase_step, section_step, lock_step, owner_step, slot_unlinked, is_left_by, HasUnlinked, leaves_unlocked, AreClosed, AreUnlocked};
ghost use Rattle.intern_log.specs.Orderly.{level_after_event};
ghost use Rattle.intern_log.specs.Seeded.{seed_after_event};

use intern_log::{Event, Handle, What};

/// Where a slot is, without the text that is linked there and the place of its Create.
#[derive(Clone, Copy, Debug, PartialEq, Eq)]
pub(crate) enum SlotPhase {
    /// It is free.
    Vacant,
    /// The seat has claimed it.
    Claimed { seat: u32 },
    /// It is in a chain, with this handle.
    Linked { handle: Handle },
    /// The seat has taken it out of its chain, at this place.
    Unlinked { seat: u32, place: usize },
}

/// Where a slot is after one more event.
fn phase_after(phase: SlotPhase, slot: u32, place: usize, event: &Event) -> SlotPhase
    ensures { result ≡ phase_step slot phase (place, event.now) }
{
    match &event.what {
        What::Create(_, handle) if slot == handle.slot => SlotPhase::Linked { handle: *handle },
        What::Claim(claimed) if slot == *claimed => SlotPhase::Claimed { seat: event.seat },
        What::Free(freed) if slot == *freed => SlotPhase::Vacant,
        What::Unlink(unlinked) if slot == *unlinked => SlotPhase::Unlinked {
            seat: event.seat,
            place,
        },
        _ => phase,
    }
}

/// Where a slot is after the events.
pub(crate) fn phase_of(events: &[Event], slot: u32) -> SlotPhase
    ensures { (min_level : ℕ) → result ≡ phase_seen ((now_of min_level events.now).slot slot) }
{
    events
        .iter()
        .enumerate()
        .fold(SlotPhase::Vacant, |phase, (place, event)| {
            phase_after(phase, slot, place, event)
        })
}

/// Where the open section of a seat was opened, after one more event.
fn section_after(opened: Option<usize>, seat: u32, place: usize, event: &Event) -> Option<usize>
    ensures { result ≡ section_step seat opened (place, event.now) }
{
    if seat != event.seat {
        return opened;
    }
    match &event.what {
        What::Open(_) => Some(place),
        What::Close => None,
        _ => opened,
    }
}

/// Where the open section of a seat was opened, if it has one.
pub(crate) fn section_of(events: &[Event], seat: u32) -> Option<usize>
    ensures { (min_level : ℕ) → result ≡ option_map (λ o. o.place) ((now_of min_level events.now).section seat) }
{
    events
        .iter()
        .enumerate()
        .fold(None, |opened, (place, event)| {
            section_after(opened, seat, place, event)
        })
}

/// Who has locked a bucket, after one more event.
fn lock_after(owner: Option<u32>, row: u8, bucket: u32, event: &Event) -> Option<u32>
    ensures { result ≡ lock_step row bucket owner event.now }
{
    match &event.what {
        What::Lock(level, place) if row == *level && bucket == *place => Some(event.seat),
        What::Unlock(level, place) if row == *level && bucket == *place => None,
        What::Level(level) if row != *level => None,
        _ => owner,
    }
}

/// Who has locked a bucket of a row.
pub(crate) fn lock_of(events: &[Event], row: u8, bucket: u32) -> Option<u32>
    ensures { (min_level : ℕ) → result ≡ (now_of min_level events.now).lock row bucket }
{
    events
        .iter()
        .fold(None, |owner, event| lock_after(owner, row, bucket, event))
}

/// Who has the resize lock, after one more event.
fn resizer_after(owner: Option<u32>, event: &Event) -> Option<u32>
    ensures { result ≡ owner_step owner event.now }
{
    match &event.what {
        What::ResizeTaken => Some(event.seat),
        What::ResizeGiven => None,
        _ => owner,
    }
}

/// Who has the resize lock.
pub(crate) fn resizer(events: &[Event]) -> Option<u32>
    ensures { (min_level : ℕ) → result ≡ option_map (λ r. r.seat) (now_of min_level events.now).resizing }
{
    events
        .iter()
        .fold(None, |owner, event| resizer_after(owner, event))
}

/// The level after one more event.
fn level_after(level: u8, event: &Event) -> u8
    ensures { result ≡ level_after_event level event.now.what }
{
    match &event.what {
        What::Level(stored) => *stored,
        _ => level,
    }
}

/// The level of the table.
pub(crate) fn level_of(events: &[Event], min_level: u8) -> u8
    ensures { result ≡ (now_of min_level events.now).level }
{
    events
        .iter()
        .fold(min_level, |level, event| level_after(level, event))
}

/// The seed after one more event.
fn seed_after(seed: u32, event: &Event) -> u32
    ensures { result ≡ seed_after_event seed event.now.what }
{
    match &event.what {
        What::Rehash { seed: next } => *next,
        _ => seed,
    }
}

/// The seed of the table.
pub(crate) fn seed_of(events: &[Event]) -> u32
    ensures { (min_level : ℕ) → result ≡ (now_of min_level events.now).seed }
{
    events.iter().fold(0, |seed, event| seed_after(seed, event))
}

/// How often the grace counter was raised.
pub(crate) fn graces_of(events: &[Event]) -> usize
    ensures { (min_level : ℕ) → result ≡ (now_of min_level events.now).graces }
{
    events
        .iter()
        .filter(|event| matches!(event.what, What::Grace))
        .count()
}

/// Whether an event creates this handle.
fn creates_handle(event: &Event, handle: Handle) -> bool
    ensures { result ≡ creates event.now.what handle }
{
    match &event.what {
        What::Create(_, created) => *created == handle,
        _ => false,
    }
}

/// Whether some event creates this handle.
pub(crate) fn is_created(events: &[Event], handle: Handle) -> bool
    ensures { result ≡ list_any (λ e. creates e.what handle) events.now }
{
    events.iter().any(|event| creates_handle(event, handle))
}

/// Whether every section that was open at a place has been closed.
pub(crate) fn is_graced_since(events: &[Event], place: usize) -> bool
    ensures { (min_level : ℕ) → IsTrue result ↔ IsGracedSince (now_of min_level events.now) place }
{
    events.iter().all(|event| {
        section_of(events, event.seat).is_none_or(|opened| place < opened)
    })
}

/// Whether an event is an Unlink of a slot that the seat has unlinked, and that is not freed yet.
fn leaves_unlinked(events: &[Event], seat: u32, event: &Event) -> bool
    ensures { (min_level : ℕ) → result ≡ is_left_by seat (now_of min_level events.now).slot (slot_unlinked event.now.what) }
{
    match &event.what {
        What::Unlink(slot) => match phase_of(events, *slot) {
            SlotPhase::Unlinked { seat: unlinker, .. } => unlinker == seat,
            _ => false,
        },
        _ => false,
    }
}

/// Whether the seat has unlinked some slot that is not freed yet.
pub(crate) fn has_unlinked(events: &[Event], seat: u32) -> bool
    ensures { (min_level : ℕ) → IsTrue result ↔ HasUnlinked (now_of min_level events.now) seat }
{
    events
        .iter()
        .any(|event| leaves_unlinked(events, seat, event))
}

/// Whether no seat has a section open.
pub(crate) fn are_closed(events: &[Event]) -> bool
    ensures { (min_level : ℕ) → IsTrue result ↔ AreClosed (now_of min_level events.now) }
{
    events
        .iter()
        .all(|event| section_of(events, event.seat).is_none())
}

/// Whether an event is no Lock of a bucket that is locked.
fn leaves_unlocked(events: &[Event], event: &Event) -> bool
    ensures { (min_level : ℕ) → result ≡ leaves_unlocked (now_of min_level events.now).lock event.now.what }
{
    match &event.what {
        What::Lock(row, bucket) => lock_of(events, *row, *bucket).is_none(),
        _ => true,
    }
}

/// Whether no bucket is locked.
pub(crate) fn are_unlocked(events: &[Event]) -> bool
    ensures { (min_level : ℕ) → IsTrue result ↔ AreUnlocked (now_of min_level events.now) }
{
    events.iter().all(|event| leaves_unlocked(events, event))
}
