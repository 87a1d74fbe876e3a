//! Whether an event may follow the events before it, for each kind of event.
ghost use Rattle.std.specs.Prelude.{◌≡◌, ℕ, ◌↔◌, IsTrue, Some};
ghost use Rattle.intern_log.specs.Lawful.{IsResizing, IsQuiet};
ghost use Rattle.intern_log.specs.Log.{Allows};
ghost use Rattle.intern_log.specs.Now.{Claimed, now_of};
ghost use Rattle.intern_log.specs.declared.event.TableKind.{TableKind};
ghost use Rattle.log_check.specs.Parts.{IsNextLevel, MayStand, IsRepeated, NamesDead, AreLive};

use crate::past::{
    SlotPhase, are_closed, are_unlocked, graces_of, has_unlinked, is_created, is_graced_since,
    level_of, lock_of, phase_of, resizer, section_of, seed_of,
};
use intern_log::{Event, Kind, Replay, TableKind, What};

/// Whether a table of this kind allows an event that only such tables have.
fn is_allowed_in(kind: Kind, table: &TableKind, texts: &Replay, what: &What) -> bool
    ensures { IsTrue result ↔ ((table.now.kind ≡ kind) × Allows texts.now what.now) }
{
    table.kind == kind && texts.allows(what)
}

/// Whether a seat has claimed a slot, and has not used it yet.
fn is_claimed_by(before: &[Event], seat: u32, slot: u32) -> bool
    ensures { (min_level : ℕ) → IsTrue result ↔ ((now_of min_level before.now).slot slot ≡ Claimed seat) }
{
    phase_of(before, slot) == SlotPhase::Claimed { seat }
}

/// Whether a slot may be claimed: it is free.
fn may_claim(before: &[Event], slot: u32) -> bool
    ensures { (table : TableKind) (seat : ℕ) → IsTrue result ↔ MayStand table before.now seat (What.Claim slot) }
{
    phase_of(before, slot) == SlotPhase::Vacant
}

/// Whether a seat may free a slot: it claimed it and did not link it, or it unlinked it, and every
/// section that was open then is closed.
fn may_free(before: &[Event], seat: u32, slot: u32) -> bool
    ensures { (table : TableKind) → IsTrue result ↔ MayStand table before.now seat (What.Free slot) }
{
    match phase_of(before, slot) {
        SlotPhase::Vacant | SlotPhase::Linked { .. } => false,
        SlotPhase::Claimed { seat: owner } => owner == seat,
        SlotPhase::Unlinked { seat: owner, place } => {
            owner == seat && is_graced_since(before, place)
        }
    }
}

/// Whether a seat may open a section with this counter: it has none open, and the grace counter was
/// raised that far.
fn may_open(table: &TableKind, before: &[Event], seat: u32, counter: u64) -> bool
    ensures { IsTrue result ↔ MayStand table.now before.now seat (What.Open counter) }
{
    let raised = u128::from(table.first_counter) + 2 * (graces_of(before) as u128);
    section_of(before, seat).is_none() && u128::from(counter) <= raised
}

/// Whether a seat may close its section: it has one.
fn may_close(before: &[Event], seat: u32) -> bool
    ensures { (table : TableKind) → IsTrue result ↔ MayStand table before.now seat What.Close }
{
    section_of(before, seat).is_some()
}

/// Whether a bucket may be locked: nobody has locked it.
fn may_lock(before: &[Event], row: u8, bucket: u32) -> bool
    ensures { (table : TableKind) (seat : ℕ) → IsTrue result ↔ MayStand table before.now seat (What.Lock row bucket) }
{
    lock_of(before, row, bucket).is_none()
}

/// Whether a seat may unlock a bucket: it has locked it.
fn may_unlock(before: &[Event], seat: u32, row: u8, bucket: u32) -> bool
    ensures { (table : TableKind) → IsTrue result ↔ MayStand table before.now seat (What.Unlock row bucket) }
{
    lock_of(before, row, bucket) == Some(seat)
}

/// Whether the resize lock may be taken: nobody has it.
fn may_take_resize(before: &[Event]) -> bool
    ensures { (table : TableKind) (seat : ℕ) → IsTrue result ↔ MayStand table before.now seat What.ResizeTaken }
{
    resizer(before).is_none()
}

/// Whether a seat has the resize lock.
fn is_resizing(before: &[Event], seat: u32) -> bool
    ensures { (min_level : ℕ) → IsTrue result ↔ IsResizing (now_of min_level before.now) seat }
{
    resizer(before) == Some(seat)
}

/// Whether a seat may give the resize lock back: it has it, and each slot that it unlinked is freed.
fn may_give_resize(before: &[Event], seat: u32) -> bool
    ensures { (table : TableKind) → IsTrue result ↔ MayStand table before.now seat What.ResizeGiven }
{
    is_resizing(before, seat) && !has_unlinked(before, seat)
}

/// Whether a level is next to that of the table and within its bounds.
fn is_next_level(table: &TableKind, before: &[Event], level: u8) -> bool
    ensures { IsTrue result ↔ IsNextLevel table.now (now_of table.now.min_level before.now).level level }
{
    let now = level_of(before, table.min_level);
    level.abs_diff(now) == 1 && table.min_level <= level && level <= table.max_level
}

/// Whether a seat may store a level: it has the resize lock, and the level is next to that of the
/// table and within its bounds.
fn may_set_level(table: &TableKind, before: &[Event], seat: u32, level: u8) -> bool
    ensures { IsTrue result ↔ MayStand table.now before.now seat (What.Level level) }
{
    is_resizing(before, seat) && is_next_level(table, before, level)
}

/// Whether a slot may be unlinked: it is in a chain, and its entry is gone.
fn may_unlink(before: &[Event], texts: &Replay, slot: u32) -> bool
    ensures { (table : TableKind) (seat : ℕ) → texts.now ≡ (now_of table.min_level before.now).texts
        → IsTrue result ↔ MayStand table before.now seat (What.Unlink slot) }
{
    match phase_of(before, slot) {
        SlotPhase::Linked { handle } => !texts.is_live(handle),
        _ => false,
    }
}

/// Whether an event is a Create in a slot that is in a chain with its entry gone.
fn names_dead(before: &[Event], texts: &Replay, event: &Event) -> bool
    ensures { (table : TableKind) → texts.now ≡ (now_of table.min_level before.now).texts
        → IsTrue result ↔ NamesDead (now_of table.min_level before.now) event.now.what }
{
    match &event.what {
        What::Create(_, handle) => may_unlink(before, texts, handle.slot),
        _ => false,
    }
}

/// Whether no slot is in a chain with its entry gone.
fn are_live(table: &TableKind, before: &[Event], texts: &Replay) -> bool
    requires { texts.now ≡ (now_of table.now.min_level before.now).texts }
    ensures { IsTrue result ↔ AreLive (now_of table.now.min_level before.now) }
{
    for event in before {
        if names_dead(before, texts, event) {
            return false;
        }
    }
    true
}

/// Whether nothing is going on: no section is open, no bucket is locked, nobody has the resize lock, and
/// no slot is in a chain with its entry gone.
fn is_quiet(table: &TableKind, before: &[Event], texts: &Replay) -> bool
    requires { texts.now ≡ (now_of table.now.min_level before.now).texts }
    ensures { IsTrue result ↔ IsQuiet (now_of table.now.min_level before.now) }
{
    if !are_closed(before) {
        return false;
    }
    if !are_unlocked(before) {
        return false;
    }
    if resizer(before).is_some() {
        return false;
    }
    are_live(table, before, texts)
}

/// Whether a seat may make the hashes and the chains anew with this seed: it is seat 0, the seed is the
/// next one and at most 2, and nothing is going on.
fn may_rehash(table: &TableKind, before: &[Event], texts: &Replay, seat: u32, seed: u32) -> bool
    requires { texts.now ≡ (now_of table.now.min_level before.now).texts }
    ensures { IsTrue result ↔ MayStand table.now before.now seat (What.Rehash seed) }
{
    seat == 0
        && seed <= 2
        && u64::from(seed) == u64::from(seed_of(before)) + 1
        && is_quiet(table, before, texts)
}

/// Whether an event may follow the events before it. It asks for the map that those events leave.
pub(crate) fn may_follow(table: &TableKind, before: &[Event], texts: &Replay, event: &Event) -> bool
    requires { texts.now ≡ (now_of table.now.min_level before.now).texts }
    ensures { IsTrue result ↔ MayStand table.now before.now event.now.seat event.now.what }
{
    let seat = event.seat;
    match &event.what {
        What::Create(_, handle) => {
            texts.allows(&event.what) && is_claimed_by(before, seat, handle.slot)
        }
        What::Take(..) | What::Drop(_) | What::Perm(_) => {
            is_allowed_in(Kind::Counted, table, texts, &event.what)
        }
        What::Found(..) | What::Kill(_) => is_allowed_in(Kind::Weak, table, texts, &event.what),
        What::Claim(slot) => may_claim(before, *slot),
        What::Free(slot) => may_free(before, seat, *slot),
        What::Unlink(slot) => may_unlink(before, texts, *slot),
        What::Open(counter) => may_open(table, before, seat, *counter),
        What::Close => may_close(before, seat),
        What::Grace => true,
        What::Lock(row, bucket) => may_lock(before, *row, *bucket),
        What::Unlock(row, bucket) => may_unlock(before, seat, *row, *bucket),
        What::ResizeTaken => may_take_resize(before),
        What::ResizeGiven => may_give_resize(before, seat),
        What::Level(level) => may_set_level(table, before, seat, *level),
        What::Rehash { seed } => may_rehash(table, before, texts, seat, *seed),
    }
}

/// Whether an event creates a handle that was created before.
pub(crate) fn is_repeated(before: &[Event], event: &Event) -> bool
    ensures { IsTrue result ↔ IsRepeated before.now event.now }
{
    match &event.what {
        What::Create(_, handle) => is_created(before, *handle),
        _ => false,
    }
}
