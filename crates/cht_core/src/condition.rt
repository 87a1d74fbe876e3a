//! When a call of a seat may start.
ghost use Rattle.std.specs.Prelude.{◌≡◌, ◌↔◌, ℕ, ◌∷◌, [], IsTrue, true, List};
ghost use Rattle.call_machine.specs.SoundMachine.{MayStart};
ghost use Rattle.intern_log.specs.Log.{creates as creates_in};
ghost use Rattle.intern_log.specs.Own.{is_gain, is_loss};
ghost use Rattle.cht_core.specs.Slots.{AreBytes};
ghost use Rattle.cht_core.specs.Begins.{IsHeld, IsCreated, MeetsLog, HasBytes};

use crate::table::Table;
use call_machine::machine::may_start;
use call_machine::{Call, Own};
use intern_log::{Event, Handle, Kind, What};

/// Whether the condition of a call of a seat holds.
pub(crate) fn can_start(table: &Table, log: &[Event], own: &Own, call: Call<'_>) -> bool
    ensures bytes { HasBytes call.entry }
    ensures exact { IsTrue result ↔ (MayStart table.now.kind table.now.shape own.now call.entry × MeetsLog table.now.kind log.now (own.now.number ∷ []) call.entry) }
{
    let bytes = has_bytes(call);
    bytes
        && may_start(table.kind, &table.shape, own, call)
        && meets_log(table.kind, log, own.number, call)
}

/// The text of a call, if it has one, is one of bytes.
fn has_bytes(call: Call<'_>) -> bool
    ensures value { result ≡ true }
    ensures bytes { HasBytes call.entry }
{
    match call {
        Call::Intern(text) => is_text(text),
        Call::Lookup(text) => is_text(text),
        Call::InternWait(text) => is_text(text),
        Call::Sweep(text) => is_text(text),
        _ => true,
    }
}

/// Any text of bytes is one that a table may have.
fn is_text(text: &[u8]) -> bool
    ensures value { result ≡ true }
    ensures bytes { AreBytes text.now }
{
    let _text = text;
    true
}

/// Whether the log allows the seat of this number the call: a handle that is let go of, or whose text is
/// read in a counted table, is held by the seat, and any other was created.
fn meets_log(kind: Kind, log: &[Event], number: u32, call: Call<'_>) -> bool
    ensures exact { IsTrue result ↔ MeetsLog kind log.now (number ∷ []) call.entry }
{
    match call {
        Call::Drop(handle) => holds(log, number, handle),
        Call::Permanent(handle) => holds(log, number, handle),
        Call::Kill(handle) => is_created(log, handle),
        Call::TextOf(handle) => match kind {
            Kind::Counted => holds(log, number, handle),
            Kind::Weak => is_created(log, handle),
        },
        _ => true,
    }
}

/// Whether the log has created the handle.
fn is_created(log: &[Event], handle: Handle) -> bool
    ensures exact { IsTrue result ↔ IsCreated log.now handle }
{
    log.iter().any(|event| creates(&event.what, handle))
}

/// Whether the event creates the handle.
fn creates(what: &What, handle: Handle) -> bool
    ensures value { result ≡ creates_in what.now handle }
{
    match what {
        What::Create(_, created) => *created == handle,
        _ => false,
    }
}

/// Whether the seat has created and taken the handle more often than it has dropped it.
fn holds(log: &[Event], number: u32, handle: Handle) -> bool
    ensures exact { IsTrue result ↔ IsHeld log.now (number ∷ []) handle }
{
    let gained = log
        .iter()
        .filter(|event| event.seat == number && gains(&event.what, handle))
        .count();
    let lost = log
        .iter()
        .filter(|event| event.seat == number && loses(&event.what, handle))
        .count();
    lost < gained
}

/// Whether the event gives its seat a hold on the handle.
fn gains(what: &What, handle: Handle) -> bool
    ensures value { result ≡ is_gain what.now handle }
{
    match what {
        What::Create(_, gained) | What::Take(_, gained) => *gained == handle,
        _ => false,
    }
}

/// Whether the event takes a hold on the handle away.
fn loses(what: &What, handle: Handle) -> bool
    ensures value { result ≡ is_loss what.now handle }
{
    match what {
        What::Drop(lost) => *lost == handle,
        _ => false,
    }
}
