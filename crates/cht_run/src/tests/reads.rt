//! What is read of a handle before its entry is gone, and after that.
ghost use Rattle.std.specs.Prelude.{◌≡◌};
ghost use Rattle.intern_log.specs.declared.event.Kind.TheVariants.{Counted, Weak};
ghost use Rattle.cht_core.specs.Begins.{IsHeld, IsCreated};
ghost use Rattle.cht_run.specs.Ended.{Keeps};
ghost use Rattle.cht_run.specs.Seats.{seen, numbers, IsOf};

use super::*;
use crate::change::{TryKill, TryPermanent};
use crate::intern::TryInternWeak;
use crate::intern_wait::Interned;
use crate::lookup::TryLookup;
use crate::read::TextOf;
use crate::retry::Released;

/// Reads the text of a handle that the seat holds: what comes of it, and the first word.
fn read_held(cht: &Cht, seat: &mut Seat, handle: Handle) -> (TextOf, u64)
    requires of { IsOf cht.now seat.old }
    requires counted { cht.now.origin.table.kind ≡ Counted }
    requires narrow { cht.now.origin.table.shape.text_words ≡ 1 }
    requires held { IsHeld (seen seat.old) (numbers seat.old) handle }
    ensures of { IsOf cht.now seat.new }
    ensures keeps { Keeps seat.old seat.new }
    ensures held { IsHeld (seen seat.new) (numbers seat.new) handle }
{
    let mut out = [0u64; 1];
    let text = cht.text_of(seat, handle, &mut out);
    (text, out[0])
}

/// Looks a text up, with a hold on a handle.
fn look_up_holding(cht: &Cht, seat: &mut Seat, text: &[u8], handle: Handle) -> TryLookup
    requires of { IsOf cht.now seat.old }
    requires counted { cht.now.origin.table.kind ≡ Counted }
    requires held { IsHeld (seen seat.old) (numbers seat.old) handle }
    ensures of { IsOf cht.now seat.new }
    ensures keeps { Keeps seat.old seat.new }
    ensures held { IsHeld (seen seat.new) (numbers seat.new) handle }
{
    let _handle = handle;
    cht.try_lookup(seat, text)
}

/// Makes a hold permanent, which is then still a hold.
fn hold_for_good(cht: &Cht, seat: &mut Seat, handle: Handle) -> TryPermanent
    requires of { IsOf cht.now seat.old }
    requires counted { cht.now.origin.table.kind ≡ Counted }
    requires held { IsHeld (seen seat.old) (numbers seat.old) handle }
    ensures of { IsOf cht.now seat.new }
    ensures keeps { Keeps seat.old seat.new }
    ensures held { IsHeld (seen seat.new) (numbers seat.new) handle }
{
    cht.try_permanent(seat, handle)
}

#[test]
fn a_held_text_is_read_and_stays(rt: HostRuntime) -> Result<(), Fail> {
    let Ok((cht, mut seat)) = Cht::make(rt.alloc(), Kind::Counted, WIDE, 0) else {
        panic!(rt; "there is memory for a small table")
    };
    let Interned::Created(a) = cht.intern(&rt, &mut seat, b"a") else {
        panic!(rt; "a slot is free")
    };
    assert!(rt; a == first_in(0));
    assert!(rt; read_held(&cht, &mut seat, a) == (TextOf::Text { length: 1 }, 97));
    assert!(rt; look_up_holding(&cht, &mut seat, b"a", a) == TryLookup::Hit(a));
    assert!(rt; look_up_holding(&cht, &mut seat, b"b", a) == TryLookup::Miss);
    assert!(rt; hold_for_good(&cht, &mut seat, a) == TryPermanent::Done);
    assert!(rt; cht.drop_ref(&rt, &mut seat, a) == Released::Permanent);
    cht.close(seat);
    Ok(())
}

/// Reads the text of a handle that was created: what comes of it, and the first word.
fn read_created(cht: &Cht, seat: &mut Seat, handle: Handle) -> (TextOf, u64)
    requires of { IsOf cht.now seat.old }
    requires weak { cht.now.origin.table.kind ≡ Weak }
    requires narrow { cht.now.origin.table.shape.text_words ≡ 1 }
    requires created { IsCreated (seen seat.old) handle }
    ensures of { IsOf cht.now seat.new }
    ensures keeps { Keeps seat.old seat.new }
    ensures created { IsCreated (seen seat.new) handle }
{
    let mut out = [0u64; 1];
    let text = cht.text_of(seat, handle, &mut out);
    (text, out[0])
}

/// Kills the entry of a handle, which is then still one that was created.
fn kill_created(cht: &Cht, seat: &mut Seat, handle: Handle) -> TryKill
    requires of { IsOf cht.now seat.old }
    requires weak { cht.now.origin.table.kind ≡ Weak }
    requires created { IsCreated (seen seat.old) handle }
    ensures of { IsOf cht.now seat.new }
    ensures keeps { Keeps seat.old seat.new }
    ensures created { IsCreated (seen seat.new) handle }
{
    cht.try_kill(seat, handle)
}

#[test]
fn a_killed_text_is_stale(rt: HostRuntime) -> Result<(), Fail> {
    let Ok((cht, mut seat)) = Cht::make(rt.alloc(), Kind::Weak, WIDE, 0) else {
        panic!(rt; "there is memory for a small table")
    };
    let TryInternWeak::Created(a) = cht.try_intern_weak(&mut seat, b"a") else {
        panic!(rt; "a slot is free")
    };
    assert!(rt; a == first_in(0));
    assert!(rt; read_created(&cht, &mut seat, a) == (TextOf::Text { length: 1 }, 97));
    assert!(rt; kill_created(&cht, &mut seat, a) == TryKill::Killed);
    assert!(rt; read_created(&cht, &mut seat, a).0 == TextOf::Stale);
    cht.close(seat);
    Ok(())
}
