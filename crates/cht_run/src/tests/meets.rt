//! What a seat may do after it has met another one.
ghost use Rattle.cht_core.specs.Begins.{IsCreated};
ghost use Rattle.cht_run.specs.Ends.{Stays};
ghost use Rattle.cht_run.specs.Seats.{seen, IsOf};

use super::*;
use crate::change::TryKill;
use crate::intern::TryInternWeak;
use crate::lookup::TryFind;

/// Two seats meet, of which the second has seen a handle created.
fn meet_to_hear(cht: &Cht, seat: &mut Seat, other: &mut Seat, handle: Handle)
    requires of { IsOf cht.now seat.old × IsOf cht.now other.old }
    requires created { IsCreated (seen other.old) handle }
    ensures of { IsOf cht.now seat.new × IsOf cht.now other.new }
    ensures same { Stays seat.old seat.new × Stays other.old other.new }
    ensures created { IsCreated (seen seat.new) handle }
{
    let _handle = handle;
    cht.meet(seat, other);
}

#[test]
fn a_seat_kills_what_another_has_made(rt: HostRuntime) -> Result<(), Fail> {
    let Ok((cht, mut seat)) = Cht::make(rt.alloc(), Kind::Weak, WIDE, 0) else {
        panic!(rt; "there is memory for a small table")
    };
    let Ok(mut other) = cht.split(&mut seat) else {
        panic!(rt; "a number is left")
    };
    let TryInternWeak::Created(made) = cht.try_intern_weak(&mut other, b"a") else {
        panic!(rt; "a slot is free")
    };
    assert!(rt; made == first_in(2));
    meet_to_hear(&cht, &mut seat, &mut other, made);
    assert!(rt; cht.try_kill(&mut seat, made) == TryKill::Killed);
    cht.meet(&mut seat, &mut other);
    assert!(rt; cht.try_find(&mut other, b"a") == TryFind::Miss);
    Ok(())
}
