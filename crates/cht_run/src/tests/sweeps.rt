//! What sweeps and cleans unlink of what is gone.
ghost use Rattle.std.specs.Prelude.{◌≡◌};
ghost use Rattle.intern_log.specs.declared.event.Kind.TheVariants.{Counted};
ghost use Rattle.cht_run.specs.Ends.{HasNothing};
ghost use Rattle.cht_run.specs.Seats.{IsOf};

use super::*;
use crate::intern_wait::Interned;
use crate::retry::Released;
use crate::sweeps::Swept;
use crate::waits::Cleaned;
use call_machine::Worked;
use std::sync::Wait;

/// Interns a text and lets go of it: whether its entry was made, and is then gone.
fn comes_and_is_gone<R: Wait>(rt: &R, cht: &Cht, seat: &mut Seat, text: &[u8]) -> bool
    requires of { IsOf cht.now seat.old }
    requires counted { cht.now.origin.table.kind ≡ Counted }
    requires nothing { HasNothing seat.old }
    ensures of { IsOf cht.now seat.new }
    ensures nothing { HasNothing seat.new }
{
    match cht.intern(rt, seat, text) {
        Interned::Created(handle) => {
            cht.drop_ref(rt, seat, handle) == Released::Dropped { left: 0 }
        }
        Interned::Taken(_) | Interned::TooLong | Interned::NoSlot => false,
    }
}

/// A text comes and is gone some times: how often its entry was made.
fn come_and_be_gone<R: Wait>(
    rt: &R,
    cht: &Cht,
    mut seat: Seat,
    text: &[u8],
    times: u32,
) -> (Seat, u32)
    requires of { IsOf cht.now seat }
    requires counted { cht.now.origin.table.kind ≡ Counted }
    requires nothing { HasNothing seat }
    ensures of { IsOf cht.now result.0 }
    ensures nothing { HasNothing result.0 }
{
    for made in 0..times {
        if !comes_and_is_gone(rt, cht, &mut seat, text) {
            return (seat, made);
        }
    }
    (seat, times)
}

/// What a clean tells that has unlinked so many slots, with so many graces.
fn cleaned(unlinked: u64, graces: u64) -> Cleaned {
    Cleaned::Done(Worked {
        unlinked,
        graces,
        level: 3,
    })
}

#[test]
fn what_is_gone_is_unlinked_once(rt: HostRuntime) -> Result<(), Fail> {
    let Ok((cht, mut seat)) = Cht::make(rt.alloc(), Kind::Counted, WIDE, 0) else {
        panic!(rt; "there is memory for a small table")
    };
    assert!(rt; comes_and_is_gone(&rt, &cht, &mut seat, b"a"));
    assert!(rt; cht.sweep(&rt, &mut seat, b"a") == Swept::Done { unlinked: 1 });
    assert!(rt; cht.sweep(&rt, &mut seat, b"a") == Swept::Done { unlinked: 0 });
    assert!(rt; cht.clean(&rt, &mut seat) == cleaned(0, 0));
    let (mut seat, made) = come_and_be_gone(&rt, &cht, seat, b"a", 8);
    assert!(rt; made == 8);
    assert!(rt; cht.clean(&rt, &mut seat) == cleaned(8, 1));
    Ok(())
}
