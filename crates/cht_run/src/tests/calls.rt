//! What calls of one seat and of two come to.
ghost use Rattle.std.specs.Prelude.{◌≡◌};
ghost use Rattle.intern_log.specs.declared.event.Kind.TheVariants.{Counted};
ghost use Rattle.cht_run.specs.Ended.{Keeps, KeepsWork};
ghost use Rattle.cht_run.specs.Seats.{IsOf};

use super::*;
use crate::intern::{TryIntern, TryInternWeak};
use crate::lookup::{TryFind, TryLookup};
use intern_log::Handle;

#[test]
fn a_seat_interns_and_looks_up(rt: HostRuntime) -> Result<(), Fail> {
    let Ok((cht, mut seat)) = Cht::make(rt.alloc(), Kind::Counted, SMALL, 6) else {
        panic!(rt; "there is memory for a small table")
    };
    let (a, c) = (first_in(0), first_in(1));
    assert!(rt; cht.try_lookup(&mut seat, b"a") == TryLookup::Miss);
    assert!(rt; cht.try_intern(&mut seat, b"a") == TryIntern::Created(a));
    assert!(rt; cht.try_intern(&mut seat, b"a") == TryIntern::Taken(a));
    assert!(rt; cht.try_lookup(&mut seat, b"a") == TryLookup::Hit(a));
    assert!(rt; cht.try_lookup(&mut seat, b"c") == TryLookup::Miss && seat.passed() == 1);
    assert!(rt; cht.try_intern(&mut seat, b"c") == TryIntern::Created(c));
    assert!(rt; cht.try_lookup(&mut seat, b"a") == TryLookup::Hit(a) && seat.passed() == 1);
    assert!(rt; cht.try_intern(&mut seat, b"123456789") == TryIntern::TooLong);
    assert!(rt; cht.try_lookup(&mut seat, b"123456789") == TryLookup::Miss);
    assert!(rt; cht.try_intern(&mut seat, b"12345678") == TryIntern::Created(first_in(2)));
    assert!(rt; cht.try_intern(&mut seat, b"") == TryIntern::Created(first_in(3)));
    assert!(rt; cht.try_intern(&mut seat, b"e") == TryIntern::NoSlot);
    assert!(rt; cht.try_lookup(&mut seat, b"") == TryLookup::Hit(first_in(3)));
    assert!(rt; cht.try_intern(&mut seat, b"c") == TryIntern::Taken(c));
    cht.close(seat);
    Ok(())
}

#[test]
fn a_weak_table_finds_what_was_made(rt: HostRuntime) -> Result<(), Fail> {
    let Ok((cht, mut seat)) = Cht::make(rt.alloc(), Kind::Weak, SMALL, 6) else {
        panic!(rt; "there is memory for a small table")
    };
    let made = first_in(0);
    assert!(rt; cht.try_find(&mut seat, b"text") == TryFind::Miss);
    assert!(rt; cht.try_intern_weak(&mut seat, b"text") == TryInternWeak::Created(made));
    assert!(rt; cht.try_intern_weak(&mut seat, b"text") == TryInternWeak::Found(made));
    assert!(rt; cht.try_find(&mut seat, b"text") == TryFind::Hit(made));
    assert!(rt; cht.try_find(&mut seat, b"test") == TryFind::Miss);
    assert!(rt; cht.try_intern_weak(&mut seat, b"123456789") == TryInternWeak::TooLong);
    assert!(rt; cht.try_find(&mut seat, b"123456789") == TryFind::Miss);
    cht.close(seat);
    Ok(())
}

/// Interns a text, and tries some times again where another seat is faster.
fn intern(cht: &Cht, mut seat: Seat, text: &[u8]) -> (Seat, Option<Handle>)
    requires of { IsOf cht.now seat }
    requires counted { cht.now.origin.table.kind ≡ Counted }
    ensures of { IsOf cht.now result.0 }
    ensures keeps { Keeps seat result.0 }
    ensures works { KeepsWork seat result.0 }
{
    for _ in 0..16 {
        match cht.try_intern(&mut seat, text) {
            TryIntern::Created(handle) | TryIntern::Taken(handle) => return (seat, Some(handle)),
            TryIntern::Again | TryIntern::Locked => {}
            TryIntern::TooLong | TryIntern::NoSlot => return (seat, None),
        }
    }
    (seat, None)
}

#[test]
fn two_seats_share_a_text(rt: HostRuntime) -> Result<(), Fail> {
    let Ok((cht, mut seat)) = Cht::make(rt.alloc(), Kind::Counted, SMALL, 6) else {
        panic!(rt; "there is memory for a small table")
    };
    let Ok(other) = cht.split(&mut seat) else {
        panic!(rt; "a number is left")
    };
    assert!(rt; other.number() == 1);
    let ((mut seat, mine), (other, theirs)) = std::thread::join(
        &rt,
        || intern(&cht, seat, b"a"),
        || intern(&cht, other, b"a"),
    );
    assert!(rt; mine.is_some() && mine == theirs);
    cht.join(&mut seat, other);
    assert!(rt; seat.number() == 0);
    cht.close(seat);
    Ok(())
}
