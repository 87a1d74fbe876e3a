//! What the calls come to that wait.
ghost use Rattle.std.specs.Prelude.{◌≡◌};
ghost use Rattle.intern_log.specs.declared.event.Kind.TheVariants.{Counted};
ghost use Rattle.cht_run.specs.Ends.{HasNothing};
ghost use Rattle.cht_run.specs.Seats.{numbers, kids, IsOf};

use super::*;
use crate::intern_wait::{Interned, InternedWeak};
use crate::retry::{Lookup, Released};
use std::sync::Wait;

#[test]
fn a_seat_interns_and_lets_go(rt: HostRuntime) -> Result<(), Fail> {
    let Ok((cht, mut seat)) = Cht::make(rt.alloc(), Kind::Counted, SMALL, 6) else {
        panic!(rt; "there is memory for a small table")
    };
    assert!(rt; cht.lookup(&rt, &mut seat, b"a") == Lookup::Miss);
    let Interned::Created(a) = cht.intern(&rt, &mut seat, b"a") else {
        panic!(rt; "a slot is free")
    };
    assert!(rt; a == first_in(0));
    assert!(rt; cht.intern(&rt, &mut seat, b"a") == Interned::Taken(a));
    assert!(rt; cht.lookup(&rt, &mut seat, b"a") == Lookup::Hit(a));
    assert!(rt; cht.intern(&rt, &mut seat, b"123456789") == Interned::TooLong);
    assert!(rt; cht.lookup(&rt, &mut seat, b"123456789") == Lookup::Miss);
    assert!(rt; cht.intern(&rt, &mut seat, b"c") == Interned::Created(first_in(1)));
    assert!(rt; cht.intern(&rt, &mut seat, b"d") == Interned::Created(first_in(2)));
    assert!(rt; cht.intern(&rt, &mut seat, b"e") == Interned::Created(first_in(3)));
    assert!(rt; cht.intern(&rt, &mut seat, b"f") == Interned::NoSlot);
    assert!(rt; cht.lookup(&rt, &mut seat, b"f") == Lookup::Miss);
    cht.close(seat);
    Ok(())
}

#[test]
fn a_hold_is_dropped_or_stays(rt: HostRuntime) -> Result<(), Fail> {
    let Ok((cht, mut seat)) = Cht::make(rt.alloc(), Kind::Counted, SMALL, 6) else {
        panic!(rt; "there is memory for a small table")
    };
    let Interned::Created(first) = cht.intern(&rt, &mut seat, b"a") else {
        panic!(rt; "a slot is free")
    };
    assert!(rt; cht.drop_ref(&rt, &mut seat, first) == Released::Dropped { left: 0 });
    let Interned::Created(second) = cht.intern(&rt, &mut seat, b"a") else {
        panic!(rt; "a slot is free")
    };
    assert!(rt; second != first);
    cht.make_permanent(&rt, &mut seat, second);
    let Interned::Taken(third) = cht.intern(&rt, &mut seat, b"a") else {
        panic!(rt; "the text has an entry")
    };
    assert!(rt; third == second);
    assert!(rt; cht.drop_ref(&rt, &mut seat, third) == Released::Permanent);
    cht.close(seat);
    Ok(())
}

#[test]
fn a_hit_is_let_go_of(rt: HostRuntime) -> Result<(), Fail> {
    let Ok((cht, mut seat)) = Cht::make(rt.alloc(), Kind::Counted, SMALL, 6) else {
        panic!(rt; "there is memory for a small table")
    };
    let Interned::Created(made) = cht.intern(&rt, &mut seat, b"a") else {
        panic!(rt; "a slot is free")
    };
    let Lookup::Hit(met) = cht.lookup(&rt, &mut seat, b"a") else {
        panic!(rt; "the text has an entry")
    };
    assert!(rt; met == made);
    assert!(rt; cht.drop_ref(&rt, &mut seat, met) == Released::Dropped { left: 1 });
    cht.close(seat);
    Ok(())
}

#[test]
fn a_weak_table_interns(rt: HostRuntime) -> Result<(), Fail> {
    let Ok((cht, mut seat)) = Cht::make(rt.alloc(), Kind::Weak, SMALL, 6) else {
        panic!(rt; "there is memory for a small table")
    };
    let made = first_in(0);
    assert!(rt; cht.intern_weak(&rt, &mut seat, b"text") == InternedWeak::Created(made));
    assert!(rt; cht.intern_weak(&rt, &mut seat, b"text") == InternedWeak::Found(made));
    assert!(rt; cht.intern_weak(&rt, &mut seat, b"123456789") == InternedWeak::TooLong);
    assert!(rt; cht.intern_weak(&rt, &mut seat, b"b") == InternedWeak::Created(first_in(1)));
    assert!(rt; cht.intern_weak(&rt, &mut seat, b"c") == InternedWeak::Created(first_in(2)));
    assert!(rt; cht.intern_weak(&rt, &mut seat, b"d") == InternedWeak::Created(first_in(3)));
    assert!(rt; cht.intern_weak(&rt, &mut seat, b"e") == InternedWeak::NoSlot);
    cht.close(seat);
    Ok(())
}

/// Interns a text and lets go of it.
fn comes_and_goes<R: Wait>(rt: &R, cht: &Cht, seat: &mut Seat, text: &[u8]) -> bool
    requires of { IsOf cht.now seat.old }
    requires counted { cht.now.origin.table.kind ≡ Counted }
    requires nothing { HasNothing seat.old }
    ensures of { IsOf cht.now seat.new }
    ensures nothing { HasNothing seat.new }
    ensures number { seat.new.number ≡ seat.old.number }
    ensures numbers { numbers seat.new ≡ numbers seat.old }
    ensures kids { kids seat.new ≡ kids seat.old }
{
    match cht.intern(rt, seat, text) {
        Interned::Created(handle) => {
            cht.drop_ref(rt, seat, handle);
            true
        }
        Interned::Taken(handle) => {
            cht.drop_ref(rt, seat, handle);
            true
        }
        Interned::TooLong | Interned::NoSlot => false,
    }
}

/// Two texts come and go some times, each as often as slots are free.
fn come_and_go<R: Wait>(rt: &R, cht: &Cht, mut seat: Seat) -> (Seat, u32)
    requires of { IsOf cht.now seat }
    requires counted { cht.now.origin.table.kind ≡ Counted }
    requires nothing { HasNothing seat }
    ensures of { IsOf cht.now result.0 }
    ensures nothing { HasNothing result.0 }
    ensures number { result.0.number ≡ seat.number }
    ensures numbers { numbers result.0 ≡ numbers seat }
    ensures kids { kids result.0 ≡ kids seat }
{
    for times in 0..50 {
        if !comes_and_goes(rt, cht, &mut seat, b"a") || !comes_and_goes(rt, cht, &mut seat, b"b") {
            return (seat, times);
        }
    }
    (seat, 50)
}

#[test]
fn two_seats_share_texts_that_come_and_go(rt: HostRuntime) -> Result<(), Fail> {
    let Ok((cht, mut seat)) = Cht::make(rt.alloc(), Kind::Counted, SMALL, 6) else {
        panic!(rt; "there is memory for a small table")
    };
    let Ok(other) = cht.split(&mut seat) else {
        panic!(rt; "a number is left")
    };
    let ((mut seat, mine), (other, theirs)) = std::thread::join(
        &rt,
        || come_and_go(&rt, &cht, seat),
        || come_and_go(&rt, &cht, other),
    );
    assert!(rt; mine > 0 || theirs > 0);
    cht.join(&mut seat, other);
    assert!(rt; seat.number() == 0);
    cht.close(seat);
    Ok(())
}

/// Cleans a table some times.
fn clean_often<R: Wait>(rt: &R, cht: &Cht, mut seat: Seat) -> Seat
    requires of { IsOf cht.now seat }
    requires nothing { HasNothing seat }
    ensures of { IsOf cht.now result }
    ensures nothing { HasNothing result }
    ensures number { result.number ≡ seat.number }
    ensures numbers { numbers result ≡ numbers seat }
    ensures kids { kids result ≡ kids seat }
{
    for _ in 0..20 {
        match cht.clean(rt, &mut seat) {
            Cleaned::Done(_) => {}
            Cleaned::Spent { .. } => return seat,
        }
    }
    seat
}

#[test]
fn texts_come_and_go_while_another_cleans(rt: HostRuntime) -> Result<(), Fail> {
    let Ok((cht, mut seat)) = Cht::make(rt.alloc(), Kind::Counted, SMALL, 6) else {
        panic!(rt; "there is memory for a small table")
    };
    let Ok(other) = cht.split(&mut seat) else {
        panic!(rt; "a number is left")
    };
    let ((mut seat, times), other) = std::thread::join(
        &rt,
        || come_and_go(&rt, &cht, seat),
        || clean_often(&rt, &cht, other),
    );
    assert!(rt; times > 0);
    cht.join(&mut seat, other);
    cht.close(seat);
    Ok(())
}
