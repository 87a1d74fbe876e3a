//! What calls by a handle come to.
use super::*;
use crate::change::{TryDrop, TryKill, TryPermanent};
use crate::intern::{TryIntern, TryInternWeak};
use crate::lookup::{TryFind, TryLookup};

#[test]
fn holds_are_let_go_of(rt: HostRuntime) -> Result<(), Fail> {
    let Ok((cht, mut seat)) = Cht::make(rt.alloc(), Kind::Counted, SMALL, 6) else {
        panic!(rt; "there is memory for a small table")
    };
    let TryIntern::Created(handle) = cht.try_intern(&mut seat, b"a") else {
        panic!(rt; "a slot is free")
    };
    assert!(rt; cht.try_drop(&mut seat, handle) == TryDrop::Dropped { left: 0 });
    assert!(rt; cht.try_lookup(&mut seat, b"a") == TryLookup::Miss);
    let TryIntern::Created(other) = cht.try_intern(&mut seat, b"a") else {
        panic!(rt; "a slot is free")
    };
    assert!(rt; handle.slot != other.slot);
    let TryIntern::Taken(again) = cht.try_intern(&mut seat, b"a") else {
        panic!(rt; "the text has an entry")
    };
    assert!(rt; cht.try_drop(&mut seat, again) == TryDrop::Dropped { left: 1 });
    cht.close(seat);
    Ok(())
}

#[test]
fn a_permanent_hold_stays(rt: HostRuntime) -> Result<(), Fail> {
    let Ok((cht, mut seat)) = Cht::make(rt.alloc(), Kind::Counted, SMALL, 6) else {
        panic!(rt; "there is memory for a small table")
    };
    let TryIntern::Created(handle) = cht.try_intern(&mut seat, b"a") else {
        panic!(rt; "a slot is free")
    };
    assert!(rt; cht.try_permanent(&mut seat, handle) == TryPermanent::Done);
    let TryIntern::Taken(again) = cht.try_intern(&mut seat, b"a") else {
        panic!(rt; "the text has an entry")
    };
    assert!(rt; cht.try_drop(&mut seat, again) == TryDrop::Permanent);
    cht.close(seat);
    Ok(())
}

#[test]
fn an_entry_is_killed(rt: HostRuntime) -> Result<(), Fail> {
    let Ok((cht, mut seat)) = Cht::make(rt.alloc(), Kind::Weak, SMALL, 6) else {
        panic!(rt; "there is memory for a small table")
    };
    let TryInternWeak::Created(handle) = cht.try_intern_weak(&mut seat, b"text") else {
        panic!(rt; "a slot is free")
    };
    assert!(rt; cht.try_find(&mut seat, b"text") == TryFind::Hit(handle));
    let TryInternWeak::Created(other) = cht.try_intern_weak(&mut seat, b"words") else {
        panic!(rt; "a slot is free")
    };
    assert!(rt; cht.try_kill(&mut seat, other) == TryKill::Killed);
    assert!(rt; cht.try_find(&mut seat, b"words") == TryFind::Miss);
    assert!(rt; cht.try_find(&mut seat, b"text") == TryFind::Hit(handle));
    cht.close(seat);
    Ok(())
}
