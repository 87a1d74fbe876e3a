//! What works and sweeps come to, and what is read of a handle.
ghost use Rattle.call_machine.specs.declared.work.Work.{Work as Working};
ghost use Rattle.cht_run.specs.Ends.{HasNothing};
ghost use Rattle.cht_run.specs.Seats.{IsOf};
ghost use Rattle.cht_run.specs.Works.{IsWorkOf};

use super::*;
use crate::intern::TryInternWeak;
use crate::intern_wait::Interned;
use crate::read::TextOf;
use crate::retry::{Lookup, Released};
use crate::sweeps::Swept;
use crate::waits::{Cleaned, Grown, Shrunk};
use crate::work::Work;
use crate::works::{BeganClean, BeganGrow, BeganShrink, Polled};
use call_machine::Worked;
use std::sync::Wait;

#[test]
fn a_table_grows(rt: HostRuntime) -> Result<(), Fail> {
    let Ok((cht, mut seat)) = Cht::make(rt.alloc(), Kind::Counted, SMALL, 6) else {
        panic!(rt; "there is memory for a small table")
    };
    let Interned::Created(a) = cht.intern(&rt, &mut seat, b"a") else {
        panic!(rt; "a slot is free")
    };
    let Grown::Done(grown) = cht.grow(&rt, &mut seat) else {
        panic!(rt; "the table is at its least level")
    };
    assert!(rt; grown.unlinked == 0 && grown.level == 2 && cht.level(&mut seat) == 2);
    assert!(rt; cht.grow(&rt, &mut seat) == Grown::AtMaximum { level: 2 });
    assert!(rt; cht.lookup(&rt, &mut seat, b"a") == Lookup::Hit(a));
    Ok(())
}

#[test]
fn a_table_shrinks(rt: HostRuntime) -> Result<(), Fail> {
    let Ok((cht, mut seat)) = Cht::make(rt.alloc(), Kind::Counted, SMALL, 6) else {
        panic!(rt; "there is memory for a small table")
    };
    assert!(rt; cht.shrink(&rt, &mut seat) == Shrunk::AtMinimum { level: 1 });
    cht.grow(&rt, &mut seat);
    let Shrunk::Done(shrunk) = cht.shrink(&rt, &mut seat) else {
        panic!(rt; "the table is at its greatest level")
    };
    assert!(rt; shrunk.graces == 3 && shrunk.level == 1 && cht.level(&mut seat) == 1);
    Ok(())
}

#[test]
fn a_bucket_is_swept(rt: HostRuntime) -> Result<(), Fail> {
    let Ok((cht, mut seat)) = Cht::make(rt.alloc(), Kind::Counted, SMALL, 6) else {
        panic!(rt; "there is memory for a small table")
    };
    let Interned::Created(a) = cht.intern(&rt, &mut seat, b"a") else {
        panic!(rt; "a slot is free")
    };
    assert!(rt; cht.drop_ref(&rt, &mut seat, a) == Released::Dropped { left: 0 });
    assert!(rt; cht.sweep(&rt, &mut seat, b"a") == Swept::Done { unlinked: 1 });
    assert!(rt; cht.sweep(&rt, &mut seat, b"a") == Swept::Done { unlinked: 0 });
    Ok(())
}

#[test]
fn a_table_is_cleaned(rt: HostRuntime) -> Result<(), Fail> {
    let Ok((cht, mut seat)) = Cht::make(rt.alloc(), Kind::Counted, SMALL, 6) else {
        panic!(rt; "there is memory for a small table")
    };
    let Interned::Created(a) = cht.intern(&rt, &mut seat, b"a") else {
        panic!(rt; "a slot is free")
    };
    assert!(rt; cht.drop_ref(&rt, &mut seat, a) == Released::Dropped { left: 0 });
    let Cleaned::Done(cleaned) = cht.clean(&rt, &mut seat) else {
        panic!(rt; "the counter is small")
    };
    assert!(rt; cleaned.unlinked == 1 && cleaned.graces == 1 && cleaned.level == 1);
    Ok(())
}

/// Polls a work once. Where it is not done then, it waits for its end.
fn poll_once<R: Wait>(rt: &R, cht: &Cht, seat: &mut Seat, work: Work) -> Option<Worked>
    requires of { IsOf cht.now seat.old }
    requires work { (state : Working) × IsWorkOf work state seat.old }
    ensures of { IsOf cht.now seat.new }
    ensures nothing { HasNothing seat.new }
{
    let work = match cht.poll_work(seat, work) {
        Polled::Done(worked) => return Some(worked),
        Polled::PendingSeat {
            work,
            seat: _number,
        } => work,
        Polled::PendingBucket {
            work,
            row: _row,
            bucket: _bucket,
        } => work,
    };
    cht.finish_work(rt, seat, work);
    None
}

#[test]
fn a_clean_is_polled(rt: HostRuntime) -> Result<(), Fail> {
    let Ok((cht, mut seat)) = Cht::make(rt.alloc(), Kind::Counted, SMALL, 6) else {
        panic!(rt; "there is memory for a small table")
    };
    match cht.try_begin_clean(&mut seat) {
        BeganClean::Begun(work) => {
            let polled = poll_once(&rt, &cht, &mut seat, work);
            let none = Worked {
                unlinked: 0,
                graces: 0,
                level: 1,
            };
            assert!(rt; polled == Some(none));
        }
        BeganClean::Busy | BeganClean::Spent { .. } => panic!(rt; "nobody has the resize lock"),
    }
    Ok(())
}

#[test]
fn a_grow_is_polled(rt: HostRuntime) -> Result<(), Fail> {
    let Ok((cht, mut seat)) = Cht::make(rt.alloc(), Kind::Counted, SMALL, 6) else {
        panic!(rt; "there is memory for a small table")
    };
    match cht.try_begin_grow(&mut seat) {
        BeganGrow::Begun(work) => {
            let polled = poll_once(&rt, &cht, &mut seat, work);
            assert!(rt; matches!(polled, Some(worked) if worked.level == 2));
        }
        BeganGrow::Busy | BeganGrow::Spent { .. } | BeganGrow::AtMaximum { .. } => {
            panic!(rt; "the table can grow")
        }
    }
    Ok(())
}

#[test]
fn a_shrink_is_polled(rt: HostRuntime) -> Result<(), Fail> {
    let Ok((cht, mut seat)) = Cht::make(rt.alloc(), Kind::Counted, SMALL, 6) else {
        panic!(rt; "there is memory for a small table")
    };
    cht.grow(&rt, &mut seat);
    match cht.try_begin_shrink(&mut seat) {
        BeganShrink::Begun(work) => {
            let polled = poll_once(&rt, &cht, &mut seat, work);
            assert!(rt; matches!(polled, Some(worked) if worked.level == 1));
        }
        BeganShrink::Busy | BeganShrink::Spent { .. } | BeganShrink::AtMinimum { .. } => {
            panic!(rt; "the table can shrink")
        }
    }
    Ok(())
}

#[test]
fn texts_are_read(rt: HostRuntime) -> Result<(), Fail> {
    let Ok((cht, mut seat)) = Cht::make(rt.alloc(), Kind::Counted, SMALL, 6) else {
        panic!(rt; "there is memory for a small table")
    };
    let Interned::Created(handle) = cht.intern(&rt, &mut seat, b"ab") else {
        panic!(rt; "a slot is free")
    };
    let mut out = [0u64; 1];
    assert!(rt; cht.text_of(&mut seat, handle, &mut out) == TextOf::Text { length: 2 });
    assert!(rt; out[0] == 0x6261);
    Ok(())
}

#[test]
fn weak_texts_are_read(rt: HostRuntime) -> Result<(), Fail> {
    let Ok((cht, mut seat)) = Cht::make(rt.alloc(), Kind::Weak, SMALL, 6) else {
        panic!(rt; "there is memory for a small table")
    };
    cht.try_intern_weak(&mut seat, b"ab");
    let TryInternWeak::Found(handle) = cht.try_intern_weak(&mut seat, b"ab") else {
        panic!(rt; "the text has an entry")
    };
    let mut out = [0u64; 1];
    assert!(rt; cht.text_of(&mut seat, handle, &mut out) == TextOf::Text { length: 2 });
    assert!(rt; out[0] == 0x6261);
    Ok(())
}

#[test]
fn nothing_begins_at_a_great_counter(rt: HostRuntime) -> Result<(), Fail> {
    let counter = 1 << 48;
    let Ok((cht, mut seat)) = Cht::make(rt.alloc(), Kind::Counted, SMALL, counter) else {
        panic!(rt; "there is memory for a small table")
    };
    assert!(rt; cht.clean(&rt, &mut seat) == Cleaned::Spent { counter });
    assert!(rt; cht.grow(&rt, &mut seat) == Grown::Spent { counter });
    assert!(rt; cht.sweep(&rt, &mut seat, b"a") == Swept::Spent { counter });
    Ok(())
}
