//! What graces come to where no other seat is.
ghost use Rattle.std.specs.Prelude.{◌≡◌, [], IsSome};
ghost use Rattle.cht_run.specs.Ended.{Keeps};
ghost use Rattle.cht_run.specs.Ends.{HasNothing, IsAlone, log_in};
ghost use Rattle.cht_run.specs.Graces.{IsGraceOf};
ghost use Rattle.cht_run.specs.Seats.{history, IsOf};

use super::*;
use crate::front::Front;
use crate::graces::{BeganGrace, Grace, PolledGrace};
use std::sync::Wait;

/// Polls a grace until it is over.
fn end_grace<R: Wait>(rt: &R, cht: &Cht, seat: &mut Seat, grace: Grace)
    requires of { IsOf cht.now seat.old }
    requires grace { IsGraceOf cht.now.origin.table grace seat.old }
    ensures of { IsOf cht.now seat.new }
    ensures keeps { Keeps seat.old seat.new }
{
    let mut grace = grace;
    for _ in rt.forever() {
        grace = match cht.poll_grace(seat, grace) {
            PolledGrace::Ready => return,
            PolledGrace::Pending {
                grace,
                seat: _number,
            } => grace,
        };
    }
    unreachable!()
}

/// Polls a grace: whether it is over by that. Where it is not, this waits until it is.
fn is_over_at_once<R: Wait>(rt: &R, cht: &Cht, seat: &mut Seat, grace: Grace) -> bool
    requires of { IsOf cht.now seat.old }
    requires grace { IsGraceOf cht.now.origin.table grace seat.old }
    ensures of { IsOf cht.now seat.new }
{
    match cht.poll_grace(seat, grace) {
        PolledGrace::Ready => true,
        PolledGrace::Pending {
            grace,
            seat: _number,
        } => {
            end_grace(rt, cht, seat, grace);
            false
        }
    }
}

#[test]
fn a_grace_is_polled(rt: HostRuntime) -> Result<(), Fail> {
    let Ok((cht, mut seat)) = Cht::make(rt.alloc(), Kind::Counted, WIDE, 0) else {
        panic!(rt; "there is memory for a small table")
    };
    match cht.begin_grace(&mut seat) {
        BeganGrace::Begun(grace) => {
            assert!(rt; is_over_at_once(&rt, &cht, &mut seat, grace));
        }
        BeganGrace::Spent { .. } => panic!(rt; "the counter is small"),
    }
    assert!(rt; cht.level(&mut seat) == 3);
    Ok(())
}

/// Begins a grace and closes the table: the counter where no grace begins any more, and what is left of the table. Its
/// log is then empty.
fn begin_and_close<R: Wait>(rt: &R, cht: Cht, mut seat: Seat) -> (Option<u64>, Front)
    requires of { IsOf cht seat }
    requires nothing { HasNothing seat }
    requires alone { IsAlone seat }
    requires new { history seat ≡ [] }
    ensures empty { IsSome result.0 → log_in result.1 ≡ [] }
{
    match cht.begin_grace(&mut seat) {
        BeganGrace::Spent { counter } => (Some(counter), cht.close(seat)),
        BeganGrace::Begun(grace) => {
            end_grace(rt, &cht, &mut seat, grace);
            (None, cht.close(seat))
        }
    }
}

#[test]
fn no_grace_begins_at_a_great_counter(rt: HostRuntime) -> Result<(), Fail> {
    let counter = 281_474_976_710_656;
    let Ok((cht, seat)) = Cht::make(rt.alloc(), Kind::Counted, WIDE, counter) else {
        panic!(rt; "there is memory for a small table")
    };
    let (spent, _front) = begin_and_close(&rt, cht, seat);
    assert!(rt; spent == Some(counter));
    Ok(())
}
