//! Seats that are split off and taken back.
use super::*;
use crate::draw::SeatsSpent;

#[test]
fn seats_are_split_until_none_is_left(rt: HostRuntime) -> Result<(), Fail> {
    let Ok((cht, mut seat)) = Cht::make(rt.alloc(), Kind::Counted, SMALL, 6) else {
        panic!(rt; "there is memory for a small table")
    };
    let Ok(mut first) = cht.split(&mut seat) else {
        panic!(rt; "there are three seats")
    };
    let Ok(second) = cht.split(&mut first) else {
        panic!(rt; "there are three seats")
    };
    assert!(rt; first.number() == 1 && second.number() == 2 && second.passed() == 0);
    assert!(rt; cht.split(&mut seat).is_err_and(|fault| fault == SeatsSpent));
    assert!(rt; cht.split(&mut first).is_err());
    cht.join(&mut first, second);
    cht.join(&mut seat, first);
    assert!(rt; cht.split(&mut seat).is_err());
    assert!(rt; seat.number() == 0);
    Ok(())
}

#[test]
fn one_seat_splits_until_none_is_left(rt: HostRuntime) -> Result<(), Fail> {
    let Ok((cht, mut seat)) = Cht::make(rt.alloc(), Kind::Counted, WIDE, 0) else {
        panic!(rt; "there is memory for a small table")
    };
    for number in 1..4 {
        let Ok(other) = cht.split(&mut seat) else {
            panic!(rt; "there are four seats")
        };
        assert!(rt; other.number() == number);
    }
    assert!(rt; cht.split(&mut seat).is_err_and(|fault| fault == SeatsSpent));
    Ok(())
}
