//! What a seat does that is alone.
use super::*;
use crate::change::{TryDrop, TryPermanent};
use crate::intern::TryIntern;
use crate::statistics::Statistics;

/// The numbers of such a table with no text.
static NONE: Statistics = Statistics {
    level: 3,
    buckets: 8,
    live: 0,
    permanent: 0,
    references: 0,
    longest: 0,
};

#[test]
fn statistics_count_what_is_live(rt: HostRuntime) -> Result<(), Fail> {
    let Ok((cht, mut seat)) = Cht::make(rt.alloc(), Kind::Counted, WIDE, 6) else {
        panic!(rt; "there is memory for a small table")
    };
    assert!(rt; cht.statistics(&mut seat) == NONE);
    cht.try_intern(&mut seat, b"y");
    cht.try_intern(&mut seat, b"q");
    cht.try_intern(&mut seat, b"i");
    let TryIntern::Created(handle) = cht.try_intern(&mut seat, b"a") else {
        panic!(rt; "a slot is free")
    };
    let four = Statistics {
        live: 4,
        references: 4,
        longest: 4,
        ..NONE
    };
    assert!(rt; cht.statistics(&mut seat) == four);
    assert!(rt; cht.try_drop(&mut seat, handle) == TryDrop::Dropped { left: 0 });
    let three = Statistics {
        live: 3,
        references: 3,
        longest: 3,
        ..NONE
    };
    assert!(rt; cht.statistics(&mut seat) == three);
    cht.close(seat);
    Ok(())
}

#[test]
fn statistics_part_permanent_texts(rt: HostRuntime) -> Result<(), Fail> {
    let Ok((cht, mut seat)) = Cht::make(rt.alloc(), Kind::Counted, WIDE, 6) else {
        panic!(rt; "there is memory for a small table")
    };
    cht.try_intern(&mut seat, b"b");
    cht.try_intern(&mut seat, b"b");
    let TryIntern::Created(handle) = cht.try_intern(&mut seat, b"a") else {
        panic!(rt; "a slot is free")
    };
    assert!(rt; cht.try_permanent(&mut seat, handle) == TryPermanent::Done);
    let two = Statistics {
        live: 2,
        permanent: 1,
        references: 2,
        longest: 1,
        ..NONE
    };
    assert!(rt; cht.statistics(&mut seat) == two);
    cht.close(seat);
    Ok(())
}

#[test]
fn an_intern_passes_the_nodes_of_its_bucket(rt: HostRuntime) -> Result<(), Fail> {
    let Ok((cht, mut seat)) = Cht::make(rt.alloc(), Kind::Counted, WIDE, 0) else {
        panic!(rt; "there is memory for a small table")
    };
    assert!(rt;
        cht.try_intern(&mut seat, b"y") == TryIntern::Created(first_in(0)) && seat.passed() == 0
    );
    assert!(rt;
        cht.try_intern(&mut seat, b"q") == TryIntern::Created(first_in(1)) && seat.passed() == 1
    );
    assert!(rt;
        cht.try_intern(&mut seat, b"i") == TryIntern::Created(first_in(2)) && seat.passed() == 2
    );
    assert!(rt;
        cht.try_intern(&mut seat, b"a") == TryIntern::Created(first_in(3)) && seat.passed() == 3
    );
    cht.close(seat);
    Ok(())
}
