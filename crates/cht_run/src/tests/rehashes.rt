//! What making a table anew comes to.
use super::*;
use crate::intern::TryIntern;
use crate::rehash::Rehashed;

#[test]
fn an_empty_table_is_made_anew(rt: HostRuntime) -> Result<(), Fail> {
    let Ok((cht, seat)) = Cht::make(rt.alloc(), Kind::Counted, SMALL, 6) else {
        panic!(rt; "there is memory for a small table")
    };
    let Rehashed::Done(cht, mut seat) = cht.rehash(rt.alloc(), seat) else {
        panic!(rt; "there is memory for a small table")
    };
    assert!(rt; cht.seed() == 1 && seat.number() == 0);
    assert!(rt; matches!(cht.try_intern(&mut seat, b"a"), TryIntern::Created(_)));
    Ok(())
}
