//! How seats come to a table, and how they go.
use super::*;

#[test]
fn a_table_is_made_and_closed(rt: HostRuntime) -> Result<(), Fail> {
    let Ok((cht, mut seat)) = Cht::make(rt.alloc(), Kind::Counted, SMALL, 6) else {
        panic!(rt; "there is memory for a small table")
    };
    assert!(rt; cht.seed() == 0 && seat.number() == 0 && seat.passed() == 0);
    assert!(rt; cht.level(&mut seat) == 1);
    cht.close(seat);
    Ok(())
}

#[test]
fn faults_come_in_their_order(rt: HostRuntime) {
    let bare = Shape { slots: 0, ..SMALL };
    assert!(rt;
        matches!(
            Cht::make(rt.alloc(), Kind::Weak, bare, 7),
            Err(MakeFault::Shape(ShapeFault::NoSlots))
        )
    );
    assert!(rt;
        matches!(
            Cht::make(rt.alloc(), Kind::Weak, WIDE, 3),
            Err(MakeFault::BadCounter { counter: 3 })
        )
    );
    let late = (1 << 48) + 2;
    assert!(rt;
        matches!(
            Cht::make(rt.alloc(), Kind::Weak, SMALL, late),
            Err(MakeFault::BadCounter { .. })
        )
    );
    assert!(rt; Cht::make(rt.alloc(), Kind::Weak, SMALL, 1 << 48).is_ok());
}

#[test]
fn threads_share_a_table(rt: HostRuntime) -> Result<(), Fail> {
    let Ok((cht, mut seat)) = Cht::make(rt.alloc(), Kind::Counted, SMALL, 6) else {
        panic!(rt; "there is memory for a small table")
    };
    let (level, seed) = std::thread::join(&rt, || cht.level(&mut seat), || cht.seed());
    assert!(rt; level == 1 && seed == 0);
    Ok(())
}
