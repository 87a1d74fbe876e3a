//! Whole scripts, and what they print.
use super::*;

/// The script of the test of this name.
fn script_of_a_lost_insertion(alloc: Global) -> Result<Script, AllocError> {
    counted(alloc)
        .intern(alloc, 1, b"a")?
        .until(1, StepKind::K7)?
        .intern(alloc, 2, b"a")?
        .run(2)?
        .run(1)?
        .intern(alloc, 1, b"a")?
        .run(1)
}

#[test]
fn a_lost_insertion(rt: HostRuntime) {
    let want = b"log 2 create a 4.0\n\
            2 created 4.0\n\
            log 1 free 2\n\
            1 again\n\
            log 1 take a 4.0\n\
            1 taken 4.0\n";
    let Ok(text) = printed(rt.alloc(), script_of_a_lost_insertion(rt.alloc())) else {
        panic!(rt; "the script runs")
    };
    assert_eq!(rt; text.as_slice(), want.as_slice());
}

/// The script of the test of this name.
fn script_of_no_revival_and_a_miss(alloc: Global) -> Result<Script, AllocError> {
    counted(alloc)
        .intern(alloc, 0, b"a")?
        .run(0)?
        .lookup(alloc, 1, b"a")?
        .until(1, StepKind::K6)?
        .call(
            0,
            Asked::Drop {
                slot: 0,
                generation: 0,
            },
        )?
        .run(0)?
        .intern(alloc, 0, b"a")?
        .run(0)?
        .run(1)
}

#[test]
fn no_revival_and_a_miss(rt: HostRuntime) {
    let want = b"log 0 create a 0.0\n\
            0 created 0.0\n\
            log 0 drop 0.0\n\
            0 dropped 0\n\
            log 0 create a 1.0\n\
            0 created 1.0\n\
            1 miss\n";
    let Ok(text) = printed(rt.alloc(), script_of_no_revival_and_a_miss(rt.alloc())) else {
        panic!(rt; "the script runs")
    };
    assert_eq!(rt; text.as_slice(), want.as_slice());
}

/// The script of the test of this name.
fn script_of_a_section_open_at_the_unlinking(alloc: Global) -> Result<Script, AllocError> {
    counted(alloc)
        .intern(alloc, 0, b"a")?
        .run(0)?
        .call(
            0,
            Asked::Drop {
                slot: 0,
                generation: 0,
            },
        )?
        .run(0)?
        .lookup(alloc, 1, b"a")?
        .until(1, StepKind::K11)?
        .call(0, Asked::Clean)?
        .run(0)?
        .call(0, Asked::Poll)?
        .run(0)?
        .run(1)?
        .call(0, Asked::Poll)?
        .run(0)
}

#[test]
fn a_section_open_at_the_unlinking(rt: HostRuntime) {
    let want = b"log 0 create a 0.0\n\
            0 created 0.0\n\
            log 0 drop 0.0\n\
            0 dropped 0\n\
            0 begun\n\
            log 0 unlink 0\n\
            0 pending seat 1\n\
            1 miss\n\
            log 0 free 0\n\
            0 done unlinked 1 graces 1 level 3\n";
    let Ok(text) = printed(
        rt.alloc(),
        script_of_a_section_open_at_the_unlinking(rt.alloc()),
    ) else {
        panic!(rt; "the script runs")
    };
    assert_eq!(rt; text.as_slice(), want.as_slice());
}

/// The script of the test of this name.
fn script_of_growing(alloc: Global) -> Result<Script, AllocError> {
    counted(alloc)
        .intern(alloc, 0, b"y")?
        .run(0)?
        .intern(alloc, 0, b"q")?
        .run(0)?
        .intern(alloc, 0, b"i")?
        .run(0)?
        .intern(alloc, 0, b"a")?
        .run(0)?
        .chain(3, 1)?
        .call(0, Asked::Grow)?
        .run(0)?
        .call(0, Asked::Poll)?
        .run(0)?
        .chain(4, 1)?
        .chain(4, 9)
}

#[test]
fn growing(rt: HostRuntime) {
    let want = b"log 0 create y 0.0\n\
            0 created 0.0\n\
            log 0 create q 1.0\n\
            0 created 1.0\n\
            log 0 create i 2.0\n\
            0 created 2.0\n\
            log 0 create a 3.0\n\
            0 created 3.0\n\
            chain 3 1: a i q y\n\
            0 begun\n\
            log 0 level 4\n\
            0 done unlinked 0 graces 5 level 4\n\
            chain 4 1: a q\n\
            chain 4 9: i y\n";
    let Ok(text) = printed(rt.alloc(), script_of_growing(rt.alloc())) else {
        panic!(rt; "the script runs")
    };
    assert_eq!(rt; text.as_slice(), want.as_slice());
}

/// The script of the test of this name.
fn script_of_a_walker_before_the_second_move(alloc: Global) -> Result<Script, AllocError> {
    counted(alloc)
        .intern(alloc, 0, b"y")?
        .run(0)?
        .intern(alloc, 0, b"q")?
        .run(0)?
        .intern(alloc, 0, b"i")?
        .run(0)?
        .intern(alloc, 0, b"a")?
        .run(0)?
        .chain(3, 1)?
        .lookup(alloc, 1, b"q")?
        .until(1, StepKind::K6)?
        .call(0, Asked::Grow)?
        .run(0)?
        .call(0, Asked::Poll)?
        .run(0)?
        .run(1)?
        .call(0, Asked::Poll)?
        .run(0)
}

#[test]
fn a_walker_before_the_second_move(rt: HostRuntime) {
    let want = b"log 0 create y 0.0\n\
            0 created 0.0\n\
            log 0 create q 1.0\n\
            0 created 1.0\n\
            log 0 create i 2.0\n\
            0 created 2.0\n\
            log 0 create a 3.0\n\
            0 created 3.0\n\
            chain 3 1: a i q y\n\
            0 begun\n\
            0 pending seat 1\n\
            log 1 take q 1.0\n\
            1 hit 1.0\n\
            log 0 level 4\n\
            0 done unlinked 0 graces 5 level 4\n";
    let Ok(text) = printed(
        rt.alloc(),
        script_of_a_walker_before_the_second_move(rt.alloc()),
    ) else {
        panic!(rt; "the script runs")
    };
    assert_eq!(rt; text.as_slice(), want.as_slice());
}

/// The script of the test of this name.
fn script_of_shrinking(alloc: Global) -> Result<Script, AllocError> {
    counted(alloc)
        .intern(alloc, 0, b"y")?
        .run(0)?
        .intern(alloc, 0, b"q")?
        .run(0)?
        .intern(alloc, 0, b"i")?
        .run(0)?
        .intern(alloc, 0, b"a")?
        .run(0)?
        .chain(3, 1)?
        .call(0, Asked::Grow)?
        .run(0)?
        .call(0, Asked::Poll)?
        .run(0)?
        .chain(4, 1)?
        .chain(4, 9)?
        .call(0, Asked::Shrink)?
        .run(0)?
        .lookup(alloc, 1, b"a")?
        .until(1, StepKind::K6)?
        .call(0, Asked::Poll)?
        .run(0)?
        .intern(alloc, 2, b"P")?
        .run(2)?
        .run(1)?
        .call(0, Asked::Poll)?
        .run(0)?
        .intern(alloc, 2, b"P")?
        .run(2)?
        .chain(3, 1)
}

#[test]
fn shrinking(rt: HostRuntime) {
    let want = b"log 0 create y 0.0\n\
            0 created 0.0\n\
            log 0 create q 1.0\n\
            0 created 1.0\n\
            log 0 create i 2.0\n\
            0 created 2.0\n\
            log 0 create a 3.0\n\
            0 created 3.0\n\
            chain 3 1: a i q y\n\
            0 begun\n\
            log 0 level 4\n\
            0 done unlinked 0 graces 5 level 4\n\
            chain 4 1: a q\n\
            chain 4 9: i y\n\
            0 begun\n\
            0 pending seat 1\n\
            2 locked\n\
            log 1 take a 3.0\n\
            1 hit 3.0\n\
            log 0 level 3\n\
            0 done unlinked 0 graces 9 level 3\n\
            log 2 create P 4.0\n\
            2 created 4.0\n\
            chain 3 1: a q i y\n";
    let Ok(text) = printed(rt.alloc(), script_of_shrinking(rt.alloc())) else {
        panic!(rt; "the script runs")
    };
    assert_eq!(rt; text.as_slice(), want.as_slice());
}

/// The script of the test of this name.
fn script_of_a_stale_listing(alloc: Global) -> Result<Script, AllocError> {
    Script {
        kind: Kind::Weak,
        shape: Shape {
            slots: 2,
            text_words: 1,
            min_level: 3,
            max_level: 3,
            seats: 2,
        },
        first_counter: 0,
        lines: Vec::new(alloc),
    }
    .intern(alloc, 0, b"a")?
    .run(0)?
    .call(
        0,
        Asked::Kill {
            slot: 0,
            generation: 0,
        },
    )?
    .run(0)?
    .call(
        0,
        Asked::Kill {
            slot: 0,
            generation: 0,
        },
    )?
    .run(0)
}

#[test]
fn a_stale_listing(rt: HostRuntime) {
    let want = b"log 0 create a 0.0\n\
            0 created 0.0\n\
            log 0 kill 0.0\n\
            0 killed\n\
            0 stale\n";
    let Ok(text) = printed(rt.alloc(), script_of_a_stale_listing(rt.alloc())) else {
        panic!(rt; "the script runs")
    };
    assert_eq!(rt; text.as_slice(), want.as_slice());
}

/// The script of the test of this name.
fn script_of_a_spent_counter(alloc: Global) -> Result<Script, AllocError> {
    Script {
        kind: Kind::Counted,
        shape: Shape {
            slots: 8,
            text_words: 1,
            min_level: 3,
            max_level: 4,
            seats: 4,
        },
        first_counter: 281474976710656,
        lines: Vec::new(alloc),
    }
    .call(0, Asked::Clean)?
    .run(0)
}

#[test]
fn a_spent_counter(rt: HostRuntime) {
    let want = b"0 spent 281474976710656\n";
    let Ok(text) = printed(rt.alloc(), script_of_a_spent_counter(rt.alloc())) else {
        panic!(rt; "the script runs")
    };
    assert_eq!(rt; text.as_slice(), want.as_slice());
}

/// The script of the test of this name.
fn script_of_too_long_and_no_slot(alloc: Global) -> Result<Script, AllocError> {
    Script {
        kind: Kind::Counted,
        shape: Shape {
            slots: 1,
            text_words: 1,
            min_level: 3,
            max_level: 3,
            seats: 1,
        },
        first_counter: 0,
        lines: Vec::new(alloc),
    }
    .intern(alloc, 0, b"abcdefghi")?
    .intern(alloc, 0, b"a")?
    .run(0)?
    .intern(alloc, 0, b"b")?
    .run(0)
}

#[test]
fn too_long_and_no_slot(rt: HostRuntime) {
    let want = b"0 too long\n\
            log 0 create a 0.0\n\
            0 created 0.0\n\
            0 no slot\n";
    let Ok(text) = printed(rt.alloc(), script_of_too_long_and_no_slot(rt.alloc())) else {
        panic!(rt; "the script runs")
    };
    assert_eq!(rt; text.as_slice(), want.as_slice());
}

/// The script of the test of this name.
fn script_of_at_maximum(alloc: Global) -> Result<Script, AllocError> {
    counted(alloc)
        .call(0, Asked::Grow)?
        .run(0)?
        .call(0, Asked::Poll)?
        .run(0)?
        .call(0, Asked::Grow)?
        .run(0)
}

#[test]
fn at_maximum(rt: HostRuntime) {
    let want = b"0 begun\n\
            log 0 level 4\n\
            0 done unlinked 0 graces 1 level 4\n\
            0 at maximum 4\n";
    let Ok(text) = printed(rt.alloc(), script_of_at_maximum(rt.alloc())) else {
        panic!(rt; "the script runs")
    };
    assert_eq!(rt; text.as_slice(), want.as_slice());
}

/// The script of the test of this name.
fn script_of_a_rehash(alloc: Global) -> Result<Script, AllocError> {
    counted(alloc)
        .intern(alloc, 0, b"Aa")?
        .run(0)?
        .intern(alloc, 0, b"BB")?
        .run(0)?
        .chain(3, 0)?
        .with(Line::Rehash)?
        .chain(3, 0)?
        .chain(3, 4)?
        .chain(3, 5)?
        .lookup(alloc, 1, b"Aa")?
        .run(1)
}

#[test]
fn a_rehash(rt: HostRuntime) {
    let want = b"log 0 create Aa 0.0\n\
            0 created 0.0\n\
            log 0 create BB 1.0\n\
            0 created 1.0\n\
            chain 3 0: BB Aa\n\
            log 0 rehash 1\n\
            chain 3 0:\n\
            chain 3 4: BB\n\
            chain 3 5: Aa\n\
            log 1 take Aa 0.0\n\
            1 hit 0.0\n";
    let Ok(text) = printed(rt.alloc(), script_of_a_rehash(rt.alloc())) else {
        panic!(rt; "the script runs")
    };
    assert_eq!(rt; text.as_slice(), want.as_slice());
}
