//! Lines that are at fault when their turn comes.
use super::*;

/// Whether a run is refused by the line of this number.
fn is_refused(alloc: Global, script: Result<Script, AllocError>, line: u64) -> bool {
    matches!(printed(alloc, script), Err(ScriptFault::Line { number }) if number == line)
}

/// One entry, held by seat 0.
fn held(alloc: Global) -> Result<Script, AllocError> {
    counted(alloc).intern(alloc, 0, b"a")?.run(0)
}

/// A work that has begun.
fn working(alloc: Global) -> Result<Script, AllocError> {
    counted(alloc).call(0, Asked::Clean)?.run(0)
}

#[test]
fn seats_that_the_table_does_not_have(rt: HostRuntime) -> Result<(), AllocError> {
    let alloc = rt.alloc();
    assert!(rt; is_refused(alloc, counted(alloc).intern(alloc, 4, b"a"), 2));
    assert!(rt; is_refused(alloc, counted(alloc).intern(alloc, 1 << 32, b"a"), 2));
    assert!(rt; is_refused(alloc, counted(alloc).run(4), 2));
    assert!(rt; printed(alloc, counted(alloc).intern(alloc, 3, b"a")).is_ok());
    Ok(())
}

#[test]
fn calls_that_run_or_do_not(rt: HostRuntime) -> Result<(), AllocError> {
    let alloc = rt.alloc();
    let twice = counted(alloc).intern(alloc, 0, b"a")?.call(0, Asked::Clean);
    assert!(rt; is_refused(alloc, twice, 3));
    assert!(rt; is_refused(alloc, held(alloc)?.run(0), 4));
    assert!(rt; is_refused(alloc, held(alloc)?.step(0, 1), 4));
    assert!(rt; is_refused(alloc, held(alloc)?.until(0, StepKind::K1), 4));
    assert!(rt;
        printed(
            alloc,
            counted(alloc).intern(alloc, 0, b"a")?.step(0, 1_048_576)
        )
        .is_ok()
    );
    Ok(())
}

#[test]
fn works_that_are_unfinished_or_not(rt: HostRuntime) -> Result<(), AllocError> {
    let alloc = rt.alloc();
    assert!(rt; is_refused(alloc, counted(alloc).call(0, Asked::Poll), 2));
    assert!(rt; is_refused(alloc, working(alloc)?.call(0, Asked::Grow), 4));
    assert!(rt; is_refused(alloc, working(alloc)?.with(Line::Rehash), 4));
    assert!(rt; printed(alloc, working(alloc)?.intern(alloc, 0, b"a")?.run(0)).is_ok());
    assert!(rt; printed(alloc, working(alloc)?.call(1, Asked::Grow)?.run(1)).is_ok());
    Ok(())
}

#[test]
fn handles_that_are_not_held(rt: HostRuntime) -> Result<(), AllocError> {
    let alloc = rt.alloc();
    let other = held(alloc)?.call(
        1,
        Asked::Drop {
            slot: 0,
            generation: 0,
        },
    );
    assert!(rt; is_refused(alloc, other, 4));
    let wide = held(alloc)?.call(
        0,
        Asked::Drop {
            slot: 1 << 32,
            generation: 0,
        },
    );
    assert!(rt; is_refused(alloc, wide, 4));
    let later = held(alloc)?.call(
        0,
        Asked::Permanent {
            slot: 0,
            generation: 1,
        },
    );
    assert!(rt; is_refused(alloc, later, 4));
    assert!(rt;
        is_refused(
            alloc,
            held(alloc)?.call(
                0,
                Asked::Kill {
                    slot: 0,
                    generation: 0
                }
            ),
            4
        )
    );
    Ok(())
}

#[test]
fn chains_that_are_not_present(rt: HostRuntime) -> Result<(), AllocError> {
    let alloc = rt.alloc();
    assert!(rt; is_refused(alloc, counted(alloc).chain(4, 0), 2));
    assert!(rt; is_refused(alloc, counted(alloc).chain(3, 8), 2));
    assert!(rt; is_refused(alloc, counted(alloc).chain(259, 0), 2));
    assert!(rt; is_refused(alloc, counted(alloc).chain(3, 1 << 32), 2));
    assert!(rt; printed(alloc, counted(alloc).chain(3, 7)).is_ok());
    Ok(())
}

#[test]
fn a_third_rehash(rt: HostRuntime) -> Result<(), AllocError> {
    let alloc = rt.alloc();
    let script = counted(alloc)
        .with(Line::Rehash)?
        .with(Line::Rehash)?
        .with(Line::Rehash);
    assert!(rt; is_refused(alloc, script, 4));
    Ok(())
}
