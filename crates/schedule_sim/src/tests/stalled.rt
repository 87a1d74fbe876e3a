//! A caller that is stalled after any number of its steps, and works beside it.
use super::*;

/// Seat 1 makes so many steps of a look-up, then comes the work, then the look-up's end.
fn beside_a_grow(alloc: Global, steps: u32) -> Result<Script, AllocError> {
    let script = counted(alloc)
        .intern(alloc, 0, b"y")?
        .run(0)?
        .intern(alloc, 0, b"q")?
        .run(0)?
        .intern(alloc, 0, b"i")?
        .run(0)?
        .intern(alloc, 0, b"a")?
        .run(0)?
        .lookup(alloc, 1, b"q")?;
    let stalled = if steps > 0 {
        script.step(1, steps)?
    } else {
        script
    };
    let polled = stalled
        .call(0, Asked::Grow)?
        .run(0)?
        .call(0, Asked::Poll)?
        .run(0)?
        .run(1)?;
    if steps > 1 {
        polled.call(0, Asked::Poll)?.run(0)
    } else {
        Ok(polled)
    }
}

/// Seat 1 makes so many steps of a look-up, then comes the work, then the look-up's end.
fn beside_a_shrink(alloc: Global, steps: u32) -> Result<Script, AllocError> {
    let script = counted(alloc)
        .intern(alloc, 0, b"y")?
        .run(0)?
        .intern(alloc, 0, b"q")?
        .run(0)?
        .intern(alloc, 0, b"i")?
        .run(0)?
        .intern(alloc, 0, b"a")?
        .run(0)?
        .call(0, Asked::Grow)?
        .run(0)?
        .call(0, Asked::Poll)?
        .run(0)?
        .lookup(alloc, 1, b"a")?;
    let stalled = if steps > 0 {
        script.step(1, steps)?
    } else {
        script
    };
    let polled = stalled
        .call(0, Asked::Shrink)?
        .run(0)?
        .call(0, Asked::Poll)?
        .run(0)?
        .run(1)?;
    if steps > 1 {
        polled.call(0, Asked::Poll)?.run(0)
    } else {
        Ok(polled)
    }
}

/// Seat 1 makes so many steps of a look-up, then comes the work, then the look-up's end.
fn beside_a_clean(alloc: Global, steps: u32) -> Result<Script, AllocError> {
    let script = counted(alloc)
        .intern(alloc, 0, b"a")?
        .run(0)?
        .call(
            0,
            Asked::Drop {
                slot: 0,
                generation: 0,
            },
        )?
        .run(0)?
        .lookup(alloc, 1, b"a")?;
    let stalled = if steps > 0 {
        script.step(1, steps)?
    } else {
        script
    };
    let polled = stalled
        .call(0, Asked::Clean)?
        .run(0)?
        .call(0, Asked::Poll)?
        .run(0)?
        .run(1)?;
    if steps > 1 {
        polled.call(0, Asked::Poll)?.run(0)
    } else {
        Ok(polled)
    }
}

/// Whether a run ends with these lines.
fn ends_with(alloc: Global, script: Result<Script, AllocError>, want: &[u8]) -> bool {
    match printed(alloc, script) {
        Ok(text) => text.as_slice().ends_with(want),
        Err(_) => false,
    }
}

#[test]
fn a_reader_beside_a_grow(rt: HostRuntime) {
    let alloc = rt.alloc();
    for steps in 0..13 {
        let want: &[u8] = match steps {
            0 | 1 =>
                b"0 begun\nlog 0 level 4\n0 done unlinked 0 graces 5 level 4\nlog 1 take q 1.0\n1 hit 1.0\n",
            12 =>
                b"log 1 take q 1.0\n0 begun\n0 pending seat 1\n1 hit 1.0\nlog 0 level 4\n0 done unlinked 0 graces 5 level 4\n",
            _ =>
                b"0 begun\n0 pending seat 1\nlog 1 take q 1.0\n1 hit 1.0\nlog 0 level 4\n0 done unlinked 0 graces 5 level 4\n",
        };
        assert!(rt;
            ends_with(alloc, beside_a_grow(alloc, steps), want),
            "{steps}"
        );
    }
}

#[test]
fn a_reader_beside_a_shrink(rt: HostRuntime) {
    let alloc = rt.alloc();
    for steps in 0..9 {
        let want: &[u8] = match steps {
            0 | 1 =>
                b"0 begun\nlog 0 level 3\n0 done unlinked 0 graces 9 level 3\nlog 1 take a 3.0\n1 hit 3.0\n",
            8 =>
                b"log 1 take a 3.0\n0 begun\n0 pending seat 1\n1 hit 3.0\nlog 0 level 3\n0 done unlinked 0 graces 9 level 3\n",
            _ =>
                b"0 begun\n0 pending seat 1\nlog 1 take a 3.0\n1 hit 3.0\nlog 0 level 3\n0 done unlinked 0 graces 9 level 3\n",
        };
        assert!(rt;
            ends_with(alloc, beside_a_shrink(alloc, steps), want),
            "{steps}"
        );
    }
}

#[test]
fn a_reader_beside_a_clean(rt: HostRuntime) {
    let alloc = rt.alloc();
    for steps in 0..9 {
        let want: &[u8] = match steps {
            0 | 1 =>
                b"0 begun\nlog 0 unlink 0\nlog 0 free 0\n0 done unlinked 1 graces 1 level 3\n1 miss\n",
            _ =>
                b"0 begun\nlog 0 unlink 0\n0 pending seat 1\n1 miss\nlog 0 free 0\n0 done unlinked 1 graces 1 level 3\n",
        };
        assert!(rt;
            ends_with(alloc, beside_a_clean(alloc, steps), want),
            "{steps}"
        );
    }
}
