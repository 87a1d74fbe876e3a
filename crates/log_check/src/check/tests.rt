use super::*;
use intern_log::{Handle, Kind, Text, TextFault, What};
use std::test::Fail;

/// What happened in a step, with the text as plain bytes.
#[derive(Clone, Copy)]
enum Step {
    Create(&'static [u8], Handle),
    Take(&'static [u8], Handle),
    Found(&'static [u8], Handle),
    Drop(Handle),
    Perm(Handle),
    Kill(Handle),
    Claim(u32),
    Free(u32),
    Open(u64),
    Close,
    Grace,
    Lock(u8, u32),
    Unlock(u8, u32),
    Unlink(u32),
    ResizeTaken,
    ResizeGiven,
    Level(u8),
    Rehash(u32),
}

/// An event: its seat, and what happened.
type Row = (u32, Step);

/// A handle of slot 0, then its next one, and the first ones of slots 1 and 3.
const A: Handle = Handle {
    slot: 0,
    generation: 0,
};

const A_AGAIN: Handle = Handle {
    slot: 0,
    generation: 1,
};

const B: Handle = Handle {
    slot: 1,
    generation: 0,
};

const D: Handle = Handle {
    slot: 3,
    generation: 0,
};

/// An entry comes and goes, and its slot is cleaned; a reader (3) is open at the Unlink, and another
/// one (1) opens after it and stays open past the Free.
const COUNTED: &[Row] = &[
    (1, Step::Open(7)),
    (1, Step::Claim(0)),
    (1, Step::Create(b"a", A)),
    (1, Step::Close),
    (2, Step::Open(7)),
    (2, Step::Take(b"a", A)), // 5
    (2, Step::Close),
    (1, Step::Drop(A)),
    (1, Step::Drop(A)),
    (3, Step::Open(7)),
    (2, Step::ResizeTaken), // 10
    (2, Step::Lock(3, 0)),
    (2, Step::Unlink(0)),
    (2, Step::Unlock(3, 0)),
    (2, Step::Grace),
    (1, Step::Open(9)), // 15
    (3, Step::Close),
    (2, Step::Free(0)),
    (2, Step::ResizeGiven),
    (1, Step::Claim(1)),
    (1, Step::Create(b"b", B)), // 20
    (1, Step::Perm(B)),
    (1, Step::Drop(B)),
    (1, Step::Close),
    (1, Step::Claim(0)),
    (1, Step::Create(b"a", A_AGAIN)), // 25
    (1, Step::Claim(2)),
    (1, Step::Free(2)),
];

/// The table grows by two levels and shrinks again, beside a reader.
const GROWN: &[Row] = &[
    (1, Step::Claim(0)),
    (1, Step::Create(b"a", A)),
    (3, Step::Open(7)),
    (2, Step::ResizeTaken),
    (2, Step::Lock(3, 0)),
    (2, Step::Lock(4, 0)), // 5
    (2, Step::Lock(4, 8)),
    (2, Step::Level(4)),
    (2, Step::Unlock(4, 0)),
    (2, Step::Unlock(4, 8)),
    (2, Step::Grace), // 10
    (3, Step::Take(b"a", A)),
    (3, Step::Close),
    (2, Step::Level(5)),
    (2, Step::Grace),
    (2, Step::ResizeGiven), // 15
    (2, Step::ResizeTaken),
    (2, Step::Lock(5, 0)),
    (2, Step::Lock(5, 16)),
    (2, Step::Lock(4, 0)),
    (2, Step::Level(4)), // 20
    (2, Step::Unlock(4, 0)),
    (2, Step::Grace),
    (2, Step::Level(3)),
    (2, Step::ResizeGiven),
];

/// An entry is found, killed and cleaned, and its text is created again.
const WEAK: &[Row] = &[
    (1, Step::Open(7)),
    (1, Step::Claim(0)),
    (1, Step::Create(b"a", A)),
    (2, Step::Found(b"a", A)),
    (1, Step::Close),
    (2, Step::Kill(A)), // 5
    (2, Step::Lock(3, 0)),
    (2, Step::Unlink(0)),
    (2, Step::Unlock(3, 0)),
    (2, Step::Grace),
    (2, Step::Free(0)), // 10
    (3, Step::Claim(0)),
    (3, Step::Create(b"a", A_AGAIN)),
];

/// The table is made anew with seed 1, and with seed 2 once the entry of before is cleaned.
const SEEDED: &[Row] = &[
    (1, Step::Open(7)),
    (1, Step::Claim(0)),
    (1, Step::Create(b"a", A)),
    (1, Step::Close),
    (3, Step::Lock(3, 1)),
    (3, Step::Unlock(3, 1)), // 5
    (0, Step::Rehash(1)),
    (2, Step::Take(b"a", A)),
    (2, Step::Drop(A)),
    (1, Step::Drop(A)),
    (2, Step::ResizeTaken), // 10
    (2, Step::Lock(3, 0)),
    (2, Step::Unlink(0)),
    (2, Step::Unlock(3, 0)),
    (2, Step::Grace),
    (2, Step::Free(0)), // 15
    (2, Step::ResizeGiven),
    (0, Step::Rehash(2)),
    (1, Step::Grace),
];

/// The lawful logs.
#[derive(Clone, Copy)]
enum Lawful {
    Counted,
    Grown,
    Weak,
    Seeded,
}

impl Lawful {
    fn rows(self) -> &'static [Row] {
        match self {
            Lawful::Counted => COUNTED,
            Lawful::Grown => GROWN,
            Lawful::Weak => WEAK,
            Lawful::Seeded => SEEDED,
        }
    }

    fn table(self) -> TableKind {
        TableKind {
            kind: match self {
                Lawful::Counted | Lawful::Grown | Lawful::Seeded => Kind::Counted,
                Lawful::Weak => Kind::Weak,
            },
            min_level: 3,
            max_level: 5,
            first_counter: 7,
        }
    }
}

/// A lawful log, a place in it, the event that stands there instead, and the first place at which
/// the log is then unlawful.
type Change = (Lawful, usize, Row, usize);

static CHANGES: [Change; 54] = [
    // The map: a text that is live, a handle that is live, and what is not live.
    (Lawful::Counted, 25, (1, Step::Create(b"b", A_AGAIN)), 25),
    (Lawful::Counted, 25, (1, Step::Create(b"c", B)), 25),
    (Lawful::Counted, 5, (2, Step::Take(b"a", A_AGAIN)), 5),
    (Lawful::Counted, 5, (2, Step::Take(b"b", A)), 5),
    (Lawful::Weak, 3, (2, Step::Found(b"a", A_AGAIN)), 3),
    (Lawful::Counted, 7, (1, Step::Drop(B)), 7),
    (Lawful::Counted, 21, (1, Step::Perm(A)), 21),
    (Lawful::Weak, 5, (2, Step::Kill(A_AGAIN)), 5),
    // A handle that was created before.
    (Lawful::Counted, 25, (1, Step::Create(b"a", A)), 25),
    (Lawful::Weak, 12, (3, Step::Create(b"a", A)), 12),
    // A Create in a slot that another seat claimed, and in one that nobody did.
    (Lawful::Counted, 2, (2, Step::Create(b"a", A)), 2),
    (Lawful::Counted, 2, (1, Step::Create(b"a", D)), 2),
    // A Claim of a slot that is linked, claimed, or unlinked.
    (Lawful::Counted, 24, (1, Step::Claim(1)), 24),
    (Lawful::Counted, 25, (2, Step::Claim(0)), 25),
    (Lawful::Counted, 17, (1, Step::Claim(0)), 17),
    // A Free of a slot that is vacant, linked, claimed by another, unlinked by another, and one
    // before the reader of the Unlink has closed.
    (Lawful::Counted, 27, (1, Step::Free(3)), 27),
    (Lawful::Counted, 27, (1, Step::Free(0)), 27),
    (Lawful::Counted, 27, (2, Step::Free(2)), 27),
    (Lawful::Counted, 17, (1, Step::Free(0)), 17),
    (Lawful::Counted, 16, (3, Step::Grace), 17),
    // An Unlink of a slot that is not linked, and of a live entry.
    (Lawful::Counted, 12, (2, Step::Unlink(1)), 12),
    (Lawful::Counted, 7, (1, Step::Perm(A)), 12),
    // Sections: open twice, with counters that are too great, and closed twice.
    (Lawful::Counted, 16, (3, Step::Open(7)), 16),
    (Lawful::Counted, 0, (1, Step::Open(8)), 0),
    (Lawful::Counted, 15, (1, Step::Open(10)), 15),
    (Lawful::Counted, 3, (2, Step::Close), 3),
    // The resize lock: taken twice; given back by another, where nobody has it, and too early.
    (Lawful::Counted, 11, (1, Step::ResizeTaken), 11),
    (Lawful::Grown, 4, (2, Step::ResizeTaken), 4),
    (Lawful::Counted, 18, (1, Step::ResizeGiven), 18),
    (Lawful::Grown, 3, (2, Step::ResizeGiven), 3),
    (Lawful::Counted, 17, (2, Step::ResizeGiven), 17),
    // Buckets: locked twice, also past a Level; unlocked by another, and past a Level.
    (Lawful::Counted, 12, (1, Step::Lock(3, 0)), 12),
    (Lawful::Grown, 8, (1, Step::Lock(4, 0)), 8),
    (Lawful::Counted, 13, (1, Step::Unlock(3, 0)), 13),
    (Lawful::Grown, 8, (2, Step::Unlock(3, 0)), 8),
    // Levels: by another, by nobody, by two, by none, and out of bounds.
    (Lawful::Grown, 7, (1, Step::Level(4)), 7),
    (Lawful::Grown, 16, (2, Step::Level(4)), 16),
    (Lawful::Grown, 7, (2, Step::Level(5)), 7),
    (Lawful::Grown, 7, (2, Step::Level(3)), 7),
    (Lawful::Grown, 24, (2, Step::Level(2)), 24),
    (Lawful::Grown, 14, (2, Step::Level(6)), 14),
    // Events of the other kind of table.
    (Lawful::Weak, 3, (2, Step::Take(b"a", A)), 3),
    (Lawful::Weak, 5, (2, Step::Drop(A)), 5),
    (Lawful::Weak, 5, (2, Step::Perm(A)), 5),
    (Lawful::Counted, 5, (2, Step::Found(b"a", A)), 5),
    (Lawful::Counted, 8, (1, Step::Kill(A)), 8),
    // Seeds: by another number; the same, by two, and the third.
    (Lawful::Seeded, 6, (1, Step::Rehash(1)), 6),
    (Lawful::Seeded, 6, (0, Step::Rehash(0)), 6),
    (Lawful::Seeded, 6, (0, Step::Rehash(2)), 6),
    (Lawful::Seeded, 18, (0, Step::Rehash(3)), 18),
    // Beside an open section, a locked bucket, the resize lock, and an entry that is gone.
    (Lawful::Seeded, 3, (0, Step::Rehash(1)), 3),
    (Lawful::Seeded, 5, (0, Step::Rehash(1)), 5),
    (Lawful::Seeded, 16, (0, Step::Rehash(2)), 16),
    (Lawful::Seeded, 10, (0, Step::Rehash(2)), 10),
];

fn what_of(alloc: Global, step: Step) -> Result<What, TextFault> {
    Ok(match step {
        Step::Create(text, handle) => What::Create(Text::of(alloc, text)?, handle),
        Step::Take(text, handle) => What::Take(Text::of(alloc, text)?, handle),
        Step::Found(text, handle) => What::Found(Text::of(alloc, text)?, handle),
        Step::Drop(handle) => What::Drop(handle),
        Step::Perm(handle) => What::Perm(handle),
        Step::Kill(handle) => What::Kill(handle),
        Step::Claim(slot) => What::Claim(slot),
        Step::Free(slot) => What::Free(slot),
        Step::Open(counter) => What::Open(counter),
        Step::Close => What::Close,
        Step::Grace => What::Grace,
        Step::Lock(row, bucket) => What::Lock(row, bucket),
        Step::Unlock(row, bucket) => What::Unlock(row, bucket),
        Step::Unlink(slot) => What::Unlink(slot),
        Step::ResizeTaken => What::ResizeTaken,
        Step::ResizeGiven => What::ResizeGiven,
        Step::Level(level) => What::Level(level),
        Step::Rehash(seed) => What::Rehash { seed },
    })
}

/// The events of the rows.
fn events_of(alloc: Global, rows: &[Row]) -> Result<Vec<Event>, TextFault> {
    let mut events = Vec::new(alloc);
    for (seat, step) in rows {
        let what = what_of(alloc, *step)?;
        if let Err(e) = events.push(Event { seat: *seat, what }) {
            return Err(AllocError::from(e).into());
        }
    }
    Ok(events)
}

#[test]
fn lawful_logs_have_no_fault(rt: HostRuntime) -> Result<(), Fail> {
    for log in [Lawful::Counted, Lawful::Grown, Lawful::Weak, Lawful::Seeded] {
        let events = events_of(rt.alloc(), log.rows())?;
        assert_eq!(rt;
            first_unlawful(rt.alloc(), &log.table(), events.as_slice())?,
            None
        );
    }
    Ok(())
}

#[test]
fn one_other_event_is_found(rt: HostRuntime) -> Result<(), Fail> {
    for (number, change) in CHANGES.iter().enumerate() {
        let (log, place, (seat, step), unlawful) = *change;
        let mut events = events_of(rt.alloc(), log.rows())?;
        if let Some(event) = events.get_mut(place) {
            *event = Event {
                seat,
                what: what_of(rt.alloc(), step)?,
            };
        }
        let found = first_unlawful(rt.alloc(), &log.table(), events.as_slice())?;
        assert_eq!(rt; found, Some(unlawful), "change {number}");
    }
    Ok(())
}
