//! Tests of the core.
mod laws;
mod rehash;
mod resizes;
mod schedules;

use super::*;
use atomic_step::{Answer, Shape, StepKind};
use call_machine::Call;
use intern_log::{Event, Handle, Kind, TableKind};
use log_check::first_unlawful;
use std::alloc::Global;

/// A small table: four slots of one text word, two buckets, three seats.
static SMALL: Shape = Shape {
    slots: 4,
    text_words: 1,
    min_level: 1,
    max_level: 2,
    seats: 3,
};

/// Runs a seat's call until it answers.
fn run(state: &mut State<'_>, seat: u32) -> Option<Answer> {
    for _ in 0..10_000 {
        match state.step(seat) {
            Ok(Stepped::Moved) => {}
            Ok(Stepped::Answered(answer)) => return Some(answer),
            _ => return None,
        }
    }
    None
}

/// Starts a call of a seat and runs it until it answers.
fn call<'t>(state: &mut State<'t>, seat: u32, call: Call<'t>) -> Option<Answer> {
    match state.start(seat, call) {
        Started::Started => run(state, seat),
        Started::Answered(answer) => Some(answer),
        _ => None,
    }
}

/// Whether the log of a small table of the kind is lawful.
fn is_lawful(alloc: Global, kind: Kind, log: &[Event]) -> bool {
    let table = TableKind {
        kind,
        min_level: SMALL.min_level,
        max_level: SMALL.max_level,
        first_counter: 0,
    };
    matches!(first_unlawful(alloc, &table, log), Ok(None))
}

#[test]
fn calls_of_a_counted_table(rt: HostRuntime) {
    let Ok(mut state) = State::new(rt.alloc(), Kind::Counted, SMALL, 0) else {
        panic!(rt; "the table is made")
    };
    assert_eq!(rt; state.words().len(), 5 + 3 + 2 + 4 + 4 * 5);
    assert_eq!(rt; state.start(1, Call::Intern(b"a")), Started::NoSeat);
    assert_eq!(rt; state.start(0, Call::Split), Started::Started);
    assert_eq!(rt; state.next_kind(0), Some(StepKind::K1));
    assert_eq!(rt; state.start(0, Call::Split), Started::Running);
    assert_eq!(rt; run(&mut state, 0), Some(Answer::Split { number: 1 }));
    assert_eq!(rt; state.next_kind(0), None);
    let a = Handle {
        slot: 1,
        generation: 0,
    };
    assert_eq!(rt;
        call(&mut state, 1, Call::Intern(b"a")),
        Some(Answer::Created(a))
    );
    assert_eq!(rt; state.start(0, Call::Drop(a)), Started::Refused);
    assert_eq!(rt;
        call(&mut state, 0, Call::Intern(b"a")),
        Some(Answer::Taken(a))
    );
    assert_eq!(rt;
        call(&mut state, 0, Call::TextOf(a)),
        Some(Answer::Text { length: 1 })
    );
    assert_eq!(rt;
        call(&mut state, 0, Call::Drop(a)),
        Some(Answer::Dropped { left: 1 })
    );
    assert_eq!(rt;
        call(&mut state, 0, Call::Lookup(b"123456789")),
        Some(Answer::Miss)
    );
    assert_eq!(rt;
        call(&mut state, 1, Call::Drop(a)),
        Some(Answer::Dropped { left: 0 })
    );
    assert_eq!(rt; call(&mut state, 0, Call::BeginGrow), Some(Answer::Begun));
    assert_eq!(rt; state.start(0, Call::BeginClean), Started::Refused);
    assert!(rt; matches!(call(&mut state, 0, Call::PollWork), Some(Answer::Done(_))));
    assert_eq!(rt; call(&mut state, 0, Call::BeginClean), Some(Answer::Begun));
    assert_eq!(rt; state.start(0, Call::Split), Started::Refused);
    assert!(rt; matches!(call(&mut state, 0, Call::PollWork), Some(Answer::Done(_))));
    let again = Handle {
        slot: 2,
        generation: 0,
    };
    assert_eq!(rt;
        call(&mut state, 1, Call::Intern(b"a")),
        Some(Answer::Created(again))
    );
    assert_eq!(rt; state.seed(), 0);
    assert!(rt; is_lawful(rt.alloc(), Kind::Counted, state.log()));
}

#[test]
fn calls_of_a_weak_table(rt: HostRuntime) {
    let Ok(mut state) = State::new(rt.alloc(), Kind::Weak, SMALL, 0) else {
        panic!(rt; "the table is made")
    };
    let a = Handle {
        slot: 0,
        generation: 0,
    };
    assert_eq!(rt; state.start(0, Call::Kill(a)), Started::Refused);
    assert_eq!(rt;
        call(&mut state, 0, Call::Intern(b"a")),
        Some(Answer::Created(a))
    );
    assert_eq!(rt;
        call(&mut state, 0, Call::Lookup(b"a")),
        Some(Answer::Hit(a))
    );
    assert_eq!(rt;
        call(&mut state, 0, Call::TextOf(a)),
        Some(Answer::Text { length: 1 })
    );
    assert_eq!(rt; call(&mut state, 0, Call::Kill(a)), Some(Answer::Killed));
    assert_eq!(rt; call(&mut state, 0, Call::Kill(a)), Some(Answer::Stale));
    assert_eq!(rt; call(&mut state, 0, Call::TextOf(a)), Some(Answer::Stale));
    assert_eq!(rt;
        call(&mut state, 0, Call::Sweep(b"a")),
        Some(Answer::Swept { unlinked: 1 })
    );
    assert_eq!(rt; call(&mut state, 0, Call::BeginGrace), Some(Answer::Begun));
    assert_eq!(rt; call(&mut state, 0, Call::PollGrace), Some(Answer::Ready));
    assert!(rt; is_lawful(rt.alloc(), Kind::Weak, state.log()));
}

#[test]
fn tables_that_are_not_made(rt: HostRuntime) {
    let none = Shape { slots: 0, ..SMALL };
    assert!(rt;
        matches!(
            State::new(rt.alloc(), Kind::Weak, none, 1),
            Err(MakeFault::Shape(_))
        )
    );
    assert!(rt;
        matches!(
            State::new(rt.alloc(), Kind::Weak, SMALL, 1),
            Err(MakeFault::BadCounter { counter: 1 })
        )
    );
    let high = (1 << 48) + 2;
    assert!(rt;
        matches!(
            State::new(rt.alloc(), Kind::Weak, SMALL, high),
            Err(MakeFault::BadCounter { counter: _ })
        )
    );
}

#[test]
fn logs_of_schedules_are_lawful(rt: HostRuntime) {
    let mut levels = 0usize;
    for seed in 0..120 {
        let kind = if seed % 2 == 0 {
            Kind::Counted
        } else {
            Kind::Weak
        };
        let Some(stored) = schedules::levels_of_run(rt.alloc(), kind, seed, 300) else {
            panic!(rt; "the log is lawful")
        };
        levels = levels.wrapping_add(stored);
    }
    assert!(rt; levels > 100);
}
