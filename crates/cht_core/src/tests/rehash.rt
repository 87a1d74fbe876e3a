//! Tests of tables that are made anew by the next seed.
use super::*;
use intern_log::What;

/// Eight slots of one text word, eight or sixteen buckets, four seats.
static EIGHT: Shape = Shape {
    slots: 8,
    text_words: 1,
    min_level: 3,
    max_level: 4,
    seats: 4,
};

/// The handle of a slot that was never freed.
fn first_of(slot: u32) -> Handle {
    Handle {
        slot,
        generation: 0,
    }
}

/// The head words of buckets 0, 4 and 5 of level 3, and the link words of slots 0 and 1.
fn chain_words(state: &State<'_>) -> [Option<u64>; 5] {
    let words = state.words();
    [9, 13, 14, 34, 39].map(|at| words.get(at).copied())
}

/// Whether the log of the table is lawful.
fn is_lawful_log(alloc: Global, log: &[Event]) -> bool {
    let table = TableKind {
        kind: Kind::Counted,
        min_level: EIGHT.min_level,
        max_level: EIGHT.max_level,
        first_counter: 0,
    };
    matches!(first_unlawful(alloc, &table, log), Ok(None))
}

#[test]
fn texts_of_one_bucket_are_spread(rt: HostRuntime) {
    let Ok(mut state) = State::new(rt.alloc(), Kind::Counted, EIGHT, 0) else {
        panic!(rt; "the table is made")
    };
    let (first, second) = (first_of(0), first_of(1));
    assert_eq!(rt;
        call(&mut state, 0, Call::Intern(b"Aa")),
        Some(Answer::Created(first))
    );
    assert_eq!(rt;
        call(&mut state, 0, Call::Intern(b"BB")),
        Some(Answer::Created(second))
    );
    let before = [Some(8), Some(0), Some(0), Some(0), Some(1)];
    assert_eq!(rt; chain_words(&state), before);
    assert_eq!(rt; state.rehash(), Rehashing::Done);
    assert_eq!(rt; state.seed(), 1);
    let after = [Some(0), Some(8), Some(4), Some(0), Some(0)];
    assert_eq!(rt; chain_words(&state), after);
    let last = state.log().last();
    assert!(rt;
        matches!(
            last,
            Some(Event {
                seat: 0,
                what: What::Rehash { seed: 1 }
            })
        )
    );
    assert_eq!(rt;
        call(&mut state, 0, Call::Split),
        Some(Answer::Split { number: 1 })
    );
    assert_eq!(rt;
        call(&mut state, 1, Call::Lookup(b"Aa")),
        Some(Answer::Hit(first))
    );
    assert_eq!(rt; state.rehash(), Rehashing::Done);
    assert_eq!(rt; state.rehash(), Rehashing::Refused);
    assert_eq!(rt; state.seed(), 2);
    assert!(rt; is_lawful_log(rt.alloc(), state.log()));
}

#[test]
fn rehash_is_refused_beside_what_is_unfinished(rt: HostRuntime) {
    let Ok(mut state) = State::new(rt.alloc(), Kind::Counted, EIGHT, 0) else {
        panic!(rt; "the table is made")
    };
    assert_eq!(rt; state.start(0, Call::Intern(b"Aa")), Started::Started);
    assert_eq!(rt; state.rehash(), Rehashing::Refused);
    assert_eq!(rt; run(&mut state, 0), Some(Answer::Created(first_of(0))));
    assert_eq!(rt; call(&mut state, 0, Call::BeginGrace), Some(Answer::Begun));
    assert_eq!(rt; state.rehash(), Rehashing::Refused);
    assert_eq!(rt; call(&mut state, 0, Call::PollGrace), Some(Answer::Ready));
    assert_eq!(rt;
        call(&mut state, 0, Call::Drop(first_of(0))),
        Some(Answer::Dropped { left: 0 })
    );
    assert_eq!(rt; state.rehash(), Rehashing::Refused);
    assert_eq!(rt; call(&mut state, 0, Call::BeginClean), Some(Answer::Begun));
    assert_eq!(rt; state.rehash(), Rehashing::Refused);
    assert!(rt; matches!(call(&mut state, 0, Call::PollWork), Some(Answer::Done(_))));
    assert_eq!(rt; state.rehash(), Rehashing::Done);
    assert!(rt; is_lawful_log(rt.alloc(), state.log()));
}

#[test]
fn weak_tables_are_made_anew(rt: HostRuntime) {
    let Ok(mut state) = State::new(rt.alloc(), Kind::Weak, EIGHT, 0) else {
        panic!(rt; "the table is made")
    };
    let (first, second) = (first_of(0), first_of(1));
    assert_eq!(rt;
        call(&mut state, 0, Call::Intern(b"Aa")),
        Some(Answer::Created(first))
    );
    assert_eq!(rt;
        call(&mut state, 0, Call::Intern(b"BB")),
        Some(Answer::Created(second))
    );
    assert_eq!(rt; state.rehash(), Rehashing::Done);
    assert_eq!(rt;
        call(&mut state, 0, Call::Lookup(b"BB")),
        Some(Answer::Hit(second))
    );
    assert_eq!(rt;
        call(&mut state, 0, Call::Kill(first)),
        Some(Answer::Killed)
    );
    assert_eq!(rt; state.rehash(), Rehashing::Refused);
    assert_eq!(rt;
        call(&mut state, 0, Call::Sweep(b"Aa")),
        Some(Answer::Swept { unlinked: 1 })
    );
    assert_eq!(rt; state.rehash(), Rehashing::Done);
    assert_eq!(rt;
        call(&mut state, 0, Call::Lookup(b"BB")),
        Some(Answer::Hit(second))
    );
}
