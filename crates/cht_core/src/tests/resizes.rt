//! Tests of tables that grow and shrink.
use super::*;
use atomic_step::Place;

/// A table of two or four buckets, with more slots.
static WIDE: Shape = Shape {
    slots: 32,
    text_words: 1,
    min_level: 1,
    max_level: 2,
    seats: 3,
};

/// Texts that seat 0 holds.
static HELD: [&'static [u8]; 6] = [b"a", b"b", b"c", b"d", b"e", b"f"];

/// The word of the level.
fn level_word(state: &State<'_>) -> Option<u64> {
    let at = WIDE.index(Place::Level) as usize;
    state.words().get(at).copied()
}

/// Whether seat 1 finds each held text, and does not find another one.
fn finds_all(state: &mut State<'static>) -> bool {
    for text in HELD {
        if !matches!(call(state, 1, Call::Lookup(text)), Some(Answer::Hit(_))) {
            return false;
        }
    }
    call(state, 1, Call::Lookup(b"z")) == Some(Answer::Miss)
}

/// Whether seat 1 interns the text and drops it again, or finds its bucket locked.
fn interns(state: &mut State<'static>, text: &'static [u8]) -> bool {
    match call(state, 1, Call::Intern(text)) {
        Some(Answer::Created(handle)) | Some(Answer::Taken(handle)) => {
            matches!(
                call(state, 1, Call::Drop(handle)),
                Some(Answer::Dropped { left: _ })
            )
        }
        Some(Answer::Locked) => true,
        _ => false,
    }
}

/// Polls the work of seat 0 to its end. After each of its steps seat 1 looks up all texts, takes one of them, and now and then
/// creates another one. The level to which the work led, if each call answered as it should.
fn polled_beside_calls(state: &mut State<'static>) -> Option<u8> {
    for turn in 0..400u32 {
        let stepped = match state.next_kind(0) {
            None => {
                if state.start(0, Call::PollWork) != Started::Started {
                    return None;
                }
                Ok(Stepped::Moved)
            }
            Some(_) => state.step(0),
        };
        match stepped {
            Ok(Stepped::Answered(Answer::Done(worked))) => return Some(worked.level),
            Ok(Stepped::Moved) => {}
            _ => return None,
        }
        let text = HELD[(turn % 6) as usize];
        if !finds_all(state) || !interns(state, text) {
            return None;
        }
        if turn % 32 == 5 && !interns(state, b"other") {
            return None;
        }
    }
    None
}

#[test]
fn a_table_grows_and_shrinks_beside_calls(rt: HostRuntime) {
    let Ok(mut state) = State::new(rt.alloc(), Kind::Counted, WIDE, 0) else {
        panic!(rt; "the table is made")
    };
    assert_eq!(rt;
        call(&mut state, 0, Call::Split),
        Some(Answer::Split { number: 1 })
    );
    for text in HELD {
        assert!(rt;
            matches!(
                call(&mut state, 0, Call::Intern(text)),
                Some(Answer::Created(_))
            )
        );
    }
    assert_eq!(rt; level_word(&state), Some(1));
    assert_eq!(rt; call(&mut state, 0, Call::BeginGrow), Some(Answer::Begun));
    assert_eq!(rt; call(&mut state, 1, Call::BeginGrow), Some(Answer::Busy));
    assert_eq!(rt; polled_beside_calls(&mut state), Some(2));
    assert_eq!(rt; level_word(&state), Some(2));
    assert!(rt; finds_all(&mut state));
    assert_eq!(rt; state.rehash(), Rehashing::Refused);
    assert_eq!(rt; call(&mut state, 0, Call::BeginClean), Some(Answer::Begun));
    assert!(rt; matches!(call(&mut state, 0, Call::PollWork), Some(Answer::Done(_))));
    assert_eq!(rt; state.rehash(), Rehashing::Done);
    assert!(rt; finds_all(&mut state));
    assert_eq!(rt;
        call(&mut state, 0, Call::BeginGrow),
        Some(Answer::AtMaximum { level: 2 })
    );
    assert_eq!(rt; call(&mut state, 0, Call::BeginShrink), Some(Answer::Begun));
    assert_eq!(rt; polled_beside_calls(&mut state), Some(1));
    assert_eq!(rt; level_word(&state), Some(1));
    assert!(rt; finds_all(&mut state));
    assert_eq!(rt;
        call(&mut state, 0, Call::BeginShrink),
        Some(Answer::AtMinimum { level: 1 })
    );
    assert!(rt; is_lawful(rt.alloc(), Kind::Counted, state.log()));
}
