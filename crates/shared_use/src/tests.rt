//! Tests of two threads that intern the same texts.
use super::*;
use atomic_step::Shape;
use intern_log::Kind;
use std::alloc::{AllocError, Global};
use std::process::Abort;
use std::test::Fail;

/// A table with room for more texts than a test has.
static ROOMY: Shape = Shape {
    slots: 128,
    text_words: 1,
    min_level: 4,
    max_level: 6,
    seats: 2,
};

/// A table with room for four texts of up to eight bytes.
static SMALL: Shape = Shape {
    slots: 4,
    text_words: 1,
    min_level: 1,
    max_level: 2,
    seats: 2,
};

/// A hundred bytes, each another one.
fn hundred_bytes() -> [u8; 100] {
    let mut bytes = [0; 100];
    for i in 0..100 {
        bytes[i] = i as u8;
    }
    bytes
}

/// Whether a text has a handle.
fn has_some(answers: &[Option<Handle>]) -> bool {
    answers.iter().any(|answer| answer.is_some())
}

/// Whether two lists have one handle wherever both have one.
fn agree(mine: &[Option<Handle>], theirs: &[Option<Handle>]) -> bool {
    mine.iter().zip(theirs).all(|(own, other)| own.is_none() || other.is_none() || own == other)
}

/// Whether no two texts have one answer.
fn differ(answers: &[Option<Handle>]) -> bool {
    answers.iter().enumerate().all(|(i, answer)| answers
        .iter()
        .take(i)
        .all(|earlier| earlier != answer))
}

/// What two threads have for the same texts, in a table that is made for them.
fn by_two<R: Threads + Wait + Abort + Sync>(
    rt: &R,
    alloc: Global,
    shape: Shape,
    texts: &[&[u8]],
) -> Result<(Vec<Option<Handle>>, Vec<Option<Handle>>), AllocError> {
    let mine = vec![in alloc; None; texts.len()]?;
    let theirs = vec![in alloc; None; texts.len()]?;
    let Ok((cht, mut seat)) = Cht::make(alloc, Kind::Counted, shape, 6) else {
        panic!(rt; "there is memory for a table")
    };
    let Ok(other) = cht.split(&mut seat) else {
        panic!(rt; "there are two seats")
    };
    let (seat, mine, theirs) = intern_by_two(rt, &cht, seat, other, texts, mine, theirs);
    cht.close(seat);
    Ok((mine, theirs))
}

#[test]
fn two_threads_have_one_handle_for_each_text(rt: HostRuntime) -> Result<(), Fail> {
    let bytes = hundred_bytes();
    let texts: Vec<&[u8]> = bytes.chunks(1).collect(rt.alloc())?;
    assert!(rt; texts.len() == 100);
    let (mine, theirs) = by_two(&rt, rt.alloc(), ROOMY, texts.as_slice())?;
    assert!(rt; mine == theirs);
    assert!(rt; mine.len() == 100);
    assert!(rt; mine.iter().all(|answer| answer.is_some()));
    assert!(rt; differ(mine.as_slice()));
    Ok(())
}

#[test]
fn texts_without_room_have_none(rt: HostRuntime) -> Result<(), Fail> {
    let texts: [&[u8]; 2] = [b"a", b"123456789"];
    let (mine, theirs) = by_two(&rt, rt.alloc(), SMALL, &texts)?;
    assert!(rt; mine == theirs);
    assert!(rt; mine.len() == 2);
    assert!(rt; mine[0].is_some());
    assert!(rt; mine[1].is_none());
    Ok(())
}

#[test]
fn no_more_texts_have_handles_than_there_are_slots(rt: HostRuntime) -> Result<(), Fail> {
    let texts: [&[u8]; 6] = [b"a", b"b", b"c", b"d", b"e", b"f"];
    let (mine, theirs) = by_two(&rt, rt.alloc(), SMALL, &texts)?;
    assert!(rt; mine.len() == 6 && theirs.len() == 6);
    assert!(rt; mine.iter().filter(|answer| answer.is_some()).count() <= 4);
    assert!(rt; theirs.iter().filter(|answer| answer.is_some()).count() <= 4);
    assert!(rt; agree(mine.as_slice(), theirs.as_slice()));
    Ok(())
}
