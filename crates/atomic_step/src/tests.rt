ghost use Rattle.table_shape.specs.Shape.{IsSound};
ghost use Rattle.table_shape.specs.Place.{IsInside};
ghost use Rattle.atomic_step.specs.SoundStep.{HasSoundValue};
ghost use Rattle.atomic_step.specs.Step.{access_of};

use crate::access::{Deed, Op, StepKind};
use crate::count::{
    Change, changed, generation_of, handle_at, holds_of, holds_word, is_live, raised,
};
use crate::plan::{Plan, Want};
use crate::step::{Edge, Step};
use crate::{event_laws, found_laws, run_laws, step_laws, word_laws};
use intern_log::{Handle, Kind, What};
use marked_word::Meta;
use std::test::Fail;
use table_shape::{Place, Shape};

/// 8 slots from word 33 on, each of 5 words; the rows 3 and 4 from words 9 and 17 on; and 4 seats.
const SHAPE: Shape = Shape {
    slots: 8,
    text_words: 1,
    min_level: 3,
    max_level: 4,
    seats: 4,
};

/// Slot 3 in its generation 2, in which its count words begin at 131,072.
const ENTRY: Handle = Handle {
    slot: 3,
    generation: 2,
};

const HEAD: Edge = Edge::Head { row: 4, bucket: 9 };

const LINK: Edge = Edge::Link { slot: 5 };

/// The kind of a step, the index of its word, and the word after it where it found this one.
fn done(shape: &Shape, step: Step, word: u64) -> (StepKind, u32, u64)
    requires table { IsSound shape.now }
    requires inside { IsInside shape.now (access_of step).place }
    requires value { HasSoundValue step }
{
    let op = step.op(shape);
    (step.kind(), op.at(), op.after(word))
}

/// Compares what a step does with a row: its kind, the index of its word, and a word before and after it.
macro_rules! rows {
    ($rt:expr; $($step:expr => $kind:ident, $at:expr, $before:expr, $after:expr;)*) => {
        $(assert!($rt; done(&SHAPE, $step, $before) == (StepKind::$kind, $at, $after));)*
    };
}

#[test]
fn steps_in_numbers(rt: HostRuntime) {
    let (row, bucket, head, slot, number, counter) = (4, 9, 28, 3, 2, 6);
    let meta = Meta {
        hash: 97,
        length: 1,
    };
    let (handle, count, generation, first, next, level) = (
        ENTRY,
        131_073,
        2,
        Some(6),
        None,
        Some(4),
    );
    rows! { rt;
        Step::LoadText { slot, at: 0 } => K6, 52, 7, 7;
        Step::ClaimSlot { slot } => K2, 48, 0, 1;
        Step::PutMeta { slot, meta } => K3, 51, 0, 6_356_993;
        Step::PutNextGeneration { slot, generation } => K3, 50, 131_072, 196_608;
        Step::CreateEntry { handle, row, bucket, head } => K7, 26, 28, 16;
        Step::CreateEntry { handle, row, bucket, head } => K7, 26, 25, 25;
        Step::TakeEntry { slot, count } => K8, 50, 131_073, 131_074;
        Step::OpenSection { number, counter } => K10, 7, 0, 7;
        Step::RaiseCounter => K12, 1, 6, 8;
        Step::LockHead { row, bucket, head } => K14, 26, 28, 29;
        Step::Unlink { slot, edge: HEAD, next } => K16, 26, 29, 1;
        Step::TakeResizeLock { number } => K17, 2, 0, 3;
        Step::PutHead { row, bucket, first } => K21, 26, 0, 29;
        Step::PutNewLevel { level } => K22, 4, 0, 5;
        Step::RedirectHead { row, bucket, first } => K23, 26, 29, 31;
        Step::MoveEdge { edge: LINK, next } => K24, 59, 7, 0;
        Step::StoreLevel { level: 4 } => K25, 3, 3, 4;
    }
}

#[test]
fn operations_change_their_word(rt: HostRuntime) {
    assert_eq!(rt; Deed::Add(2).op(1), Op::Add { at: 1, value: 2 });
    assert_eq!(rt; Deed::Add(2).after(0xffff_ffff_ffff_ffff), 1);
    assert_eq!(rt; Op::Swap { at: 5, value: 1 }.at(), 5);
    assert_eq!(rt; HEAD.place(), Place::Head { row: 4, bucket: 9 });
    assert_eq!(rt; HEAD.word(Some(7)), 33);
    assert_eq!(rt; LINK.word(Some(7)), 8);
    assert!(rt; Step::Draw.access().deed == Deed::Add(1));
    let want = Plan::Step(Step::StoreLevel { level: 4 }).want(&SHAPE);
    assert!(rt;
        matches!(
            want,
            Want::Do {
                op: Op::Store { at: 3, value: 4 },
                ..
            }
        )
    );
}

#[test]
fn counts_in_numbers(rt: HostRuntime) {
    assert_eq!(rt; holds_of(131_073), 1);
    assert_eq!(rt; generation_of(131_073), 2);
    assert_eq!(rt; handle_at(3, 131_073), ENTRY);
    assert_eq!(rt; raised(131_073), 131_074);
    assert_eq!(rt; raised(196_607), 196_607);
    assert_eq!(rt; holds_word(ENTRY, 65_535), 196_607);
    assert!(rt; is_live(ENTRY, 131_073) && !is_live(ENTRY, 131_072) && !is_live(ENTRY, 65_537));
    assert_eq!(rt; changed(Change::Permanent, 131_073), 196_607);
    assert_eq!(rt; changed(Change::Kill, 196_607), 131_072);
}

/// Compares the events of steps with rows.
macro_rules! events {
    ($alloc:expr, $rt:expr; $($step:expr, $word:expr => $event:pat,)*) => {
        $(assert!($rt; matches!($step.event($alloc, b"a", $word)?, $event));)*
    };
}

#[test]
fn events_follow_the_word_that_is_found(rt: HostRuntime) -> Result<(), Fail> {
    let (row, bucket, head, slot, handle, count) = (4, 9, 28, 3, ENTRY, 131_073);
    let (kind, change, first) = (Kind::Weak, Change::Drop, None);
    let alloc = rt.alloc();
    events! { alloc, rt;
        Step::SeeEntry { kind, slot }, 131_073 => Some(What::Found(_, ENTRY)),
        Step::SeeEntry { kind, slot }, 131_072 => None,
        Step::SeeHandle { change, handle }, 196_607 => Some(What::Drop(ENTRY)),
        Step::CreateEntry { handle, row, bucket, head }, 28 => Some(What::Create(_, ENTRY)),
        Step::CreateEntry { handle, row, bucket, head }, 29 => None,
        Step::TakeEntry { slot, count }, 131_073 => Some(What::Take(_, ENTRY)),
        Step::ChangeEntry { change, handle, count }, 131_073 => Some(What::Drop(ENTRY)),
        Step::ClaimSlot { slot }, 0 => Some(What::Claim(3)),
        Step::LockHead { row, bucket, head }, 28 => Some(What::Lock(4, 9)),
        Step::PutHead { row, bucket, first }, 0 => Some(What::Lock(4, 9)),
        Step::UnlockHead { row, bucket, first }, 29 => Some(What::Unlock(4, 9)),
        Step::StoreLevel { level: 4 }, 3 => Some(What::Level(4)),
    }
    Ok(())
}

#[test]
fn laws_can_be_called() {
    step_laws::steps_are_of_their_kind();
    step_laws::steps_are_on_the_words_that_they_name();
    step_laws::operations_are_those_of_their_steps();
    step_laws::words_are_left_by_their_deeds();
    step_laws::live_counts_are_held_in_their_generation();
    event_laws::events_say_what_was_done();
    event_laws::events_are_of_their_kind();
    word_laws::a_step_changes_at_most_its_word();
    word_laws::sound_steps_keep_the_words_of_a_table();
    word_laws::words_of_a_table_can_be_found();
    word_laws::counts_that_are_changed_are_held();
    found_laws::steps_find_words();
    run_laws::runs_are_made_word_by_word();
    run_laws::sections_come_in_turn();
    run_laws::claims_come_in_turn();
    run_laws::locks_come_in_turn();
    run_laws::resize_locks_come_in_turn();
    run_laws::events_are_collected_and_counted();
}
