//! What grows come to, alone and beside a thread that interns.
ghost use Rattle.std.specs.Prelude.{◌≡◌};
ghost use Rattle.intern_log.specs.declared.event.Kind.TheVariants.{Counted};
ghost use Rattle.cht_run.specs.Ended.{Keeps};
ghost use Rattle.cht_run.specs.Ends.{HasNothing};
ghost use Rattle.cht_run.specs.Seats.{IsOf};

use super::*;
use crate::intern_wait::Interned;
use crate::retry::Lookup;
use crate::statistics::Statistics;
use crate::waits::Grown;
use call_machine::Worked;
use std::sync::Wait;

/// Interns a text: whether its entry was made.
fn is_made<R: Wait>(rt: &R, cht: &Cht, seat: &mut Seat, text: &[u8]) -> bool
    requires of { IsOf cht.now seat.old }
    requires counted { cht.now.origin.table.kind ≡ Counted }
    requires nothing { HasNothing seat.old }
    ensures of { IsOf cht.now seat.new }
    ensures nothing { HasNothing seat.new }
    ensures keeps { Keeps seat.old seat.new }
{
    matches!(cht.intern(rt, seat, text), Interned::Created(_))
}

#[test]
fn one_bucket_grows_into_two(rt: HostRuntime) -> Result<(), Fail> {
    let Ok((cht, mut seat)) = Cht::make(rt.alloc(), Kind::Counted, WIDE, 0) else {
        panic!(rt; "there is memory for a small table")
    };
    assert!(rt; is_made(&rt, &cht, &mut seat, b"y"));
    assert!(rt; is_made(&rt, &cht, &mut seat, b"q"));
    assert!(rt; is_made(&rt, &cht, &mut seat, b"i"));
    assert!(rt; is_made(&rt, &cht, &mut seat, b"a"));
    let five = Worked {
        unlinked: 0,
        graces: 5,
        level: 4,
    };
    assert!(rt; cht.grow(&rt, &mut seat) == Grown::Done(five));
    let four = Statistics {
        level: 4,
        buckets: 16,
        live: 4,
        permanent: 0,
        references: 4,
        longest: 2,
    };
    assert!(rt; cht.statistics(&mut seat) == four);
    assert!(rt; cht.grow(&rt, &mut seat) == Grown::AtMaximum { level: 4 });
    Ok(())
}

/// A table with room for more names than a test has, which can grow six times.
static ROOMY: Shape = Shape {
    slots: 4_096,
    text_words: 1,
    min_level: 0,
    max_level: 6,
    seats: 2,
};

/// How many names there are.
static NAMES: u32 = 2_000;

/// The name of a number: its bytes.
fn name_of(number: u32) -> [u8; 4] {
    number.to_be_bytes()
}

/// Interns each name: how many entries were made before one was not.
fn make_names<R: Wait>(rt: &R, cht: &Cht, mut seat: Seat) -> (Seat, u32)
    requires of { IsOf cht.now seat }
    requires counted { cht.now.origin.table.kind ≡ Counted }
    requires nothing { HasNothing seat }
    ensures of { IsOf cht.now result.0 }
    ensures nothing { HasNothing result.0 }
    ensures keeps { Keeps seat result.0 }
{
    for number in 0..NAMES {
        if !is_made(rt, cht, &mut seat, &name_of(number)) {
            return (seat, number);
        }
    }
    (seat, NAMES)
}

/// Grows the table six times: how often it grew.
fn grow_often<R: Wait>(rt: &R, cht: &Cht, mut seat: Seat) -> (Seat, u32)
    requires of { IsOf cht.now seat }
    requires nothing { HasNothing seat }
    ensures of { IsOf cht.now result.0 }
    ensures nothing { HasNothing result.0 }
    ensures keeps { Keeps seat result.0 }
{
    for times in 0..6 {
        match cht.grow(rt, &mut seat) {
            Grown::Done(_) => {}
            Grown::AtMaximum { .. } | Grown::Spent { .. } => return (seat, times),
        }
    }
    (seat, 6)
}

/// Looks each name up: how many were hit before one was missed.
fn hit_names<R: Wait>(rt: &R, cht: &Cht, seat: &mut Seat) -> u32
    requires of { IsOf cht.now seat.old }
    requires counted { cht.now.origin.table.kind ≡ Counted }
    ensures of { IsOf cht.now seat.new }
{
    for number in 0..NAMES {
        match cht.lookup(rt, seat, &name_of(number)) {
            Lookup::Hit(_) => {}
            Lookup::Miss => return number,
        }
    }
    NAMES
}

#[test]
fn names_are_hit_after_the_table_has_grown(rt: HostRuntime) -> Result<(), Fail> {
    let Ok((cht, mut seat)) = Cht::make(rt.alloc(), Kind::Counted, ROOMY, 0) else {
        panic!(rt; "there is memory for a table")
    };
    let Ok(other) = cht.split(&mut seat) else {
        panic!(rt; "there are two seats")
    };
    let ((mut seat, made), (other, times)) = std::thread::join(
        &rt,
        || make_names(&rt, &cht, seat),
        || grow_often(&rt, &cht, other),
    );
    assert!(rt; made == NAMES && times == 6);
    cht.join(&mut seat, other);
    assert!(rt; cht.level(&mut seat) == 6);
    assert!(rt; hit_names(&rt, &cht, &mut seat) == NAMES);
    Ok(())
}
