//! Eight threads on a small table. They intern, and let go of holds or kill entries, while they clean, sweep, grow and
//! shrink the table.
//!
//! What they have counted has to agree with what the table has in the end. No log is kept as a program runs, so none can be
//! read here: that the log of such a run is lawful is a clause of `settle`.
ghost use Rattle.std.specs.Prelude.{◌≡◌, true, []};
ghost use Rattle.std.specs.Thread.{IsSync};
ghost use Rattle.intern_log.specs.declared.event.Kind.TheVariants.{Counted, Weak};
ghost use Rattle.intern_log.specs.Lawful.{IsLawful};
ghost use Rattle.intern_log.specs.Own.{is_among};
ghost use Rattle.intern_log.specs.Short.{IsShort};
ghost use Rattle.cht_core.specs.Begins.{IsHeld, IsCreated};
ghost use Rattle.cht_core.specs.Past.{kind_of};
ghost use Rattle.cht_run.specs.Ended.{Keeps, KeepsWork};
ghost use Rattle.cht_run.specs.Ends.{HasNothing, IsAlone, log_in};
ghost use Rattle.cht_run.specs.Seats.{seen, numbers, kids, IsOf};

use super::*;
use crate::change::TryKill;
use crate::front::Front;
use crate::intern_wait::{Interned, InternedWeak};
use crate::retry::Released;
use crate::statistics::Statistics;
use std::marker::PhantomData;
use std::sync::Wait;
use std::thread::Threads;

/// A table with a seat for each thread, which often has no free slot.
static CROWDED: Shape = Shape {
    slots: 16,
    text_words: 1,
    min_level: 1,
    max_level: 3,
    seats: 8,
};

/// How many threads have worked, how many entries they made, and how many of these they saw gone.
#[derive(Clone, Copy, Debug, PartialEq, Eq)]
struct Count {
    threads: u32,
    made: u32,
    gone: u32,
}

impl Count {
    /// What nobody has done.
    const NONE: Count = Count {
        threads: 0,
        made: 0,
        gone: 0,
    };

    /// The sum of two.
    fn plus(self, other: Count) -> Count {
        Count {
            threads: self.threads.wrapping_add(other.threads),
            made: self.made.wrapping_add(other.made),
            gone: self.gone.wrapping_add(other.gone),
        }
    }
}

/// Lets go of a hold: whether the entry is gone then.
fn ends_with_drop<R: Wait>(rt: &R, cht: &Cht, seat: &mut Seat, handle: Handle) -> u32
    requires of { IsOf cht.now seat.old }
    requires counted { cht.now.origin.table.kind ≡ Counted }
    requires held { IsHeld (seen seat.old) (numbers seat.old) handle }
    ensures of { IsOf cht.now seat.new }
    ensures works { KeepsWork seat.old seat.new }
    ensures keeps { Keeps seat.old seat.new }
{
    match cht.drop_ref(rt, seat, handle) {
        Released::Dropped { left: 0 } => 1,
        Released::Dropped { .. } | Released::Permanent => 0,
    }
}

/// Interns a text and lets go of it.
fn hold_once<R: Wait>(rt: &R, cht: &Cht, seat: &mut Seat, text: &[u8]) -> Count
    requires of { IsOf cht.now seat.old }
    requires counted { cht.now.origin.table.kind ≡ Counted }
    requires nothing { HasNothing seat.old }
    ensures of { IsOf cht.now seat.new }
    ensures nothing { HasNothing seat.new }
    ensures keeps { Keeps seat.old seat.new }
{
    match cht.intern(rt, seat, text) {
        Interned::Created(handle) => Count {
            made: 1,
            gone: ends_with_drop(rt, cht, seat, handle),
            ..Count::NONE
        },
        Interned::Taken(handle) => Count {
            gone: ends_with_drop(rt, cht, seat, handle),
            ..Count::NONE
        },
        Interned::TooLong | Interned::NoSlot => Count::NONE,
    }
}

/// Kills an entry at two of three turns: whether it is gone by that.
fn ends_with_kill(cht: &Cht, seat: &mut Seat, turn: u32, handle: Handle) -> u32
    requires of { IsOf cht.now seat.old }
    requires weak { cht.now.origin.table.kind ≡ Weak }
    requires created { IsCreated (seen seat.old) handle }
    ensures of { IsOf cht.now seat.new }
    ensures works { KeepsWork seat.old seat.new }
    ensures keeps { Keeps seat.old seat.new }
{
    if turn % 3 == 0 {
        return 0;
    }
    match cht.try_kill(seat, handle) {
        TryKill::Killed => 1,
        TryKill::Stale => 0,
    }
}

/// Interns a text in a weak table, and may kill its entry.
fn find_once<R: Wait>(rt: &R, cht: &Cht, seat: &mut Seat, turn: u32, text: &[u8]) -> Count
    requires of { IsOf cht.now seat.old }
    requires weak { cht.now.origin.table.kind ≡ Weak }
    requires nothing { HasNothing seat.old }
    ensures of { IsOf cht.now seat.new }
    ensures nothing { HasNothing seat.new }
    ensures keeps { Keeps seat.old seat.new }
{
    match cht.intern_weak(rt, seat, text) {
        InternedWeak::Created(handle) => Count {
            made: 1,
            gone: ends_with_kill(cht, seat, turn, handle),
            ..Count::NONE
        },
        InternedWeak::Found(handle) => Count {
            gone: ends_with_kill(cht, seat, turn, handle),
            ..Count::NONE
        },
        InternedWeak::TooLong | InternedWeak::NoSlot => Count::NONE,
    }
}

/// A text comes, and may go.
fn come_and_go<R: Wait>(rt: &R, cht: &Cht, seat: &mut Seat, turn: u32, text: &[u8]) -> Count
    requires of { IsOf cht.now seat.old }
    requires nothing { HasNothing seat.old }
    ensures of { IsOf cht.now seat.new }
    ensures nothing { HasNothing seat.new }
    ensures keeps { Keeps seat.old seat.new }
{
    match cht.origin.table.kind {
        Kind::Counted => hold_once(rt, cht, seat, text),
        Kind::Weak => find_once(rt, cht, seat, turn, text),
    }
}

/// Cleans, grows, shrinks or sweeps the table at some turns.
fn tend<R: Wait>(rt: &R, cht: &Cht, seat: &mut Seat, turn: u32, text: &[u8])
    requires of { IsOf cht.now seat.old }
    requires nothing { HasNothing seat.old }
    ensures of { IsOf cht.now seat.new }
    ensures nothing { HasNothing seat.new }
    ensures keeps { Keeps seat.old seat.new }
{
    match turn % 20 {
        0 => {
            cht.clean(rt, seat);
        }
        5 => {
            cht.grow(rt, seat);
        }
        10 => {
            cht.sweep(rt, seat, text);
        }
        15 => {
            cht.shrink(rt, seat);
        }
        _ => {}
    }
}

/// One turn of a thread: a text comes and goes, and the table may be tended.
fn take_turn<R: Wait>(rt: &R, cht: &Cht, seat: &mut Seat, turn: u32) -> Count
    requires of { IsOf cht.now seat.old }
    requires nothing { HasNothing seat.old }
    ensures of { IsOf cht.now seat.new }
    ensures nothing { HasNothing seat.new }
    ensures keeps { Keeps seat.old seat.new }
{
    let text = [b'a' + (turn % 12) as u8];
    let count = come_and_go(rt, cht, seat, turn, &text);
    tend(rt, cht, seat, turn, &text);
    count
}

/// What one thread does: ten thousand turns, of which the first is by its number.
fn work<R: Wait>(rt: &R, cht: &Cht, mut seat: Seat) -> (Seat, Count)
    requires of { IsOf cht.now seat }
    requires nothing { HasNothing seat }
    ensures of { IsOf cht.now result.0 }
    ensures nothing { HasNothing result.0 }
    ensures keeps { Keeps seat result.0 }
{
    let first = seat.number();
    let mut count = Count {
        threads: 1,
        ..Count::NONE
    };
    for turn in 0..10_000 {
        let more = take_turn(rt, cht, &mut seat, first.wrapping_add(turn));
        count = count.plus(more);
    }
    (seat, count)
}

/// Threads that work on one table: this one, and those that it starts.
trait Crew {
    /// Works in each thread. Each has a seat that the one before has split off and takes back.
    fn work_together<R: Threads + Wait + Sync>(rt: &R, cht: &Cht, seat: Seat) -> (Seat, Count)
        requires shared { IsSync R.row }
        requires of { IsOf cht.now seat }
        requires nothing { HasNothing seat }
        requires no_kids { kids seat ≡ [] }
        ensures of { IsOf cht.now result.0 }
        ensures nothing { HasNothing result.0 }
        ensures number { result.0.number ≡ seat.number }
        ensures no_kids { kids result.0 ≡ [] }
        ensures root { is_among (numbers seat) 0 ≡ true → is_among (numbers result.0) 0 ≡ true };
}

/// One thread.
struct Alone;

impl Crew for Alone {
    fn work_together<R: Threads + Wait + Sync>(rt: &R, cht: &Cht, seat: Seat) -> (Seat, Count) {
        work(rt, cht, seat)
    }
}

/// One thread beside a crew.
struct Beside<C> {
    crew: PhantomData<C>,
}

impl<C: Crew> Crew for Beside<C> {
    fn work_together<R: Threads + Wait + Sync>(rt: &R, cht: &Cht, mut seat: Seat) -> (Seat, Count) {
        let Ok(other) = cht.split(&mut seat) else {
            return (seat, Count::NONE);
        };
        let ((mut seat, mine), (other, theirs)) = std::thread::join(
            rt,
            || work(rt, cht, seat),
            || C::work_together(rt, cht, other),
        );
        cht.join(&mut seat, other);
        (seat, mine.plus(theirs))
    }
}

/// Eight threads.
type Eight = Beside<Beside<Beside<Beside<Beside<Beside<Beside<Alone>>>>>>>;

/// Interns a text: whether its entry was made.
fn is_made<R: Wait>(rt: &R, cht: &Cht, seat: &mut Seat, text: &[u8]) -> bool
    requires of { IsOf cht.now seat.old }
    requires nothing { HasNothing seat.old }
    ensures of { IsOf cht.now seat.new }
    ensures nothing { HasNothing seat.new }
    ensures keeps { Keeps seat.old seat.new }
{
    match cht.origin.table.kind {
        Kind::Counted => matches!(cht.intern(rt, seat, text), Interned::Created(_)),
        Kind::Weak => matches!(cht.intern_weak(rt, seat, text), InternedWeak::Created(_)),
    }
}

/// Interns new texts until no slot is free: how many entries were made.
fn fill<R: Wait>(rt: &R, cht: &Cht, mut seat: Seat) -> (Seat, u32)
    requires of { IsOf cht.now seat }
    requires nothing { HasNothing seat }
    ensures of { IsOf cht.now result.0 }
    ensures nothing { HasNothing result.0 }
    ensures keeps { Keeps seat result.0 }
{
    for number in 0..100 {
        if !is_made(rt, cht, &mut seat, &[b'#', number as u8]) {
            return (seat, number);
        }
    }
    (seat, 100)
}

/// What is found in the end, and what is left of the table.
#[derive(Drop)]
struct Found {
    /// What the statistics were after all threads had ended.
    statistics: Statistics,
    /// How many slots were free after a clean.
    free: u32,
    front: Front,
}

/// Reads the statistics, cleans the table, fills it, and closes it. Its log is lawful.
fn settle<R: Wait>(rt: &R, cht: Cht, mut seat: Seat) -> Found
    requires of { IsOf cht seat }
    requires nothing { HasNothing seat }
    requires alone { IsAlone seat }
    ensures lawful { IsShort (log_in result.front) → IsLawful (kind_of cht.origin.table) (log_in result.front) }
{
    let statistics = cht.statistics(&mut seat);
    cht.clean(rt, &mut seat);
    let (seat, free) = fill(rt, &cht, seat);
    Found {
        statistics,
        free,
        front: cht.close(seat),
    }
}

#[test]
fn eight_threads_hold_texts(rt: HostRuntime) -> Result<(), Fail> {
    let Ok((cht, seat)) = Cht::make(rt.alloc(), Kind::Counted, CROWDED, 0) else {
        panic!(rt; "there is memory for a small table")
    };
    let (seat, count) = Eight::work_together(&rt, &cht, seat);
    assert!(rt; count.threads == 8 && count.made > 0 && count.made == count.gone);
    let Found {
        statistics,
        free,
        front: _front,
    } = settle(&rt, cht, seat);
    assert!(rt; statistics.live == 0 && statistics.references == 0 && statistics.permanent == 0);
    assert!(rt; free == CROWDED.slots);
    Ok(())
}

#[test]
fn eight_threads_kill_entries(rt: HostRuntime) -> Result<(), Fail> {
    let Ok((cht, seat)) = Cht::make(rt.alloc(), Kind::Weak, CROWDED, 0) else {
        panic!(rt; "there is memory for a small table")
    };
    let (seat, count) = Eight::work_together(&rt, &cht, seat);
    assert!(rt; count.threads == 8 && count.made > 0 && count.made >= count.gone);
    let live = count.made - count.gone;
    let Found {
        statistics,
        free,
        front: _front,
    } = settle(&rt, cht, seat);
    assert!(rt; statistics.live == live);
    assert!(rt; free.wrapping_add(live) == CROWDED.slots);
    Ok(())
}
