//! What the log of a closed table has of what two seats did.
ghost use Rattle.std.specs.Prelude.{◌≡◌, ◌+◌, ◌*◌, ◌≤◌, ◌++◌, true};
ghost use Rattle.chain_core.specs.Path.{without};
ghost use Rattle.intern_log.specs.declared.event.Kind.TheVariants.{Counted};
ghost use Rattle.intern_log.specs.Counts.{events_in, is_create, is_take, is_drop};
ghost use Rattle.intern_log.specs.Own.{is_among, mine};
ghost use Rattle.cht_run.specs.Ended.{Keeps};
ghost use Rattle.cht_run.specs.Ends.{HasNothing, IsAlone, log_in};
ghost use Rattle.cht_run.specs.Seats.{seen, numbers, kids, IsOf};

use super::*;
use crate::front::Front;
use crate::intern_wait::Interned;
use crate::statistics::Statistics;
use std::sync::Wait;

/// A table with a slot for each entry that may be made. None is freed.
static LONG: Shape = Shape { slots: 512, ..WIDE };

/// A seat, and how often it has interned a text and let go of it: it was given that many holds, and has dropped as many.
#[derive(Drop)]
struct Worker {
    seat: Seat,
    times: u32,
    ghost given: { events_in is_create (mine (seen seat) (numbers seat)) + events_in is_take (mine (seen seat) (numbers seat)) ≡ times },
    ghost dropped: { events_in is_drop (mine (seen seat) (numbers seat)) ≡ times },
}

/// Interns a text and lets go of it, where a slot is free.
fn comes_and_goes<R: Wait>(rt: &R, cht: &Cht, worker: Worker, text: &[u8]) -> Worker
    requires of { IsOf cht.now worker.seat }
    requires counted { cht.now.origin.table.kind ≡ Counted }
    requires nothing { HasNothing worker.seat }
    requires few { worker.times ≤ 1000 }
    ensures of { IsOf cht.now result.seat }
    ensures nothing { HasNothing result.seat }
    ensures keeps { Keeps worker.seat result.seat }
    ensures times { result.times ≤ worker.times + 1 }
{
    let Worker { mut seat, times } = worker;
    match cht.intern(rt, &mut seat, text) {
        Interned::Created(handle) | Interned::Taken(handle) => {
            cht.drop_ref(rt, &mut seat, handle);
            Worker {
                seat,
                times: times + 1,
            }
        }
        Interned::TooLong | Interned::NoSlot => Worker { seat, times },
    }
}

/// Two texts come and go a hundred times.
fn come_and_go<R: Wait>(rt: &R, cht: &Cht, mut worker: Worker) -> Worker
    requires of { IsOf cht.now worker.seat }
    requires counted { cht.now.origin.table.kind ≡ Counted }
    requires nothing { HasNothing worker.seat }
    requires new { worker.times ≡ 0 }
    ensures of { IsOf cht.now result.seat }
    ensures nothing { HasNothing result.seat }
    ensures keeps { Keeps worker.seat result.seat }
    ensures times { result.times ≤ 200 }
{
    for _ in 0..100u32 {
        let after = comes_and_goes(rt, cht, worker, b"a");
        worker = comes_and_goes(rt, cht, after, b"b");
    }
    worker
}

/// Takes a seat back that has worked.
fn take_back(cht: &Cht, worker: Worker, other: Worker) -> Worker
    requires of { IsOf cht.now worker.seat × IsOf cht.now other.seat }
    requires kid { is_among (kids worker.seat) other.seat.number ≡ true }
    requires nothing { HasNothing worker.seat × HasNothing other.seat }
    requires few { (worker.times ≤ 1000) × (other.times ≤ 1000) }
    ensures of { IsOf cht.now result.seat }
    ensures nothing { HasNothing result.seat }
    ensures numbers { numbers result.seat ≡ numbers other.seat ++ numbers worker.seat }
    ensures kids { kids result.seat ≡ without other.seat.number (kids worker.seat) ++ kids other.seat }
    ensures times { result.times ≡ worker.times + other.times }
{
    let Worker { mut seat, times } = worker;
    let Worker {
        seat: second,
        times: more,
    } = other;
    cht.join(&mut seat, second);
    Worker {
        seat,
        times: times + more,
    }
}

/// Closes the table: what its statistics were, and what is left of it. Its log has as many Creates and Takes together,
/// and as many Drops, as is told.
fn close_after(cht: Cht, worker: Worker) -> (Statistics, Front, u32)
    requires of { IsOf cht worker.seat }
    requires nothing { HasNothing worker.seat }
    requires alone { IsAlone worker.seat }
    ensures given { events_in is_create (log_in result.1) + events_in is_take (log_in result.1) ≡ result.2 }
    ensures dropped { events_in is_drop (log_in result.1) ≡ result.2 }
    ensures times { result.2 ≡ worker.times }
{
    let Worker { mut seat, times } = worker;
    let statistics = cht.statistics(&mut seat);
    (statistics, cht.close(seat), times)
}

#[test]
fn a_log_has_each_hold_and_each_drop(rt: HostRuntime) -> Result<(), Fail> {
    let Ok((cht, mut seat)) = Cht::make(rt.alloc(), Kind::Counted, LONG, 0) else {
        panic!(rt; "there is memory for a table")
    };
    let Ok(other) = cht.split(&mut seat) else {
        panic!(rt; "a number is left")
    };
    let (first, second) = (
        Worker { seat, times: 0 },
        Worker {
            seat: other,
            times: 0,
        },
    );
    let (first, second) = std::thread::join(
        &rt,
        || come_and_go(&rt, &cht, first),
        || come_and_go(&rt, &cht, second),
    );
    let both = take_back(&cht, first, second);
    let (statistics, _front, times) = close_after(cht, both);
    assert!(rt; times == 400);
    assert!(rt; statistics.live == 0 && statistics.references == 0);
    Ok(())
}
