//! A thread that grows and shrinks the table while others call it.
ghost use Rattle.std.specs.Prelude.{◌≡◌};
ghost use Rattle.cht_run.specs.Ends.{HasNothing};
ghost use Rattle.cht_run.specs.Seats.{IsOf};

use crate::callers::{Caller, Passed, call_all, sum};
use crate::line::Line;
use cht_run::{Cht, Grown, Seat, Shrunk};
use std::alloc::Global;
use std::io;
use std::sync::Wait;
use std::thread::{Threads, join};
use std::time::Clock;

/// How many times a table grows and shrinks at most.
const MOST: u32 = 1 << 20;

/// Grows and shrinks the table until all others have done their part: how many of these works were done.
fn resize<R: Wait>(rt: &R, cht: &Cht, seat: Seat, line: &Line) -> u64
    requires of { IsOf cht.now seat }
    requires nothing { HasNothing seat }
{
    let mut seat = seat;
    let mut works = 0u64;
    line.wait();
    for _ in 0..MOST {
        if line.is_last() {
            return works;
        }
        let grown = matches!(cht.grow(rt, &mut seat), Grown::Done(_));
        let shrunk = matches!(cht.shrink(rt, &mut seat), Shrunk::Done(_));
        works = works
            .wrapping_add(u64::from(grown))
            .wrapping_add(u64::from(shrunk));
    }
    works
}

/// Passes of all callers, one after another, while a further thread grows and shrinks: what they have done, the mean time
/// of a pass, and how many works were done.
pub fn time_resized<'a, R: Threads + Wait + Clock + Sync>(
    rt: &R,
    alloc: Global,
    cht: &Cht,
    seat: Seat,
    crew: Vec<Caller<'a>>,
    passes: u32,
) -> io::Result<(Passed, u64)>
    requires of { IsOf cht.now seat }
    requires nothing { HasNothing seat }
{
    let line = Line::make(rt, crew.len() as u64 + 1)?;
    let (crew, works) = join(
        rt,
        || call_all(rt, alloc, crew, &line, 0, passes),
        || resize(rt, cht, seat, &line),
    );
    let crew = crew?;
    let passed = sum(crew.as_slice());
    let passed = Passed {
        nanos: passed.nanos / u128::from(passes.max(1)),
        ..passed
    };
    Ok((passed, works))
}
