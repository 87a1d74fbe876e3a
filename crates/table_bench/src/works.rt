//! What a clean, a grow and a shrink take.
ghost use Rattle.std.specs.Prelude.{◌≡◌};
ghost use Rattle.intern_log.specs.declared.event.Kind.TheVariants.{Counted};
ghost use Rattle.cht_run.specs.Ends.{HasNothing};
ghost use Rattle.cht_run.specs.Seats.{IsOf};

use crate::names::Name;
use crate::tasks::make;
use cht_run::{Cht, Cleaned, Grown, Seat, Shrunk};
use std::io;
use std::sync::Wait;
use std::time::{Clock, Instant};

/// How many works were done, and what the shortest of each took.
#[derive(Clone, Copy)]
pub struct Worked {
    pub works: u64,
    pub clean: u128,
    pub grow: u128,
    pub shrink: u128,
}

/// Passes of a clean of a table in which these names are dead, a grow and a shrink.
pub fn time_works<R: Wait + Clock>(
    rt: &R,
    cht: &Cht,
    seat: Seat,
    names: &[Name],
    passes: u32,
) -> io::Result<Worked>
    requires of { IsOf cht.now seat }
    requires kind { cht.now.origin.table.kind ≡ Counted }
    requires nothing { HasNothing seat }
{
    let mut seat = seat;
    let mut all = Worked {
        works: 0,
        clean: u128::MAX,
        grow: u128::MAX,
        shrink: u128::MAX,
    };
    for _ in 0..passes {
        let (mut next, _) = make(cht, seat, names);
        let start = Instant::now(rt)?;
        let cleaned = matches!(cht.clean(rt, &mut next), Cleaned::Done(_));
        let clean = start.elapsed(rt)?.as_nanos();
        let start = Instant::now(rt)?;
        let grown = matches!(cht.grow(rt, &mut next), Grown::Done(_));
        let grow = start.elapsed(rt)?.as_nanos();
        let start = Instant::now(rt)?;
        let shrunk = matches!(cht.shrink(rt, &mut next), Shrunk::Done(_));
        let shrink = start.elapsed(rt)?.as_nanos();
        seat = next;
        all = Worked {
            works: all
                .works
                .wrapping_add(u64::from(cleaned && grown && shrunk)),
            clean: all.clean.min(clean),
            grow: all.grow.min(grow),
            shrink: all.shrink.min(shrink),
        };
    }
    Ok(all)
}
