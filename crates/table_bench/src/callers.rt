//! Threads that do a task at the same time.
ghost use Rattle.std.specs.Prelude.{◌≡◌};
ghost use Rattle.cht_run.specs.Ends.{HasNothing};
ghost use Rattle.cht_run.specs.Seats.{IsOf};
ghost use Rattle.table_bench.specs.Tasks.{kind_of};

use crate::line::Line;
use crate::names::Name;
use crate::tasks::{STRETCH, Tally, Task, passes};
use cht_run::{Cht, Seat};
use std::alloc::Global;
use std::io;
use std::sync::Wait;
use std::thread::{Threads, map_vec};
use std::time::Clock;

/// What one thread has and does, and what came of it.
#[derive(Drop)]
pub struct Caller<'a> {
    cht: &'a Cht,
    seat: Seat,
    task: Task,
    names: &'a [Name],
    tally: Tally,
    start: u128,
    end: u128,
    ghost of: { IsOf cht.now seat },
    ghost kind: { cht.now.origin.table.kind ≡ kind_of task },
    ghost nothing: { HasNothing seat },
}

/// What came of all passes of all threads, and the time of one.
#[derive(Clone, Copy)]
pub struct Passed {
    pub tally: Tally,
    pub nanos: u128,
}

impl<'a> Caller<'a> {
    /// A thread that has done nothing yet.
    pub fn new(cht: &'a Cht, seat: Seat, task: Task, names: &'a [Name]) -> Caller<'a>
        requires of { IsOf cht.now seat }
        requires kind { cht.now.origin.table.kind ≡ kind_of task }
        requires nothing { HasNothing seat }
    {
        Caller {
            cht,
            seat,
            task,
            names,
            tally: Tally::new(),
            start: 0,
            end: 0,
        }
    }

    /// Starts with the others, and makes its passes from one number up to another. Where the others have not come, it has
    /// no end.
    fn call<R: Clock>(self, rt: &R, line: &Line, from: u32, to: u32) -> io::Result<Caller<'a>> {
        let Caller {
            cht,
            seat,
            task,
            names,
            tally,
            ..
        } = self;
        let together = line.wait();
        let start = line.nanos(rt)?;
        let (seat, more) = passes(task, cht, seat, names, from, to);
        let end = line.nanos(rt)?;
        line.leave();
        Ok(Caller {
            cht,
            seat,
            task,
            names,
            tally: tally.plus(more),
            start,
            end: if together { end } else { u128::MAX },
        })
    }

    /// Cleans the table, where the pass of this number was the last one over the names and has left dead entries.
    fn tidy<R: Wait>(self, rt: &R, pass: u32) -> Caller<'a> {
        let rounds = (self.names.len() / STRETCH).max(1);
        if self.task != Task::Make || (pass as usize + 1) % rounds != 0 {
            return self;
        }
        let Caller {
            cht,
            mut seat,
            task,
            names,
            tally,
            start,
            end,
        } = self;
        cht.clean(rt, &mut seat);
        Caller {
            cht,
            seat,
            task,
            names,
            tally,
            start,
            end,
        }
    }
}

/// All callers make their passes at the same time, each in a thread of its own.
pub fn call_all<'a, R: Threads + Clock + Sync>(
    rt: &R,
    alloc: Global,
    crew: Vec<Caller<'a>>,
    line: &Line,
    from: u32,
    to: u32,
) -> io::Result<Vec<Caller<'a>>> {
    let called = map_vec(rt, crew, &|caller| caller.call(rt, line, from, to))?;
    let mut crew = Vec::new(alloc);
    for caller in called {
        crew.push(caller?)?;
    }
    Ok(crew)
}

/// What they have done, and the time from the first start of the last passes to the last end.
pub fn sum(crew: &[Caller<'_>]) -> Passed {
    let mut tally = Tally::new();
    let mut start = u128::MAX;
    let mut end = 0u128;
    for caller in crew {
        tally = tally.plus(caller.tally);
        start = start.min(caller.start);
        end = end.max(caller.end);
    }
    Passed {
        tally,
        nanos: end.saturating_sub(start),
    }
}

/// Passes of all callers: what they have done, and the shortest time of a pass.
pub fn time_passes<'a, R: Threads + Wait + Clock + Sync>(
    rt: &R,
    alloc: Global,
    crew: Vec<Caller<'a>>,
    passes: u32,
) -> io::Result<Passed> {
    let mut crew = crew;
    let mut least = u128::MAX;
    for pass in 0..passes {
        let line = Line::make(rt, crew.len() as u64)?;
        crew = call_all(rt, alloc, crew, &line, pass, pass + 1)?;
        least = least.min(sum(crew.as_slice()).nanos);
        if let Some(first) = crew.pop() {
            crew.push(first.tidy(rt, pass))?;
        }
    }
    Ok(Passed {
        nanos: least,
        ..sum(crew.as_slice())
    })
}
