//! Times the calls of a running table. It is run by `bench/run table`.
//!
//! Usage: table_bench TASK NAMES LEVEL MOST SEATS THREADS PASSES [timed | resized]
//!
//! TASK is one of those of `Task::named`, or `works`. The table has NAMES live names, and LEVEL is its least level. Each of
//! THREADS threads does the task with a stretch of its names in each of PASSES passes. They start each pass together, and its
//! time is that from the first start to the last end. Where they are `resized`, a further thread grows and shrinks the table
//! all the time, and the passes follow one another.
#![tactic(auto)]

ghost use Rattle.std.specs.Prelude.{◌≡◌};
ghost use Rattle.cht_run.specs.Ends.{HasNothing};
ghost use Rattle.cht_run.specs.Seats.{IsOf};
ghost use Rattle.table_bench.specs.Tasks.{kind_of};

mod callers;
mod line;
mod names;
mod resizes;
mod tasks;
mod works;

use atomic_step::Shape;
use callers::{Caller, Passed, time_passes};
use cht_run::{Cht, Seat};
use intern_log::Kind;
use names::{Name, names};
use resizes::time_resized;
use std::alloc::Global;
use std::process::ExitCode;
use std::rt::Runtime;
use std::sync::Wait;
use std::thread::Threads;
use std::{env, io};
use tasks::{STRETCH, Task, fill, fill_counted};
use works::time_works;

/// The words behind the program's own name.
fn words(rt: &HostRuntime) -> io::Result<Vec<String>> {
    let mut words = Vec::new(rt.alloc());
    for word in env::args(rt)?.skip(1) {
        words.push(word)?;
    }
    Ok(words)
}

/// The number at a place of the words.
fn number(words: &[String], at: usize) -> Option<u32> {
    words.get(at)?.as_str().parse::<u32>().ok()
}

/// What is asked.
#[derive(Clone, Copy)]
struct Asked {
    names: u32,
    shape: Shape,
    threads: u32,
    passes: u32,
    resized: bool,
}

/// What was measured: the names that the table was filled with, what the threads did, the time of a pass, and how often
/// the table grew or shrank meanwhile.
#[derive(Clone, Copy)]
struct Measured {
    filled: u64,
    passed: Passed,
    works: u64,
}

/// What the words ask for.
fn wanted(words: &[String]) -> Option<Asked> {
    let names = number(words, 1)?;
    Some(Asked {
        names,
        shape: Shape {
            slots: names.saturating_mul(3),
            text_words: 2,
            min_level: u8::try_from(number(words, 2)?).ok()?,
            max_level: u8::try_from(number(words, 3)?).ok()?,
            seats: number(words, 4)?,
        },
        threads: number(words, 5)?,
        passes: number(words, 6)?,
        resized: words.get(7).is_some_and(|word| word.as_str() == "resized"),
    })
}

/// How many names a thread has.
fn share(task: Task, asked: Asked) -> u64 {
    let names = u64::from(asked.names);
    if task == Task::Make { names / 4 } else { names }
}

/// The names of each thread. All have the same ones, each in an order of its own, or all have others where they are fresh.
fn lists(alloc: Global, task: Task, asked: Asked) -> io::Result<Vec<Vec<Name>>> {
    let count = share(task, asked);
    let mut lists = Vec::new(alloc);
    for at in 0..asked.threads {
        let at = u64::from(at);
        let first = if task.is_fresh() {
            at.wrapping_mul(count).wrapping_add(u64::from(asked.names))
        } else {
            0
        };
        let jumps = at.wrapping_mul(2).wrapping_add(0x6d2b_79f5);
        lists.push(names(alloc, first, count, jumps)?)?;
    }
    Ok(lists)
}

/// A caller for each list of names, the first with this seat, and the others with seats that are split off.
fn crew<'a>(
    alloc: Global,
    cht: &'a Cht,
    task: Task,
    seat: Seat,
    lists: &'a [Vec<Name>],
) -> io::Result<Option<Vec<Caller<'a>>>>
    requires of { IsOf cht.now seat }
    requires kind { cht.now.origin.table.kind ≡ kind_of task }
    requires nothing { HasNothing seat }
{
    let Some((own, others)) = lists.split_first() else {
        return Ok(None);
    };
    let mut seat = seat;
    let mut crew = Vec::new(alloc);
    for list in others {
        let Ok(other) = cht.split(&mut seat) else {
            return Ok(None);
        };
        crew.push(Caller::new(cht, other, task, list.as_slice()))?;
    }
    crew.push(Caller::new(cht, seat, task, own.as_slice()))?;
    Ok(Some(crew))
}

/// The passes of threads at a table that stays as large as it is.
fn steady<R: Threads + Wait + Runtime + Sync>(
    rt: &R,
    alloc: Global,
    cht: &Cht,
    task: Task,
    seat: Seat,
    lists: &[Vec<Name>],
    passes: u32,
) -> io::Result<Option<(Passed, u64)>>
    requires of { IsOf cht.now seat }
    requires kind { cht.now.origin.table.kind ≡ kind_of task }
    requires nothing { HasNothing seat }
{
    let Some(crew) = crew(alloc, cht, task, seat, lists)? else {
        return Ok(None);
    };
    Ok(Some((time_passes(rt, alloc, crew, passes)?, 0)))
}

/// The passes of threads while a further one grows and shrinks the table.
fn resized<R: Threads + Wait + Runtime + Sync>(
    rt: &R,
    alloc: Global,
    cht: &Cht,
    task: Task,
    seat: Seat,
    lists: &[Vec<Name>],
    passes: u32,
) -> io::Result<Option<(Passed, u64)>>
    requires of { IsOf cht.now seat }
    requires kind { cht.now.origin.table.kind ≡ kind_of task }
    requires nothing { HasNothing seat }
{
    let mut seat = seat;
    let Ok(other) = cht.split(&mut seat) else {
        return Ok(None);
    };
    let Some(crew) = crew(alloc, cht, task, seat, lists)? else {
        return Ok(None);
    };
    Ok(Some(time_resized(rt, alloc, cht, other, crew, passes)?))
}

/// Fills a table, and has the threads do the task.
fn measure<R: Threads + Wait + Runtime + Sync>(
    rt: &R,
    alloc: Global,
    task: Task,
    asked: Asked,
) -> io::Result<Option<Measured>> {
    let lists = lists(alloc, task, asked)?;
    let live = names(alloc, 0, u64::from(asked.names), 1)?;
    let Ok((cht, seat)) = Cht::make(alloc, task.kind(), asked.shape, 0) else {
        return Ok(None);
    };
    let (seat, filled) = fill(task, &cht, seat, live.as_slice());
    let timed = if asked.resized {
        resized(rt, alloc, &cht, task, seat, lists.as_slice(), asked.passes)?
    } else {
        steady(rt, alloc, &cht, task, seat, lists.as_slice(), asked.passes)?
    };
    Ok(timed.map(|(passed, works)| Measured {
        filled,
        passed,
        works,
    }))
}

/// Times cleans, grows and shrinks, and prints what came of it; whether it did.
fn run_works<R: Runtime + Wait>(rt: &R, alloc: Global, asked: Asked) -> io::Result<bool> {
    let Ok((cht, seat)) = Cht::make(alloc, Kind::Counted, asked.shape, 0) else {
        return Ok(false);
    };
    let count = u64::from(asked.names);
    let live = names(alloc, 0, count, 1)?;
    let dead = names(alloc, count, count / 4, 1)?;
    let (seat, _) = fill_counted(&cht, seat, live.as_slice());
    let done = time_works(rt, &cht, seat, dead.as_slice(), asked.passes)?;
    println!(rt; "works={}", done.works)?;
    println!(rt;
        "clean={} grow={} shrink={}",
        done.clean, done.grow, done.shrink
    )?;
    Ok(true)
}

/// Measures what the words ask for, and prints what came of it; whether it did.
fn run<R: Threads + Wait + Runtime + Sync>(
    rt: &R,
    alloc: Global,
    words: &[String],
) -> io::Result<bool> {
    let Some(asked) = wanted(words) else {
        return Ok(false);
    };
    let Some(word) = words.first() else {
        return Ok(false);
    };
    if word.as_str() == "works" {
        return run_works(rt, alloc, asked);
    }
    let Some(task) = Task::named(word.as_str()) else {
        return Ok(false);
    };
    let Some(
        Measured {
            filled,
            passed,
            works,
        },
    ) = measure(rt, alloc, task, asked)?
    else {
        return Ok(false);
    };
    println!(rt; "filled={filled} met={}", passed.tally.met)?;
    if words.len() > 7 {
        println!(rt;
            "nanos={} names={} lost={} works={works}",
            passed.nanos,
            share(task, asked).min(STRETCH as u64),
            passed.tally.lost
        )?;
    }
    Ok(true)
}

fn main(rt: HostRuntime) -> ExitCode {
    let Ok(words) = words(&rt) else {
        return ExitCode::from(1);
    };
    match run(&rt, rt.alloc(), words.as_slice()) {
        Ok(true) => ExitCode::from(0),
        Ok(false) | Err(_) => ExitCode::from(1),
    }
}
