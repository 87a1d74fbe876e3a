//! Schedules of three seats, drawn by a generator of numbers.
ghost use Rattle.std.specs.Prelude.{◌<◌};

use super::*;
use intern_log::What;

/// A generator of numbers: the next state, and a number below the bound.
fn draw(state: &mut u64, bound: u64) -> u64
    requires positive { 0 < bound }
    ensures below { result < bound }
{
    *state = state
        .wrapping_mul(6_364_136_223_846_793_005)
        .wrapping_add(1_442_695_040_888_963_407);
    (*state >> 33) % bound
}

/// A call of a table, drawn with its text or the handle that a Create of the log has.
fn drawn_call(state: &mut u64, log: &[Event]) -> Call<'static> {
    let texts: [&'static [u8]; 4] = [b"a", b"b", b"c", b""];
    let text = texts[draw(state, 4) as usize];
    let handle = drawn_handle(state, log);
    match draw(state, 18) {
        0 | 1 | 2 => Call::Intern(text),
        3 => Call::InternWait(text),
        4 | 5 => Call::Lookup(text),
        6 => Call::TextOf(handle),
        7 | 8 => Call::Drop(handle),
        9 => Call::Kill(handle),
        10 => Call::Sweep(text),
        11 => Call::BeginClean,
        12 => Call::BeginGrace,
        13 | 14 => Call::BeginGrow,
        15 | 16 => Call::BeginShrink,
        _ => Call::Permanent(handle),
    }
}

/// The handle of an event of the log that has one, or one of slot 0.
fn drawn_handle(state: &mut u64, log: &[Event]) -> Handle {
    let none = Handle {
        slot: 0,
        generation: 0,
    };
    if log.is_empty() {
        return none;
    }
    let from = draw(state, log.len() as u64) as usize;
    for event in log.iter().skip(from) {
        if let What::Create(_, handle) = &event.what {
            return *handle;
        }
    }
    none
}

/// Lets a seat go on: the next step of its call, or the beginning of another one.
fn goes_on(table: &mut State<'static>, seat: u32, state: &mut u64) {
    if table.next_kind(seat).is_some() {
        let _ = table.step(seat);
        return;
    }
    if table.start(seat, Call::PollWork) == Started::Refused
        && table.start(seat, Call::PollGrace) == Started::Refused
    {
        let call = drawn_call(state, table.log());
        let _ = table.start(seat, call);
    }
}

/// A table after a run of so many turns.
fn run_of(alloc: Global, kind: Kind, seed: u64, turns: u32) -> Option<State<'static>> {
    let Ok(mut table) = State::new(alloc, kind, SMALL, 0) else {
        return None;
    };
    let mut state = seed.wrapping_mul(0x9e37_79b9_7f4a_7c15);
    for seat in 0..2 {
        call(&mut table, seat, Call::Split)?;
    }
    for _ in 0..turns {
        let seat = draw(&mut state, 3) as u32;
        goes_on(&mut table, seat, &mut state);
    }
    Some(table)
}

/// How often a log stores a level.
fn levels(log: &[Event]) -> usize {
    log.iter()
        .filter(|event| matches!(event.what, What::Level(_)))
        .count()
}

/// How often the log of a run of so many turns stores a level, if it is lawful.
pub fn levels_of_run(alloc: Global, kind: Kind, seed: u64, turns: u32) -> Option<usize> {
    let table = run_of(alloc, kind, seed, turns)?;
    let log = table.log();
    if is_lawful(alloc, kind, log) && log.len() > 40 {
        return Some(levels(log));
    }
    None
}
