//! Running a script: each line by its turn, on a table as plain data.
ghost use Rattle.std.specs.Prelude.{◌≡◌, ◌≢◌, ◌≤◌, ◌<◌, ◌++◌, ◌^◌, IfOk, IfErr, IfSome, IfNone, IsTrue, ◌↔◌, List, Some, None, length};
ghost use Rattle.table_shape.specs.Shape.{IsSound, words_of};
ghost use Rattle.cht_core.specs.declared.state.Started.{Started};
ghost use Rattle.cht_core.specs.Runs.{LeadsTo};
ghost use Rattle.cht_core.specs.State.{CanRehash, StartsAs, opening_of, seat_in};
ghost use Rattle.schedule_sim.specs.PrintedLines.{lines_of};
ghost use Rattle.schedule_sim.specs.Chains.{IsPresent};
ghost use Rattle.schedule_sim.specs.Turns.{Asks, Begins, Calls, Steps, GoesFor, GoesUntil, MakesAnew, ShowsChain, Turns, AllTurn, IsFaultIn, IsNotMet, IsRefused, IsWide, Refuses, Prints, Keeps, Stops, answered, Stands, Opens, Runs, IsFaultOf, a_draw, next_of, table_of};

use crate::chain::{present, texts_of_chain};
use crate::print::{push_answer, push_chain, push_new};
use crate::script::{Asked, Line, Numbered, Script, ScriptFault};
use atomic_step::{Shape, StepKind};
use call_machine::Call;
use cht_core::{MakeFault, Rehashing, Started, State, Stepped};
use intern_log::Handle;
use std::alloc::{AllocError, Global};

/// Why a line is not run to its end.
#[derive(Clone, Copy, Debug, PartialEq, Eq)]
pub(crate) enum LineFault {
    /// The line is at fault when its turn comes.
    AtFault,
    /// There was no memory.
    OutOfMemory,
}

impl From<AllocError> for LineFault {
    ghost use Rattle.std.specs.Prelude.{◌≡◌};
    ghost use Rattle.schedule_sim.specs.declared.run.LineFault.TheVariants.{OutOfMemory};

    ghost from_gives = { λ _ fault. fault ≡ OutOfMemory };

    fn from(_: AllocError) -> Self {
        LineFault::OutOfMemory
    }
}

/// Runs a script, and answers the lines that it prints.
pub fn run_script(alloc: Global, script: &Script) -> Result<Vec<u8>, ScriptFault>
    ensures value { IfOk result (λ text. Runs script.now text.items) }
    ensures fault { IfErr result (IsFaultOf script.now) }
{
    let mut state = opened(alloc, script)?;
    let mut out = Vec::new(alloc);
    let lines = script.lines.as_slice();
    match run_lines(alloc, &mut state, &script.shape, lines, &mut out) {
        Ok(()) => Ok(out),
        Err(fault) => Err(fault),
    }
}

/// Runs lines, each by its turn, and prints what they make.
fn run_lines<'t>(
    alloc: Global,
    state: &mut State<'t>,
    shape: &Shape,
    lines: &'t [Numbered],
    out: &mut Vec<u8>,
) -> Result<(), ScriptFault>
    requires shape { IsSound shape.now }
    requires of { state.old.table.shape ≡ shape.now }
    requires sized { length state.old.words ≡ words_of shape.now }
    requires seats { length state.old.seats ≡ shape.now.seats }
    ensures made { IfOk result (λ _. Prints (λ items. AllTurn lines.now state.old items state.new) out.old.items out.new.items) }
    ensures kept { IfOk result (λ _. Keeps state.old state.new) }
    ensures fault { IfErr result (IsFaultIn lines.now state.old) }
{
    for numbered in lines {
        match run_line(alloc, state, shape, &numbered.line, out) {
            Ok(()) => {}
            Err(LineFault::AtFault) => {
                return Err(ScriptFault::Line {
                    number: numbered.number,
                });
            }
            Err(LineFault::OutOfMemory) => return Err(ScriptFault::OutOfMemory),
        }
    }
    Ok(())
}

/// The table of a script before its first line: seat 0 has drawn all numbers but its own.
fn opened<'t>(alloc: Global, script: &Script) -> Result<State<'t>, ScriptFault>
    ensures opens { IfOk result (λ state. Opens script.now state) }
    ensures stands { IfOk result (λ state. Stands script.now state) }
    ensures fault { IfErr result (λ fault. fault ≡ ScriptFault.OutOfMemory) }
{
    let mut state = made(alloc, script)?;
    for _ in 1..script.shape.seats {
        draw_number(&mut state)?;
    }
    Ok(state)
}

/// The table of a script as it is made. There is such a table, so a fault is want of memory.
fn made<'t>(alloc: Global, script: &Script) -> Result<State<'t>, ScriptFault>
    ensures made { IfOk result (λ state. state ≡ opening_of (table_of script.now)) }
    ensures fault { IfErr result (λ fault. fault ≡ ScriptFault.OutOfMemory) }
{
    match State::new(alloc, script.kind, script.shape, script.first_counter) {
        Ok(state) => Ok(state),
        Err(MakeFault::Shape(_)) => unreachable!(),
        Err(MakeFault::BadCounter { .. }) => unreachable!(),
        Err(MakeFault::OutOfMemory) => Err(ScriptFault::OutOfMemory),
    }
}

/// Draws one number by seat 0: its call and the two steps of it.
fn draw_number(state: &mut State<'_>) -> Result<(), ScriptFault>
    ensures leads { IfOk result (λ _. LeadsTo state.old a_draw state.new) }
    ensures fault { IfErr result (λ fault. fault ≡ ScriptFault.OutOfMemory) }
{
    let _ = state.start(0, Call::Split);
    let Ok(_) = state.step(0) else {
        return Err(ScriptFault::OutOfMemory);
    };
    let Ok(_) = state.step(0) else {
        return Err(ScriptFault::OutOfMemory);
    };
    Ok(())
}

/// Runs a line by its turn, and prints what it makes.
fn run_line<'t>(
    alloc: Global,
    state: &mut State<'t>,
    shape: &Shape,
    line: &'t Line,
    out: &mut Vec<u8>,
) -> Result<(), LineFault>
    requires shape { IsSound shape.now }
    requires of { state.old.table.shape ≡ shape.now }
    requires sized { length state.old.words ≡ words_of shape.now }
    requires seats { length state.old.seats ≡ shape.now.seats }
    ensures made { IfOk result (λ _. Prints (λ items. Turns line.now state.old items state.new) out.old.items out.new.items) }
    ensures kept { IfOk result (λ _. Keeps state.old state.new) }
    ensures fault { IfErr result (Refuses line.now state.old) }
{
    match line {
        Line::Call { seat, asked } => begin_asked(alloc, state, shape, *seat, asked, out),
        Line::Step { seat, steps } => make_steps(alloc, state, *seat, *steps, out),
        Line::Until { seat, kind } => go_on(alloc, state, *seat, Some(*kind), out),
        Line::Run { seat } => go_on(alloc, state, *seat, None, out),
        Line::Chain { row, bucket } => { show_chain(alloc, state, shape, *row, *bucket, out) }
        Line::Rehash => make_anew(alloc, state, out),
    }
}

/// The number of a seat. One above 32 bits is of no table.
fn seat_of(seat: u64) -> Result<u32, LineFault>
    ensures value { IfOk result (λ number. number ≡ seat) }
    ensures fault { IfErr result (λ fault. 2 ^ 32 ≤ seat) }
{
    match u32::try_from(seat) {
        Ok(seat) => Ok(seat),
        Err(_) => Err(LineFault::AtFault),
    }
}

/// The call that a line begins.
fn call_of<'t>(asked: &'t Asked) -> Result<Call<'t>, LineFault>
    ensures asks { IfOk result (λ call. Asks asked.now call) }
    ensures fault { IfErr result (λ fault. IsWide asked.now) }
{
    match asked {
        Asked::Intern(text) => Ok(Call::Intern(text.as_slice())),
        Asked::Lookup(text) => Ok(Call::Lookup(text.as_slice())),
        Asked::Drop { slot, generation } => Ok(Call::Drop(handle_of(*slot, *generation)?)),
        Asked::Permanent { slot, generation } => {
            Ok(Call::Permanent(handle_of(*slot, *generation)?))
        }
        Asked::Kill { slot, generation } => Ok(Call::Kill(handle_of(*slot, *generation)?)),
        Asked::Clean => Ok(Call::BeginClean),
        Asked::Grow => Ok(Call::BeginGrow),
        Asked::Shrink => Ok(Call::BeginShrink),
        Asked::Poll => Ok(Call::PollWork),
    }
}

/// A handle. One whose slot is above 32 bits is of no table.
fn handle_of(slot: u64, generation: u64) -> Result<Handle, LineFault>
    ensures value { IfOk result (λ handle. handle ≡ record { slot = slot; generation = generation }) }
    ensures fault { IfErr result (λ fault. 2 ^ 32 ≤ slot) }
{
    match u32::try_from(slot) {
        Ok(slot) => Ok(Handle { slot, generation }),
        Err(_) => Err(LineFault::AtFault),
    }
}

/// Begins the call that a line asks for.
fn begin_asked<'t>(
    alloc: Global,
    state: &mut State<'t>,
    shape: &Shape,
    seat: u64,
    asked: &'t Asked,
    out: &mut Vec<u8>,
) -> Result<(), LineFault>
    requires shape { IsSound shape.now }
    requires of { state.old.table.shape ≡ shape.now }
    requires seats { length state.old.seats ≡ shape.now.seats }
    ensures made { IfOk result (λ _. Prints (λ items. Calls seat asked.now state.old items state.new) out.old.items out.new.items) }
    ensures kept { IfOk result (λ _. Keeps state.old state.new) }
    ensures fault { IfErr result (λ fault. fault ≡ LineFault.AtFault → IsNotMet state.old asked.now (seat_in state.old.seats seat)) }
{
    let Ok(seat) = seat_of(seat) else {
        return Err(LineFault::AtFault);
    };
    let Ok(call) = call_of(asked) else {
        return Err(LineFault::AtFault);
    };
    begin(alloc, state, seat, call, out)
}

/// Begins a call of a seat, and prints its answer if it needs no step.
fn begin<'t>(
    alloc: Global,
    state: &mut State<'t>,
    seat: u32,
    call: Call<'t>,
    out: &mut Vec<u8>,
) -> Result<(), LineFault>
    ensures made { IfOk result (λ _. Prints (λ items. (said : Started) × StartsAs state.old seat call.entry (seat_in state.old.seats seat) said state.new × Begins seat said items) out.old.items out.new.items) }
    ensures kept { IfOk result (λ _. Keeps state.old state.new) }
    ensures fault { IfErr result (λ fault. fault ≡ LineFault.AtFault → IsRefused state.old call.entry (seat_in state.old.seats seat)) }
{
    match state.start(seat, call) {
        Started::Started => Ok(()),
        Started::Answered(answer) => {
            push_answer(alloc, out, seat, answer)?;
            Ok(())
        }
        _ => Err(LineFault::AtFault),
    }
}

/// Makes the next step of a seat's call, and prints its event and its answer.
fn step_once(
    alloc: Global,
    state: &mut State<'_>,
    seat: u32,
    out: &mut Vec<u8>,
) -> Result<(), LineFault>
    ensures made { IfOk result (λ _. Prints (λ items. Steps state.old seat state.new items) out.old.items out.new.items) }
    ensures kept { IfOk result (λ _. Keeps state.old state.new) }
    ensures fault { IfErr result (λ fault. fault ≡ LineFault.OutOfMemory) }
{
    let before = state.log().len();
    let Ok(stepped) = state.step(seat) else {
        return Err(LineFault::OutOfMemory);
    };
    push_new(alloc, out, state.log(), before)?;
    push_stepped(alloc, out, seat, stepped)?;
    Ok(())
}

/// Prints the answer of a step that was the last of its call.
fn push_stepped(
    alloc: Global,
    out: &mut Vec<u8>,
    seat: u32,
    stepped: Stepped,
) -> Result<(), AllocError>
    ensures text { IfOk result (λ _. out.new.items ≡ out.old.items ++ lines_of (answered seat stepped)) }
{
    match stepped {
        Stepped::Answered(answer) => push_answer(alloc, out, seat, answer),
        Stepped::Moved => Ok(()),
        Stepped::Idle => Ok(()),
    }
}

/// The number of a seat whose call is running.
fn running(state: &State<'_>, seat: u64) -> Option<u32>
    requires seats { length state.now.seats < 2 ^ 32 }
    ensures running { IfSome result (λ number. (number ≡ seat) × (next_of state.now seat ≢ None)) }
    ensures none { IfNone result (next_of state.now seat ≡ None) }
{
    let Ok(number) = seat_of(seat) else {
        return None;
    };
    match state.next_kind(number) {
        None => None,
        Some(_) => Some(number),
    }
}

/// Whether the seat's call stops: it does not run, or its next step is of the kind.
fn stops(state: &State<'_>, number: u32, until: Option<StepKind>) -> bool
    ensures exact { IsTrue result ↔ Stops until (next_of state.now number) }
{
    match state.next_kind(number) {
        None => true,
        Some(kind) => until == Some(kind),
    }
}

/// Makes so many steps of a seat's call, or as many as it needs to answer.
fn make_steps(
    alloc: Global,
    state: &mut State<'_>,
    seat: u64,
    steps: u32,
    out: &mut Vec<u8>,
) -> Result<(), LineFault>
    requires seats { length state.old.seats < 2 ^ 32 }
    ensures made { IfOk result (λ _. Prints (λ items. GoesFor steps seat state.old items state.new) out.old.items out.new.items) }
    ensures kept { IfOk result (λ _. Keeps state.old state.new) }
    ensures fault { IfErr result (λ fault. fault ≡ LineFault.AtFault → next_of state.old seat ≡ None) }
{
    let Some(number) = running(state, seat) else {
        return Err(LineFault::AtFault);
    };
    for _ in 0..steps {
        if stops(state, number, None) {
            return Ok(());
        }
        step_once(alloc, state, number, out)?;
    }
    Ok(())
}

/// Makes steps of a seat's call until the next one is of the kind, or until it answers. No call makes 2^64 - 1 steps.
fn go_on(
    alloc: Global,
    state: &mut State<'_>,
    seat: u64,
    until: Option<StepKind>,
    out: &mut Vec<u8>,
) -> Result<(), LineFault>
    requires seats { length state.old.seats < 2 ^ 32 }
    ensures made { IfOk result (λ _. Prints (λ items. GoesUntil until seat state.old items state.new) out.old.items out.new.items) }
    ensures kept { IfOk result (λ _. Keeps state.old state.new) }
    ensures fault { IfErr result (λ fault. fault ≡ LineFault.AtFault → next_of state.old seat ≡ None) }
{
    let Some(number) = running(state, seat) else {
        return Err(LineFault::AtFault);
    };
    for _ in 0..u64::MAX {
        if stops(state, number, until) {
            return Ok(());
        }
        step_once(alloc, state, number, out)?;
    }
    Err(LineFault::OutOfMemory)
}

/// Prints the texts of a chain of the present level's row.
fn show_chain(
    alloc: Global,
    state: &State<'_>,
    shape: &Shape,
    row: u64,
    bucket: u64,
    out: &mut Vec<u8>,
) -> Result<(), LineFault>
    requires shape { IsSound shape.now }
    requires of { state.now.table.shape ≡ shape.now }
    requires sized { length state.now.words ≡ words_of shape.now }
    ensures made { IfOk result (λ _. Prints (λ items. ShowsChain row bucket state.now items state.now) out.old.items out.new.items) }
    ensures fault { IfErr result (λ fault. fault ≡ LineFault.AtFault → ¬ (IsPresent state.now.table.shape state.now.words row bucket)) }
{
    let words = state.words();
    let Some(found) = present(words, shape, row, bucket) else {
        return Err(LineFault::AtFault);
    };
    let Some(texts) = texts_of_chain(alloc, words, shape, found.0, found.1)? else {
        return Err(LineFault::OutOfMemory);
    };
    push_chain(alloc, out, row, bucket, texts.as_slice())?;
    Ok(())
}

/// Makes the table anew by the next seed, and prints that.
fn make_anew(alloc: Global, state: &mut State<'_>, out: &mut Vec<u8>) -> Result<(), LineFault>
    ensures made { IfOk result (λ _. Prints (λ items. MakesAnew state.old items state.new) out.old.items out.new.items) }
    ensures kept { IfOk result (λ _. Keeps state.old state.new) }
    ensures fault { IfErr result (λ fault. fault ≡ LineFault.AtFault → ¬ (CanRehash state.old)) }
{
    let before = state.log().len();
    match state.rehash() {
        Rehashing::Done => {
            push_new(alloc, out, state.log(), before)?;
            Ok(())
        }
        Rehashing::Refused => Err(LineFault::AtFault),
        Rehashing::OutOfMemory => Err(LineFault::OutOfMemory),
    }
}
