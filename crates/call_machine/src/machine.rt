//! The machine of any call of a table.
ghost use Rattle.std.specs.Prelude.{◌≡◌, ◌↔◌, ◌<◌, IsTrue, IfSome, MatchResult, List, []};
ghost use Rattle.table_shape.specs.Shape.{IsSound};
ghost use Rattle.atomic_step.specs.declared.plan.Plan.TheVariants as plan;
ghost use Rattle.atomic_step.specs.Event.{NamesItsText};
ghost use Rattle.atomic_step.specs.SoundStep.{IsSoundPlan};
ghost use Rattle.atomic_step.specs.Turn.{want_of, event_by};
ghost use Rattle.call_machine.specs.Caller.{IsSoundCaller};
ghost use Rattle.call_machine.specs.Machine as machines;
ghost use Rattle.call_machine.specs.SoundMachine.{IsInsideOwn, IsSoundOwn, IsAllowed, HasHandle, MayStart, FitsMachine, IsSoundMachine};
ghost use Rattle.call_machine.specs.SoundCall.{IsHandle};

use crate::begin::{BeginMachine, Left, Task};
use crate::call::Call;
use crate::caller::Caller;
use crate::calls::CallMachine;
use crate::grace::Grace;
use crate::poll::PollMachine;
use crate::stage::Goal;
use crate::sweep::SweepMachine;
use crate::work::Work;
use atomic_step::{Answer, Change, Plan, Shape, Want};
use intern_log::{Handle, Kind, What};
use std::alloc::{AllocError, Global};
use text_words::hash_of;

/// What a seat has of its own beside what it has seen.
#[derive(Debug, Drop)]
pub struct Own {
    /// Its number.
    pub number: u32,
    /// The slot from which it looks for a free one.
    pub cursor: u32,
    /// Its unfinished work, if any.
    pub work: Option<Work>,
    /// Its unfinished grace, if any.
    pub grace: Option<Grace>,
}

/// A call of a table on its way. The unfinished work and grace of a seat stand beside its try calls,
/// which leave them as they are.
#[derive(Drop)]
pub enum Machine<'t> {
    Call {
        call: CallMachine<'t>,
        work: Option<Work>,
        grace: Option<Grace>,
    },
    Begin {
        begin: BeginMachine,
    },
    Poll {
        poll: PollMachine,
    },
    Sweep {
        sweep: SweepMachine,
    },
}

/// Whether a handle is of a slot of the table, with a generation that a count word can have.
fn is_handle(shape: &Shape, handle: Handle) -> bool
    ensures exact { IsTrue result ↔ IsHandle shape.now handle }
{
    handle.slot < shape.slots && handle.generation < 1 << 48
}

/// Whether the handle of a call, if it has one, is one that the table can have.
pub fn has_handle(shape: &Shape, call: Call<'_>) -> bool
    ensures exact { IsTrue result ↔ HasHandle shape.now call.entry }
{
    match call {
        Call::TextOf(handle) | Call::Drop(handle) | Call::Permanent(handle) | Call::Kill(handle) =>
            { is_handle(shape, handle) }
        _ => true,
    }
}

/// Whether a call is made in a table of this kind, by a seat that has a work or a grace unfinished or none.
pub fn is_allowed(kind: Kind, work: bool, grace: bool, call: Call<'_>) -> bool
    ensures exact { IsTrue result ↔ IsAllowed kind work grace call.entry }
{
    match call {
        Call::Intern(_) | Call::Lookup(_) | Call::TextOf(_) => true,
        Call::Drop(_) | Call::Permanent(_) => kind == Kind::Counted,
        Call::Kill(_) => kind == Kind::Weak,
        Call::PollWork => work,
        Call::PollGrace => grace,
        _ => !work && !grace,
    }
}

impl Own {
    /// Whether the seat's number, its slot and its grace are of the table.
    pub fn is_inside(&self, shape: &Shape) -> bool
        ensures exact { IsTrue result ↔ IsInsideOwn shape.now self.now }
    {
        let grace = match self.grace {
            Some(grace) => grace.next < shape.seats,
            None => true,
        };
        self.number < shape.seats && self.cursor < shape.slots && grace
    }

    /// A seat with nothing unfinished.
    fn alone(caller: Caller) -> Own
        ensures value { result ≡ machines.own_alone caller }
    {
        Own {
            number: caller.number,
            cursor: caller.cursor,
            work: None,
            grace: None,
        }
    }

    /// A seat with what a call has left it.
    fn begun(caller: Caller, left: Left) -> Own
        ensures value { result ≡ machines.own_begun caller left }
    {
        Own {
            work: Work::begun(&caller.shape, left),
            grace: grace_left(left),
            ..Own::alone(caller)
        }
    }
}

/// The grace that a call has left.
fn grace_left(left: Left) -> Option<Grace>
    ensures value { result ≡ machines.grace_left left }
{
    match left {
        Left::Grace(grace) => Some(grace),
        _ => None,
    }
}

/// Whether a call of a seat may start. That its unfinished work is one of the table can't be tested.
pub fn may_start(kind: Kind, shape: &Shape, own: &Own, call: Call<'_>) -> bool
    ensures exact { IsTrue result ↔ MayStart kind shape.now own.now call.entry }
{
    let allowed = is_allowed(kind, own.work.is_some(), own.grace.is_some(), call);
    own.is_inside(shape) && has_handle(shape, call) && allowed
}

/// The machine of a try call, with what its seat has unfinished.
fn beside<'t>(call: CallMachine<'t>, own: Own) -> Machine<'t>
    ensures value { result ≡ Machine.Call call.entry own.work own.grace }
{
    let Own { work, grace, .. } = own;
    Machine::Call { call, work, grace }
}

/// The machine of a call that begins a work or a grace, or polls a grace.
fn beginning<'t>(begin: BeginMachine) -> Machine<'t>
    ensures value { result ≡ Machine.Begin begin }
{
    Machine::Begin { begin }
}

/// What a call wants that has no text.
fn wanted(caller: Caller, plan: Plan) -> Want
    requires caller { IsSoundCaller caller }
    requires plan { IsSoundPlan caller.shape caller.number plan }
    ensures value { result ≡ want_of caller.shape plan }
{
    plan.want(&caller.shape)
}

/// What the next step of a call adds to the log that has no text.
fn event_without_text(plan: Plan, alloc: Global, word: u64) -> Result<Option<What>, AllocError>
    ensures value { MatchResult result (λ event. event ≡ event_by [] plan word) (λ _. NamesItsText (event_by [] plan word)) }
{
    match plan {
        Plan::Step(step) => step.event(alloc, b"", word),
        Plan::Answered(_) => Ok(None),
    }
}

impl<'t> Machine<'t> {
    /// A call of a seat at its first stage. A text that is too long is answered at once.
    pub fn start(kind: Kind, shape: &Shape, seed: u32, own: Own, call: Call<'t>) -> Machine<'t>
        requires shape { IsSound shape.now }
        requires own { IsSoundOwn shape.now own }
        requires call { MayStart kind shape.now own call }
        ensures value { result ≡ machines.started kind shape.now seed own call.entry }
    {
        let caller = Caller {
            kind,
            shape: *shape,
            seed,
            number: own.number,
            cursor: own.cursor,
        };
        match call {
            Call::Split => beside(CallMachine::split(caller), own),
            Call::Intern(text) => beside(CallMachine::walk(caller, Goal::Intern, text), own),
            Call::Lookup(text) => beside(CallMachine::walk(caller, Goal::Lookup, text), own),
            Call::InternWait(text) => {
                beside(CallMachine::walk(caller, Goal::InternWait, text), own)
            }
            Call::TextOf(handle) => beside(CallMachine::read(caller, handle), own),
            Call::Drop(handle) => beside(CallMachine::change(caller, Change::Drop, handle), own),
            Call::Permanent(handle) => {
                beside(CallMachine::change(caller, Change::Permanent, handle), own)
            }
            Call::Kill(handle) => beside(CallMachine::change(caller, Change::Kill, handle), own),
            Call::BeginClean => beginning(BeginMachine::begin(caller, Some(Task::Clean))),
            Call::BeginGrow => beginning(BeginMachine::begin(caller, Some(Task::Grow))),
            Call::BeginShrink => beginning(BeginMachine::begin(caller, Some(Task::Shrink))),
            Call::BeginGrace => beginning(BeginMachine::begin(caller, None)),
            Call::PollGrace => match own.grace {
                Some(grace) => beginning(BeginMachine::poll(caller, grace)),
                None => unreachable!(),
            },
            Call::PollWork => match own.work {
                Some(work) => Machine::Poll {
                    poll: PollMachine::begin(caller, work),
                },
                None => unreachable!(),
            },
            Call::Sweep(text) => Machine::Sweep {
                sweep: SweepMachine::start(caller, hash_of(seed, text)),
            },
        }
    }

    /// What comes next: a step, or the answer.
    #[inline(always)]
    pub fn plan(&self) -> Plan
        ensures value { result ≡ machines.plan_of self.now }
    {
        match self {
            Machine::Call { call, .. } => call.plan(),
            Machine::Begin { begin } => begin.plan(),
            Machine::Poll { poll } => poll.plan(),
            Machine::Sweep { sweep } => sweep.plan(),
        }
    }

    /// What the call wants: its next step, or nothing any more.
    #[inline(always)]
    pub fn want(&self) -> Want
        ensures value { result ≡ machines.want_of self.now }
    {
        match self {
            Machine::Call { call, .. } => call.want(),
            Machine::Begin { begin } => wanted(begin.caller(), begin.plan()),
            Machine::Poll { poll } => wanted(poll.caller(), poll.plan()),
            Machine::Sweep { sweep } => wanted(sweep.caller(), sweep.plan()),
        }
    }

    /// What the next step adds to the log, where it finds the word. Memory may be wanting only where the
    /// event names the text of the call.
    pub fn event(&self, alloc: Global, word: u64) -> Result<Option<What>, AllocError>
        ensures value { MatchResult result (λ event. event ≡ machines.event_of self.now word) (λ _. NamesItsText (machines.event_of self.now word)) }
    {
        match self {
            Machine::Call { call, .. } => call.event(alloc, word),
            Machine::Begin { begin } => event_without_text(begin.plan(), alloc, word),
            Machine::Poll { poll } => event_without_text(poll.plan(), alloc, word),
            Machine::Sweep { sweep } => event_without_text(sweep.plan(), alloc, word),
        }
    }

    /// The text of the call; none where it has none, or one that is too long.
    pub fn text(&self) -> &[u8]
        ensures value { result.now ≡ machines.text_of self.now }
    {
        match self {
            Machine::Call { call, .. } => call.text(),
            _ => b"",
        }
    }

    /// Takes the word that the step found; for a store any word.
    #[inline(always)]
    pub fn got(&mut self, word: u64)
        requires fits { FitsMachine self.old word }
        ensures value { self.new ≡ machines.got_of self.old word }
    {
        match self {
            Machine::Call { call, .. } => call.got(word),
            Machine::Begin { begin } => begin.got(word),
            Machine::Poll { poll } => poll.got(word),
            Machine::Sweep { sweep } => sweep.got(word),
        }
    }

    /// What the seat has of its own once the call has answered, and the answer. A work or a grace that
    /// has begun or is pending stands in it. What a sound machine leaves may be handed to the seat's next call.
    pub fn finish(self) -> (Own, Answer)
        requires answered { (answer : Answer) × (machines.plan_of self ≡ plan.Answered answer) }
        ensures own { result.0 ≡ machines.own_of self.entry }
        ensures sound { IsSoundMachine self.entry → IsSoundOwn (machines.shape_of self.entry) result.0 }
        ensures answer { machines.plan_of self.entry ≡ plan.Answered result.1 }
    {
        match self.plan() {
            Plan::Answered(answer) => (self.into_own(), answer),
            Plan::Step(_) => unreachable!(),
        }
    }

    /// What the seat has of its own.
    fn into_own(self) -> Own
        ensures own { result ≡ machines.own_of self.entry }
    {
        match self {
            Machine::Call { call, work, grace } => Own {
                number: call.number(),
                cursor: call.cursor(),
                work,
                grace,
            },
            Machine::Begin { begin } => Own::begun(begin.caller(), begin.left()),
            Machine::Poll { poll } => polled(poll),
            Machine::Sweep { sweep } => Own::alone(sweep.caller()),
        }
    }

    /// How many nodes the call passed since it last began to find its head; 0 where it has no walk.
    pub fn passed(&self) -> u32
        ensures value { result ≡ machines.passed_of self.now }
    {
        match self {
            Machine::Call { call, .. } => call.passed(),
            Machine::Begin { .. } | Machine::Poll { .. } | Machine::Sweep { .. } => 0,
        }
    }
}

/// A seat once a poll of its work has answered.
fn polled(poll: PollMachine) -> Own
    ensures value { result ≡ machines.own_of (Machine.Poll poll) }
{
    let own = Own::alone(poll.caller());
    Own {
        work: poll.into_left(),
        ..own
    }
}
