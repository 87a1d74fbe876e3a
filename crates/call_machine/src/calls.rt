//! The machine of the calls of readers and inserters, and of those by handle.
ghost use Rattle.std.specs.Prelude.{◌≡◌, ◌/◌, ◌≤◌, ◌^◌, IfNone, MatchResult};
ghost use Rattle.atomic_step.specs.declared.plan.Plan.TheVariants as plan;
ghost use Rattle.atomic_step.specs.Event.{NamesItsText};
ghost use Rattle.atomic_step.specs.Turn.{want_of};
ghost use Rattle.call_machine.specs.BeginCall as begin;
ghost use Rattle.call_machine.specs.BeginCall.{begins, begun_split, begun_walk, begun_change, begun_read};
ghost use Rattle.call_machine.specs.Calls as calls;
ghost use Rattle.call_machine.specs.Calls.{next_at};
ghost use Rattle.call_machine.specs.Caller.{IsSoundCaller};
ghost use Rattle.call_machine.specs.SoundCall.{IsHandle, IsSoundCall, FitsAt, FitsCall};
ghost use Rattle.call_machine.specs.Sought.{IsSought, asked_of};

use crate::caller::Caller;
use crate::draw::DrawStage;
use crate::enter::EnterStage;
use crate::find::{FindStage, Walk};
use crate::handle::HandleStage;
use crate::node::comes_to;
use crate::read::ReadStage;
use crate::sought::{Sought, is_too_long};
use crate::stage::{Along, CallStage, Goal, Request};
use atomic_step::{Answer, Change, Plan, Want};
use intern_log::{Handle, What};
use marked_word::first_of;
use std::alloc::{AllocError, Global};
use std::marker::Model;

/// A call on its way.
#[derive(Drop)]
pub struct CallMachine<'t> {
    request: Request<'t>,
    along: Along,
    stage: CallStage,
}

impl<'t> Model for CallMachine<'t> {
    ghost use Rattle.call_machine.specs.declared.stage.Calling.{Calling};
    ghost use Rattle.call_machine.specs.SoundCall.{IsSoundCall};
    ghost use Rattle.call_machine.specs.Sought.{IsRequest, asked_of};

    ghost Value = { Calling };

    ghost view = { λ m. record { asked = asked_of m.request; along = m.along; stage = m.stage } };

    ghost invariant = { λ m. IsRequest m.request × IsSoundCall (record { asked = asked_of m.request; along = m.along; stage = m.stage }) };
}

/// The handle of a call that has none.
const NO_HANDLE: Handle = Handle {
    slot: 0,
    generation: 0,
};

/// What a text that is too long is answered with.
fn too_long(goal: Goal) -> Answer
    ensures value { result ≡ begin.too_long goal }
{
    match goal {
        Goal::Lookup => Answer::Miss,
        Goal::Intern | Goal::InternWait => Answer::TooLong,
    }
}

impl<'t> CallMachine<'t> {
    /// A call at its first stage.
    fn begin(
        caller: Caller,
        goal: Goal,
        sought: Sought<'t>,
        handle: Handle,
        stage: CallStage,
    ) -> CallMachine<'t>
        requires sought { IsSought caller.seed sought }
        requires sound { IsSoundCall (begins caller goal sought.text.now handle stage) }
        ensures value { result ≡ begins caller goal sought.entry.text.now handle stage }
    {
        let request = Request {
            kind: caller.kind,
            shape: caller.shape,
            number: caller.number,
            goal,
            sought,
            handle,
            seed: caller.seed,
        };
        let along = Along {
            cursor: caller.cursor,
            walk: Walk::NONE,
            kept: None,
        };
        CallMachine {
            request,
            along,
            stage,
        }
    }

    /// A split.
    pub fn split(caller: Caller) -> CallMachine<'t>
        requires caller { IsSoundCaller caller }
        ensures value { result ≡ begun_split caller }
    {
        let none = Sought::none(caller.seed);
        let stage = CallStage::Draw(DrawStage::Load);
        CallMachine::begin(caller, Goal::Lookup, none, NO_HANDLE, stage)
    }

    /// A look-up or an intern.
    pub fn walk(caller: Caller, goal: Goal, text: &'t [u8]) -> CallMachine<'t>
        requires caller { IsSoundCaller caller }
        ensures value { result ≡ begun_walk caller goal text.now }
    {
        if is_too_long(&caller.shape, text) {
            let none = Sought::none(caller.seed);
            let stage = CallStage::Answered(too_long(goal));
            return CallMachine::begin(caller, goal, none, NO_HANDLE, stage);
        }
        let sought = Sought::of(caller.seed, text);
        let stage = CallStage::Find(FindStage::Enter(EnterStage::LoadCounter));
        CallMachine::begin(caller, goal, sought, NO_HANDLE, stage)
    }

    /// A drop, a permanence or a kill.
    pub fn change(caller: Caller, change: Change, handle: Handle) -> CallMachine<'t>
        requires caller { IsSoundCaller caller }
        requires handle { IsHandle caller.shape handle }
        ensures value { result ≡ begun_change caller change handle }
    {
        let none = Sought::none(caller.seed);
        let stage = CallStage::Handle(HandleStage::Count { change });
        CallMachine::begin(caller, Goal::Lookup, none, handle, stage)
    }

    /// A reading of a handle's text.
    pub fn read(caller: Caller, handle: Handle) -> CallMachine<'t>
        requires caller { IsSoundCaller caller }
        requires handle { IsHandle caller.shape handle }
        ensures value { result ≡ begun_read caller handle }
    {
        let none = Sought::none(caller.seed);
        let stage = CallStage::Read(ReadStage::first(caller.kind));
        CallMachine::begin(caller, Goal::Lookup, none, handle, stage)
    }

    /// What comes next: a step, or the answer.
    pub fn plan(&self) -> Plan
        ensures value { result ≡ calls.plan_of self.now }
        ensures sound { IsSoundCall self.now }
    {
        let request = &self.request;
        Plan::Step(match self.stage {
            CallStage::Answered(answer) => return Plan::Answered(answer),
            CallStage::Draw(stage) => stage.step(request),
            CallStage::Find(stage) => stage.step(request.number, self.along.walk),
            CallStage::Node(stage) => stage.step(request, self.along),
            CallStage::Insert(stage) => stage.step(request, self.along),
            CallStage::Leave(stage) => stage.step(request),
            CallStage::Handle(stage) => stage.step(request),
            CallStage::Read(stage) => stage.step(request),
        })
    }

    /// What the call wants: its next step, or nothing any more.
    pub fn want(&self) -> Want
        ensures value { result ≡ want_of self.now.asked.shape (calls.plan_of self.now) }
        ensures sound { IsSoundCall self.now }
    {
        self.plan().want(&self.request.shape)
    }

    /// What the next step adds to the log, where it finds the word. Memory may be wanting only where the
    /// event names the text of the call.
    pub fn event(&self, alloc: Global, word: u64) -> Result<Option<What>, AllocError>
        ensures value { MatchResult result (λ event. event ≡ calls.event_of self.now word) (λ _. NamesItsText (calls.event_of self.now word)) }
    {
        match self.plan() {
            Plan::Step(step) => step.event(alloc, self.request.sought.text, word),
            Plan::Answered(_) => Ok(None),
        }
    }

    /// Takes the word that the step found; for a store any word.
    pub fn got(&mut self, word: u64)
        requires fits { FitsCall self.old word }
        ensures value { self.new ≡ calls.got_of self.old word }
    {
        let (along, stage) = self.next(word);
        self.along = along;
        self.stage = stage;
    }

    /// What comes of the word that the step found.
    fn next(&self, word: u64) -> (Along, CallStage)
        requires fits { FitsCall self.now word }
        ensures value { result ≡ next_at self.now.asked self.now.along self.now.stage word }
    {
        let request = &self.request;
        let along = self.along;
        match self.stage {
            CallStage::Answered(_) => (along, self.stage),
            CallStage::Draw(stage) => (along, stage.next(request, word)),
            CallStage::Find(stage) => self.find_next(stage, word),
            CallStage::Node(stage) => stage.next(request, along, word),
            CallStage::Insert(stage) => stage.next(request, along, word),
            CallStage::Leave(stage) => stage.next(request, along, word),
            CallStage::Handle(stage) => (along, stage.next(request, word)),
            CallStage::Read(stage) => (along, stage.next(request, word)),
        }
    }

    /// The head is still to be found, or it was and the walk begins at its first node.
    fn find_next(&self, stage: FindStage, word: u64) -> (Along, CallStage)
        requires fits { FitsAt self.now.asked self.now.along (CallStage.Find stage) word }
        ensures value { result ≡ next_at self.now.asked self.now.along (CallStage.Find stage) word }
    {
        let request = &self.request;
        let along = self.along;
        let (walk, next) = stage.next(request.number, request.sought.hash, along.walk, word);
        let stage = match next {
            Some(stage) => CallStage::Find(stage),
            None => comes_to(request, along, walk.head, first_of(walk.head)),
        };
        (Along { walk, ..along }, stage)
    }

    /// The seat's cursor and the answer, once there is one.
    pub fn finish(self) -> (u32, Answer)
        requires answered { (answer : Answer) × (self.stage ≡ CallStage.Answered answer) }
        ensures cursor { result.0 ≡ self.entry.along.cursor }
        ensures answer { calls.plan_of self.entry ≡ plan.Answered result.1 }
    {
        match self.stage {
            CallStage::Answered(answer) => (self.along.cursor, answer),
            _ => unreachable!(),
        }
    }

    /// The number of the seat.
    pub fn number(&self) -> u32
        ensures value { result ≡ self.now.asked.number }
    {
        self.request.number
    }

    /// The slot from which the seat looks for a free one.
    pub fn cursor(&self) -> u32
        ensures value { result ≡ self.now.along.cursor }
    {
        self.along.cursor
    }

    /// How many nodes were passed since the call last began to find its head.
    pub fn passed(&self) -> u32
        ensures value { result ≡ self.now.along.walk.passed }
    {
        self.along.walk.passed
    }

    /// The text of the call; none where it has none, or one that is too long.
    pub fn text(&self) -> &[u8]
        ensures value { result.now ≡ self.now.asked.text }
    {
        self.request.sought.text
    }
}
