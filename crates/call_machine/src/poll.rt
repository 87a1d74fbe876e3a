//! The poll of an unfinished work.
ghost use Rattle.std.specs.Prelude.{◌≡◌};
ghost use Rattle.atomic_step.specs.SoundStep.{IsSoundPlan};
ghost use Rattle.call_machine.specs.Caller.{IsSoundCaller};
ghost use Rattle.call_machine.specs.Poll as polls;
ghost use Rattle.call_machine.specs.SoundPoll.{IsSoundPoll, FitsPoll};
ghost use Rattle.call_machine.specs.Work.{IsSoundWork};

use crate::caller::Caller;
use crate::work::Work;
use atomic_step::{Answer, Plan};
use std::marker::Model;

/// What contracts see of a poll. No value of it is made.
pub struct Polling {
    pub caller: Caller,
    pub work: Work,
    /// What the poll has answered, if it has.
    pub answer: Option<Answer>,
}

/// A poll of a work.
#[derive(Drop)]
pub struct PollMachine {
    caller: Caller,
    work: Work,
    answer: Option<Answer>,
}

impl Model for PollMachine {
    ghost use Rattle.call_machine.specs.declared.poll.Polling.{Polling};
    ghost use Rattle.call_machine.specs.SoundPoll.{IsSoundPoll};

    ghost Value = { Polling };

    ghost view = { λ m. record { caller = m.caller; work = m.work; answer = m.answer } };

    ghost invariant = { λ m. IsSoundPoll (record { caller = m.caller; work = m.work; answer = m.answer }) };
}

impl PollMachine {
    /// A new poll of an unfinished work.
    #[tactic(auto, using(crate::proofs::Machines::begun_poll_soundly))]
    pub fn begin(caller: Caller, mut work: Work) -> PollMachine
        requires caller { IsSoundCaller caller }
        requires work { IsSoundWork caller.shape work }
        ensures value { result ≡ polls.begun_poll caller work }
    {
        let answer = work.begin_poll();
        PollMachine {
            caller,
            work,
            answer,
        }
    }

    /// What comes next.
    pub fn plan(&self) -> Plan
        ensures value { result ≡ polls.poll_plan self.now }
        ensures sound { IsSoundPlan self.now.caller.shape self.now.caller.number result }
    {
        match self.answer {
            None => Plan::Step(self.work.step()),
            Some(answer) => Plan::Answered(answer),
        }
    }

    /// Takes the word that the step found; for a store any word.
    pub fn got(&mut self, word: u64)
        requires fits { FitsPoll self.old word }
        ensures value { self.new ≡ polls.poll_got self.old word }
    {
        let shape = self.caller.shape;
        self.answer = self.work.got(&shape, word);
    }

    /// Who calls.
    pub fn caller(&self) -> Caller
        ensures value { result ≡ self.now.caller }
        ensures sound { IsSoundCaller result }
    {
        self.caller
    }

    /// The work, unless it is done.
    pub fn into_left(self) -> Option<Work>
        ensures value { result ≡ polls.work_left self.work self.answer }
    {
        let PollMachine { work, answer, .. } = self;
        match answer {
            Some(Answer::Done(_)) => None,
            _ => Some(work),
        }
    }
}
