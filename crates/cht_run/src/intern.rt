//! Interns that try once.
ghost use Rattle.std.specs.Prelude.{◌≡◌, ◌≤◌, ◌↔◌, true, false, None, IfSome};
ghost use Rattle.intern_log.specs.declared.event.Kind.TheVariants.{Counted, Weak};
ghost use Rattle.call_machine.specs.declared.leave.LeaveStage.TheVariants as leave;
ghost use Rattle.call_machine.specs.declared.leave.Then.TheVariants as next;
ghost use Rattle.call_machine.specs.declared.stage.CallStage.TheVariants as stage;
ghost use Rattle.call_machine.specs.declared.stage.Goal.TheVariants as goal;
ghost use Rattle.call_machine.specs.Sought as texts;
ghost use Rattle.call_machine.specs.Sought.{asked_of};
ghost use Rattle.cht_core.specs.Caused.{MayCause};
ghost use Rattle.cht_run.specs.Begins.{own_at, MayCall};
ghost use Rattle.cht_run.specs.Calls.{At};
ghost use Rattle.cht_run.specs.Ended.{Ended, KeepsWork};
ghost use Rattle.cht_run.specs.History.{log_of};
ghost use Rattle.cht_run.specs.PassedChains.{WalkPasses, InternPasses, InternWeakPasses};
ghost use Rattle.cht_run.specs.Seats.{IsOf, Sits};
ghost use Rattle.cht_run.specs.Walked.{IsInternAnswer, Walked};
ghost use Rattle.cht_run.specs.Interns.{Interns, WhyInterns, InternHolds, InternsWeak, WhyInternsWeak, InternWeakHolds};
ghost use Rattle.cht_run.specs.Walks.{IsWalk, Meets, walked};

use crate::lookup::is_too_long;
use crate::node::Meeting;
use crate::operations::Began;
use crate::seat::{Raw, Seat};
use crate::table::Cht;
use atomic_step::Answer;
use call_machine::find::Walk;
use call_machine::stage::{Along, Goal, Request};
use intern_log::Handle;
use marked_word::is_locked;
use std::marker::Brand;

/// What an intern in a counted table comes to that tries once.
#[derive(Clone, Copy, Debug, PartialEq, Eq)]
pub enum TryIntern {
    /// The text is longer than a slot has room for.
    TooLong,
    /// A hold was taken on the text's entry.
    Taken(Handle),
    /// Another seat was first: it did something to the text's entry, or changed the head of a bucket of the text.
    Again,
    /// The bucket was locked at some moment of the call.
    Locked,
    /// Each slot was taken at some moment of the call.
    NoSlot,
    /// The text's entry was made, with one hold.
    Created(Handle),
}

/// What an intern in a weak table comes to that tries once.
#[derive(Clone, Copy, Debug, PartialEq, Eq)]
pub enum TryInternWeak {
    /// The text is longer than a slot has room for.
    TooLong,
    /// The text's entry was live at some moment of the call.
    Found(Handle),
    /// Another seat was first: it changed the head of a bucket of the text.
    Again,
    /// The bucket was locked at some moment of the call.
    Locked,
    /// Each slot was taken at some moment of the call.
    NoSlot,
    /// The text's entry was made.
    Created(Handle),
}

impl Cht {
    /// What comes of a walk: an answer where it has met the entry or its bucket is locked, or else an entry is made.
    #[inline(always)]
    #[tactic(auto, using(crate::proofs::Answering::insert_answers, crate::proofs::Answering::meeting_answers))]
    fn after_walk<'t, M: Began>(
        &self,
        seat: &mut Raw,
        request: &Request<'t>,
        along: &Along,
        meeting: Option<Meeting>,
    ) -> (Along, Answer)
        requires at { At self.now M.sight M.call request.now seat.old along.now (walked (asked_of request.now) along.now meeting) }
        requires meets { IfSome meeting (Meets request.now.kind request.now.goal) }
        requires goal { request.now.goal ≡ goal.Intern }
        requires kept { along.now.kept ≡ None }
        ensures at { At self.now M.sight M.call request.now seat.new result.0 (stage.Leave (leave.Close (next.Answer result.1))) }
        ensures only { IsInternAnswer request.now.kind result.1 }
    {
        match meeting {
            Some(Meeting::Met(answer)) => (*along, answer),
            Some(Meeting::Lost) => (*along, Answer::Again),
            None => {
                if is_locked(along.walk.head) {
                    (*along, Answer::Locked)
                } else {
                    self.insert::<M>(seat, request, along)
                }
            }
        }
    }

    /// Interns a text, from the first step to the last.
    #[inline(always)]
    fn intern_as<'t, M: Began>(
        &self,
        seat: &mut Raw,
        request: &Request<'t>,
        along: &Along,
    ) -> (Along, Answer)
        requires sits { Sits self.now seat.old }
        requires began { M.sight ≡ seat.old.me.0 }
        requires call { MayCall M.sight M.call }
        requires causes { MayCause self.now.origin.table M.sight.number (log_of M.sight.history) (own_at M.sight.seat) M.call }
        requires walk { IsWalk M.sight M.call request.now along.now }
        requires goal { request.now.goal ≡ goal.Intern }
        requires kept { along.now.kept ≡ None }
        ensures at { At self.now M.sight M.call request.now seat.new result.0 (stage.Answered result.1) }
        ensures only { IsInternAnswer request.now.kind result.1 }
    {
        let counter = self.enter::<M>(seat, request, along);
        let along = self.find::<M>(seat, request, along, counter);
        let (along, meeting) = self.walk::<M>(seat, request, &along);
        let (along, answer) = self.after_walk::<M>(seat, request, &along, meeting);
        self.close_section::<M>(seat, request, &along, answer);
        (along, answer)
    }

    /// Interns a text that the table has room for.
    #[inline(always)]
    fn intern_once(&self, seat: &mut Seat, text: &[u8]) -> Answer
        requires of { IsOf self.now seat.old }
        requires room { texts.is_too_long self.now.origin.table.shape text.now ≡ false }
        ensures of { IsOf self.now seat.new }
        ensures works { KeepsWork seat.old seat.new }
        ensures only { IsInternAnswer self.now.origin.table.kind result }
        ensures walked { Walked self.now goal.Intern text.now seat.old seat.new result }
        ensures few { seat.new.passed ≤ self.now.origin.table.shape.slots }
        ensures exact { WalkPasses self.now.origin.table seat.old seat.new.passed text.now result }
    {
        let request = self.seek(seat, Goal::Intern, text);
        let along = Along {
            cursor: seat.cursor,
            walk: Walk::NONE,
            kept: None,
        };
        let (along, answer) = self.intern_as::<Brand>(&mut seat.raw, &request, &along);
        seat.cursor = along.cursor;
        seat.passed = along.walk.passed;
        answer
    }

    /// Interns a text in a counted table: takes a hold on its entry, or makes one. It tries once, and waits for
    /// nobody.
    ///
    /// `TooLong` comes exactly where the text is longer than a slot has room for, before any step. `Again` comes
    /// only where another seat did something to the text's entry or changed the head of a bucket of the text during
    /// the call, `Locked` only where such a bucket was locked, and `NoSlot` only where the text was absent and each
    /// slot was taken at some moment of the call.
    /// After `Taken` and `Created` the seat holds the handle. It follows the insert of
    /// `concurrentHashTable.inline.hpp` in HotSpot.
    pub fn try_intern(&self, seat: &mut Seat, text: &[u8]) -> TryIntern
        requires of { IsOf self.now seat.old }
        requires counted { self.now.origin.table.kind ≡ Counted }
        ensures of { IsOf self.now seat.new }
        ensures ended { Ended self.now.origin.table seat.old seat.new (Interns text.now result) (WhyInterns self.now.origin.table seat.old.number text.now result) }
        ensures holds { InternHolds seat.new result }
        ensures works { KeepsWork seat.old seat.new }
        ensures too_long { (result ≡ TryIntern.TooLong) ↔ (texts.is_too_long self.now.origin.table.shape text.now ≡ true) }
        ensures few { seat.new.passed ≤ self.now.origin.table.shape.slots }
        ensures exact { InternPasses self.now.origin.table seat.old seat.new.passed text.now result }
    {
        if is_too_long(self, text) {
            seat.passed = 0;
            return TryIntern::TooLong;
        }
        match self.intern_once(seat, text) {
            Answer::Taken(handle) => TryIntern::Taken(handle),
            Answer::Again => TryIntern::Again,
            Answer::Locked => TryIntern::Locked,
            Answer::NoSlot => TryIntern::NoSlot,
            Answer::Created(handle) => TryIntern::Created(handle),
            _ => unreachable!(),
        }
    }

    /// Interns a text in a weak table: finds its entry, or makes one. It tries once, and waits for nobody.
    ///
    /// The answers come as those of `try_intern`, with `Found` in place of `Taken`. No count is exchanged, so that
    /// `Again` comes only where another seat changed the head of a bucket of the text.
    pub fn try_intern_weak(&self, seat: &mut Seat, text: &[u8]) -> TryInternWeak
        requires of { IsOf self.now seat.old }
        requires weak { self.now.origin.table.kind ≡ Weak }
        ensures of { IsOf self.now seat.new }
        ensures ended { Ended self.now.origin.table seat.old seat.new (InternsWeak text.now result) (WhyInternsWeak self.now.origin.table seat.old.number text.now result) }
        ensures holds { InternWeakHolds seat.new result }
        ensures works { KeepsWork seat.old seat.new }
        ensures too_long { (result ≡ TryInternWeak.TooLong) ↔ (texts.is_too_long self.now.origin.table.shape text.now ≡ true) }
        ensures few { seat.new.passed ≤ self.now.origin.table.shape.slots }
        ensures exact { InternWeakPasses self.now.origin.table seat.old seat.new.passed text.now result }
    {
        if is_too_long(self, text) {
            seat.passed = 0;
            return TryInternWeak::TooLong;
        }
        match self.intern_once(seat, text) {
            Answer::Found(handle) => TryInternWeak::Found(handle),
            Answer::Again => TryInternWeak::Again,
            Answer::Locked => TryInternWeak::Locked,
            Answer::NoSlot => TryInternWeak::NoSlot,
            Answer::Created(handle) => TryInternWeak::Created(handle),
            _ => unreachable!(),
        }
    }
}
