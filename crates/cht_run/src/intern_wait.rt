//! Interns that try until they have an answer.
ghost use Rattle.std.specs.Prelude.{◌≡◌, ◌≤◌, ◌↔◌, true, false, None, IfSome};
ghost use Rattle.intern_log.specs.declared.event.Kind.TheVariants.{Counted, Weak};
ghost use Rattle.call_machine.specs.declared.enter.EnterStage.TheVariants as enter;
ghost use Rattle.call_machine.specs.declared.find.FindStage.TheVariants as find;
ghost use Rattle.call_machine.specs.declared.stage.CallStage.TheVariants as stage;
ghost use Rattle.call_machine.specs.declared.stage.Goal.TheVariants as goal;
ghost use Rattle.call_machine.specs.Insert.{inserts};
ghost use Rattle.call_machine.specs.Sought as texts;
ghost use Rattle.cht_core.specs.Caused.{MayCause};
ghost use Rattle.cht_run.specs.Begins.{own_at, MayCall};
ghost use Rattle.cht_run.specs.Calls.{At};
ghost use Rattle.cht_run.specs.Ended.{Ended, KeepsWork};
ghost use Rattle.cht_run.specs.Ends.{HasNothing};
ghost use Rattle.cht_run.specs.History.{log_of};
ghost use Rattle.cht_run.specs.Holds.{InternedGives};
ghost use Rattle.cht_run.specs.InternWaits.{decided, filled, tried, InternsWaiting, WhyInternsWaiting, InternedHolds, InternsWeakWaiting, WhyInternsWeakWaiting, InternedWeakHolds, IsWaitAnswer};
ghost use Rattle.cht_run.specs.PassedChains.{WalkPasses, InternedPasses, InternedWeakPasses};
ghost use Rattle.cht_run.specs.Seats.{IsOf, Sits};
ghost use Rattle.cht_run.specs.Walked.{Walked};
ghost use Rattle.cht_run.specs.Walks.{IsWalk};

use crate::lookup::is_too_long;
use crate::node::Meeting;
use crate::operations::Began;
use crate::seat::{Raw, Seat};
use crate::table::Cht;
use atomic_step::Answer;
use call_machine::find::Walk;
use call_machine::stage::{Along, Goal, Request};
use crossbeam_utils::Backoff;
use intern_log::Handle;
use marked_word::is_locked;
use std::marker::Brand;
use std::sync::Wait;

/// What an intern in a counted table comes to.
#[derive(Clone, Copy, Debug, PartialEq, Eq)]
pub enum Interned {
    /// The text is longer than a slot has room for.
    TooLong,
    /// A hold was taken on the text's entry.
    Taken(Handle),
    /// Each slot was taken at some moment of the call.
    NoSlot,
    /// The text's entry was made, with one hold.
    Created(Handle),
}

/// What an intern in a weak table comes to.
#[derive(Clone, Copy, Debug, PartialEq, Eq)]
pub enum InternedWeak {
    /// The text is longer than a slot has room for.
    TooLong,
    /// The text's entry was live at some moment of the call.
    Found(Handle),
    /// Each slot was taken at some moment of the call.
    NoSlot,
    /// The text's entry was made.
    Created(Handle),
}

impl Cht {
    /// Fills the slot that is kept, or the first free one: none where each was taken.
    #[inline(always)]
    fn fill_any<'t, M: Began>(
        &self,
        seat: &mut Raw,
        request: &Request<'t>,
        along: &Along,
    ) -> (Along, Option<Handle>)
        requires at { At self.now M.sight M.call request.now seat.old along.now (stage.Insert (inserts along.now.kept along.now.cursor)) }
        ensures at { At self.now M.sight M.call request.now seat.new result.0 (filled result.0 result.1) }
    {
        if let Some(handle) = along.kept {
            self.put_link::<M>(seat, request, along, handle);
            return (*along, Some(handle));
        }
        let (along, slot) = self.claim_any::<M>(seat, request, along);
        let Some(slot) = slot else {
            return (along, None);
        };
        let handle = self.fill::<M>(seat, request, &along, slot);
        (along, Some(handle))
    }

    /// Makes an entry: no answer where another was faster, and then the slot is kept.
    #[inline(always)]
    fn insert_keeping<'t, M: Began>(
        &self,
        seat: &mut Raw,
        request: &Request<'t>,
        along: &Along,
    ) -> (Along, Option<Answer>)
        requires at { At self.now M.sight M.call request.now seat.old along.now (stage.Insert (inserts along.now.kept along.now.cursor)) }
        requires goal { request.now.goal ≡ goal.InternWait }
        ensures at { At self.now M.sight M.call request.now seat.new result.0 (decided result.0 result.1) }
        ensures only { IfSome result.1 (IsWaitAnswer request.now.kind) }
    {
        let (along, handle) = self.fill_any::<M>(seat, request, along);
        let Some(handle) = handle else {
            return (along, Some(Answer::NoSlot));
        };
        match self.create::<M>(seat, request, &along, handle) {
            None => (
                Along {
                    kept: None,
                    ..along
                },
                Some(Answer::Created(handle)),
            ),
            Some(_) => (
                Along {
                    kept: Some(handle),
                    ..along
                },
                None,
            ),
        }
    }

    /// Finds the text's entry or makes one, after the counter was loaded: no answer where the bucket is locked
    /// or another was faster.
    #[tactic(auto, using(crate::proofs::Answering::meeting_waits))]
    #[inline(always)]
    fn decide<'t, M: Began>(
        &self,
        seat: &mut Raw,
        request: &Request<'t>,
        along: &Along,
        counter: u64,
    ) -> (Along, Option<Answer>)
        requires at { At self.now M.sight M.call request.now seat.old along.now (stage.Find (find.Enter (enter.OpenSection counter))) }
        requires goal { request.now.goal ≡ goal.InternWait }
        ensures at { At self.now M.sight M.call request.now seat.new result.0 (decided result.0 result.1) }
        ensures only { IfSome result.1 (IsWaitAnswer request.now.kind) }
    {
        let along = self.find::<M>(seat, request, along, counter);
        let (along, meeting) = self.walk::<M>(seat, request, &along);
        match meeting {
            Some(Meeting::Met(answer)) => (along, Some(answer)),
            Some(Meeting::Lost) => (along, None),
            None => {
                if is_locked(along.walk.head) {
                    (along, None)
                } else {
                    self.insert_keeping::<M>(seat, request, &along)
                }
            }
        }
    }

    /// One try, in a section of its own, which is closed after it: no answer where the call is to try again.
    #[inline(always)]
    fn intern_try<'t, M: Began>(
        &self,
        seat: &mut Raw,
        request: &Request<'t>,
        along: &Along,
        counter: u64,
    ) -> (Along, Option<Answer>)
        requires at { At self.now M.sight M.call request.now seat.old along.now (stage.Find (find.Enter (enter.OpenSection counter))) }
        requires goal { request.now.goal ≡ goal.InternWait }
        ensures at { At self.now M.sight M.call request.now seat.new result.0 (tried result.1) }
        ensures only { IfSome result.1 (IsWaitAnswer request.now.kind) }
    {
        let (along, answer) = self.decide::<M>(seat, request, along, counter);
        match answer {
            None => (self.close_again::<M>(seat, request, &along), None),
            Some(answer) => {
                let along = self.give_back::<M>(seat, request, &along, answer);
                self.close_section::<M>(seat, request, &along, answer);
                (along, Some(answer))
            }
        }
    }

    /// Interns a text, from the first step to the last. A slot that it claims it keeps from try to try.
    fn intern_until<'t, M: Began, R: Wait>(
        &self,
        rt: &R,
        seat: &mut Raw,
        request: &Request<'t>,
        along: &Along,
    ) -> (Along, Answer)
        requires sits { Sits self.now seat.old }
        requires began { M.sight ≡ seat.old.me.0 }
        requires call { MayCall M.sight M.call }
        requires causes { MayCause self.now.origin.table M.sight.number (log_of M.sight.history) (own_at M.sight.seat) M.call }
        requires walk { IsWalk M.sight M.call request.now along.now }
        requires goal { request.now.goal ≡ goal.InternWait }
        ensures at { At self.now M.sight M.call request.now seat.new result.0 (stage.Answered result.1) }
        ensures only { IsWaitAnswer request.now.kind result.1 }
    {
        let backoff = Backoff::new();
        let mut counter = self.enter::<M>(seat, request, along);
        let mut along = *along;
        for _ in rt.forever() {
            let (next, answer) = self.intern_try::<M>(seat, request, &along, counter);
            if let Some(answer) = answer {
                return (next, answer);
            }
            along = next;
            backoff.snooze();
            counter = self.enter_again::<M>(seat, request, &along);
        }
        unreachable!()
    }

    /// Interns a text that the table has room for.
    fn intern_wait<R: Wait>(&self, rt: &R, seat: &mut Seat, text: &[u8]) -> Answer
        requires of { IsOf self.now seat.old }
        requires nothing { HasNothing seat.old }
        requires room { texts.is_too_long self.now.origin.table.shape text.now ≡ false }
        ensures of { IsOf self.now seat.new }
        ensures works { KeepsWork seat.old seat.new }
        ensures only { IsWaitAnswer self.now.origin.table.kind result }
        ensures walked { Walked self.now goal.InternWait text.now seat.old seat.new result }
        ensures few { seat.new.passed ≤ self.now.origin.table.shape.slots }
        ensures exact { WalkPasses self.now.origin.table seat.old seat.new.passed text.now result }
    {
        let request = self.seek(seat, Goal::InternWait, text);
        let along = Along {
            cursor: seat.cursor,
            walk: Walk::NONE,
            kept: None,
        };
        let (along, answer) = self.intern_until::<Brand, R>(rt, &mut seat.raw, &request, &along);
        seat.cursor = along.cursor;
        seat.passed = along.walk.passed;
        answer
    }

    /// Interns a text in a counted table: takes a hold on its entry, or makes one. Where another seat is faster, or
    /// the bucket is locked, it tries again, after a pause outside its section. So its seat has no work and no grace
    /// unfinished, for which it would wait for ever.
    ///
    /// `TooLong` comes exactly where the text is longer than a slot has room for, before any step. `NoSlot` comes
    /// only where the text was absent and each slot was taken at some moment of the call. The call claims one slot at
    /// most, and keeps it from try to try: it gives it back where it takes a hold on another seat's entry.
    /// After `Taken` and `Created` the seat holds the handle, which was given for the text. It follows the insert of
    /// `concurrentHashTable.inline.hpp` in HotSpot.
    pub fn intern<R: Wait>(&self, rt: &R, seat: &mut Seat, text: &[u8]) -> Interned
        requires of { IsOf self.now seat.old }
        requires nothing { HasNothing seat.old }
        requires counted { self.now.origin.table.kind ≡ Counted }
        ensures of { IsOf self.now seat.new }
        ensures ended { Ended self.now.origin.table seat.old seat.new (InternsWaiting text.now result) (WhyInternsWaiting self.now.origin.table text.now result) }
        ensures holds { InternedHolds seat.new result }
        ensures gives { InternedGives seat.new text.now result }
        ensures works { KeepsWork seat.old seat.new }
        ensures too_long { (result ≡ Interned.TooLong) ↔ (texts.is_too_long self.now.origin.table.shape text.now ≡ true) }
        ensures few { seat.new.passed ≤ self.now.origin.table.shape.slots }
        ensures exact { InternedPasses self.now.origin.table seat.old seat.new.passed text.now result }
    {
        if is_too_long(self, text) {
            seat.passed = 0;
            return Interned::TooLong;
        }
        match self.intern_wait(rt, seat, text) {
            Answer::Taken(handle) => Interned::Taken(handle),
            Answer::NoSlot => Interned::NoSlot,
            Answer::Created(handle) => Interned::Created(handle),
            _ => unreachable!(),
        }
    }

    /// Interns a text in a weak table: finds its entry, or makes one. It waits as `intern` does.
    ///
    /// The answers come as those of `intern`, with `Found` in place of `Taken`.
    pub fn intern_weak<R: Wait>(&self, rt: &R, seat: &mut Seat, text: &[u8]) -> InternedWeak
        requires of { IsOf self.now seat.old }
        requires nothing { HasNothing seat.old }
        requires weak { self.now.origin.table.kind ≡ Weak }
        ensures of { IsOf self.now seat.new }
        ensures ended { Ended self.now.origin.table seat.old seat.new (InternsWeakWaiting text.now result) (WhyInternsWeakWaiting self.now.origin.table text.now result) }
        ensures holds { InternedWeakHolds seat.new result }
        ensures works { KeepsWork seat.old seat.new }
        ensures too_long { (result ≡ InternedWeak.TooLong) ↔ (texts.is_too_long self.now.origin.table.shape text.now ≡ true) }
        ensures few { seat.new.passed ≤ self.now.origin.table.shape.slots }
        ensures exact { InternedWeakPasses self.now.origin.table seat.old seat.new.passed text.now result }
    {
        if is_too_long(self, text) {
            seat.passed = 0;
            return InternedWeak::TooLong;
        }
        match self.intern_wait(rt, seat, text) {
            Answer::Found(handle) => InternedWeak::Found(handle),
            Answer::NoSlot => InternedWeak::NoSlot,
            Answer::Created(handle) => InternedWeak::Created(handle),
            _ => unreachable!(),
        }
    }
}
