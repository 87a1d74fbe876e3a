//! Look-ups.
ghost use Rattle.std.specs.Prelude.{◌≡◌, ◌≤◌, true, false, [], length, None};
ghost use Rattle.intern_log.specs.declared.event.Kind.TheVariants.{Counted, Weak};
ghost use Rattle.call_machine.specs.declared.call.Call.TheVariants as call;
ghost use Rattle.call_machine.specs.declared.stage.CallStage.TheVariants as stage;
ghost use Rattle.call_machine.specs.declared.stage.Goal.TheVariants as goal;
ghost use Rattle.call_machine.specs.Sought as texts;
ghost use Rattle.call_machine.specs.Sought.{IsRequest, asked_of};
ghost use Rattle.cht_core.specs.CauseCalls.{IsAbsent};
ghost use Rattle.cht_core.specs.Caused.{MayCause};
ghost use Rattle.cht_core.specs.Slots.{AreBytes};
ghost use Rattle.cht_core.specs.Windows.{Somewhere};
ghost use Rattle.cht_run.specs.Answers.{AreOfWalk, LooksUp, WhyLooksUp, LookupHolds, Finds, FindHolds, WhyFinds};
ghost use Rattle.cht_run.specs.Begins.{own_at, MayCall};
ghost use Rattle.cht_run.specs.Calls.{At};
ghost use Rattle.cht_run.specs.Ended.{Ended, KeepsWork};
ghost use Rattle.cht_run.specs.History.{log_of};
ghost use Rattle.cht_run.specs.PassedChains.{WalkPasses, LookupPasses, FindPasses};
ghost use Rattle.cht_run.specs.Seats.{IsOf, Sits};
ghost use Rattle.cht_run.specs.Walked.{asked_for, IsLookupAnswer, Walked};
ghost use Rattle.cht_run.specs.Walks.{IsWalk};

use crate::node::Meeting;
use crate::operations::Began;
use crate::seat::{Raw, Seat};
use crate::table::Cht;
use atomic_step::Answer;
use call_machine::find::Walk;
use call_machine::sought::Sought;
use call_machine::stage::{Along, Goal, Request};
use intern_log::Handle;
use marked_word::Meta;
use std::marker::Brand;
use text_words::hash_of;

/// What a look-up in a counted table comes to.
#[derive(Clone, Copy, Debug, PartialEq, Eq)]
pub enum TryLookup {
    /// A hold was taken on the text's entry.
    Hit(Handle),
    /// The text was absent at some moment of the call.
    Miss,
    /// Another seat did something to the text's entry first.
    Again,
}

/// What a look-up in a weak table comes to.
#[derive(Clone, Copy, Debug, PartialEq, Eq)]
pub enum TryFind {
    /// The text's entry was live at some moment of the call.
    Hit(Handle),
    /// The text was absent at some moment of the call.
    Miss,
}

/// Whether a text is longer than 65,535 bytes or than a slot's text words.
#[inline(always)]
pub(crate) fn is_too_long(cht: &Cht, text: &[u8]) -> bool
    ensures value { result ≡ texts.is_too_long cht.now.origin.table.shape text.now }
{
    let words = cht.origin.table.shape.text_words as usize;
    text.len() > (8 * words).min(65_535)
}

impl Cht {
    /// What a walk for a text asks, hashed once.
    #[inline(always)]
    pub(crate) fn seek<'t>(&self, seat: &Seat, goal: Goal, text: &'t [u8]) -> Request<'t>
        requires short { length text.now ≤ 65535 }
        ensures request { IsRequest result }
        ensures asked { asked_of result ≡ asked_for self.now seat.now goal text.now }
        ensures text { result.sought.text ≡ text.entry }
        ensures bytes { AreBytes text.now }
    {
        let seed = self.origin.seed;
        let hash = hash_of(seed, text);
        let length = text.len() as u16;
        let meta = Meta { hash, length };
        Request {
            kind: self.origin.table.kind,
            shape: self.origin.table.shape,
            number: seat.number,
            goal,
            sought: Sought { text, hash, meta },
            handle: Handle {
                slot: 0,
                generation: 0,
            },
            seed,
        }
    }

    /// Looks a text up, from the first step to the last.
    #[inline(always)]
    fn look_up_as<'t, M: Began>(
        &self,
        seat: &mut Raw,
        request: &Request<'t>,
        along: &Along,
    ) -> (Along, Answer)
        requires sits { Sits self.now seat.old }
        requires began { M.sight ≡ seat.old.me.0 }
        requires call { MayCall M.sight M.call }
        requires causes { MayCause self.now.origin.table M.sight.number (log_of M.sight.history) (own_at M.sight.seat) M.call }
        requires walk { IsWalk M.sight M.call request.now along.now }
        requires goal { request.now.goal ≡ goal.Lookup }
        requires kept { along.now.kept ≡ None }
        ensures at { At self.now M.sight M.call request.now seat.new result.0 (stage.Answered result.1) }
        ensures only { IsLookupAnswer request.now.kind result.1 }
    {
        let counter = self.enter::<M>(seat, request, along);
        let along = self.find::<M>(seat, request, along, counter);
        let (along, meeting) = self.walk::<M>(seat, request, &along);
        let answer = match meeting {
            None => Answer::Miss,
            Some(Meeting::Met(answer)) => answer,
            Some(Meeting::Lost) => Answer::Again,
        };
        self.close_section::<M>(seat, request, &along, answer);
        (along, answer)
    }

    /// Looks a text up that the table has room for.
    #[inline(always)]
    fn look_up(&self, seat: &mut Seat, text: &[u8]) -> Answer
        requires of { IsOf self.now seat.old }
        requires room { texts.is_too_long self.now.origin.table.shape text.now ≡ false }
        ensures of { IsOf self.now seat.new }
        ensures works { KeepsWork seat.old seat.new }
        ensures only { IsLookupAnswer self.now.origin.table.kind result }
        ensures walked { Walked self.now goal.Lookup text.now seat.old seat.new result }
        ensures few { seat.new.passed ≤ self.now.origin.table.shape.slots }
        ensures exact { WalkPasses self.now.origin.table seat.old seat.new.passed text.now result }
    {
        let request = self.seek(seat, Goal::Lookup, text);
        let along = Along {
            cursor: seat.cursor,
            walk: Walk::NONE,
            kept: None,
        };
        let (along, answer) = self.look_up_as::<Brand>(&mut seat.raw, &request, &along);
        seat.cursor = along.cursor;
        seat.passed = along.walk.passed;
        answer
    }

    /// Looks a text up in a counted table, and takes a hold on its entry. It waits for nobody.
    ///
    /// `Miss` comes only where the text was absent at some moment of the call, and comes for each text that is
    /// longer than a slot has room for. `Again` comes only where another seat did something to the text's entry
    /// during the call. It follows the look-up of `concurrentHashTable.inline.hpp` in HotSpot.
    pub fn try_lookup(&self, seat: &mut Seat, text: &[u8]) -> TryLookup
        requires of { IsOf self.now seat.old }
        requires counted { self.now.origin.table.kind ≡ Counted }
        ensures of { IsOf self.now seat.new }
        ensures ended { Ended self.now.origin.table seat.old seat.new (LooksUp text.now result) (WhyLooksUp seat.old.number text.now result) }
        ensures holds { LookupHolds seat.new result }
        ensures works { KeepsWork seat.old seat.new }
        ensures few { seat.new.passed ≤ self.now.origin.table.shape.slots }
        ensures exact { LookupPasses self.now.origin.table seat.old seat.new.passed text.now result }
    {
        if is_too_long(self, text) {
            self.look_too_long(seat, text);
            return TryLookup::Miss;
        }
        match self.look_up(seat, text) {
            Answer::Hit(handle) => TryLookup::Hit(handle),
            Answer::Miss => TryLookup::Miss,
            Answer::Again => TryLookup::Again,
            _ => unreachable!(),
        }
    }

    /// Looks a text up in a weak table. It waits for nobody.
    ///
    /// `Miss` comes only where the text was absent at some moment of the call, and comes for each text that is
    /// longer than a slot has room for.
    pub fn try_find(&self, seat: &mut Seat, text: &[u8]) -> TryFind
        requires of { IsOf self.now seat.old }
        requires weak { self.now.origin.table.kind ≡ Weak }
        ensures of { IsOf self.now seat.new }
        ensures ended { Ended self.now.origin.table seat.old seat.new (Finds text.now result) (WhyFinds text.now result) }
        ensures holds { FindHolds seat.new result }
        ensures works { KeepsWork seat.old seat.new }
        ensures few { seat.new.passed ≤ self.now.origin.table.shape.slots }
        ensures exact { FindPasses self.now.origin.table seat.old seat.new.passed text.now result }
    {
        if is_too_long(self, text) {
            self.look_too_long(seat, text);
            return TryFind::Miss;
        }
        match self.look_up(seat, text) {
            Answer::Hit(handle) => TryFind::Hit(handle),
            Answer::Miss => TryFind::Miss,
            _ => unreachable!(),
        }
    }

    /// A text that no slot has room for is absent: a word is loaded, so that the seat has seen all that was
    /// before, and the text had no entry then. No node is passed.
    fn look_too_long(&self, seat: &mut Seat, text: &[u8])
        requires of { IsOf self.now seat.old }
        requires long { texts.is_too_long self.now.origin.table.shape text.now ≡ true }
        ensures of { IsOf self.now seat.new }
        ensures ended { Ended self.now.origin.table seat.old seat.new (AreOfWalk []) (λ seen window. Somewhere (IsAbsent text.now) seen window) }
        ensures works { KeepsWork seat.old seat.new }
        ensures none { seat.new.passed ≡ 0 }
    {
        let _text = text;
        self.look(seat, 0);
        seat.passed = 0;
    }
}
