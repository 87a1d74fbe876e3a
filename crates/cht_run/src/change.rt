//! The calls by handle: a hold is let go of or made permanent, and an entry that is dead to its owner is killed.
ghost use Rattle.std.specs.Prelude.{◌≡◌, if◌then◌else◌, Some, None};
ghost use Rattle.intern_log.specs.declared.event.Kind.TheVariants.{Counted, Weak};
ghost use Rattle.atomic_step.specs.Count.{holds_of};
ghost use Rattle.atomic_step.specs.declared.count.Change.TheVariants as change;
ghost use Rattle.atomic_step.specs.declared.step.Step.TheVariants as step;
ghost use Rattle.call_machine.specs.declared.handle.HandleStage.TheVariants as handle;
ghost use Rattle.call_machine.specs.declared.stage.CallStage.TheVariants as stage;
ghost use Rattle.call_machine.specs.Handle.{count_found, made_answer, lost_answer};
ghost use Rattle.cht_core.specs.Begins.{IsHeld, IsCreated};
ghost use Rattle.cht_run.specs.Calls.{At};
ghost use Rattle.cht_run.specs.Changes.{Did, DidSome, by_seeing, by_exchange, by_drop, by_permanent, by_kill, drop_answer, permanent_answer, kill_answer, dropped, made_permanent, killed, IsLowered, WhyDrops, WhyPermanent, WhyKills};
ghost use Rattle.cht_run.specs.Ended.{Ended, KeepsFields, KeepsWork, Only};
ghost use Rattle.cht_run.specs.Seats.{seen, numbers, IsOf};
ghost use Rattle.cht_run.specs.Starts.{Starts, IsAsked, sets_out};

use crate::operations::Began;
use crate::seat::{Raw, Seat};
use crate::table::Cht;
use atomic_step::count::{changed, holds_of, is_live};
use atomic_step::{Change, Step};
use call_machine::find::Walk;
use call_machine::sought::Sought;
use call_machine::stage::{Along, Goal, Request};
use intern_log::{Handle, PERMANENT};
use marked_word::Meta;
use std::marker::Brand;
use text_words::hash_of;

/// What letting go of a hold comes to.
#[derive(Clone, Copy, Debug, PartialEq, Eq)]
pub enum TryDrop {
    /// The count after it.
    Dropped { left: u16 },
    /// The count is 65,535, and stays.
    Permanent,
    /// Another seat was faster.
    Again,
}

/// What making a hold permanent comes to.
#[derive(Clone, Copy, Debug, PartialEq, Eq)]
pub enum TryPermanent {
    Done,
    /// Another seat was faster.
    Again,
}

/// What killing an entry comes to.
#[derive(Clone, Copy, Debug, PartialEq, Eq)]
pub enum TryKill {
    Killed,
    /// No entry has the handle.
    Stale,
}

/// What a call takes along that has no walk.
pub(crate) fn sets_out(cursor: u32) -> Along
    ensures value { result ≡ sets_out cursor }
{
    Along {
        cursor,
        walk: Walk {
            row: 0,
            bucket: 0,
            head: 0,
            passed: 0,
        },
        kept: None,
    }
}

impl Cht {
    /// What a call by handle asks.
    pub(crate) fn asks<'t>(&self, number: u32, handle: Handle) -> Request<'t>
        ensures asked { IsAsked self.now.origin number handle result }
    {
        let seed = self.origin.seed;
        let hash = hash_of(seed, &[]);
        Request {
            kind: self.origin.table.kind,
            shape: self.origin.table.shape,
            number,
            goal: Goal::Lookup,
            sought: Sought {
                text: &[],
                hash,
                meta: Meta { hash, length: 0 },
            },
            handle,
            seed,
        }
    }

    /// Loads the count of the handle that is to be changed.
    #[inline(always)]
    fn see<'t, M: Began>(
        &self,
        seat: &mut Raw,
        request: &Request<'t>,
        along: &Along,
        change: Change,
    ) -> u64
        requires starts { Starts self.now M.sight M.call request.now seat.old along.now (stage.Handle (handle.Count change)) (step.SeeHandle change request.now.handle) }
        ensures at { At self.now M.sight M.call request.now seat.new along.now (count_found change request.now.handle result) }
        ensures did { Did M.sight request.now.handle seat.new.me.0 (by_seeing change request.now.handle result) }
    {
        let handle = request.handle;
        let index = self.layout.count(handle.slot);
        self.begin_load::<M>(seat, Step::SeeHandle { change, handle }, index)
    }

    /// Exchanges the count: whether it was still the one that was loaded.
    #[inline(always)]
    fn exchange<'t, M: Began>(
        &self,
        seat: &mut Raw,
        request: &Request<'t>,
        along: &Along,
        change: Change,
        count: u64,
    ) -> bool
        requires at { At self.now M.sight M.call request.now seat.old along.now (stage.Handle (handle.Exchange change count)) }
        requires did { Did M.sight request.now.handle seat.old.me.0 None }
        ensures at { At self.now M.sight M.call request.now seat.new along.now (stage.Answered (if result then made_answer change count else lost_answer change)) }
        ensures did { Did M.sight request.now.handle seat.new.me.0 (by_exchange change request.now.handle count result) }
    {
        let handle = request.handle;
        let index = self.layout.count(handle.slot);
        let step = Step::ChangeEntry {
            change,
            handle,
            count,
        };
        let found = self.compare_exchange(seat, step, index, count, changed(change, count));
        found == count
    }

    /// Lets go of a hold on the handle.
    #[inline(always)]
    fn let_go<'t, M: Began>(&self, seat: &mut Raw, request: &Request<'t>, along: &Along) -> TryDrop
        requires starts { Starts self.now M.sight M.call request.now seat.old along.now (stage.Handle (handle.Count change.Drop)) (step.SeeHandle change.Drop request.now.handle) }
        ensures at { At self.now M.sight M.call request.now seat.new along.now (stage.Answered (drop_answer result)) }
        ensures did { Did M.sight request.now.handle seat.new.me.0 (by_drop request.now.handle result) }
        ensures lowered { IsLowered result }
    {
        let count = self.see::<M>(seat, request, along, Change::Drop);
        let holds = holds_of(count);
        if holds == PERMANENT {
            return TryDrop::Permanent;
        }
        if !self.exchange::<M>(seat, request, along, Change::Drop, count) {
            return TryDrop::Again;
        }
        TryDrop::Dropped { left: holds - 1 }
    }

    /// Makes a hold on the handle one that no drop takes away.
    #[inline(always)]
    fn let_stay<'t, M: Began>(
        &self,
        seat: &mut Raw,
        request: &Request<'t>,
        along: &Along,
    ) -> TryPermanent
        requires starts { Starts self.now M.sight M.call request.now seat.old along.now (stage.Handle (handle.Count change.Permanent)) (step.SeeHandle change.Permanent request.now.handle) }
        ensures at { At self.now M.sight M.call request.now seat.new along.now (stage.Answered (permanent_answer result)) }
        ensures did { DidSome M.sight request.now.handle seat.new.me.0 (by_permanent request.now.handle result) }
    {
        let count = self.see::<M>(seat, request, along, Change::Permanent);
        if self.exchange::<M>(seat, request, along, Change::Permanent, count) {
            TryPermanent::Done
        } else {
            TryPermanent::Again
        }
    }

    /// Kills the entry of the handle, if it is there.
    #[inline(always)]
    fn kill<'t, M: Began>(&self, seat: &mut Raw, request: &Request<'t>, along: &Along) -> TryKill
        requires starts { Starts self.now M.sight M.call request.now seat.old along.now (stage.Handle (handle.Count change.Kill)) (step.SeeHandle change.Kill request.now.handle) }
        ensures at { At self.now M.sight M.call request.now seat.new along.now (stage.Answered (kill_answer result)) }
        ensures did { DidSome M.sight request.now.handle seat.new.me.0 (by_kill request.now.handle result) }
    {
        let count = self.see::<M>(seat, request, along, Change::Kill);
        if !is_live(request.handle, count) {
            return TryKill::Stale;
        }
        if self.exchange::<M>(seat, request, along, Change::Kill, count) {
            TryKill::Killed
        } else {
            TryKill::Stale
        }
    }

    /// Lets go of a hold that the seat has on a handle.
    pub fn try_drop(&self, seat: &mut Seat, handle: Handle) -> TryDrop
        requires of { IsOf self.now seat.old }
        requires kind { self.now.origin.table.kind ≡ Counted }
        requires held { IsHeld (seen seat.old) (numbers seat.old) handle }
        ensures of { IsOf self.now seat.new }
        ensures ended { Ended self.now.origin.table seat.old seat.new (Only (dropped handle result)) (WhyDrops seat.old.number handle result) }
        ensures works { KeepsWork seat.old seat.new }
        ensures fields { KeepsFields seat.old seat.new }
    {
        let request = self.asks(seat.number, handle);
        let along = sets_out(seat.cursor);
        self.let_go::<Brand>(&mut seat.raw, &request, &along)
    }

    /// Makes a hold that the seat has on a handle one that no drop takes away.
    pub fn try_permanent(&self, seat: &mut Seat, handle: Handle) -> TryPermanent
        requires of { IsOf self.now seat.old }
        requires kind { self.now.origin.table.kind ≡ Counted }
        requires held { IsHeld (seen seat.old) (numbers seat.old) handle }
        ensures of { IsOf self.now seat.new }
        ensures ended { Ended self.now.origin.table seat.old seat.new (Only (made_permanent handle result)) (WhyPermanent seat.old.number handle result) }
        ensures works { KeepsWork seat.old seat.new }
        ensures fields { KeepsFields seat.old seat.new }
    {
        let request = self.asks(seat.number, handle);
        let along = sets_out(seat.cursor);
        self.let_stay::<Brand>(&mut seat.raw, &request, &along)
    }

    /// Kills the entry of a handle whose Create the seat has seen.
    pub fn try_kill(&self, seat: &mut Seat, handle: Handle) -> TryKill
        requires of { IsOf self.now seat.old }
        requires kind { self.now.origin.table.kind ≡ Weak }
        requires created { IsCreated (seen seat.old) handle }
        ensures of { IsOf self.now seat.new }
        ensures ended { Ended self.now.origin.table seat.old seat.new (Only (killed handle result)) (WhyKills seat.old.number handle result) }
        ensures works { KeepsWork seat.old seat.new }
        ensures fields { KeepsFields seat.old seat.new }
    {
        let request = self.asks(seat.number, handle);
        let along = sets_out(seat.cursor);
        self.kill::<Brand>(&mut seat.raw, &request, &along)
    }
}
