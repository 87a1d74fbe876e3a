//! Sweeping the bucket of a text.
ghost use Rattle.std.specs.Prelude.{◌≡◌};
ghost use Rattle.call_machine.specs.declared.call.Call.TheVariants as call;
ghost use Rattle.call_machine.specs.declared.grace.GraceStage.TheVariants.{RaiseCounter, LoadSection};
ghost use Rattle.call_machine.specs.declared.pass.FreeStage.TheVariants.{PutNextGeneration};
ghost use Rattle.call_machine.specs.declared.sweep.SweepAlong.{SweepAlong};
ghost use Rattle.call_machine.specs.declared.sweep.SweepStage.TheVariants as stage;
ghost use Rattle.call_machine.specs.Pass.{passes_on};
ghost use Rattle.call_machine.specs.Sweep as sweeps;
ghost use Rattle.call_machine.specs.Sweep.{cleans_on, unlocked};
ghost use Rattle.cht_run.specs.Beginnings.{MayBegin};
ghost use Rattle.cht_run.specs.Begins.{caller_in};
ghost use Rattle.cht_run.specs.Ended.{KeepsFields};
ghost use Rattle.cht_run.specs.Ends.{HasNothing};
ghost use Rattle.cht_run.specs.Runs.{Ran};
ghost use Rattle.cht_run.specs.Seats.{sight, IsOf};
ghost use Rattle.cht_run.specs.Sweeps.{Sweeps};
ghost use Rattle.cht_run.specs.SweepSteps.{asks, sweeps_at, passes_in, frees_in, scans_in, ended};
ghost use Rattle.cht_run.specs.Underway.{IsAt};

use crate::heads::plain_head;
use crate::layout::COUNTER;
use crate::operations::Began;
use crate::pass::{Freeing, Passing};
use crate::scan::Scanning;
use crate::seat::{Raw, Seat};
use crate::sight::Origin;
use crate::table::Cht;
use atomic_step::Step;
use call_machine::Grace;
use call_machine::begin::SPENT;
use call_machine::caller::Caller;
use call_machine::find::Walk;
use call_machine::pass::Cleaning;
use call_machine::sweep::{SweepAlong, SweepAsked};
use crossbeam_utils::Backoff;
use std::marker::Brand;
use std::sync::Wait;
use text_words::hash_of;

/// What comes of a sweep.
#[derive(Clone, Copy, Debug, PartialEq, Eq)]
pub enum Swept {
    /// The bucket was cleaned once, and so many slots were unlinked.
    Done { unlinked: u32 },
    /// The counter has reached 2^48: nothing begins any more.
    Spent { counter: u64 },
}

/// What a sweep tells that has cleaned its bucket; 2^32 - 1 stays.
fn sweep_end(cleaning: &Cleaning) -> Swept
    ensures value { ended result ≡ sweeps.swept cleaning.now }
{
    let unlinked = cleaning.unlinked.min(u64::from(u32::MAX)) as u32;
    Swept::Done { unlinked }
}

impl Cht {
    /// Unlinks the dead nodes of the locked bucket.
    fn sweep_chain<M: Began, W: Passing, R: Wait>(
        &self,
        rt: &R,
        seat: &mut Raw,
        asked: &SweepAsked,
        along: &mut SweepAlong,
    )
        requires within { W.passes ≡ passes_in asked.now along.old }
        requires at { IsAt self.now M.sight M.call seat.old (sweeps_at asked.now along.old (cleans_on (passes_on along.old.cleaning.first))) }
        ensures at { IsAt self.now M.sight M.call seat.new (sweeps_at asked.now along.new stage.UnlockHead) }
    {
        let _asked = asked;
        let mut next = along.cleaning.first;
        for _ in rt.forever() {
            let Some(slot) = next else { return };
            next = self.pass_node::<M, W>(seat, &mut along.cleaning, slot);
        }
        unreachable!()
    }

    /// Takes the lock off the bucket.
    #[inline(always)]
    fn leave_swept<M: Began>(&self, seat: &mut Raw, asked: &SweepAsked, along: &SweepAlong)
        requires at { IsAt self.now M.sight M.call seat.old (sweeps_at asked.now along.now stage.UnlockHead) }
        ensures at { IsAt self.now M.sight M.call seat.new (sweeps_at asked.now along.now (unlocked along.now.cleaning along.now.cleaning.waiting.items)) }
    {
        let _asked = asked;
        let Cleaning {
            row,
            bucket,
            first,
            ..
        } = along.cleaning;
        let index = self.layout.head(row, bucket);
        let step = Step::UnlockHead { row, bucket, first };
        self.store(seat, step, index, plain_head(first));
    }

    /// Raises the counter: the grace of the sweep begins.
    #[inline(always)]
    fn raise_swept<M: Began>(&self, seat: &mut Raw, asked: &SweepAsked, along: &mut SweepAlong)
        requires at { IsAt self.now M.sight M.call seat.old (sweeps_at asked.now along.old (stage.Grace RaiseCounter)) }
        ensures at { IsAt self.now M.sight M.call seat.new (sweeps_at asked.now along.new (stage.Grace LoadSection)) }
    {
        let _asked = asked;
        let counter = self.fetch_add(seat, Step::RaiseCounter, COUNTER, 2);
        along.grace = Grace {
            raised: counter + 2,
            next: 0,
        };
    }

    /// Waits until each section that was open as the counter was raised has been closed.
    fn wait_swept<M: Began, W: Scanning, R: Wait>(
        &self,
        rt: &R,
        seat: &mut Raw,
        asked: &SweepAsked,
        along: &mut SweepAlong,
    )
        requires within { W.scans ≡ scans_in asked.now along.old }
        requires at { IsAt self.now M.sight M.call seat.old (sweeps_at asked.now along.old (stage.Grace LoadSection)) }
        ensures at { IsAt self.now M.sight M.call seat.new (sweeps_at asked.now along.new (stage.Free (PutNextGeneration 0))) }
    {
        let _asked = asked;
        let backoff = Backoff::new();
        for _ in rt.forever() {
            if self.scan::<M, W>(seat, &mut along.grace) {
                return;
            }
            backoff.snooze();
        }
        unreachable!()
    }

    /// Frees the slots that wait.
    #[inline(always)]
    fn free_waiting<M: Began, W: Freeing>(
        &self,
        seat: &mut Raw,
        asked: &SweepAsked,
        along: &mut SweepAlong,
    )
        requires within { W.frees ≡ frees_in asked.now along.old }
        requires at { IsAt self.now M.sight M.call seat.old (sweeps_at asked.now along.old (stage.Free (PutNextGeneration 0))) }
        ensures at { IsAt self.now M.sight M.call seat.new (sweeps_at asked.now along.new (sweeps.swept along.new.cleaning)) }
    {
        let _asked = asked;
        self.free_all::<M, W>(seat, &mut along.cleaning);
    }

    /// Frees the slots that wait, after a grace.
    fn free_swept<M: Began, R: Wait>(
        &self,
        rt: &R,
        seat: &mut Raw,
        asked: &SweepAsked,
        along: &mut SweepAlong,
    )
        requires at { IsAt self.now M.sight M.call seat.old (sweeps_at asked.now along.old (stage.Grace RaiseCounter)) }
        ensures at { IsAt self.now M.sight M.call seat.new (sweeps_at asked.now along.new (sweeps.swept along.new.cleaning)) }
    {
        self.raise_swept::<M>(seat, asked, along);
        self.wait_swept::<M, Brand, R>(rt, seat, asked, along);
        self.free_waiting::<M, Brand>(seat, asked, along);
    }

    /// Sweeps a bucket whose head is to be found.
    fn sweep_bucket<M: Began, R: Wait>(
        &self,
        rt: &R,
        seat: &mut Raw,
        asked: &SweepAsked,
        along: &mut SweepAlong,
    ) -> Swept
        requires at { IsAt self.now M.sight M.call seat.old (sweeps_at asked.now along.old sweeps.finds_anew) }
        ensures at { IsAt self.now M.sight M.call seat.new (sweeps_at asked.now along.new (ended result)) }
    {
        self.lock_swept_wait::<M, R>(rt, seat, asked, along);
        self.sweep_chain::<M, Brand, R>(rt, seat, asked, along);
        self.leave_swept::<M>(seat, asked, along);
        if !along.cleaning.waiting.is_empty() {
            self.free_swept::<M, R>(rt, seat, asked, along);
        }
        sweep_end(&along.cleaning)
    }

    /// Sweeps the bucket of a text, from the first step to the last. Its hash is computed once.
    fn sweep_of<'t, M: Began, R: Wait>(
        &self,
        rt: &R,
        seat: &mut Raw,
        caller: Caller,
        text: &'t [u8],
    ) -> Swept
        requires begins { MayBegin self.now M.sight M.call seat.old }
        requires asks { M.call ≡ call.Sweep text }
        requires caller { caller ≡ caller_in M.sight }
        ensures at { (along : SweepAlong) × IsAt self.now M.sight M.call seat.new (sweeps_at (asks M.sight text.now) along (ended result)) }
    {
        let hash = hash_of(caller.seed, text);
        let counter = self.load_counter::<M>(seat);
        if counter >= SPENT {
            return Swept::Spent { counter };
        }
        let mut along = SweepAlong {
            walk: Walk::NONE,
            cleaning: Cleaning::none(caller.shape.min_level, 0),
            grace: Grace::NONE,
        };
        self.sweep_bucket::<M, R>(rt, seat, &SweepAsked { caller, hash }, &mut along)
    }

    /// Who calls with a seat.
    fn caller(&self, seat: &Seat) -> Caller
        requires of { IsOf self.now seat.now }
        ensures value { result ≡ caller_in (sight seat.now) }
    {
        let Origin { table, seed } = self.origin;
        Caller {
            kind: table.kind,
            shape: table.shape,
            seed,
            number: seat.number,
            cursor: seat.cursor,
        }
    }

    /// Sweeps the bucket of a text by a seat.
    fn run_sweep<'t, R: Wait>(&self, rt: &R, seat: &mut Seat, text: &'t [u8]) -> Swept
        requires of { IsOf self.now seat.old }
        requires nothing { HasNothing seat.old }
        ensures of { IsOf self.now seat.new }
        ensures fields { KeepsFields seat.old seat.new }
        ensures ran { (along : SweepAlong) × Ran (sight seat.old) (call.Sweep text.entry) (sight seat.new) (sweeps_at (asks (sight seat.old) text.now) along (ended result)) }
    {
        let caller = self.caller(seat);
        self.sweep_of::<Brand, R>(rt, &mut seat.raw, caller, text)
    }

    /// Sweeps the bucket of a text: unlinks up to 256 of its entries that are gone, and frees their slots
    /// after a grace.
    pub fn sweep<R: Wait>(&self, rt: &R, seat: &mut Seat, text: &[u8]) -> Swept
        requires of { IsOf self.now seat.old }
        requires nothing { HasNothing seat.old }
        ensures of { IsOf self.now seat.new }
        ensures fields { KeepsFields seat.old seat.new }
        ensures swept { Sweeps self.now.origin text.now seat.old seat.new result }
    {
        self.run_sweep(rt, seat, text)
    }
}
