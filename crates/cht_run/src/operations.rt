//! An atomic step of a seat's call on the shared words. One law serves all of them.
ghost use Rattle.std.specs.Prelude.{◌≡◌, Some};
ghost use Rattle.atomic_step.specs.declared.access.Deed.TheVariants as deed;
ghost use Rattle.atomic_step.specs.declared.plan.Plan.TheVariants as plan;
ghost use Rattle.atomic_step.specs.SoundStep.{IsSoundStep};
ghost use Rattle.call_machine.specs.Machine.{plan_of};
ghost use Rattle.cht_run.specs.Begins.{MayCall, first_of, next_in, SoundIn, FitsIn, GoesOn, GoesFirst};
ghost use Rattle.cht_run.specs.Layouts.{Does};
ghost use Rattle.cht_run.specs.Seats.{Sits};

use crate::seat::Raw;
use crate::sight::Sight;
use crate::table::Cht;
use atomic_step::{Deed, Step};
use atomic_table::Play;
use std::marker::{Brand, PhantomData};

/// A call, and what its seat was as it began. Each call picks it.
pub(crate) trait Began {
    ghost use Rattle.call_machine.specs.declared.call.Call.{Call};
    ghost use Rattle.cht_run.specs.declared.sight.Sight.{Sight};

    ghost sight: { Sight };

    ghost call: { Call };
}

impl Began for Brand {
    ghost use Rattle.call_machine.specs.declared.call.Call.TheVariants as call;
    ghost use Rattle.cht_run.specs.Calls.{nowhere};

    ghost sight = { nowhere };

    ghost call = { call.Split };
}

/// The first step of a call: what is kept of the seat has nothing of it yet.
pub(crate) struct First<M> {
    of: PhantomData<M>,
}

impl<M: Began> Play<(), Sight> for First<M> {
    ghost then = { λ _ me n after. GoesFirst M.call me.0 n after.0 × (after.1 ≡ me.1) };
}

/// A further step of the call that is kept of the seat.
pub(crate) struct Further;

impl Play<(), Sight> for Further {
    ghost then = { λ _ me n after. GoesOn me.0 n after.0 × (after.1 ≡ me.1) };
}

impl Cht {
    /// Loads a word as the first step of a call, and answers it.
    #[inline(always)]
    pub(crate) fn begin_load<M: Began>(&self, seat: &mut Raw, step: Step, at: u32) -> u64
        requires sits { Sits self.now seat.old }
        requires call { MayCall seat.old.me.0 M.call }
        requires next { plan_of (first_of seat.old.me.0 M.call) ≡ plan.Step step }
        requires sound { IsSoundStep self.now.origin.table.shape seat.old.me.0.number step }
        requires loads { Does self.now.layout.shape step at deed.Load }
        ensures sits { Sits self.now seat.new }
        ensures told { GoesFirst M.call seat.old.me.0 result seat.new.me.0 }
    {
        let _step = step;
        self.table.shared.load::<First<M>>(seat, at as usize)
    }

    /// Loads a word as the next step of the seat's call, and answers it.
    #[inline(always)]
    pub(crate) fn load(&self, seat: &mut Raw, step: Step, at: u32) -> u64
        requires sits { Sits self.now seat.old }
        requires next { next_in seat.old.me.0.seat ≡ Some step }
        requires sound { SoundIn self.now.origin seat.old.me.0.number seat.old.me.0.seat }
        requires loads { Does self.now.layout.shape step at deed.Load }
        ensures sits { Sits self.now seat.new }
        ensures told { GoesOn seat.old.me.0 result seat.new.me.0 }
        ensures fits { FitsIn seat.old.me.0.seat result }
    {
        let _step = step;
        self.table.shared.load::<Further>(seat, at as usize)
    }

    /// Stores a word as the next step of the seat's call, and answers the word that it found.
    #[inline(always)]
    pub(crate) fn store(&self, seat: &mut Raw, step: Step, at: u32, value: u64) -> u64
        requires sits { Sits self.now seat.old }
        requires next { next_in seat.old.me.0.seat ≡ Some step }
        requires sound { SoundIn self.now.origin seat.old.me.0.number seat.old.me.0.seat }
        requires stores { Does self.now.layout.shape step at (deed.Store value) }
        ensures sits { Sits self.now seat.new }
        ensures told { GoesOn seat.old.me.0 result seat.new.me.0 }
        ensures fits { FitsIn seat.old.me.0.seat result }
    {
        let _step = step;
        self.table.shared.swap::<Further>(seat, at as usize, value)
    }

    /// Swaps a word as the next step of the seat's call, and answers the word that it found.
    #[inline(always)]
    pub(crate) fn swap(&self, seat: &mut Raw, step: Step, at: u32, value: u64) -> u64
        requires sits { Sits self.now seat.old }
        requires next { next_in seat.old.me.0.seat ≡ Some step }
        requires sound { SoundIn self.now.origin seat.old.me.0.number seat.old.me.0.seat }
        requires swaps { Does self.now.layout.shape step at (deed.Swap value) }
        ensures sits { Sits self.now seat.new }
        ensures told { GoesOn seat.old.me.0 result seat.new.me.0 }
        ensures fits { FitsIn seat.old.me.0.seat result }
    {
        let _step = step;
        self.table.shared.swap::<Further>(seat, at as usize, value)
    }

    /// Exchanges a word, where it is the old one, as the next step of the seat's call, and answers the word that it found.
    #[inline(always)]
    pub(crate) fn compare_exchange(
        &self,
        seat: &mut Raw,
        step: Step,
        at: u32,
        old: u64,
        new: u64,
    ) -> u64
        requires sits { Sits self.now seat.old }
        requires next { next_in seat.old.me.0.seat ≡ Some step }
        requires sound { SoundIn self.now.origin seat.old.me.0.number seat.old.me.0.seat }
        requires exchanges { Does self.now.layout.shape step at (deed.Exchange old new) }
        ensures sits { Sits self.now seat.new }
        ensures told { GoesOn seat.old.me.0 result seat.new.me.0 }
        ensures fits { FitsIn seat.old.me.0.seat result }
    {
        let _step = step;
        self.table
            .shared
            .compare_exchange::<Further>(seat, at as usize, old, new)
    }

    /// Adds to a word as the next step of the seat's call, and answers the word that it found.
    #[inline(always)]
    pub(crate) fn fetch_add(&self, seat: &mut Raw, step: Step, at: u32, value: u64) -> u64
        requires sits { Sits self.now seat.old }
        requires next { next_in seat.old.me.0.seat ≡ Some step }
        requires sound { SoundIn self.now.origin seat.old.me.0.number seat.old.me.0.seat }
        requires adds { Does self.now.layout.shape step at (deed.Add value) }
        ensures sits { Sits self.now seat.new }
        ensures told { GoesOn seat.old.me.0 result seat.new.me.0 }
        ensures fits { FitsIn seat.old.me.0.seat result }
    {
        let _step = step;
        self.table
            .shared
            .fetch_add::<Further>(seat, at as usize, value)
    }

    /// Makes the first step of a call, whatever it is, and answers the word that it found.
    pub(crate) fn begin<M: Began>(&self, seat: &mut Raw, step: Step) -> u64
        requires sits { Sits self.now seat.old }
        requires call { MayCall seat.old.me.0 M.call }
        requires next { plan_of (first_of seat.old.me.0 M.call) ≡ plan.Step step }
        requires sound { IsSoundStep self.now.origin.table.shape seat.old.me.0.number step }
        ensures sits { Sits self.now seat.new }
        ensures told { GoesFirst M.call seat.old.me.0 result seat.new.me.0 }
    {
        let access = step.access();
        let at = self.layout.index(access.place) as usize;
        let shared = &self.table.shared;
        match access.deed {
            Deed::Load => shared.load::<First<M>>(seat, at),
            Deed::Store(value) | Deed::Swap(value) => shared.swap::<First<M>>(seat, at, value),
            Deed::Add(value) => shared.fetch_add::<First<M>>(seat, at, value),
            Deed::Exchange { old, new } => shared.compare_exchange::<First<M>>(seat, at, old, new),
        }
    }
}
