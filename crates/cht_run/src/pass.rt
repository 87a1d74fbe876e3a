//! Cleaning a locked bucket, and freeing the slots that wait, within whatever call does it.
ghost use Rattle.std.specs.Prelude.{◌≡◌, ◌<◌, ◌+◌, length, Some, None, IfSome};
ghost use Rattle.call_machine.specs.declared.pass.FreeStage.TheVariants as free;
ghost use Rattle.call_machine.specs.declared.pass.PassStage.TheVariants as pass;
ghost use Rattle.call_machine.specs.Pass.{passes_on};
ghost use Rattle.cht_run.specs.Underway.{IsAt, Further, IsPassing, IsFreeing, frees_on};

use crate::operations::Began;
use crate::seat::Raw;
use crate::table::Cht;
use atomic_step::Step;
use atomic_step::count::holds_word;
use call_machine::pass::{BATCH, Cleaning, Waiting, dead_of};
use intern_log::Handle;
use marked_word::node_of;
use std::marker::Brand;

/// A call within which a locked bucket is cleaned: its machine, by the bucket and by the stage of the pass; none at its end.
pub(crate) trait Passing {
    ghost use Rattle.std.specs.Prelude.{Option};
    ghost use Rattle.call_machine.specs.declared.machine.Machine.{Machine};
    ghost use Rattle.call_machine.specs.declared.pass.Cleaning.{Cleaning};
    ghost use Rattle.call_machine.specs.declared.pass.PassStage.{PassStage};

    ghost passes: { Cleaning → Option PassStage → Machine };
}

impl Passing for Brand {
    ghost use Rattle.cht_run.specs.Underway.{no_machine};

    ghost passes = { λ _ _. no_machine };
}

/// A call within which the slots that wait are freed: its machine, by the bucket and by the stage of freeing; none at its end.
pub(crate) trait Freeing {
    ghost use Rattle.std.specs.Prelude.{Option};
    ghost use Rattle.call_machine.specs.declared.machine.Machine.{Machine};
    ghost use Rattle.call_machine.specs.declared.pass.Cleaning.{Cleaning};
    ghost use Rattle.call_machine.specs.declared.pass.FreeStage.{FreeStage};

    ghost frees: { Cleaning → Option FreeStage → Machine };
}

impl Freeing for Brand {
    ghost use Rattle.cht_run.specs.Underway.{no_machine};

    ghost frees = { λ _ _. no_machine };
}

impl Cht {
    /// Loads the count of a node: its generation, if it is dead.
    #[inline(always)]
    fn load_dead<M: Began, W: Passing>(
        &self,
        seat: &mut Raw,
        cleaning: &mut Cleaning,
        slot: u32,
    ) -> Option<u64>
        requires passing { IsPassing W.passes }
        requires at { IsAt self.now M.sight M.call seat.old (W.passes cleaning.old (Some (pass.LoadCount slot))) }
        ensures on { Further self.now M.sight M.call seat.new (W.passes cleaning.old (Some (pass.LoadCount slot))) (W.passes cleaning.new (Some (pass.LoadLink slot result))) }
    {
        let index = self.layout.count(slot);
        let word = self.load(seat, Step::LoadCount { slot }, index);
        cleaning.passed = cleaning.passed.saturating_add(1);
        dead_of(word)
    }

    /// Loads the link of a node that stays in the chain: the next one.
    #[inline(always)]
    fn step_over<M: Began, W: Passing>(
        &self,
        seat: &mut Raw,
        cleaning: &mut Cleaning,
        slot: u32,
    ) -> Option<u32>
        requires passing { IsPassing W.passes }
        requires at { IsAt self.now M.sight M.call seat.old (W.passes cleaning.old (Some (pass.LoadLink slot None))) }
        ensures on { Further self.now M.sight M.call seat.new (W.passes cleaning.old (Some (pass.LoadLink slot None))) (W.passes cleaning.new (passes_on result)) }
    {
        let index = self.layout.link(slot);
        let word = self.load(seat, Step::LoadLink { slot }, index);
        cleaning.last = Some(slot);
        node_of(word)
    }

    /// Loads the link of a dead node: the node behind it.
    #[inline(always)]
    fn look_behind<M: Began, W: Passing>(
        &self,
        seat: &mut Raw,
        cleaning: &Cleaning,
        slot: u32,
        generation: u64,
    ) -> Option<u32>
        requires passing { IsPassing W.passes }
        requires at { IsAt self.now M.sight M.call seat.old (W.passes cleaning.now (Some (pass.LoadLink slot (Some generation)))) }
        ensures on { Further self.now M.sight M.call seat.new (W.passes cleaning.now (Some (pass.LoadLink slot (Some generation)))) (W.passes cleaning.now (Some (pass.Unlink slot generation result))) }
    {
        let _cleaning = cleaning;
        let _generation = generation;
        let index = self.layout.link(slot);
        node_of(self.load(seat, Step::LoadLink { slot }, index))
    }

    /// Leads the edge to a dead node past it. The pass ends where so many slots wait that they are to be freed first.
    #[inline(always)]
    fn unlink<M: Began, W: Passing>(
        &self,
        seat: &mut Raw,
        cleaning: &mut Cleaning,
        slot: u32,
        generation: u64,
        next: Option<u32>,
    ) -> Option<u32>
        requires passing { IsPassing W.passes }
        requires at { IsAt self.now M.sight M.call seat.old (W.passes cleaning.old (Some (pass.Unlink slot generation next))) }
        ensures on { Further self.now M.sight M.call seat.new (W.passes cleaning.old (Some (pass.Unlink slot generation next))) (W.passes cleaning.new (passes_on result)) }
    {
        let edge = cleaning.edge();
        let index = self.layout.edge(edge);
        self.store(
            seat,
            Step::Unlink { slot, edge, next },
            index,
            edge.word(next),
        );
        cleaning.unlink(slot, generation, next);
        if cleaning.waiting.len() == BATCH {
            None
        } else {
            next
        }
    }

    /// Looks at a node of a locked bucket, and unlinks it if it is dead: the node with which the pass goes on.
    #[inline(always)]
    pub(crate) fn pass_node<M: Began, W: Passing>(
        &self,
        seat: &mut Raw,
        cleaning: &mut Cleaning,
        slot: u32,
    ) -> Option<u32>
        requires passing { IsPassing W.passes }
        requires at { IsAt self.now M.sight M.call seat.old (W.passes cleaning.old (Some (pass.LoadCount slot))) }
        ensures on { Further self.now M.sight M.call seat.new (W.passes cleaning.old (Some (pass.LoadCount slot))) (W.passes cleaning.new (passes_on result)) }
    {
        match self.load_dead::<M, W>(seat, cleaning, slot) {
            None => self.step_over::<M, W>(seat, cleaning, slot),
            Some(generation) => {
                let next = self.look_behind::<M, W>(seat, cleaning, slot, generation);
                self.unlink::<M, W>(seat, cleaning, slot, generation, next)
            }
        }
    }

    /// Puts the next generation of a slot that waits.
    #[inline(always)]
    fn put_generation<M: Began, W: Freeing>(&self, seat: &mut Raw, cleaning: &Cleaning, at: u32)
        requires freeing { IsFreeing W.frees }
        requires at { IsAt self.now M.sight M.call seat.old (W.frees cleaning.now (Some (free.PutNextGeneration at))) }
        ensures on { Further self.now M.sight M.call seat.new (W.frees cleaning.now (Some (free.PutNextGeneration at))) (W.frees cleaning.now (Some (free.FreeSlot at))) }
    {
        let Waiting { slot, generation } = cleaning.waiting_at(at);
        let index = self.layout.count(slot);
        let next = Handle {
            slot,
            generation: generation + 1,
        };
        let step = Step::PutNextGeneration { slot, generation };
        self.store(seat, step, index, holds_word(next, 0));
    }

    /// Gives back the claim of a slot that waits: the number of the next one, if there is one.
    #[inline(always)]
    fn free_slot<M: Began, W: Freeing>(
        &self,
        seat: &mut Raw,
        cleaning: &mut Cleaning,
        at: u32,
    ) -> Option<u32>
        requires freeing { IsFreeing W.frees }
        requires at { IsAt self.now M.sight M.call seat.old (W.frees cleaning.old (Some (free.FreeSlot at))) }
        ensures on { Further self.now M.sight M.call seat.new (W.frees cleaning.old (Some (free.FreeSlot at))) (W.frees cleaning.new (frees_on result)) }
        ensures next { IfSome result (λ n. (n ≡ at + 1) × (n < length cleaning.new.waiting.items) × (cleaning.new ≡ cleaning.old)) }
    {
        let slot = cleaning.waiting_at(at).slot;
        let index = self.layout.claim(slot);
        self.store(seat, Step::FreeSlot { slot }, index, 0);
        let next = at + 1;
        if (next as usize) < cleaning.waiting.len() {
            return Some(next);
        }
        cleaning.waiting.clear();
        cleaning.pass_waiting = 0;
        None
    }

    /// Frees the slots that wait, one after another.
    pub(crate) fn free_all<M: Began, W: Freeing>(&self, seat: &mut Raw, cleaning: &mut Cleaning)
        requires freeing { IsFreeing W.frees }
        requires at { IsAt self.now M.sight M.call seat.old (W.frees cleaning.old (Some (free.PutNextGeneration 0))) }
        ensures on { Further self.now M.sight M.call seat.new (W.frees cleaning.old (Some (free.PutNextGeneration 0))) (W.frees cleaning.new None) }
    {
        let mut at = 0;
        loop {
            self.put_generation::<M, W>(seat, cleaning, at);
            match self.free_slot::<M, W>(seat, cleaning, at) {
                Some(next) => at = next,
                None => return,
            }
        }
    }
}
