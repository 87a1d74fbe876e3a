//! A split: a number is drawn, and its seat is given away.
ghost use Rattle.std.specs.Prelude.{◌≡◌, ◌≤◌, [], IfOk, IfErr};
ghost use Rattle.atomic_step.specs.declared.step.Step.TheVariants as step;
ghost use Rattle.call_machine.specs.declared.draw.DrawStage.TheVariants as draw;
ghost use Rattle.call_machine.specs.declared.stage.CallStage.TheVariants as stage;
ghost use Rattle.cht_run.specs.Calls.{At};
ghost use Rattle.cht_run.specs.Changes.{Made};
ghost use Rattle.cht_run.specs.Draws.{AllDrawn, IsLeftOut, Parted, counted, DrawnAs};
ghost use Rattle.cht_run.specs.Ends.{HasNothing};
ghost use Rattle.cht_run.specs.Seats.{IsOf};
ghost use Rattle.cht_run.specs.Starts.{Starts};

use crate::change::sets_out;
use crate::layout::DRAWS;
use crate::operations::Began;
use crate::seat::{Raw, Seat};
use crate::table::Cht;
use atomic_step::{Shape, Step};
use call_machine::stage::{Along, Request};
use intern_log::Handle;
use std::marker::Brand;

/// All numbers of the table are drawn.
#[derive(Clone, Copy, Debug, PartialEq, Eq)]
pub struct SeatsSpent;

impl Cht {
    /// Loads how many numbers were drawn.
    #[inline(always)]
    fn count_drawn<'t, M: Began>(&self, seat: &mut Raw, request: &Request<'t>, along: &Along) -> u64
        requires starts { Starts self.now M.sight M.call request.now seat.old along.now (stage.Draw draw.Load) step.LoadDraws }
        ensures at { At self.now M.sight M.call request.now seat.new along.now (counted request.now.shape.seats result) }
        ensures none { Made M.sight seat.new.me.0 [] }
        ensures spent { request.now.shape.seats ≤ result → AllDrawn M.sight.origin.table.shape.seats seat.new.me.0.history }
        ensures slots { seat.new.me.1 ≡ seat.old.me.1 }
    {
        self.begin_load::<M>(seat, Step::LoadDraws, DRAWS)
    }

    /// Raises it: the number that was drawn, if one was left.
    #[inline(always)]
    fn draw_next<'t, M: Began>(
        &self,
        seat: &mut Raw,
        request: &Request<'t>,
        along: &Along,
    ) -> Option<u32>
        requires at { At self.now M.sight M.call request.now seat.old along.now (stage.Draw draw.Add) }
        requires none { Made M.sight seat.old.me.0 [] }
        ensures drawn { DrawnAs self.now M.sight M.call request.now seat.new along.now result }
        ensures slots { seat.new.me.1 ≡ seat.old.me.1 }
    {
        let word = self.fetch_add(seat, Step::Draw, DRAWS, 1);
        if word >= u64::from(request.shape.seats) {
            return None;
        }
        Some(word as u32)
    }

    /// Draws a number, if one is left.
    #[inline(always)]
    fn draw<'t, M: Began>(
        &self,
        seat: &mut Raw,
        request: &Request<'t>,
        along: &Along,
    ) -> Option<u32>
        requires starts { Starts self.now M.sight M.call request.now seat.old along.now (stage.Draw draw.Load) step.LoadDraws }
        ensures drawn { DrawnAs self.now M.sight M.call request.now seat.new along.now result }
        ensures slots { seat.new.me.1 ≡ seat.old.me.1 }
    {
        let word = self.count_drawn::<M>(seat, request, along);
        if word >= u64::from(request.shape.seats) {
            return None;
        }
        self.draw_next::<M>(seat, request, along)
    }

    /// A seat of a number that nobody has, for another thread. It has seen what this one has, and holds nothing.
    pub fn split(&self, seat: &mut Seat) -> Result<Seat, SeatsSpent>
        requires of { IsOf self.now seat.old }
        requires nothing { HasNothing seat.old }
        ensures parted { IfOk result (Parted self.now seat.old seat.new) }
        ensures spent { IfErr result (λ _. IsLeftOut self.now seat.old seat.new) }
    {
        let none = Handle {
            slot: 0,
            generation: 0,
        };
        let request = self.asks(seat.number, none);
        let along = sets_out(seat.cursor);
        let Some(number) = self.draw::<Brand>(&mut seat.raw, &request, &along) else {
            return Err(SeatsSpent);
        };
        let raw = self.cut(&mut seat.raw);
        let Shape { slots, seats, .. } = self.origin.table.shape;
        Ok(Seat {
            raw,
            number,
            cursor: number * (slots / seats),
            passed: 0,
        })
    }
}
