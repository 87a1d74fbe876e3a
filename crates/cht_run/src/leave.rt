//! Leaving a section.
ghost use Rattle.std.specs.Prelude.{◌≡◌, None};
ghost use Rattle.call_machine.specs.declared.enter.EnterStage.TheVariants as enter;
ghost use Rattle.call_machine.specs.declared.find.FindStage.TheVariants as find;
ghost use Rattle.call_machine.specs.declared.leave.LeaveStage.TheVariants as leave;
ghost use Rattle.call_machine.specs.declared.leave.Then.TheVariants as next;
ghost use Rattle.call_machine.specs.declared.stage.CallStage.TheVariants as stage;
ghost use Rattle.call_machine.specs.Leave.{leaves_with};
ghost use Rattle.cht_run.specs.Calls.{At};

use crate::operations::Began;
use crate::seat::Raw;
use crate::table::Cht;
use atomic_step::count::holds_word;
use atomic_step::{Answer, Step};
use call_machine::find::Walk;
use call_machine::stage::{Along, Request};
use intern_log::Handle;
use marked_word::section_word;

impl Cht {
    /// Closes the seat's section, with the answer of its call.
    #[inline(always)]
    pub(crate) fn close_section<'t, M: Began>(
        &self,
        seat: &mut Raw,
        request: &Request<'t>,
        along: &Along,
        answer: Answer,
    )
        requires at { At self.now M.sight M.call request.now seat.old along.now (stage.Leave (leave.Close (next.Answer answer))) }
        ensures at { At self.now M.sight M.call request.now seat.new along.now (stage.Answered answer) }
    {
        let number = request.number;
        let index = self.layout.section(number);
        let word = section_word(None);
        self.store(seat, Step::CloseSection { number }, index, word);
    }

    /// Stores a count of 0 into a slot that was claimed in vain.
    #[inline(always)]
    fn undo_count<'t, M: Began>(
        &self,
        seat: &mut Raw,
        request: &Request<'t>,
        along: &Along,
        handle: Handle,
        answer: Answer,
    )
        requires at { At self.now M.sight M.call request.now seat.old along.now (stage.Leave (leave.UndoCount handle (next.Answer answer))) }
        ensures at { At self.now M.sight M.call request.now seat.new along.now (stage.Leave (leave.UndoClaim handle.slot (next.Answer answer))) }
    {
        let index = self.layout.count(handle.slot);
        let word = holds_word(handle, 0);
        self.store(seat, Step::PutCount { handle, holds: 0 }, index, word);
    }

    /// Gives a slot back that was claimed in vain.
    #[inline(always)]
    fn undo_claim<'t, M: Began>(
        &self,
        seat: &mut Raw,
        request: &Request<'t>,
        along: &Along,
        slot: u32,
        answer: Answer,
    ) -> Along
        requires at { At self.now M.sight M.call request.now seat.old along.now (stage.Leave (leave.UndoClaim slot (next.Answer answer))) }
        ensures at { At self.now M.sight M.call request.now seat.new result (stage.Leave (leave.Close (next.Answer answer))) }
        ensures kept { result.kept ≡ None }
    {
        let index = self.layout.claim(slot);
        self.store(seat, Step::FreeSlot { slot }, index, 0);
        Along {
            kept: None,
            ..*along
        }
    }

    /// Gives back what was claimed in vain, before an answer.
    #[inline(always)]
    pub(crate) fn undo<'t, M: Began>(
        &self,
        seat: &mut Raw,
        request: &Request<'t>,
        along: &Along,
        handle: Handle,
        answer: Answer,
    ) -> Along
        requires at { At self.now M.sight M.call request.now seat.old along.now (stage.Leave (leave.UndoCount handle (next.Answer answer))) }
        ensures at { At self.now M.sight M.call request.now seat.new result (stage.Leave (leave.Close (next.Answer answer))) }
        ensures kept { result.kept ≡ None }
    {
        self.undo_count::<M>(seat, request, along, handle, answer);
        self.undo_claim::<M>(seat, request, along, handle.slot, answer)
    }

    /// Gives back the slot that the call has kept, before an answer.
    #[inline(always)]
    pub(crate) fn give_back<'t, M: Began>(
        &self,
        seat: &mut Raw,
        request: &Request<'t>,
        along: &Along,
        answer: Answer,
    ) -> Along
        requires at { At self.now M.sight M.call request.now seat.old along.now (leaves_with along.now.kept answer) }
        ensures at { At self.now M.sight M.call request.now seat.new result (stage.Leave (leave.Close (next.Answer answer))) }
    {
        match along.kept {
            None => *along,
            Some(handle) => self.undo::<M>(seat, request, along, handle, answer),
        }
    }

    /// Closes the seat's section, to find the head anew.
    #[inline(always)]
    pub(crate) fn close_again<'t, M: Began>(
        &self,
        seat: &mut Raw,
        request: &Request<'t>,
        along: &Along,
    ) -> Along
        requires at { At self.now M.sight M.call request.now seat.old along.now (stage.Leave (leave.Close next.TryAgain)) }
        ensures at { At self.now M.sight M.call request.now seat.new result (stage.Find (find.Enter enter.LoadCounter)) }
    {
        let number = request.number;
        let index = self.layout.section(number);
        let word = section_word(None);
        self.store(seat, Step::CloseSection { number }, index, word);
        Along {
            walk: Walk {
                passed: 0,
                ..along.walk
            },
            ..*along
        }
    }
}
