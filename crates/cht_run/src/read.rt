//! Reading the text of a handle.
ghost use Rattle.std.specs.Prelude.{◌≡◌, ℕ, ◌+◌, ◌*◌, ◌<◌, ◌≤◌, [], ◌∷◌, ◌++◌, length, if◌then◌else◌, slice_set};
ghost use Rattle.text_words.specs.Words.{words_of};
ghost use Rattle.intern_log.specs.declared.event.Kind.TheVariants.{Counted, Weak};
ghost use Rattle.intern_log.specs.declared.event.What.TheVariants as what;
ghost use Rattle.atomic_step.specs.Count.{is_live};
ghost use Rattle.atomic_step.specs.declared.answer.Answer.TheVariants as answer;
ghost use Rattle.atomic_step.specs.declared.step.Step.TheVariants as step;
ghost use Rattle.call_machine.specs.declared.enter.EnterStage.TheVariants as enter;
ghost use Rattle.call_machine.specs.declared.leave.LeaveStage.TheVariants as leave;
ghost use Rattle.call_machine.specs.declared.leave.Then.TheVariants as next;
ghost use Rattle.call_machine.specs.declared.read.ReadStage.TheVariants as read;
ghost use Rattle.call_machine.specs.declared.stage.CallStage.TheVariants as stage;
ghost use Rattle.call_machine.specs.Leave.{leaves_with};
ghost use Rattle.call_machine.specs.Read.{reads_from, read_all};
ghost use Rattle.cht_core.specs.Begins.{MayRead};
ghost use Rattle.cht_run.specs.Calls.{At};
ghost use Rattle.cht_run.specs.Ended.{Ended, KeepsFields, KeepsWork, Only};
ghost use Rattle.cht_run.specs.History.{log_of};
ghost use Rattle.cht_run.specs.ReadKept.{StageReads};
ghost use Rattle.cht_run.specs.Reads.{sections_of, WhyReads, HasRead, HoldsText, ReadsText, done_by, IsLonger, IsLong, text_answer};
ghost use Rattle.cht_run.specs.Seats.{seen, numbers, IsOf};
ghost use Rattle.cht_run.specs.Starts.{Starts};

use crate::change::sets_out;
use crate::layout::COUNTER;
use crate::operations::Began;
use crate::seat::{Raw, Seat};
use crate::table::Cht;
use atomic_step::count::is_live;
use atomic_step::{Answer, Step};
use call_machine::stage::{Along, Request};
use intern_log::{Handle, Kind};
use marked_word::{length_in, section_word};
use std::marker::Brand;
use text_words::words_of;

/// What reading the text of a handle comes to.
#[derive(Clone, Copy, Debug, PartialEq, Eq)]
pub enum TextOf {
    /// The text has so many bytes, and its words were stored.
    Text { length: u16 },
    /// No entry has the handle.
    Stale,
}

impl Cht {
    /// Loads the length of the text, as the first step in a counted table.
    #[inline(always)]
    fn first_length<'t, M: Began>(
        &self,
        seat: &mut Raw,
        request: &Request<'t>,
        along: &Along,
    ) -> u16
        requires starts { Starts self.now M.sight M.call request.now seat.old along.now (stage.Read read.Meta) (step.LoadMeta request.now.handle.slot) }
        ensures at { At self.now M.sight M.call request.now seat.new along.now (reads_from request.now.kind 0 result) }
        ensures own { done_by M.sight.number seat.new.me.0 ≡ done_by M.sight.number M.sight }
        ensures long { IsLong (log_of seat.new.me.0.history) request.now.handle result }
        ensures short { result ≤ 8 * self.now.origin.table.shape.text_words }
    {
        let slot = request.handle.slot;
        let index = self.layout.meta(slot);
        length_in(self.begin_load::<M>(seat, Step::LoadMeta { slot }, index))
    }

    /// Loads the counter, before a section is opened.
    #[inline(always)]
    fn read_counter<'t, M: Began>(
        &self,
        seat: &mut Raw,
        request: &Request<'t>,
        along: &Along,
    ) -> u64
        requires starts { Starts self.now M.sight M.call request.now seat.old along.now (stage.Read (read.Enter enter.LoadCounter)) step.LoadCounter }
        ensures at { At self.now M.sight M.call request.now seat.new along.now (stage.Read (read.Enter (enter.OpenSection result))) }
        ensures own { done_by M.sight.number seat.new.me.0 ≡ done_by M.sight.number M.sight }
    {
        self.begin_load::<M>(seat, Step::LoadCounter, COUNTER)
    }

    /// Opens the section in which the text is read.
    #[inline(always)]
    fn read_open<'t, M: Began>(
        &self,
        seat: &mut Raw,
        request: &Request<'t>,
        along: &Along,
        counter: u64,
    )
        requires at { At self.now M.sight M.call request.now seat.old along.now (stage.Read (read.Enter (enter.OpenSection counter))) }
        ensures at { At self.now M.sight M.call request.now seat.new along.now (stage.Read read.Count) }
        ensures own { done_by M.sight.number seat.new.me.0 ≡ done_by M.sight.number seat.old.me.0 ++ what.Open counter ∷ [] }
    {
        let number = request.number;
        let index = self.layout.section(number);
        let word = section_word(Some(counter));
        self.store(seat, Step::OpenSection { number, counter }, index, word);
    }

    /// Whether the entry of the handle is live.
    #[inline(always)]
    fn read_live<'t, M: Began>(&self, seat: &mut Raw, request: &Request<'t>, along: &Along) -> bool
        requires at { At self.now M.sight M.call request.now seat.old along.now (stage.Read read.Count) }
        ensures at { At self.now M.sight M.call request.now seat.new along.now (if result then stage.Read read.Meta else stage.Leave (leave.Close (next.Answer answer.Stale))) }
        ensures own { done_by M.sight.number seat.new.me.0 ≡ done_by M.sight.number seat.old.me.0 }
    {
        let slot = request.handle.slot;
        let index = self.layout.count(slot);
        let count = self.load(seat, Step::LoadCount { slot }, index);
        is_live(request.handle, count)
    }

    /// Loads the length of the text, inside a section.
    #[inline(always)]
    fn read_length<'t, M: Began>(&self, seat: &mut Raw, request: &Request<'t>, along: &Along) -> u16
        requires at { At self.now M.sight M.call request.now seat.old along.now (stage.Read read.Meta) }
        ensures at { At self.now M.sight M.call request.now seat.new along.now (reads_from request.now.kind 0 result) }
        ensures own { done_by M.sight.number seat.new.me.0 ≡ done_by M.sight.number seat.old.me.0 }
        ensures long { IsLong (log_of seat.new.me.0.history) request.now.handle result }
        ensures short { result ≤ 8 * self.now.origin.table.shape.text_words }
    {
        let slot = request.handle.slot;
        let index = self.layout.meta(slot);
        length_in(self.load(seat, Step::LoadMeta { slot }, index))
    }

    /// Loads a word of the text.
    #[inline(always)]
    fn read_word<'t, M: Began>(
        &self,
        seat: &mut Raw,
        request: &Request<'t>,
        along: &Along,
        at: u32,
        length: u16,
    ) -> u64
        requires at { At self.now M.sight M.call request.now seat.old along.now (stage.Read (read.Text at length)) }
        ensures at { At self.now M.sight M.call request.now seat.new along.now (reads_from request.now.kind (at + 1) length) }
        ensures own { done_by M.sight.number seat.new.me.0 ≡ done_by M.sight.number seat.old.me.0 }
        ensures says { StageReads (log_of seat.new.me.0.history) request.now.handle (stage.Read (read.Text at length)) result }
        ensures longer { IsLonger (log_of seat.old.me.0.history) (log_of seat.new.me.0.history) }
    {
        let slot = request.handle.slot;
        let index = self.layout.text(slot, at);
        self.load(seat, Step::LoadText { slot, at }, index)
    }

    /// Closes the section in which the text was read.
    #[inline(always)]
    fn read_close<'t, M: Began>(
        &self,
        seat: &mut Raw,
        request: &Request<'t>,
        along: &Along,
        answer: Answer,
    )
        requires at { At self.now M.sight M.call request.now seat.old along.now (stage.Leave (leave.Close (next.Answer answer))) }
        ensures at { At self.now M.sight M.call request.now seat.new along.now (stage.Answered answer) }
        ensures own { done_by M.sight.number seat.new.me.0 ≡ done_by M.sight.number seat.old.me.0 ++ what.Close ∷ [] }
        ensures longer { IsLonger (log_of seat.old.me.0.history) (log_of seat.new.me.0.history) }
    {
        let number = request.number;
        let index = self.layout.section(number);
        let word = section_word(None);
        self.store(seat, Step::CloseSection { number }, index, word);
    }

    /// Loads the words of the text, and stores them.
    #[inline(always)]
    fn read_words<'t, M: Began>(
        &self,
        seat: &mut Raw,
        request: &Request<'t>,
        along: &Along,
        long: u16,
        out: &mut [u64],
    )
        requires at { At self.now M.sight M.call request.now seat.old along.now (reads_from request.now.kind 0 long) }
        requires long { IsLong (log_of seat.old.me.0.history) request.now.handle long }
        requires room { words_of long ≤ length out.old }
        ensures at { At self.now M.sight M.call request.now seat.new along.now (read_all request.now.kind (answer.Text long)) }
        ensures own { done_by M.sight.number seat.new.me.0 ≡ done_by M.sight.number seat.old.me.0 }
        ensures read { HasRead (log_of seat.new.me.0.history) request.now.handle long (words_of long) out.old out.new }
    {
        for at in 0..words_of(usize::from(long)) as u32 {
            out[at as usize] = self.read_word::<M>(seat, request, along, at, long);
        }
    }

    /// Reads the text of a handle that the seat holds.
    #[inline(always)]
    fn read_held<'t, M: Began>(
        &self,
        seat: &mut Raw,
        request: &Request<'t>,
        along: &Along,
        out: &mut [u64],
    ) -> TextOf
        requires kind { request.now.kind ≡ Counted }
        requires starts { Starts self.now M.sight M.call request.now seat.old along.now (stage.Read read.Meta) (step.LoadMeta request.now.handle.slot) }
        requires room { self.now.origin.table.shape.text_words ≤ length out.old }
        ensures at { At self.now M.sight M.call request.now seat.new along.now (stage.Answered (text_answer result)) }
        ensures own { done_by M.sight.number seat.new.me.0 ≡ done_by M.sight.number M.sight }
        ensures read { ReadsText (log_of seat.new.me.0.history) request.now.handle out.old out.new result }
        ensures held { HoldsText result }
    {
        let length = self.first_length::<M>(seat, request, along);
        self.read_words::<M>(seat, request, along, length, out);
        TextOf::Text { length }
    }

    /// Reads the text of a handle inside a section, if its entry is live.
    #[inline(always)]
    fn read_inside<'t, M: Began>(
        &self,
        seat: &mut Raw,
        request: &Request<'t>,
        along: &Along,
        out: &mut [u64],
    ) -> TextOf
        requires kind { request.now.kind ≡ Weak }
        requires starts { Starts self.now M.sight M.call request.now seat.old along.now (stage.Read (read.Enter enter.LoadCounter)) step.LoadCounter }
        requires room { self.now.origin.table.shape.text_words ≤ length out.old }
        ensures at { At self.now M.sight M.call request.now seat.new along.now (stage.Answered (text_answer result)) }
        ensures own { (counter : ℕ) × (done_by M.sight.number seat.new.me.0 ≡ done_by M.sight.number M.sight ++ sections_of Weak counter) }
        ensures read { ReadsText (log_of seat.new.me.0.history) request.now.handle out.old out.new result }
    {
        let counter = self.read_counter::<M>(seat, request, along);
        self.read_open::<M>(seat, request, along, counter);
        if !self.read_live::<M>(seat, request, along) {
            self.read_close::<M>(seat, request, along, Answer::Stale);
            return TextOf::Stale;
        }
        let length = self.read_length::<M>(seat, request, along);
        self.read_words::<M>(seat, request, along, length, out);
        self.read_close::<M>(seat, request, along, Answer::Text { length });
        TextOf::Text { length }
    }

    /// Reads the text of a handle: stores its words, lowest byte first. In a counted table the seat holds the handle,
    /// and in a weak one it has seen its Create.
    ///
    /// `Stale` comes in a weak table alone, where no entry had the handle at some moment of the call.
    pub fn text_of(&self, seat: &mut Seat, handle: Handle, out: &mut [u64]) -> TextOf
        requires of { IsOf self.now seat.old }
        requires may { MayRead self.now.origin.table.kind (seen seat.old) (numbers seat.old) handle }
        requires room { self.now.origin.table.shape.text_words ≤ length out.old }
        ensures of { IsOf self.now seat.new }
        ensures ended { (counter : ℕ) × Ended self.now.origin.table seat.old seat.new (Only (sections_of self.now.origin.table.kind counter)) (WhyReads self.now.origin.table.kind handle result) }
        ensures works { KeepsWork seat.old seat.new }
        ensures fields { KeepsFields seat.old seat.new }
        ensures read { ReadsText (seen seat.new) handle out.old out.new result }
    {
        let request = self.asks(seat.number, handle);
        let along = sets_out(seat.cursor);
        match request.kind {
            Kind::Counted => self.read_held::<Brand>(&mut seat.raw, &request, &along, out),
            Kind::Weak => self.read_inside::<Brand>(&mut seat.raw, &request, &along, out),
        }
    }
}
