//! Making an entry: a free slot is claimed, its words are stored, and it is put at the head of its bucket.
ghost use Rattle.std.specs.Prelude.{◌≡◌, ◌<◌, ◌+◌, length, None, Some, IfSome};
ghost use Rattle.text_words.specs.Words.{words_of};
ghost use Rattle.atomic_step.specs.Count.{handle_at};
ghost use Rattle.atomic_step.specs.Step.{plain_head};
ghost use Rattle.call_machine.specs.declared.insert.InsertStage.TheVariants as insert;
ghost use Rattle.call_machine.specs.declared.leave.LeaveStage.TheVariants as leave;
ghost use Rattle.call_machine.specs.declared.leave.Then.TheVariants as next;
ghost use Rattle.call_machine.specs.declared.stage.CallStage.TheVariants as stage;
ghost use Rattle.call_machine.specs.declared.stage.Goal.TheVariants as goal;
ghost use Rattle.call_machine.specs.Insert.{next_slot, puts_from, after_link, lost_head};
ghost use Rattle.call_machine.specs.Sought.{asked_of};
ghost use Rattle.cht_run.specs.Calls.{At};
ghost use Rattle.cht_run.specs.Inserts.{claimed, claimed_any, created};
ghost use Rattle.cht_run.specs.Walked.{IsInsertAnswer};

use crate::operations::Began;
use crate::seat::Raw;
use crate::table::Cht;
use atomic_step::count::{handle_at, holds_word};
use atomic_step::{Answer, Step};
use call_machine::find::Walk;
use call_machine::stage::{Along, Request};
use intern_log::Handle;
use marked_word::{Head, first_of, is_locked, is_redirected, link_word};
use text_words::{word_at, words_of};

/// The slot after a slot, and after the last one the first.
#[inline(always)]
fn next_slot(slots: u32, slot: u32) -> u32
    requires slot { slot < slots }
    ensures value { result ≡ next_slot slots slot }
{
    if slot + 1 == slots { 0 } else { slot + 1 }
}

/// The word of a head without a mark, whose first node is in this slot.
#[inline(always)]
fn head_of(slot: u32) -> u64
    ensures value { result ≡ plain_head (Some slot) }
{
    let head = Head {
        node: Some(slot),
        lock: false,
        redirect: false,
    };
    head.to_word()
}

/// What the exchange of a head says that found another one.
#[inline(always)]
fn lost_head(word: u64) -> Answer
    ensures value { result ≡ lost_head word }
    ensures only { IsInsertAnswer result }
{
    if is_locked(word) || is_redirected(word) {
        Answer::Locked
    } else {
        Answer::Again
    }
}

impl Cht {
    /// Tries to claim a slot.
    #[inline(always)]
    fn claim<'t, M: Began>(
        &self,
        seat: &mut Raw,
        request: &Request<'t>,
        along: &Along,
        slot: u32,
        tried: u32,
    ) -> (Along, bool)
        requires at { At self.now M.sight M.call request.now seat.old along.now (stage.Insert (insert.Claim slot tried)) }
        requires slot { slot < request.now.shape.slots }
        ensures at { At self.now M.sight M.call request.now seat.new result.0 (claimed (asked_of request.now) result.0 slot tried result.1) }
        ensures kept { result.0.kept ≡ along.now.kept }
        ensures walk { result.0.walk ≡ along.now.walk }
    {
        let index = self.layout.claim(slot);
        if self.swap(seat, Step::ClaimSlot { slot }, index, 1) == 0 {
            let cursor = next_slot(request.shape.slots, slot);
            (Along { cursor, ..*along }, true)
        } else {
            (*along, false)
        }
    }

    /// Loads the count of the slot that was claimed: the handle of its next entry.
    #[inline(always)]
    fn own_count<'t, M: Began>(
        &self,
        seat: &mut Raw,
        request: &Request<'t>,
        along: &Along,
        slot: u32,
    ) -> Handle
        requires at { At self.now M.sight M.call request.now seat.old along.now (stage.Insert (insert.OwnCount slot)) }
        ensures at { At self.now M.sight M.call request.now seat.new along.now (stage.Insert (insert.PutMeta result)) }
        ensures slot { result.slot ≡ slot }
    {
        let index = self.layout.count(slot);
        let count = self.load(seat, Step::LoadCount { slot }, index);
        handle_at(slot, count)
    }

    /// Stores the hash and the length.
    #[inline(always)]
    fn put_meta<'t, M: Began>(
        &self,
        seat: &mut Raw,
        request: &Request<'t>,
        along: &Along,
        handle: Handle,
    )
        requires at { At self.now M.sight M.call request.now seat.old along.now (stage.Insert (insert.PutMeta handle)) }
        ensures at { At self.now M.sight M.call request.now seat.new along.now (stage.Insert (puts_from request.now.sought.text.now handle 0)) }
    {
        let meta = request.sought.meta;
        let slot = handle.slot;
        let index = self.layout.meta(slot);
        self.store(seat, Step::PutMeta { slot, meta }, index, meta.to_word());
    }

    /// Stores a word of the text.
    #[inline(always)]
    fn put_text<'t, M: Began>(
        &self,
        seat: &mut Raw,
        request: &Request<'t>,
        along: &Along,
        handle: Handle,
        at: u32,
    )
        requires at { At self.now M.sight M.call request.now seat.old along.now (stage.Insert (insert.PutText handle at)) }
        requires word { at < words_of (length request.now.sought.text.now) }
        ensures at { At self.now M.sight M.call request.now seat.new along.now (stage.Insert (puts_from request.now.sought.text.now handle (at + 1))) }
    {
        let word = word_at(request.sought.text, at as usize);
        let slot = handle.slot;
        let index = self.layout.text(slot, at);
        self.store(seat, Step::PutText { slot, at, word }, index, word);
    }

    /// Stores the link: the entry leads to the first node of its bucket.
    #[inline(always)]
    pub(crate) fn put_link<'t, M: Began>(
        &self,
        seat: &mut Raw,
        request: &Request<'t>,
        along: &Along,
        handle: Handle,
    )
        requires at { At self.now M.sight M.call request.now seat.old along.now (stage.Insert (insert.PutLink handle)) }
        ensures at { At self.now M.sight M.call request.now seat.new along.now (stage.Insert (after_link along.now.kept handle)) }
    {
        let next = first_of(along.walk.head);
        let slot = handle.slot;
        let index = self.layout.link(slot);
        self.store(seat, Step::PutLink { slot, next }, index, link_word(next));
    }

    /// Stores the count: one hold.
    #[inline(always)]
    fn put_count<'t, M: Began>(
        &self,
        seat: &mut Raw,
        request: &Request<'t>,
        along: &Along,
        handle: Handle,
    )
        requires at { At self.now M.sight M.call request.now seat.old along.now (stage.Insert (insert.PutCount handle)) }
        ensures at { At self.now M.sight M.call request.now seat.new along.now (stage.Insert (insert.Create handle)) }
    {
        let index = self.layout.count(handle.slot);
        let word = holds_word(handle, 1);
        self.store(seat, Step::PutCount { handle, holds: 1 }, index, word);
    }

    /// Puts the entry at the head of its bucket: none where it stands there, and else what another has done.
    #[inline(always)]
    pub(crate) fn create<'t, M: Began>(
        &self,
        seat: &mut Raw,
        request: &Request<'t>,
        along: &Along,
        handle: Handle,
    ) -> Option<Answer>
        requires at { At self.now M.sight M.call request.now seat.old along.now (stage.Insert (insert.Create handle)) }
        ensures only { IfSome result IsInsertAnswer }
        ensures at { At self.now M.sight M.call request.now seat.new (created along.now request.now.goal handle result).0 (created along.now request.now.goal handle result).1 }
    {
        let Walk {
            row,
            bucket,
            head,
            ..
        } = along.walk;
        let index = self.layout.head(row, bucket);
        let step = Step::CreateEntry {
            handle,
            row,
            bucket,
            head,
        };
        let word = self.compare_exchange(seat, step, index, head, head_of(handle.slot));
        if word == head {
            None
        } else {
            Some(lost_head(word))
        }
    }

    /// Claims the first free slot from the cursor on: none where each was taken.
    #[inline(always)]
    pub(crate) fn claim_any<'t, M: Began>(
        &self,
        seat: &mut Raw,
        request: &Request<'t>,
        along: &Along,
    ) -> (Along, Option<u32>)
        requires at { At self.now M.sight M.call request.now seat.old along.now (stage.Insert (insert.Claim along.now.cursor 0)) }
        ensures at { At self.now M.sight M.call request.now seat.new result.0 (claimed_any result.0 result.1) }
        ensures kept { result.0.kept ≡ along.now.kept }
    {
        let slots = request.shape.slots;
        let mut along = *along;
        let mut slot = along.cursor;
        let mut tried = 0;
        loop {
            let (next, free) = self.claim::<M>(seat, request, &along, slot, tried);
            along = next;
            if free {
                return (along, Some(slot));
            }
            if tried + 1 == slots {
                return (along, None);
            }
            slot = next_slot(slots, slot);
            tried += 1;
        }
    }

    /// Fills the slot that was claimed: the handle of its entry.
    #[inline(always)]
    pub(crate) fn fill<'t, M: Began>(
        &self,
        seat: &mut Raw,
        request: &Request<'t>,
        along: &Along,
        slot: u32,
    ) -> Handle
        requires at { At self.now M.sight M.call request.now seat.old along.now (stage.Insert (insert.OwnCount slot)) }
        requires kept { along.now.kept ≡ None }
        ensures at { At self.now M.sight M.call request.now seat.new along.now (stage.Insert (insert.Create result)) }
    {
        let handle = self.own_count::<M>(seat, request, along, slot);
        self.put_meta::<M>(seat, request, along, handle);
        for at in 0..words_of(request.sought.text.len()) as u32 {
            self.put_text::<M>(seat, request, along, handle, at);
        }
        self.put_link::<M>(seat, request, along, handle);
        self.put_count::<M>(seat, request, along, handle);
        handle
    }

    /// Makes an entry, or tells why there is none; the section is still open.
    #[inline(always)]
    pub(crate) fn insert<'t, M: Began>(
        &self,
        seat: &mut Raw,
        request: &Request<'t>,
        along: &Along,
    ) -> (Along, Answer)
        requires at { At self.now M.sight M.call request.now seat.old along.now (stage.Insert (insert.Claim along.now.cursor 0)) }
        requires goal { request.now.goal ≡ goal.Intern }
        requires kept { along.now.kept ≡ None }
        ensures at { At self.now M.sight M.call request.now seat.new result.0 (stage.Leave (leave.Close (next.Answer result.1))) }
        ensures only { IsInsertAnswer result.1 }
    {
        let (along, slot) = self.claim_any::<M>(seat, request, along);
        let Some(slot) = slot else {
            return (along, Answer::NoSlot);
        };
        let handle = self.fill::<M>(seat, request, &along, slot);
        match self.create::<M>(seat, request, &along, handle) {
            None => (
                Along {
                    kept: None,
                    ..along
                },
                Answer::Created(handle),
            ),
            Some(answer) => (
                self.undo::<M>(seat, request, &along, handle, answer),
                answer,
            ),
        }
    }
}
