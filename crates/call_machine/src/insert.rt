//! Making an entry: a free slot is claimed from the cursor on, its words are stored, and it is put at the
//! head of the bucket.
ghost use Rattle.std.specs.Prelude.{◌≡◌, ◌<◌};
ghost use Rattle.call_machine.specs.Insert as insert;
ghost use Rattle.call_machine.specs.SoundCall.{IsSoundAt};
ghost use Rattle.call_machine.specs.Sought.{IsRequest, asked_of};

use crate::leave::{LeaveStage, Then, leaves_with, tries_again};
use crate::sought::has_word;
use crate::stage::{Along, CallStage, Goal, Request};
use atomic_step::count::handle_at;
use atomic_step::{Answer, Step};
use intern_log::Handle;
use marked_word::{first_of, is_locked, is_redirected};
use text_words::word_at;

/// Where an intern stands that makes an entry: a free slot, its generation, its words, and its place at
/// the head.
#[derive(Clone, Copy, Debug, PartialEq, Eq)]
pub enum InsertStage {
    Claim { slot: u32, tried: u32 },
    OwnCount { slot: u32 },
    PutMeta { handle: Handle },
    PutText { handle: Handle, at: u32 },
    PutLink { handle: Handle },
    PutCount { handle: Handle },
    Create { handle: Handle },
}

impl InsertStage {
    /// The step of the stage.
    pub(crate) fn step(self, request: &Request<'_>, along: Along) -> Step
        requires request { IsRequest request.now }
        requires at { IsSoundAt (asked_of request.now) along (CallStage.Insert self) }
        ensures value { result ≡ (insert.insert_row (asked_of request.now) along self).step }
    {
        let walk = along.walk;
        match self {
            InsertStage::Claim { slot, .. } => Step::ClaimSlot { slot },
            InsertStage::OwnCount { slot } => Step::LoadCount { slot },
            InsertStage::PutMeta { handle } => Step::PutMeta {
                slot: handle.slot,
                meta: request.sought.meta,
            },
            InsertStage::PutText { handle, at } => Step::PutText {
                slot: handle.slot,
                at,
                word: word_at(request.sought.text, at as usize),
            },
            InsertStage::PutLink { handle } => Step::PutLink {
                slot: handle.slot,
                next: first_of(walk.head),
            },
            InsertStage::PutCount { handle } => Step::PutCount { handle, holds: 1 },
            InsertStage::Create { handle } => Step::CreateEntry {
                handle,
                row: walk.row,
                bucket: walk.bucket,
                head: walk.head,
            },
        }
    }

    /// What comes of the word that the step found.
    pub(crate) fn next(self, request: &Request<'_>, along: Along, word: u64) -> (Along, CallStage)
        requires request { IsRequest request.now }
        requires at { IsSoundAt (asked_of request.now) along (CallStage.Insert self) }
        ensures value { result ≡ (insert.insert_row (asked_of request.now) along self).next word }
    {
        let text = request.sought.text;
        match self {
            InsertStage::Claim { slot, tried } => claimed(request, along, slot, tried, word),
            InsertStage::OwnCount { slot } => {
                let handle = handle_at(slot, word);
                (along, CallStage::Insert(InsertStage::PutMeta { handle }))
            }
            InsertStage::PutMeta { handle } => (along, puts_from(text, handle, 0)),
            InsertStage::PutText { handle, at } => (along, puts_from(text, handle, at + 1)),
            InsertStage::PutLink { handle } => (along, after_link(along.kept, handle)),
            InsertStage::PutCount { handle } => {
                (along, CallStage::Insert(InsertStage::Create { handle }))
            }
            InsertStage::Create { handle } => created(along, request.goal, handle, word),
        }
    }
}

/// In the slot that is kept, or in the first free one from the cursor on.
pub(crate) fn inserts(kept: Option<Handle>, cursor: u32) -> InsertStage
    ensures value { result ≡ insert.inserts kept cursor }
{
    match kept {
        None => InsertStage::Claim {
            slot: cursor,
            tried: 0,
        },
        Some(handle) => InsertStage::PutLink { handle },
    }
}

/// The slot after a slot, and after the last one the first.
fn next_slot(slots: u32, slot: u32) -> u32
    requires inside { slot < slots }
    ensures value { result ≡ insert.next_slot slots slot }
{
    if slot + 1 == slots { 0 } else { slot + 1 }
}

/// The swap of a claim word found a word: the slot is claimed, or the next one is tried, until each was.
fn claimed(
    request: &Request<'_>,
    along: Along,
    slot: u32,
    tried: u32,
    word: u64,
) -> (Along, CallStage)
    requires at { IsSoundAt (asked_of request.now) along (CallStage.Insert (InsertStage.Claim slot tried)) }
    ensures value { result ≡ (insert.insert_row (asked_of request.now) along (InsertStage.Claim slot tried)).next word }
{
    let slots = request.shape.slots;
    let next = next_slot(slots, slot);
    if word == 0 {
        return (
            Along {
                cursor: next,
                ..along
            },
            CallStage::Insert(InsertStage::OwnCount { slot }),
        );
    }
    if tried + 1 == slots {
        return (along, leaves_with(along.kept, Answer::NoSlot));
    }
    let claims = InsertStage::Claim {
        slot: next,
        tried: tried + 1,
    };
    (along, CallStage::Insert(claims))
}

/// The words of the text are stored from one on, and after them the link.
fn puts_from(text: &[u8], handle: Handle, at: u32) -> CallStage
    ensures value { result ≡ CallStage.Insert (insert.puts_from text.now handle at) }
{
    CallStage::Insert(if has_word(text, at) {
        InsertStage::PutText { handle, at }
    } else {
        InsertStage::PutLink { handle }
    })
}

/// After the link comes the count, which a slot that was kept has already.
fn after_link(kept: Option<Handle>, handle: Handle) -> CallStage
    ensures value { result ≡ CallStage.Insert (insert.after_link kept handle) }
{
    CallStage::Insert(match kept {
        None => InsertStage::PutCount { handle },
        Some(_) => InsertStage::Create { handle },
    })
}

/// The exchange of the head found a word: the entry is made, or another was faster.
fn created(along: Along, goal: Goal, handle: Handle, word: u64) -> (Along, CallStage)
    ensures value { result ≡ insert.created along goal handle word }
{
    if word == along.walk.head {
        return (
            Along {
                kept: None,
                ..along
            },
            leaves_with(None, Answer::Created(handle)),
        );
    }
    if goal == Goal::InternWait {
        return (
            Along {
                kept: Some(handle),
                ..along
            },
            tries_again(),
        );
    }
    let then = Then::Answer(lost_head(word));
    (
        along,
        CallStage::Leave(LeaveStage::UndoCount { handle, then }),
    )
}

/// What an exchange says that found another head.
fn lost_head(word: u64) -> Answer
    ensures value { result ≡ insert.lost_head word }
{
    if is_locked(word) || is_redirected(word) {
        Answer::Locked
    } else {
        Answer::Again
    }
}
