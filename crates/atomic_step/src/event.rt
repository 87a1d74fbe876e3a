//! What a step adds to the log of its table.
ghost use Rattle.std.specs.Prelude.{◌≡◌, ◌≤◌, ℕ, List, length, MatchResult};
ghost use Rattle.atomic_step.specs.Event as events;
ghost use Rattle.atomic_step.specs.Event.{NamesItsText, NamesNoText};

use crate::count::{Change, handle_at, holds_of};
use crate::step::Step;
use intern_log::{Handle, Kind, PERMANENT, Text, What};
use std::alloc::{AllocError, Global};

/// A copy of a call's text.
fn copy_of(alloc: Global, text: &[u8]) -> Result<Text, AllocError>
    requires short { length text.now ≤ 65535 }
    ensures value { MatchResult result (λ copy. copy ≡ text.now) (λ _. Unit {0}) }
{
    match Text::of(alloc, text) {
        Ok(copy) => Ok(copy),
        Err(_) => Err(AllocError),
    }
}

/// What a change of a count is.
fn change_of(change: Change, handle: Handle) -> What
    ensures value { result ≡ events.change_of change handle }
{
    match change {
        Change::Drop => What::Drop(handle),
        Change::Permanent => What::Perm(handle),
        Change::Kill => What::Kill(handle),
    }
}

impl Step {
    /// What the step adds to the log, where it finds the word; the text is that of its call. Memory may be
    /// wanting only where the event names the text, and then nothing is lost.
    pub fn event(self, alloc: Global, text: &[u8], word: u64) -> Result<Option<What>, AllocError>
        requires short { length text.now ≤ 65535 }
        ensures value { MatchResult result (λ event. event ≡ events.event_of text.now self word) (λ _. NamesItsText (events.event_of text.now self word)) }
    {
        match self {
            Step::SeeEntry {
                kind: Kind::Weak,
                slot,
            } if holds_of(word) != 0 => {
                Ok(Some(What::Found(copy_of(alloc, text)?, handle_at(slot, word))))
            }
            Step::TakeEntry { slot, count } if word == count => {
                Ok(Some(What::Take(copy_of(alloc, text)?, handle_at(slot, count))))
            }
            Step::CreateEntry { handle, head, .. } if word == head => {
                Ok(Some(What::Create(copy_of(alloc, text)?, handle)))
            }
            _ => Ok(self.plain_event(word)),
        }
    }

    /// The same of an event that names no text.
    fn plain_event(self, word: u64) -> Option<What>
        requires plain { (text : List ℕ) → NamesNoText (events.event_of text self word) }
        ensures value { (text : List ℕ) → result ≡ events.event_of text self word }
    {
        match self {
            Step::OpenSection { counter, .. } => Some(What::Open(counter)),
            Step::CloseSection { .. } => Some(What::Close),
            Step::SeeHandle {
                change: Change::Drop,
                handle,
            } if holds_of(word) == PERMANENT => Some(What::Drop(handle)),
            Step::ChangeEntry {
                change,
                handle,
                count,
            } if word == count => Some(change_of(change, handle)),
            Step::ClaimSlot { slot } if word == 0 => Some(What::Claim(slot)),
            Step::FreeSlot { slot } => Some(What::Free(slot)),
            Step::RaiseCounter => Some(What::Grace),
            Step::LockHead { row, bucket, head } if word == head => Some(What::Lock(row, bucket)),
            Step::UnlockHead { row, bucket, .. } => Some(What::Unlock(row, bucket)),
            Step::Unlink { slot, .. } => Some(What::Unlink(slot)),
            Step::TakeResizeLock { .. } if word == 0 => Some(What::ResizeTaken),
            Step::GiveResizeLock => Some(What::ResizeGiven),
            Step::PutHead { row, bucket, .. } => Some(What::Lock(row, bucket)),
            Step::StoreLevel { level } => Some(What::Level(level)),
            _ => None,
        }
    }
}
