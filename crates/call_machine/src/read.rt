//! Reading the text of a handle.
ghost use Rattle.std.specs.Prelude.{◌≡◌, ◌<◌};
ghost use Rattle.call_machine.specs.declared.stage.Along.{Along};
ghost use Rattle.call_machine.specs.Read as read;
ghost use Rattle.call_machine.specs.SoundCall.{HasSoundRead};
ghost use Rattle.call_machine.specs.Sought.{asked_of};

use crate::enter::EnterStage;
use crate::leave::leaves_with;
use crate::stage::{CallStage, Request};
use atomic_step::count::is_live;
use atomic_step::{Answer, Step};
use intern_log::Kind;
use marked_word::length_in;
use text_words::words_of;

/// Where a call stands that reads the text of a handle; in a weak table inside a section, and after a look
/// at the count.
#[derive(Clone, Copy, Debug, PartialEq, Eq)]
pub enum ReadStage {
    Enter(EnterStage),
    Count,
    Meta,
    Text { at: u32, length: u16 },
}

impl ReadStage {
    /// The first stage, in a table of a kind.
    pub(crate) fn first(kind: Kind) -> ReadStage
        ensures value { result ≡ read.first_read kind }
    {
        match kind {
            Kind::Counted => ReadStage::Meta,
            Kind::Weak => ReadStage::Enter(EnterStage::LoadCounter),
        }
    }

    /// The step of the stage.
    pub(crate) fn step(self, request: &Request<'_>) -> Step
        ensures value { (w : Along) → result ≡ (read.read_row (asked_of request.now) w self).step }
    {
        let slot = request.handle.slot;
        match self {
            ReadStage::Enter(stage) => stage.step(request.number),
            ReadStage::Count => Step::LoadCount { slot },
            ReadStage::Meta => Step::LoadMeta { slot },
            ReadStage::Text { at, .. } => Step::LoadText { slot, at },
        }
    }

    /// The next stage, after the step has found a word.
    pub(crate) fn next(self, request: &Request<'_>, word: u64) -> CallStage
        requires sound { HasSoundRead request.now.shape request.now.kind self }
        ensures value { (w : Along) → (w, result) ≡ (read.read_row (asked_of request.now) w self).next word }
    {
        let kind = request.kind;
        match self {
            ReadStage::Enter(stage) => CallStage::Read(entered(stage.next(request.number, word))),
            ReadStage::Count if is_live(request.handle, word) => CallStage::Read(ReadStage::Meta),
            ReadStage::Count => leaves_with(None, Answer::Stale),
            ReadStage::Meta => reads_from(kind, 0, length_in(word)),
            ReadStage::Text { at, length } => reads_from(kind, at + 1, length),
        }
    }
}

/// Still opening the section, or inside it.
fn entered(next: Option<EnterStage>) -> ReadStage
    ensures value { result ≡ read.entered next }
{
    match next {
        Some(stage) => ReadStage::Enter(stage),
        None => ReadStage::Count,
    }
}

/// The words of the text are read from one on; after the last one the call answers, in a weak table once
/// its section is closed.
fn reads_from(kind: Kind, at: u32, length: u16) -> CallStage
    ensures value { result ≡ read.reads_from kind at length }
{
    if (at as usize) < words_of(usize::from(length)) {
        return CallStage::Read(ReadStage::Text { at, length });
    }
    let answer = Answer::Text { length };
    match kind {
        Kind::Counted => CallStage::Answered(answer),
        Kind::Weak => leaves_with(None, answer),
    }
}
