//! Passing the nodes of a chain: hash and length first, then the text word by word, then the count.
ghost use Rattle.std.specs.Prelude.{◌≡◌, ◌≤◌, ◌<◌, ◌+◌, length, IfSome};
ghost use Rattle.text_words.specs.Words.{words_of};
ghost use Rattle.marked_word.specs.Head.{first_of};
ghost use Rattle.atomic_step.specs.Count.{holds_of};
ghost use Rattle.call_machine.specs.declared.node.NodeStage.TheVariants as node;
ghost use Rattle.call_machine.specs.declared.stage.CallStage.TheVariants as stage;
ghost use Rattle.call_machine.specs.Node.{comes_to, compares_from, met};
ghost use Rattle.call_machine.specs.Sought.{asked_of};
ghost use Rattle.cht_run.specs.Calls.{At};
ghost use Rattle.cht_run.specs.Walks.{compared, has_text, counted, taken, visited, walked, Meets};

use crate::operations::Began;
use crate::seat::Raw;
use crate::table::Cht;
use atomic_step::count::{handle_at, holds_of, raised};
use atomic_step::{Answer, Step};
use call_machine::find::Walk;
use call_machine::stage::{Along, Goal, Request};
use intern_log::{Handle, Kind};
use marked_word::{first_of, node_of};
use text_words::{equal_word, words_of};

/// A walk has met the live entry of its text.
#[derive(Clone, Copy)]
pub(crate) enum Meeting {
    /// The call answers.
    Met(Answer),
    /// Another changed the count first.
    Lost,
}

/// What a call answers that has met an entry of its text.
#[inline(always)]
fn met(kind: Kind, goal: Goal, handle: Handle) -> Answer
    ensures value { result ≡ met kind goal handle }
{
    match (goal, kind) {
        (Goal::Lookup, _) => Answer::Hit(handle),
        (_, Kind::Counted) => Answer::Taken(handle),
        (_, Kind::Weak) => Answer::Found(handle),
    }
}

impl Cht {
    /// Whether a node's hash and length are those of the text.
    #[inline(always)]
    fn has_meta<'t, M: Began>(
        &self,
        seat: &mut Raw,
        request: &Request<'t>,
        along: &Along,
        slot: u32,
    ) -> bool
        requires at { At self.now M.sight M.call request.now seat.old along.now (stage.Node (node.Meta slot)) }
        ensures at { At self.now M.sight M.call request.now seat.new along.now (compared (asked_of request.now) slot 0 result) }
    {
        let index = self.layout.meta(slot);
        self.load(seat, Step::LoadMeta { slot }, index) == request.sought.meta.to_word()
    }

    /// Whether a word of a node's text is that of the text.
    #[inline(always)]
    fn has_word<'t, M: Began>(
        &self,
        seat: &mut Raw,
        request: &Request<'t>,
        along: &Along,
        slot: u32,
        at: u32,
    ) -> bool
        requires at { At self.now M.sight M.call request.now seat.old along.now (stage.Node (node.Text slot at)) }
        requires word { at < words_of (length request.now.sought.text.now) }
        ensures at { At self.now M.sight M.call request.now seat.new along.now (compared (asked_of request.now) slot (at + 1) result) }
    {
        let index = self.layout.text(slot, at);
        let word = self.load(seat, Step::LoadText { slot, at }, index);
        equal_word(request.sought.text, at as usize, word)
    }

    /// Whether a node has the text.
    #[inline(always)]
    fn has_text<'t, M: Began>(
        &self,
        seat: &mut Raw,
        request: &Request<'t>,
        along: &Along,
        slot: u32,
    ) -> bool
        requires at { At self.now M.sight M.call request.now seat.old along.now (stage.Node (node.Meta slot)) }
        ensures at { At self.now M.sight M.call request.now seat.new along.now (has_text slot result) }
    {
        if !self.has_meta::<M>(seat, request, along, slot) {
            return false;
        }
        for at in 0..words_of(request.sought.text.len()) as u32 {
            if !self.has_word::<M>(seat, request, along, slot, at) {
                return false;
            }
        }
        true
    }

    /// Loads the count of a node that has the text.
    #[inline(always)]
    fn count<'t, M: Began>(
        &self,
        seat: &mut Raw,
        request: &Request<'t>,
        along: &Along,
        slot: u32,
    ) -> u64
        requires at { At self.now M.sight M.call request.now seat.old along.now (stage.Node (node.Count slot)) }
        ensures at { At self.now M.sight M.call request.now seat.new along.now (counted (asked_of request.now) along.now slot result) }
    {
        let kind = request.kind;
        let index = self.layout.count(slot);
        self.load(seat, Step::SeeEntry { kind, slot }, index)
    }

    /// Takes a hold on a node that has the text: whether the count was still the one that was loaded.
    #[inline(always)]
    fn take<'t, M: Began>(
        &self,
        seat: &mut Raw,
        request: &Request<'t>,
        along: &Along,
        slot: u32,
        count: u64,
    ) -> bool
        requires at { At self.now M.sight M.call request.now seat.old along.now (stage.Node (node.Take slot count)) }
        ensures at { At self.now M.sight M.call request.now seat.new along.now (taken (asked_of request.now) along.now slot count result) }
    {
        let more = raised(count);
        let index = self.layout.count(slot);
        self.compare_exchange(seat, Step::TakeEntry { slot, count }, index, count, more) == count
    }

    /// Loads the link of a node, and goes on to the next one.
    #[inline(always)]
    fn link<'t, M: Began>(
        &self,
        seat: &mut Raw,
        request: &Request<'t>,
        along: &Along,
        slot: u32,
    ) -> (Along, Option<u32>)
        requires at { At self.now M.sight M.call request.now seat.old along.now (stage.Node (node.Link slot)) }
        ensures at { At self.now M.sight M.call request.now seat.new result.0 (comes_to (asked_of request.now) result.0 result.0.walk.head result.1) }
        ensures kept { result.0.kept ≡ along.now.kept }
        ensures further { result.0.walk.passed ≡ along.now.walk.passed + 1 }
    {
        let index = self.layout.link(slot);
        let word = self.load(seat, Step::LoadLink { slot }, index);
        let passed = along.walk.passed + 1;
        let walk = Walk {
            passed,
            ..along.walk
        };
        (Along { walk, ..*along }, node_of(word))
    }

    /// Visits a node: none where the walk goes on after it.
    #[inline(always)]
    fn visit<'t, M: Began>(
        &self,
        seat: &mut Raw,
        request: &Request<'t>,
        along: &Along,
        slot: u32,
    ) -> Option<Meeting>
        requires at { At self.now M.sight M.call request.now seat.old along.now (stage.Node (node.Meta slot)) }
        ensures at { At self.now M.sight M.call request.now seat.new along.now (visited (asked_of request.now) along.now slot result) }
        ensures meets { IfSome result (Meets request.now.kind request.now.goal) }
    {
        if !self.has_text::<M>(seat, request, along, slot) {
            return None;
        }
        let count = self.count::<M>(seat, request, along, slot);
        if holds_of(count) == 0 {
            return None;
        }
        let answer = met(request.kind, request.goal, handle_at(slot, count));
        match request.kind {
            Kind::Weak => Some(Meeting::Met(answer)),
            Kind::Counted => {
                if self.take::<M>(seat, request, along, slot, count) {
                    Some(Meeting::Met(answer))
                } else {
                    Some(Meeting::Lost)
                }
            }
        }
    }

    /// Walks the chain from its head on: none at its end.
    #[inline(always)]
    pub(crate) fn walk<'t, M: Began>(
        &self,
        seat: &mut Raw,
        request: &Request<'t>,
        along: &Along,
    ) -> (Along, Option<Meeting>)
        requires at { At self.now M.sight M.call request.now seat.old along.now (comes_to (asked_of request.now) along.now along.now.walk.head (first_of along.now.walk.head)) }
        ensures meets { IfSome result.1 (Meets request.now.kind request.now.goal) }
        ensures at { At self.now M.sight M.call request.now seat.new result.0 (walked (asked_of request.now) result.0 result.1) }
        ensures kept { result.0.kept ≡ along.now.kept }
    {
        let mut along = *along;
        let mut next = first_of(along.walk.head);
        while let Some(slot) = next {
            let meeting = self.visit::<M>(seat, request, &along, slot);
            if meeting.is_some() {
                return (along, meeting);
            }
            let (further, then) = self.link::<M>(seat, request, &along, slot);
            along = further;
            next = then;
        }
        (along, None)
    }
}
