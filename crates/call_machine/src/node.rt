//! Passing the nodes of a chain: hash and length first, then the text word by word, then the count.
ghost use Rattle.std.specs.Prelude.{◌≡◌, if◌then◌else◌};
ghost use Rattle.call_machine.specs.Node as nodes;
ghost use Rattle.call_machine.specs.SoundCall.{IsSoundAt, FitsAt};
ghost use Rattle.call_machine.specs.Sought.{IsRequest, asked_of};

use crate::find::Walk;
use crate::insert::inserts;
use crate::leave::{leaves_with, loses_with, tries_again};
use crate::sought::has_word;
use crate::stage::{Along, CallStage, Goal, Request};
use atomic_step::count::{handle_at, holds_of};
use atomic_step::{Answer, Step};
use intern_log::{Handle, Kind};
use marked_word::{is_locked, node_of};
use text_words::equal_word;

/// Where a walk stands at a node: its meta word, the words of its text, its count, its link; and the
/// count of a match, which is raised.
#[derive(Clone, Copy, Debug, PartialEq, Eq)]
pub enum NodeStage {
    Meta { slot: u32 },
    Text { slot: u32, at: u32 },
    Count { slot: u32 },
    Link { slot: u32 },
    Take { slot: u32, count: u64 },
}

impl NodeStage {
    /// The step of the stage.
    pub(crate) fn step(self, request: &Request<'_>, along: Along) -> Step
        ensures value { result ≡ (nodes.node_row (asked_of request.now) along self).step }
    {
        let kind = request.kind;
        match self {
            NodeStage::Meta { slot } => Step::LoadMeta { slot },
            NodeStage::Text { slot, at } => Step::LoadText { slot, at },
            NodeStage::Count { slot } => Step::SeeEntry { kind, slot },
            NodeStage::Link { slot } => Step::LoadLink { slot },
            NodeStage::Take { slot, count } => Step::TakeEntry { slot, count },
        }
    }

    /// What comes of the word that the step found.
    pub(crate) fn next(self, request: &Request<'_>, along: Along, word: u64) -> (Along, CallStage)
        requires request { IsRequest request.now }
        requires at { IsSoundAt (asked_of request.now) along (CallStage.Node self) }
        requires fits { FitsAt (asked_of request.now) along (CallStage.Node self) word }
        ensures value { result ≡ (nodes.node_row (asked_of request.now) along self).next word }
    {
        let text = request.sought.text;
        match self {
            NodeStage::Meta { slot } => {
                let same = word == request.sought.meta.to_word();
                (along, compared(text, slot, 0, same))
            }
            NodeStage::Text { slot, at } => {
                let same = equal_word(text, at as usize, word);
                (along, compared(text, slot, at + 1, same))
            }
            NodeStage::Count { slot } => (along, counted(request, along, slot, word)),
            NodeStage::Link { .. } => {
                let walk = passes(along.walk);
                let next = comes_to(request, along, walk.head, node_of(word));
                (Along { walk, ..along }, next)
            }
            NodeStage::Take { slot, count } => (along, taken(request, along, slot, count, word)),
        }
    }
}

/// A word of a node was compared: where it is that of the text, the text is compared from here on.
fn compared(text: &[u8], slot: u32, at: u32, same: bool) -> CallStage
    ensures value { result ≡ CallStage.Node (if same then nodes.compares_from text.now slot at else NodeStage.Link slot) }
{
    CallStage::Node(if !same {
        NodeStage::Link { slot }
    } else if has_word(text, at) {
        NodeStage::Text { slot, at }
    } else {
        NodeStage::Count { slot }
    })
}

/// The count of a node with the text was found.
fn counted(request: &Request<'_>, along: Along, slot: u32, word: u64) -> CallStage
    ensures value { (along, result) ≡ (nodes.node_row (asked_of request.now) along (NodeStage.Count slot)).next word }
{
    if holds_of(word) == 0 {
        return CallStage::Node(NodeStage::Link { slot });
    }
    match request.kind {
        Kind::Counted => CallStage::Node(NodeStage::Take { slot, count: word }),
        Kind::Weak => {
            let answer = met(Kind::Weak, request.goal, handle_at(slot, word));
            leaves_with(along.kept, answer)
        }
    }
}

/// The exchange of a match's count found a word.
fn taken(request: &Request<'_>, along: Along, slot: u32, count: u64, word: u64) -> CallStage
    ensures value { (along, result) ≡ (nodes.node_row (asked_of request.now) along (NodeStage.Take slot count)).next word }
{
    if word == count {
        let answer = met(Kind::Counted, request.goal, handle_at(slot, count));
        leaves_with(along.kept, answer)
    } else {
        loses_with(request.goal, along.kept, Answer::Again)
    }
}

/// What a call answers that has met the entry of its text.
fn met(kind: Kind, goal: Goal, handle: Handle) -> Answer
    ensures value { result ≡ nodes.met kind goal handle }
{
    match goal {
        Goal::Lookup => Answer::Hit(handle),
        Goal::Intern | Goal::InternWait => match kind {
            Kind::Counted => Answer::Taken(handle),
            Kind::Weak => Answer::Found(handle),
        },
    }
}

/// At a node, or at the end of the chain of this head.
pub(crate) fn comes_to(
    request: &Request<'_>,
    along: Along,
    head: u64,
    node: Option<u32>,
) -> CallStage
    ensures value { result ≡ nodes.comes_to (asked_of request.now) along head node }
{
    match node {
        None => end_of(along, head, request.goal),
        Some(slot) => CallStage::Node(NodeStage::Meta { slot }),
    }
}

/// At the end of a chain without a match: a look-up misses, and an intern makes an entry unless the
/// bucket is locked.
fn end_of(along: Along, head: u64, goal: Goal) -> CallStage
    ensures value { result ≡ nodes.end_of along.kept along.cursor head goal }
{
    match goal {
        Goal::Lookup => leaves_with(along.kept, Answer::Miss),
        Goal::Intern if is_locked(head) => leaves_with(along.kept, Answer::Locked),
        Goal::InternWait if is_locked(head) => tries_again(),
        Goal::Intern | Goal::InternWait => { CallStage::Insert(inserts(along.kept, along.cursor)) }
    }
}

/// One more node was passed; a count that has reached 2^32 - 1 stays.
fn passes(walk: Walk) -> Walk
    ensures value { result ≡ nodes.passes walk }
{
    Walk {
        passed: walk.passed.saturating_add(1),
        ..walk
    }
}
