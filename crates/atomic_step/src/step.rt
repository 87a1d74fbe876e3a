//! The atomic steps of the calls of a table, by name: of which kind each is, on which word, and what it
//! does to it.
ghost use Rattle.std.specs.Prelude.{◌≡◌};
ghost use Rattle.table_shape.specs.Shape.{IsSound};
ghost use Rattle.table_shape.specs.Place.{IsInside};
ghost use Rattle.marked_word.specs.Head.{head_word};
ghost use Rattle.atomic_step.specs.Step as steps;
ghost use Rattle.atomic_step.specs.SoundStep.{HasSoundValue};

use crate::access::{Access, Deed, Op, StepKind};
use crate::count::{Change, changed, holds_word, raised};
use intern_log::{Handle, Kind};
use marked_word::{Head, Meta, link_word, locked, new_level_word, owner_word, section_word};
use table_shape::{Place, Shape};

/// The word that leads to a node of a chain: the head of its bucket, or the link of the node before it.
#[derive(Clone, Copy, Debug, PartialEq, Eq)]
pub enum Edge {
    Head { row: u8, bucket: u32 },
    Link { slot: u32 },
}

/// An atomic step of a call. It says what its words mean; [`Step::access`] packs them. A slot is named by
/// its number, also where it is a node of a chain. The text of a step is that of its call.
#[derive(Clone, Copy)]
pub enum Step {
    /// Loads how many numbers were drawn.
    LoadDraws,
    /// Draws one more.
    Draw,
    LoadCounter,
    /// Opens the section of a seat's number, with the counter that it loaded.
    OpenSection {
        number: u32,
        counter: u64,
    },
    CloseSection {
        number: u32,
    },
    LoadLevel,
    LoadNewLevel,
    LoadHead {
        row: u8,
        bucket: u32,
    },
    LoadLink {
        slot: u32,
    },
    LoadMeta {
        slot: u32,
    },
    LoadText {
        slot: u32,
        at: u32,
    },
    LoadCount {
        slot: u32,
    },
    /// Loads the count of a node that has the text: in a weak table a live entry is found.
    SeeEntry {
        kind: Kind,
        slot: u32,
    },
    /// Loads the count of a handle that is to be changed.
    SeeHandle {
        change: Change,
        handle: Handle,
    },
    /// Raises the count of a node that has the text.
    TakeEntry {
        slot: u32,
        count: u64,
    },
    ChangeEntry {
        change: Change,
        handle: Handle,
        count: u64,
    },
    ClaimSlot {
        slot: u32,
    },
    FreeSlot {
        slot: u32,
    },
    PutMeta {
        slot: u32,
        meta: Meta,
    },
    PutText {
        slot: u32,
        at: u32,
        word: u64,
    },
    PutLink {
        slot: u32,
        next: Option<u32>,
    },
    PutCount {
        handle: Handle,
        holds: u16,
    },
    /// Writes the generation behind this one into the count of a slot that is freed next.
    PutNextGeneration {
        slot: u32,
        generation: u64,
    },
    /// Puts the entry of a handle before the head that was loaded.
    CreateEntry {
        handle: Handle,
        row: u8,
        bucket: u32,
        head: u64,
    },
    RaiseCounter,
    /// Loads the section word of a number.
    LoadSection {
        number: u32,
    },
    /// Locks a bucket whose head was loaded, without a lock.
    LockHead {
        row: u8,
        bucket: u32,
        head: u64,
    },
    /// Unlocks a bucket, whose chain begins at this node.
    UnlockHead {
        row: u8,
        bucket: u32,
        first: Option<u32>,
    },
    /// Leads the edge to a dead node past it.
    Unlink {
        slot: u32,
        edge: Edge,
        next: Option<u32>,
    },
    TakeResizeLock {
        number: u32,
    },
    GiveResizeLock,
    /// Writes a locked head of the new row.
    PutHead {
        row: u8,
        bucket: u32,
        first: Option<u32>,
    },
    PutNewLevel {
        level: Option<u8>,
    },
    /// Redirects a locked head of the old row.
    RedirectHead {
        row: u8,
        bucket: u32,
        first: Option<u32>,
    },
    /// Leads an edge of one side of an unzipped chain past a node of the other.
    MoveEdge {
        edge: Edge,
        next: Option<u32>,
    },
    StoreLevel {
        level: u8,
    },
    /// Leads the last link of the even chain to the odd one.
    JoinChains {
        slot: u32,
        next: Option<u32>,
    },
}

/// The word of a head with this first node and these marks.
#[inline(always)]
fn head_of(node: Option<u32>, lock: bool, redirect: bool) -> u64
    ensures value { result ≡ head_word (record { node = node; lock = lock; redirect = redirect }) }
{
    let head = Head {
        node,
        lock,
        redirect,
    };
    head.to_word()
}

/// An exchange of a word.
#[inline(always)]
fn exchange(old: u64, new: u64) -> Deed
    ensures value { result ≡ Deed.Exchange old new }
{
    Deed::Exchange { old, new }
}

impl Edge {
    /// The word of the edge.
    #[inline(always)]
    pub fn place(self) -> Place
        ensures value { result ≡ steps.edge_place self }
    {
        match self {
            Edge::Head { row, bucket } => Place::Head { row, bucket },
            Edge::Link { slot } => Place::Link(slot),
        }
    }

    /// The word of the edge where it leads to this node; a head stays locked.
    #[inline(always)]
    pub fn word(self, next: Option<u32>) -> u64
        ensures value { result ≡ steps.edge_word self next }
    {
        match self {
            Edge::Head { .. } => head_of(next, true, false),
            Edge::Link { .. } => link_word(next),
        }
    }
}

impl Step {
    /// Of which kind the step is, on which word, and what it does to it.
    #[inline(always)]
    pub fn access(self) -> Access
        requires value { HasSoundValue self }
        ensures value { result ≡ steps.access_of self }
    {
        Access {
            kind: self.kind(),
            place: self.place(),
            deed: self.deed(),
        }
    }

    /// Of which kind the step is.
    #[inline(always)]
    pub fn kind(self) -> StepKind
        ensures value { result ≡ (steps.access_of self).kind }
    {
        match self {
            Step::LoadDraws | Step::Draw => StepKind::K1,
            Step::ClaimSlot { .. } => StepKind::K2,
            Step::PutMeta { .. } | Step::PutText { .. } | Step::PutLink { .. } => StepKind::K3,
            Step::PutCount { .. } | Step::PutNextGeneration { .. } => StepKind::K3,
            Step::FreeSlot { .. } => StepKind::K4,
            Step::LoadHead { .. } => StepKind::K5,
            Step::LoadLink { .. } | Step::LoadMeta { .. } | Step::LoadText { .. } => StepKind::K6,
            Step::LoadCount { .. } | Step::SeeEntry { .. } | Step::SeeHandle { .. } => StepKind::K6,
            Step::CreateEntry { .. } => StepKind::K7,
            Step::TakeEntry { .. } | Step::ChangeEntry { .. } => StepKind::K8,
            Step::LoadCounter => StepKind::K9,
            Step::OpenSection { .. } => StepKind::K10,
            Step::CloseSection { .. } => StepKind::K11,
            Step::RaiseCounter => StepKind::K12,
            Step::LoadSection { .. } => StepKind::K13,
            Step::LockHead { .. } => StepKind::K14,
            Step::UnlockHead { .. } => StepKind::K15,
            Step::Unlink { .. } => StepKind::K16,
            Step::TakeResizeLock { .. } => StepKind::K17,
            Step::GiveResizeLock => StepKind::K18,
            Step::LoadLevel => StepKind::K19,
            Step::LoadNewLevel => StepKind::K20,
            Step::PutHead { .. } => StepKind::K21,
            Step::PutNewLevel { .. } => StepKind::K22,
            Step::RedirectHead { .. } => StepKind::K23,
            Step::MoveEdge { .. } => StepKind::K24,
            Step::StoreLevel { .. } => StepKind::K25,
            Step::JoinChains { .. } => StepKind::K26,
        }
    }

    /// On which word the step is.
    #[inline(always)]
    pub fn place(self) -> Place
        ensures value { result ≡ (steps.access_of self).place }
    {
        match self {
            Step::LoadDraws | Step::Draw => Place::Draws,
            Step::LoadCounter | Step::RaiseCounter => Place::Counter,
            Step::TakeResizeLock { .. } | Step::GiveResizeLock => Place::ResizeLock,
            Step::LoadLevel | Step::StoreLevel { .. } => Place::Level,
            Step::LoadNewLevel | Step::PutNewLevel { .. } => Place::NewLevel,
            Step::OpenSection { number, .. }
            | Step::CloseSection { number }
            | Step::LoadSection { number } => Place::Section(number),
            Step::LoadHead { row, bucket }
            | Step::CreateEntry { row, bucket, .. }
            | Step::LockHead { row, bucket, .. }
            | Step::UnlockHead { row, bucket, .. }
            | Step::PutHead { row, bucket, .. }
            | Step::RedirectHead { row, bucket, .. } => Place::Head { row, bucket },
            Step::Unlink { edge, .. } | Step::MoveEdge { edge, .. } => edge.place(),
            Step::ClaimSlot { slot } | Step::FreeSlot { slot } => Place::Claim(slot),
            Step::LoadLink { slot } | Step::PutLink { slot, .. } | Step::JoinChains { slot, .. } =>
                Place::Link(slot),
            Step::LoadCount { slot }
            | Step::SeeEntry { slot, .. }
            | Step::TakeEntry { slot, .. }
            | Step::PutNextGeneration { slot, .. } => Place::Count(slot),
            Step::SeeHandle { handle, .. }
            | Step::ChangeEntry { handle, .. }
            | Step::PutCount { handle, .. } => Place::Count(handle.slot),
            Step::LoadMeta { slot } | Step::PutMeta { slot, .. } => Place::Meta(slot),
            Step::LoadText { slot, at } | Step::PutText { slot, at, .. } => Place::Text {
                slot,
                at,
            },
        }
    }

    /// What the step does to its word.
    #[inline(always)]
    pub fn deed(self) -> Deed
        requires value { HasSoundValue self }
        ensures value { result ≡ (steps.access_of self).deed }
    {
        match self {
            Step::Draw => Deed::Add(1),
            Step::RaiseCounter => Deed::Add(2),
            Step::ClaimSlot { .. } => Deed::Swap(1),
            Step::TakeResizeLock { number } => exchange(owner_word(None), owner_word(Some(number))),
            Step::LockHead { head, .. } => exchange(head, locked(head)),
            Step::CreateEntry { handle, head, .. } => {
                exchange(head, head_of(Some(handle.slot), false, false))
            }
            Step::TakeEntry { count, .. } => exchange(count, raised(count)),
            Step::ChangeEntry { change, count, .. } => exchange(count, changed(change, count)),
            _ => match self.stored() {
                Some(word) => Deed::Store(word),
                None => Deed::Load,
            },
        }
    }

    /// The word that a step stores which does not look at the one that it finds; `None` for a load.
    #[inline(always)]
    fn stored(self) -> Option<u64>
        requires value { HasSoundValue self }
        requires plain { steps.IsLoadOrStore (steps.access_of self).deed }
        ensures value { steps.stores_or_loads result ≡ (steps.access_of self).deed }
    {
        match self {
            Step::OpenSection { counter, .. } => Some(section_word(Some(counter))),
            Step::CloseSection { .. } => Some(section_word(None)),
            Step::FreeSlot { .. } => Some(0),
            Step::PutMeta { meta, .. } => Some(meta.to_word()),
            Step::PutText { word, .. } => Some(word),
            Step::PutLink { next, .. } | Step::JoinChains { next, .. } => Some(link_word(next)),
            Step::PutCount { handle, holds } => Some(holds_word(handle, holds)),
            Step::PutNextGeneration { slot, generation } => {
                let generation = generation + 1;
                Some(holds_word(Handle { slot, generation }, 0))
            }
            Step::UnlockHead { first, .. } => Some(head_of(first, false, false)),
            Step::PutHead { first, .. } => Some(head_of(first, true, false)),
            Step::RedirectHead { first, .. } => Some(head_of(first, true, true)),
            Step::Unlink { edge, next, .. } | Step::MoveEdge { edge, next } => {
                Some(edge.word(next))
            }
            Step::GiveResizeLock => Some(owner_word(None)),
            Step::PutNewLevel { level } => Some(new_level_word(level)),
            Step::StoreLevel { level } => Some(u64::from(level)),
            _ => None,
        }
    }

    /// The operation of the step, in a table of this shape.
    pub fn op(self, shape: &Shape) -> Op
        requires table { IsSound shape.now }
        requires inside { IsInside shape.now (steps.access_of self).place }
        requires value { HasSoundValue self }
        ensures value { result ≡ steps.op_at shape.now (steps.access_of self) }
    {
        self.deed().op(shape.index(self.place()))
    }
}
