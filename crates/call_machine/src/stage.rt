//! What a call asks, what it takes along, and where it stands. Each stage except `Answered` is one atomic
//! step.
use crate::caller::Caller;
use crate::draw::DrawStage;
use crate::find::{FindStage, Walk};
use crate::handle::HandleStage;
use crate::insert::InsertStage;
use crate::leave::LeaveStage;
use crate::node::NodeStage;
use crate::read::ReadStage;
use crate::sought::Sought;
use atomic_step::Answer;
use intern_log::{Handle, Kind};
use std::collections::LinkedList;
use table_shape::Shape;

/// What a call walks a chain for.
#[derive(Clone, Copy, Debug, PartialEq, Eq)]
pub enum Goal {
    Lookup,
    Intern,
    /// The intern that tries again.
    InternWait,
}

/// Where a call of a reader, an inserter or by handle stands.
#[derive(Clone, Copy, Debug, PartialEq, Eq)]
pub enum CallStage {
    Answered(Answer),
    Draw(DrawStage),
    Find(FindStage),
    Node(NodeStage),
    Insert(InsertStage),
    Leave(LeaveStage),
    Handle(HandleStage),
    Read(ReadStage),
}

/// What a call takes along from stage to stage.
#[derive(Clone, Copy, Debug, PartialEq, Eq)]
pub struct Along {
    /// The slot from which the seat looks for a free one.
    pub cursor: u32,
    pub walk: Walk,
    /// The slot that an intern keeps while it tries again, with its generation.
    pub kept: Option<Handle>,
}

/// What a call asks, and of whom: no step changes it.
#[derive(Clone, Copy)]
pub struct Request<'t> {
    pub kind: Kind,
    pub shape: Shape,
    /// The number of the seat.
    pub number: u32,
    /// What the call walks for, if it walks.
    pub goal: Goal,
    /// The text of the call; none where it has none, or one that is too long.
    pub sought: Sought<'t>,
    /// The handle of the call; slot 0 at generation 0 where it has none.
    pub handle: Handle,
    /// The seed of the table's hash.
    pub seed: u32,
}

/// What contracts see of a request. No value of it is made.
pub struct Asked {
    pub kind: Kind,
    pub shape: Shape,
    pub seed: u32,
    pub number: u32,
    pub goal: Goal,
    pub text: LinkedList<u8>,
    pub handle: Handle,
}

/// What contracts see of a call on its way. No value of it is made.
pub struct Calling {
    pub asked: Asked,
    pub along: Along,
    pub stage: CallStage,
}
