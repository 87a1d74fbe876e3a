//! What a table is made with.
use intern_log::Kind;
use table_shape::Shape;

/// What does not change in a table: its kind, its shape and the counter with which it began.
#[derive(Clone, Copy, Debug, PartialEq, Eq)]
pub struct Table {
    pub kind: Kind,
    pub shape: Shape,
    pub first_counter: u64,
}
