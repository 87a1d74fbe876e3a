//! Who calls.
use intern_log::Kind;
use table_shape::Shape;

/// Who calls: a seat of a table.
#[derive(Clone, Copy, Debug, PartialEq, Eq)]
pub struct Caller {
    pub kind: Kind,
    pub shape: Shape,
    /// The seed of the table's hash.
    pub seed: u32,
    /// The number of the seat.
    pub number: u32,
    /// The slot from which the seat looks for a free one.
    pub cursor: u32,
}
