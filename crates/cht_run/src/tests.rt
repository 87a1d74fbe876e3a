//! Tests of a running table.
mod alone;
mod calls;
mod ends;
mod graces;
mod grows;
mod handles;
mod logs;
mod meets;
mod reads;
mod rehashes;
mod splits;
mod stress;
mod sweeps;
mod waits;
mod works;

use super::*;
use atomic_step::{Shape, ShapeFault};
use intern_log::{Handle, Kind};
use std::test::Fail;

/// A small table: four slots of one text word, two buckets, three seats.
static SMALL: Shape = Shape {
    slots: 4,
    text_words: 1,
    min_level: 1,
    max_level: 2,
    seats: 3,
};

/// A table of eight slots and eight buckets, which can grow once.
static WIDE: Shape = Shape {
    slots: 8,
    text_words: 1,
    min_level: 3,
    max_level: 4,
    seats: 4,
};

/// The handle of the first entry in a slot.
fn first_in(slot: u32) -> Handle {
    Handle {
        slot,
        generation: 0,
    }
}
