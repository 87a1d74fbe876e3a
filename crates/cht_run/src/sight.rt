//! What contracts know of a seat of a running table. No value of it is made.
use call_machine::Own;
use cht_core::{Seat, Table};
use intern_log::Event;
use std::collections::LinkedList;

/// An entry of the history of a table.
pub enum Entry {
    /// An event of its log.
    Told { event: Event },
    /// A split by a seat has drawn a number.
    Drew { by: u32, number: u32 },
}

/// What a seat had seen before it was joined with another, with the numbers that it had.
pub struct Earlier {
    pub numbers: LinkedList<u32>,
    pub history: LinkedList<Entry>,
}

/// What a table is told when it is made: what does not change in it, and the seed of its hash.
#[derive(Clone, Copy)]
pub struct Origin {
    pub table: Table,
    pub seed: u32,
}

/// What contracts know of a seat.
pub struct Sight {
    /// The table.
    pub origin: Origin,
    /// Its number.
    pub number: u32,
    /// Where its call stands.
    pub seat: Seat<'static>,
    /// The place of the log at which it last loaded a head, and the nodes that its walk has passed since then.
    pub load: u64,
    pub passed: LinkedList<u32>,
    /// The numbers whose holds it has: its own, and those of the seats that were joined into it.
    pub numbers: LinkedList<u32>,
    /// The numbers that these have drawn and that were not joined back.
    pub kids: LinkedList<u32>,
    /// The seat of a number that it has just drawn.
    pub given: Option<Own>,
    /// What it has seen of the history of the table.
    pub history: LinkedList<Entry>,
    /// What it knew before a join.
    pub earlier: LinkedList<Earlier>,
    /// The words of the table as it last loaded one of them outside its calls. A step, a split or a join of it ends that.
    pub words: Option<LinkedList<u64>>,
}
