//! What one thread does with its seat.
ghost use Rattle.std.specs.Prelude.{◌≡◌};
ghost use Rattle.intern_log.specs.declared.event.Kind.TheVariants.{Counted, Weak};
ghost use Rattle.cht_run.specs.Ends.{HasNothing};
ghost use Rattle.cht_run.specs.Seats.{IsOf};
ghost use Rattle.table_bench.specs.Tasks.{kind_of};

use crate::names::Name;
use cht_run::intern::{TryIntern, TryInternWeak};
use cht_run::lookup::{TryFind, TryLookup};
use cht_run::{Cht, Seat};
use intern_log::Kind;

/// How many names a pass has at most.
pub const STRETCH: usize = 4096;

/// What is done with each name.
#[derive(Clone, Copy, PartialEq, Eq)]
pub enum Task {
    /// It is looked up in a weak table, which has it.
    Find,
    /// It is looked up in a weak table, which does not have it.
    Miss,
    /// It is looked up in a counted table, which has it, and the hold is kept.
    Take,
    /// It is looked up in a counted table, which has it, and the hold is dropped.
    Hold,
    /// It is interned in a counted table, which does not have it, and the hold is dropped.
    Make,
}

/// With how many names a task was done.
#[derive(Clone, Copy)]
pub struct Tally {
    /// Those that were looked up and not missed, or interned and not taken.
    pub met: u64,
    /// Those among them at which another thread was faster, so that there was nothing to drop.
    pub lost: u64,
}

impl Tally {
    /// Nothing was done.
    pub fn new() -> Tally {
        Tally { met: 0, lost: 0 }
    }

    /// Both together.
    pub fn plus(self, more: Tally) -> Tally {
        Tally {
            met: self.met.wrapping_add(more.met),
            lost: self.lost.wrapping_add(more.lost),
        }
    }
}

impl Task {
    /// The task of this name.
    pub fn named(name: &str) -> Option<Task> {
        match name {
            "find" => Some(Task::Find),
            "miss" => Some(Task::Miss),
            "take" => Some(Task::Take),
            "hold" => Some(Task::Hold),
            "make" => Some(Task::Make),
            _ => None,
        }
    }

    /// The kind of a table for it.
    pub fn kind(self) -> Kind
        ensures value { result ≡ kind_of self }
    {
        match self {
            Task::Find | Task::Miss => Kind::Weak,
            Task::Take | Task::Hold | Task::Make => Kind::Counted,
        }
    }

    /// Whether it is done with names that the table does not have.
    pub fn is_fresh(self) -> bool {
        matches!(self, Task::Miss | Task::Make)
    }
}

/// Looks each name up in a weak table.
#[inline(never)]
fn find(cht: &Cht, mut seat: Seat, names: &[Name]) -> (Seat, Tally)
    requires of { IsOf cht.now seat }
    requires weak { cht.now.origin.table.kind ≡ Weak }
    requires nothing { HasNothing seat }
    ensures of { IsOf cht.now result.0 }
    ensures nothing { HasNothing result.0 }
{
    let mut met = 0u64;
    for name in names {
        if let TryFind::Hit(_) = cht.try_find(&mut seat, name) {
            met = met.wrapping_add(1);
        }
    }
    (seat, Tally { met, lost: 0 })
}

/// Looks each name up in a counted table, and keeps the hold.
#[inline(never)]
fn take(cht: &Cht, mut seat: Seat, names: &[Name]) -> (Seat, Tally)
    requires of { IsOf cht.now seat }
    requires counted { cht.now.origin.table.kind ≡ Counted }
    requires nothing { HasNothing seat }
    ensures of { IsOf cht.now result.0 }
    ensures nothing { HasNothing result.0 }
{
    let mut met = 0u64;
    let mut lost = 0u64;
    for name in names {
        match cht.try_lookup(&mut seat, name) {
            TryLookup::Hit(_) => met = met.wrapping_add(1),
            TryLookup::Again => lost = lost.wrapping_add(1),
            TryLookup::Miss => {}
        }
    }
    let met = met.wrapping_add(lost);
    (seat, Tally { met, lost })
}

/// Looks each name up in a counted table, and drops the hold. A hold stays where the drop finds that another thread was
/// faster.
#[inline(never)]
fn hold(cht: &Cht, mut seat: Seat, names: &[Name]) -> (Seat, Tally)
    requires of { IsOf cht.now seat }
    requires counted { cht.now.origin.table.kind ≡ Counted }
    requires nothing { HasNothing seat }
    ensures of { IsOf cht.now result.0 }
    ensures nothing { HasNothing result.0 }
{
    let mut met = 0u64;
    let mut lost = 0u64;
    for name in names {
        match cht.try_lookup(&mut seat, name) {
            TryLookup::Hit(handle) => {
                cht.try_drop(&mut seat, handle);
                met = met.wrapping_add(1);
            }
            TryLookup::Again => lost = lost.wrapping_add(1),
            TryLookup::Miss => {}
        }
    }
    let met = met.wrapping_add(lost);
    (seat, Tally { met, lost })
}

/// Interns each name in a counted table, and drops the hold.
#[inline(never)]
pub fn make(cht: &Cht, mut seat: Seat, names: &[Name]) -> (Seat, Tally)
    requires of { IsOf cht.now seat }
    requires counted { cht.now.origin.table.kind ≡ Counted }
    requires nothing { HasNothing seat }
    ensures of { IsOf cht.now result.0 }
    ensures nothing { HasNothing result.0 }
{
    let mut met = 0u64;
    let mut lost = 0u64;
    for name in names {
        match cht.try_intern(&mut seat, name) {
            TryIntern::Created(handle) => {
                cht.try_drop(&mut seat, handle);
                met = met.wrapping_add(1);
            }
            TryIntern::Again | TryIntern::Locked => lost = lost.wrapping_add(1),
            TryIntern::Taken(_) | TryIntern::TooLong | TryIntern::NoSlot => {}
        }
    }
    let met = met.wrapping_add(lost);
    (seat, Tally { met, lost })
}

/// Does a task with each name.
fn turn(task: Task, cht: &Cht, seat: Seat, names: &[Name]) -> (Seat, Tally)
    requires of { IsOf cht.now seat }
    requires kind { cht.now.origin.table.kind ≡ kind_of task }
    requires nothing { HasNothing seat }
    ensures of { IsOf cht.now result.0 }
    ensures nothing { HasNothing result.0 }
{
    match task {
        Task::Find => find(cht, seat, names),
        Task::Miss => find(cht, seat, names),
        Task::Take => take(cht, seat, names),
        Task::Hold => hold(cht, seat, names),
        Task::Make => make(cht, seat, names),
    }
}

/// The names of a pass: a stretch of the list, and in the next pass the next one.
fn stretch(names: &[Name], pass: u32) -> &[Name] {
    let from = pass as usize % (names.len() / STRETCH).max(1) * STRETCH;
    names.get(from..from + STRETCH).unwrap_or(names)
}

/// Passes from one number up to another: a task with each name of its stretch.
pub fn passes(
    task: Task,
    cht: &Cht,
    seat: Seat,
    names: &[Name],
    from: u32,
    to: u32,
) -> (Seat, Tally)
    requires of { IsOf cht.now seat }
    requires kind { cht.now.origin.table.kind ≡ kind_of task }
    requires nothing { HasNothing seat }
    ensures of { IsOf cht.now result.0 }
    ensures nothing { HasNothing result.0 }
{
    let mut seat = seat;
    let mut tally = Tally::new();
    for pass in from..to {
        let (next, more) = turn(task, cht, seat, stretch(names, pass));
        seat = next;
        tally = tally.plus(more);
    }
    (seat, tally)
}

/// Fills a weak table: how many names were made.
fn fill_weak(cht: &Cht, mut seat: Seat, names: &[Name]) -> (Seat, u64)
    requires of { IsOf cht.now seat }
    requires weak { cht.now.origin.table.kind ≡ Weak }
    requires nothing { HasNothing seat }
    ensures of { IsOf cht.now result.0 }
    ensures nothing { HasNothing result.0 }
{
    let mut made = 0u64;
    for name in names {
        if let TryInternWeak::Created(_) = cht.try_intern_weak(&mut seat, name) {
            made = made.wrapping_add(1);
        }
    }
    (seat, made)
}

/// Fills a counted table: how many names were made.
pub fn fill_counted(cht: &Cht, mut seat: Seat, names: &[Name]) -> (Seat, u64)
    requires of { IsOf cht.now seat }
    requires counted { cht.now.origin.table.kind ≡ Counted }
    requires nothing { HasNothing seat }
    ensures of { IsOf cht.now result.0 }
    ensures nothing { HasNothing result.0 }
{
    let mut made = 0u64;
    for name in names {
        if let TryIntern::Created(_) = cht.try_intern(&mut seat, name) {
            made = made.wrapping_add(1);
        }
    }
    (seat, made)
}

/// Fills the table of a task: how many names were made.
pub fn fill(task: Task, cht: &Cht, seat: Seat, names: &[Name]) -> (Seat, u64)
    requires of { IsOf cht.now seat }
    requires kind { cht.now.origin.table.kind ≡ kind_of task }
    requires nothing { HasNothing seat }
    ensures of { IsOf cht.now result.0 }
    ensures nothing { HasNothing result.0 }
{
    match task.kind() {
        Kind::Weak => fill_weak(cht, seat, names),
        Kind::Counted => fill_counted(cht, seat, names),
    }
}
