//! The unfinished work of a seat.
ghost use Rattle.cht_run.specs.Pending.{MayPend};

use call_machine::Work as State;

/// An unfinished work of a seat. It is polled until it is done.
pub struct Work {
    /// How far it has come.
    pub(crate) state: State,
    ghost pends: { MayPend state },
}
