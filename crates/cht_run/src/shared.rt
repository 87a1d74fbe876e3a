//! The words of a table that threads share.
use crate::seat::Raw;
use crate::sight::{Origin, Sight};
use atomic_table::TableRule;

/// What a table is told when it is made. Where it was made anew, it has a note of the seat that comes from the table before.
#[derive(Drop)]
pub struct Opening {
    pub origin: Origin,
    pub heir: Option<Raw>,
}

/// The rule of a running table.
pub struct Ruled;

impl TableRule<(), Sight, Opening> for Ruled {
    ghost use Rattle.cht_run.specs.Heirs.{first_seat};
    ghost use Rattle.cht_run.specs.Rule.{Kept};

    ghost holds = { λ opening. Kept opening.origin };

    ghost first = { first_seat };
}
