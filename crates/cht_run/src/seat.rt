//! A seat of a running table: the right of one thread to call it.
ghost use Rattle.std.specs.Prelude.{◌≡◌, true, [], None};
ghost use Rattle.cht_run.specs.Begins.{own_at, is_resting};
ghost use Rattle.cht_run.specs.History.{HasHandles};
ghost use Rattle.cht_run.specs.Rule.{is_seat};

use crate::sight::Sight;

/// What contracts know of a seat, as the shared words keep it.
pub type Raw = atomic_table::Seat<(), Sight>;

/// A seat between its calls.
#[derive(Drop)]
pub struct Seat {
    pub(crate) raw: Raw,
    pub(crate) number: u32,
    pub(crate) cursor: u32,
    pub(crate) passed: u32,
    ghost named: { number ≡ raw.me.0.number },
    ghost own: { (own_at raw.me.0.seat).number ≡ number },
    ghost next: { cursor ≡ (own_at raw.me.0.seat).cursor },
    ghost seat: { is_seat raw.me.0 ≡ true },
    ghost rests: { is_resting raw.me.0.seat ≡ true },
    ghost kept: { raw.me.0.given ≡ None },
    ghost bare: { raw.me.1 ≡ [] },
    ghost handles: { HasHandles raw.me.0.origin.table.shape raw.me.0.history },
}
