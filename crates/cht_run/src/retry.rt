//! Calls that try until no other seat is faster.
ghost use Rattle.std.specs.Prelude.{◌≡◌, ◌≤◌, [], ◌∷◌};
ghost use Rattle.intern_log.specs.declared.event.Kind.TheVariants.{Counted};
ghost use Rattle.intern_log.specs.declared.event.What.TheVariants as what;
ghost use Rattle.cht_core.specs.Begins.{IsHeld};
ghost use Rattle.cht_run.specs.Ended.{Ended, KeepsFields, KeepsWork, Only};
ghost use Rattle.cht_run.specs.PassedChains.{LookupWaitingPasses};
ghost use Rattle.cht_run.specs.Retries.{LooksUpWaiting, WhyLooksUpWaiting, LookupWaitingHolds, WhyReleases, WhyStays};
ghost use Rattle.cht_run.specs.Seats.{seen, numbers, IsOf};

use crate::change::{TryDrop, TryPermanent};
use crate::lookup::TryLookup;
use crate::seat::Seat;
use crate::table::Cht;
use crossbeam_utils::Backoff;
use intern_log::Handle;
use std::sync::Wait;

/// What a look-up in a counted table comes to.
#[derive(Clone, Copy, Debug, PartialEq, Eq)]
pub enum Lookup {
    /// A hold was taken on the text's entry.
    Hit(Handle),
    /// The text was absent at some moment of the call.
    Miss,
}

/// What letting go of a hold comes to.
#[derive(Clone, Copy, Debug, PartialEq, Eq)]
pub enum Released {
    /// The count after it.
    Dropped { left: u16 },
    /// The count is 65,535, and stays.
    Permanent,
}

impl Cht {
    /// Looks a text up in a counted table, and takes a hold on its entry. Where another seat did something to the
    /// entry first, it tries again after a pause, outside its section.
    ///
    /// `Miss` comes only where the text was absent at some moment of the call, and comes for each text that is
    /// longer than a slot has room for.
    pub fn lookup<R: Wait>(&self, rt: &R, seat: &mut Seat, text: &[u8]) -> Lookup
        requires of { IsOf self.now seat.old }
        requires counted { self.now.origin.table.kind ≡ Counted }
        ensures of { IsOf self.now seat.new }
        ensures ended { Ended self.now.origin.table seat.old seat.new (LooksUpWaiting text.now result) (WhyLooksUpWaiting text.now result) }
        ensures holds { LookupWaitingHolds seat.new result }
        ensures works { KeepsWork seat.old seat.new }
        ensures few { seat.new.passed ≤ self.now.origin.table.shape.slots }
        ensures exact { LookupWaitingPasses self.now.origin.table seat.old seat.new.passed text.now result }
    {
        let backoff = Backoff::new();
        for _ in rt.forever() {
            match self.try_lookup(seat, text) {
                TryLookup::Hit(handle) => return Lookup::Hit(handle),
                TryLookup::Miss => return Lookup::Miss,
                TryLookup::Again => backoff.snooze(),
            }
        }
        unreachable!()
    }

    /// Lets go of a hold that the seat has on a handle. It tries until no other seat is faster.
    ///
    /// A count of 65,535 stays, and the answer is `Permanent`.
    pub fn drop_ref<R: Wait>(&self, rt: &R, seat: &mut Seat, handle: Handle) -> Released
        requires of { IsOf self.now seat.old }
        requires kind { self.now.origin.table.kind ≡ Counted }
        requires held { IsHeld (seen seat.old) (numbers seat.old) handle }
        ensures of { IsOf self.now seat.new }
        ensures ended { Ended self.now.origin.table seat.old seat.new (Only (what.Drop handle ∷ [])) (WhyReleases seat.old.number handle result) }
        ensures works { KeepsWork seat.old seat.new }
        ensures fields { KeepsFields seat.old seat.new }
    {
        let backoff = Backoff::new();
        for _ in rt.forever() {
            match self.try_drop(seat, handle) {
                TryDrop::Dropped { left } => return Released::Dropped { left },
                TryDrop::Permanent => return Released::Permanent,
                TryDrop::Again => backoff.snooze(),
            }
        }
        unreachable!()
    }

    /// Makes a hold that the seat has on a handle one that no drop takes away. It tries until no other seat is faster.
    pub fn make_permanent<R: Wait>(&self, rt: &R, seat: &mut Seat, handle: Handle)
        requires of { IsOf self.now seat.old }
        requires kind { self.now.origin.table.kind ≡ Counted }
        requires held { IsHeld (seen seat.old) (numbers seat.old) handle }
        ensures of { IsOf self.now seat.new }
        ensures ended { Ended self.now.origin.table seat.old seat.new (Only (what.Perm handle ∷ [])) (WhyStays seat.old.number handle) }
        ensures works { KeepsWork seat.old seat.new }
        ensures fields { KeepsFields seat.old seat.new }
    {
        let backoff = Backoff::new();
        for _ in rt.forever() {
            match self.try_permanent(seat, handle) {
                TryPermanent::Done => return,
                TryPermanent::Again => backoff.snooze(),
            }
        }
        unreachable!()
    }
}
