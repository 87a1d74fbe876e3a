//! A table is closed.
ghost use Rattle.std.specs.Prelude.{◌≡◌, true};
ghost use Rattle.std.specs.List.{All};
ghost use Rattle.intern_log.specs.Lawful.{IsLawful};
ghost use Rattle.intern_log.specs.Own.{is_among};
ghost use Rattle.intern_log.specs.Short.{IsShort};
ghost use Rattle.cht_core.specs.Past.{kind_of};
ghost use Rattle.cht_run.specs.Ends.{IsAlone, log_in};
ghost use Rattle.cht_run.specs.Seats.{seen, numbers, IsOf};

use crate::front::Front;
use crate::seat::Seat;
use crate::table::Cht;

impl Cht {
    /// Ends the table. The seat to which all others have come back has seen its whole log.
    pub fn close(self, seat: Seat) -> Front
        requires of { IsOf self seat }
        requires alone { IsAlone seat }
        ensures table { result.origin ≡ self.origin }
        ensures log { log_in result ≡ seen seat }
        ensures lawful { IsShort (log_in result) → IsLawful (kind_of self.origin.table) (log_in result) }
        ensures mine { All (λ event. is_among (numbers seat) event.seat ≡ true) (log_in result) }
    {
        let Seat { mut raw, .. } = seat;
        let note = self.note(&mut raw);
        let Cht { table, origin, .. } = self;
        table.close_with(raw).free();
        Front { note, origin }
    }
}
