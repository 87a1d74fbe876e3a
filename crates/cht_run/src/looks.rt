//! What a seat sees of a table outside its calls.
ghost use Rattle.std.specs.Prelude.{◌≡◌, ◌<◌, []};
ghost use Rattle.intern_log.specs.declared.event.Kind.TheVariants.{Counted};
ghost use Rattle.table_shape.specs.Shape.{words_of};
ghost use Rattle.cht_run.specs.Begins.{HasLedger};
ghost use Rattle.cht_run.specs.Ended.{Ended, Always, Only};
ghost use Rattle.cht_run.specs.Ends.{Stays, level_in};
ghost use Rattle.cht_run.specs.History.{HasSeen, Follows};
ghost use Rattle.cht_run.specs.Holds.{HoldLive};
ghost use Rattle.cht_run.specs.Looks.{Looked};
ghost use Rattle.cht_run.specs.Seats.{sight, history, seen, numbers, IsOf};

use crate::seat::Seat;
use crate::sight::Sight;
use crate::table::Cht;
use atomic_step::Place;
use atomic_table::Play;

pub(crate) struct Look;

impl Play<(), Sight> for Look {
    ghost use Rattle.cht_run.specs.Looks.{Looked};

    ghost then = { λ step me word after. Looked me.0.origin step.word me.0 word after.0 × (after.1 ≡ me.1) };
}

impl Seat {
    /// Its number.
    pub fn number(&self) -> u32
        ensures value { result ≡ self.now.number }
    {
        self.number
    }

    /// How many nodes its last look-up or intern has passed since it last began to find the head of its bucket: at
    /// most as many as there are slots, and none where the text is longer than a slot has room for. Where the seat was
    /// alone and had no unfinished work, and the call missed, made an entry or found no slot, they are exactly the
    /// nodes of the bucket's chain as the call began.
    pub fn passed(&self) -> u32
        ensures value { result ≡ self.now.passed }
    {
        self.passed
    }
}

impl Cht {
    /// The seed of the hash of its texts.
    pub fn seed(&self) -> u32
        ensures value { result ≡ self.now.origin.seed }
    {
        self.origin.seed
    }

    /// The word at an index. The seat has then seen all that came before the load.
    pub(crate) fn look(&self, seat: &mut Seat, index: usize) -> u64
        requires of { IsOf self.now seat.old }
        requires inside { index < words_of self.now.origin.table.shape }
        ensures of { IsOf self.now seat.new }
        ensures same { Stays seat.old seat.new }
        ensures told { Looked self.now.origin index (sight seat.old) result (sight seat.new) }
    {
        self.table.shared.load::<Look>(&mut seat.raw, index)
    }

    /// The level of the table at the end of what the seat has then seen.
    ///
    /// The seat has then seen all that came before the load. It has let go of nothing that it had not had, and in a
    /// counted table each handle that it holds is live.
    pub fn level(&self, seat: &mut Seat) -> u8
        requires of { IsOf self.now seat.old }
        ensures of { IsOf self.now seat.new }
        ensures same { Stays seat.old seat.new }
        ensures ended { Ended self.now.origin.table seat.old seat.new (Only []) Always }
        ensures value { result ≡ level_in self.now.origin.table seat.new }
        ensures follows { Follows (numbers seat.old) (history seat.old) (history seat.new) }
        ensures sees { HasSeen self.now.origin.table (history seat.new) }
        ensures ledger { HasLedger (sight seat.new) }
        ensures live { self.now.origin.table.kind ≡ Counted → HoldLive (seen seat.new) (numbers seat.new) }
    {
        let index = self.origin.table.shape.index(Place::Level) as usize;
        self.look(seat, index) as u8
    }
}
