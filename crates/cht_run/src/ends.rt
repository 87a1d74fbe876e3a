//! How seats part, meet, and are made one.
ghost use Rattle.std.specs.Prelude.{◌≡◌, ◌++◌, true, [], Some};
ghost use Rattle.chain_core.specs.Path.{without};
ghost use Rattle.intern_log.specs.Own.{is_among};
ghost use Rattle.call_machine.specs.declared.machine.Own.{Own};
ghost use Rattle.cht_run.specs.Ends.{HasNothing, Stays, Heard};
ghost use Rattle.cht_run.specs.Heirs.{legacy_of};
ghost use Rattle.cht_run.specs.History.{HasHandles, HasSeen, AreApart, Follows};
ghost use Rattle.cht_run.specs.Rule.{is_seat};
ghost use Rattle.cht_run.specs.Seats.{history, numbers, kids, own_of, IsOf};
ghost use Rattle.cht_run.specs.Views.{giver, child, note_of, longer};

use crate::seat::{Raw, Seat};
use crate::sight::Sight;
use crate::table::Cht;
use atomic_table::{Join, Play, Split};

pub(crate) struct Cut;

impl Split<Sight> for Cut {
    ghost use Rattle.cht_run.specs.Views.{giver, child};

    ghost left = { giver };

    ghost right = { child };
}

pub(crate) struct Noting;

impl Split<Sight> for Noting {
    ghost use Rattle.cht_run.specs.Views.{note_of};

    ghost left = { λ v. v };

    ghost right = { note_of };
}

pub(crate) struct Leaving;

impl Split<Sight> for Leaving {
    ghost use Rattle.cht_run.specs.Heirs.{legacy_of};

    ghost left = { λ v. v };

    ghost right = { legacy_of };
}

pub(crate) struct Merging;

impl Join<Sight> for Merging {
    ghost use Rattle.cht_run.specs.Views.{joined, spent};

    ghost both = { joined };

    ghost spent = { spent };
}

pub(crate) struct Hearing;

impl Join<Sight> for Hearing {
    ghost use Rattle.cht_run.specs.Views.{hears, spent};

    ghost both = { hears };

    ghost spent = { spent };
}

pub(crate) struct Recall;

impl Play<(), Sight> for Recall {
    ghost use Rattle.std.specs.Prelude.{true};
    ghost use Rattle.cht_run.specs.History.{Remembers, WasTold};
    ghost use Rattle.cht_run.specs.Rule.{is_seat};

    ghost then = { λ _ me _ after. (after ≡ me) × Remembers me.0.history me.0.earlier × (is_seat me.0 ≡ true → WasTold me.0.origin.table me.0.history) };
}

impl Cht {
    /// The seat of the number that a seat has drawn.
    pub(crate) fn cut(&self, seat: &mut Raw) -> Raw
        requires table { seat.old.table_id ≡ self.now.table.shared.table_id }
        requires seat { is_seat seat.old.me.0 ≡ true }
        requires drawn { (own : Own) × (seat.old.me.0.given ≡ Some own) }
        ensures table { (seat.new.table_id ≡ seat.old.table_id) × (result.table_id ≡ seat.old.table_id) }
        ensures giver { seat.new.me ≡ (giver seat.old.me.0, seat.old.me.1) }
        ensures child { result.me ≡ (child seat.old.me.0, []) }
    {
        self.table.shared.split_seat::<Cut>(seat)
    }

    /// A note of what a seat has seen.
    pub(crate) fn note(&self, seat: &mut Raw) -> Raw
        requires table { seat.old.table_id ≡ self.now.table.shared.table_id }
        ensures table { (seat.new.table_id ≡ seat.old.table_id) × (result.table_id ≡ seat.old.table_id) }
        ensures same { seat.new.me ≡ seat.old.me }
        ensures note { result.me ≡ (note_of seat.old.me.0, []) }
    {
        self.table.shared.split_seat::<Noting>(seat)
    }

    /// A note of all that a seat has, for a table that is made anew.
    pub(crate) fn leave(&self, seat: &mut Raw) -> Raw
        requires table { seat.old.table_id ≡ self.now.table.shared.table_id }
        ensures table { (seat.new.table_id ≡ seat.old.table_id) × (result.table_id ≡ seat.old.table_id) }
        ensures same { seat.new.me ≡ seat.old.me }
        ensures legacy { result.me ≡ (legacy_of seat.old.me.0, []) }
    {
        self.table.shared.split_seat::<Leaving>(seat)
    }

    /// A seat has then seen what is noted.
    fn hear(&self, seat: &mut Seat, note: Raw)
        requires of { IsOf self.now seat.old }
        requires note { (note.table_id ≡ self.now.table.shared.table_id) × (note.me.0.numbers ≡ []) × (note.me.1 ≡ []) }
        requires handles { HasHandles self.now.origin.table.shape note.me.0.history }
        ensures of { IsOf self.now seat.new }
        ensures same { Stays seat.old seat.new }
        ensures own { Follows (numbers seat.old) (history seat.old) (history seat.new) }
        ensures noted { Follows [] note.me.0.history (history seat.new) }
        ensures sees { HasSeen self.now.origin.table (history seat.new) }
    {
        self.table.shared.join_seat::<Hearing>(&mut seat.raw, note);
        self.table.shared.load::<Recall>(&mut seat.raw, 0);
    }

    /// Two seats of a table meet: each has then seen what either had seen, which is a lawful log of the table.
    pub fn meet(&self, seat: &mut Seat, other: &mut Seat)
        requires of { IsOf self.now seat.old × IsOf self.now other.old }
        ensures of { IsOf self.now seat.new × IsOf self.now other.new }
        ensures same { Stays seat.old seat.new × Stays other.old other.new }
        ensures first { Heard seat.old other.old seat.new }
        ensures second { Heard other.old seat.old other.new }
        ensures sees { HasSeen self.now.origin.table (history seat.new) × HasSeen self.now.origin.table (history other.new) }
    {
        let mine = self.note(&mut seat.raw);
        let theirs = self.note(&mut other.raw);
        self.hear(seat, theirs);
        self.hear(other, mine);
    }

    /// Takes back a seat that was split off. The seat then has the numbers and the holds of both, and has seen what
    /// either had seen, which is a lawful log of the table.
    pub fn join(&self, seat: &mut Seat, other: Seat)
        requires of { IsOf self.now seat.old × IsOf self.now other }
        requires kid { is_among (kids seat.old) other.number ≡ true }
        requires nothing { HasNothing other }
        ensures of { IsOf self.now seat.new }
        ensures number { seat.new.number ≡ seat.old.number }
        ensures own { own_of seat.new ≡ own_of seat.old }
        ensures numbers { numbers seat.new ≡ numbers other ++ numbers seat.old }
        ensures kids { kids seat.new ≡ without other.number (kids seat.old) ++ kids other }
        ensures apart { AreApart (numbers seat.old) (numbers other) }
        ensures seen { history seat.new ≡ longer (history seat.old) (history other) }
        ensures first { Follows (numbers seat.old) (history seat.old) (history seat.new) }
        ensures second { Follows (numbers other) (history other) (history seat.new) }
        ensures sees { HasSeen self.now.origin.table (history seat.new) }
    {
        let Seat { raw, .. } = other;
        self.table.shared.join_seat::<Merging>(&mut seat.raw, raw);
        self.table.shared.load::<Recall>(&mut seat.raw, 0);
    }
}
