//! A table is made anew by the next seed of its hash.
ghost use Rattle.std.specs.Prelude.{◌≡◌, ◌<◌, List, [], IfOk};
ghost use Rattle.atomic_table.specs.Table.{Final, Seen};
ghost use Rattle.table_shape.specs.Shape.{IsSound, words_of};
ghost use Rattle.cht_core.specs.Causes.{now_in};
ghost use Rattle.cht_core.specs.Rehash.{HasNoDead};
ghost use Rattle.cht_run.specs.Ends.{IsAlone, HasNothing};
ghost use Rattle.cht_run.specs.Heirs.{legacy_of, first_seat, by_next, heir_of, MayRemake};
ghost use Rattle.cht_run.specs.Rehashes.{Rehashes};
ghost use Rattle.cht_run.specs.Rule.{Kept};
ghost use Rattle.cht_run.specs.Seats.{seen, IsOf};

use crate::front::Front;
use crate::seat::{Raw, Seat};
use crate::shared::{Opening, Ruled};
use crate::sight::{Origin, Sight};
use crate::table::Cht;
use atomic_step::Place;
use atomic_table::{Play, Table as Words};
use cht_core::rehash::make_anew;
use std::alloc::{AllocError, Global};

/// What making a table anew comes to.
#[derive(Drop)]
pub enum Rehashed {
    /// The table by the next seed, and the seat in it.
    Done(Cht, Seat),
    /// There was no memory. The table is closed, and this is left of it, as `close` gives it.
    OutOfMemory(Front),
}

/// A load by which a seat to which all others have come back knows that it has seen the whole log.
pub(crate) struct Whole;

impl Play<(), Sight> for Whole {
    ghost use Rattle.intern_log.specs.Own.{is_among};
    ghost use Rattle.cht_run.specs.Ends.{HasWhole};
    ghost use Rattle.cht_run.specs.History.{log_of};
    ghost use Rattle.cht_run.specs.Rule.{is_seat};
    ghost use Rattle.std.specs.Prelude.{true};

    ghost then = { λ _ me _ after. (after ≡ me) × (is_seat me.0 ≡ true → me.0.kids ≡ [] → is_among me.0.numbers 0 ≡ true → HasWhole me.0.origin.table me.0.numbers (log_of me.0.history)) };
}

impl Cht {
    /// Makes the table anew by the next seed of its hash, where all other seats have come back and the seat has
    /// nothing unfinished.
    ///
    /// Each chain is made anew, and the log grows by the Rehash alone. It is asked that no slot is linked and dead,
    /// and that a seed is left. It follows the rehash of `symbolTable.cpp` in HotSpot.
    pub fn rehash(self, alloc: Global, seat: Seat) -> Rehashed
        requires of { IsOf self seat }
        requires alone { IsAlone seat }
        requires nothing { HasNothing seat }
        requires alive { HasNoDead (now_in self.origin.table (seen seat)) }
        requires seed { self.origin.seed < 2 }
        ensures rehashed { Rehashes self seat result }
    {
        let Seat {
            mut raw,
            number,
            cursor,
            passed,
        } = seat;
        self.table.shared.load::<Whole>(&mut raw, 0);
        let note = self.note(&mut raw);
        let heir = self.leave(&mut raw);
        let Cht {
            table,
            origin,
            layout,
        } = self;
        let next = Origin {
            table: origin.table,
            seed: origin.seed + 1,
        };
        let opening = Opening {
            origin: next,
            heir: Some(heir),
        };
        match remade(alloc, table, raw, &opening) {
            Ok((table, raw)) => Rehashed::Done(
                Cht {
                    table,
                    origin: next,
                    layout,
                },
                Seat {
                    raw,
                    number,
                    cursor,
                    passed,
                },
            ),
            Err(_) => Rehashed::OutOfMemory(Front { note, origin }),
        }
    }
}

/// The words of a table that is closed.
fn taken_words(
    alloc: Global,
    old: Words<(), Sight, Opening, Ruled, Global>,
    raw: Raw,
) -> Result<Vec<u64>, AllocError>
    requires table { raw.table_id ≡ old.shared.table_id }
    requires bare { old.shared.table_id.slots ≡ 0 }
    ensures taken { IfOk result (λ words. (slots : List (Unit {0})) × Final (Seen (Kept old.shared.key.origin) raw.id raw.me.0) words.items slots) }
{
    let size = old.word_count();
    let mut words = vec![in alloc; 0u64; size]?;
    let closed = old.close_with(raw);
    for index in 0..size {
        words[index] = closed.word(index);
    }
    closed.free();
    Ok(words)
}

/// A table is closed, and made anew from its words.
fn remade(
    alloc: Global,
    old: Words<(), Sight, Opening, Ruled, Global>,
    raw: Raw,
    opening: &Opening,
) -> Result<(Words<(), Sight, Opening, Ruled, Global>, Raw), AllocError>
    requires table { raw.table_id ≡ old.shared.table_id }
    requires bare { old.shared.table_id.slots ≡ 0 }
    requires sound { IsSound old.shared.key.origin.table.shape }
    requires may { MayRemake old.shared.key.origin raw.me.0 }
    requires next { opening.now.origin ≡ by_next old.shared.key.origin }
    requires heir { first_seat opening.now ≡ heir_of (by_next old.shared.key.origin) (legacy_of raw.me.0) }
    ensures key { IfOk result (λ made. made.0.shared.key ≡ opening.now) }
    ensures wide { IfOk result (λ made. (made.0.shared.table_id.words ≡ words_of opening.now.origin.table.shape) × (made.0.shared.table_id.slots ≡ 0)) }
    ensures seat { IfOk result (λ made. (made.1.table_id ≡ made.0.shared.table_id) × (made.1.me ≡ (first_seat opening.now, []))) }
{
    let shape = opening.origin.table.shape;
    let seed = opening.origin.seed;
    let mut text = vec![in alloc; 0u8; 8 * shape.text_words as usize]?;
    let mut words = taken_words(alloc, old, raw)?;
    let level = words[shape.index(Place::Level) as usize] as u8;
    make_anew(&mut words, &shape, level, seed, &mut text);
    Words::of_words(alloc, words.as_slice(), opening)
}
