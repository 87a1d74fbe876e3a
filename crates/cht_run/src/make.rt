//! A table is made.
ghost use Rattle.std.specs.Prelude.{◌≡◌, IfOk, IfErr};
ghost use Rattle.table_shape.specs.Shape.{IsSound, words_of};
ghost use Rattle.cht_core.specs.State.{IsFirstCounter, IsMakeFault, opening_words};
ghost use Rattle.cht_run.specs.Ends.{Opened};

use crate::layout::Layout;
use crate::seat::Seat;
use crate::shared::Opening;
use crate::sight::Origin;
use crate::table::Cht;
use atomic_step::{Place, Shape};
use atomic_table::Table as Words;
use cht_core::{MakeFault, Table};
use intern_log::Kind;
use std::alloc::{AllocError, Global};

impl Cht {
    /// A table with no entries, at its least level, and its first seat, which has number 0.
    pub fn make(
        alloc: Global,
        kind: Kind,
        shape: Shape,
        first_counter: u64,
    ) -> Result<(Cht, Seat), MakeFault>
        ensures made { IfOk result (λ made. Opened (record { kind = kind; shape = shape; first_counter = first_counter }) made.0 made.1) }
        ensures fault { IfErr result (IsMakeFault shape first_counter) }
    {
        let size = match shape.check() {
            Ok(size) => size,
            Err(fault) => return Err(MakeFault::Shape(fault)),
        };
        if first_counter % 2 == 1 || first_counter > 1 << 48 {
            return Err(MakeFault::BadCounter {
                counter: first_counter,
            });
        }
        let table = Table {
            kind,
            shape,
            first_counter,
        };
        match opened(alloc, table, size) {
            Ok(made) => Ok(made),
            Err(_) => Err(MakeFault::OutOfMemory),
        }
    }
}

/// A table that has just been made.
fn opened(alloc: Global, table: Table, size: u64) -> Result<(Cht, Seat), AllocError>
    requires shape { IsSound table.shape }
    requires size { size ≡ words_of table.shape }
    requires counter { IsFirstCounter table.first_counter }
    ensures made { IfOk result (λ made. Opened table made.0 made.1) }
{
    let words = first_words(alloc, &table, size)?;
    let shape = table.shape;
    let origin = Origin { table, seed: 0 };
    let opening = Opening { origin, heir: None };
    let (table, raw) = Words::of_words(alloc, words.as_slice(), &opening)?;
    let seat = Seat {
        raw,
        number: 0,
        cursor: 0,
        passed: 0,
    };
    let layout = Layout::of(shape);
    let cht = Cht {
        table,
        origin,
        layout,
    };
    Ok((cht, seat))
}

/// The words of a table that has just been made.
fn first_words(alloc: Global, table: &Table, size: u64) -> Result<Vec<u64>, AllocError>
    requires shape { IsSound table.now.shape }
    requires size { size ≡ words_of table.now.shape }
    ensures value { IfOk result (λ words. words.items ≡ opening_words table.now) }
{
    let mut words = vec![in alloc; 0u64; size as usize]?;
    words[table.shape.index(Place::Draws) as usize] = 1;
    words[table.shape.index(Place::Counter) as usize] = table.first_counter;
    words[table.shape.index(Place::Level) as usize] = u64::from(table.shape.min_level);
    Ok(words)
}
