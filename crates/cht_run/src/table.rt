//! A running table.
ghost use Rattle.std.specs.Prelude.{◌≡◌, ◌<◌, ◌^◌};
ghost use Rattle.table_shape.specs.Shape.{IsSound, words_of};

use crate::layout::Layout;
use crate::shared::{Opening, Ruled};
use crate::sight::{Origin, Sight};
use atomic_table::Table;
use std::alloc::Global;

/// A table that threads share. Each thread calls it with a seat of its own.
#[derive(Drop)]
pub struct Cht {
    pub(crate) table: Table<(), Sight, Opening, Ruled, Global>,
    pub(crate) origin: Origin,
    pub(crate) layout: Layout,
    ghost of: { table.shared.key.origin ≡ origin },
    ghost wide: { table.shared.table_id.words ≡ words_of origin.table.shape },
    ghost bare: { table.shared.table_id.slots ≡ 0 },
    ghost sound: { IsSound origin.table.shape },
    ghost seeded: { origin.seed < 2 ^ 32 },
    ghost laid: { layout.shape ≡ origin.table.shape },
}
