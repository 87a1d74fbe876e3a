//! Where the words of a table stand: what does not change is computed once.
ghost use Rattle.std.specs.Prelude.{◌≡◌, ◌^◌, ◌<◌, ◌≤◌};
ghost use Rattle.table_shape.specs.declared.place.Place.TheVariants as place;
ghost use Rattle.table_shape.specs.Shape as shapes;
ghost use Rattle.table_shape.specs.Shape.{IsSound};
ghost use Rattle.table_shape.specs.Place as places;
ghost use Rattle.table_shape.specs.Place.{IsInside, index_of};
ghost use Rattle.atomic_step.specs.Step.{edge_place};
ghost use Rattle.cht_run.specs.Layouts.{StandsAt};

use atomic_step::{Edge, Place, Shape};

/// The indices of the words that each table has.
pub(crate) const DRAWS: u32 = 0;

pub(crate) const COUNTER: u32 = 1;

pub(crate) const RESIZE_LOCK: u32 = 2;

pub(crate) const LEVEL: u32 = 3;

pub(crate) const NEW_LEVEL: u32 = 4;

/// Where the rows of heads and the slots of a table begin, and where its section words stand.
#[derive(Clone, Copy)]
pub struct Layout {
    shape: Shape,
    rows_from: u32,
    least_row: u32,
    slots_from: u32,
    slot_words: u32,
    /// Whether section words stand among the heads of the greatest row.
    is_spread: bool,
    greatest_from: u32,
    /// The bucket behind the last one whose head changed places with a section word.
    last_apart: u32,
    ghost sound: { IsSound shape },
    ghost rows: { rows_from ≡ shapes.heads_from shape },
    ghost least: { least_row ≡ 2 ^ shape.min_level },
    ghost slots: { slots_from ≡ shapes.slots_from shape },
    ghost slot: { slot_words ≡ shapes.slot_words shape },
    ghost spread: { is_spread ≡ places.is_spread shape },
    ghost greatest: { greatest_from ≡ places.row_from shape shape.max_level },
    ghost apart: { last_apart ≡ places.bucket_for shape.seats },
}

/// How many buckets the row of a level has, if there is such a row.
#[inline(always)]
fn row_len(level: u8) -> u32
    ensures value { level ≤ 20 → result ≡ 2 ^ level }
{
    1u32 << (level % 32)
}

impl Layout {
    /// The layout of the tables of a shape.
    pub(crate) fn of(shape: Shape) -> Layout
        requires sound { IsSound shape }
        ensures shape { result.shape ≡ shape }
    {
        let rows_from = 5 + shape.seats;
        let least_row = row_len(shape.min_level);
        let greatest_row = row_len(shape.max_level);
        let last_apart = 8 * (shape.seats + 1);
        Layout {
            shape,
            rows_from,
            least_row,
            slots_from: shape.index(Place::Claim(0)),
            slot_words: 4 + shape.text_words,
            is_spread: last_apart <= greatest_row,
            greatest_from: rows_from + (greatest_row - least_row),
            last_apart,
        }
    }

    /// Where a slot begins, if there is such a slot.
    #[inline(always)]
    fn slot(&self, slot: u32) -> u32
        ensures value { slot < self.now.shape.slots → result ≡ places.slot_from self.now.shape slot }
    {
        self.slots_from
            .wrapping_add(slot.wrapping_mul(self.slot_words))
    }

    /// The index of the claim word of a slot, as of the next ones, where there is such a word.
    #[inline(always)]
    pub(crate) fn claim(&self, slot: u32) -> u32
        ensures value { StandsAt self.now.shape (place.Claim slot) result }
    {
        self.slot(slot)
    }

    /// The index of the link word of a slot.
    #[inline(always)]
    pub(crate) fn link(&self, slot: u32) -> u32
        ensures value { StandsAt self.now.shape (place.Link slot) result }
    {
        self.slot(slot).wrapping_add(1)
    }

    /// The index of the count word of a slot.
    #[inline(always)]
    pub(crate) fn count(&self, slot: u32) -> u32
        ensures value { StandsAt self.now.shape (place.Count slot) result }
    {
        self.slot(slot).wrapping_add(2)
    }

    /// The index of the meta word of a slot.
    #[inline(always)]
    pub(crate) fn meta(&self, slot: u32) -> u32
        ensures value { StandsAt self.now.shape (place.Meta slot) result }
    {
        self.slot(slot).wrapping_add(3)
    }

    /// The index of a text word of a slot.
    #[inline(always)]
    pub(crate) fn text(&self, slot: u32, at: u32) -> u32
        ensures value { StandsAt self.now.shape (place.Text slot at) result }
    {
        self.slot(slot).wrapping_add(4).wrapping_add(at)
    }

    /// The index of the section word of a seat.
    #[inline(always)]
    pub(crate) fn section(&self, seat: u32) -> u32
        ensures value { StandsAt self.now.shape (place.Section seat) result }
    {
        if self.is_spread {
            let apart = seat.wrapping_mul(8);
            self.greatest_from.wrapping_add(8).wrapping_add(apart)
        } else {
            seat.wrapping_add(5)
        }
    }

    /// Whether a head changes places with the section word of a seat.
    #[inline(always)]
    fn is_for_seat(&self, row: u8, bucket: u32) -> bool
        ensures value { result ≡ places.is_for_seat self.now.shape row bucket }
    {
        self.is_spread
            && row == self.shape.max_level
            && bucket % 8 == 0
            && 0 < bucket
            && bucket < self.last_apart
    }

    /// The index of a head.
    #[inline(always)]
    pub(crate) fn head(&self, row: u8, bucket: u32) -> u32
        ensures value { StandsAt self.now.shape (place.Head row bucket) result }
    {
        if self.is_for_seat(row, bucket) {
            4 + bucket / 8
        } else {
            let below = self.rows_from.wrapping_sub(self.least_row);
            below.wrapping_add(row_len(row)).wrapping_add(bucket)
        }
    }

    /// The index of the word of an edge.
    #[inline(always)]
    pub(crate) fn edge(&self, edge: Edge) -> u32
        ensures value { StandsAt self.now.shape (edge_place edge) result }
    {
        match edge {
            Edge::Head { row, bucket } => self.head(row, bucket),
            Edge::Link { slot } => self.link(slot),
        }
    }

    /// The index of a word.
    pub(crate) fn index(&self, place: Place) -> u32
        requires inside { IsInside self.now.shape place }
        ensures value { result ≡ index_of self.now.shape place }
    {
        match place {
            Place::Draws => 0,
            Place::Counter => 1,
            Place::ResizeLock => 2,
            Place::Level => 3,
            Place::NewLevel => 4,
            Place::Section(seat) => self.section(seat),
            Place::Head { row, bucket } => self.head(row, bucket),
            Place::Claim(slot) => self.claim(slot),
            Place::Link(slot) => self.link(slot),
            Place::Count(slot) => self.count(slot),
            Place::Meta(slot) => self.meta(slot),
            Place::Text { slot, at } => self.text(slot, at),
        }
    }
}
