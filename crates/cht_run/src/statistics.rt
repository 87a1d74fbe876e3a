//! The numbers of a table, read by a seat that is alone.
ghost use Rattle.std.specs.Prelude.{◌≡◌, ◌≤◌, ◌<◌, ◌^◌};
ghost use Rattle.marked_word.specs.Head.{first_of as first_in};
ghost use Rattle.table_shape.specs.declared.place.Place.TheVariants as place;
ghost use Rattle.table_shape.specs.Place.{IsInside};
ghost use Rattle.atomic_step.specs.Count.{holds_of as holds_in};
ghost use Rattle.cht_core.specs.Memory.{links};
ghost use Rattle.cht_run.specs.Ends.{Stays, IsAlone, HasNothing};
ghost use Rattle.cht_run.specs.Seats.{history, seen, IsOf};
ghost use Rattle.cht_run.specs.Statistics.{IsStatistics};
ghost use Rattle.cht_run.specs.Tallies.{memory_in, now_for, Reads, ReadsOn, sum_in, sum_below, IsTally, HasChain, IsTallyOfChain, IsLongestBelow};

use crate::seat::Seat;
use crate::table::Cht;
use crate::tally::Tally;
use atomic_step::Place;
use atomic_step::count::holds_of;
use marked_word::{first_of, node_of};

/// The numbers of a table.
#[derive(Clone, Copy, Debug, PartialEq, Eq)]
pub struct Statistics {
    /// Its level, and how many buckets the row of the level has.
    pub level: u8,
    pub buckets: u32,
    /// How many texts are live, and how many of them have the count 65,535, which no drop lowers.
    pub live: u32,
    pub permanent: u32,
    /// The sum of the counts of the others.
    pub references: u64,
    /// The greatest number of live texts in one bucket.
    pub longest: u32,
}

impl Cht {
    /// Takes a first look at the words: none of them changes while the seat is alone.
    fn open_words(&self, seat: &mut Seat)
        requires of { IsOf self.now seat.old }
        requires alone { IsAlone seat.old }
        requires nothing { HasNothing seat.old }
        ensures same { Stays seat.old seat.new }
        ensures history { history seat.new ≡ history seat.old }
        ensures reads { Reads self.now seat.new }
    {
        self.look(seat, 0);
    }

    /// The word at a place.
    fn read(&self, seat: &mut Seat, place: Place) -> u64
        requires reads { Reads self.now seat.old }
        requires inside { IsInside self.now.origin.table.shape place }
        ensures on { ReadsOn self.now seat.old seat.new }
        ensures value { result ≡ memory_in self.now seat.old place }
    {
        let index = self.origin.table.shape.index(place) as usize;
        self.look(seat, index)
    }

    /// The count of a slot.
    fn read_count(&self, seat: &mut Seat, slot: u32) -> u16
        requires reads { Reads self.now seat.old }
        requires inside { slot < self.now.origin.table.shape.slots }
        ensures on { ReadsOn self.now seat.old seat.new }
        ensures value { result ≡ holds_in (memory_in self.now seat.old (place.Count slot)) }
    {
        holds_of(self.read(seat, Place::Count(slot)))
    }

    /// The slot after one in its chain.
    fn read_next(&self, seat: &mut Seat, slot: u32) -> Option<u32>
        requires reads { Reads self.now seat.old }
        requires inside { slot < self.now.origin.table.shape.slots }
        ensures on { ReadsOn self.now seat.old seat.new }
        ensures value { result ≡ links (memory_in self.now seat.old) slot }
    {
        node_of(self.read(seat, Place::Link(slot)))
    }

    /// The first slot of a bucket.
    fn read_first(&self, seat: &mut Seat, level: u8, bucket: u32) -> Option<u32>
        requires reads { Reads self.now seat.old }
        requires level { level ≡ (now_for self.now seat.old).level }
        requires bucket { bucket < 2 ^ level }
        ensures on { ReadsOn self.now seat.old seat.new }
        ensures value { result ≡ first_in (memory_in self.now seat.old (place.Head level bucket)) }
    {
        first_of(self.read(seat, Place::Head { row: level, bucket }))
    }

    /// The counts of a chain.
    fn tally_chain(&self, seat: &mut Seat, first: Option<u32>) -> Tally
        requires reads { Reads self.now seat.old }
        requires chain { HasChain (memory_in self.now seat.old) self.now.origin.table.shape.slots first }
        ensures on { ReadsOn self.now seat.old seat.new }
        ensures tally { IsTallyOfChain (memory_in self.now seat.old) first result }
    {
        let mut tally = Tally::NONE;
        let mut next = first;
        for _ in 0..self.origin.table.shape.slots {
            let Some(slot) = next else {
                return tally;
            };
            let count = self.read_count(seat, slot);
            tally = tally.plus(Tally::of(count));
            next = self.read_next(seat, slot);
        }
        tally
    }

    /// The counts of a bucket.
    fn tally_bucket(&self, seat: &mut Seat, level: u8, bucket: u32) -> Tally
        requires reads { Reads self.now seat.old }
        requires level { level ≡ (now_for self.now seat.old).level }
        requires bucket { bucket < 2 ^ level }
        ensures on { ReadsOn self.now seat.old seat.new }
        ensures tally { IsTally (sum_in (now_for self.now seat.old) bucket) result }
    {
        let first = self.read_first(seat, level, bucket);
        self.tally_chain(seat, first)
    }

    /// The counts of all buckets, and the greatest number of live texts in one.
    fn tally_row(&self, seat: &mut Seat, level: u8) -> (Tally, u32)
        requires reads { Reads self.now seat.old }
        requires level { level ≡ (now_for self.now seat.old).level }
        ensures on { ReadsOn self.now seat.old seat.new }
        ensures tally { IsTally (sum_below (now_for self.now seat.old) (2 ^ level)) result.0 }
        ensures longest { IsLongestBelow (now_for self.now seat.old) (2 ^ level) result.1 }
    {
        let mut tally = Tally::NONE;
        let mut longest = 0;
        for bucket in 0..buckets_of(level) {
            let here = self.tally_bucket(seat, level, bucket);
            tally = tally.plus(here);
            longest = here.live.max(longest);
        }
        (tally, longest)
    }

    /// The level of the table.
    fn read_level(&self, seat: &mut Seat) -> u8
        requires reads { Reads self.now seat.old }
        ensures on { ReadsOn self.now seat.old seat.new }
        ensures value { result ≡ (now_for self.now seat.old).level }
    {
        self.read(seat, Place::Level) as u8
    }

    /// The numbers of the table, where all other seats have come back and the seat has nothing unfinished.
    ///
    /// It loads the head of each bucket, and the count and the link of each slot of a chain, and takes no memory. The
    /// numbers are those of the map of the log that the seat has seen, which is the whole log. It follows the
    /// statistics of `concurrentHashTable.inline.hpp` in HotSpot.
    pub fn statistics(&self, seat: &mut Seat) -> Statistics
        requires of { IsOf self.now seat.old }
        requires alone { IsAlone seat.old }
        requires nothing { HasNothing seat.old }
        ensures of { IsOf self.now seat.new }
        ensures same { Stays seat.old seat.new }
        ensures history { history seat.new ≡ history seat.old }
        ensures numbers { IsStatistics self.now.origin.table (seen seat.old) result }
    {
        self.open_words(seat);
        let level = self.read_level(seat);
        let (tally, longest) = self.tally_row(seat, level);
        Statistics {
            level,
            buckets: buckets_of(level),
            live: tally.live,
            permanent: tally.permanent,
            references: tally.references,
            longest,
        }
    }
}

/// How many buckets the row of a level has.
fn buckets_of(level: u8) -> u32
    requires level { level ≤ 20 }
    ensures value { result ≡ 2 ^ level }
{
    1u32 << level
}
