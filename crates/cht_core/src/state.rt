//! A whole table as plain data: its words, the call of each seat, and its log.
ghost use Rattle.std.specs.Prelude.{◌≡◌, ◌++◌, ◌<◌, ◌↔◌, length, IfOk, IfErr, IfSome, OnErr, IsTrue};
ghost use Rattle.table_shape.specs.Shape.{IsSound, words_of};
ghost use Rattle.intern_log.specs.Short.{IsShort};
ghost use Rattle.intern_log.specs.Lawful.{IsLawful};
ghost use Rattle.intern_log.specs.Now.{now_of};
ghost use Rattle.call_machine.specs.Machine as machines;
ghost use Rattle.cht_core.specs.Invariant.{events_of};
ghost use Rattle.cht_core.specs.Memory.{memory_of};
ghost use Rattle.cht_core.specs.Past.{kind_of as rules_of};
ghost use Rattle.cht_core.specs.Shows.{ShowsLog};
ghost use Rattle.cht_core.specs.State.{seat_in, IsFirstCounter, IsMakeFault, opening_of, first_seats_of, StartsAs, StepsAs, CanRehash, RehashesAs, kind_next, started_by, stepped_by, drawn_in, with_drawn};

use crate::condition::can_start;
use crate::rehash::{Rehashing, are_free, has_dead, make_anew};
use crate::seat::{Seat, advance, begun, drawn};
use crate::table::Table;
use atomic_step::{Answer, Place, Plan, Shape, ShapeFault, Step, StepKind, Want};
use call_machine::{Call, Machine};
use intern_log::{Event, Kind, What};
use std::alloc::{AllocError, Global};
use std::marker::Model;

/// Why no table is made. The faults come in this order.
#[derive(Clone, Copy, Debug, PartialEq, Eq)]
pub enum MakeFault {
    /// The numbers are no shape of a table.
    Shape(ShapeFault),
    /// The first counter is odd or above 2^48.
    BadCounter { counter: u64 },
    /// There is no memory for the table.
    OutOfMemory,
}

/// There was no memory for one more event. Nothing has changed.
#[derive(Clone, Copy, Debug, PartialEq, Eq)]
pub struct OutOfMemory;

/// What starting a call came to. After the last three nothing has changed.
#[derive(Clone, Copy, Debug, PartialEq, Eq)]
pub enum Started {
    /// The seat's call is running.
    Started,
    /// The call needs no step: this is its answer.
    Answered(Answer),
    /// No seat has this number.
    NoSeat,
    /// The seat's call before has not answered yet.
    Running,
    /// The condition of the call does not hold.
    Refused,
}

/// What a step of a seat came to.
#[derive(Clone, Copy, Debug, PartialEq, Eq)]
pub enum Stepped {
    /// The step was made, and the call goes on.
    Moved,
    /// The step was made, and the call has answered.
    Answered(Answer),
    /// The seat has no running call.
    Idle,
}

/// A table with its seats and its log.
#[derive(Drop)]
pub struct State<'t> {
    alloc: Global,
    table: Table,
    seed: u32,
    words: Vec<u64>,
    seats: Vec<Option<Seat<'t>>>,
    log: Vec<Event>,
}

impl<'t> Model for State<'t> {
    ghost use Rattle.cht_core.specs.State.{Core, IsCore};

    ghost Value = { Core };

    ghost view = { λ s. record { table = s.table; seed = s.seed; words = s.words.items; seats = s.seats.items; log = s.log.items } };

    ghost invariant = { λ s. IsCore (record { table = s.table; seed = s.seed; words = s.words.items; seats = s.seats.items; log = s.log.items }) };
}

impl<'t> State<'t> {
    /// A table with no entries, at its least level. Seat 0 is drawn.
    pub fn new(
        alloc: Global,
        kind: Kind,
        shape: Shape,
        first_counter: u64,
    ) -> Result<State<'t>, MakeFault>
        ensures made { IfOk result (λ state. state ≡ opening_of (record { kind = kind; shape = shape; first_counter = first_counter })) }
        ensures fault { IfErr result (IsMakeFault shape first_counter) }
    {
        let size = match shape.check() {
            Ok(size) => size,
            Err(fault) => return Err(MakeFault::Shape(fault)),
        };
        if first_counter % 2 == 1 || first_counter > 1 << 48 {
            return Err(MakeFault::BadCounter {
                counter: first_counter,
            });
        }
        let table = Table {
            kind,
            shape,
            first_counter,
        };
        match opened(alloc, table, size) {
            Ok(state) => Ok(state),
            Err(_) => Err(MakeFault::OutOfMemory),
        }
    }

    /// Starts a call of a seat. It takes no memory. A seat whose number is not drawn answers `NoSeat`, and one whose call has
    /// not answered yet `Running`. `Refused` comes exactly where the condition of the call does not hold. A call that needs no
    /// step is answered at once, and then the seat has no running call.
    pub fn start(&mut self, seat: u32, call: Call<'t>) -> Started
        ensures value { StartsAs self.old seat call.entry (seat_in self.old.seats seat) result self.new }
    {
        let place = seat as usize;
        if place >= self.seats.len() {
            return Started::NoSeat;
        }
        let Some(at) = &self.seats[place] else {
            return Started::NoSeat;
        };
        let Seat::Idle { own } = at else {
            return Started::Running;
        };
        if !can_start(&self.table, self.log.as_slice(), own, call) {
            return Started::Refused;
        }
        let Some(taken) = self.seats[place].take() else {
            unreachable!()
        };
        let Seat::Idle { own } = taken else {
            unreachable!()
        };
        let (next, answer) = begun(&self.table, self.seed, own, call);
        self.seats[place] = Some(next);
        started_with(answer)
    }

    /// The kind of the next step of a seat's call: none exactly where the seat has no running call.
    pub fn next_kind(&self, seat: u32) -> Option<StepKind>
        ensures value { result ≡ kind_next (seat_in self.now.seats seat) }
    {
        let place = seat as usize;
        if place >= self.seats.len() {
            return None;
        }
        let Some(at) = &self.seats[place] else {
            return None;
        };
        let Seat::Running { machine } = at else {
            return None;
        };
        match machine.want() {
            Want::Do { kind, .. } => Some(kind),
            Want::Answered(_) => None,
        }
    }

    /// Makes the next step of a seat's call. `Idle` comes exactly where the seat has no running call. A step that draws a
    /// number of the table brings a new seat. Only an event takes memory, and where there is none nothing has changed.
    pub fn step(&mut self, seat: u32) -> Result<Stepped, OutOfMemory>
        ensures value { IfOk result (λ stepped. StepsAs self.old seat (seat_in self.old.seats seat) stepped self.new) }
        ensures lawful { IsShort self.new.log → IsLawful (rules_of self.new.table) self.new.log }
        ensures shows { ShowsLog self.new.table (memory_of self.new.table.shape self.new.words) (now_of self.new.table.shape.min_level self.new.log) }
        ensures err { OnErr result (self.new ≡ self.old) }
    {
        let place = seat as usize;
        if place >= self.seats.len() {
            return Ok(Stepped::Idle);
        }
        let Some(at) = &self.seats[place] else {
            return Ok(Stepped::Idle);
        };
        let Seat::Running { machine } = at else {
            return Ok(Stepped::Idle);
        };
        let Plan::Step(step) = machine.plan() else {
            unreachable!()
        };
        let op = step.op(&self.table.shape);
        let index = op.at() as usize;
        let word = self.words[index];
        let event = event_of(machine, self.alloc, word)?;
        record(&mut self.log, seat, event)?;
        self.words[index] = op.after(word);
        let answer = advance(&mut self.seats[place], word);
        add_drawn(&mut self.seats, &self.table.shape, step, word);
        Ok(stepped_with(answer))
    }

    /// Makes the table anew by the next seed. `Refused` comes exactly where a seat has a running call, an unfinished work or
    /// an unfinished grace, where a slot is linked and dead, or where the seed is 2. The new hash comes into the meta word of
    /// each linked slot, and the chains of the level's row are made anew, each in ascending order of its slots. The log gets
    /// one `Rehash` by number 0. Handles, counts, slots and the level stay. After `Refused` and `OutOfMemory` nothing has
    /// changed.
    pub fn rehash(&mut self) -> Rehashing
        ensures value { RehashesAs self.old result self.new }
        ensures lawful { IsShort self.new.log → IsLawful (rules_of self.new.table) self.new.log }
        ensures shows { ShowsLog self.new.table (memory_of self.new.table.shape self.new.words) (now_of self.new.table.shape.min_level self.new.log) }
    {
        if !self.can_rehash() {
            return Rehashing::Refused;
        }
        let seed = self.seed + 1;
        let Ok(mut text) = vec![in self.alloc; 0u8; 8 * self.table.shape.text_words as usize] else {
            return Rehashing::OutOfMemory;
        };
        let Ok(()) = record(&mut self.log, 0, Some(What::Rehash { seed })) else {
            return Rehashing::OutOfMemory;
        };
        let level = self.words[self.table.shape.index(Place::Level) as usize] as u8;
        make_anew(&mut self.words, &self.table.shape, level, seed, &mut text);
        self.seed = seed;
        Rehashing::Done
    }

    /// Whether the table may be made anew.
    fn can_rehash(&self) -> bool
        ensures exact { IsTrue result ↔ CanRehash self.now }
    {
        if self.seed >= 2 {
            return false;
        }
        if !are_free(self.seats.as_slice()) {
            return false;
        }
        !has_dead(
            self.words.as_slice(),
            &self.table.shape,
            self.log.as_slice(),
        )
    }

    /// The events so far, oldest first.
    pub fn log(&self) -> &[Event]
        ensures value { result.now ≡ self.now.log }
    {
        self.log.as_slice()
    }

    /// The words of the table, in the order of their indices.
    pub fn words(&self) -> &[u64]
        ensures value { result.now ≡ self.now.words }
    {
        self.words.as_slice()
    }

    /// The seed of the hash, which is 0 at first.
    pub fn seed(&self) -> u32
        ensures value { result ≡ self.now.seed }
    {
        self.seed
    }
}

/// A table that has just been made.
fn opened<'t>(alloc: Global, table: Table, size: u64) -> Result<State<'t>, AllocError>
    requires shape { IsSound table.shape }
    requires size { size ≡ words_of table.shape }
    requires counter { IsFirstCounter table.first_counter }
    ensures value { IfOk result (λ state. state ≡ opening_of table) }
{
    let mut words = vec![in alloc; 0u64; size as usize]?;
    words[table.shape.index(Place::Draws) as usize] = 1;
    words[table.shape.index(Place::Counter) as usize] = table.first_counter;
    words[table.shape.index(Place::Level) as usize] = u64::from(table.shape.min_level);
    Ok(State {
        alloc,
        table,
        seed: 0,
        words,
        seats: first_seats(alloc, &table.shape)?,
        log: Vec::new(alloc),
    })
}

/// The seats of a table that has just been made: one is drawn.
fn first_seats<'t>(alloc: Global, shape: &Shape) -> Result<Vec<Option<Seat<'t>>>, AllocError>
    requires shape { IsSound shape.now }
    ensures value { IfOk result (λ seats. seats.items ≡ first_seats_of shape.now) }
{
    let mut seats = Vec::with_capacity(alloc, shape.seats as usize)?;
    seats.push(Some(drawn(shape, 0)))?;
    for _ in 1..shape.seats {
        seats.push(None)?;
    }
    Ok(seats)
}

/// What starting a call came to, by its answer.
fn started_with(answer: Option<Answer>) -> Started
    ensures value { result ≡ started_by answer }
{
    match answer {
        Some(answer) => Started::Answered(answer),
        None => Started::Started,
    }
}

/// What a step came to, by the answer of its call.
fn stepped_with(answer: Option<Answer>) -> Stepped
    ensures value { result ≡ stepped_by answer }
{
    match answer {
        Some(answer) => Stepped::Answered(answer),
        None => Stepped::Moved,
    }
}

/// The number that a step draws where it found the word: none where all numbers of the table are drawn.
fn number_drawn(shape: &Shape, step: Step, word: u64) -> Option<u32>
    ensures value { result ≡ drawn_in shape.now step word }
    ensures inside { IfSome result (λ number. number < shape.now.seats) }
{
    match step {
        Step::Draw => {
            if word < u64::from(shape.seats) {
                Some(word as u32)
            } else {
                None
            }
        }
        _ => None,
    }
}

/// A new seat comes where a step draws a number.
fn add_drawn<'t>(seats: &mut Vec<Option<Seat<'t>>>, shape: &Shape, step: Step, word: u64)
    requires shape { IsSound shape.now }
    requires seats { length seats.old.items ≡ shape.now.seats }
    ensures value { seats.new.items ≡ with_drawn shape.now (drawn_in shape.now step word) seats.old.items }
{
    if let Some(number) = number_drawn(shape, step, word) {
        seats[number as usize] = Some(drawn(shape, number));
    }
}

/// What the next step of a machine adds to the log.
fn event_of(machine: &Machine<'_>, alloc: Global, word: u64) -> Result<Option<What>, OutOfMemory>
    ensures value { IfOk result (λ event. event ≡ machines.event_of machine.now word) }
{
    match machine.event(alloc, word) {
        Ok(event) => Ok(event),
        Err(_) => Err(OutOfMemory),
    }
}

/// Adds an event of a seat to the log, if there is one.
fn record(log: &mut Vec<Event>, seat: u32, event: Option<What>) -> Result<(), OutOfMemory>
    ensures ok { IfOk result (λ _. log.new.items ≡ log.old.items ++ events_of seat event) }
    ensures err { OnErr result (log.new.items ≡ log.old.items) }
{
    match event {
        Some(what) => match log.push(Event { seat, what }) {
            Ok(()) => Ok(()),
            Err(_) => Err(OutOfMemory),
        },
        None => Ok(()),
    }
}
