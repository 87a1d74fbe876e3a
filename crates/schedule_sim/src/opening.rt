//! The line that says what table a script is of.
ghost use Rattle.std.specs.Prelude.{◌≡◌, ◌≢◌, ◌≤◌, ◌+◌, ◌↔◌, ℕ, [], ◌∷◌, List, None, IfSome, IsTrue, decimal};
ghost use Rattle.intern_log.specs.declared.event.Kind.{Kind};
ghost use Rattle.table_shape.specs.declared.shape.Shape.{Shape};
ghost use Rattle.cht_core.specs.State.{IsFirstCounter};
ghost use Rattle.schedule_sim.specs.Fit.{IsFit};
ghost use Rattle.schedule_sim.specs.Script.{table_word, shape_parts, IsSmall, IsOpening, OpensNone};

use crate::cut::{Parts, is_word};
use crate::number::{last_number, next_u8, next_u32};
use atomic_step::Shape;
use intern_log::Kind;

/// What the first line of a script says.
#[derive(Clone, Copy)]
pub(crate) struct Opening {
    pub(crate) kind: Kind,
    pub(crate) shape: Shape,
    pub(crate) first_counter: u64,
}

/// The greatest number of words of a table of a script.
const MOST_WORDS: u64 = 1 << 20;

/// The greatest number of seats of a script.
const MOST_SEATS: u32 = 16;

/// The greatest counter with which a script begins.
const MOST_COUNTER: u64 = 1 << 48;

/// The kind of the name.
fn kind_of(name: &[u8]) -> Option<Kind>
    ensures kind { IfSome result (λ kind. name.now ≡ table_word kind) }
    ensures none { result ≡ None → (kind : Kind) → name.now ≢ table_word kind }
{
    if is_word(name, b"counted") {
        Some(Kind::Counted)
    } else if is_word(name, b"weak") {
        Some(Kind::Weak)
    } else {
        None
    }
}

/// Takes the numbers of a shape off the front of the parts.
fn next_shape(parts: &mut Parts<'_>) -> Option<Shape>
    ensures shape { IfSome result (λ shape. parts.old ≡ shape_parts shape parts.new) }
    ensures small { IfSome result IsSmall }
    ensures none { result ≡ None → (shape : Shape) (more : List (List ℕ)) → IsSmall shape → parts.old ≢ shape_parts shape more }
{
    let slots = next_u32(parts)?;
    let text_words = next_u32(parts)?;
    let min_level = next_u8(parts)?;
    let max_level = next_u8(parts)?;
    let seats = next_u32(parts)?;
    Some(Shape {
        slots,
        text_words,
        min_level,
        max_level,
        seats,
    })
}

/// Whether a script may be of a table of the shape.
fn is_fit(shape: &Shape) -> bool
    ensures { IsTrue result ↔ IsFit shape.now }
{
    match shape.check() {
        Ok(words) => words <= MOST_WORDS && shape.seats <= MOST_SEATS,
        Err(_) => false,
    }
}

/// Whether a script may begin with the counter: it is even and at most 2^48.
fn is_first_counter(counter: u64) -> bool
    ensures { IsTrue result ↔ IsFirstCounter counter }
{
    counter % 2 == 0 && counter <= MOST_COUNTER
}

/// The opening that the line writes, where it is of the form.
pub(crate) fn opening_of(line: &[u8]) -> Option<Opening>
    ensures opening { IfSome result (λ o. IsOpening line.now o.kind o.shape o.first_counter) }
    ensures none { result ≡ None → OpensNone line.now }
{
    let mut parts = Parts::of(line, b' ');
    if !is_word(parts.next()?, b"shape") {
        return None;
    }
    let kind = kind_of(parts.next()?)?;
    let shape = next_shape(&mut parts)?;
    let first_counter = last_number(&mut parts)?;
    if !is_fit(&shape) {
        return None;
    }
    if !is_first_counter(first_counter) {
        return None;
    }
    Some(Opening {
        kind,
        shape,
        first_counter,
    })
}
