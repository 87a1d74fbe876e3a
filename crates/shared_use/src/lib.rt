//! A first use of a table that threads share: two threads intern the same texts.
#![tactic(auto)]

ghost use Rattle.std.specs.Prelude.{◌≡◌, true, length, map};
ghost use Rattle.intern_log.specs.Own.{is_among};
ghost use Rattle.intern_log.specs.Short.{IsShort};
ghost use Rattle.cht_run.specs.Begins.{HasLedger};
ghost use Rattle.cht_run.specs.Ended.{Keeps};
ghost use Rattle.cht_run.specs.Seats.{sight, seen, kids};
ghost use Rattle.shared_use.specs.Shared.{MayIntern, HasSeenMore, IsAnswer, StillAnswers, AreAnswers, AreOne, IsBoth};

use cht_run::{Cht, Interned, Seat};
use intern_log::Handle;
use std::sync::Wait;
use std::thread::Threads;

/// Interns a text: its handle, or none where it is too long or no slot was free. What the seat had for other texts
/// it has still.
fn intern_one<R: Wait>(rt: &R, cht: &Cht, seat: &mut Seat, text: &[u8]) -> Option<Handle>
    requires may { MayIntern cht.now seat.old }
    ensures may { MayIntern cht.now seat.new }
    ensures keeps { Keeps seat.old seat.new }
    ensures answer { IsAnswer cht.now (seen seat.old) seat.new text.now result }
    ensures more { HasSeenMore seat.old seat.new }
    ensures still { StillAnswers cht.now seat.old seat.new }
{
    match cht.intern(rt, seat, text) {
        Interned::Created(handle) | Interned::Taken(handle) => Some(handle),
        Interned::TooLong => None,
        Interned::NoSlot => None,
    }
}

/// Interns each text, and gives the seat back with what it has for each.
fn intern_all<R: Wait>(
    rt: &R,
    cht: &Cht,
    mut seat: Seat,
    texts: &[&[u8]],
    mut answers: Vec<Option<Handle>>,
) -> (Seat, Vec<Option<Handle>>)
    requires may { MayIntern cht.now seat }
    requires room { length answers.items ≡ length texts.now }
    ensures may { MayIntern cht.now result.0 }
    ensures keeps { Keeps seat result.0 }
    ensures answers { AreAnswers cht.now (seen seat) result.0 (map (λ text. text.now) texts.now) result.1.items }
    ensures ledger { HasLedger (sight result.0) }
{
    for i in 0..texts.len() {
        let answer = intern_one(rt, cht, &mut seat, texts[i]);
        answers[i] = answer;
    }
    // By this load the seat is known to have let go of nothing that it had not had.
    cht.level(&mut seat);
    (seat, answers)
}

/// Two threads intern the same texts. Each has a list of answers, with one for each text. The seat that is given back
/// has the holds of both.
///
/// An answer with a handle is one that was given for the text, and the seat holds it. A text has none only where it
/// is longer than a slot has room for, or where it was absent and each slot was taken, at some moment of the call.
/// Where both threads have a handle for a text, it is the same one. That is said as long as fewer than 2^47 entries
/// were ever made in the table: then no generation of a slot has come round.
pub fn intern_by_two<R: Threads + Wait + Sync>(
    rt: &R,
    cht: &Cht,
    seat: Seat,
    other: Seat,
    texts: &[&[u8]],
    mine: Vec<Option<Handle>>,
    theirs: Vec<Option<Handle>>,
) -> (Seat, Vec<Option<Handle>>, Vec<Option<Handle>>)
    requires may { MayIntern cht.now seat × MayIntern cht.now other }
    requires kid { is_among (kids seat) other.number ≡ true }
    requires room { (length mine.items ≡ length texts.now) × (length theirs.items ≡ length texts.now) }
    ensures may { MayIntern cht.now result.0 }
    ensures both { IsBoth seat other result.0 }
    ensures mine { AreAnswers cht.now (seen seat) result.0 (map (λ text. text.now) texts.now) result.1.items }
    ensures theirs { AreAnswers cht.now (seen other) result.0 (map (λ text. text.now) texts.now) result.2.items }
    ensures one { IsShort (seen result.0) → AreOne result.1.items result.2.items }
{
    let ((mut seat, mine), (other, theirs)) = std::thread::join(
        rt,
        || intern_all(rt, cht, seat, texts, mine),
        || intern_all(rt, cht, other, texts, theirs),
    );
    cht.join(&mut seat, other);
    // By this load each handle that the seat holds is known to be live.
    cht.level(&mut seat);
    (seat, mine, theirs)
}

#[cfg(test)]
mod tests;
