//! The first place at which a list of events is no lawful log.
ghost use Rattle.std.specs.Prelude.{◌≡◌, ◌↔◌, [], ◌∷◌, ◌++◌, IsTrue, IfOk, OnErr, MatchOption};
ghost use Rattle.intern_log.specs.Faults.{IsFirstFault, ReachesCreate};
ghost use Rattle.intern_log.specs.Lawful.{IsLawful};
ghost use Rattle.intern_log.specs.Now.{now_of};

use crate::follow::{is_repeated, may_follow};
use intern_log::{Event, Replay, TableKind};
use std::alloc::{AllocError, Global};

/// Whether a lawful log is one with one more event. It asks for the map that the log leaves.
fn stays_lawful(table: &TableKind, before: &[Event], texts: &Replay, event: &Event) -> bool
    requires lawful { IsLawful table.now before.now }
    requires texts { texts.now ≡ (now_of table.now.min_level before.now).texts }
    ensures { IsTrue result ↔ IsLawful table.now (before.now ++ event.now ∷ []) }
{
    may_follow(table, before, texts, event) && !is_repeated(before, event)
}

/// The first place at which a list of events is no lawful log of such a table, counted from 0: the
/// events before it are one, and with its event they are one no longer. `None` comes exactly for a lawful
/// log. Only want of memory fails, and only a Create up to which the list is lawful takes memory.
pub fn first_unlawful(
    alloc: Global,
    table: &TableKind,
    events: &[Event],
) -> Result<Option<usize>, AllocError>
    ensures first { IfOk result (λ answer. MatchOption answer
        (IsLawful table.now events.now)
        (λ place. IsFirstFault (IsLawful table.now) events.now place)) }
    ensures memory { OnErr result (ReachesCreate (IsLawful table.now) events.now) }
{
    let mut texts = Replay::new(alloc);
    for (place, event) in events.iter().enumerate() {
        let before = &events[..place];
        if !stays_lawful(table, before, &texts, event) {
            return Ok(Some(place));
        }
        texts.apply(&event.what)?;
    }
    Ok(None)
}

#[cfg(test)]
mod tests;
