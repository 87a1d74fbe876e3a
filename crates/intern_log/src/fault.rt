//! The first event of a list that no table can have made there.
ghost use Rattle.std.specs.Prelude.{IfOk, OnErr, IfSome, MatchOption};
ghost use Rattle.intern_log.specs.Log.{IsLegal};
ghost use Rattle.intern_log.specs.Faults.{IsFirstFault, IsNotAllowedAt, ReachesCreate};

use crate::event::Event;
use crate::replay::Replay;
use std::alloc::{AllocError, Global};

/// The place, from 0, of the first event that the map of those before it does not allow, or `None`
/// where the map allows each. Only want of memory fails, and only a Create that the map allows takes
/// memory. With n events it compares about n log n texts and handles.
pub fn first_fault(alloc: Global, events: &[Event]) -> Result<Option<usize>, AllocError>
    ensures first { IfOk result (λ answer. MatchOption answer (IsLegal events.now) (IsFirstFault IsLegal events.now)) }
    ensures not_allowed { IfOk result (λ answer. IfSome answer (IsNotAllowedAt events.now)) }
    ensures memory { OnErr result (ReachesCreate IsLegal events.now) }
{
    let mut replay = Replay::new(alloc);
    for (place, event) in events.iter().enumerate() {
        if !replay.allows(&event.what) {
            return Ok(Some(place));
        }
        replay.apply(&event.what)?;
    }
    Ok(None)
}

#[cfg(test)]
mod tests {
    use super::*;
    use crate::event::{Handle, What};
    use crate::text::Text;
    use std::test::Fail;

    #[test]
    fn a_text_that_is_gone_is_not_taken(rt: HostRuntime) -> Result<(), Fail> {
        let handle = Handle {
            slot: 0,
            generation: 0,
        };
        let mut events = Vec::new(rt.alloc());
        let create = What::Create(Text::of(rt.alloc(), b"a")?, handle);
        events.push(Event {
            seat: 0,
            what: create,
        })?;
        events.push(Event {
            seat: 0,
            what: What::Drop(handle),
        })?;
        assert_eq!(rt; first_fault(rt.alloc(), events.as_slice())?, None);

        let take = What::Take(Text::of(rt.alloc(), b"a")?, handle);
        events.push(Event {
            seat: 0,
            what: take,
        })?;
        assert_eq!(rt; first_fault(rt.alloc(), events.as_slice())?, Some(2));
        Ok(())
    }
}
