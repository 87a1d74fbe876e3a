//! Laws by one more event: what a log says after one more event, by what it said before.
//! Each function does nothing: its contract is the law.
ghost use Rattle.std.specs.Prelude.{◌≡◌, ℕ, ◌+◌, ◌^◌, ◌<◌, ◌↔◌, true, false, ◌&&◌, if◌then◌else◌, List, [], ◌∷◌, ◌++◌, length};
ghost use Rattle.std.specs.List.{list_any};
ghost use Rattle.intern_log.specs.declared.event.Event.{Event};
ghost use Rattle.intern_log.specs.declared.event.Handle.{Handle};
ghost use Rattle.intern_log.specs.declared.event.What.{What};
ghost use Rattle.intern_log.specs.declared.event.TableKind.{TableKind};
ghost use Rattle.intern_log.specs.Log.{next, map_of, creates, IsFresh};
ghost use Rattle.intern_log.specs.Own.{is_visible, is_among, mine, is_gain, is_loss, gains, losses};
ghost use Rattle.intern_log.specs.Counts.{is_create, events_in};
ghost use Rattle.intern_log.specs.Now.{now_after_event, now_of};
ghost use Rattle.intern_log.specs.Short.{IsShort};
ghost use Rattle.intern_log.specs.Lawful.{IsNew, MayFollow, IsLawful};

/// The map of a log by one more event.
pub fn map_by_one_more_event()
    ensures law { (log : List Event) (e : Event) → map_of (log ++ e ∷ []) ≡ next (map_of log) e.what }
{}

/// What a log says at its end, by one more event.
pub fn now_by_one_more_event()
    ensures law { (min_level : ℕ) (log : List Event) (e : Event) → now_of min_level (log ++ e ∷ []) ≡ now_after_event (now_of min_level log) e }
{}

/// The place is the number of events.
pub fn place_of_now()
    ensures law { (min_level : ℕ) (log : List Event) → (now_of min_level log).place ≡ length log }
{}

/// A caller's events by one more event: that event too, where callers see it and its number is among the caller's.
pub fn own_events_by_one_more_event()
    ensures law { (log : List Event) (e : Event) (numbers : List ℕ) →
        mine (log ++ e ∷ []) numbers ≡ mine log numbers ++ (if is_visible e.what && is_among numbers e.seat then e ∷ [] else []) }
{}

/// The gains of a handle by one more event.
pub fn gains_by_one_more_event()
    ensures law { (log : List Event) (e : Event) (h : Handle) → gains (log ++ e ∷ []) h ≡ gains log h + (if is_gain e.what h then 1 else 0) }
{}

/// The losses of a handle by one more event.
pub fn losses_by_one_more_event()
    ensures law { (log : List Event) (e : Event) (h : Handle) → losses (log ++ e ∷ []) h ≡ losses log h + (if is_loss e.what h then 1 else 0) }
{}

/// One more event keeps a log fresh where it creates no handle that was created before.
pub fn freshness_of_one_more_event()
    ensures law { (log : List Event) (e : Event) → IsFresh (log ++ e ∷ []) ↔ (IsFresh log × IsNew log e.what) }
{}

/// One more event keeps a log lawful where it may follow and creates no handle that was created before.
pub fn lawfulness_of_one_more_event()
    ensures law { (table : TableKind) (log : List Event) (e : Event) →
        IsLawful table (log ++ e ∷ []) ↔ (IsLawful table log × MayFollow table (now_of table.min_level log) e.seat e.what × IsNew log e.what) }
{}

/// What begins a short log is short.
pub fn prefix_of_a_short_log()
    ensures law { (front rest : List Event) → IsShort (front ++ rest) → IsShort front }
{}

/// A log stays short by one more event, unless that is a Create and the log has 2^47 - 1 of them.
pub fn shortness_of_one_more_event()
    ensures law { (log : List Event) (e : Event) → IsShort (log ++ e ∷ []) ↔ (events_in is_create log + (if is_create e.what then 1 else 0) < 2 ^ 47) }
{}

#[cfg(test)]
mod tests {
    use super::*;

    #[test]
    fn laws_can_be_called() {
        map_by_one_more_event();
        now_by_one_more_event();
        place_of_now();
        own_events_by_one_more_event();
        gains_by_one_more_event();
        losses_by_one_more_event();
        freshness_of_one_more_event();
        lawfulness_of_one_more_event();
        prefix_of_a_short_log();
        shortness_of_one_more_event();
    }
}
