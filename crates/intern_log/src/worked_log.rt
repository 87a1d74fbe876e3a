//! The log that `docs/MODEL.md` works through is lawful, and says at its places what is written there.
//! Each function does nothing: its contract is the law.
ghost use Rattle.std.specs.Prelude.{◌≡◌, ◌++◌, Some, take};
ghost use Rattle.intern_log.specs.TextMap.{HasHandle};
ghost use Rattle.intern_log.specs.Log.{map_of};
ghost use Rattle.intern_log.specs.Now.{Claimed, Linked, Unlinked, now_of};
ghost use Rattle.intern_log.specs.Lawful.{IsLawful};
ghost use Rattle.intern_log.specs.Place.{IsMissing};
ghost use Rattle.intern_log.specs.WorkedLog.{worked_table, cat, first_cat, second_cat, before_the_reader, while_it_reads, worked_log};

/// The worked log is lawful.
pub fn worked_log_is_lawful()
    ensures law { IsLawful worked_table worked_log }
{}

/// At place 2 the slot is claimed by seat 1.
pub fn slot_is_claimed_in_the_worked_log()
    ensures law { (now_of worked_table.min_level (take 2 worked_log)).slot 0 ≡ Claimed 1 }
{}

/// At place 3 it is linked since place 2.
pub fn slot_is_linked_in_the_worked_log()
    ensures law { (now_of worked_table.min_level (take 3 worked_log)).slot 0 ≡ Linked cat first_cat 2 }
{}

/// At place 13 the slot is out of its chain, by seat 1 at place 12.
pub fn slot_is_unlinked_in_the_worked_log()
    ensures law { (now_of worked_table.min_level (take 13 worked_log)).slot 0 ≡ Unlinked 1 12 }
{}

/// At place 18 seat 2 has a section of place 17 and counter 2.
pub fn section_is_open_in_the_worked_log()
    ensures law { (now_of worked_table.min_level (take 18 worked_log)).section 2 ≡ Some (record { place = 17; counter = 2 }) }
{}

/// There has been one Grace.
pub fn graces_of_the_worked_log()
    ensures law { (now_of worked_table.min_level (take 18 worked_log)).graces ≡ 1 }
{}

/// The text is missing in the window of the reader.
pub fn text_is_missing_in_the_worked_log()
    ensures law { IsMissing before_the_reader (before_the_reader ++ while_it_reads) cat }
{}

/// At its end the text is live again, with the slot's next generation.
pub fn text_is_live_at_the_end_of_the_worked_log()
    ensures law { HasHandle (map_of worked_log) cat second_cat }
{}

#[cfg(test)]
mod tests {
    use super::*;

    #[test]
    fn laws_can_be_called() {
        worked_log_is_lawful();
        slot_is_claimed_in_the_worked_log();
        slot_is_linked_in_the_worked_log();
        slot_is_unlinked_in_the_worked_log();
        section_is_open_in_the_worked_log();
        graces_of_the_worked_log();
        text_is_missing_in_the_worked_log();
        text_is_live_at_the_end_of_the_worked_log();
    }
}
