//! A log of a grow is lawful, and says at its places which row is being replaced.
//! Each function does nothing: its contract is the law.
ghost use Rattle.std.specs.Prelude.{◌≡◌, ℕ, Some, None, take};
ghost use Rattle.intern_log.specs.Now.{now_of};
ghost use Rattle.intern_log.specs.Lawful.{IsLawful};
ghost use Rattle.intern_log.specs.Orderly.{IsBeingReplaced};
ghost use Rattle.intern_log.specs.GrownLog.{grown_table, grown_log, not_yet_replacing, replacing_row_3};

/// The grown log is lawful.
pub fn grown_log_is_lawful()
    ensures law { IsLawful grown_table grown_log }
{}

/// At place 3 the owner has locked a bucket of its own row, and replaces none.
pub fn no_row_is_replaced_at_place_3()
    ensures law { (now_of 3 (take 3 grown_log)).resizing ≡ Some not_yet_replacing }
{}

/// At place 4 another seat has locked a bucket of another row, and the owner replaces none.
pub fn no_row_is_replaced_at_place_4()
    ensures law { (now_of 3 (take 4 grown_log)).resizing ≡ Some not_yet_replacing }
{}

/// At place 5 the owner has locked a bucket of another row, and row 3 is being replaced.
pub fn row_is_replaced_at_place_5()
    ensures law { (now_of 3 (take 5 grown_log)).resizing ≡ Some replacing_row_3 }
{}

/// At place 6 the level is 4, and it is still row 3 that is being replaced.
pub fn row_is_replaced_at_place_6()
    ensures law { (now_of 3 (take 6 grown_log)).resizing ≡ Some replacing_row_3 }
{}

/// The Level has ended the lock of row 3.
pub fn lock_of_the_old_row_is_ended()
    ensures law { (now_of 3 (take 6 grown_log)).lock 3 0 ≡ None }
{}

/// It has left that of row 4.
pub fn lock_of_the_new_row_is_left()
    ensures law { (now_of 3 (take 6 grown_log)).lock 4 0 ≡ Some 2 }
{}

/// The level has changed at place 5.
pub fn level_of_the_grown_log()
    ensures law { (now_of 3 (take 6 grown_log)).level ≡ 4 }
    ensures since { (now_of 3 (take 6 grown_log)).since ≡ 6 }
{}

/// At its end nobody has the resize lock.
pub fn no_resizing_at_the_end()
    ensures law { (now_of 3 grown_log).resizing ≡ None }
{}

/// At place 4 no row is being replaced, in the log's own words.
pub fn no_row_is_being_replaced()
    ensures law { (row : ℕ) → ¬ (IsBeingReplaced 3 (take 4 grown_log) row) }
{}

/// At place 5 row 3 is, and no other row is.
pub fn row_3_is_being_replaced()
    ensures law { IsBeingReplaced 3 (take 5 grown_log) 3 }
    ensures others { (row : ℕ) → IsBeingReplaced 3 (take 5 grown_log) row → row ≡ 3 }
{}

#[cfg(test)]
mod tests {
    use super::*;

    #[test]
    fn laws_can_be_called() {
        grown_log_is_lawful();
        no_row_is_replaced_at_place_3();
        no_row_is_replaced_at_place_4();
        row_is_replaced_at_place_5();
        row_is_replaced_at_place_6();
        lock_of_the_old_row_is_ended();
        lock_of_the_new_row_is_left();
        level_of_the_grown_log();
        no_resizing_at_the_end();
        no_row_is_being_replaced();
        row_3_is_being_replaced();
    }
}
