//! A small log with a Rehash is lawful, and the Rehash parts two texts that had one bucket.
//! Each function does nothing: its contract is the law.
ghost use Rattle.std.specs.Prelude.{◌≡◌, Some, take};
ghost use Rattle.intern_log.specs.Now.{now_of};
ghost use Rattle.intern_log.specs.Lawful.{IsLawful};
ghost use Rattle.intern_log.specs.SlotBuckets.{slot_bucket};
ghost use Rattle.intern_log.specs.RehashedLog.{rehashed_table, rehashed_log};

/// The log is lawful.
pub fn rehashed_log_is_lawful()
    ensures law { IsLawful rehashed_table rehashed_log }
{}

/// At place 6 both texts are in bucket 0 of the row of 8 buckets.
pub fn both_texts_are_in_one_bucket_before_the_rehash()
    ensures first { slot_bucket (now_of 3 (take 6 rehashed_log)) 3 0 ≡ Some 0 }
    ensures second { slot_bucket (now_of 3 (take 6 rehashed_log)) 3 1 ≡ Some 0 }
{}

/// At place 7 the seed is 1, one of them is in bucket 5 and the other in bucket 4.
pub fn the_rehash_parts_them()
    ensures seed { (now_of 3 (take 7 rehashed_log)).seed ≡ 1 }
    ensures first { slot_bucket (now_of 3 (take 7 rehashed_log)) 3 0 ≡ Some 5 }
    ensures second { slot_bucket (now_of 3 (take 7 rehashed_log)) 3 1 ≡ Some 4 }
{}

#[cfg(test)]
mod tests {
    use super::*;

    #[test]
    fn laws_can_be_called() {
        rehashed_log_is_lawful();
        both_texts_are_in_one_bucket_before_the_rehash();
        the_rehash_parts_them();
    }
}
