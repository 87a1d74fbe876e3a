//! Cleans of more dead nodes than may wait to be freed at once. Slots 259 to 0 are dead, and slot 260 is live. A poll makes two passes that are full, and no third one.
pub(crate) static ONE_BUCKET: &str = "
300 1 0 0 2
# counted 0 6: clean of 260 dead nodes in two passes
head 0.0 = 1040; slot 260 5.2 0; slot 0 7.0 261; down 259 1 slot @ 7.0 @; count 131 = 3.0
cleans 0 1; locks 0 0 1040 1041; down 259 4 unlinks 0 0 @ %; unlocks 0 0 16; short_grace
down 259 132 frees_for_good @ 8.0; frees_for_good 131 4.0; down 130 4 frees_for_good @ 8.0; locks 0 0 16 17
down 3 1 unlinks 0 0 @ %; unlinks 0 0 0 1045; passes 260; unlocks 0 0 1044; short_grace; down 3 0 frees_for_good @ 8.0
gives; left head 0.0 = 1044; done 260 2 0; left counter = 10
# counted 0 6: clean of a bucket that fills again after the first pass, in two polls
head 0.0 = 1040; slot 260 5.2 0; slot 0 7.0 261; down 259 1 slot @ 7.0 @; count 131 = 3.0
cleans 0 1; locks 0 0 1040 1041; down 259 4 unlinks 0 0 @ %; unlocks 0 0 16; short_grace
down 259 132 frees_for_good @ 8.0; frees_for_good 131 4.0; down 130 4 frees_for_good @ 8.0; head 0.0 = 1040
down 259 4 claim @ = 1; locks 0 0 1040 1041; down 259 4 unlinks 0 0 @ %; unlocks 0 0 16; short_grace
down 259 132 frees_for_good @ 9.0; frees_for_good 131 5.0; down 130 4 frees_for_good @ 9.0
PendingBucket { row: 0, bucket: 0 }
poll work; locks 0 0 16 17; down 3 1 unlinks 0 0 @ %; unlinks 0 0 0 1045; passes 260; unlocks 0 0 1044; short_grace
down 3 0 frees_for_good @ 8.0; gives; left head 0.0 = 1044; done 516 3 0; left counter = 12
";

/// Slots 199 to 0 are dead in bucket 0, and 259 to 200 in bucket 1, whose first pass is no full one.
pub(crate) static TWO_BUCKETS: &str = "
300 1 1 1 2
# counted 1 6: clean of two buckets that together fill the 256 slots that may wait
head 1.0 = 800; head 1.1 = 1040; slot 0 7.0 0; down 199 1 slot @ 7.0 @; slot 200 7.0 0; down 259 201 slot @ 7.0 @
cleans 0 1; locks 1 0 800 801; down 199 1 unlinks 1 0 @ %; unlinks 1 0 0 1; unlocks 1 0 0; locks 1 1 1040 1041
down 259 204 unlinks 1 1 @ %; unlocks 1 1 816; short_grace; down 199 0 frees_for_good @ 8.0
down 259 204 frees_for_good @ 8.0; locks 1 1 816 817; down 203 201 unlinks 1 1 @ %; unlinks 1 1 200 1; unlocks 1 1 0
short_grace; down 203 200 frees_for_good @ 8.0; gives; done 260 2 1; passed 0; keeps nothing; left head 1.0 = 0
left head 1.1 = 0; left counter = 10
# counted 1 6: clean of two buckets where a full pass follows one that is not
head 1.0 = 800; head 1.1 = 1040; slot 0 7.0 0; down 199 1 slot @ 7.0 @; slot 200 7.0 0; down 259 201 slot @ 7.0 @
cleans 0 1; locks 1 0 800 801; down 199 1 unlinks 1 0 @ %; unlinks 1 0 0 1; unlocks 1 0 0; locks 1 1 1040 1041
down 259 204 unlinks 1 1 @ %; unlocks 1 1 816; short_grace; down 199 0 frees_for_good @ 8.0
down 259 204 frees_for_good @ 8.0; head 1.1 = 800; link 0 = 260; down 199 0 claim @ = 1; down 259 204 claim @ = 1
locks 1 1 800 801; down 199 1 unlinks 1 1 @ %; unlinks 1 1 0 1041; down 259 204 unlinks 1 1 @ %; unlocks 1 1 816
short_grace; down 199 0 frees_for_good @ 9.0; down 259 204 frees_for_good @ 9.0; locks 1 1 816 817
down 203 201 unlinks 1 1 @ %; unlinks 1 1 200 1; unlocks 1 1 0; short_grace; down 203 200 frees_for_good @ 8.0; gives
done 516 3 1; passed 0; keeps nothing; left head 1.0 = 0; left head 1.1 = 0; left counter = 12
";
