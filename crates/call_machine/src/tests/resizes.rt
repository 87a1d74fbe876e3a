//! Grows and shrinks. In a row of 2 heads "a", "c", "e" and "g" are in bucket 1. In one of 4 "a" and "e" are, and "c" and "g" in 3.
pub(crate) static SMALL: &str = "
6 1 1 2 2
# counted 1 0: grow of the chain a, c, e, g to a, e and c, g, with a section open at the first grace
slot 3 0.1 3; meta 3 = 97.1; slot 2 0.1 2; meta 2 = 99.1; slot 1 0.1 1; meta 1 = 101.1; slot 0 0.1 0; meta 0 = 103.1
head 1.1 = 16; section 1 = 1
resizes 0 grow 1 3; parts 1 0 2 2; locks 1 1 16 17; makes 2 1 17; makes 2 3 17; K23 head 1.1 = 19; skips 3
K24 head 2.3 = 13; short_grace; PendingSeat { seat: 1 }; section 1 = 0
poll work; K13 section 1; skips 2; K24 link 3 = 2; short_grace; skips 1; K24 link 2 = 1; short_grace; skips 0
K24 link 1 = 0; short_grace; unlocks 2 1 16; unlocks 2 3 12; K25 level = 2 Level(2); short_grace; ends 2 5
left head 1.0 = 3; left head 1.1 = 19; left head 2.1 = 16; left head 2.3 = 12; left link 3 = 2; left link 2 = 1
left link 1 = 0; left counter = 10; left level = 2
# counted 1 0: grow of the chain c, g, a to a and c, g, where the even head is moved twice
slot 0 0.1 2; meta 0 = 99.1; slot 1 0.1 3; meta 1 = 103.1; slot 2 0.1 0; meta 2 = 97.1; head 1.1 = 4
resizes 1 grow 2 3; parts 1 0 2 2; locks 1 1 4 5; makes 2 1 5; makes 2 3 5; K23 head 1.1 = 7; skips 0
K24 head 2.1 = 9; short_grace; skips 1; K24 head 2.1 = 13; short_grace; skips 2; K24 link 1 = 0; short_grace
unlocks 2 1 12; unlocks 2 3 4; K25 level = 2 Level(2); short_grace; ends 2 4; left head 1.0 = 3; left head 1.1 = 7
left head 2.1 = 12; left head 2.3 = 4; left link 1 = 0; left counter = 8; left level = 2
# counted 2 4: shrink where the even chain of the first pair is empty and the second pair is joined
slot 0 0.1 0; slot 1 0.1 0; slot 2 0.1 1; slot 3 0.1 2; slot 4 0.1 0; head 2.2 = 20; head 2.1 = 16; head 2.3 = 12
resizes 0 shrink 1 2; locks 2 0 0 1; locks 2 2 20 21; makes 1 0 21; K23 head 2.0 = 3; K23 head 2.2 = 23; short_grace
unlocks 1 0 20; locks 2 1 16 17; locks 2 3 12 13; makes 1 1 17; K6 link 3; K6 link 1; K26 link 1 = 3
K23 head 2.1 = 19; K23 head 2.3 = 15; short_grace; unlocks 1 1 16; K25 level = 1 Level(1); short_grace; ends 1 3
left head 2.0 = 3; left head 2.2 = 23; left head 1.0 = 20; left head 2.1 = 19; left head 2.3 = 15; left head 1.1 = 16
left link 1 = 3; left counter = 10; left level = 1
# counted 2 4: shrink where the odd head of the first pair is locked for a time and the second pair is empty
slot 0 0.1 0; head 2.0 = 4; head 2.2 = 1
resizes 1 shrink 2 2; locks 2 0 4 5; K5 head 2.2; PendingBucket { row: 2, bucket: 2 }; head 2.2 = 0
poll work; locks 2 2 0 1; makes 1 0 5; K6 link 0; K26 link 0 = 0; K23 head 2.0 = 7; K23 head 2.2 = 3; short_grace
unlocks 1 0 4; joins 2 1 1 3; short_grace; unlocks 1 1 0; K25 level = 1 Level(1); short_grace; ends 1 3
left head 2.0 = 7; left head 2.2 = 3; left head 1.0 = 4; left head 2.1 = 3; left head 2.3 = 3; left counter = 10
left level = 1
";

/// The chain of bucket 1 is "a", "i", "q", "y" in a row of 8 heads. In one of 16 it is "a", "q", and bucket 9 has "i", "y".
pub(crate) static WORKED: &str = "
8 1 3 4 4
# counted 3 0: grow that parts a bucket of four
node 0 0.1 121.1 'y' 0; node 1 0.1 113.1 'q' 1; node 2 0.1 105.1 'i' 2; node 3 0.1 97.1 'a' 3; head 3.1 = 16
resizes 0 grow 1 5; parts 3 0 4 8; locks 3 1 16 17; makes 4 1 17; makes 4 9 17; K23 head 3.1 = 19; skips 3
K24 head 4.9 = 13; long_grace; skips 2; K24 link 3 = 2; long_grace; skips 1; K24 link 2 = 1; long_grace; skips 0
K24 link 1 = 0; long_grace; unlocks 4 1 16; unlocks 4 9 12; parts 3 2 4 10; parts 3 3 4 11; parts 3 4 4 12
parts 3 5 4 13; parts 3 6 4 14; parts 3 7 4 15; K25 level = 4 Level(4); long_grace; ends 4 5; passed 0; keeps nothing
left head 3.0 = 3; left head 3.1 = 19; left head 3.2 = 3; left head 3.3 = 3; left head 3.4 = 3; left head 3.5 = 3
left head 3.6 = 3; left head 3.7 = 3; left head 4.1 = 16; left head 4.9 = 12; left link 3 = 2; left link 2 = 1
left link 1 = 0; left counter = 10; left level = 4
# counted 4 10: shrink that joins two buckets of two
two_chains
resizes 2 shrink 3 4; joins 4 0 3 8; long_grace; shrinks_on
# counted 4 10: shrink that joins two buckets of two, with a section open at the first grace
two_chains; section 1 = 11
resizes 2 shrink 3 4; joins 4 0 3 8; short_grace; PendingSeat { seat: 1 }; section 1 = 0
poll work; K13 section 1; K13 section 2; K13 section 3; shrinks_on
";

/// The counter is two below 2^63 as the work begins, so that its next grace is its last.
pub(crate) static LAST_GRACE: &str = "
8 1 3 4 2
# counted 3 0: grow that begins no grace after its last
slot 0 0.1 2; meta 0 = 0.1; slot 1 0.1 0; meta 1 = 8.1; head 3.0 = 4
seat 0; grow; takes 1; K19 level; Begun; counter = 9223372036854775806
poll work; K22 new = 5; locks 3 0 4 5; makes 4 0 5; makes 4 8 5; K23 head 3.0 = 7; skips 0; K24 head 4.8 = 9
short_grace; skips 1; K24 link 0 = 0; PendingSeat { seat: 0 }
poll work; PendingSeat { seat: 0 }
poll work; PendingSeat { seat: 0 }; passed 0; keeps work; left counter = 9223372036854775808; left lock = 1
left new = 5; left head 3.0 = 7; left head 4.0 = 5; left head 4.8 = 9; left link 0 = 0
";
