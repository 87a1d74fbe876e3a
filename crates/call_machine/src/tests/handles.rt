//! Splits, and calls by handle. Slot 3 at generation 2.
pub(crate) static SCENES: &str = "
8 2 3 4 4
# counted 3 6: split that draws a number
seat 0 0; split; K1 draws; K1 draws + 1; Split { number: 1 }; cursor 0; left draws = 2
# counted 3 6: split where none is left
draws = 4
seat 0 0; split; K1 draws; SeatsSpent; cursor 0
# counted 3 6: split while another seat draws the last one
draws = 3
seat 0 0; split; K1 draws; draws = 4; K1 draws + 1; SeatsSpent; cursor 0; left draws = 5
# counted 3 6: drop that leaves holds
count 3 = 2.3
seat 1 2; drop 3.2; K6 count 3; K8 count 3: 2.3 > 2.2 Drop(3, 2); Dropped { left: 2 }; cursor 2; left count 3 = 2.2
# counted 3 6: drop of the last hold
count 3 = 2.1
seat 1 2; drop 3.2; K6 count 3; K8 count 3: 2.1 > 2.0 Drop(3, 2); Dropped { left: 0 }; cursor 2; left count 3 = 2.0
# counted 3 6: drop of a count of 65,535, which stays
count 3 = 2.65535
seat 1 2; drop 3.2; K6 count 3 Drop(3, 2); Permanent; cursor 2
# counted 3 6: drop while another seat takes the text
count 3 = 2.1
seat 1 2; drop 3.2; K6 count 3; count 3 = 2.2; K8 count 3: 2.1 > 2.0; Again; cursor 2
# counted 3 6: permanence of a count of 1
count 3 = 2.1
seat 1 2; permanent 3.2; K6 count 3; K8 count 3: 2.1 > 2.65535 Perm(3, 2); MadePermanent; cursor 2
left count 3 = 2.65535
# counted 3 6: permanence of a count of 65,535
count 3 = 2.65535
seat 1 2; permanent 3.2; K6 count 3; K8 count 3: 2.65535 > 2.65535 Perm(3, 2); MadePermanent; cursor 2
# counted 3 6: permanence while another seat takes the text
count 3 = 2.1
seat 1 2; permanent 3.2; K6 count 3; count 3 = 2.2; K8 count 3: 2.1 > 2.65535; Again; cursor 2
# weak 3 6: kill of a live entry
count 3 = 2.1
seat 1 2; kill 3.2; K6 count 3; K8 count 3: 2.1 > 2.0 Kill(3, 2); Killed; cursor 2; left count 3 = 2.0
# weak 3 6: kill of another generation
count 3 = 3.1
seat 1 2; kill 3.2; K6 count 3; Stale; cursor 2
# weak 3 6: kill of a dead entry
count 3 = 2.0
seat 1 2; kill 3.2; K6 count 3; Stale; cursor 2
# weak 3 6: kill while another seat kills
count 3 = 2.1
seat 1 2; kill 3.2; K6 count 3; count 3 = 2.0; K8 count 3: 2.1 > 2.0; Stale; cursor 2
# counted 3 6: reading of 0 bytes
seat 1 2; read 3.2; K6 meta 3; Text { length: 0 }; cursor 2
# counted 3 6: reading of 1 byte
meta 3 = 97.1
seat 1 2; read 3.2; K6 meta 3; K6 text 3.0; Text { length: 1 }; cursor 2
# counted 3 6: reading of 9 bytes
meta 3 = 395180133.9
seat 1 2; read 3.2; K6 meta 3; K6 text 3.0; K6 text 3.1; Text { length: 9 }; cursor 2
# weak 3 6: reading of 0 bytes in a weak table
count 3 = 2.1
seat 1 2; read 3.2; opens 1 6 7; K6 count 3; K6 meta 3; closes 1; Text { length: 0 }; cursor 2
# weak 3 6: reading of 8 bytes in a weak table
count 3 = 2.1; meta 3 = 0.8
seat 1 2; read 3.2; opens 1 6 7; K6 count 3; K6 meta 3; K6 text 3.0; closes 1; Text { length: 8 }; cursor 2
# weak 3 6: reading of 9 bytes in a weak table
count 3 = 2.1; meta 3 = 395180133.9
seat 1 2; read 3.2; opens 1 6 7; K6 count 3; K6 meta 3; K6 text 3.0; K6 text 3.1; closes 1; Text { length: 9 }
cursor 2
# weak 3 6: reading of another generation in a weak table
count 3 = 3.1
seat 1 2; read 3.2; opens 1 6 7; K6 count 3; closes 1; Stale; cursor 2
# weak 3 6: reading of a dead entry in a weak table
count 3 = 2.0
seat 1 2; read 3.2; opens 1 6 7; K6 count 3; closes 1; Stale; cursor 2
";
