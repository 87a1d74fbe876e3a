//! The beginnings of works and graces, cleans and sweeps. Rows of 2 and 4 heads, and two seats.
pub(crate) static SCENES: &str = "
6 1 1 2 2
# counted 1 281474976710656: beginning of a clean at a counter of 2^48
seat 0; clean; K9 counter; Spent { counter: 281474976710656 }
# counted 1 281474976710656: beginning of a grace at a counter of 2^48
seat 0; grace; K9 counter; Spent { counter: 281474976710656 }
# counted 1 281474976710654: beginning of a clean just below 2^48
seat 0; clean; takes 1; Begun; passed 0; keeps work; left lock = 1
# counted 1 0: beginning while another seat has the resize lock
lock = 2
seat 0; grow; K9 counter; K17 lock: 0 > 1; Busy; passed 0; keeps nothing
# counted 2 0: grow at the greatest level
seat 0; grow; takes 1; K19 level; gives; AtMaximum { level: 2 }
# counted 1 0: shrink at the least level
seat 1; shrink; takes 2; K19 level; gives; AtMinimum { level: 1 }
# counted 1 6: grace that waits for a section that was open as it began, and looks again at that one alone
section 1 = 7
seat 0; grace; K9 counter; K12 counter + 2 Grace; Begun
poll grace; K13 section 0; K13 section 1; PendingSeat { seat: 1 }; section 0 = 7
poll grace; K13 section 1; PendingSeat { seat: 1 }; section 1 = 0
poll grace; K13 section 1; Ready; left counter = 8
# counted 1 0: grace that has begun
seat 0; grace; K9 counter; K12 counter + 2 Grace; Begun; passed 0; keeps grace; left counter = 2
# counted 1 6: grace that does not wait for a section opened with the counter that it raised
section 0 = 9
seat 1; grace; K9 counter; K12 counter + 2 Grace; Begun
poll grace; K13 section 0; K13 section 1; Ready; left counter = 8
# counted 1 6: clean where the first, the middle and the last node are dead, with a section open
slot 0 0.0 2; slot 1 0.1 3; slot 2 3.0 4; slot 3 2.2 5; slot 4 5.0 0; head 1.1 = 4; section 1 = 7
cleans 0 1; locks 1 0 0 1; unlocks 1 0 0; locks 1 1 4 5; passes 0; K16 head 1.1 = 9 Unlink(0); passes 1; passes 2
K16 link 1 = 4 Unlink(2); passes 3; passes 4; K16 link 3 = 0 Unlink(4); unlocks 1 1 8; short_grace
PendingSeat { seat: 1 }; section 0 = 7
poll work; K13 section 1; PendingSeat { seat: 1 }; section 1 = 9
poll work; K13 section 1; frees 0 1.0; frees 2 4.0; frees 4 6.0; gives; done 3 1 1; left head 1.1 = 8; left link 1 = 4
left link 3 = 0; left count 0 = 1.0; left claim 0 = 0; left count 2 = 4.0; left claim 2 = 0; left count 4 = 6.0
left claim 4 = 0; left counter = 8
# counted 1 0: clean of a bucket whose nodes are all dead
slot 2 0.0 6; slot 5 1.0 0; head 1.0 = 12
cleans 1 2; locks 1 0 12 13; passes 2; K16 head 1.0 = 25 Unlink(2); passes 5; K16 head 1.0 = 1 Unlink(5)
unlocks 1 0 0; locks 1 1 0 1; unlocks 1 1 0; short_grace; frees 2 1.0; frees 5 2.0; gives; done 2 1 1
left head 1.0 = 0; left count 2 = 1.0; left claim 2 = 0; left count 5 = 2.0; left claim 5 = 0; left counter = 2
# counted 1 6: clean of nothing, while the first head is locked and then exchanged by another
slot 0 0.1 0; head 1.1 = 4; head 1.0 = 1
cleans 0 1; K5 head 1.0; PendingBucket { row: 1, bucket: 0 }
poll work; K5 head 1.0; PendingBucket { row: 1, bucket: 0 }; head 1.0 = 0
poll work; K5 head 1.0; head 1.0 = 1; K14 head 1.0: 0 > 1; PendingBucket { row: 1, bucket: 0 }; head 1.0 = 0
poll work; locks 1 0 0 1; unlocks 1 0 0; locks 1 1 4 5; passes 0; unlocks 1 1 4; gives; done 0 0 1; passed 0
keeps nothing
# counted 1 6: clean that is pending
head 1.0 = 1
cleans 0 1; K5 head 1.0; PendingBucket { row: 1, bucket: 0 }; passed 0; keeps work; left lock = 1
# counted 1 6: clean of a node of the last generation, whose slot is not freed
slot 1 281474976710655.0 0; head 1.1 = 8
cleans 0 1; locks 1 0 0 1; unlocks 1 0 0; locks 1 1 8 9; passes 1; K16 head 1.1 = 1 Unlink(1); unlocks 1 1 0; gives
done 1 0 1; left head 1.1 = 0
# counted 1 281474976710656: sweep at a counter of 2^48
seat 0; sweep a; asks []; K9 counter; Spent { counter: 281474976710656 }
# counted 1 6: sweep whose head is locked, then exchanged by another, with a section open for a time
slot 0 2.0 2; slot 1 0.1 0; head 1.1 = 5
seat 1; sweep a; K9 counter; finds 1 6 7 1.1; closes 1; opens 1 6 7; K19 level; head 1.1 = 4; K5 head 1.1
head 1.1 = 5; K14 head 1.1: 4 > 5; closes 1; opens 1 6 7; K19 level; head 1.1 = 4; locks 1 1 4 5; closes 1; passes 0
K16 head 1.1 = 9 Unlink(0); passes 1; unlocks 1 1 8; K12 counter + 2 Grace; section 0 = 7; K13 section 0
K13 section 0; section 0 = 0; K13 section 0; K13 section 1; frees 0 3.0; Swept { unlinked: 1 }; left head 1.1 = 8
left count 0 = 3.0; left claim 0 = 0; left counter = 8
# counted 1 6: sweep of a head redirected to the row that a grow makes, where nothing is dead
slot 3 0.1 0; head 1.1 = 19; new = 3; head 2.1 = 16
seat 0; sweep a; K9 counter; finds 0 6 7 1.1; K20 new; locks 2 1 16 17; closes 0; passes 3; unlocks 2 1 16
Swept { unlinked: 0 }
";
