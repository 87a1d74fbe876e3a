//! Look-ups. In a row of 8 heads "a" and "i" are in bucket 1; in one of 16 "i" is in bucket 9. "Aa" and "BB" have one hash.
pub(crate) static SCENES: &str = "
8 2 3 4 4
# counted 3 6: look-up in a bucket with no node
seat 1 2; lookup a; asks [97]; finds 1 6 7 3.1; closes 1; Miss; cursor 2
# weak 3 6: look-up in a weak table, where another bucket has a node
node 0 0.1 2112.2 'Aa' 0; head 3.0 = 4
seat 1 2; lookup a; finds 1 6 7 3.1; closes 1; Miss; cursor 2
# counted 3 6: look-up of the head, whose count is raised
node 0 0.1 97.1 'a' 0; head 3.1 = 4
seat 1 2; lookup a; finds 1 6 7 3.1; meets 0; K8 count 0: 0.1 > 0.2 Take(0, 0); closes 1; answers Hit 0 0 2
left count 0 = 0.2
# counted 3 6: look-up of the second node, whose count becomes 65,535
node 1 0.1 105.1 'i' 1; node 0 3.65534 97.1 'a' 0; head 3.1 = 8
seat 1 2; lookup a; finds 1 6 7 3.1; skips 1; meets 0; K8 count 0: 3.65534 > 3.65535 Take(0, 3); passed 1; closes 1
answers Hit 0 3 2; left count 0 = 3.65535
# counted 3 6: look-up of a count of 65,535, which stays
node 0 0.65535 97.1 'a' 0; head 3.1 = 4
seat 1 2; lookup a; finds 1 6 7 3.1; meets 0; K8 count 0: 0.65535 > 0.65535 Take(0, 0); closes 1; answers Hit 0 0 2
# weak 3 6: look-up in a weak table, seen as the count is loaded
node 0 2.1 97.1 'a' 0; head 3.1 = 4
seat 1 2; lookup a; finds 1 6 7 3.1; K6 meta 0; K6 text 0.0; K6 count 0 Found(0, 2); closes 1; answers Hit 0 2 2
# weak 3 6: look-up past another text of the same hash and a dead entry of the text, in a weak table
node 5 0.1 2112.2 'Aa' 5; node 4 7.0 2112.2 'BB' 4; node 3 0.1 2112.2 'BB' 0; head 3.0 = 24
seat 1 2; lookup BB; finds 1 6 7 3.0; K6 meta 5; K6 text 5.0; K6 link 5; meets 4; K6 link 4; K6 meta 3; K6 text 3.0
K6 count 3 Found(3, 0); passed 2; closes 1; answers Hit 3 0 2
# counted 3 6: look-up past texts of another and of the same hash, in a counted table
node 7 0.1 80.1 'P' 6; node 5 0.1 2112.2 'Aa' 5; node 4 7.2 2112.2 'BB' 0; head 3.0 = 32
seat 1 2; lookup BB; finds 1 6 7 3.0; skips 7; K6 meta 5; K6 text 5.0; K6 link 5; meets 4
K8 count 4: 7.2 > 7.3 Take(4, 7); passed 2; closes 1; answers Hit 4 7 2; left count 4 = 7.3
# weak 3 6: look-up of the second node in a weak table
node 1 0.1 105.1 'i' 1; node 0 3.1 97.1 'a' 0; head 3.1 = 8
seat 1 2; lookup a; finds 1 6 7 3.1; skips 1; K6 meta 0; K6 text 0.0; K6 count 0 Found(0, 3); closes 1
answers Hit 0 3 2
# counted 3 6: look-up of a dead entry of the text, and no other
node 0 1.0 97.1 'a' 0; head 3.1 = 4
seat 1 2; lookup a; finds 1 6 7 3.1; meets 0; K6 link 0; closes 1; passed 1; Miss; cursor 2
# counted 3 6: look-up in a bucket redirected to the row of 16 heads
node 0 0.1 105.1 'i' 0; head 3.1 = 6; head 4.9 = 4; new = 5
seat 1 2; lookup i; finds 1 6 7 3.1; K20 new; K5 head 4.9; meets 0; K8 count 0: 0.1 > 0.2 Take(0, 0); closes 1
answers Hit 0 0 2; left count 0 = 0.2
# weak 3 6: look-up in a bucket redirected to the row of 8 heads
node 0 0.1 105.1 'i' 0; level = 4; new = 4; head 4.9 = 2; head 3.1 = 5
seat 1 2; lookup i; finds 1 6 7 4.9; K20 new; K5 head 3.1; K6 meta 0; K6 text 0.0; K6 count 0 Found(0, 0); closes 1
answers Hit 0 0 2
# counted 3 6: look-up while another seat raises the count
node 0 0.1 97.1 'a' 0; head 3.1 = 4
seat 1 2; lookup a; finds 1 6 7 3.1; meets 0; count 0 = 0.2; K8 count 0: 0.1 > 0.2; closes 1; Again; cursor 2
# counted 3 6: look-up while another seat drops the last hold
node 0 0.1 97.1 'a' 0; head 3.1 = 4
seat 1 2; lookup a; finds 1 6 7 3.1; meets 0; count 0 = 0.0; K8 count 0: 0.1 > 0.2; closes 1; Again; cursor 2
# counted 3 6: look-up in a locked bucket
node 0 0.1 97.1 'a' 0; head 3.1 = 5
seat 1 2; lookup a; finds 1 6 7 3.1; meets 0; K8 count 0: 0.1 > 0.2 Take(0, 0); closes 1; answers Hit 0 0 2
left count 0 = 0.2
# counted 3 6: look-up in a locked bucket with no node
head 3.1 = 1
seat 1 2; lookup a; finds 1 6 7 3.1; closes 1; Miss; cursor 2
# counted 3 6: look-up of a text whose second word differs
node 0 0.1 3660648388.10 'abcdefgh' 0; text 0.1 = 'Aa'; head 3.4 = 4
seat 1 2; lookup abcdefghBB; finds 1 6 7 3.4; K6 meta 0; K6 text 0.0; K6 text 0.1; K6 link 0; closes 1; Miss; cursor 2
# weak 3 6: look-up of a text whose both words are the same
node 0 0.1 3660648388.10 'abcdefgh' 0; text 0.1 = 'BB'; head 3.4 = 4
seat 1 2; lookup abcdefghBB; finds 1 6 7 3.4; K6 meta 0; K6 text 0.0; K6 text 0.1; K6 count 0 Found(0, 0); closes 1
answers Hit 0 0 2
# counted 3 6: look-up of the empty text, which has no word
slot 0 1.1 0; head 3.0 = 4
seat 1 2; lookup; finds 1 6 7 3.0; K6 meta 0; K6 count 0; K8 count 0: 1.1 > 1.2 Take(0, 1); closes 1
answers Hit 0 1 2; left count 0 = 1.2
# counted 3 6: look-up of a text of 17 bytes, which has no entry in a table with two words for a text
seat 1 2; lookup aaaaaaaaaaaaaaaaa; asks []; Miss; cursor 2
";
