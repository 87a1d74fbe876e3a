//! Interns. In a row of 8 heads "a" and "i" are in bucket 1; in one of 16 "i" is in bucket 9. "Aa" and "BB" have one hash.
pub(crate) static SCENES: &str = "
8 2 3 4 4
# counted 3 6: intern of a new text in an empty bucket
seat 1 2; intern a; finds 1 6 7 3.1; claims 2; fills 2 97.1 'a' 0 0.1; K7 head 3.1: 0 > 12 Create(2, 0); closes 1
answers Created 2 0 3; left_node 2 0.1 97.1 'a'; left head 3.1 = 12
# weak 3 8: intern where the only free slot is the one before the cursor, which is at the last
claim 7 = 1; node 0 0.1 105.1 'i' 0; claim 1 = 1; claim 2 = 1; claim 3 = 1; claim 4 = 1; claim 5 = 1; count 6 = 9.0
head 3.1 = 4
seat 3 7; intern a; finds 3 8 9 3.1; skips 0; K2 claim 7 <- 1; K2 claim 0 <- 1; K2 claim 1 <- 1; K2 claim 2 <- 1
K2 claim 3 <- 1; K2 claim 4 <- 1; K2 claim 5 <- 1; claims 6; fills 6 97.1 'a' 1 9.1; K7 head 3.1: 4 > 28 Create(6, 9)
closes 3; answers Created 6 9 7; left claim 6 = 1; left link 6 = 1; left count 6 = 9.1; left meta 6 = 97.1
left text 6.0 = 'a'; left head 3.1 = 28
# counted 3 6: intern where no slot is free
claim 0 = 1; claim 1 = 1; claim 2 = 1; claim 3 = 1; claim 4 = 1; claim 5 = 1; claim 6 = 1; claim 7 = 1
seat 1 2; intern a; finds 1 6 7 3.1; K2 claim 2 <- 1; K2 claim 3 <- 1; K2 claim 4 <- 1; K2 claim 5 <- 1
K2 claim 6 <- 1; K2 claim 7 <- 1; K2 claim 0 <- 1; K2 claim 1 <- 1; closes 1; NoSlot; cursor 2
# weak 3 6: intern of a text of two words, where the cursor goes from the last slot to the first
seat 3 7; intern abcdefghi; finds 3 6 7 3.5; claims 7; K3 meta 7 = 395180133.9; K3 text 7.0 = 'abcdefgh'
K3 text 7.1 = 'i'; K3 link 7 = 0; K3 count 7 = 0.1; K7 head 3.5: 0 > 32 Create(7, 0); closes 3; answers Created 7 0 0
left_node 7 0.1 395180133.9 'abcdefgh'; left text 7.1 = 'i'; left head 3.5 = 32
# counted 3 6: intern of the empty text, which has no word
seat 1 2; intern; finds 1 6 7 3.0; claims 2; K3 meta 2 = 0.0; K3 link 2 = 0; K3 count 2 = 0.1
K7 head 3.0: 0 > 12 Create(2, 0); closes 1; answers Created 2 0 3; left claim 2 = 1; left count 2 = 0.1
left head 3.0 = 12
# counted 3 6: intern where a dead entry of the text does not live again
claim 0 = 1; meta 0 = 97.1; text 0.0 = 'a'; head 3.1 = 4
seat 1 2; intern a; finds 1 6 7 3.1; meets 0; K6 link 0; claims 2; fills 2 97.1 'a' 1 0.1
K7 head 3.1: 4 > 12 Create(2, 0); closes 1; answers Created 2 0 3; left claim 2 = 1; left link 2 = 1
left count 2 = 0.1; left meta 2 = 97.1; left text 2.0 = 'a'; left head 3.1 = 12
# counted 3 6: intern in a redirected bucket, where the text enters the new one
head 3.1 = 2; new = 5
seat 1 2; intern i; finds 1 6 7 3.1; K20 new; K5 head 4.9; claims 2; fills 2 105.1 'i' 0 0.1
K7 head 4.9: 0 > 12 Create(2, 0); closes 1; answers Created 2 0 3; left_node 2 0.1 105.1 'i'; left head 4.9 = 12
# counted 3 6: intern of a live entry in a counted table, where it is taken
node 0 0.1 97.1 'a' 0; head 3.1 = 4
seat 1 2; intern a; finds 1 6 7 3.1; meets 0; K8 count 0: 0.1 > 0.2 Take(0, 0); closes 1; answers Taken 0 0 2
left count 0 = 0.2
# weak 3 6: intern of a live entry in a weak table, where it is found
node 0 2.1 97.1 'a' 0; head 3.1 = 4
seat 1 2; intern a; finds 1 6 7 3.1; K6 meta 0; K6 text 0.0; K6 count 0 Found(0, 2); closes 1; answers Found 0 2 2
# counted 3 6: intern in a locked bucket with no node
head 3.1 = 1
seat 1 2; intern a; finds 1 6 7 3.1; closes 1; Locked; cursor 2
# weak 3 6: intern in a locked bucket with a node
node 0 0.1 105.1 'i' 0; head 3.1 = 5
seat 1 2; intern a; finds 1 6 7 3.1; skips 0; closes 1; Locked; cursor 2
# counted 3 6: intern of a live entry in a locked bucket, where it is taken
node 0 0.1 97.1 'a' 0; head 3.1 = 5
seat 1 2; intern a; finds 1 6 7 3.1; meets 0; K8 count 0: 0.1 > 0.2 Take(0, 0); closes 1; answers Taken 0 0 2
left count 0 = 0.2
# counted 3 6: intern while the head is locked, so that the slot is given back
count 2 = 4.0
seat 1 2; intern a; finds 1 6 7 3.1; claims 2; fills 2 97.1 'a' 0 4.1; head 3.1 = 1; K7 head 3.1: 0 > 12; frees 2 4.0
closes 1; Locked; cursor 3; left meta 2 = 97.1; left text 2.0 = 'a'
# counted 3 6: intern while the head is redirected
count 2 = 4.0
seat 1 2; intern a; finds 1 6 7 3.1; claims 2; fills 2 97.1 'a' 0 4.1; head 3.1 = 2; K7 head 3.1: 0 > 12; frees 2 4.0
closes 1; Locked; cursor 3; left meta 2 = 97.1; left text 2.0 = 'a'
# counted 3 6: intern while another text enters the bucket
count 2 = 4.0
seat 1 2; intern a; finds 1 6 7 3.1; claims 2; fills 2 97.1 'a' 0 4.1; head 3.1 = 28; K7 head 3.1: 0 > 12; frees 2 4.0
closes 1; Again; cursor 3; left meta 2 = 97.1; left text 2.0 = 'a'
# counted 3 6: intern while another seat drops the last hold
node 0 0.1 97.1 'a' 0; head 3.1 = 4
seat 1 2; intern a; finds 1 6 7 3.1; meets 0; count 0 = 0.0; K8 count 0: 0.1 > 0.2; closes 1; Again; cursor 2
# counted 3 6: intern of a text of 17 bytes
seat 1 2; intern aaaaaaaaaaaaaaaaa; TooLong; cursor 2
";
