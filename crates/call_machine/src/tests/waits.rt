//! Interns that try again. In a row of 8 heads "a" and "i" are in bucket 1; in one of 16 "i" is in bucket 9. "Aa" and "BB" have one hash.
pub(crate) static SCENES: &str = "
8 2 3 4 4
# counted 3 6: wait while another text enters the bucket, with the slot kept and linked anew
seat 1 2; intern_wait a; finds 1 6 7 3.1; claims 2; fills 2 97.1 'a' 0 0.1; claim 6 = 1; count 6 = 0.1; meta 6 = 105.1
text 6.0 = 'i'; head 3.1 = 28; counter = 8; K7 head 3.1: 0 > 12; closes 1; finds 1 8 9 3.1; skips 6; passed 1
K3 link 2 = 7; K7 head 3.1: 28 > 12 Create(2, 0); closes 1; answers Created 2 0 3; left claim 2 = 1; left link 2 = 7
left count 2 = 0.1; left meta 2 = 97.1; left text 2.0 = 'a'; left head 3.1 = 12
# counted 3 6: wait while the text itself enters, which is taken, and the kept slot is given back
seat 1 2; intern_wait a; finds 1 6 7 3.1; claims 2; fills 2 97.1 'a' 0 0.1; claim 6 = 1; count 6 = 0.1; meta 6 = 97.1
text 6.0 = 'a'; head 3.1 = 28; K7 head 3.1: 0 > 12; closes 1; passed 0; finds 1 6 7 3.1; meets 6
K8 count 6: 0.1 > 0.2 Take(6, 0); frees 2 0.0; closes 1; answers Taken 6 0 3; left count 6 = 0.2; left meta 2 = 97.1
left text 2.0 = 'a'
# weak 3 6: wait while the text itself enters a weak table, where it is found
count 2 = 5.0
seat 1 2; intern_wait a; finds 1 6 7 3.1; claims 2; fills 2 97.1 'a' 0 5.1; claim 6 = 1; count 6 = 1.1; meta 6 = 97.1
text 6.0 = 'a'; head 3.1 = 28; K7 head 3.1: 0 > 12; closes 1; finds 1 6 7 3.1; K6 meta 6; K6 text 6.0
K6 count 6 Found(6, 1); frees 2 5.0; closes 1; answers Found 6 1 3; left meta 2 = 97.1; left text 2.0 = 'a'
# counted 3 6: wait while the bucket is locked at the first try
head 3.1 = 1
seat 1 2; intern_wait a; finds 1 6 7 3.1; closes 1; head 3.1 = 0; finds 1 6 7 3.1; claims 2; fills 2 97.1 'a' 0 0.1
K7 head 3.1: 0 > 12 Create(2, 0); closes 1; answers Created 2 0 3; left_node 2 0.1 97.1 'a'; left head 3.1 = 12
# weak 3 6: wait while the bucket is locked in between and at the second try, with the slot kept
seat 1 2; intern_wait a; finds 1 6 7 3.1; claims 2; fills 2 97.1 'a' 0 0.1; head 3.1 = 1; K7 head 3.1: 0 > 12
closes 1; finds 1 6 7 3.1; closes 1; head 3.1 = 0; finds 1 6 7 3.1; K3 link 2 = 0; K7 head 3.1: 0 > 12 Create(2, 0)
closes 1; answers Created 2 0 3; left_node 2 0.1 97.1 'a'; left head 3.1 = 12
# counted 3 6: wait while another seat raises the count
node 0 0.1 97.1 'a' 0; head 3.1 = 4
seat 1 2; intern_wait a; finds 1 6 7 3.1; meets 0; count 0 = 0.2; K8 count 0: 0.1 > 0.2; closes 1; finds 1 6 7 3.1
meets 0; K8 count 0: 0.2 > 0.3 Take(0, 0); closes 1; answers Taken 0 0 2; left count 0 = 0.3
# counted 3 6: wait where no slot is free
claim 0 = 1; claim 1 = 1; claim 2 = 1; claim 3 = 1; claim 4 = 1; claim 5 = 1; claim 6 = 1; claim 7 = 1
seat 0 0; intern_wait a; finds 0 6 7 3.1; K2 claim 0 <- 1; K2 claim 1 <- 1; K2 claim 2 <- 1; K2 claim 3 <- 1
K2 claim 4 <- 1; K2 claim 5 <- 1; K2 claim 6 <- 1; K2 claim 7 <- 1; closes 0; NoSlot; cursor 0
# counted 3 6: wait of a text of 17 bytes
seat 1 2; intern_wait aaaaaaaaaaaaaaaaa; TooLong; cursor 2
";
