//! The atomic steps of a table, and the protocol that they keep.
//!
//! A table is one list of words of 64 bits in shared memory. Many seats read and write it at once, without a
//! lock around it. All that a seat does to a table are steps, each one atomic operation on one word. A
//! [`Step`] says by name what its words mean, [`Step::access`] says which word it is on and what it does to
//! it, and [`Step::event`] says what it adds to the log. The protocol follows that of
//! `concurrentHashTable.inline.hpp` in HotSpot.
//!
//! # The words, and who may write them
//!
//! | word | what it holds | who writes it |
//! |---|---|---|
//! | draws | how many seat numbers were drawn | each new seat adds 1 |
//! | counter | the grace counter, which is even | each grace adds 2 |
//! | resize lock | its owner's number plus 1, or 0 | whoever finds 0 exchanges it; its owner stores 0 |
//! | level, new level | which rows are in use | the owner of the resize lock |
//! | section | 0, or the counter with which its reader came, plus 1 | the seat of this number |
//! | head | the first node of a bucket, and two marks | anyone by an exchange while it has no mark; then whoever locked it |
//! | claim | 1 while the slot is taken | whoever finds 0 swaps 1 in; whoever gives the slot back stores 0 |
//! | link | the next node | the claimer, until the slot is in a chain; then whoever locked the bucket |
//! | count | the generation of the slot, and how often its text is held | the claimer, until the slot is in a chain; then anyone by an exchange, and whoever frees the slot |
//! | meta, text | the hash, the length and the bytes | the claimer, until the slot is in a chain; then nobody |
//!
//! A node is a slot that is in a chain. A level names a row of 2^level heads, and the bucket of a text is the
//! remainder of its hash by 2^level.
//!
//! # Marks
//!
//! The *lock* keeps inserters and other works away: each of them changes a head by an exchange from a word
//! without marks, which a locked head never has. Readers do not look at it. The *redirect* says that the bucket has
//! moved to the row of the new level, and who meets it goes there. It is set only in a locked head, and that
//! head stays as it is until its row is made again. So a head has no mark, the lock, or both.
//!
//! # Sections and graces
//!
//! Who walks a chain first loads the counter, opens its section with it, and only then loads the level and
//! a head. It closes the section once it has left the chain. Who has taken something out of reach begins a
//! grace: it adds 2 to the counter and looks at each section word once, from the first seat to the last. It
//! waits at a word that is open with a counter below the raised one. A section that was open as the counter
//! was raised has such a counter, so the grace waits for it. A section that is opened after the raise loads
//! its head after it too, and so it cannot reach what was out of reach by then. The grace waits for it where
//! its counter is small, which does no harm, and passes it otherwise. No set of readers is kept, and the
//! graces of several seats need not know of each other.
//!
//! # What a reader relies on
//!
//! From the head that it loads to the end of its section:
//!
//! - no node that it can still reach is freed, since freeing waits for a grace after the unlink;
//! - the meta and the text of a node do not change, since they were written before it came into its chain;
//! - links lead on to the end: whoever stands on a node that was unlinked, or that a side of an unzipped
//!   chain was led past, finds all live nodes of its bucket that come after it, since that node's own link
//!   was left as it is;
//! - a redirect leads to a row that has the head of its text already, and the new level is not taken away
//!   before this section is closed;
//! - a count with 0 holds does not rise again in its generation, so a handle of that generation is gone.
//!
//! # The calls and works as steps
//!
//! **Inserting.** The chain is walked to its end. A slot is claimed by a swap, its meta, text, link and count
//! are stored while nobody else can see it, and an exchange puts it before the head that was loaded (K7). If
//! the head has another word by then, another seat was faster. If it has the same word, no entry has come
//! since: a slot that was first cannot be first again without having been freed, and this section keeps it.
//!
//! **Holding and dropping.** Counts change by an exchange from the word that was loaded (K8), and 65,535
//! stays. The last drop and a kill leave 0 holds. The node is dead then, but stays in its chain.
//!
//! **Cleaning.** The owner of the resize lock locks one bucket after the other (K14). It leads the edge to
//! each dead node past it (K16), a link or the head itself, and unlocks the bucket (K15). After a grace it
//! stores the next generation with 0 holds into each slot that it unlinked (K3) and gives back its claim (K4).
//! A handle of the old generation never fits again. A sweep does so with the bucket of a text, and needs
//! no resize lock.
//!
//! **Growing.** The new level is stored first (K22). For each old bucket: its head is locked (K14), both new
//! heads are stored locked and lead to its first node (K21), and the old head is redirected (K23). Then the
//! chain is unzipped. At each node, the edge of the side to which it does not belong is led past it (K24),
//! and a grace follows. The next move may change the link of this very node, and after the grace no reader
//! of the other side stands on it.
//!
//! ```text
//!   3 -> 2 -> 1 -> 0       even (1, 3) and odd (0, 2): both heads lead to 3
//!   odd head to 2, grace, link of 3 to 1, grace, link of 2 to 0, grace, link of 1 to none, grace
//!   3 -> 1                 2 -> 0
//! ```
//!
//! Then the new heads are unlocked (K15). After the last bucket the level is stored (K25). A grace follows,
//! since a reader may have loaded the old level and not yet the new one. Then the new level is taken away
//! (K22) and the resize lock is given back (K18).
//!
//! **Shrinking.** The new level is stored. For each two old buckets: both heads are locked, and one new head
//! is stored locked and leads to the even chain (K21), or to the odd one where that is empty. The last even
//! link is led to the odd chain (K26), and both old heads are redirected (K23). After a grace nobody walks
//! from an old head any more, and the new head is unlocked. The end is that of a grow.
//!
//! # Where to read
//!
//! `specs/Step.antt` says what each step is and `specs/Event.antt` which event it has. The laws say the same
//! in plain numbers: [`step_laws`] and [`event_laws`]. [`word_laws`] are about whole tables, and [`run_laws`]
//! about machines that make such steps. Which calls make which steps is said in `call_machine`.
#![tactic(auto)]

pub mod access;
pub mod answer;
pub mod count;
pub mod event;
pub mod event_laws;
pub mod found_laws;
pub mod plan;
pub mod run_laws;
pub mod step;
pub mod step_laws;
#[cfg(test)]
mod tests;
pub mod word_laws;

pub use access::{Access, Deed, Op, StepKind};
pub use answer::{Answer, Worked};
pub use count::Change;
pub use plan::{Plan, Want};
pub use step::{Edge, Step};
pub use table_shape::{Place, Shape, ShapeFault};
