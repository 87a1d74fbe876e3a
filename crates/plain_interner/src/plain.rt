//! The interner.
ghost use Rattle.std.specs.Prelude.{◌≡◌, ℕ, ◌-◌, ◌^◌, ◌<◌, ◌≤◌, ◌↔◌, IsTrue, List, None, length, IfOk, OnErr};
ghost use Rattle.std.specs.Bool.{OnTrue, OnFalse};
ghost use Rattle.intern_log.specs.declared.event.Entry.{Entry};
ghost use Rattle.intern_log.specs.TextMap.{no_texts, entry_of, live_texts, IsLive};
ghost use Rattle.intern_log.specs.Buckets.{longest_bucket};
ghost use Rattle.intern_log.specs.EntryCounts.{released_of, references_of};
ghost use Rattle.plain_interner.specs.State.{Follows, event_of, HasNewSlot, IsOfKind};

use crate::entries::Entries;
use crate::numbers::{longest, references};
use intern_log::{Handle, Kind, PERMANENT, Released, What};
use std::alloc::{AllocError, Global};
use std::marker::Model;

/// What an intern came to.
#[derive(Clone, Copy, Debug, PartialEq, Eq)]
pub enum PlainInterned {
    /// The text was not live: it has a new entry now, with this handle and count 1.
    Created(Handle),
    /// The text was live in a counted interner: its entry has one more hold.
    Taken(Handle),
    /// The text was live in a weak interner, with this handle.
    Found(Handle),
}

/// A one-thread interner. Contracts see its kind, the live entry of each text, and how many slots
/// it gave out.
#[derive(Drop)]
pub struct Plain {
    kind: Kind,
    entries: Entries,
}

impl Model for Plain {
    ghost use Rattle.plain_interner.specs.State.{State, state_code};

    ghost Value = { State };

    ghost coded = { state_code };

    ghost view = { λ p. record { kind = p.kind; texts = p.entries.texts; created = p.entries.created } };
}

impl Plain {
    /// An interner with no texts. It takes no memory.
    pub fn new(alloc: Global, kind: Kind) -> Plain
        ensures empty { result ≡ record { kind = kind; texts = no_texts; created = 0 } }
    {
        Plain {
            kind,
            entries: Entries::new(alloc),
        }
    }

    /// How the interner keeps its entries.
    pub fn kind(&self) -> Kind
        ensures kind { result ≡ self.now.kind }
    {
        self.kind
    }

    /// How many entries were ever made: the number of the next slot.
    pub fn created(&self) -> u64
        ensures created { result ≡ self.now.created }
    {
        u64::from(self.entries.created())
    }

    /// The handle of the text, which is live from here on. It asks for at most 65,535 bytes, and that
    /// fewer than 2^32 - 1 entries were made before (`created`). Only want of memory fails, and then
    /// nothing has changed; only a text that was not live takes memory.
    pub fn intern(&mut self, text: &[u8]) -> Result<PlainInterned, AllocError>
        requires short { length text.now ≤ 65535 }
        requires room { self.old.created < 2 ^ 32 - 1 }
        ensures follows { IfOk result (λ answer. Follows self.old (event_of text.now answer) self.new) }
        ensures new_slot { IfOk result (HasNewSlot self.old) }
        ensures kinds { IfOk result (IsOfKind self.old.kind) }
        ensures err { OnErr result (self.new ≡ self.old) }
        ensures memory { OnErr result (entry_of self.old.texts text.now ≡ None) }
    {
        match self.kind {
            Kind::Counted => {
                if let Some(handle) = self.entries.take(text) {
                    return Ok(PlainInterned::Taken(handle));
                }
            }
            Kind::Weak => {
                if let Some(handle) = self.entries.handle_of(text) {
                    return Ok(PlainInterned::Found(handle));
                }
            }
        }
        Ok(PlainInterned::Created(self.entries.create(text)?))
    }

    /// Takes one hold on a live handle away, in a counted interner. The entry is gone with its last
    /// hold; a permanent one stays as it is.
    pub fn release(&mut self, handle: Handle) -> Released
        requires counted { self.old.kind ≡ Kind.Counted }
        requires live { IsLive self.old.texts handle }
        ensures follows { Follows self.old (What.Drop handle) self.new }
        ensures answer { (text : List ℕ) (e : Entry)
            → entry_of self.old.texts text ≡ Some e → e.handle ≡ handle → result ≡ released_of e.count }
    {
        let count = self.entries.lower(handle);
        if count == PERMANENT {
            return Released::Permanent;
        }
        Released::Dropped { left: count - 1 }
    }

    /// Takes an entry out of a weak interner. The answer is whether the handle was live; where it
    /// was not, nothing changes.
    pub fn kill(&mut self, handle: Handle) -> bool
        requires weak { self.old.kind ≡ Kind.Weak }
        ensures answer { IsTrue result ↔ IsLive self.old.texts handle }
        ensures killed { OnTrue result (Follows self.old (What.Kill handle) self.new) }
        ensures dead { OnFalse result (self.new ≡ self.old) }
    {
        self.entries.remove(handle)
    }

    /// Whether a live entry has this handle: the test for `release`.
    pub fn is_live(&self, handle: Handle) -> bool
        ensures live { IsTrue result ↔ IsLive self.now.texts handle }
    {
        self.entries.is_live(handle)
    }

    /// How many texts are live.
    pub fn live(&self) -> u32
        ensures live { result ≡ length (live_texts self.now.texts) }
    {
        self.entries.names().len() as u32
    }

    /// How many holds the entries count together; permanent entries count none.
    pub fn references(&self) -> u64
        ensures references { result ≡ references_of self.now.texts }
    {
        references(self.entries.entries())
    }

    /// The greatest number of live texts in one bucket of a row of 2^level, or 0 where no text is
    /// live. It takes the time of one pass over the texts, and 4 * 2^level bytes while it runs. Where
    /// there is no memory for that, it makes a pass for every 4,096 buckets instead.
    pub fn longest(&self, level: u8) -> u32
        requires level { level ≤ 20 }
        ensures longest { result ≡ longest_bucket 0 level (live_texts self.now.texts) }
    {
        longest(self.entries.allocator(), level, self.entries.names())
    }
}

#[cfg(test)]
mod tests {
    use super::*;
    use std::test::Fail;

    #[test]
    fn counted_texts_go_with_their_last_hold(rt: HostRuntime) -> Result<(), Fail> {
        let mut plain = Plain::new(rt.alloc(), Kind::Counted);
        let first = Handle {
            slot: 0,
            generation: 0,
        };
        let second = Handle {
            slot: 1,
            generation: 0,
        };
        assert_eq!(rt; plain.intern(b"a")?, PlainInterned::Created(first));
        assert_eq!(rt; plain.intern(b"a")?, PlainInterned::Taken(first));
        assert_eq!(rt; plain.references(), 2);
        assert!(rt; plain.is_live(first));
        assert_eq!(rt; plain.release(first), Released::Dropped { left: 1 });
        assert!(rt; plain.is_live(first));
        assert_eq!(rt; plain.release(first), Released::Dropped { left: 0 });
        assert!(rt; !plain.is_live(first));
        assert_eq!(rt; plain.intern(b"a")?, PlainInterned::Created(second));
        assert_eq!(rt; plain.created(), 2);
        Ok(())
    }

    #[test]
    fn weak_texts_stay_until_they_are_killed(rt: HostRuntime) -> Result<(), Fail> {
        let mut plain = Plain::new(rt.alloc(), Kind::Weak);
        let first = Handle {
            slot: 0,
            generation: 0,
        };
        let second = Handle {
            slot: 1,
            generation: 0,
        };
        assert_eq!(rt; plain.kind(), Kind::Weak);
        assert_eq!(rt; plain.intern(b"a")?, PlainInterned::Created(first));
        assert_eq!(rt; plain.intern(b"a")?, PlainInterned::Found(first));
        assert!(rt; plain.kill(first));
        assert!(rt; !plain.kill(first));
        assert_eq!(rt; plain.intern(b"a")?, PlainInterned::Created(second));
        Ok(())
    }

    #[test]
    fn live_texts_are_counted(rt: HostRuntime) -> Result<(), Fail> {
        let mut plain = Plain::new(rt.alloc(), Kind::Counted);
        assert_eq!(rt; plain.longest(0), 0);
        let _ = plain.intern(b"Aa")?;
        let _ = plain.intern(b"BB")?;
        let _ = plain.intern(b"a")?;
        let _ = plain.intern(b"Aa")?;
        assert_eq!(rt; plain.live(), 3);
        assert_eq!(rt; plain.references(), 4);
        assert_eq!(rt; plain.longest(0), 3);
        assert_eq!(rt; plain.longest(20), 2);
        Ok(())
    }

    // A text of two letters.
    fn nth(k: u32) -> [u8; 2] {
        [b'a' + (k / 26 % 26) as u8, b'a' + (k % 26) as u8]
    }

    // Interns a text of two letters, up to 1,000 entries.
    fn intern_nth(plain: &mut Plain, k: u32) -> Result<Option<PlainInterned>, AllocError> {
        if plain.created() >= 1000 {
            return Ok(None);
        }
        Ok(Some(plain.intern(&nth(k))?))
    }

    // Releases the handle with this slot, where it is live in a counted interner.
    fn release_slot(plain: &mut Plain, slot: u32) -> Option<Released> {
        let handle = Handle {
            slot,
            generation: 0,
        };
        match plain.kind() {
            Kind::Weak => None,
            Kind::Counted => {
                if plain.is_live(handle) {
                    Some(plain.release(handle))
                } else {
                    None
                }
            }
        }
    }

    #[test]
    fn entries_that_moved_are_found(rt: HostRuntime) -> Result<(), Fail> {
        let mut plain = Plain::new(rt.alloc(), Kind::Counted);
        for k in 0..60 {
            let _ = intern_nth(&mut plain, k)?;
        }
        // every third of the first half goes, from the front, so that entries of the end move there
        for k in 0..10 {
            let released = release_slot(&mut plain, 3 * k);
            assert_eq!(rt; released, Some(Released::Dropped { left: 0 }));
        }
        assert_eq!(rt; plain.live(), 50);
        for k in 0..60 {
            let gone = k < 30 && k % 3 == 0;
            let handle = Handle {
                slot: k,
                generation: 0,
            };
            assert_eq!(rt; plain.is_live(handle), !gone);
            let answer = if gone {
                PlainInterned::Created(Handle {
                    slot: 60 + k / 3,
                    generation: 0,
                })
            } else {
                PlainInterned::Taken(handle)
            };
            assert_eq!(rt; intern_nth(&mut plain, k)?, Some(answer));
        }
        assert_eq!(rt; plain.live(), 60);
        assert_eq!(rt; plain.references(), 110);
        assert_eq!(rt; plain.created(), 70);
        Ok(())
    }

    #[test]
    fn longest_of_many_texts(rt: HostRuntime) -> Result<(), Fail> {
        let mut plain = Plain::new(rt.alloc(), Kind::Weak);
        for k in 0..676 {
            let _ = intern_nth(&mut plain, k)?;
        }
        assert_eq!(rt; plain.live(), 676);
        assert_eq!(rt; plain.longest(0), 676);
        assert_eq!(rt; plain.longest(5), 26);
        assert_eq!(rt; plain.longest(8), 4);
        assert_eq!(rt; plain.longest(20), 1);
        Ok(())
    }
}
