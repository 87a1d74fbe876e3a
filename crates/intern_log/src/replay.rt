//! A map from texts to entries that follows a log, event by event.
ghost use Rattle.std.specs.Prelude.{◌≡◌, ◌↔◌, ℕ, ◌≤◌, true, IsTrue, List, IfSome, IfNone, OnOk, OnErr};
ghost use Rattle.intern_log.specs.declared.event.Entry.{Entry};
ghost use Rattle.intern_log.specs.declared.event.Handle.{Handle};
ghost use Rattle.intern_log.specs.TextMap.{no_texts, entry_of, HasHandle, IsLive};
ghost use Rattle.intern_log.specs.Log.{next, Allows};
ghost use Rattle.intern_log.specs.Counts.{is_create};
ghost use Rattle.intern_log.specs.Kept.{text_map};

use crate::event::{Entry, Handle, PERMANENT, What};
use crate::fields::{
    Entries, Texts, add_both, entry_at, live_entry, lowered, raised, remove_both, set_entry,
};
use std::alloc::{AllocError, Global};
use std::collections::BTreeMap;
use std::marker::Model;

/// The live entry of each text, after some events. Contracts see the map.
#[derive(Drop)]
pub struct Replay {
    alloc: Global,
    entries: Entries,
    texts: Texts,
}

impl Model for Replay {
    ghost use Rattle.intern_log.specs.TextMap.{TextMap, text_map_code};

    ghost Value = { TextMap };

    ghost coded = { text_map_code };

    ghost use Rattle.intern_log.specs.Kept.{text_map, IsKept};

    ghost view = { λ r. text_map r.entries.entries };

    ghost invariant = { λ r. IsKept (text_map r.entries.entries) r.texts.entries };
}

impl Replay {
    /// The map of no events. It takes no memory.
    pub fn new(alloc: Global) -> Replay
        ensures empty { result ≡ no_texts }
    {
        Replay {
            alloc,
            entries: BTreeMap::new(alloc),
            texts: BTreeMap::new(alloc),
        }
    }

    /// The entries of the live texts, in the order of the texts' bytes.
    pub fn entries(&self) -> &BTreeMap<Vec<u8>, Entry>
        ensures entries { text_map result.now.entries ≡ self.now }
    {
        &self.entries
    }

    /// The entry of a text, where it is live.
    pub fn entry(&self, text: &[u8]) -> Option<Entry>
        ensures entry { result ≡ entry_of self.now text.now }
    {
        entry_at(&self.entries, text)
    }

    /// The entry with this handle and its text, where the handle is live.
    pub fn live_entry(&self, handle: Handle) -> Option<(&[u8], Entry)>
        ensures found { IfSome result (λ found. (entry_of self.now found.0.now ≡ Some found.1)
            × (found.1.handle ≡ handle)) }
        ensures counted { IfSome result (λ found. 1 ≤ found.1.count) }
        ensures none { IfNone result (¬ (IsLive self.now handle)) }
    {
        live_entry(&self.entries, &self.texts, handle)
    }

    /// Whether a live entry has this handle.
    pub fn is_live(&self, handle: Handle) -> bool
        ensures live { IsTrue result ↔ IsLive self.now handle }
    {
        live_entry(&self.entries, &self.texts, handle).is_some()
    }

    /// Whether the text is live, with this handle.
    pub fn has_handle(&self, text: &[u8], handle: Handle) -> bool
        ensures has { IsTrue result ↔ HasHandle self.now text.now handle }
    {
        match entry_at(&self.entries, text) {
            Some(entry) => entry.handle == handle,
            None => false,
        }
    }

    /// Whether the map allows the event.
    pub fn allows(&self, what: &What) -> bool
        ensures allows { IsTrue result ↔ Allows self.now what.now }
    {
        match what {
            What::Create(text, handle) => self.entry(text.bytes()).is_none()
                && !self.is_live(*handle),
            What::Take(text, handle) | What::Found(text, handle) => {
                self.has_handle(text.bytes(), *handle)
            }
            What::Drop(handle) | What::Perm(handle) | What::Kill(handle) => self.is_live(*handle),
            What::Claim(_)
            | What::Free(_)
            | What::Open(_)
            | What::Close
            | What::Grace
            | What::Lock(..)
            | What::Unlock(..)
            | What::Unlink(_)
            | What::ResizeTaken
            | What::ResizeGiven
            | What::Level(_)
            | What::Rehash { .. } => true,
        }
    }

    /// Goes on by one event, which the map allows. Only want of memory fails, and then nothing has
    /// changed; only a Create takes memory.
    pub fn apply(&mut self, what: &What) -> Result<(), AllocError>
        requires allowed { Allows self.old what.now }
        ensures ok { OnOk result (self.new ≡ next self.old what.now) }
        ensures err { OnErr result (self.new ≡ self.old) }
        ensures memory { OnErr result (is_create what.now ≡ true) }
    {
        match what {
            What::Create(text, handle) => return self.create(text.bytes(), *handle),
            What::Take(text, _) => self.take(text.bytes()),
            What::Drop(handle) => {
                let _ = self.lower(*handle);
            }
            What::Perm(handle) => self.make_permanent(*handle),
            What::Kill(handle) => self.remove(*handle),
            What::Found(..)
            | What::Claim(_)
            | What::Free(_)
            | What::Open(_)
            | What::Close
            | What::Grace
            | What::Lock(..)
            | What::Unlock(..)
            | What::Unlink(_)
            | What::ResizeTaken
            | What::ResizeGiven
            | What::Level(_)
            | What::Rehash { .. } => {}
        }
        Ok(())
    }

    /// Gives a text that is not live an entry with this handle, which is not live either, and count
    /// 1. Only want of memory fails, and then nothing has changed.
    pub fn create(&mut self, text: &[u8], handle: Handle) -> Result<(), AllocError>
        requires allowed { Allows self.old (What.Create text.now handle) }
        ensures ok { OnOk result (self.new ≡ next self.old (What.Create text.now handle)) }
        ensures err { OnErr result (self.new ≡ self.old) }
    {
        add_both(self.alloc, &mut self.entries, &mut self.texts, text, handle)?;
        Ok(())
    }

    /// Raises the count of a text's entry by one; a permanent one stays. Where the text is not live
    /// nothing changes.
    pub fn take(&mut self, text: &[u8])
        ensures taken { (handle : Handle) → self.new ≡ next self.old (What.Take text.now handle) }
    {
        let Some(entry) = entry_at(&self.entries, text) else {
            return;
        };
        set_entry(&mut self.entries, text, raised(entry));
    }

    /// Lowers the count of a live entry by one; a permanent one stays, and one of count 1 is gone.
    /// The answer is the count before.
    pub fn lower(&mut self, handle: Handle) -> u16
        requires live { IsLive self.old handle }
        ensures lowered { self.new ≡ next self.old (What.Drop handle) }
        ensures count { (text : List ℕ) (e : Entry)
            → entry_of self.old text ≡ Some e → e.handle ≡ handle → result ≡ e.count }
        ensures counted { 1 ≤ result }
    {
        let Some((text, entry)) = live_entry(&self.entries, &self.texts, handle) else {
            unreachable!()
        };
        let Some(left) = lowered(entry) else {
            remove_both(&mut self.entries, &mut self.texts, handle);
            return entry.count;
        };
        set_entry(&mut self.entries, text, left);
        entry.count
    }

    /// Makes the count of a live entry 65,535.
    pub fn make_permanent(&mut self, handle: Handle)
        requires live { IsLive self.old handle }
        ensures permanent { self.new ≡ next self.old (What.Perm handle) }
    {
        let Some((text, entry)) = live_entry(&self.entries, &self.texts, handle) else {
            unreachable!()
        };
        let permanent = Entry {
            handle: entry.handle,
            count: PERMANENT,
        };
        set_entry(&mut self.entries, text, permanent);
    }

    /// Takes a live entry away.
    pub fn remove(&mut self, handle: Handle)
        requires live { IsLive self.old handle }
        ensures removed { self.new ≡ next self.old (What.Kill handle) }
    {
        remove_both(&mut self.entries, &mut self.texts, handle);
    }
}

#[cfg(test)]
mod tests {
    use super::*;
    use crate::text::Text;
    use std::test::Fail;

    #[test]
    fn entries_follow_the_events(rt: HostRuntime) -> Result<(), Fail> {
        let mut replay = Replay::new(rt.alloc());
        let handle = Handle {
            slot: 3,
            generation: 1,
        };
        let create = What::Create(Text::of(rt.alloc(), b"a")?, handle);
        assert!(rt; replay.allows(&create));
        replay.apply(&create)?;
        assert!(rt; replay.has_handle(b"a", handle));
        replay.take(b"a");
        assert_eq!(rt; replay.entry(b"a"), Some(Entry { handle, count: 2 }));
        assert!(rt; replay.is_live(handle));
        assert_eq!(rt; replay.lower(handle), 2);
        assert!(rt; replay.is_live(handle));
        replay.make_permanent(handle);
        match replay.live_entry(handle) {
            Some((text, entry)) => {
                assert_eq!(rt; text, b"a".as_slice());
                assert_eq!(rt; entry.count, PERMANENT);
            }
            None => assert!(rt; false, "the entry is permanent"),
        }
        assert!(rt; replay.is_live(handle));
        replay.remove(handle);
        assert_eq!(rt; replay.entries().len(), 0);
        assert!(rt; replay.allows(&create));
        replay.create(b"a", handle)?;
        assert_eq!(rt; replay.entry(b"a"), Some(Entry { handle, count: 1 }));
        Ok(())
    }
}
