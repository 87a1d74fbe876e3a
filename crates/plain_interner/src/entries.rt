//! The entries of live texts, found by the hash of the text or by the slot of the handle.
ghost use Rattle.std.specs.Prelude.{◌≡◌, ◌↔◌, ℕ, ◌-◌, ◌+◌, ◌^◌, ◌<◌, ◌≤◌, IsTrue, List, Some, None, IfSome, IfNone, IfOk, OnOk, OnErr, slice_get, length, IsPermutation};
ghost use Rattle.std.specs.Bool.{OnTrue, OnFalse};
ghost use Rattle.std.specs.FinMap as finite;
ghost use Rattle.intern_log.specs.declared.event.Entry.{Entry};
ghost use Rattle.intern_log.specs.TextMap.{no_texts, entry_of, live_texts, put_at, HasHandle, IsLive};
ghost use Rattle.intern_log.specs.Log.{next, Allows};
ghost use Rattle.intern_log.specs.Log as log;
ghost use Rattle.std.specs.Str.{bytes_eq};
ghost use Rattle.indexmap.specs.IndexMap.{set_value_at, insert_entry, IsUnique, Updates};
ghost use Rattle.plain_interner.specs.Entries.{text_map, IsEntryAt, IsPlaced};

use crate::name::{Name, Sought};
use crate::slot_entry::SlotEntry;
use indexmap::IndexMap;
use intern_log::{Handle, What};
use std::alloc::{AllocError, Global};
use std::marker::Model;

/// The entry of each live text, in an order that changes as entries go.
type Texts = IndexMap<Name, SlotEntry>;

/// The entries of live texts. Contracts see the entry of each text, and how many slots were given out.
///
/// `places` has, for each slot that was given out, the index of its entry in `texts`. It is stale once
/// the entry is gone, so a look-up checks that the entry there has the handle.
#[derive(Drop)]
pub(crate) struct Entries {
    texts: Texts,
    places: Vec<u32>,
}

impl Model for Entries {
    ghost use Rattle.plain_interner.specs.Entries.{Given, text_map, IsPlaced, given_code};

    ghost Value = { Given };

    ghost coded = { given_code };

    ghost use Rattle.std.specs.Prelude.{length};

    ghost view = { λ e. record { texts = text_map e.texts.entries; created = length e.places.items } };

    ghost invariant = { λ e. IsPlaced e.texts.entries e.places.items };
}

/// The entry of a text, with its index.
#[inline]
fn entry_of_text<'a>(texts: &'a Texts, text: &[u8]) -> Option<(usize, &'a SlotEntry)>
    ensures found { IfSome result (λ found. slice_get texts.now.entries found.0 ≡ Some (text.now, found.1.now)) }
    ensures none { IfNone result (entry_of (text_map texts.now.entries) text.now ≡ None) }
{
    let Some((index, _, entry)) = texts.get_full(Sought { text }) else {
        return None;
    };
    Some((index, entry))
}

/// The entry with this handle, with its index.
#[inline]
fn entry_of_handle<'a>(
    texts: &'a Texts,
    places: &[u32],
    handle: Handle,
) -> Option<(usize, &'a SlotEntry)>
    requires placed { IsPlaced texts.now.entries places.now }
    ensures found { IfSome result (λ found. (IsEntryAt texts.now.entries found.0 found.1.now) × (found.1.now.handle ≡ handle)) }
    ensures none { IfNone result (¬ (IsLive (text_map texts.now.entries) handle)) }
{
    let Some(place) = places.get(handle.slot as usize) else {
        return None;
    };
    let index = *place as usize;
    let Some((_, entry)) = texts.get_index(index) else {
        return None;
    };
    if entry.handle() != handle {
        return None;
    }
    Some((index, entry))
}

/// Writes the entry at an index.
#[inline]
fn write_at(texts: &mut Texts, index: usize, entry: SlotEntry)
    requires within { index < length texts.old.entries }
    ensures entries { texts.new.entries ≡ set_value_at texts.old.entries index entry }
    ensures written { (text : List ℕ) (e : Entry) → slice_get texts.old.entries index ≡ Some (text, e)
        → text_map texts.new.entries ≡ put_at (text_map texts.old.entries) text (Some entry) }
{
    let (_, kept) = texts.pair_mut(index);
    *kept = entry;
}

/// Puts in a new entry with this slot. Only want of memory fails, and then nothing has changed.
fn add_entry(texts: &mut Texts, text: &[u8], slot: u32) -> Result<(), AllocError>
    ensures entries { OnOk result (texts.new.entries ≡ insert_entry bytes_eq texts.old.entries text.now (log.new_entry (record { slot = slot; generation = 0 }))) }
    ensures updates { OnOk result (Updates bytes_eq texts.old texts.new text.now (Some (log.new_entry (record { slot = slot; generation = 0 })))) }
    ensures unique { OnOk result (IsUnique bytes_eq texts.new) }
    ensures err { OnErr result (texts.new.entries ≡ texts.old.entries) }
{
    let name = Name::of(*texts.allocator(), text)?;
    texts.insert(name, SlotEntry::new(slot))?;
    Ok(())
}

/// Takes out the entry at an index. The last entry moves there.
fn take_out(texts: &mut Texts, places: &mut [u32], index: usize)
    requires placed { IsPlaced texts.old.entries places.old }
    requires within { index < length texts.old.entries }
    ensures placed { IsPlaced texts.new.entries places.new }
    ensures len { length places.new ≡ length places.old }
    ensures gone { (text : List ℕ) (e : Entry) → slice_get texts.old.entries index ≡ Some (text, e)
        → text_map texts.new.entries ≡ put_at (text_map texts.old.entries) text None }
{
    let _gone = texts.swap_remove_index(index);
    if let Some((_, moved)) = texts.get_index(index) {
        places[moved.handle().slot as usize] = index as u32;
    }
}

impl Entries {
    /// No entries. It takes no memory.
    pub(crate) fn new(alloc: Global) -> Entries
        ensures { result ≡ record { texts = no_texts; created = 0 } }
    {
        Entries {
            texts: IndexMap::new(alloc),
            places: Vec::new(alloc),
        }
    }

    /// Where memory comes from.
    pub(crate) fn allocator(&self) -> Global {
        *self.texts.allocator()
    }

    /// How many slots were given out.
    pub(crate) fn created(&self) -> u32
        ensures { result ≡ self.now.created }
    {
        self.places.len() as u32
    }

    /// The texts, in some order.
    pub(crate) fn names(&self) -> &[Name]
        ensures names { IsPermutation (live_texts self.now.texts) result.now }
        ensures few { length result.now < 2 ^ 32 }
    {
        self.texts.keys().as_slice()
    }

    /// The entries, in some order.
    pub(crate) fn entries(&self) -> &[SlotEntry]
        ensures entries { IsPermutation (finite.values self.now.texts) result.now }
        ensures few { length result.now < 2 ^ 32 }
    {
        self.texts.values().as_slice()
    }

    /// The handle of a text that is live.
    #[inline]
    pub(crate) fn handle_of(&self, text: &[u8]) -> Option<Handle>
        ensures found { IfSome result (λ handle. HasHandle self.now.texts text.now handle) }
        ensures none { IfNone result (entry_of self.now.texts text.now ≡ None) }
    {
        let Some((_, entry)) = entry_of_text(&self.texts, text) else {
            return None;
        };
        Some(entry.handle())
    }

    /// Takes a hold on a text that is live, and gives its handle.
    #[inline]
    pub(crate) fn take(&mut self, text: &[u8]) -> Option<Handle>
        ensures found { IfSome result (λ handle. HasHandle self.old.texts text.now handle) }
        ensures taken { IfSome result (λ handle. self.new.texts ≡ next self.old.texts (What.Take text.now handle)) }
        ensures created { self.new.created ≡ self.old.created }
        ensures none { IfNone result (entry_of self.old.texts text.now ≡ None) }
        ensures same { IfNone result (self.new ≡ self.old) }
    {
        let Some((index, entry)) = entry_of_text(&self.texts, text) else {
            return None;
        };
        let handle = entry.handle();
        let raised = entry.raised();
        write_at(&mut self.texts, index, raised);
        Some(handle)
    }

    /// Gives a text that is not live an entry with the next slot. Only want of memory fails, and then
    /// nothing has changed.
    pub(crate) fn create(&mut self, text: &[u8]) -> Result<Handle, AllocError>
        requires absent { entry_of self.old.texts text.now ≡ None }
        requires room { self.old.created < 2 ^ 32 - 1 }
        ensures slot { IfOk result (λ handle. handle ≡ record { slot = self.old.created; generation = 0 }) }
        ensures allowed { IfOk result (λ handle. Allows self.old.texts (What.Create text.now handle)) }
        ensures texts { IfOk result (λ handle. self.new.texts ≡ next self.old.texts (What.Create text.now handle)) }
        ensures created { OnOk result (self.new.created ≡ self.old.created + 1) }
        ensures err { OnErr result (self.new ≡ self.old) }
    {
        let slot = self.places.len() as u32;
        let index = self.texts.len() as u32;
        self.places.reserve(1)?;
        add_entry(&mut self.texts, text, slot)?;
        self.places.push_reserved(index);
        Ok(Handle {
            slot,
            generation: 0,
        })
    }

    /// Lowers the count of a live entry by one; a permanent one stays, and one of count 1 is gone.
    /// The answer is the count before.
    pub(crate) fn lower(&mut self, handle: Handle) -> u16
        requires live { IsLive self.old.texts handle }
        ensures lowered { self.new.texts ≡ next self.old.texts (What.Drop handle) }
        ensures created { self.new.created ≡ self.old.created }
        ensures count { (text : List ℕ) (e : Entry)
            → entry_of self.old.texts text ≡ Some e → e.handle ≡ handle → result ≡ e.count }
        ensures counted { 1 ≤ result }
    {
        let Some((index, entry)) = entry_of_handle(&self.texts, self.places.as_slice(), handle)
        else {
            unreachable!()
        };
        let count = entry.count();
        let Some(left) = entry.lowered() else {
            take_out(&mut self.texts, self.places.as_mut_slice(), index);
            return count;
        };
        write_at(&mut self.texts, index, left);
        count
    }

    /// Takes out the entry with this handle. The answer is whether the handle was live.
    pub(crate) fn remove(&mut self, handle: Handle) -> bool
        ensures live { IsTrue result ↔ IsLive self.old.texts handle }
        ensures removed { OnTrue result (self.new.texts ≡ next self.old.texts (What.Kill handle)) }
        ensures created { self.new.created ≡ self.old.created }
        ensures same { OnFalse result (self.new ≡ self.old) }
    {
        let Some((index, _)) = entry_of_handle(&self.texts, self.places.as_slice(), handle) else {
            return false;
        };
        take_out(&mut self.texts, self.places.as_mut_slice(), index);
        true
    }

    /// Whether a live entry has this handle.
    pub(crate) fn is_live(&self, handle: Handle) -> bool
        ensures { IsTrue result ↔ IsLive self.now.texts handle }
    {
        entry_of_handle(&self.texts, self.places.as_slice(), handle).is_some()
    }
}
