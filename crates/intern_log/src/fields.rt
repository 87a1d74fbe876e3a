//! The two maps of a replay, one step at a time.
ghost use Rattle.std.specs.Prelude.{◌≡◌, ◌≢◌, ℕ, List, IsSome, IfSome, IfNone, OnOk, OnErr};
ghost use Rattle.std.specs.Option.{option_map};
ghost use Rattle.intern_log.specs.declared.event.Entry.{Entry};
ghost use Rattle.intern_log.specs.declared.event.Handle.{Handle};
ghost use Rattle.intern_log.specs.TextMap.{entry_of, put_at};
ghost use Rattle.intern_log.specs.Log.{new_entry};
ghost use Rattle.intern_log.specs.Log as log;
ghost use Rattle.intern_log.specs.Kept.{text_map, text_at};

use crate::event::{Entry, Handle, PERMANENT};
use std::alloc::{AllocError, Global};
use std::collections::BTreeMap;

/// The entry of each live text.
pub(crate) type Entries = BTreeMap<Vec<u8>, Entry>;

/// The text of each live handle.
pub(crate) type Texts = BTreeMap<Handle, Vec<u8>>;

/// The entry of a text.
pub(crate) fn entry_at(entries: &Entries, text: &[u8]) -> Option<Entry>
    ensures { result ≡ entry_of (text_map entries.now.entries) text.now }
{
    entries.get(text).copied()
}

/// Writes the entry of a text that has one.
pub(crate) fn set_entry(entries: &mut Entries, text: &[u8], entry: Entry)
    requires { IsSome (entry_of (text_map entries.old.entries) text.now) }
    ensures { text_map entries.new.entries ≡ put_at (text_map entries.old.entries) text.now (Some entry) }
{
    if let Some(kept) = entries.get_mut(text) {
        *kept = entry;
    }
}

/// Takes out the entry of a text.
pub(crate) fn remove_entry(entries: &mut Entries, text: &[u8])
    ensures { text_map entries.new.entries ≡ put_at (text_map entries.old.entries) text.now None }
{
    entries.remove(text);
}

/// Puts in the entry of a text that has none.
pub(crate) fn add_entry(
    entries: &mut Entries,
    text: Vec<u8>,
    entry: Entry,
) -> Result<(), AllocError>
    ensures ok { OnOk result (text_map entries.new.entries ≡ put_at (text_map entries.old.entries) text.items (Some entry)) }
    ensures err { OnErr result (text_map entries.new.entries ≡ text_map entries.old.entries) }
{
    entries.insert(text, entry)?;
    Ok(())
}

/// The text of a handle.
pub(crate) fn text_of(texts: &Texts, handle: Handle) -> Option<&[u8]>
    ensures { option_map (λ text. text.now) result ≡ text_at texts.now.entries handle }
{
    match texts.get(&handle) {
        Some(text) => Some(text.as_slice()),
        None => None,
    }
}

/// Puts in the text of a handle.
pub(crate) fn add_text(texts: &mut Texts, handle: Handle, text: Vec<u8>) -> Result<(), AllocError>
    ensures ok { OnOk result (text_at texts.new.entries handle ≡ Some text.items) }
    ensures err { OnErr result (text_at texts.new.entries handle ≡ text_at texts.old.entries handle) }
    ensures others { (other : Handle) → other ≢ handle → text_at texts.new.entries other ≡ text_at texts.old.entries other }
{
    texts.insert(handle, text)?;
    Ok(())
}

/// Takes out the text of a handle.
pub(crate) fn remove_text(texts: &mut Texts, handle: Handle) -> Option<Vec<u8>>
    ensures text { option_map (λ text. text.items) result ≡ text_at texts.old.entries handle }
    ensures gone { text_at texts.new.entries handle ≡ None }
    ensures others { (other : Handle) → other ≢ handle → text_at texts.new.entries other ≡ text_at texts.old.entries other }
{
    texts.remove(&handle)
}

/// Puts in a new entry and the text of its handle, or neither.
pub(crate) fn add_both(
    alloc: Global,
    entries: &mut Entries,
    texts: &mut Texts,
    text: &[u8],
    handle: Handle,
) -> Result<(), AllocError>
    requires { text_at texts.old.entries handle ≡ None }
    ensures ok { OnOk result (text_map entries.new.entries ≡ put_at (text_map entries.old.entries) text.now (Some (new_entry handle))) }
    ensures text { OnOk result (text_at texts.new.entries handle ≡ Some text.now) }
    ensures err { OnErr result (text_map entries.new.entries ≡ text_map entries.old.entries) }
    ensures free { OnErr result (text_at texts.new.entries handle ≡ None) }
    ensures others { (other : Handle) → other ≢ handle → text_at texts.new.entries other ≡ text_at texts.old.entries other }
{
    let key = Vec::from_slice(alloc, text)?;
    let copy = Vec::from_slice(alloc, text)?;
    add_text(texts, handle, copy)?;
    match add_entry(entries, key, Entry { handle, count: 1 }) {
        Ok(()) => Ok(()),
        Err(e) => {
            remove_text(texts, handle);
            Err(e)
        }
    }
}

/// Takes out the text of a handle, and its entry.
pub(crate) fn remove_both(entries: &mut Entries, texts: &mut Texts, handle: Handle)
    ensures texts { (text : List ℕ) → text_at texts.old.entries handle ≡ Some text
        → text_map entries.new.entries ≡ put_at (text_map entries.old.entries) text None }
    ensures gone { text_at texts.new.entries handle ≡ None }
    ensures others { (other : Handle) → other ≢ handle → text_at texts.new.entries other ≡ text_at texts.old.entries other }
{
    if let Some(text) = remove_text(texts, handle) {
        remove_entry(entries, text.as_slice());
    }
}

/// The text of a handle, and its entry.
pub(crate) fn live_entry<'a>(
    entries: &Entries,
    texts: &'a Texts,
    handle: Handle,
) -> Option<(&'a [u8], Entry)>
    ensures found { IfSome result (λ found. (text_at texts.now.entries handle ≡ Some found.0.now)
        × (entry_of (text_map entries.now.entries) found.0.now ≡ Some found.1)) }
    ensures none { IfNone result ((text : List ℕ) → text_at texts.now.entries handle ≡ Some text
        → entry_of (text_map entries.now.entries) text ≡ None) }
{
    let text = text_of(texts, handle)?;
    let entry = entry_at(entries, text)?;
    Some((text, entry))
}

/// An entry with one more hold; a permanent one stays.
pub(crate) fn raised(entry: Entry) -> Entry
    ensures { result ≡ log.raised entry }
{
    if entry.count == PERMANENT {
        return entry;
    }
    Entry {
        handle: entry.handle,
        count: entry.count + 1,
    }
}

/// An entry with one hold less, or `None` where that was its last; a permanent one stays.
pub(crate) fn lowered(entry: Entry) -> Option<Entry>
    ensures { result ≡ log.lowered entry }
{
    if entry.count == PERMANENT {
        return Some(entry);
    }
    if entry.count <= 1 {
        return None;
    }
    Some(Entry {
        handle: entry.handle,
        count: entry.count - 1,
    })
}
