//! The chains of a table, as its words have them.
ghost use Rattle.std.specs.Prelude.{◌≡◌, ◌≤◌, ◌<◌, ◌*◌, List, length, IfOk, IfSome, IfNone};
ghost use Rattle.marked_word.specs.Head.{first_of};
ghost use Rattle.marked_word.specs.Link.{node_of};
ghost use Rattle.table_shape.specs.Place.{IsInside};
ghost use Rattle.table_shape.specs.Shape.{IsSound, words_of as words_of_shape};
ghost use Rattle.atomic_step.specs.Table.{word_at};
ghost use Rattle.cht_core.specs.Anew.{text_at};
ghost use Rattle.schedule_sim.specs.PrintedLines.{texts_in};
ghost use Rattle.schedule_sim.specs.Chains.{IsPresent, IsChain};

use atomic_step::{Place, Shape};
use marked_word::{Head, length_in, link_of};
use std::alloc::{AllocError, Global};
use text_words::unpack;

/// The row and the bucket, where the row is the present level and the table has the bucket in it.
pub(crate) fn present(words: &[u64], shape: &Shape, row: u64, bucket: u64) -> Option<(u8, u32)>
    requires shape { IsSound shape.now }
    requires sized { length words.now ≡ words_of_shape shape.now }
    ensures value { IfSome result (λ found. (found.0 ≡ row) × (found.1 ≡ bucket) × IsPresent shape.now words.now row bucket) }
    ensures none { IfNone result (¬ (IsPresent shape.now words.now row bucket)) }
{
    let Ok(row) = u8::try_from(row) else {
        return None;
    };
    let Ok(bucket) = u32::try_from(bucket) else {
        return None;
    };
    if load(words, shape, Place::Level) == u64::from(row)
        && shape.has(Place::Head { row, bucket })
    {
        return Some((row, bucket));
    }
    None
}

/// The texts of the nodes of a chain, from its head on. None comes where the links lead outside the table, or do not
/// end: no table has such links.
pub(crate) fn texts_of_chain(
    alloc: Global,
    words: &[u64],
    shape: &Shape,
    row: u8,
    bucket: u32,
) -> Result<Option<Vec<Vec<u8>>>, AllocError>
    requires shape { IsSound shape.now }
    requires sized { length words.now ≡ words_of_shape shape.now }
    requires inside { IsInside shape.now (Place.Head row bucket) }
    ensures chain { IfOk result (λ found. IfSome found (λ texts. IsChain shape.now words.now row bucket (texts_in texts.items))) }
{
    let mut texts = Vec::new(alloc);
    let Some(mut next) = first_in(load(words, shape, Place::Head { row, bucket })) else {
        return Ok(None);
    };
    for _ in 0..=shape.slots {
        let Some(slot) = next else {
            return Ok(Some(texts));
        };
        if slot >= shape.slots {
            return Ok(None);
        }
        let Some(text) = text_in(alloc, words, shape, slot)? else {
            return Ok(None);
        };
        texts.push(text)?;
        let Some(after) = link_of(load(words, shape, Place::Link(slot))) else {
            return Ok(None);
        };
        next = after;
    }
    Ok(None)
}

/// The text of a slot. None comes where its length is more than the slot has room for.
fn text_in(
    alloc: Global,
    words: &[u64],
    shape: &Shape,
    slot: u32,
) -> Result<Option<Vec<u8>>, AllocError>
    requires shape { IsSound shape.now }
    requires sized { length words.now ≡ words_of_shape shape.now }
    requires slot { slot < shape.now.slots }
    ensures text { IfOk result (λ found. IfSome found (λ text. text.items ≡ text_at shape.now words.now slot)) }
{
    let length = usize::from(length_in(load(words, shape, Place::Meta(slot))));
    if length > 8 * shape.text_words as usize {
        return Ok(None);
    }
    let from = shape.index(Place::Text { slot, at: 0 }) as usize;
    let mut text = vec![in alloc; 0u8; length]?;
    unpack(
        &words[from..from + shape.text_words as usize],
        length,
        &mut text,
    );
    Ok(Some(text))
}

/// The first node of a head. None comes of a word that is no head.
fn first_in(word: u64) -> Option<Option<u32>>
    ensures value { IfSome result (λ first. first ≡ first_of word) }
{
    let head = Head::of_word(word)?;
    Some(head.node)
}

/// The word at a place.
fn load(words: &[u64], shape: &Shape, place: Place) -> u64
    requires shape { IsSound shape.now }
    requires sized { length words.now ≡ words_of_shape shape.now }
    requires inside { IsInside shape.now place }
    ensures value { result ≡ word_at shape.now place words.now }
{
    words[shape.index(place) as usize]
}
