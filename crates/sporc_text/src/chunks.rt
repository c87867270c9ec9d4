//! The chunks of a text.

ghost use Rattle.std.specs.Prelude.{◌≡◌, ◌+◌, ◌-◌, ◌*◌, ◌^◌, ◌<◌, ◌≤◌, ◌++◌, ◌↔◌, IsTrue, []};
ghost use Rattle.std.specs.Prelude.{length, take, drop, slice_index_or, IfOk};
ghost use Rattle.std.specs.Bool.{OnTrue};
ghost use Rattle.std.specs.List.{concat};
ghost use Rattle.std.specs.Vec.{vec_capacity, vec_len};
ghost use Rattle.std.specs.Vec.Iter.{into_iter_items};
ghost use Rattle.sporc_text.specs.declared.limits.TheConstants.{MAX_CHUNK, MAX_JOINED};
ghost use Rattle.sporc_text.specs.Chunks.{AreChunks, Fits, HasRoom, IsAt, IsWithin, Joins};
ghost use Rattle.sporc_text.specs.ReadyTextModel.{replaced};

use crate::chunk::{Chunk, cut};
use crate::limits::{MAX_CHUNK, MAX_JOINED};
use sporc_base::Memory;
use std::alloc::Global;
use std::vec::IntoIter;

// Copies of chunks.
pub(crate) fn copies(alloc: Global, chunks: &[Chunk]) -> Result<Vec<Chunk>, Memory>
    ensures { IfOk result (λ copies. copies.items ≡ chunks.now) }
{
    let mut copies = Vec::with_capacity(alloc, chunks.len())?;
    for chunk in chunks {
        copies.push(chunk.copy(alloc)?)?;
    }
    Ok(copies)
}

// The first chunk that reaches to a place, and how many characters in front of the place it has.
pub(crate) fn find(chunks: &[Chunk], place: usize) -> (usize, usize)
    requires { place ≤ length (concat chunks.now) }
    ensures { IsAt chunks.now place result.0 result.1 }
{
    let mut left = place;
    for (i, chunk) in chunks.iter().enumerate() {
        if left <= chunk.len() {
            return (i, left);
        }
        left -= chunk.len();
    }
    (chunks.len(), left)
}

// Whether a chunk can give way to one of so many characters.
fn fits(chunks: &[Chunk], i: usize, len: usize) -> bool
    requires { i < length chunks.now }
    ensures { OnTrue result (Fits chunks.now i len) }
{
    0 < len
        && len <= MAX_CHUNK
        && (i == 0 || MAX_JOINED < chunks[i - 1].len() + len)
        && (i + 1 == chunks.len() || MAX_JOINED < len + chunks[i + 1].len())
}

// Whether the last of some chunks is joined to one of so many characters behind it.
fn joins(list: &[Chunk], len: usize) -> bool
    requires { len ≤ MAX_CHUNK }
    ensures { IsTrue result ↔ Joins list.now len }
{
    match list.split_last() {
        Some((last, _)) => last.len() + len <= MAX_JOINED,
        None => false,
    }
}

// Appends a chunk, to the last one if they hold few characters together.
fn push(list: &mut Vec<Chunk>, chunk: Chunk)
    requires chunks { AreChunks list.old.items }
    requires room { HasRoom (vec_capacity list.old) (length (concat list.old.items)) }
    ensures chunks { AreChunks list.new.items }
    ensures value { concat list.new.items ≡ concat list.old.items ++ chunk }
    ensures capacity { vec_capacity list.old ≤ vec_capacity list.new }
{
    if chunk.len() == 0 {
        return;
    }
    if joins(list.as_slice(), chunk.len()) {
        let last = list.len() - 1;
        list[last].extend(chunk.characters());
    } else {
        list.push(chunk).unwrap();
    }
}

// Appends the first characters of the next chunk.
fn push_front(list: &mut Vec<Chunk>, chunks: &mut IntoIter<Chunk>, count: usize)
    requires chunks { AreChunks list.old.items }
    requires room { HasRoom (vec_capacity list.old) (length (concat list.old.items)) }
    ensures chunks { AreChunks list.new.items }
    ensures value { concat list.new.items
        ≡ concat list.old.items ++ take count (slice_index_or (into_iter_items chunks.old) 0 []) }
    ensures rest { into_iter_items chunks.new ≡ drop 1 (into_iter_items chunks.old) }
    ensures capacity { vec_capacity list.old ≤ vec_capacity list.new }
{
    if let Some(chunk) = chunks.next() {
        let mut front = chunk;
        front.truncate(count);
        push(list, front);
    }
}

// Moves the next chunk to the end of a list.
fn push_next(list: &mut Vec<Chunk>, chunks: &mut IntoIter<Chunk>)
    requires chunks { AreChunks list.old.items }
    requires room { HasRoom (vec_capacity list.old) (length (concat list.old.items)) }
    ensures chunks { AreChunks list.new.items }
    ensures value { concat list.new.items
        ≡ concat list.old.items ++ slice_index_or (into_iter_items chunks.old) 0 [] }
    ensures rest { into_iter_items chunks.new ≡ drop 1 (into_iter_items chunks.old) }
    ensures capacity { vec_capacity list.old ≤ vec_capacity list.new }
{
    if let Some(chunk) = chunks.next() {
        push(list, chunk);
    }
}

// Moves the next chunks to the end of a list.
fn push_some(list: &mut Vec<Chunk>, chunks: &mut IntoIter<Chunk>, count: usize)
    requires chunks { AreChunks list.old.items }
    requires room { HasRoom (vec_capacity list.old) (length (concat list.old.items)
        + length (concat (take count (into_iter_items chunks.old)))) }
    ensures chunks { AreChunks list.new.items }
    ensures value { concat list.new.items
        ≡ concat list.old.items ++ concat (take count (into_iter_items chunks.old)) }
    ensures rest { into_iter_items chunks.new ≡ drop count (into_iter_items chunks.old) }
    ensures capacity { vec_capacity list.old ≤ vec_capacity list.new }
{
    for _ in 0..count {
        push_next(list, chunks);
    }
}

// Moves the next chunks to the end of a list, and the first characters of the one behind them.
fn push_until(list: &mut Vec<Chunk>, chunks: &mut IntoIter<Chunk>, i: usize, count: usize)
    requires chunks { AreChunks list.old.items }
    requires room { HasRoom (vec_capacity list.old)
        (length (concat list.old.items) + length (concat (take i (into_iter_items chunks.old)))) }
    ensures chunks { AreChunks list.new.items }
    ensures value { concat list.new.items
        ≡ concat list.old.items ++ (concat (take i (into_iter_items chunks.old))
        ++ take count (slice_index_or (into_iter_items chunks.old) i [])) }
    ensures rest { into_iter_items chunks.new ≡ drop (i + 1) (into_iter_items chunks.old) }
    ensures capacity { vec_capacity list.old ≤ vec_capacity list.new }
{
    push_some(list, chunks, i);
    push_front(list, chunks, count);
}

// Leaves out the next chunk.
fn skip_next(chunks: &mut IntoIter<Chunk>)
    ensures { into_iter_items chunks.new ≡ drop 1 (into_iter_items chunks.old) }
{
    let _ = chunks.next();
}

// Leaves out the next chunks, and moves the others to the end of a list.
fn push_behind(list: &mut Vec<Chunk>, chunks: IntoIter<Chunk>, skipped: usize)
    requires chunks { AreChunks list.old.items }
    requires room { HasRoom (vec_capacity list.old)
        (length (concat list.old.items) + length (concat (drop skipped (into_iter_items chunks)))) }
    ensures chunks { AreChunks list.new.items }
    ensures value { concat list.new.items
        ≡ concat list.old.items ++ concat (drop skipped (into_iter_items chunks)) }
{
    let mut left = chunks;
    for _ in 0..skipped {
        skip_next(&mut left);
    }
    let count = left.len();
    push_some(list, &mut left, count);
}

// Appends characters, in chunks that are at hand.
fn push_all(list: &mut Vec<Chunk>, characters: &[char], spare: Vec<Chunk>)
    requires chunks { AreChunks list.old.items }
    requires room { HasRoom (vec_capacity list.old)
        (length (concat list.old.items) + length characters.now) }
    requires spare_room { length characters.now ≤ MAX_CHUNK * vec_len spare }
    ensures chunks { AreChunks list.new.items }
    ensures value { concat list.new.items ≡ concat list.old.items ++ characters.now }
    ensures capacity { vec_capacity list.old ≤ vec_capacity list.new }
{
    let mut left = characters;
    let mut chunks = spare;
    while !left.is_empty() {
        let chunk = chunks.pop().unwrap();
        left = push_first(list, left, chunk);
    }
}

// Appends as many characters as fill a chunk, and says which are left.
fn push_first<'a>(list: &mut Vec<Chunk>, characters: &'a [char], spare: Chunk) -> &'a [char]
    requires chunks { AreChunks list.old.items }
    requires room { HasRoom (vec_capacity list.old) (length (concat list.old.items)) }
    ensures chunks { AreChunks list.new.items }
    ensures value { concat list.new.items ≡ concat list.old.items ++ take MAX_CHUNK characters.now }
    ensures rest { result.now ≡ drop MAX_CHUNK characters.now }
    ensures capacity { vec_capacity list.old ≤ vec_capacity list.new }
{
    let (first, others) = cut(characters, MAX_CHUNK);
    push(list, filled(spare, first));
    others
}

// A chunk of these characters.
fn filled(spare: Chunk, characters: &[char]) -> Chunk
    requires { length characters.now ≤ MAX_CHUNK }
    ensures { result ≡ characters.now }
{
    let mut chunk = spare;
    chunk.truncate(0);
    chunk.extend(characters);
    chunk
}

// Characters that come in place of some others.
#[derive(Drop)]
pub(crate) struct Splice<'a> {
    // How many characters are kept in front.
    pub kept: usize,
    // How many behind them give way.
    pub removed: usize,
    pub middle: &'a [char],
}

// Whether a chunk alone is written anew, from its beginning on.
fn is_within(chunks: &[Chunk], i: usize, splice: &Splice<'_>) -> bool
    ensures { OnTrue result
        (IsWithin chunks.now i splice.now.kept splice.now.removed (length splice.now.middle.now)) }
{
    if i >= chunks.len() {
        return false;
    }
    let len = chunks[i].len();
    let added = splice.middle.len();
    splice.kept <= len
        && splice.removed <= len - splice.kept
        && added <= MAX_CHUNK
        && fits(chunks, i, len - splice.removed + added)
}

// Writes a chunk anew, from its beginning on.
fn replace_within(chunks: &mut Vec<Chunk>, i: usize, splice: &Splice<'_>, spare: Chunk)
    requires chunks { AreChunks chunks.old.items }
    requires in_bounds { IsWithin chunks.old.items i splice.now.kept splice.now.removed
        (length splice.now.middle.now) }
    ensures chunks { AreChunks chunks.new.items }
    ensures value { concat chunks.new.items ≡ concat (take i chunks.old.items)
        ++ replaced splice.now.kept splice.now.removed splice.now.middle.now
        (concat (drop i chunks.old.items)) }
{
    let chunk = respelled(chunks[i].characters(), splice, spare);
    chunks[i] = chunk;
}

// A chunk of these characters after a splice.
fn respelled(old: &[char], splice: &Splice<'_>, spare: Chunk) -> Chunk
    requires in_bounds { splice.now.kept + splice.now.removed ≤ length old.now }
    requires limit { length old.now - splice.now.removed + length splice.now.middle.now
        ≤ MAX_CHUNK }
    ensures { result ≡ replaced splice.now.kept splice.now.removed splice.now.middle.now old.now }
{
    let mut chunk = filled(spare, &old[..splice.kept]);
    chunk.extend(splice.middle);
    chunk.extend(&old[splice.kept + splice.removed..]);
    chunk
}

// Moves the chunks of a text to a list with room for them, written anew from the beginning of a
// chunk on.
fn rebuild(
    chunks: &mut Vec<Chunk>,
    i: usize,
    splice: &Splice<'_>,
    list: Vec<Chunk>,
    one: Chunk,
    spare: Vec<Chunk>,
)
    requires chunks { AreChunks chunks.old.items }
    requires index_in_bounds { i ≤ length chunks.old.items }
    requires kept_in_bounds { splice.now.kept ≤ length (slice_index_or chunks.old.items i []) }
    requires in_bounds { splice.now.kept + splice.now.removed
        ≤ length (concat (drop i chunks.old.items)) }
    requires limit { splice.now.kept + splice.now.removed < 2 ^ 64 }
    requires empty { list.items ≡ [] }
    requires room { HasRoom (vec_capacity list)
        (length (concat (take i chunks.old.items)) + length (replaced splice.now.kept
        splice.now.removed splice.now.middle.now (concat (drop i chunks.old.items)))) }
    requires spare_room { length splice.now.middle.now ≤ MAX_CHUNK * vec_len spare }
    ensures chunks { AreChunks chunks.new.items }
    ensures value { concat chunks.new.items ≡ concat (take i chunks.old.items)
        ++ replaced splice.now.kept splice.now.removed splice.now.middle.now
        (concat (drop i chunks.old.items)) }
{
    let old = std::mem::replace(chunks, list);
    let (more, gone) = find(&old[i..], splice.kept + splice.removed);
    let last = behind(&old[i..], more, gone, one);
    let mut left = old.into_iter();
    push_until(chunks, &mut left, i, splice.kept);
    push_all(chunks, splice.middle, spare);
    push(chunks, last);
    push_behind(chunks, left, more);
}

// Writes the chunks of a text anew from the beginning of a chunk on, in a list with room for them
// unless it changes one alone.
pub(crate) fn rewrite(
    chunks: &mut Vec<Chunk>,
    i: usize,
    splice: &Splice<'_>,
    list: Vec<Chunk>,
    one: Chunk,
    spare: Vec<Chunk>,
)
    requires chunks { AreChunks chunks.old.items }
    requires index_in_bounds { i ≤ length chunks.old.items }
    requires kept_in_bounds { splice.now.kept ≤ length (slice_index_or chunks.old.items i []) }
    requires in_bounds { splice.now.kept + splice.now.removed
        ≤ length (concat (drop i chunks.old.items)) }
    requires limit { splice.now.kept + splice.now.removed < 2 ^ 64 }
    requires empty { list.items ≡ [] }
    requires room { HasRoom (vec_capacity list)
        (length (concat (take i chunks.old.items)) + length (replaced splice.now.kept
        splice.now.removed splice.now.middle.now (concat (drop i chunks.old.items)))) }
    requires spare_room { length splice.now.middle.now ≤ MAX_CHUNK * vec_len spare }
    ensures chunks { AreChunks chunks.new.items }
    ensures value { concat chunks.new.items ≡ concat (take i chunks.old.items)
        ++ replaced splice.now.kept splice.now.removed splice.now.middle.now
        (concat (drop i chunks.old.items)) }
{
    if is_within(chunks.as_slice(), i, splice) {
        replace_within(chunks, i, splice, one);
    } else {
        rebuild(chunks, i, splice, list, one, spare);
    }
}

// The characters of a chunk from a place on, in a chunk of their own.
fn behind(chunks: &[Chunk], i: usize, offset: usize, spare: Chunk) -> Chunk
    requires { offset ≤ length (slice_index_or chunks.now i []) }
    ensures { result ≡ drop offset (slice_index_or chunks.now i []) }
{
    match chunks.get(i) {
        Some(chunk) => filled(spare, &chunk.characters()[offset..]),
        None => filled(spare, &[]),
    }
}
