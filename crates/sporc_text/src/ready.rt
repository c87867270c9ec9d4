//! Changes of a text that were made ready.

ghost use Rattle.std.specs.Prelude.{◌≡◌, length, vec_len, IfOk};
ghost use Rattle.std.specs.List.{concat};
ghost use Rattle.sporc_delta.specs.Marks.{base_len, apply};
ghost use Rattle.sporc_text.specs.Chunks.{AreChunks};
ghost use Rattle.sporc_text.specs.ReadyTextModel.{replaced, rewritten};

use crate::chunk::Chunk;
use crate::chunks::{Splice, find, rewrite};
use crate::edit::{changes, edited};
use crate::limits::{MAX_CHUNK, MEAN_CHUNK};
use sporc_base::Memory;
use sporc_delta::Delta;
use std::alloc::Global;
use std::marker::Model;

/// All that the next [`Doc::put`](crate::Doc::put) needs: how long the text is, how many of its
/// characters are kept, how many behind them give way, and those that come.
#[derive(Drop)]
pub struct ReadyText {
    base: usize,
    kept: usize,
    removed: usize,
    middle: Vec<char>,
    // How long the text is then.
    len: usize,
    // An empty list with room for the chunks that the text has then, whatever chunks it has now.
    list: Vec<Chunk>,
    // Chunks for the characters that come, and one for those that stay of a chunk that is cut in
    // two.
    spare: Vec<Chunk>,
}

impl Model for ReadyText {
    ghost use Rattle.sporc_text.specs.ReadyTextModel.{ReadyTextModel};

    ghost Value = { ReadyTextModel };

    ghost use Rattle.sporc_text.specs.ReadyFields.{ready_of, ReadyInvariant};

    ghost view = { ready_of };

    ghost invariant = { ReadyInvariant };
}

impl ReadyText {
    // What a delta makes of a text.
    pub(crate) fn new(alloc: Global, chunks: &[Chunk], delta: &Delta) -> Result<ReadyText, Memory>
        requires { base_len delta.now ≡ length (concat chunks.now) }
        ensures ok { IfOk result
            (λ r. rewritten r (concat chunks.now) ≡ apply delta.now (concat chunks.now)) }
    {
        let base = delta.base_len() as usize;
        let (kept, parts, left) = changes(delta);
        let kept = kept as usize;
        let stays = kept + left as usize;
        let room = Vec::with_capacity(alloc, delta.out_len() as usize - stays)?;
        let middle = edited(room, chunks, kept, parts)?;
        let len = stays + middle.len();
        let list = Vec::with_capacity(alloc, len / MEAN_CHUNK + 2)?;
        let spare = empty_chunks(alloc, middle.len().div_ceil(MAX_CHUNK) + 1)?;
        Ok(ReadyText {
            base,
            kept,
            removed: base - stays,
            middle,
            len,
            list,
            spare,
        })
    }

    // How long the text is to be.
    pub(crate) fn base(&self) -> usize
        ensures { result ≡ self.now.base }
    {
        self.base
    }

    // Rewrites the chunks of a text of this length, and says how long it is then.
    pub(crate) fn put_into(self, chunks: &mut Vec<Chunk>) -> usize
        requires chunks { AreChunks chunks.old.items }
        requires base { length (concat chunks.old.items) ≡ self.base }
        ensures chunks { AreChunks chunks.new.items }
        ensures value { concat chunks.new.items
            ≡ replaced self.kept self.removed self.middle (concat chunks.old.items) }
        ensures len { result ≡ length (concat chunks.new.items) }
    {
        let ReadyText {
            base: _,
            kept,
            removed,
            middle,
            len,
            list,
            spare,
        } = self;
        let mut spare = spare;
        let one = spare.pop().unwrap();
        let (i, kept) = find(chunks.as_slice(), kept);
        let splice = Splice {
            kept,
            removed,
            middle: middle.as_slice(),
        };
        rewrite(chunks, i, &splice, list, one, spare);
        len
    }
}

// So many chunks without characters.
fn empty_chunks(alloc: Global, count: usize) -> Result<Vec<Chunk>, Memory>
    ensures { IfOk result (λ v. vec_len v ≡ count) }
{
    let mut chunks = Vec::with_capacity(alloc, count)?;
    for _ in 0..count {
        chunks.push(Chunk::new(alloc)?)?;
    }
    Ok(chunks)
}
