//! Chances of listed words.

use crate::memory::calls;
use hex::FromHex;
use sporc_base::put_at;
use sporc_memory::ListedChance;
use std::alloc::Global;
use std::process::Abort;

/// The words of a chance.
pub type Words = Vec<[u8; 32]>;

/// Appends the words of a key: its identifier with bytes behind it that no key has, and its seed.
pub fn push_key(rt: &impl Abort, words: &mut Words, id: &str, seed: &str) {
    let mut first = [0xff; 32];
    put_at(&mut first, 0, &<[u8; 16]>::from_hex(id).expect(rt, "bytes"));
    push_word(rt, words, first);
    push_word(rt, words, <[u8; 32]>::from_hex(seed).expect(rt, "bytes"));
}

fn push_word(rt: &impl Abort, words: &mut Words, word: [u8; 32]) {
    words.push(word).expect(rt, "memory");
}

/// Appends eight words of bytes 1 to 8.
pub fn push_eight(rt: &impl Abort, words: &mut Words) {
    for byte in 1..9 {
        push_word(rt, words, [byte; 32]);
    }
}

/// A chance of which this call fails, counted from 1, or none with 0, in a box: a function that
/// owns it itself is slow to prove.
pub fn chance(rt: &impl Abort, alloc: Global, words: Words, failing: u64) -> Box<ListedChance> {
    let chance = ListedChance::new(words, calls(rt, alloc, failing));
    Box::new(alloc, chance).expect(rt, "memory")
}
