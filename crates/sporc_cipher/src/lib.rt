//! Masks: exclusive or with a ChaCha20 stream.
//!
//! A stream is named by a key of 32 bytes and a number of 64 bits. It has the cipher's original
//! layout: the words 12 and 13 of the state are the 64-bit block number, from 0, and the words 14
//! and 15 the 64-bit stream number, the low word first in each. Constants, key, rounds and final
//! addition are those of RFC 8439. A mask hides what it is put on as long as no key and stream
//! number mask two texts; keeping the numbers apart is up to the caller.
//!
//! ```rust
//! let mut bytes = *b"hello";
//! mask(&key, 3, &mut bytes);      // hidden
//! mask(&key, 3, &mut bytes);      // b"hello" again
//! ```
//!
//! Proved: the mask is exactly the exclusive or with that stream, written as a definition from the
//! RFC's text in `specs/`; a mask put on twice is taken off ([`laws`]). Only tested: that this
//! definition gives the streams that OpenSSL gives. Neither: that nobody can tell a masked text
//! from chance.
#![tactic(auto)]

ghost use Rattle.std.specs.Prelude.{◌≡◌, ◌≤◌, length, bit_xor, slice_index, EachIndex};
ghost use Rattle.std.specs.Int.{w32, to_le_bytes};
ghost use Rattle.sporc_cipher.specs.Mask.{mask_of};

use rand_chacha::ChaCha20Rng;
use rand_core::SeedableRng;
use rand_core::utils::NextWord;

pub mod laws;

/// Masks the bytes under a key, from the first byte of the stream of that number on. A second call
/// takes the mask off again ([`laws::mask_twice`]).
pub fn mask(key: &[u8; 32], stream: u64, bytes: &mut [u8])
    ensures masked { bytes.new ≡ mask_of key.now stream bytes.old }
{
    let mut rng = ChaCha20Rng::from_seed(*key);
    rng.set_stream(stream);
    let whole = bytes.len() / 4;
    'words: for i in 0..whole {
        mask_piece(&mut bytes[4 * i..4 * i + 4], rng.next_word());
    }
    if 4 * whole < bytes.len() {
        mask_piece(&mut bytes[4 * whole..], rng.next_word());
    }
}

// Masks up to four bytes with one word of the stream, low byte first.
fn mask_piece(piece: &mut [u8], word: u32)
    requires { length piece.old ≤ 4 }
    ensures { EachIndex piece.old (λ i. slice_index piece.new i
        ≡ bit_xor (slice_index piece.old i) (slice_index (to_le_bytes w32 word) i)) }
{
    let word = word.to_le_bytes();
    'bytes: for i in 0..piece.len() {
        piece[i] ^= word[i];
    }
}
