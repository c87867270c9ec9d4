//! The hash chains of a one-time key. Each string that is hashed here has 55 bytes, the most that
//! one compression of SHA-256 takes: I, q, the chain's number `i`, a byte and 32 bytes more. Its
//! first 22 bytes are written once for a chain.

ghost use Rattle.std.specs.Prelude.{◌≡◌, ◌-◌, ◌≤◌, ◌∷◌, ◌++◌, take};
ghost use Rattle.sha2.specs.Sha256.{sha256};
ghost use Rattle.lms_ots.specs.Chains.{chain_front, chain_of, secret_part};

use sha2::{Digest, Sha256};
use sporc_base::put_at;

// The bytes of a string that is hashed.
const STRING_LEN: usize = 55;

// The string of chain `i`, with what all its steps hash.
fn chain_string(id: &[u8; 16], q: u32, i: u16) -> [u8; STRING_LEN]
    ensures { take 22 result ≡ chain_front id.now q i }
{
    let mut string = [0u8; STRING_LEN];
    put_at(&mut string, 0, id);
    put_at(&mut string, 16, &q.to_be_bytes());
    put_at(&mut string, 20, &i.to_be_bytes());
    string
}

// The digest of the string with `j` and `value` after its first 22 bytes.
fn step(string: &mut [u8; STRING_LEN], j: u8, value: &[u8; 32]) -> [u8; 32]
    ensures front { take 22 string.new ≡ take 22 string.old }
    ensures value { result ≡ sha256 (take 22 string.old ++ j ∷ value.now) }
{
    string[22] = j;
    string[23..].copy_from_slice(value);
    Sha256::digest(&*string)
}

// The start of chain `i`.
pub(crate) fn secret_part(id: &[u8; 16], q: u32, i: u16, seed: &[u8; 32]) -> [u8; 32]
    ensures { result ≡ secret_part id.now q i seed.now }
{
    let mut string = chain_string(id, q, i);
    step(&mut string, 0xff, seed)
}

// The steps `from`, .., `to - 1` of chain `i`.
pub(crate) fn chain(id: &[u8; 16], q: u32, i: u16, from: u8, to: u8, start: [u8; 32]) -> [u8; 32]
    requires { from ≤ to }
    ensures { result ≡ chain_of id.now q i from (to - from) start }
{
    let mut string = chain_string(id, q, i);
    let mut value = start;
    'steps: for j in from..to {
        value = step(&mut string, j, &value);
    }
    value
}
