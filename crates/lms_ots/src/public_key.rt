//! Public keys.

ghost use Rattle.std.specs.Prelude.{◌≡◌};
ghost use Rattle.sha2.specs.Hashers.{Holds256};
ghost use Rattle.lms_ots.specs.Signatures.{ots_public_of, public_prefix};

use crate::chains::{chain, secret_part};
use crate::ots_type::OtsType;
use sha2::{Digest, Sha256};

// A hasher that was fed what stands before the parts in a public key's string.
pub(crate) fn public_hasher(id: &[u8; 16], q: u32) -> Sha256
    ensures { Holds256 result (public_prefix id.now q) }
{
    let mut hasher = Sha256::new();
    hasher.update(id);
    hasher.update(q.to_be_bytes());
    hasher.update([0x80u8, 0x80]);
    hasher
}

/// The public key of leaf `q` of the tree `id` (RFC 8554, section 4.3). It runs `p` whole chains:
/// with W4 about 1,100 compressions, with W8 about 8,700.
pub fn ots_public(t: OtsType, id: &[u8; 16], q: u32, seed: &[u8; 32]) -> [u8; 32]
    ensures value { result ≡ ots_public_of t id.now q seed.now }
{
    let greatest = t.greatest();
    let mut hasher = public_hasher(id, q);
    'parts: for i in 0..t.p() {
        let index = i as u16;
        let secret = secret_part(id, q, index, seed);
        hasher.update(chain(id, q, index, 0, greatest, secret));
    }
    hasher.finalize()
}
