//! Signatures, and the public keys to which they lead.

ghost use Rattle.std.specs.Prelude.{◌≡◌, ◌≢◌, ◌↔◌, ◌++◌, length, IfOk, IsErrOf};
ghost use Rattle.lms_ots.specs.OtsType.{ots_code_of, ots_signature_len_of};
ghost use Rattle.lms_ots.specs.Signatures.{candidate_key, code_in, message_digest};
ghost use Rattle.lms_ots.specs.Signatures.{ots_candidate_of, ots_public_of, ots_signature_of};

use crate::chains::{chain, secret_part};
use crate::coefficients::{coef, with_checksum};
use crate::ots_type::OtsType;
use crate::public_key::public_hasher;
use sha2::{Digest, Sha256};
use sporc_base::Memory;
use std::alloc::Global;
use thiserror::Error;

/// What is wrong with the form of a signature.
#[derive(Clone, Copy, Debug, PartialEq, Eq, Error)]
pub enum OtsFault {
    #[error("the signature begins with the code of another type")]
    BadType,
    #[error("the signature has not its type's length")]
    BadLength,
}

// The digest of `prefix` and `message`, one message, under the randomizer `c`.
fn message_digest(id: &[u8; 16], q: u32, c: &[u8], prefix: &[u8], message: &[u8]) -> [u8; 32]
    ensures { result ≡ message_digest id.now q c.now (prefix.now ++ message.now) }
{
    let mut hasher = Sha256::new();
    hasher.update(id);
    hasher.update(q.to_be_bytes());
    hasher.update([0x81u8, 0x81]);
    hasher.update(c);
    hasher.update(prefix);
    hasher.update(message);
    hasher.finalize()
}

/// The signature of a message by leaf `q` of the tree `id` (RFC 8554, section 4.5): the type code,
/// the randomizer `c`, which should be unpredictable and used once, and `p` parts of 32 bytes.
pub fn ots_sign(
    alloc: Global,
    t: OtsType,
    id: &[u8; 16],
    q: u32,
    seed: &[u8; 32],
    c: &[u8; 32],
    message: &[u8],
) -> Result<Vec<u8>, Memory>
    ensures value { IfOk result
        (λ v. v.items ≡ ots_signature_of t id.now q seed.now c.now message.now) }
    ensures leads_to_public { IfOk result (λ v.
        ots_candidate_of t id.now q message.now v.items ≡ Ok (ots_public_of t id.now q seed.now)) }
{
    let string = with_checksum(&message_digest(id, q, c, &[], message), t);
    let w = t.w();
    let mut signature = Vec::with_capacity(alloc, t.signature_len())?;
    signature.extend_from_slice(&t.code().to_be_bytes())?;
    signature.extend_from_slice(c)?;
    'parts: for i in 0..t.p() {
        let index = i as u16;
        let steps = coef(&string, i, w);
        let part = chain(id, q, index, 0, steps, secret_part(id, q, index, seed));
        signature.extend_from_slice(&part)?;
    }
    Ok(signature)
}

/// The public key to which a signature of its type's length leads, where `prefix` and then
/// `message` were signed as one message: steps 3 and 4 of algorithm 4b of RFC 8554, section 4.6.
pub fn ots_candidate_key(
    t: OtsType,
    id: &[u8; 16],
    q: u32,
    prefix: &[u8],
    message: &[u8],
    signature: &[u8],
) -> [u8; 32]
    requires { length signature.now ≡ ots_signature_len_of t }
    ensures value { result ≡ candidate_key t id.now q (prefix.now ++ message.now) signature.now }
{
    let digest = message_digest(id, q, &signature[4..36], prefix, message);
    let string = with_checksum(&digest, t);
    let greatest = t.greatest();
    let w = t.w();
    let mut hasher = public_hasher(id, q);
    'parts: for i in 0..t.p() {
        let start = 36 + 32 * i;
        let mut part = [0u8; 32];
        part.copy_from_slice(&signature[start..start + 32]);
        let from = coef(&string, i, w);
        hasher.update(chain(id, q, i as u16, from, greatest, part));
    }
    hasher.finalize()
}

/// The public key to which a signature of a message leads (RFC 8554, section 4.6, algorithm 4b):
/// the signature verifies where that is the signer's. The length is looked at first.
pub fn ots_candidate(
    t: OtsType,
    id: &[u8; 16],
    q: u32,
    message: &[u8],
    signature: &[u8],
) -> Result<[u8; 32], OtsFault>
    ensures value { result ≡ ots_candidate_of t id.now q message.now signature.now }
    ensures bad_length { IsErrOf result OtsFault.BadLength
        ↔ (length signature.now ≢ ots_signature_len_of t) }
    ensures bad_type { IsErrOf result OtsFault.BadType
        ↔ ((length signature.now ≡ ots_signature_len_of t)
        × (code_in signature.now ≢ ots_code_of t)) }
{
    if signature.len() != t.signature_len() {
        return Err(OtsFault::BadLength);
    }
    let mut code = [0u8; 4];
    code.copy_from_slice(&signature[..4]);
    if u32::from_be_bytes(code) != t.code() {
        return Err(OtsFault::BadType);
    }
    Ok(ots_candidate_key(t, id, q, &[], message, signature))
}
