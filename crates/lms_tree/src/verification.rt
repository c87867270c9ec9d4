//! The verification of signatures.

ghost use Rattle.std.specs.Prelude.{◌≡◌, ◌*◌, ◌^◌, ◌<◌, ◌↔◌, ◌++◌, length, IsTrue};
ghost use Rattle.lms_tree.specs.LmsType.{height_of};
ghost use Rattle.lms_tree.specs.Verification.{HasForm, Verifies, root_from, root_in, verifies};

use crate::fields::u32_at;
use crate::nodes::{ancestor_value, leaf_value};
use crate::public_key::LmsPublic;
use lms_ots::ots_candidate_key;
use sporc_base::is_same;

// Whether a signature has the length that the key's types give, a leaf of the tree and the key's
// type codes.
fn has_form(key: &LmsPublic, signature: &[u8]) -> bool
    ensures { IsTrue result ↔ HasForm key.now signature.now }
{
    let height = key.lms.height();
    let ots_len = key.ots.signature_len();
    if signature.len() != 8 + ots_len + 32 * height as usize {
        return false;
    }
    if u32_at(signature, 0) >= 1u32 << height {
        return false;
    }
    if u32_at(signature, 4) != key.ots.code() {
        return false;
    }
    u32_at(signature, 4 + ots_len) == key.lms.code()
}

// The root to which a one-time public key at leaf `q` leads.
fn root_from(key: &LmsPublic, q: u32, path: &[u8], candidate: &[u8; 32]) -> [u8; 32]
    requires limit { q < 2 ^ height_of key.now.lms }
    requires size { length path.now ≡ 32 * height_of key.now.lms }
    ensures { result ≡ root_from key.now q path.now candidate.now }
{
    let height = key.lms.height();
    let r = (1u32 << height) + q;
    let leaf = leaf_value(&key.id, r, candidate);
    ancestor_value(&key.id, r, leaf, path, height)
}

// The root to which a signature of `prefix` and then `message` leads.
fn root_in(key: &LmsPublic, prefix: &[u8], message: &[u8], signature: &[u8]) -> [u8; 32]
    requires { HasForm key.now signature.now }
    ensures { result ≡ root_in key.now (prefix.now ++ message.now) signature.now }
{
    let q = u32_at(signature, 0);
    let ots_end = 4 + key.ots.signature_len();
    let ots_signature = &signature[4..ots_end];
    let candidate = ots_candidate_key(key.ots, &key.id, q, prefix, message, ots_signature);
    root_from(key, q, &signature[ots_end + 4..], &candidate)
}

/// Whether a signature of a message verifies under a key (RFC 8554, section 5.4.2): it has exactly
/// the length that the key's types give, it has the key's type codes and a leaf of the tree, and
/// its one-time signature and its path lead to the key's root.
pub fn verify(key: &LmsPublic, message: &[u8], signature: &[u8]) -> bool
    ensures value { result ≡ verifies key.now message.now signature.now }
    ensures meaning { IsTrue result ↔ Verifies key.now message.now signature.now }
{
    verify_parts(key, &[], message, signature)
}

/// Whether a signature of the message that is `prefix` and then `message` verifies under a key, as
/// `verify` says it of the whole: so a message that stands in two places is verified where it
/// stands.
pub fn verify_parts(key: &LmsPublic, prefix: &[u8], message: &[u8], signature: &[u8]) -> bool
    ensures value { result ≡ verifies key.now (prefix.now ++ message.now) signature.now }
    ensures meaning { IsTrue result ↔ Verifies key.now (prefix.now ++ message.now) signature.now }
{
    has_form(key, signature) && is_same(&root_in(key, prefix, message, signature), &key.root)
}
