//! The founders of a document, as those who sign evidence.

ghost use Rattle.std.specs.Prelude.{◌≡◌, ◌∷◌, ◌==◌, find};
ghost use Rattle.lms_tree.specs.LmsPublic.{public_key_in};
ghost use Rattle.sporc_head.specs.HeadChecks.{verifies_under};
ghost use Rattle.sporc_evidence.specs.Evidence.{founder_key};

use lms_tree::{LmsPublic, verify_parts};
use sporc_entry::Genesis;
use sporc_member::{FIRST_DEVICE, Founder};

// The founder with this number.
fn find_founder(founders: &[Founder], member: u16) -> Option<Founder>
    ensures { result ≡ find (λ f. f.member == member) founders.now }
{
    founders.iter().copied().find(|f| f.member == member)
}

// The key of a founder, if this is the first device of one.
pub(crate) fn founder_key(genesis: &Genesis, author: u16, device: u8) -> Option<[u8; 56]>
    ensures { result ≡ founder_key genesis.now author device }
{
    if device != FIRST_DEVICE {
        return None;
    }
    match find_founder(genesis.founders.as_slice(), author) {
        None => None,
        Some(founder) => Some(founder.key),
    }
}

// Whether a signature of byte 6 and these bytes verifies under the bytes of a key.
pub(crate) fn verifies_under(signed: &[u8], signature: &[u8], key: &[u8; 56]) -> bool
    ensures { result ≡ verifies_under (6 ∷ signed.now) signature.now (public_key_in key.now) }
{
    match LmsPublic::from_bytes(key) {
        Some(key) => verify_parts(&key, &[6], signed, signature),
        None => false,
    }
}
