//! The checks of an entry against its author.

ghost use Rattle.std.specs.Prelude.{◌≡◌, ◌∷◌, Some, IfSome};
ghost use Rattle.lms_tree.specs.LmsPublic.{public_key_in};
ghost use Rattle.sporc_base.specs.FirstFault.{Answers, first_of};
ghost use Rattle.sporc_head.specs.Examined.{IsExactOf, is_signed_under};
ghost use Rattle.sporc_head.specs.HeadChecks.{author_checks, allows, names_leaf, verifies_under};

use crate::examined::Verdict;
use crate::refusal::Refusal;
use lms_tree::{LmsPublic, verify_parts};
use sporc_base::is_same;
use sporc_entry::{EDIT, EntryView};
use sporc_member::{Member, Role};

/// The author of an entry, with the key of the device that signs it.
#[derive(Clone, Copy)]
pub struct Author {
    /// Its number and its role.
    pub member: Member,
    /// The public key of the device.
    pub key: [u8; 56],
}

/// The checks of an entry against its author: that its role allows an entry of this kind, that the
/// header names the leaf of the signature, and that this verifies under the key of its device. A
/// verdict that was found before, under that key, is taken as it is.
pub fn check_author(
    author: &Author,
    entry: &EntryView<'_>,
    known: Option<&Verdict>,
) -> Result<(), Refusal>
    requires exact { IfSome known (λ v. IsExactOf v.now entry.now.entry) }
    ensures fault { Answers result
        (first_of (author_checks (Some author.now.member) (Some author.now.key) entry.now.entry)) }
{
    let header = entry.header();
    if !allows(author.member.role, header.kind) {
        return Err(Refusal::NoRight);
    }
    if !names_leaf(header.leaf, entry.signature()) {
        return Err(Refusal::LeafMismatch);
    }
    if !is_signed(entry, &author.key, known) {
        return Err(Refusal::BadSignature);
    }
    Ok(())
}

// Whether the signature of an entry verifies under the bytes of a key: what is known of that key is
// not found anew.
fn is_signed(entry: &EntryView<'_>, key: &[u8; 56], known: Option<&Verdict>) -> bool
    requires exact { IfSome known (λ v. IsExactOf v.now entry.now.entry) }
    ensures { result ≡ is_signed_under key.now entry.now.entry }
{
    match known {
        Some(verdict) if is_same(&verdict.key, key) => verdict.good,
        _ => verifies_under(entry.signed(), entry.signature(), key),
    }
}

/// Whether a role allows an entry of this kind: [`sporc_entry::EDIT`] or [`sporc_entry::CHANGE`].
pub fn allows(role: Role, kind: u8) -> bool
    ensures value { result ≡ allows role kind }
{
    match role {
        Role::Reader => false,
        Role::Editor => kind == EDIT,
        Role::Admin => true,
    }
}

// Whether a signature begins with this leaf number.
fn names_leaf(leaf: u32, signature: &[u8]) -> bool
    ensures { result ≡ names_leaf leaf signature.now }
{
    signature.len() >= 4
        && u32::from_be_bytes([signature[0], signature[1], signature[2], signature[3]]) == leaf
}

// Whether a signature of a string verifies under the bytes of a key: of byte 3 and the part of an
// entry's bytes that its author signs.
pub(crate) fn verifies_under(signed: &[u8], signature: &[u8], key: &[u8; 56]) -> bool
    ensures { result ≡ verifies_under (3 ∷ signed.now) signature.now (public_key_in key.now) }
{
    match LmsPublic::from_bytes(key) {
        Some(key) => verify_parts(&key, &[3], signed, signature),
        None => false,
    }
}
