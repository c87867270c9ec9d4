//! Summaries, read as evidence.

ghost use Rattle.std.specs.Prelude.{◌≡◌, ◌∷◌, ◌≤◌, length, slice_get, Some, IsTrue, IfOk, OnOk};
ghost use Rattle.sporc_base.specs.FirstFault.{AnswersUnless, first_of};
ghost use Rattle.sporc_base.specs.Outcome.{GivesUnless};
ghost use Rattle.sporc_bytes.specs.Fields.{fault_as};
ghost use Rattle.sporc_hash.specs.Chain.{genesis_value};
ghost use Rattle.sporc_entry.specs.Genesis.{IsGenesis, genesis_bytes};
ghost use Rattle.sporc_evidence.specs.Evidence.{begins_with, evidence_checks, evidence_in};
ghost use Rattle.sporc_evidence.specs.SummaryBytes.{signed_string, summary_in};

use crate::fault::EvidenceFault;
use crate::fields::read_fields;
use crate::founders::{founder_key, verifies_under};
use crate::summary::Summary;
use sporc_base::{Memory, is_same};
use sporc_bytes::Cursor;
use sporc_entry::{Genesis, write_genesis};
use sporc_hash::{Digest32, genesis_hash};
use std::alloc::Global;

// What reading found: a summary, the bytes of it that its author signed behind a byte 6, and the
// signature.
#[derive(Drop)]
struct Signed<'a> {
    summary: Summary,
    message: &'a [u8],
    signature: &'a [u8],
}

// The summary and the signature that these bytes spell.
#[tactic(auto, unfolding(crate::specs::SummaryBytes::summary_in))]
fn read_signed<'a>(alloc: Global, bytes: &'a [u8]) -> Result<Signed<'a>, EvidenceFault>
    ensures value { GivesUnless EvidenceFault.Memory (λ s. (s.summary, s.signature.now)) result
        (fault_as EvidenceFault.Malformed (summary_in bytes.now)) }
    ensures message { IfOk result (λ s. 6 ∷ s.message.now ≡ signed_string s.summary) }
{
    let mut cursor = Cursor::new(bytes);
    let summary = read_fields(alloc, &mut cursor)?;
    let message = &bytes[..cursor.at()];
    let signature = cursor.counted(u32::MAX)?;
    cursor.ended()?;
    Ok(Signed {
        summary,
        message,
        signature,
    })
}

// Whether a chain begins with a genesis.
fn begins_with(alloc: Global, hashes: &[Digest32], genesis: &Genesis) -> Result<bool, Memory>
    requires genesis { IsGenesis genesis.now }
    requires positive { 1 ≤ length hashes.now }
    ensures value { IfOk result (λ begins. begins ≡ begins_with hashes.now genesis.now) }
    ensures meaning { IfOk result (λ begins. IsTrue begins
        → slice_get hashes.now 0 ≡ Some (genesis_value (genesis_bytes genesis.now))) }
{
    let bytes = write_genesis(alloc, genesis)?;
    let wanted = genesis_hash(bytes.as_slice());
    let first = hashes[0];
    Ok(is_same(&wanted, &first))
}

// The checks of a summary with its signature.
fn check_signed(alloc: Global, genesis: &Genesis, signed: &Signed<'_>) -> Result<(), EvidenceFault>
    requires genesis { IsGenesis genesis.now }
    requires message { 6 ∷ signed.now.message.now ≡ signed_string signed.now.summary }
    ensures fault { AnswersUnless EvidenceFault.Memory result
        (first_of (evidence_checks genesis.now signed.now.summary signed.now.signature.now)) }
    ensures first { OnOk result (slice_get signed.now.summary.hashes 0
        ≡ Some (genesis_value (genesis_bytes genesis.now))) }
{
    let summary = &signed.summary;
    if !is_same(&summary.document, &genesis.document) {
        return Err(EvidenceFault::WrongDocument);
    }
    if !begins_with(alloc, summary.hashes(), genesis)? {
        return Err(EvidenceFault::WrongGenesis);
    }
    match founder_key(genesis, summary.author, summary.device) {
        None => Err(EvidenceFault::UnknownSigner),
        Some(key) if verifies_under(signed.message, signed.signature, &key) => Ok(()),
        Some(_) => Err(EvidenceFault::BadSignature),
    }
}

// The summary that was read, without its signature.
fn into_summary(signed: Signed<'_>) -> Summary
    ensures { result ≡ signed.entry.summary }
{
    let Signed {
        summary,
        message: _,
        signature: _,
    } = signed;
    summary
}

/// The summary that these bytes spell, if it is evidence for the document of this genesis: one
/// whose chain begins with the genesis, signed by a founder's first device with the key that the
/// genesis names. What became of the founder since does not matter.
#[tactic(auto, unfolding(crate::specs::Evidence::evidence_in))]
pub fn read_summary(
    alloc: Global,
    bytes: &[u8],
    genesis: &Genesis,
) -> Result<Summary, EvidenceFault>
    requires { IsGenesis genesis.now }
    // Which fault it is, unless memory runs out.
    ensures value { GivesUnless EvidenceFault.Memory (λ x. x) result
        (evidence_in genesis.now bytes.now) }
    // Summaries that are read under one genesis begin with one value.
    ensures first { IfOk result
        (λ x. slice_get x.hashes 0 ≡ Some (genesis_value (genesis_bytes genesis.now))) }
{
    let signed = read_signed(alloc, bytes)?;
    match check_signed(alloc, genesis, &signed) {
        Ok(()) => Ok(into_summary(signed)),
        Err(fault) => Err(fault),
    }
}
