//! The bodies of edits.

ghost use Rattle.std.specs.Prelude.{◌≡◌, ◌≤◌, length, Some, IfOk, is_some};
ghost use Rattle.sporc_base.specs.FirstFault.{AnswersUnless, unless};
ghost use Rattle.sporc_cipher.specs.Mask.{mask_of};
ghost use Rattle.sporc_delta.specs.declared.limits.TheConstants.{MAX_DELTA_BYTES};
ghost use Rattle.sporc_line.specs.Operations.{marks_in};
ghost use Rattle.sporc_line.specs.Payload.{payload_refusal};

use sporc_base::Memory;
use sporc_cipher::mask;
use sporc_delta::{Delta, DeltaFault};
use sporc_head::Refusal;
use std::alloc::Global;

/// The delta that a masked body holds under its epoch's key, by the stream of its entry.
pub fn read_payload(
    alloc: Global,
    key: &[u8; 32],
    stream: u64,
    body: &[u8],
) -> Result<Delta, Refusal>
    requires { length body.now ≤ MAX_DELTA_BYTES }
    ensures fault { AnswersUnless Refusal.Memory result
        (unless (is_some (marks_in key.now stream body.now)) Refusal.BadPayload) }
    ensures ok { IfOk result (λ delta. marks_in key.now stream body.now ≡ Some delta) }
{
    let bytes = unmasked(alloc, key, stream, body)?;
    match Delta::decode(alloc, bytes.as_slice()) {
        Ok(delta) => Ok(delta),
        Err(fault) => Err(refusal_of(fault)),
    }
}

// A body with its mask taken off.
fn unmasked(alloc: Global, key: &[u8; 32], stream: u64, body: &[u8]) -> Result<Vec<u8>, Memory>
    ensures ok { IfOk result (λ bytes. bytes.items ≡ mask_of key.now stream body.now) }
{
    let mut bytes = Vec::from_slice(alloc, body)?;
    mask(key, stream, bytes.as_mut_slice());
    Ok(bytes)
}

// The refusal of a body that is no delta.
fn refusal_of(fault: DeltaFault) -> Refusal
    ensures value { result ≡ payload_refusal fault }
{
    match fault {
        DeltaFault::Memory => Refusal::Memory,
        _ => Refusal::BadPayload,
    }
}
