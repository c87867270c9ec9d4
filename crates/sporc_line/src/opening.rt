//! The key that a member opens a document with.

ghost use Rattle.std.specs.Prelude.{◌≡◌, Some, IfOk};
ghost use Rattle.sporc_base.specs.FirstFault.{Answers, first_of};
ghost use Rattle.sporc_hash.specs.Chain.{commitment_of};
ghost use Rattle.sporc_line.specs.Openings.{open_checks};

use crate::fault::LineOpenFault;
use sporc_base::is_same;
use sporc_entry::Genesis;
use sporc_hash::commit;

/// A ring's key of epoch 0, if it has one and the key meets the commitment of the genesis.
pub(crate) fn opening_key(
    genesis: &Genesis,
    key: Option<[u8; 32]>,
) -> Result<[u8; 32], LineOpenFault>
    ensures fault { Answers result (first_of (open_checks genesis.now key)) }
    ensures value { IfOk result (λ k. key ≡ Some k) }
    ensures meets { IfOk result
        (λ k. commitment_of genesis.now.document 0 k ≡ genesis.now.commitment) }
{
    let Some(key) = key else {
        return Err(LineOpenFault::NoKey);
    };
    if !is_same(&commit(&genesis.document, 0, &key), &genesis.commitment) {
        return Err(LineOpenFault::WrongKey);
    }
    Ok(key)
}
