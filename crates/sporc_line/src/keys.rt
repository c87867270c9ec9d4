//! The key that a change starts.

ghost use Rattle.std.specs.Prelude.{◌≡◌, Option, Some};
ghost use Rattle.sporc_base.specs.FirstFault.{Answers, first_of};
ghost use Rattle.sporc_line.specs.LineChecks.{is_new_key, new_key_checks};

use crate::kit::is_removal;
use sporc_base::is_same;
use sporc_entry::ChangeBody;
use sporc_epoch::open_previous;
use sporc_hash::commit;
use sporc_head::Refusal;
use sporc_member::Device;

/// The checks of the key of the epoch that a change starts, for a device that holds the key `old`
/// of the epoch before: that there is one, and that it meets the change's commitment and opens the
/// sealed key of that epoch. There is nothing to check where the change removes the device.
pub fn check_new_key(
    document: &[u8; 16],
    me: Device,
    epoch: u32,
    body: &ChangeBody,
    old: Option<[u8; 32]>,
    key: Option<[u8; 32]>,
) -> Result<(), Refusal>
    ensures fault { Answers result
        (first_of (new_key_checks document.now me epoch body.now old key)) }
{
    if is_removal(&body.change, me) {
        return Ok(());
    }
    let Some(key) = key else {
        return Err(Refusal::NoKey);
    };
    if !is_new_key(document, epoch, body, old, &key) {
        return Err(Refusal::WrongKey);
    }
    Ok(())
}

// Whether a key meets the commitment of the change that starts its epoch, and opens the sealed key
// of the epoch before.
fn is_new_key(
    document: &[u8; 16],
    epoch: u32,
    body: &ChangeBody,
    old: Option<[u8; 32]>,
    key: &[u8; 32],
) -> bool
    ensures value { result ≡ is_new_key document.now epoch body.now old (Some key.now) }
{
    let Some(old) = old else {
        return false;
    };
    is_same(&commit(document, epoch, key), &body.commitment)
        && is_same(&open_previous(body, epoch, key), &old)
}
