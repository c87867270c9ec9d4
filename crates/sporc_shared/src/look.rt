//! Clients at a glance.

ghost use Rattle.std.specs.Prelude.{◌≡◌, ◌≤◌, length};
ghost use Rattle.sporc_delta.specs.declared.limits.TheConstants.{MAX_COUNT};
ghost use Rattle.sporc_client.specs.ClientModel.{state_of};
ghost use Rattle.sporc_client.specs.PlainClient.{shown_after, shown_of};
ghost use Rattle.sporc_shared.specs.Items.{past_of};
ghost use Rattle.sporc_shared.specs.Looks.{IsLookAt};

use crate::journal::count_events;
use sporc_client::Client;
use sporc_hash::Digest32;
use sporc_outside::LeafDisk;

/// A client at a glance.
#[derive(Clone, Copy)]
pub struct Look {
    /// How many entries its history has.
    pub at: u32,
    /// How many items are pending.
    pub pending: u32,
    /// How many characters the shown text has.
    pub len: u64,
    /// The last value of the history's chain.
    pub hash: Digest32,
    /// Whether a change removed the member, or dropped the device.
    pub removed: bool,
}

// What is seen of a client.
pub(crate) fn look_at<D: LeafDisk>(client: &Client<D>) -> Look
    ensures { IsLookAt (past_of client.now) result }
{
    let heads = client.heads();
    let at = heads.len();
    Look {
        at,
        pending: client.pending(),
        len: shown_len(client),
        hash: heads.hash_at(at),
        removed: client.removed(),
    }
}

// How many characters the shown text has. The committed text is short, and few items are pending.
fn shown_len<D: LeafDisk>(client: &Client<D>) -> u64
    ensures value { result ≡ length (shown_of (state_of client.now)) }
    ensures front { result ≡ length (shown_after (length client.now.log) (state_of client.now)) }
    ensures within { result ≤ MAX_COUNT }
{
    let _committed = client.committed_len();
    let _pending = client.pending();
    match client.shown_len_at(count_events(client)) {
        Some(len) => len,
        None => unreachable!(),
    }
}
