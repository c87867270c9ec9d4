//! The journal of a client, counted.

ghost use Rattle.std.specs.Prelude.{◌≡◌, ◌≤◌, length, true};
ghost use Rattle.sporc_client.specs.declared.limits.TheConstants.{MAX_EVENTS};
ghost use Rattle.sporc_client.specs.Allowed.{is_allowed};
ghost use Rattle.sporc_client.specs.ClientModel.{Rise, first_leaf_of, leaves_of, state_of};
ghost use Rattle.sporc_client.specs.Soundness.{IsSound};

use sporc_client::Client;
use sporc_outside::LeafDisk;

// How many events the journal has.
#[tactic(auto, using(crate::proofs::Journals::length_journal))]
pub(crate) fn count_events<D: LeafDisk>(client: &Client<D>) -> u64
    ensures value { result ≡ length client.now.log }
    ensures within { result ≤ MAX_EVENTS }
    ensures allowed { is_allowed client.now.opening client.now.log ≡ true }
    ensures sound { IsSound (state_of client.now) }
    ensures leaves { Rise (first_leaf_of client.now) client.now.leaves.next
        (leaves_of client.now.log) }
{
    client.journal().len() as u64
}
