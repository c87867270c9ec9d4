//! Entries that come.

ghost use Rattle.std.specs.Prelude.{map};
ghost use Rattle.sporc_round.specs.Taking.{TakesAll, TakesOne};

use crate::fault::RoundFault;
use sporc_client::Client;
use sporc_outside::LeafDisk;

// Accepts an entry behind those that there are.
#[tactic(auto, using(crate::proofs::Taken::no_events))]
fn take_one<D: LeafDisk>(client: &mut Client<D>, entry: &[u8]) -> Result<(), RoundFault>
    ensures takes { TakesOne client.old client.new entry.now result }
{
    let position = client.heads().len() + 1;
    match client.accept(0, position, entry) {
        Ok(_) => Ok(()),
        Err(cause) => Err(RoundFault::Accept(position, cause)),
    }
}

// Accepts entries behind those that there are, up to one that removes the member or drops the
// device.
#[tactic(auto, using(crate::proofs::Taken::takes_none, crate::proofs::Taken::takes_no_more, crate::proofs::Taken::first_stops, crate::proofs::Taken::first_then))]
pub(crate) fn take_all<D: LeafDisk>(
    client: &mut Client<D>,
    entries: &[Vec<u8>],
) -> Result<(), RoundFault>
    ensures takes { TakesAll client.old client.new (map (λ v. v.items) entries.now) result }
{
    let Some((entry, more)) = entries.split_first() else {
        return Ok(());
    };
    if client.removed() {
        return Ok(());
    }
    take_one(client, entry.as_slice())?;
    take_all(client, more)
}
