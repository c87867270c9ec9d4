//! The client under the lock.

use crate::item::Item;
use crate::journal::count_events;
use sporc_client::Client;
use sporc_outside::LeafDisk;
use sporc_turn::Kept;

// The client under the lock, in a box, so that each turn moves a pointer alone. Its log begins with
// what the client was opened with, and goes on with its events; its watermark is how many faults
// the disk of its leaves counted.
#[derive(Drop)]
pub struct Desk<D: LeafDisk> {
    pub client: Box<Client<D>>,
}

impl<D: LeafDisk> Kept for Desk<D> {
    type Item = Item;

    ghost use Rattle.sporc_shared.specs.Items.{by_of, disk_faults, items_of, past_of};

    ghost log = { λ d. items_of (past_of d.client.value) };

    ghost by = { by_of };

    ghost watermark = { λ d. disk_faults D.told d.client.value };

    fn logged(&self) -> u64 {
        count_events(&self.client) + 1
    }
}
