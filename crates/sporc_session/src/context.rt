//! What the threads of a session share.

use sporc_outside::LeafDisk;
use sporc_shared::SharedClient;
use std::alloc::Global;

// What runs threads and waits, where memory comes from, the client, and the gate that is called
// between steps.
#[derive(Drop)]
pub(crate) struct Context<'a, R, D: LeafDisk, G> {
    pub rt: &'a R,
    pub alloc: Global,
    pub shared: &'a SharedClient<D>,
    pub gate: &'a G,
}
