//! What a command of a device runs on.

use std::alloc::Global;

/// What runs threads and waits, where memory comes from, and the gate that is called between steps.
#[derive(Drop)]
pub struct Platform<'a, R, G> {
    pub rt: &'a R,
    pub alloc: Global,
    pub gate: &'a G,
}
