//! What serves the sessions of an order.

use crate::desk::Desk;
use sporc_order::Tail;
use sporc_turn::Turn;
use std::alloc::Global;

/// What serves each session of one order: the runtime, memory, the lock round the order, and the
/// gate.
#[derive(Drop)]
pub struct Service<'a, R, G, T: Tail> {
    pub rt: &'a R,
    pub alloc: Global,
    pub turn: &'a Turn<Desk<T>>,
    pub gate: &'a G,
}
