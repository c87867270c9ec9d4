//! An order with its tail.

use sporc_order::{Order, Tail};

/// An order, and the tail that keeps its entries.
#[derive(Drop)]
pub struct KeptOrder<T: Tail> {
    pub order: Order,
    pub tail: T,
}
