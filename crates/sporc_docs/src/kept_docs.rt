//! Documents with their tails.

use crate::docs::Docs;
use sporc_order::Tail;

/// Documents, and the tail that keeps the entries of each, in their order.
#[derive(Drop)]
pub struct KeptDocs<T: Tail> {
    pub docs: Docs,
    pub tails: Vec<T>,
}
