//! What the log of a server's order is of.

use sporc_base::Bytes;
use sporc_entry::Genesis;

/// An item of the log that the sessions share.
#[derive(Drop)]
pub enum Item {
    /// The document that is served.
    Opened { genesis: Genesis },
    /// An entry of its order, and the number of the pass that submitted it, 0 for those handed in.
    Placed { by: u32, entry: Bytes },
}
