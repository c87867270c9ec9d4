//! A member at one of its devices.

use sporc_entry::Genesis;
use sporc_keys::RingFile;
use sporc_member::Device;

/// A member of a document, at one of its devices.
#[derive(Drop)]
pub struct Member {
    pub genesis: Genesis,
    pub device: Device,
    /// The keys that the member has from the beginning: its devices share them.
    pub ring: RingFile,
    /// The bytes of the history that the device saved, if it did.
    pub saved: Option<Vec<u8>>,
}
