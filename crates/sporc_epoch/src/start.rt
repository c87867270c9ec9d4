//! What changes say of the epochs that they start.

ghost use Rattle.std.specs.Prelude.{◌≡◌};
ghost use Rattle.sporc_epoch.specs.Hints.{start_by, is_of, is_committed};

use sporc_base::is_same;
use sporc_entry::CommittedChange;
use sporc_hash::{Digest32, commit};

/// What a change says of the epoch that it starts.
#[derive(Clone, Copy)]
pub(crate) struct EpochStart {
    /// The epoch that it ends, which is the one before.
    pub(crate) ended: u32,
    pub(crate) document: [u8; 16],
    /// The commitment to the epoch's key.
    pub(crate) commitment: Digest32,
    /// The key of the epoch before, sealed under the epoch's.
    pub(crate) previous: [u8; 32],
}

impl EpochStart {
    // What a change says of the epoch that it starts.
    pub(crate) fn by(change: &CommittedChange) -> EpochStart
        ensures value { result ≡ start_by change.now }
    {
        EpochStart {
            ended: change.header.epoch,
            document: change.header.document,
            commitment: change.body.commitment,
            previous: change.body.previous,
        }
    }

    // Whether it is of this epoch.
    pub(crate) fn is_of(&self, epoch: u32) -> bool
        ensures value { result ≡ is_of self.now epoch }
    {
        u64::from(self.ended) + 1 == u64::from(epoch)
    }

    // Whether a key is the one that the change committed to.
    pub(crate) fn is_committed(&self, epoch: u32, key: &[u8; 32]) -> bool
        ensures value { result ≡ is_committed self.now epoch key.now }
    {
        is_same(&commit(&self.document, epoch, key), &self.commitment)
    }
}
