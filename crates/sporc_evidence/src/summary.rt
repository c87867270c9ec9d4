//! Summaries of histories.

ghost use Rattle.std.specs.Prelude.{◌≡◌};
ghost use Rattle.sporc_evidence.specs.Summary.{IsChainLong};

use sporc_hash::Digest32;
use std::marker::Model;

/// A summary of a history: the values of its chain, as a member signed them.
#[derive(Drop)]
pub struct Summary {
    pub(crate) document: [u8; 16],
    pub(crate) author: u16,
    pub(crate) device: u8,
    pub(crate) hashes: Vec<Digest32>,
}

impl Model for Summary {
    ghost use Rattle.sporc_evidence.specs.Summary.{IsChainLong, SummaryModel};

    ghost Value = { SummaryModel };

    ghost view = { λ s. record {
      document = s.document;
      author = s.author;
      device = s.device;
      hashes = s.hashes.items;
    } };

    ghost invariant = { λ s. IsChainLong s.hashes.items };
}

impl Summary {
    /// The number of the member that signed it.
    pub fn author(&self) -> u16
        ensures value { result ≡ self.now.author }
    {
        self.author
    }

    /// The values of the chain after 0, 1, .. and all entries.
    pub fn hashes(&self) -> &[Digest32]
        ensures value { result.now ≡ self.now.hashes }
        ensures range { IsChainLong result.now }
    {
        self.hashes.as_slice()
    }
}
