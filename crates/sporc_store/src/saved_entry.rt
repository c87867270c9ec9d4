//! An entry where it stands in a file.

ghost use Rattle.std.specs.Prelude.{◌≡◌, IfSome, IfOk};
ghost use Rattle.sporc_head.specs.Examined.{IsExact};

use sporc_base::Memory;
use sporc_head::Verdict;
use std::alloc::Global;
use std::marker::Model;

// An entry where it stands in a file, with the key that its author is foretold to have, and what
// the examination of its signature found, if there was one. A key that is foretold wrongly does no
// harm: a verdict names its key.
//
// Contracts see the entry's bytes.
#[derive(Drop)]
pub(crate) struct SavedEntry<'a> {
    bytes: &'a [u8],
    key: Option<[u8; 56]>,
    verdict: Option<Verdict>,
}

impl<'a> Model for SavedEntry<'a> {
    ghost use Rattle.std.specs.Prelude.{ℕ, List, IfSome};
    ghost use Rattle.sporc_head.specs.Examined.{IsExact};

    ghost Value = { List ℕ };

    ghost view = { λ e. e.bytes.now };

    ghost invariant = { λ e. IfSome e.verdict (λ verdict. IsExact verdict e.bytes.now) };
}

impl<'a> SavedEntry<'a> {
    // An entry of which nothing is known.
    pub(crate) fn new(bytes: &'a [u8]) -> SavedEntry<'a>
        ensures { result ≡ bytes.entry.now }
    {
        SavedEntry {
            bytes,
            key: None,
            verdict: None,
        }
    }

    // Its bytes.
    pub(crate) fn bytes(&self) -> &'a [u8]
        ensures { result.now ≡ self.now }
    {
        self.bytes
    }

    // What the examination of its signature found.
    pub(crate) fn verdict(&self) -> Option<&Verdict>
        ensures { IfSome result (λ verdict. IsExact verdict.now self.now) }
    {
        self.verdict.as_ref()
    }

    // Foretells the key of its author's device.
    pub(crate) fn foretell(&mut self, key: Option<[u8; 56]>)
        ensures { self.new ≡ self.old }
    {
        self.key = key;
    }

    // Examines its signature under the key that was foretold, if one was.
    pub(crate) fn examine(&self, alloc: Global) -> Result<Option<Verdict>, Memory>
        ensures { IfOk result (λ found. IfSome found (λ verdict. IsExact verdict self.now)) }
    {
        match &self.key {
            Some(key) => {
                let verdict = Verdict::of(alloc, key, self.bytes)?;
                Ok(Some(verdict))
            }
            None => Ok(None),
        }
    }

    // Keeps what the examination of its signature found.
    pub(crate) fn learn(&mut self, found: Option<Verdict>)
        requires { IfSome found (λ verdict. IsExact verdict self.old) }
        ensures { self.new ≡ self.old }
    {
        self.verdict = found;
    }
}
