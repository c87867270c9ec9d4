//! Rings of epoch keys.

ghost use Rattle.std.specs.Prelude.{◌≡◌, ◌+◌, ◌<◌, ◌≤◌, IfOk, IsOk, OnOk, OnErr, option_copied};
ghost use Rattle.std.specs.FinMap as map;

use sporc_base::Memory;
use std::alloc::Global;
use std::collections::HashMap;
use std::marker::Model;

/// The keys of epochs, of 32 bytes each, seen as the map from an epoch's number to its key, with
/// how many more keys it takes without memory.
#[derive(Drop)]
pub struct Ring {
    keys: HashMap<u32, [u8; 32]>,
}

impl Model for Ring {
    ghost use Rattle.sporc_epoch.specs.RingModel.{RingModel, ring_code};

    ghost Value = { RingModel };

    ghost coded = { ring_code };

    ghost use Rattle.std.specs.HashMap.{spare};
    ghost use Rattle.std.specs.FinMap as map;

    ghost view = { λ r. record { keys = map.from_entries r.keys.entries; spare = spare r.keys } };
}

impl Ring {
    /// A ring without keys.
    pub fn new(alloc: Global) -> Ring
        ensures value { result.keys ≡ map.empty }
    {
        Ring {
            keys: HashMap::new(alloc),
        }
    }

    /// The key of an epoch.
    pub fn key(&self, epoch: u32) -> Option<&[u8; 32]>
        ensures value { option_copied result ≡ map.get self.now.keys epoch }
    {
        self.keys.get(&epoch)
    }

    /// Takes the memory of the next [`Ring::put`].
    pub fn reserve(&mut self) -> Result<(), Memory>
        ensures ok { OnOk result (0 < self.new.spare) }
        ensures unchanged { self.new.keys ≡ self.old.keys }
    {
        self.keys.reserve(1)
    }

    /// Adds the key of an epoch, in place of one that it had.
    pub fn put(&mut self, epoch: u32, key: [u8; 32]) -> Result<(), Memory>
        ensures ok { OnOk result (self.new.keys ≡ map.insert self.old.keys epoch key) }
        ensures unchanged { OnErr result (self.new.keys ≡ self.old.keys) }
        // With spare room it takes no memory.
        ensures ready { 0 < self.old.spare → IsOk result }
        ensures spare { self.old.spare ≤ self.new.spare + 1 }
    {
        self.keys.insert(epoch, key)?;
        Ok(())
    }

    /// A ring with the same keys.
    pub fn copy(&self) -> Result<Ring, Memory>
        ensures value { IfOk result (λ copy. copy.keys ≡ self.now.keys) }
    {
        let keys = self.keys.clone()?;
        Ok(Ring { keys })
    }
}
