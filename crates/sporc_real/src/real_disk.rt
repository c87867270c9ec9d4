//! Leaf files.

ghost use Rattle.std.specs.Prelude.{◌≡◌, ◌↔◌, ◌+◌, ◌≤◌, length, Ok, IsTrue, OnOk};
ghost use Rattle.sporc_outside.specs.Counts.{CountsFaults};

use crate::counting::{counted, fail};
use sporc_outside::{Counted, Failed, LeafDisk};
use std::fs::File;
use std::marker::Model;
use std::os::unix::fs::FileExt;

/// A file of fixed length. Its sync returns once the system says that the bytes are on the disk.
#[derive(Drop)]
pub struct RealDisk {
    file: File,
    len: u64,
    faults: u64,
}

impl Model for RealDisk {
    ghost use Rattle.sporc_real.specs.LeafFiles.{RealDiskModel};

    ghost Value = { RealDiskModel };

    ghost view = { λ d. record { len = d.len; faults = d.faults } };
}

impl RealDisk {
    // A disk over a file that has this length.
    pub(crate) fn new(file: File, len: u64) -> RealDisk
        ensures { result ≡ record { len = len; faults = 0 } }
    {
        RealDisk {
            file,
            len,
            faults: 0,
        }
    }

    // Whether so many bytes from a place on are in bounds.
    fn has(&self, at: u64, len: usize) -> bool
        ensures { IsTrue result ↔ (at + len ≤ self.now.len) }
    {
        at <= self.len && len as u64 <= self.len - at
    }
}

impl Counted for RealDisk {
    ghost faults = { λ d. d.faults };

    fn faults(&self) -> u64 {
        self.faults
    }
}

impl LeafDisk for RealDisk {
    ghost use Rattle.std.specs.Prelude.{refl};
    ghost use Rattle.sporc_outside.specs.LeafDisk.{silent_disk};

    ghost told = { λ d. silent_disk d.faults };

    ghost stored_is_image = { λ _. tt };

    ghost images_are_told = { λ _ _ told. absurd told };

    ghost faults_are_told = { λ _. refl };

    fn len(&mut self) -> Result<u64, Failed>
        ensures value { result ≡ Ok self.old.len }
        ensures len { self.new.len ≡ self.old.len }
        ensures count { CountsFaults self.old.faults self.new.faults result }
    {
        Ok(self.len)
    }

    fn read(&mut self, at: u64, buf: &mut [u8]) -> Result<(), Failed>
        ensures in_bounds { OnOk result (at + length buf.old ≤ self.old.len) }
        ensures len { self.new.len ≡ self.old.len }
        ensures count { CountsFaults self.old.faults self.new.faults result }
    {
        if !self.has(at, buf.len()) {
            return Err(fail(&mut self.faults));
        }
        let answer = self.file.read_exact_at(buf, at);
        counted(&mut self.faults, answer)
    }

    fn write_at(&mut self, at: u64, bytes: &[u8]) -> Result<(), Failed>
        ensures in_bounds { OnOk result (at + length bytes.now ≤ self.old.len) }
        ensures len { self.new.len ≡ self.old.len }
        ensures count { CountsFaults self.old.faults self.new.faults result }
    {
        if !self.has(at, bytes.len()) {
            return Err(fail(&mut self.faults));
        }
        let answer = self.file.write_all_at(bytes, at);
        counted(&mut self.faults, answer)
    }

    fn sync(&mut self) -> Result<(), Failed>
        ensures len { self.new.len ≡ self.old.len }
        ensures count { CountsFaults self.old.faults self.new.faults result }
    {
        let answer = self.file.sync_data();
        counted(&mut self.faults, answer)
    }
}
