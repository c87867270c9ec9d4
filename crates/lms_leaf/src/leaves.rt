//! The leaves of a key, drawn in order.

ghost use Rattle.std.specs.Prelude.{◌≡◌, ℕ, ◌*◌, ◌^◌, ◌≤◌, false, length, OnOk, IfOk, IfErr};
ghost use Rattle.std.specs.Prelude.{IfSome};
ghost use Rattle.sporc_outside.specs.LeafDisk.{disk_images};
ghost use Rattle.lms_leaf.specs.LeafFile.{IsLeafHeight, ArePassed, AreTaken, block_count};
ghost use Rattle.lms_leaf.specs.LeafFile.{taken_blocks};
ghost use Rattle.lms_leaf.specs.Leaves.{KeepsStable, IsSynced, IsSyncedFirst, Draws, DrawFaults};
ghost use Rattle.lms_leaf.specs.Leaves.{Opens, OpenFaults, disk_after};
ghost use Rattle.lms_leaf.specs.declared.leaf_file.TheConstants.{LEAVES_PER_BLOCK};

use crate::faults::{LeafFault, LeafOpenFault};
use crate::leaf_file::{LEAVES_PER_BLOCK, begin_block, blocks_of, taken_of};
use sporc_outside::LeafDisk;
use std::alloc::Global;
use std::marker::Model;

/// Numbers the leaves of one key, on the disk that holds its leaf file.
#[derive(Drop)]
pub struct Leaves<D: LeafDisk> {
    disk: D,
    next: u32,
    next_at_open: u32,
    leaf_count: u32,
    faulty: bool,
    faults_at_open: u64,
}

impl<D: LeafDisk> Model for Leaves<D> {
    ghost use Rattle.lms_leaf.specs.Leaves.{LeavesModel};

    ghost Value = { LeavesModel D };

    ghost use Rattle.lms_leaf.specs.LeavesInvariant.{LeavesInvariant};

    ghost view = { λ l. record {
      disk = l.disk;
      next = l.next;
      next_at_open = l.next_at_open;
      leaf_count = l.leaf_count;
      faulty = l.faulty;
      faults_at_open = l.faults_at_open;
    } };

    ghost invariant = { LeavesInvariant D.told };
}

impl<D: LeafDisk> Leaves<D> {
    /// Opens the leaf file of a tree of that height: syncs it, and goes on behind the last block
    /// that is taken. If it fails the disk comes back.
    pub fn open(alloc: Global, mut disk: D, height: u32) -> Result<Leaves<D>, (LeafOpenFault, D)>
        requires { IsLeafHeight height }

        ensures opens { Opens D.told disk result }
        ensures leaf_count { IfOk result (λ leaves. leaves.leaf_count ≡ 2 ^ height) }
        ensures fresh { IfOk result (λ leaves. (leaves.next_at_open ≡ leaves.next)
            × (leaves.faulty ≡ false) × (leaves.faults_at_open ≡ (D.told leaves.disk).faults)) }
        ensures right_length { OnOk result (IfSome (D.told disk).stored (λ bytes.
            length bytes ≡ block_count height)) }
        ensures err { IfErr result (λ fault.
            OpenFaults D.told (block_count height) disk fault.0 fault.1) }
        ensures kept { (D.told disk).faults ≤ (D.told (disk_after result)).faults }
    {
        match find_next(alloc, &mut disk, height) {
            Ok(next) => {
                let faults_at_open = disk.faults();
                let leaf_count = LEAVES_PER_BLOCK * blocks_of(height) as u32;
                Ok(Leaves {
                    disk,
                    next,
                    next_at_open: next,
                    leaf_count,
                    faulty: false,
                    faults_at_open,
                })
            }
            Err(fault) => Err((fault, disk)),
        }
    }

    /// Gives the next number, and takes its block first where it begins one. After a disk fault
    /// each draw answers a disk fault until the file is opened again.
    pub fn draw(&mut self) -> Result<u32, LeafFault>
        ensures draws { Draws D.told self.old result self.new }
        ensures faults { DrawFaults D.told self.old result self.new }
    {
        if self.next == self.leaf_count {
            return Err(LeafFault::Exhausted(self.next));
        }
        if self.faulty {
            return Err(LeafFault::DiskFault);
        }
        if begin_block(&mut self.disk, self.next).is_err() {
            self.faulty = true;
            return Err(LeafFault::DiskFault);
        }
        let leaf = self.next;
        self.next += 1;
        Ok(leaf)
    }

    /// The number that the next draw gives, or the count of leaves if all are drawn. No crash makes
    /// the blocks of the leaves drawn since the opening free again, and whatever a crash leaves, a
    /// later opening goes on at this number or above it.
    pub fn next(&self) -> u32
        ensures value { result ≡ self.now.next }
        ensures since_open { self.now.next_at_open ≤ result }
        ensures within { result ≤ self.now.leaf_count }
        ensures taken { AreTaken (disk_images (D.told self.now.disk)) self.now.next_at_open result }
        ensures passed { ArePassed (disk_images (D.told self.now.disk)) result }
    {
        self.next
    }

    /// Gives the disk back, on which the blocks of the leaves drawn since the opening are taken. A
    /// later opening goes on at the next number or above it.
    pub fn close(self) -> D
        ensures value { result ≡ self.disk }
        ensures taken { AreTaken (disk_images (D.told result)) self.next_at_open self.next }
        ensures passed { ArePassed (disk_images (D.told result)) self.next }
    {
        self.disk
    }
}

// Syncs the disk, and gives the number behind the last block that is taken.
fn find_next<D: LeafDisk>(alloc: Global, disk: &mut D, height: u32) -> Result<u32, LeafOpenFault>
    requires { IsLeafHeight height }
    ensures next { IfOk result (λ next. IfSome (D.told disk.old).stored (λ bytes.
        next ≡ LEAVES_PER_BLOCK * taken_blocks bytes)) }
    ensures first_of_block { IfOk result (λ next. (blocks : ℕ)
        × (next ≡ LEAVES_PER_BLOCK * blocks) × (blocks ≤ block_count height)) }
    ensures right_length { OnOk result (IfSome (D.told disk.old).stored (λ bytes.
        length bytes ≡ block_count height)) }
    ensures err { IfErr result (λ fault.
        OpenFaults D.told (block_count height) disk.old fault disk.new) }
    ensures stable { KeepsStable D.told disk.old disk.new }
    ensures synced { OnOk result
        (IsSynced (D.told disk.new).stored (disk_images (D.told disk.new))) }
    ensures synced_first { OnOk result (IfSome (D.told disk.old).stored (λ bytes.
        IsSyncedFirst D.told disk.old disk.new)) }
    ensures stored { (D.told disk.new).stored ≡ (D.told disk.old).stored }
    ensures kept { (D.told disk.old).faults ≤ (D.told disk.new).faults }
{
    let blocks = blocks_of(height);
    let mut bytes = vec![in alloc; 0u8; blocks]?;
    disk.sync()?;
    let len = disk.len()?;
    if len != blocks as u64 {
        return Err(LeafOpenFault::BadLength(len));
    }
    disk.read(0, &mut bytes)?;
    let next = LEAVES_PER_BLOCK * taken_of(&bytes) as u32;
    Ok(next)
}
