//! The bytes of a leaf file, and the calls that read and write them.

ghost use Rattle.std.specs.Prelude.{◌≡◌, ◌≢◌, ◌^◌, ◌<◌, ◌*◌, ◌/◌, ◌%◌, ◌≤◌, length, slice_index};
ghost use Rattle.std.specs.Prelude.{replicate, IfOk, IfSome, OnOk};
ghost use Rattle.sporc_outside.specs.Counts.{CountsFaults};
ghost use Rattle.sporc_outside.specs.LeafDisk.{IsStable, KeepsOutside, disk_images};
ghost use Rattle.lms_leaf.specs.LeafFile.{IsLeafHeight, IsTaken, block_count, taken_blocks};
ghost use Rattle.lms_leaf.specs.Leaves.{KeepsStable};
ghost use Rattle.lms_leaf.specs.declared.leaf_file.TheConstants.{LEAVES_PER_BLOCK};

use sporc_base::Memory;
use sporc_outside::{Failed, LeafDisk};
use std::alloc::Global;

/// How many leaves share a byte of the file, and are taken by one write.
pub const LEAVES_PER_BLOCK: u32 = 4;

/// The bytes of a leaf file of which no block is taken, for a tree of that height: 8 bytes for 5,
/// 256 for 10, 8192 for 15.
pub fn blank(alloc: Global, height: u32) -> Result<Vec<u8>, Memory>
    requires { IsLeafHeight height }
    ensures value { IfOk result (λ bytes. bytes.items ≡ replicate (block_count height) 0) }
{
    let bytes = vec![in alloc; 0u8; blocks_of(height)]?;
    Ok(bytes)
}

// How many blocks of leaves a tree has.
pub(crate) fn blocks_of(height: u32) -> usize
    requires { IsLeafHeight height }
    ensures value { result ≡ block_count height }
    ensures leaves { LEAVES_PER_BLOCK * result ≡ 2 ^ height }
    ensures within { 2 ^ height < 2 ^ 32 }
{
    (1 << height) / LEAVES_PER_BLOCK as usize
}

// How many bytes there are up to the last that is not zero.
pub(crate) fn taken_of(bytes: &[u8]) -> usize
    ensures value { result ≡ taken_blocks bytes.now }
    ensures within { result ≤ length bytes.now }
{
    let mut taken = 0;
    for (i, byte) in bytes.iter().enumerate() {
        if *byte != 0 {
            taken = i + 1;
        }
    }
    taken
}

// Takes the block of a leaf, if that leaf is its first.
pub(crate) fn begin_block<D: LeafDisk>(disk: &mut D, leaf: u32) -> Result<(), Failed>
    requires free { leaf % LEAVES_PER_BLOCK ≡ 0 → IfSome (D.told disk.old).stored (λ bytes.
        (leaf / LEAVES_PER_BLOCK < length bytes)
        × (slice_index bytes (leaf / LEAVES_PER_BLOCK) ≡ 0)) }
    requires begun { leaf % LEAVES_PER_BLOCK ≢ 0
        → IsTaken (disk_images (D.told disk.old)) leaf }
    ensures taken { OnOk result (IsTaken (disk_images (D.told disk.new)) leaf) }
    ensures stable { KeepsStable D.told disk.old disk.new }
    ensures one { OnOk result (leaf % LEAVES_PER_BLOCK ≡ 0 → IfSome (D.told disk.new).stored
        (λ bytes. slice_index bytes (leaf / LEAVES_PER_BLOCK) ≡ 1)) }
    ensures others { KeepsOutside (leaf / LEAVES_PER_BLOCK) 1 (D.told disk.old).stored
        (D.told disk.new).stored }
    ensures unwritten { leaf % LEAVES_PER_BLOCK ≢ 0
        → (D.told disk.new).stored ≡ (D.told disk.old).stored }
    ensures count { CountsFaults (D.told disk.old).faults (D.told disk.new).faults result }
{
    if leaf % LEAVES_PER_BLOCK != 0 {
        return Ok(());
    }
    take_block(disk, leaf / LEAVES_PER_BLOCK)
}

// Takes a block that is free.
fn take_block<D: LeafDisk>(disk: &mut D, block: u32) -> Result<(), Failed>
    requires { IfSome (D.told disk.old).stored (λ bytes.
        (block < length bytes) × (slice_index bytes block ≡ 0)) }
    ensures taken { OnOk result (IsStable (disk_images (D.told disk.new)) block) }
    ensures stable { KeepsStable D.told disk.old disk.new }
    ensures one { OnOk result
        (IfSome (D.told disk.new).stored (λ bytes. slice_index bytes block ≡ 1)) }
    ensures others { KeepsOutside block 1 (D.told disk.old).stored (D.told disk.new).stored }
    ensures count { CountsFaults (D.told disk.old).faults (D.told disk.new).faults result }
{
    disk.write_at(u64::from(block), &[1])?;
    disk.sync()
}
