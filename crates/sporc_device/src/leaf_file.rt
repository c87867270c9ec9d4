//! The leaf file of a device.

ghost use Rattle.std.specs.Prelude.{◌≡◌, IfErr, IfOk};
ghost use Rattle.lms_leaf.specs.LeafFile.{IsLeafHeight};
ghost use Rattle.lms_tree.specs.LmsType.{height_of};
ghost use Rattle.sporc_outside.specs.LeafDisk.{disk_images};
ghost use Rattle.sporc_outside.specs.Uses.{use_of};
ghost use Rattle.sporc_device.specs.LeafFile.{IsLeafFileFault, IsOpened, KeepsPassed};

use lms_leaf::{LeafOpenFault, Leaves};
use lms_sign::Signer;
use lms_tree::Tree;
use sporc_files::{Fault, File};
use sporc_member::Device;
use sporc_outside::LeafDisk;
use std::alloc::Global;

/// The signer of a device over the disk of its leaf file. A disk of another length is malformed at
/// its length.
#[tactic(auto, using(crate::proofs::LeafFiles::keeps_passed, crate::proofs::LeafFiles::kept_to))]
pub fn open_signer<D: LeafDisk>(
    alloc: Global,
    disk: D,
    tree: Tree,
    device: Device,
) -> Result<Signer<D>, (Fault, D)>
    requires height { IsLeafHeight (height_of tree.lms) }
    ensures ok { IfOk result
        (λ signer. IsOpened (D.told disk).stored (D.told signer.leaves.disk).stored signer.leaves) }
    ensures key { IfOk result (λ signer. signer.key ≡ tree) }
    ensures passed { IfOk result (λ signer. KeepsPassed (disk_images (D.told disk))
        (disk_images (D.told signer.leaves.disk))) }
    ensures err { IfErr result (λ e. IsLeafFileFault
        (use_of D.told disk e.1) device (height_of tree.lms) e.0) }
    ensures unwritten { IfErr result (λ e. (D.told e.1).stored ≡ (D.told disk).stored) }
    ensures kept_back { IfErr result
        (λ e. KeepsPassed (disk_images (D.told disk)) (disk_images (D.told e.1))) }
{
    let height = tree.public().lms.height();
    match Leaves::open(alloc, disk, height) {
        Ok(leaves) => Ok(Signer::open(tree, leaves)),
        Err((LeafOpenFault::BadLength(len), disk)) => {
            Err((Fault::Malformed(File::Leaf(device), len), disk))
        }
        Err((LeafOpenFault::DiskFault, disk)) => Err((Fault::Outside, disk)),
        Err((LeafOpenFault::Memory, disk)) => Err((Fault::Memory, disk)),
    }
}
