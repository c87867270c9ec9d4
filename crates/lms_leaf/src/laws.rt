//! What holds of leaf numbers over whole traces of a leaf file and over its lives, and the limit in
//! numbers.

ghost use Rattle.std.specs.Prelude.{◌≡◌};
ghost use Rattle.lms_leaf.specs.Laws.{LeavesRise, NoLeafTwice, TracesAreLives};
ghost use Rattle.lms_leaf.specs.declared.leaf_file.TheConstants.{LEAVES_PER_BLOCK};

use sporc_outside::LeafDisk;

/// The limit in numbers.
pub fn limits()
    ensures block { LEAVES_PER_BLOCK ≡ 4 }
{}

/// Over any list of openings, draws, failed calls and crashes at any moment, no number is given
/// twice. A crash inside a call keeps the call from answering; what is found afterwards is one of
/// the images that the crash may leave.
///
/// The disk is one that tells its bytes, and behaves as [`LeafDisk`] says. Of a disk that tells
/// none, as a real file, this says nothing.
pub fn no_leaf_is_drawn_twice<D: LeafDisk>()
    ensures distinct { NoLeafTwice D.told }
{}

/// Such a list is a life of the disk: it gives leaves that rise, from above all that were passed
/// before, and whatever a crash leaves behind it, an opening goes on above all of them.
pub fn traces_are_lives<D: LeafDisk>()
    ensures lives { TracesAreLives D.told }
{}

/// Over lives one behind another the leaves rise, so none is given twice. A life is that of a disk
/// from where it is handed out to where it comes back, as in a run of a program, or to a crash; the
/// next one begins with what a read gives then, or with what a crash leaves.
pub fn leaves_rise_over_lives<D: LeafDisk>()
    ensures rise { LeavesRise D.told }
{}
