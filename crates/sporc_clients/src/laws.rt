//! What holds of a leaf file over runs. Its functions do nothing.

ghost use Rattle.std.specs.Prelude.{IsSome};
ghost use Rattle.lms_leaf.specs.Lives.{IsLife};
ghost use Rattle.sporc_clients.specs.Lives.{ClientRun, SignOnce, life_of};

use sporc_outside::LeafDisk;

/// What `client` did over the disk of a leaf file is a life of that file, whatever came of it, and
/// the leaves given in it are those that signed.
///
/// The disk is one that tells its bytes, and behaves as [`LeafDisk`] says. Of a disk that tells
/// none, as a real file, this says nothing.
pub fn runs_are_lives<D: LeafDisk>()
    ensures life { (run : ClientRun D.told) → IsSome (D.told run.first).stored
        → IsLife D.told (life_of D.told run) }
{}

/// So over runs of `client` one behind another, whatever came of each, the leaves that sign rise,
/// and none signs twice. Each run begins with what a read gives of the disk that the one before it
/// left, or with what a crash leaves of that.
pub fn no_leaf_signs_twice<D: LeafDisk>()
    ensures rise { SignOnce D.told }
{}
