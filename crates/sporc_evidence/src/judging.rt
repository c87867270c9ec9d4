//! The judgment on two summaries.

ghost use Rattle.std.specs.Prelude.{◌≡◌, slice_get, IfSome};
ghost use Rattle.sporc_evidence.specs.Judging.{IsFirstDifference, by_length, first_difference};
ghost use Rattle.sporc_evidence.specs.Judging.{judged};

use crate::summary::Summary;
use sporc_base::is_same;
use sporc_hash::{Digest32, Verdict};

/// What two summaries say together.
#[derive(Clone, Copy, PartialEq, Eq)]
pub enum Judged {
    /// They differ nowhere: one history goes on from the other, or both are one.
    Consistent(Verdict),
    /// Both have one value after so many entries, and these values after one entry more.
    Forked {
        after: u32,
        left: Digest32,
        right: Digest32,
    },
}

// A place at which two lists of values differ, and their values there.
#[derive(Clone, Copy)]
pub(crate) struct Difference {
    at: usize,
    left: Digest32,
    right: Digest32,
}

/// Judges two summaries of one genesis, as those that are read under it. It looks at every place
/// that is within both, and takes no memory.
///
/// So it needs no chain: if the two lists part and meet again, it names the first place at which
/// they part, where [`sporc_hash::compare`] may see nothing.
pub fn judge(a: &Summary, b: &Summary) -> Judged
    requires one_genesis { slice_get a.now.hashes 0 ≡ slice_get b.now.hashes 0 }
    ensures value { result ≡ judged a.now.hashes b.now.hashes }
{
    let ours = a.hashes();
    let theirs = b.hashes();
    match find_difference(ours, theirs) {
        None => Judged::Consistent(by_length(ours.len(), theirs.len())),
        Some(first) => {
            let left = first.left;
            let right = first.right;
            Judged::Forked {
                after: first.at as u32 - 1,
                left,
                right,
            }
        }
    }
}

// The first place within both at which they differ.
fn find_difference(a: &[Digest32], b: &[Digest32]) -> Option<Difference>
    ensures value { result ≡ first_difference a.now b.now }
    ensures some { IfSome result (IsFirstDifference a.now b.now) }
{
    let common = a.len().min(b.len());
    for at in 0..common {
        let left = a[at];
        let right = b[at];
        if !is_same(&left, &right) {
            return Some(Difference { at, left, right });
        }
    }
    None
}

// How histories of so many entries stand to each other whose chains differ nowhere.
fn by_length(a: usize, b: usize) -> Verdict
    ensures { result ≡ by_length a b }
{
    if a < b {
        Verdict::Prefix
    } else if b < a {
        Verdict::Longer
    } else {
        Verdict::Same
    }
}
