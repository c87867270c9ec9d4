//! The comparison of two histories by the values of their chains.

ghost use Rattle.std.specs.Prelude.{◌≡◌, ◌≢◌, ◌<◌, ◌↔◌, length, IsTrue, slice_get};
ghost use Rattle.sporc_hash.specs.Verdict.{SameTip, TipIsIn, DivergesAfter, IfForked};
ghost use Rattle.sporc_hash.specs.Verdict.{IsVerdictOnChains};

use crate::chain::Digest32;

/// How one history stands to another.
#[derive(Clone, Copy, PartialEq, Eq)]
pub enum Verdict {
    /// They are one history.
    Same,
    /// The first is a prefix of the second, which has more entries.
    Prefix,
    /// The second is a prefix of the first, which has more entries.
    Longer,
    /// They have this many entries in common, and each goes on differently.
    ForkedAfter(usize),
}

/// Compares two histories of one genesis by their chains, each the values before its first entry
/// and after each one.
///
/// It looks at few of the values: the chains of different histories, once apart, stay apart unless
/// two different strings have one digest. If two do, `ForkedAfter` names one of the places at which
/// the chains part.
pub fn compare(a: &[Digest32], b: &[Digest32]) -> Verdict
    requires positive { 0 < length a.now }
    requires one_genesis { slice_get a.now 0 ≡ slice_get b.now 0 }

    // For any values.
    ensures same { (result ≡ Verdict.Same) ↔ SameTip a.now b.now }
    ensures prefix { (result ≡ Verdict.Prefix) ↔ TipIsIn a.now b.now }
    ensures longer { (result ≡ Verdict.Longer) ↔ TipIsIn b.now a.now }
    ensures forked { IfForked result (DivergesAfter a.now b.now) }

    // For the chains of two histories, if no two different strings hashed for them have one digest.
    ensures histories { IsVerdictOnChains a.now b.now result }
{
    let last = a.len().min(b.len()) - 1;
    if !agree_at(a, b, last) {
        return Verdict::ForkedAfter(common_entries(a, b, last));
    }
    if a.len() < b.len() {
        Verdict::Prefix
    } else if b.len() < a.len() {
        Verdict::Longer
    } else {
        Verdict::Same
    }
}

// Whether both have one value at this place.
fn agree_at(a: &[Digest32], b: &[Digest32], at: usize) -> bool
    requires a_in_bounds { at < length a.now }
    requires b_in_bounds { at < length b.now }
    ensures { IsTrue result ↔ (slice_get a.now at ≡ slice_get b.now at) }
{
    a[at] == b[at]
}

// After how many entries two chains part, found by halves between a place at which they agree and
// one at which they don't.
fn common_entries(a: &[Digest32], b: &[Digest32], last: usize) -> usize
    requires a_in_bounds { last < length a.now }
    requires b_in_bounds { last < length b.now }
    requires one_genesis { slice_get a.now 0 ≡ slice_get b.now 0 }
    requires different { slice_get a.now last ≢ slice_get b.now last }
    ensures { DivergesAfter a.now b.now result }
{
    let mut agreed = 0;
    let mut different = last;
    while different - agreed > 1 {
        let middle = agreed + (different - agreed) / 2;
        if agree_at(a, b, middle) {
            agreed = middle;
        } else {
            different = middle;
        }
    }
    agreed
}
