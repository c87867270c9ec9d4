//! Keys that two share.

ghost use Rattle.std.specs.Prelude.{◌≡◌, IfOk};
ghost use Rattle.sporc_keys.specs.Founding.{pair_key_of, pair_keys_of};

use crate::ring_file::PairKey;
use sporc_base::Memory;
use std::alloc::Global;

/// The key that two share; the number of the first is not above that of the second, and they may be
/// one.
#[derive(Clone, Copy)]
pub struct SharedKey {
    pub first: u16,
    pub second: u16,
    pub key: [u8; 32],
}

// The keys that a member has of these, under the numbers of the others.
pub(crate) fn pair_keys_of(
    alloc: Global,
    member: u16,
    shared: &[SharedKey],
) -> Result<Vec<PairKey>, Memory>
    ensures { IfOk result (λ pairs. pairs.items ≡ pair_keys_of member shared.now) }
{
    shared
        .iter()
        .filter_map(|s| pair_key_of(member, s))
        .collect(alloc)
}

// The key that a member has of this, if it is one of the two.
fn pair_key_of(member: u16, s: &SharedKey) -> Option<PairKey>
    ensures { result ≡ pair_key_of member s.now }
{
    if s.first == member {
        Some(PairKey {
            member: s.second,
            key: s.key,
        })
    } else if s.second == member {
        Some(PairKey {
            member: s.first,
            key: s.key,
        })
    } else {
        None
    }
}
