//! What a document begins with.

ghost use Rattle.std.specs.Prelude.{◌≡◌, ◌≤◌, Err, IfOk, OnErr};
ghost use Rattle.std.specs.List.{AllByRecursion};
ghost use Rattle.sporc_entry.specs.Genesis.{IsGenesis};
ghost use Rattle.sporc_outside.specs.Counts.{Rose};
ghost use Rattle.sporc_keys.specs.Drawn.{DrawsWordsUpTo};
ghost use Rattle.sporc_keys.specs.Founding.{CanFound, IsFounding, in_order, numbers_of, words_for};
ghost use Rattle.sporc_keys.specs.RingFile.{IsRingFile};

use crate::draw::{draw_pairs, prefix_of};
use crate::fault::DrawFault;
use crate::founders::genesis_of;
use crate::in_order::in_order;
use crate::named::Named;
use crate::ring_file::RingFile;
use crate::rings::rings_of;
use sporc_base::{Items, Memory};
use sporc_entry::Genesis;
use sporc_outside::Chance;
use std::alloc::Global;

/// Ring files, seen as the list of them.
pub type Rings = Items<RingFile>;

/// What a document begins with: its genesis, and the ring file of each who is named, in ascending
/// order of their numbers.
#[derive(Drop)]
pub struct Founding {
    pub genesis: Genesis,
    pub rings: Rings,
}

/// What a document begins with that these found, in whatever order they are named. Of the words of
/// the chance the first gives its number, the first 16 bytes of it; the second is the key of epoch
/// 0; then each pair of numbers has a word for the key that they share, `(i, j)` with `i <= j`, in
/// ascending order of `i`, then `j`: at most 2,082 words.
///
/// A founder's ring has the key of epoch 0, a joiner's does not.
pub fn found<C: Chance>(
    alloc: Global,
    chance: &mut C,
    named: &[Named],
) -> Result<Founding, DrawFault>
    requires named { CanFound named.now }
    ensures ok { IfOk result (λ founding. IsFounding (C.told chance.old).given
        (C.told chance.new).given (in_order named.now) founding) }
    ensures genesis { IfOk result (λ founding. IsGenesis founding.genesis) }
    ensures rings { IfOk result (λ founding. AllByRecursion IsRingFile founding.rings) }
    ensures chance { result ≡ Err DrawFault.Chance
        → Rose (C.told chance.old).faults (C.told chance.new).faults }
    ensures drawn { OnErr result (DrawsWordsUpTo (words_for (in_order named.now))
        (C.told chance.old).given (C.told chance.new).given) }
    ensures kept { (C.told chance.old).faults ≤ (C.told chance.new).faults }
{
    let named = in_order(alloc, named)?;
    let numbers = numbers_of(alloc, named.as_slice())?;
    let first = chance.fill32()?;
    let key = chance.fill32()?;
    let shared = draw_pairs(alloc, chance, numbers.as_slice())?;
    let genesis = genesis_of(alloc, prefix_of(&first), &key, named.as_slice())?;
    let rings = rings_of(alloc, &key, shared.as_slice(), named.as_slice())?;
    Ok(Founding {
        genesis,
        rings: Rings::new(rings),
    })
}

// The numbers of those who are named.
fn numbers_of(alloc: Global, named: &[Named]) -> Result<Vec<u16>, Memory>
    ensures { IfOk result (λ numbers. numbers.items ≡ numbers_of named.now) }
{
    named.iter().map(|n| n.number()).collect(alloc)
}
