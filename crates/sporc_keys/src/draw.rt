//! Words drawn from a chance.

ghost use Rattle.std.specs.Prelude.{◌≡◌, ◌<◌, ◌≤◌, [], Err, length, slice_index, take, OnOk, OnErr};
ghost use Rattle.std.specs.Prelude.{IfOk};
ghost use Rattle.sporc_outside.specs.Counts.{Rose};
ghost use Rattle.sporc_keys.specs.Drawn.{DrawsWordsUpTo};
ghost use Rattle.sporc_keys.specs.Founding.{SharesMore, pairs_of, row};

use crate::fault::DrawFault;
use crate::pair::SharedKey;
use sporc_outside::Chance;
use std::alloc::Global;

// The first 16 bytes of a word.
pub(crate) fn prefix_of(word: &[u8; 32]) -> [u8; 16]
    ensures { result ≡ take 16 word.now }
{
    let mut prefix = [0u8; 16];
    prefix.copy_from_slice(&word[..16]);
    prefix
}

// The number at this place.
fn number_at(numbers: &[u16], i: usize) -> u16
    requires { i < length numbers.now }
    ensures { result ≡ slice_index numbers.now i }
{
    numbers[i]
}

// Appends a key for the first number with each of these, one word after another.
#[tactic(auto, unfolding(crate::specs::Founding::row))]
fn draw_row<C: Chance>(
    chance: &mut C,
    shared: &mut Vec<SharedKey>,
    first: u16,
    numbers: &[u16],
) -> Result<(), DrawFault>
    ensures ok { OnOk result (SharesMore (C.told chance.old).given (C.told chance.new).given
        (row first numbers.now) shared.old.items shared.new.items) }
    ensures chance { result ≡ Err DrawFault.Chance
        → Rose (C.told chance.old).faults (C.told chance.new).faults }
    ensures drawn { OnErr result
        (DrawsWordsUpTo (length numbers.now) (C.told chance.old).given (C.told chance.new).given) }
    ensures kept { (C.told chance.old).faults ≤ (C.told chance.new).faults }
{
    for second in numbers {
        let key = chance.fill32()?;
        shared.push(SharedKey {
            first,
            second: *second,
            key,
        })?;
    }
    Ok(())
}

// A key for each pair of these ascending numbers, one word after another.
pub(crate) fn draw_pairs<C: Chance>(
    alloc: Global,
    chance: &mut C,
    numbers: &[u16],
) -> Result<Vec<SharedKey>, DrawFault>
    ensures ok { IfOk result (λ shared. SharesMore (C.told chance.old).given
        (C.told chance.new).given (pairs_of numbers.now) [] shared.items) }
    ensures chance { result ≡ Err DrawFault.Chance
        → Rose (C.told chance.old).faults (C.told chance.new).faults }
    ensures drawn { OnErr result (DrawsWordsUpTo (length (pairs_of numbers.now))
        (C.told chance.old).given (C.told chance.new).given) }
    ensures kept { (C.told chance.old).faults ≤ (C.told chance.new).faults }
{
    let mut shared = Vec::new(alloc);
    for i in 0..numbers.len() {
        let first = number_at(numbers, i);
        draw_row(chance, &mut shared, first, &numbers[i..])?;
    }
    Ok(shared)
}
