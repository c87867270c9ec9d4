//! Lists of numbers.

ghost use Rattle.std.specs.Prelude.{◌≡◌, IfOk};
ghost use Rattle.sporc_script.specs.Numbers.{join_of, numbers_of};

use crate::command::Join;
use crate::words::{cut, parse_device, parse_u64, split_once};
use sporc_base::{Items, Memory};
use std::alloc::Global;

// `C E1 E2 ..`
#[tactic(auto, unfolding(crate::specs::Numbers::join_of))]
pub fn read_join(alloc: Global, words: &[u8]) -> Result<Option<Join>, Memory>
    ensures ok { IfOk result (λ found. found ≡ join_of words.now) }
{
    let Some((first, rest)) = cut(words) else {
        return Ok(None);
    };
    let Some(device) = parse_device(first) else {
        return Ok(None);
    };
    let Some(entries) = parse_numbers(alloc, rest)? else {
        return Ok(None);
    };
    Ok(Some(Join { device, entries }))
}

// The numbers that all words are.
fn parse_numbers(alloc: Global, words: &[u8]) -> Result<Option<Items<u64>>, Memory>
    ensures { IfOk result (λ found. found ≡ numbers_of words.now) }
{
    let mut numbers = Vec::new(alloc);
    let mut rest = words;
    while let Some((word, after)) = split_once(rest, b' ') {
        let Some(number) = parse_u64(word) else {
            return Ok(None);
        };
        numbers.push(number)?;
        rest = after;
    }
    let Some(number) = parse_u64(rest) else {
        return Ok(None);
    };
    numbers.push(number)?;
    Ok(Some(Items::new(numbers)))
}
