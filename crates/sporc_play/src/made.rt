//! The entries of a play, by their numbers from 1.

ghost use Rattle.std.specs.Prelude.{◌≡◌, ◌++◌, map, IfOk, OnOk, string_bytes};
ghost use Rattle.std.specs.Option.{option_copied};
ghost use Rattle.sporc_play.specs.Joined.{entries_found};
ghost use Rattle.sporc_play.specs.Report.{no_entry_line};
ghost use Rattle.sporc_play.specs.Scene.{entries_at, entry_at};

use sporc_base::Memory;
use std::alloc::Global;
use std::fmt::Write;

/// The entries with some numbers.
#[derive(Drop)]
pub enum Found {
    Entries(Vec<Vec<u8>>),
    /// The first number that no entry has.
    Missing(u64),
}

/// The bytes of the entry with this number, counted from 1, if there is one.
pub fn entry_at(made: &[Vec<u8>], number: u64) -> Option<&[u8]>
    ensures value { option_copied result ≡ entry_at (map (λ v. v.items) made.now) number }
{
    if number == 0 {
        return None;
    }
    let entry = made.get(number as usize - 1)?;
    Some(entry.as_slice())
}

/// Copies of the entries with these numbers.
pub fn entries_at(alloc: Global, made: &[Vec<u8>], numbers: &[u64]) -> Result<Found, Memory>
    ensures value { IfOk result
        (λ found. entries_found found ≡ entries_at (map (λ v. v.items) made.now) numbers.now) }
{
    let mut entries = Vec::new(alloc);
    for number in numbers {
        let Some(entry) = entry_at(made, *number) else {
            return Ok(Found::Missing(*number));
        };
        let copy = Vec::from_slice(alloc, entry)?;
        entries.push(copy)?;
    }
    Ok(Found::Entries(entries))
}

/// Appends that no entry has a number.
pub fn push_no_entry(out: &mut String, number: u64) -> Result<(), Memory>
    ensures ok { OnOk result (string_bytes out.new ≡ string_bytes out.old ++ no_entry_line number) }
{
    writeln!(out, "no entry {number}")
}
