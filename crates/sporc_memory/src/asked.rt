//! The names and addresses that objects in memory are asked for.

ghost use Rattle.std.specs.Prelude.{◌≡◌, ◌++◌, ◌∷◌, [], OnOk, OnErr};
ghost use Rattle.sporc_memory.specs.CallsModel.{CountsCall};
ghost use Rattle.sporc_outside.specs.Counts.{CountsFaults};

use crate::calls::Calls;
use sporc_outside::{Failed, FileBytes};
use std::alloc::{AllocError, Global};

// Counts a call, and keeps the name that it asks for. It fails where there is no memory for the
// name.
pub(crate) fn ask(
    alloc: Global,
    calls: &mut Calls,
    asked: &mut Vec<FileBytes>,
    name: &str,
) -> Result<(), Failed>
    ensures asked { OnOk result (asked.new.items ≡ asked.old.items ++ name.now ∷ []) }
    ensures unchanged { OnErr result (asked.new.items ≡ asked.old.items) }
    ensures call { CountsCall calls.old calls.new result }
    ensures count { CountsFaults calls.old.faults calls.new.faults result }
{
    calls.begin()?;
    match push_name(alloc, asked, name.as_bytes()) {
        Ok(()) => Ok(()),
        Err(_) => Err(calls.fail()),
    }
}

// Keeps a copy of a name behind the others.
pub(crate) fn push_name(
    alloc: Global,
    names: &mut Vec<FileBytes>,
    name: &[u8],
) -> Result<(), AllocError>
    ensures names { OnOk result (names.new.items ≡ names.old.items ++ name.now ∷ []) }
    ensures memory { OnErr result (names.new.items ≡ names.old.items) }
{
    let name = FileBytes::new(Vec::from_slice(alloc, name)?);
    names.push(name)?;
    Ok(())
}
