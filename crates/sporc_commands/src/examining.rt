//! A saved history, examined with the keys of a device.

ghost use Rattle.std.specs.Prelude.{◌≡◌, [], IfOk};
ghost use Rattle.sporc_entry.specs.Genesis.{IsGenesis};
ghost use Rattle.sporc_store.specs.SavedFile.{read_to};
ghost use Rattle.sporc_files.specs.Faults.{AnswersUnlessOutside};
ghost use Rattle.sporc_files.specs.Contents.{entries_of};
ghost use Rattle.sporc_commands.specs.Checking.{checked_line, entries_for_hints, examined, kit_in};
ghost use Rattle.sporc_commands.specs.Checking.{line_of_whole};

use crate::entries::whole_entries;
use sporc_entry::Genesis;
use sporc_files::{Fault, File, open_line, stopped};
use sporc_keys::RingFile;
use sporc_line::Line;
use sporc_member::Device;
use sporc_outside::Gate;
use sporc_store::{LOADERS, Stop, load_many};
use std::alloc::Global;
use std::sync::Wait;
use std::thread::Threads;

// A saved history, if a device of a member with this ring opens it and accepts all of it.
pub(crate) fn examine<R: Threads + Wait + Sync, G: Gate + Sync>(
    rt: &R,
    alloc: Global,
    genesis: Genesis,
    device: Device,
    ring: &RingFile,
    history: &[u8],
    gate: &G,
) -> Result<Line, Fault>
    requires { IsGenesis genesis }
    ensures value { AnswersUnlessOutside checked_line ⊥ result
        (examined genesis device ring.now history.now) }
{
    let line = open(alloc, genesis, device, ring, history)?;
    match load_many(rt, alloc, history, line, LOADERS, gate) {
        Ok((line, stop)) => whole_line(device, line, stop),
        Err(_) => Err(Fault::Memory),
    }
}

// The empty line of a device: a joiner's by the hints of its own history, which has to be whole.
fn open(
    alloc: Global,
    genesis: Genesis,
    device: Device,
    ring: &RingFile,
    history: &[u8],
) -> Result<Line, Fault>
    requires { IsGenesis genesis }
    ensures kit { AnswersUnlessOutside (λ line. line.kit) ⊥ result
        (kit_in genesis device ring.now history.now) }
    ensures genesis { IfOk result (λ line. line.genesis ≡ genesis) }
    ensures empty { IfOk result (λ line. line.entries ≡ []) }
{
    let entries = entries_for_hints(alloc, device, ring, &genesis.document, history)?;
    open_line(alloc, genesis, device, ring, entries.as_slice())
}

// The entries that a joiner's hints are taken from; a founder needs none.
fn entries_for_hints(
    alloc: Global,
    device: Device,
    ring: &RingFile,
    document: &[u8; 16],
    history: &[u8],
) -> Result<Vec<Vec<u8>>, Fault>
    ensures value { AnswersUnlessOutside entries_of ⊥ result
        (entries_for_hints device ring.now.epoch_key document.now history.now) }
{
    match ring.epoch_key {
        Some(_) => Ok(Vec::new(alloc)),
        None => whole_entries(alloc, File::History(device), document, history),
    }
}

// A history, if it was loaded to its end.
fn whole_line(device: Device, line: Line, stop: Stop) -> Result<Line, Fault>
    ensures value { AnswersUnlessOutside checked_line ⊥ result
        (line_of_whole device line.genesis line.kit (read_to line.entries stop)) }
{
    stopped(File::History(device), stop)?;
    Ok(line)
}
