//! The saved history of a device, read and examined.

ghost use Rattle.sporc_outside.specs.Uses.{use_of};
ghost use Rattle.sporc_files.specs.Uses.{OnlyReads};
ghost use Rattle.sporc_commands.specs.Checking.{FindsLine, checked_files};

use crate::examining::examine;
use sporc_files::{
    Fault, File, Names, read_bytes, read_genesis_file, read_own_key, read_ring_file,
};
use sporc_line::Line;
use sporc_member::Device;
use sporc_outside::{Folder, Gate};
use std::alloc::Global;
use std::sync::Wait;
use std::thread::Threads;

// The saved history of a device, all of which it accepts.
pub(crate) fn read_line<R: Threads + Wait + Sync, F: Folder, G: Gate + Sync>(
    rt: &R,
    alloc: Global,
    files: &mut F,
    names: &Names<'_>,
    device: Device,
    gate: &G,
) -> Result<Line, Fault>
    ensures found { FindsLine (use_of F.told files.old files.new) names.now device result }
    ensures reads { OnlyReads names.now (checked_files device) (use_of F.told files.old files.new) }
{
    let genesis = read_genesis_file(alloc, files, names)?;
    read_own_key(rt, alloc, files, names, device, &genesis)?;
    let ring = read_ring_file(alloc, files, names, device.member)?;
    let history = read_bytes(alloc, files, names, File::History(device))?;
    examine(rt, alloc, genesis, device, &ring, history.as_slice(), gate)
}
