//! The program.

ghost use Rattle.std.specs.Prelude.{◌≡◌, ◌+◌, ◌≤◌, false};
ghost use Rattle.sporc_outside.specs.Uses.{use_of};
ghost use Rattle.sporc_outside.specs.Reading.{ConsumesAtMost};
ghost use Rattle.sporc_play.specs.declared.playing.TheConstants.{MAX_SCRIPT};
ghost use Rattle.sporc_words.specs.Commands.{command_of};
ghost use Rattle.sporc_files.specs.Faults.{WritesFaultLine, status_of};
ghost use Rattle.sporc_top.specs.Needs.{needs_by};
ghost use Rattle.sporc_top.specs.Outcome.{Ran, texts};
ghost use Rattle.sporc_top.specs.Uses.{uses};

use crate::performing::{names_of, perform};
use sporc_clients::Platform;
use sporc_files::{Fault, Names};
use sporc_outside::{Chance, Dial, Folder, Gate, Listen, Sink, Source};
use sporc_words::read_words;
use std::alloc::Global;
use std::sync::Wait;
use std::thread::Threads;

/// Does what the words ask for, and answers the exit status. The first word names the command;
/// docs/MANUAL.md has them all, and the line on `out` by which each fault is told behind what the
/// command has written.
///
/// Which objects beside `out` it uses, `needs_of` in `specs/Needs.antt` says: most commands use
/// `files` alone.
///
/// A fault's line is written as far as `out` takes it, and nothing goes anywhere else. The status
/// is 0 if the command did all its work, and else that of the fault which was told ([`Fault`]).
pub fn run<
    R: Threads + Wait + Sync,
    S: Source,
    O: Sink,
    F: Folder,
    N: Dial + Listen + Send,
    C: Chance + Send,
    G: Gate + Sync,
>(
    rt: &R,
    alloc: Global,
    words: &[String],
    source: &mut S,
    out: &mut O,
    files: &mut F,
    net: &mut N,
    chance: &mut C,
    gate: &G,
) -> u8
where
    F::Disk: Send,
    F::Appended: Drop + Send,
    N::Link: Send,
    ensures outcome { Ran F.Disk.told (texts words.now) (uses (use_of S.told source.old source.new)
        (use_of O.told out.old out.new) (use_of F.told files.old files.new)
        (use_of N.told net.old net.new) (use_of C.told chance.old chance.new)) result }
    ensures source { (needs_by (command_of (texts words.now))).source ≡ false
        → source.new ≡ source.old }
    ensures files { (needs_by (command_of (texts words.now))).files ≡ false
        → files.new ≡ files.old }
    ensures net { (needs_by (command_of (texts words.now))).net ≡ false → net.new ≡ net.old }
    ensures chance { (needs_by (command_of (texts words.now))).chance ≡ false
        → chance.new ≡ chance.old }
    ensures taken { ConsumesAtMost (MAX_SCRIPT + 1) (S.told source.old).left
        (S.told source.new).left }
{
    let command = match read_words(alloc, words) {
        Ok(command) => command,
        Err(fault) => return tell_fault(Fault::from(fault), &Names::of_document(""), out),
    };
    let platform = Platform { rt, alloc, gate };
    match perform(&platform, &command, source, out, files, net, chance) {
        Ok(()) => 0,
        Err(fault) => tell_fault(fault, &names_of(&command), out),
    }
}

// Writes the line of a fault, and answers its status.
fn tell_fault<O: Sink>(fault: Fault, names: &Names<'_>, out: &mut O) -> u8
    ensures status { result ≡ status_of fault }
    ensures line { WritesFaultLine (use_of O.told out.old out.new) names.now fault }
    ensures kept { (O.told out.old).faults ≤ (O.told out.new).faults }
{
    fault.tell(names, out);
    fault.status()
}
