//! What each command does.

ghost use Rattle.std.specs.Prelude.{◌≡◌, ◌+◌, ◌≤◌, false};
ghost use Rattle.sporc_outside.specs.Uses.{use_of};
ghost use Rattle.sporc_outside.specs.Reading.{ConsumesAtMost};
ghost use Rattle.sporc_script.specs.declared.limits.TheConstants.{MAX_GENERATED};
ghost use Rattle.sporc_play.specs.declared.playing.TheConstants.{MAX_SCRIPT};
ghost use Rattle.sporc_top.specs.Needs.{needs_of};
ghost use Rattle.sporc_top.specs.Performing.{Performs, PlaysEdits, PlaysSource, fault_of_play};
ghost use Rattle.sporc_top.specs.Performing.{names_of};
ghost use Rattle.sporc_top.specs.Ranges.{IsInRange};
ghost use Rattle.sporc_top.specs.Uses.{uses};

use sporc_clients::{Platform, client};
use sporc_commands::{check, compare, found, help, keygen, list_entries, public, text, version};
use sporc_files::{Fault, Names};
use sporc_hosting::{serve, serve_all};
use sporc_outside::{Chance, Dial, Folder, Gate, Listen, Sink, Source};
use sporc_play::{PlayFault, play, play_generated};
use sporc_words::Command;
use std::alloc::Global;
use std::sync::Wait;
use std::thread::Threads;

// What the files of a command are named by.
pub(crate) fn names_of(command: &Command) -> Names<'_>
    ensures value { result ≡ names_of command.now }
{
    match command {
        Command::Play | Command::Generate(_) => Names::of_document(""),
        Command::Keygen(words) => Names::of_document(words.name.as_str()),
        Command::Found(words) => Names::of_document(words.name.as_str()),
        Command::Serve(words) => Names::of_document(words.name.as_str()),
        Command::Client(words) => Names::new(words.name.as_str(), words.scripts.as_slice()),
        Command::Check(words) => Names::of_document(words.name.as_str()),
        Command::Compare(words) => Names::of_document(words.name.as_str()),
        Command::Help(_) | Command::Version => Names::of_document(""),
        Command::Public(words) => Names::of_document(words.name.as_str()),
        Command::Text(words) => Names::of_document(words.name.as_str()),
        Command::Entries(words) => Names::of_document(words.name.as_str()),
        Command::ServeAll(words) => Names::of_documents(words.names.as_slice()),
    }
}

// Plays the script of a source.
fn play_source<S: Source, O: Sink>(alloc: Global, source: &mut S, out: &mut O) -> Result<(), Fault>
    ensures outcome { PlaysSource (use_of S.told source.old source.new)
        (use_of O.told out.old out.new) result }
    ensures taken { ConsumesAtMost (MAX_SCRIPT + 1) (S.told source.old).left
        (S.told source.new).left }
    ensures source_kept { (S.told source.old).faults ≤ (S.told source.new).faults }
    ensures out_kept { (O.told out.old).faults ≤ (O.told out.new).faults }
{
    play(alloc, source, out).map_err(fault_of_play)
}

// Plays the generated run of so many edits.
fn play_edits<O: Sink>(alloc: Global, edits: u32, out: &mut O) -> Result<(), Fault>
    requires { edits ≤ MAX_GENERATED }
    ensures outcome { PlaysEdits edits (use_of O.told out.old out.new) result }
    ensures kept { (O.told out.old).faults ≤ (O.told out.new).faults }
{
    play_generated(alloc, edits, out).map_err(fault_of_play)
}

// What the fault of a play is for the program.
fn fault_of_play(cause: PlayFault) -> Fault
    ensures value { result ≡ fault_of_play cause }
{
    match cause {
        PlayFault::Memory => Fault::Memory,
        PlayFault::ReadFault | PlayFault::WriteFault => Fault::Outside,
        PlayFault::LineFault(line) => Fault::Line(line),
        PlayFault::TooLong => Fault::LongScript,
    }
}

// Does what a command asks for, and tells no fault.
pub(crate) fn perform<
    R: Threads + Wait + Sync,
    S: Source,
    O: Sink,
    F: Folder,
    N: Dial + Listen + Send,
    C: Chance + Send,
    G: Gate + Sync,
>(
    platform: &Platform<'_, R, G>,
    command: &Command,
    source: &mut S,
    out: &mut O,
    files: &mut F,
    net: &mut N,
    chance: &mut C,
) -> Result<(), Fault>
where
    F::Disk: Send,
    F::Appended: Drop + Send,
    N::Link: Send,
    requires { IsInRange command.now }
    ensures outcome { Performs F.Disk.told command.now (uses (use_of S.told source.old source.new)
        (use_of O.told out.old out.new) (use_of F.told files.old files.new)
        (use_of N.told net.old net.new) (use_of C.told chance.old chance.new)) result }
    ensures source { (needs_of command.now).source ≡ false → source.new ≡ source.old }
    ensures files { (needs_of command.now).files ≡ false → files.new ≡ files.old }
    ensures net { (needs_of command.now).net ≡ false → net.new ≡ net.old }
    ensures chance { (needs_of command.now).chance ≡ false → chance.new ≡ chance.old }
    ensures taken { ConsumesAtMost (MAX_SCRIPT + 1) (S.told source.old).left
        (S.told source.new).left }
    ensures links_out { (N.told net.new).out ≡ (N.told net.old).out }
    ensures lent { (F.told files.new).lent ≡ (F.told files.old).lent }
    ensures source_kept { (S.told source.old).faults ≤ (S.told source.new).faults }
    ensures files_kept { (F.told files.old).faults ≤ (F.told files.new).faults }
    ensures net_kept { (N.told net.old).faults ≤ (N.told net.new).faults }
    ensures chance_kept { (C.told chance.old).faults ≤ (C.told chance.new).faults }
    ensures out_kept { (O.told out.old).faults ≤ (O.told out.new).faults }
{
    let rt = platform.rt;
    let alloc = platform.alloc;
    let gate = platform.gate;
    match command {
        Command::Play => play_source(alloc, source, out),
        Command::Generate(edits) => play_edits(alloc, *edits, out),
        Command::Keygen(words) => keygen(rt, alloc, files, chance, out, words),
        Command::Found(words) => found(rt, alloc, files, chance, words),
        Command::Serve(words) => serve(rt, alloc, files, net, out, words, gate),
        Command::Client(words) => client(platform, words, out, files, net, chance),
        Command::Check(words) => check(rt, alloc, files, out, words, gate),
        Command::Compare(words) => compare(alloc, files, out, words),
        Command::Help(page) => help(out, *page),
        Command::Version => version(out),
        Command::Public(words) => public(rt, alloc, files, out, words),
        Command::Text(words) => text(rt, alloc, files, out, words, gate),
        Command::Entries(words) => list_entries(rt, alloc, files, out, words, gate),
        Command::ServeAll(words) => serve_all(rt, alloc, files, net, out, words, gate),
    }
}
