//! A member's line with the history that it saved.

ghost use Rattle.std.specs.Prelude.{◌≡◌, ◌≤◌, [], option_map, IfErr, IfOk};
ghost use Rattle.sporc_base.specs.Outcome.{Gives};
ghost use Rattle.sporc_entry.specs.Genesis.{IsGenesis};
ghost use Rattle.sporc_outside.specs.Nets.{AreShutBehind};
ghost use Rattle.sporc_outside.specs.Uses.{use_of};
ghost use Rattle.sporc_files.specs.Faults.{AnswersUnlessOutside};
ghost use Rattle.sporc_device.specs.Resuming.{IsResumed, NotResumed, begin_at, client_with};
ghost use Rattle.sporc_device.specs.Resuming.{saved_of};
ghost use Rattle.sporc_files.specs.Uses.{AsksAtMost};
ghost use Rattle.sporc_device.specs.Opening.{links_for_hints};
ghost use Rattle.sporc_device.specs.Resuming.{entries_by, read_whole, whole_before};

use crate::member::Member;
use crate::opening::open_member;
use crate::platform::Platform;
use lms_sign::Signer;
use sporc_client::Client;
use sporc_files::{Fault, File, stopped};
use sporc_keys::RingFile;
use sporc_line::Line;
use sporc_member::Device;
use sporc_outside::{Dial, Gate, LeafDisk};
use sporc_store::{LOADERS, load_many, saved_stop};
use std::alloc::Global;
use std::sync::Wait;
use std::thread::Threads;

/// The line of a member's device with the entries of its saved history, if there is one. That of a
/// joiner is read to its end before the entries of a server are fetched for hints.
pub fn resume_line<R: Threads + Wait + Sync, N: Dial, G: Gate + Sync>(
    platform: &Platform<'_, R, G>,
    net: &mut N,
    address: &str,
    member: Member,
) -> Result<Line, Fault>
    requires genesis { IsGenesis member.genesis }
    ensures ok { IfOk result (IsResumed (begin_at member address.now) (saved_of member)
        (use_of N.told net.old net.new)) }
    ensures err { IfErr result (NotResumed (begin_at member address.now) (saved_of member)
        (use_of N.told net.old net.new)) }
    ensures shut { AreShutBehind (N.told net.old).returned (N.told net.new).returned }
    ensures links_out { (N.told net.new).out ≡ (N.told net.old).out }
    ensures may_ask { AsksAtMost (links_for_hints member.ring) (N.told net.old).asked
        (N.told net.new).asked address.now }
    ensures kept { (N.told net.old).faults ≤ (N.told net.new).faults }
    ensures links_kept { (N.told net.old).link_faults ≤ (N.told net.new).link_faults }
{
    let Member {
        genesis,
        device,
        ring,
        saved,
    } = member;
    check_before(device, &ring, &genesis.document, &saved)?;
    let alloc = platform.alloc;
    let line = open_member(platform.rt, alloc, net, address, genesis, device, &ring)?;
    load(platform, device, line, saved)
}

// Whether the saved history of a joiner, who has no key of epoch 0, is whole.
fn check_before(
    device: Device,
    ring: &RingFile,
    document: &[u8; 16],
    saved: &Option<Vec<u8>>,
) -> Result<(), Fault>
    ensures value { Gives (λ done. done) result (whole_before device ring.now.epoch_key document.now
        (option_map (λ bytes. bytes.items) saved.now)) }
{
    match ring.epoch_key {
        Some(_) => Ok(()),
        None => read_whole(device, document, saved),
    }
}

// Whether a saved history is whole, if there is one.
fn read_whole(device: Device, document: &[u8; 16], saved: &Option<Vec<u8>>) -> Result<(), Fault>
    ensures value { Gives (λ done. done) result
        (read_whole device document.now (option_map (λ bytes. bytes.items) saved.now)) }
{
    match saved {
        Some(bytes) => stopped(
            File::History(device),
            saved_stop(document, bytes.as_slice()),
        ),
        None => Ok(()),
    }
}

// The line with the entries of a saved history, if there is one.
fn load<R: Threads + Wait + Sync, G: Gate + Sync>(
    platform: &Platform<'_, R, G>,
    device: Device,
    line: Line,
    saved: Option<Vec<u8>>,
) -> Result<Line, Fault>
    requires empty { line.entries ≡ [] }
    ensures entries { AnswersUnlessOutside (λ full. full.entries) ⊥ result
        (entries_by device line.genesis line.kit (option_map (λ bytes. bytes.items) saved)) }
    ensures genesis { IfOk result (λ full. full.genesis ≡ line.genesis) }
    ensures kit { IfOk result (λ full. full.kit ≡ line.kit) }
{
    let Some(bytes) = saved else {
        return Ok(line);
    };
    match load_many(
        platform.rt,
        platform.alloc,
        bytes.as_slice(),
        line,
        LOADERS,
        platform.gate,
    ) {
        Ok((line, stop)) => {
            stopped(File::History(device), stop)?;
            Ok(line)
        }
        Err(_) => Err(Fault::Memory),
    }
}

/// The client of a member that goes on with the entries of its line, each of them an accept by 0.
pub fn resume_client<D: LeafDisk>(
    alloc: Global,
    line: Line,
    signer: Signer<D>,
) -> Result<Client<D>, (Fault, Signer<D>)>
    ensures resumed { IfOk result (λ client. client ≡ client_with line signer) }
    ensures memory { IfErr result (λ e. e.0 ≡ Fault.Memory) }
    ensures returned { IfErr result (λ e. e.1 ≡ signer) }
{
    match Client::resume(alloc, line, signer) {
        Ok(client) => Ok(client),
        Err((line, signer, _)) => {
            drop(line);
            Err((Fault::Memory, signer))
        }
    }
}
