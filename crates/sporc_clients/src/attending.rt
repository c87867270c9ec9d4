//! A member's session, whole.

ghost use Rattle.std.specs.Prelude.{◌≡◌, ◌+◌, ◌≤◌, length, IfErr, IfOk, OnErr};
ghost use Rattle.sporc_outside.specs.Nets.{AreShutBehind};
ghost use Rattle.sporc_outside.specs.Uses.{use_of};
ghost use Rattle.sporc_client.specs.ClientModel.{Rise, leaves_of};
ghost use Rattle.sporc_entry.specs.Genesis.{IsGenesis};
ghost use Rattle.sporc_script.specs.declared.limits.TheConstants.{MAX_EDITORS};
ghost use Rattle.sporc_shared.specs.Items.{disk_faults, past_of};
ghost use Rattle.sporc_clients.specs.Attending.{IsAttended, NotAttended};
ghost use Rattle.sporc_device.specs.Resuming.{begin_at, saved_of};
ghost use Rattle.sporc_clients.specs.Attending.{signs_of};
ghost use Rattle.sporc_clients.specs.Counts.{CountedIfFailed, RoseIfFailed, counts_around};
ghost use Rattle.sporc_files.specs.Uses.{AsksAtMost};
ghost use Rattle.sporc_device.specs.Opening.{links_for_hints};

use crate::session::{Ended, Wanted};
use crate::working::work;
use lms_sign::Signer;
use sporc_device::{Member, Platform, resume_client, resume_line};
use sporc_files::Fault;
use sporc_outside::{Chance, Dial, Gate, LeafDisk};
use std::sync::Wait;
use std::thread::Threads;

/// Opens a member's line, loads the history that it saved, if it did, and has its client work with
/// the server at an address. A joiner's hints are fetched over a link of their own before, unless
/// its saved history is not whole.
pub(crate) fn attend<
    R: Threads + Wait + Sync,
    D: LeafDisk + Send,
    N: Dial,
    C: Chance + Send,
    G: Gate + Sync,
>(
    platform: &Platform<'_, R, G>,
    member: Member,
    signer: Signer<D>,
    net: &mut N,
    address: &str,
    chance: &mut C,
    wanted: &Wanted,
) -> Result<Ended<D>, (Fault, Signer<D>)>
where
    N::Link: Send,
    requires genesis { IsGenesis member.genesis }
    requires limit { length wanted.now.editors ≤ MAX_EDITORS }
    ensures attended { IfOk result (λ ended. IsAttended (begin_at member address.now)
        (saved_of member) (use_of N.told net.old net.new) wanted.now (signs_of signer)
        (past_of ended.client) (use_of C.told chance.old chance.new) ended.result) }
    ensures leaves { IfOk result (λ ended. Rise
        (past_of ended.client).first_leaf ended.client.leaves.next (leaves_of ended.client.log)) }
    ensures causes { IfOk result (λ ended. RoseIfFailed (counts_around (N.told net.old).link_faults
        (N.told net.new).link_faults (use_of C.told chance.old chance.new)) ended.result) }
    ensures disk { IfOk result
        (λ ended. CountedIfFailed (disk_faults D.told ended.client) ended.result) }
    ensures err { IfErr result (λ e. NotAttended (begin_at member address.now) (saved_of member)
        (use_of N.told net.old net.new) e.0) }
    ensures returned { IfErr result (λ e. e.1 ≡ signer) }
    ensures chance { OnErr result (chance.new ≡ chance.old) }
    ensures chance_kept { (C.told chance.old).faults ≤ (C.told chance.new).faults }
    ensures shut { AreShutBehind (N.told net.old).returned (N.told net.new).returned }
    ensures links_out { (N.told net.new).out ≡ (N.told net.old).out }
    ensures may_ask { AsksAtMost (links_for_hints member.ring + 1) (N.told net.old).asked
        (N.told net.new).asked address.now }
    ensures net_kept { (N.told net.old).faults ≤ (N.told net.new).faults }
    ensures links_kept { (N.told net.old).link_faults ≤ (N.told net.new).link_faults }
{
    let line = match resume_line(platform, net, address, member) {
        Ok(line) => line,
        Err(fault) => return Err((fault, signer)),
    };
    let client = match resume_client(platform.alloc, line, signer) {
        Ok(client) => client,
        Err((fault, signer)) => return Err((fault, signer)),
    };
    match work(platform, client, net, address, chance, wanted) {
        Ok(ended) => Ok(ended),
        Err((fault, client)) => Err((fault, client.close())),
    }
}
