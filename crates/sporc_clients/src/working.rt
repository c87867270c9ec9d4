//! A session over a link of its own.

ghost use Rattle.std.specs.Prelude.{◌≡◌, ◌≤◌, length, IfErr, IfOk, OnErr};
ghost use Rattle.sporc_client.specs.ClientModel.{Rise, leaves_of};
ghost use Rattle.sporc_outside.specs.Told.{MayAppend};
ghost use Rattle.sporc_outside.specs.Nets.{AreShutBehind};
ghost use Rattle.sporc_outside.specs.Uses.{use_of};
ghost use Rattle.sporc_script.specs.declared.limits.TheConstants.{MAX_EDITORS};
ghost use Rattle.sporc_shared.specs.Items.{disk_faults, past_of};
ghost use Rattle.sporc_clients.specs.Counts.{CountedIfFailed, RoseIfFailed, counts_around};
ghost use Rattle.sporc_clients.specs.Nets.{IsWork, NotBegun};

use crate::session::{Ended, Wanted, run_session};
use sporc_client::Client;
use sporc_device::Platform;
use sporc_files::Fault;
use sporc_outside::{Chance, Dial, Gate, LeafDisk, Link};
use std::sync::Wait;
use std::thread::Threads;

/// Has a client work with the server at an address. The link to it is shut as soon as the session
/// has ended, and taken back.
pub(crate) fn work<
    R: Threads + Wait + Sync,
    D: LeafDisk + Send,
    N: Dial,
    C: Chance + Send,
    G: Gate + Sync,
>(
    platform: &Platform<'_, R, G>,
    client: Client<D>,
    net: &mut N,
    address: &str,
    chance: &mut C,
    wanted: &Wanted,
) -> Result<Ended<D>, (Fault, Client<D>)>
where
    N::Link: Send,
    requires limit { length wanted.now.editors ≤ MAX_EDITORS }
    ensures work { IfOk result (λ ended. IsWork wanted.now address.now (past_of client)
        (past_of ended.client) (use_of N.told net.old net.new)
        (use_of C.told chance.old chance.new) ended.result) }
    ensures leaves { IfOk result (λ ended. Rise
        (past_of ended.client).first_leaf ended.client.leaves.next (leaves_of ended.client.log)) }
    ensures causes { IfOk result (λ ended. RoseIfFailed (counts_around (N.told net.old).link_faults
        (N.told net.new).link_faults (use_of C.told chance.old chance.new)) ended.result) }
    ensures disk { IfOk result
        (λ ended. CountedIfFailed (disk_faults D.told ended.client) ended.result) }
    ensures err { IfErr result (λ e. NotBegun address.now (use_of N.told net.old net.new)
        (N.told net.old).faults e.0) }
    ensures returned { IfErr result (λ e. e.1 ≡ client) }
    ensures chance { OnErr result (chance.new ≡ chance.old) }
    ensures chance_kept { (C.told chance.old).faults ≤ (C.told chance.new).faults }
    ensures shut { AreShutBehind (N.told net.old).returned (N.told net.new).returned }
    ensures links_out { (N.told net.new).out ≡ (N.told net.old).out }
    ensures may_ask { MayAppend (N.told net.old).asked (N.told net.new).asked address.now }
    ensures net_kept { (N.told net.old).faults ≤ (N.told net.new).faults }
    ensures links_kept { (N.told net.old).link_faults ≤ (N.told net.new).link_faults }
{
    // Not called for its answer: that the links' count can be told here is what `links_kept` rests
    // on.
    let _faults = net.link_faults();
    let Ok(mut link) = net.connect(platform.rt, address) else {
        return Err((Fault::Outside, client));
    };
    let ended = run_session(platform, client, &mut link, chance, wanted);
    link.shut();
    net.take_back(link);
    match ended {
        Ok(ended) => Ok(ended),
        Err((client, _)) => Err((Fault::Memory, client)),
    }
}
