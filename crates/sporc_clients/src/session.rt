//! A session of a client.

ghost use Rattle.std.specs.Prelude.{◌≡◌, ◌≤◌, length, IfErr, IfOk, OnErr};
ghost use Rattle.sporc_outside.specs.Uses.{use_of};
ghost use Rattle.sporc_client.specs.ClientModel.{Rise, leaves_of};
ghost use Rattle.sporc_script.specs.declared.limits.TheConstants.{MAX_EDITORS};
ghost use Rattle.sporc_shared.specs.Items.{disk_faults, past_of};
ghost use Rattle.sporc_clients.specs.Counts.{CountedIfFailed, RoseIfFailed, counts_around};
ghost use Rattle.sporc_clients.specs.Sessions.{IsSessionOf, link_use};

use sporc_base::{Items, Memory};
use sporc_client::Client;
use sporc_device::Platform;
use sporc_outside::{Chance, Gate, LeafDisk, Link};
use sporc_script::EditorScript;
use sporc_session::{SessionFault, session};
use sporc_shared::SharedClient;
use std::sync::Wait;
use std::thread::Threads;

/// What is asked of a session.
#[derive(Drop)]
pub struct Wanted {
    /// How many rounds it has beside the editors, and at most after them.
    pub rounds: u32,
    /// How many entries the history is to have.
    pub until: u32,
    /// What the editors do.
    pub editors: Items<EditorScript>,
}

/// A client after a session, and how the session ended.
#[derive(Drop)]
pub struct Ended<D: LeafDisk> {
    pub client: Client<D>,
    pub result: Result<(), SessionFault>,
}

/// Has a client work with a server over a link. If memory runs out before the session begins, the
/// client comes back.
pub(crate) fn run_session<
    R: Threads + Wait + Sync,
    D: LeafDisk + Send,
    L: Link + Send,
    C: Chance + Send,
    G: Gate + Sync,
>(
    platform: &Platform<'_, R, G>,
    client: Client<D>,
    link: &mut L,
    chance: &mut C,
    wanted: &Wanted,
) -> Result<Ended<D>, (Client<D>, Memory)>
    requires limit { length wanted.now.editors ≤ MAX_EDITORS }
    ensures session { IfOk result (λ ended. IsSessionOf wanted.now (past_of client)
        (past_of ended.client) (link_use (use_of L.told link.old link.new))
        (use_of C.told chance.old chance.new) ended.result) }
    ensures leaves { IfOk result (λ ended. Rise
        (past_of ended.client).first_leaf ended.client.leaves.next (leaves_of ended.client.log)) }
    ensures causes { IfOk result (λ ended. RoseIfFailed (counts_around (L.told link.old).faults
        (L.told link.new).faults (use_of C.told chance.old chance.new)) ended.result) }
    ensures disk { IfOk result
        (λ ended. CountedIfFailed (disk_faults D.told ended.client) ended.result) }
    ensures chance_kept { (C.told chance.old).faults ≤ (C.told chance.new).faults }
    ensures shut { (L.told link.new).is_shut ≡ (L.told link.old).is_shut }
    ensures returned { IfErr result (λ e. e.0 ≡ client) }
    ensures link { OnErr result (link.new ≡ link.old) }
    ensures chance { OnErr result (chance.new ≡ chance.old) }
{
    match SharedClient::open(platform.alloc, client) {
        Ok((shared, first)) => {
            let editors = wanted.editors.as_slice();
            let (result, first) = session(
                platform.rt,
                platform.alloc,
                &shared,
                first,
                link,
                chance,
                editors,
                wanted.rounds,
                wanted.until,
                platform.gate,
            );
            match shared.close(first) {
                Ok(client) => Ok(Ended { client, result }),
                Err(_) => unreachable!(),
            }
        }
        Err((client, memory)) => Err((client, memory)),
    }
}
