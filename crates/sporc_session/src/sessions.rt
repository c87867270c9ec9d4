//! A session.

ghost use Rattle.std.specs.Prelude.{◌≡◌, ◌≤◌, [], length, IfErr};
ghost use Rattle.sporc_outside.specs.Uses.{use_of};
ghost use Rattle.sporc_script.specs.declared.limits.TheConstants.{MAX_EDITORS};
ghost use Rattle.sporc_turn.specs.Passes.{known_of, out_of};
ghost use Rattle.sporc_turn.specs.Log.{Agrees};
ghost use Rattle.sporc_shared.specs.Items.{by_of};
ghost use Rattle.sporc_shared.specs.Passes.{IsPassOf};
ghost use Rattle.sporc_session.specs.Traces.{IsAllowedLog};
ghost use Rattle.sporc_session.specs.Replies.{HasReadFor};
ghost use Rattle.sporc_session.specs.Sessions.{HasSession};

use crate::context::Context;
use crate::crowd::crowd;
use crate::fault::SessionFault;
use crate::phase::second_phase;
use sporc_exchange::Inbox;
use sporc_outside::{Chance, Gate, LeafDisk, Link};
use sporc_script::EditorScript;
use sporc_shared::{Pass, SharedClient};
use std::alloc::Global;
use std::sync::Wait;
use std::thread::Threads;

/// A session of the client with a server over a link: at most eight editors in threads of their own
/// beside a receiver, and then the receiver alone, which goes on until nothing is pending and the
/// history has `until` entries, for at most as many rounds again.
///
/// A round is a pull of the entries that the client lacks, their acceptance, and a submission,
/// whose entry is sent and answered. After an entry was rejected the receiver pulls until no
/// entries come.
///
/// The pass is number 0, of which none was split, and is handed back as such. The editors have the
/// numbers from 1 on, in the order of their scripts.
///
/// The fault is that of the receiver's first rounds, else that of the editor with the lowest
/// number, else that of the rounds after them; an editor's fault ends its own script alone. In a
/// round these may come, each with its cause (`specs/Endings.antt`): LinkFault, LinkEnded,
/// BadMessage, Refused, JournalFull, ChanceFault, HistoryFull, Leaf, ServerRejected, Worn and
/// Memory. An editor's line ends with EditRefused, JournalFull, Worn or Memory. NotSettled comes
/// only after all rounds. A submission that is refused for another cause sends nothing, and its
/// round ends.
pub fn session<
    R: Threads + Wait + Sync,
    D: LeafDisk + Send,
    L: Link + Send,
    C: Chance + Send,
    G: Gate + Sync,
>(
    rt: &R,
    alloc: Global,
    shared: &SharedClient<D>,
    pass: Pass,
    link: &mut L,
    chance: &mut C,
    editors: &[EditorScript],
    rounds: u32,
    until: u32,
    gate: &G,
) -> (Result<(), SessionFault>, Pass)
    requires lock { IsPassOf shared.now pass }
    requires first { (known_of pass).number ≡ 0 }
    requires alone { ((known_of pass).splits ≡ 0) × ((known_of pass).joined ≡ []) }
    requires allowed { IsAllowedLog (known_of pass).seen }
    requires agrees { Agrees by_of (known_of pass) (known_of pass).seen }
    requires limit { length editors.now ≤ MAX_EDITORS }
    ensures lock { IsPassOf shared.now result.1 }
    ensures back { ((known_of result.1).number ≡ 0) × (out_of result.1 ≡ 0) }
    ensures session { HasSession pass result.1 (use_of L.told link.old link.new)
        (use_of C.told chance.old chance.new) rounds until editors.now result.0 }
    ensures shut { (L.told link.new).is_shut ≡ (L.told link.old).is_shut }
    ensures read { IfErr result.0 (HasReadFor result.1) }
{
    let context = Context {
        rt,
        alloc,
        shared,
        gate,
    };
    let mut inbox = Inbox::new(alloc);
    let (ends, pass) = crowd(&context, link, &mut inbox, chance, pass, rounds, editors);
    if let Err(fault) = ends.receiver {
        return (Err(fault), pass);
    }
    if let Err(fault) = ends.editors {
        return (Err(fault), pass);
    }
    second_phase(&context, link, &mut inbox, chance, pass, rounds, until)
}
