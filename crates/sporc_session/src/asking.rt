//! Exchanges with the server, by the faults of a session.

ghost use Rattle.std.specs.Prelude.{◌≡◌, ◌≤◌, ◌<◌, [], ◌∷◌, length, IfErr, IfOk, OnOk};
ghost use Rattle.sporc_head.specs.declared.limits.TheConstants.{MAX_ENTRIES};
ghost use Rattle.sporc_wire.specs.declared.cutter.TheConstants.{MAX_BODY};
ghost use Rattle.sporc_wire.specs.declared.to_server.ToServer.TheVariants as to_server;
ghost use Rattle.sporc_wire.specs.ToServer.{to_server_bytes};
ghost use Rattle.sporc_exchange.specs.Asking.{IsAnswered};
ghost use Rattle.sporc_exchange.specs.Replies.{handed_out};
ghost use Rattle.sporc_exchange.specs.Wires.{Exchanged, link_at, spelled};
ghost use Rattle.sporc_session.specs.Asking.{AskFails, Unsent, session_fault};

use crate::fault::SessionFault;
use sporc_base::Bytes;
use sporc_exchange::{ExchangeFault, Inbox};
use sporc_head::Refusal;
use sporc_outside::Link;
use sporc_wire::{Entries, ToServer};
use std::alloc::Global;

// The fault of a session in which an exchange fails.
fn session_fault(fault: ExchangeFault) -> SessionFault
    ensures { result ≡ session_fault fault }
{
    match fault {
        ExchangeFault::LinkFault => SessionFault::LinkFault,
        ExchangeFault::BadMessage(place) => SessionFault::BadMessage(place),
        ExchangeFault::LinkEnded(taken) => SessionFault::LinkEnded(taken),
        ExchangeFault::Memory => SessionFault::Memory,
    }
}

// Sends a message.
pub(crate) fn send<L: Link>(
    alloc: Global,
    link: &mut L,
    inbox: &Inbox,
    message: &ToServer,
) -> Result<(), SessionFault>
    requires { length (to_server_bytes message.now) ≤ MAX_BODY }
    ensures ok { OnOk result (Exchanged
        (link_at (L.told link.old) inbox.now) (link_at (L.told link.new) inbox.now)
        (spelled (message.now ∷ [])) []) }
    ensures err { IfErr result (Unsent
        (link_at (L.told link.old) inbox.now) (link_at (L.told link.new) inbox.now)
        message.now) }
    ensures shut { (L.told link.new).is_shut ≡ (L.told link.old).is_shut }
{
    match sporc_exchange::send(alloc, link, inbox, message) {
        Ok(()) => Ok(()),
        Err(fault) => Err(session_fault(fault)),
    }
}

// Pulls the entries after some.
pub(crate) fn pull<L: Link>(
    alloc: Global,
    link: &mut L,
    inbox: &mut Inbox,
    from: u32,
) -> Result<Entries, SessionFault>
    requires { from ≤ MAX_ENTRIES }
    ensures ok { IfOk result (λ entries. Exchanged
        (link_at (L.told link.old) inbox.old) (link_at (L.told link.new) inbox.new)
        (spelled (to_server.Pull from ∷ [])) (handed_out from entries ∷ [])) }
    ensures err { IfErr result (AskFails
        (link_at (L.told link.old) inbox.old) (link_at (L.told link.new) inbox.new)
        (to_server.Pull from)) }
    ensures shut { (L.told link.new).is_shut ≡ (L.told link.old).is_shut }
{
    match sporc_exchange::pull(alloc, link, inbox, from) {
        Ok(entries) => Ok(entries),
        Err(fault) => Err(session_fault(fault)),
    }
}

// Sends an entry. The answer is that it was ordered, or why it was refused.
pub(crate) fn send_entry<L: Link>(
    alloc: Global,
    link: &mut L,
    inbox: &mut Inbox,
    entry: &Bytes,
) -> Result<Option<Refusal>, SessionFault>
    requires { length entry.now < MAX_BODY }
    ensures ok { IfOk result (IsAnswered
        (link_at (L.told link.old) inbox.old) (link_at (L.told link.new) inbox.new)
        entry.now) }
    ensures err { IfErr result (AskFails
        (link_at (L.told link.old) inbox.old) (link_at (L.told link.new) inbox.new)
        (to_server.Submit entry.now)) }
    ensures shut { (L.told link.new).is_shut ≡ (L.told link.old).is_shut }
{
    match sporc_exchange::send_entry(alloc, link, inbox, entry) {
        Ok(refusal) => Ok(refusal),
        Err(fault) => Err(session_fault(fault)),
    }
}
