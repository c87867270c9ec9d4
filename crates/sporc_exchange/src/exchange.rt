//! Messages and their answers.

ghost use Rattle.std.specs.Prelude.{◌≡◌, ◌≢◌, ◌≤◌, ◌<◌, List, ℕ, length, IfErr, IfNone, IfOk};
ghost use Rattle.std.specs.Prelude.{IfSome, Ok};
ghost use Rattle.sporc_head.specs.declared.limits.TheConstants.{MAX_ENTRIES};
ghost use Rattle.sporc_wire.specs.declared.cutter.TheConstants.{MAX_BODY};
ghost use Rattle.sporc_wire.specs.declared.to_server.ToServer.{ToServer};
ghost use Rattle.sporc_wire.specs.declared.to_server.ToServer.TheVariants as to_server;
ghost use Rattle.sporc_wire.specs.ToServer.{to_server_bytes};
ghost use Rattle.sporc_wire.specs.Messages.{framed};
ghost use Rattle.sporc_exchange.specs.Replies.{handed_out, unread_fault};
ghost use Rattle.sporc_exchange.specs.Asking.{AskEnds, IsOutcomeOf, PullEnds, ReceiveEnds};
ghost use Rattle.sporc_exchange.specs.Asking.{SendEnds, SubmitEnds};
ghost use Rattle.sporc_exchange.specs.Wires.{link_at};

use crate::fault::ExchangeFault;
use crate::inbox::Inbox;
use sporc_base::{Bytes, Memory};
use sporc_head::Refusal;
use sporc_outside::{Link, write_all};
use sporc_wire::{Entries, FrameFault, ToClient, ToServer, write_submit, write_to_server};
use std::alloc::{AllocError, Global};

/// What is sent to the server, however it is kept.
pub trait Sent {
    // The message that it is.
    ghost message: { Self → ToServer };

    // The message's frame.
    fn frame(&self, alloc: Global) -> Result<Vec<u8>, Memory>
        requires limit { length (to_server_bytes (message self.now)) ≤ MAX_BODY }
        ensures value { IfOk result
            (λ v. framed (to_server_bytes (message self.now)) ≡ Ok v.items) };
}

impl Sent for ToServer {
    ghost message = { λ m. m };

    fn frame(&self, alloc: Global) -> Result<Vec<u8>, Memory> {
        fitting(write_to_server(alloc, self))
    }
}

// An entry is sent as a Submit.
impl Sent for Bytes {
    ghost message = { λ entry. to_server.Submit entry };

    fn frame(&self, alloc: Global) -> Result<Vec<u8>, Memory> {
        fitting(write_submit(alloc, self.as_slice()))
    }
}

// The frame of a message that isn't too long.
fn fitting(frame: Result<Vec<u8>, FrameFault>) -> Result<Vec<u8>, Memory>
    requires fault { IfErr frame (λ fault. fault ≡ FrameFault.Memory) }
    ensures value { IfOk result (λ v. frame ≡ Ok v) }
{
    match frame {
        Ok(bytes) => Ok(bytes),
        Err(FrameFault::Memory) => Err(AllocError),
        Err(_) => unreachable!(),
    }
}

/// The Hello of a member, for a document.
pub fn hello_of(document: &[u8; 16], member: u16) -> ToServer
    ensures value { result ≡ to_server.Hello document.now member }
    ensures within { length (to_server_bytes result) ≤ MAX_BODY }
{
    ToServer::Hello {
        document: *document,
        member,
    }
}

/// Sends a message.
pub fn send<L: Link, M: Sent>(
    alloc: Global,
    link: &mut L,
    inbox: &Inbox,
    message: &M,
) -> Result<(), ExchangeFault>
    requires { length (to_server_bytes (M.message message.now)) ≤ MAX_BODY }
    ensures sent { SendEnds
        (link_at (L.told link.old) inbox.now) (link_at (L.told link.new) inbox.now)
        (M.message message.now) result }
    ensures shut { (L.told link.new).is_shut ≡ (L.told link.old).is_shut }
{
    let bytes = message.frame(alloc)?;
    match write_all(link, bytes.as_slice()) {
        Ok(()) => Ok(()),
        Err(_) => Err(ExchangeFault::LinkFault),
    }
}

// The fault of a session in which the next frame is no message. A frame that is too long is one
// from its start on.
fn unread(place: u64, fault: FrameFault) -> ExchangeFault
    ensures { result ≡ unread_fault place fault }
{
    match fault {
        FrameFault::BadMessage(at) => ExchangeFault::BadMessage(at),
        FrameFault::TooLong(_) => ExchangeFault::BadMessage(place),
        FrameFault::Memory => ExchangeFault::Memory,
    }
}

// The next message that comes.
fn receive<L: Link>(link: &mut L, inbox: &mut Inbox) -> Result<ToClient, ExchangeFault>
    ensures received { ReceiveEnds
        (link_at (L.told link.old) inbox.old) (link_at (L.told link.new) inbox.new) result }
    ensures shut { (L.told link.new).is_shut ≡ (L.told link.old).is_shut }
{
    loop {
        match inbox.next() {
            Ok(Some(message)) => return Ok(message),
            Ok(None) => {}
            Err(fault) => return Err(unread(inbox.at(), fault)),
        }
        inbox.read_piece(link)?;
    }
}

// Sends a message, and receives the next one.
fn ask<L: Link, M: Sent>(
    alloc: Global,
    link: &mut L,
    inbox: &mut Inbox,
    message: &M,
) -> Result<ToClient, ExchangeFault>
    requires { length (to_server_bytes (M.message message.now)) ≤ MAX_BODY }
    ensures answered { AskEnds
        (link_at (L.told link.old) inbox.old) (link_at (L.told link.new) inbox.new)
        (M.message message.now) result }
    ensures shut { (L.told link.new).is_shut ≡ (L.told link.old).is_shut }
{
    send(alloc, link, inbox, message)?;
    receive(link, inbox)
}

// The entries of an answer to a Pull, if it is one.
fn entries_of(alloc: Global, from: u32, answer: ToClient) -> Option<Entries>
    requires { from ≤ MAX_ENTRIES }
    ensures some { IfSome result (λ es. answer ≡ handed_out from es) }
    ensures none { IfNone result ((came : List (List ℕ)) → answer ≢ handed_out from came) }
{
    match answer {
        ToClient::Empty => Some(Entries::new(alloc)),
        ToClient::Entries { first, entries } => {
            if first == from + 1 && !entries.is_empty() {
                Some(entries)
            } else {
                None
            }
        }
        ToClient::Ordered { .. } | ToClient::Rejected { .. } => None,
    }
}

/// Pulls the entries after some.
pub fn pull<L: Link>(
    alloc: Global,
    link: &mut L,
    inbox: &mut Inbox,
    from: u32,
) -> Result<Entries, ExchangeFault>
    requires { from ≤ MAX_ENTRIES }
    ensures pulled { PullEnds
        (link_at (L.told link.old) inbox.old) (link_at (L.told link.new) inbox.new)
        from result }
    ensures shut { (L.told link.new).is_shut ≡ (L.told link.old).is_shut }
{
    let place = inbox.at();
    let answer = ask(alloc, link, inbox, &ToServer::Pull { from })?;
    match entries_of(alloc, from, answer) {
        Some(entries) => Ok(entries),
        None => Err(ExchangeFault::BadMessage(place)),
    }
}

/// Sends an entry. The answer is that it was ordered, or why it was refused.
pub fn send_entry<L: Link>(
    alloc: Global,
    link: &mut L,
    inbox: &mut Inbox,
    entry: &Bytes,
) -> Result<Option<Refusal>, ExchangeFault>
    requires { length entry.now < MAX_BODY }
    ensures answered { SubmitEnds
        (link_at (L.told link.old) inbox.old) (link_at (L.told link.new) inbox.new)
        entry.now result }
    ensures shut { (L.told link.new).is_shut ≡ (L.told link.old).is_shut }
{
    let place = inbox.at();
    let answer = ask(alloc, link, inbox, entry);
    reply_of(place, answer)
}

// What an answer to an entry says, whose frame began at a place.
fn reply_of(
    place: u64,
    answer: Result<ToClient, ExchangeFault>,
) -> Result<Option<Refusal>, ExchangeFault>
    ensures { IsOutcomeOf place answer result }
{
    match answer {
        Ok(ToClient::Ordered { .. }) => Ok(None),
        Ok(ToClient::Rejected { refusal }) => Ok(Some(refusal)),
        Ok(ToClient::Empty) => Err(ExchangeFault::BadMessage(place)),
        Ok(ToClient::Entries { .. }) => Err(ExchangeFault::BadMessage(place)),
        Err(fault) => Err(fault),
    }
}
