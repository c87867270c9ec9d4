//! Sending an answer.

ghost use Rattle.std.specs.Prelude.{◌≡◌, ◌≢◌, ◌≤◌, ℕ, Some, IfNone, IfSome};
ghost use Rattle.std.specs.Io.KnownBytes.{Appends};
ghost use Rattle.sporc_outside.specs.Counts.{Rose};
ghost use Rattle.sporc_outside.specs.Writing.{AppendsLess};
ghost use Rattle.sporc_order.specs.declared.session.Answer.{Answer};
ghost use Rattle.sporc_order.specs.declared.session.Answer.TheVariants as answers;
ghost use Rattle.sporc_order.specs.Replies.{Says};
ghost use Rattle.sporc_order.specs.Sessions.{IsSendable};
ghost use Rattle.sporc_serve.specs.Sending.{bytes_of, CanBeSent};
ghost use Rattle.sporc_serve.specs.Endings.{IsSendEnd};
ghost use Rattle.sporc_serve.specs.Turns.{HasReadLast};

use crate::end::SessionEnd;
use sporc_order::Reply;
use sporc_outside::{Gate, Link, write_all};
use sporc_wire::{FrameFault, ToClient, write_to_client};
use std::alloc::Global;
use std::sync::Wait;

// Sends what says an answer, and tells why the session ends, if it does.
pub(crate) fn send<R: Wait, L: Link, G: Gate>(
    rt: &R,
    alloc: Global,
    gate: &G,
    link: &mut L,
    reply: &Reply,
) -> Option<SessionEnd>
    requires { CanBeSent reply.now }
    ensures none { (answer : Answer) → Says answer reply.now → IfNone result
        (Appends (L.told link.old).written (L.told link.new).written (bytes_of answer)) }
    ensures some { (answer : Answer) → Says answer reply.now
        → IfSome result (IsSendEnd answer (L.told link.old).written (L.told link.new).written
        (L.told link.old).faults (L.told link.new).faults) }
    ensures worn { (read : ℕ) → IfSome result (HasReadLast read) }
    ensures none_unkept { result ≢ Some SessionEnd.Unkept }
    ensures close { reply.now ≡ Reply.Close → result ≡ Some SessionEnd.Closed }
    ensures left { (L.told link.new).left ≡ (L.told link.old).left }
    ensures shut { (L.told link.new).is_shut ≡ (L.told link.old).is_shut }
    ensures kept { (L.told link.old).faults ≤ (L.told link.new).faults }
{
    match reply {
        Reply::Message(message) => {
            tell_gate(rt, gate, message);
            write(alloc, link, message)
        }
        Reply::Frame(frame) => write_frame(link, frame.as_slice()),
        Reply::Silent => None,
        Reply::Close => Some(SessionEnd::Closed),
    }
}

// Calls the gate if an entry was ordered.
fn tell_gate<R: Wait, G: Gate>(rt: &R, gate: &G, message: &ToClient) {
    if let ToClient::Ordered { pos } = message {
        gate.after_accept(rt, *pos);
    }
}

// Writes a message.
fn write<L: Link>(alloc: Global, link: &mut L, message: &ToClient) -> Option<SessionEnd>
    requires { IsSendable (answers.Send message.now) }
    ensures none { IfNone result (Appends (L.told link.old).written (L.told link.new).written
        (bytes_of (answers.Send message.now))) }
    ensures some { IfSome result (IsSendEnd (answers.Send message.now) (L.told link.old).written
        (L.told link.new).written (L.told link.old).faults (L.told link.new).faults) }
    ensures left { (L.told link.new).left ≡ (L.told link.old).left }
    ensures shut { (L.told link.new).is_shut ≡ (L.told link.old).is_shut }
    ensures kept { (L.told link.old).faults ≤ (L.told link.new).faults }
{
    match write_to_client(alloc, message) {
        Ok(frame) => write_frame(link, &frame),
        Err(FrameFault::Memory) => Some(SessionEnd::Memory),
        Err(FrameFault::BadMessage(_) | FrameFault::TooLong(_)) => unreachable!(),
    }
}

// Writes a frame.
fn write_frame<L: Link>(link: &mut L, frame: &[u8]) -> Option<SessionEnd>
    ensures none { IfNone result
        (Appends (L.told link.old).written (L.told link.new).written frame.now) }
    ensures some { IfSome result (λ end. (end ≡ SessionEnd.LinkFault)
        × AppendsLess (L.told link.old).written (L.told link.new).written frame.now
        × Rose (L.told link.old).faults (L.told link.new).faults) }
    ensures left { (L.told link.new).left ≡ (L.told link.old).left }
    ensures shut { (L.told link.new).is_shut ≡ (L.told link.old).is_shut }
    ensures kept { (L.told link.old).faults ≤ (L.told link.new).faults }
{
    match write_all(link, frame) {
        Ok(()) => None,
        Err(_) => Some(SessionEnd::LinkFault),
    }
}
