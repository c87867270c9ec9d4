//! One session, from its first message to its end.

ghost use Rattle.std.specs.Prelude.{◌≡◌, ◌≢◌, ◌≤◌, [], false, Ok, Err, Some, None, IfErr, IfSome};
ghost use Rattle.std.specs.Prelude.{OnOk};
ghost use Rattle.sporc_outside.specs.Told.{IsTrueIfTold};
ghost use Rattle.sporc_turn.specs.Passes.{known_of, read_of, IsPassOf};
ghost use Rattle.sporc_wire.specs.Messages.{next, stream_of};
ghost use Rattle.sporc_wire.specs.ToServer.{to_server_of};
ghost use Rattle.sporc_order.specs.Sessions.{IsFramed};
ghost use Rattle.sporc_serve.specs.Logs.{OfDocument};
ghost use Rattle.sporc_serve.specs.Traces.{stand_at, Carries, CarriesPast, Leads, LeadsFrom};
ghost use Rattle.sporc_serve.specs.Endings.{inlet_at, IsNext};
ghost use Rattle.sporc_serve.specs.Turns.{HasReadLast};
ghost use Rattle.sporc_serve.specs.Visits.{visit, IsServedSession};

use crate::end::SessionEnd;
use crate::item::Item;
use crate::replying::reply_to;
use crate::sending::send;
use crate::service::Service;
use sporc_order::{Session, Tail};
use sporc_outside::{Gate, Link};
use sporc_turn::Pass;
use sporc_wire::{FrameFault, Frames, ToServer};
use std::sync::Wait;

// The most bytes that one call asks for.
const PIECE: usize = 4096;

// Takes a piece more of the link's bytes.
fn take_piece<L: Link>(link: &mut L, frames: &mut Frames) -> Result<(), SessionEnd>
    requires { (next to_server_of frames.old).answer ≡ Ok None }
    ensures ok { OnOk result (IsNext (inlet_at (L.told link.old) frames.old)
        (inlet_at (L.told link.new) frames.new) (Ok None)) }
    ensures err { IfErr result (λ end. IsNext (inlet_at (L.told link.old) frames.old)
        (inlet_at (L.told link.new) frames.new) (Err end)) }
    ensures written { (L.told link.new).written ≡ (L.told link.old).written }
    ensures shut { (L.told link.new).is_shut ≡ (L.told link.old).is_shut }
    ensures kept { (L.told link.old).faults ≤ (L.told link.new).faults }
    ensures none_unkept { result ≢ Err SessionEnd.Unkept }
{
    let mut buffer = [0u8; PIECE];
    let Ok(n) = link.read(&mut buffer) else {
        return Err(SessionEnd::LinkFault);
    };
    if n == 0 {
        return Err(SessionEnd::LinkEnded);
    }
    match frames.feed(&buffer[..n]) {
        Ok(()) => Ok(()),
        Err(FrameFault::Memory) => Err(SessionEnd::Memory),
        Err(FrameFault::BadMessage(_)) => unreachable!(),
        Err(FrameFault::TooLong(_)) => unreachable!(),
    }
}

// How a session ends at a fault of its frames.
fn end_of(fault: FrameFault) -> SessionEnd
    ensures memory { fault ≡ FrameFault.Memory → result ≡ SessionEnd.Memory }
    ensures bad { fault ≢ FrameFault.Memory → result ≡ SessionEnd.BadFrame }
{
    match fault {
        FrameFault::Memory => SessionEnd::Memory,
        FrameFault::BadMessage(_) | FrameFault::TooLong(_) => SessionEnd::BadFrame,
    }
}

// The next message of the link's bytes, or none: then a piece more of them was taken.
pub(crate) fn next_message<L: Link>(
    link: &mut L,
    frames: &mut Frames,
) -> Result<Option<ToServer>, SessionEnd>
    ensures next { IsNext (inlet_at (L.told link.old) frames.old)
        (inlet_at (L.told link.new) frames.new) result }
    ensures written { (L.told link.new).written ≡ (L.told link.old).written }
    ensures shut { (L.told link.new).is_shut ≡ (L.told link.old).is_shut }
    ensures kept { (L.told link.old).faults ≤ (L.told link.new).faults }
    ensures none_unkept { result ≢ Err SessionEnd.Unkept }
{
    let found = match frames.next_to_server() {
        Ok(found) => found,
        Err(fault) => return Err(end_of(fault)),
    };
    let Some(message) = found else {
        take_piece(link, frames)?;
        return Ok(None);
    };
    Ok(Some(message))
}

// Answers a message, and says why the session ends, if it does.
fn answer<R: Wait, L: Link, G: Gate, T: Tail>(
    service: &Service<'_, R, G, T>,
    link: &mut L,
    session: &mut Session,
    pass: Pass<Item>,
    message: &ToServer,
) -> (Option<SessionEnd>, Pass<Item>)
    requires lock { IsPassOf service.now.turn.now pass }
    requires framed { IsFramed message.now }
    ensures lock { IsPassOf service.now.turn.now result.1 }
    ensures number { (known_of result.1).number ≡ (known_of pass).number }
    ensures shut { (L.told link.new).is_shut ≡ (L.told link.old).is_shut }
    ensures worn { IfSome result.0 (HasReadLast (read_of result.1)) }
    ensures unkept { result.0 ≡ Some SessionEnd.Unkept → T.may_fail }
    ensures goes { CarriesPast message.now
        (λ unread. stand_at (known_of pass) (L.told link.old) unread session.old)
        (λ unread. stand_at (known_of result.1) (L.told link.new) unread session.new) result.0 }
{
    let (reply, pass) = reply_to(service, pass, session, message);
    match reply {
        Ok(reply) => (
            send(service.rt, service.alloc, service.gate, link, &reply),
            pass,
        ),
        Err(end) => (Some(end), pass),
    }
}

// Takes the next message and answers it, or takes a piece more of the link's bytes.
fn step<R: Wait, L: Link, G: Gate, T: Tail>(
    service: &Service<'_, R, G, T>,
    link: &mut L,
    frames: &mut Frames,
    session: &mut Session,
    pass: Pass<Item>,
) -> (Option<SessionEnd>, Pass<Item>)
    requires lock { IsPassOf service.now.turn.now pass }
    ensures lock { IsPassOf service.now.turn.now result.1 }
    ensures number { (known_of result.1).number ≡ (known_of pass).number }
    ensures shut { (L.told link.new).is_shut ≡ (L.told link.old).is_shut }
    ensures worn { IfSome result.0 (HasReadLast (read_of result.1)) }
    ensures unkept { result.0 ≡ Some SessionEnd.Unkept → T.may_fail }
    ensures goes { Carries (stand_at (known_of pass) (L.told link.old) frames.old session.old)
        (stand_at (known_of result.1) (L.told link.new) frames.new session.new) result.0 }
{
    let found = match next_message(link, frames) {
        Ok(found) => found,
        Err(end) => return (Some(end), pass),
    };
    let Some(message) = found else {
        return (None, pass);
    };
    answer(service, link, session, pass, &message)
}

// Answers the messages that are to come, up to the session's end.
fn go_on<R: Wait, L: Link, G: Gate, T: Tail>(
    service: &Service<'_, R, G, T>,
    link: &mut L,
    frames: &mut Frames,
    session: &mut Session,
    pass: Pass<Item>,
) -> (SessionEnd, Pass<Item>)
    requires lock { IsPassOf service.now.turn.now pass }
    ensures lock { IsPassOf service.now.turn.now result.1 }
    ensures number { (known_of result.1).number ≡ (known_of pass).number }
    ensures shut { (L.told link.new).is_shut ≡ (L.told link.old).is_shut }
    ensures worn { HasReadLast (read_of result.1) result.0 }
    ensures unkept { result.0 ≡ SessionEnd.Unkept → T.may_fail }
    ensures goes { Leads (stand_at (known_of pass) (L.told link.old) frames.old session.old)
        (stand_at (known_of result.1) (L.told link.new) (stream_of []) false) (Some result.0) }
{
    let mut pass = pass;
    let rt = service.rt;
    for _ in rt.forever() {
        let (end, after) = step(service, link, frames, session, pass);
        pass = after;
        if let Some(end) = end {
            return (end, pass);
        }
    }
    unreachable!()
}

/// The session over a link from its first message on, at the order under this lock. The message is
/// the first that was taken of the frames. The link is left open.
pub fn serve_from<R: Wait, L: Link, G: Gate, T: Tail>(
    service: &Service<'_, R, G, T>,
    link: &mut L,
    frames: &mut Frames,
    first: &ToServer,
    pass: Pass<Item>,
) -> (SessionEnd, Pass<Item>)
    requires lock { IsPassOf service.now.turn.now pass }
    requires framed { IsFramed first.now }
    ensures lock { IsPassOf service.now.turn.now result.1 }
    ensures number { (known_of result.1).number ≡ (known_of pass).number }
    ensures shut { (L.told link.new).is_shut ≡ (L.told link.old).is_shut }
    ensures worn { HasReadLast (read_of result.1) result.0 }
    ensures unkept { result.0 ≡ SessionEnd.Unkept → T.may_fail }
    ensures goes { LeadsFrom first.now frames.old (L.told link.old) (L.told link.new) result.0
        (known_of pass) (known_of result.1) }
{
    let mut session = Session::new();
    let (end, pass) = answer(service, link, &mut session, pass, first);
    match end {
        Some(end) => (end, pass),
        None => go_on(service, link, frames, &mut session, pass),
    }
}

// A session over a link, at a lock that was chosen before its first message.
pub(crate) fn serve_link<R: Wait, L: Link, G: Gate, T: Tail>(
    service: &Service<'_, R, G, T>,
    link: &mut L,
    pass: Pass<Item>,
) -> (SessionEnd, Pass<Item>)
    requires lock { IsPassOf service.now.turn.now pass }
    ensures lock { IsPassOf service.now.turn.now result.1 }
    ensures number { (known_of result.1).number ≡ (known_of pass).number }
    ensures session { OfDocument (known_of pass).seen (λ genesis. IsServedSession genesis
        (known_of pass) (known_of result.1) (visit (L.told link.old) (L.told link.new) result.0)) }
    ensures worn { HasReadLast (read_of result.1) result.0 }
    ensures unkept { result.0 ≡ SessionEnd.Unkept → T.may_fail }
    ensures shut { IsTrueIfTold (L.told link.new).is_shut }
{
    let mut frames = Frames::new(service.alloc);
    let mut session = Session::new();
    let (end, pass) = go_on(service, link, &mut frames, &mut session, pass);
    link.shut();
    (end, pass)
}
