//! The sessions of a server, each in a thread of its own where one can be made.

ghost use Rattle.std.specs.Prelude.{◌≡◌, ◌≢◌, ◌+◌, ◌-◌, ◌^◌, ◌<◌, Err, max, IfSome};
ghost use Rattle.std.specs.Thread.{IsSync, IsSend};
ghost use Rattle.sporc_base.specs.Lists.{StartsWith};
ghost use Rattle.sporc_turn.specs.Knowing.{joined_with};
ghost use Rattle.sporc_turn.specs.Log.{Agrees};
ghost use Rattle.sporc_turn.specs.Passes.{known_of, read_of, IsPassOf};
ghost use Rattle.sporc_serve.specs.Logs.{by_of, OfDocument};
ghost use Rattle.sporc_serve.specs.Crowds.{IsCrowd, IsFirst, IsOther, LeavesNet, ServesOne};
ghost use Rattle.sporc_serve.specs.Crowds.{ServesOthers};
ghost use Rattle.sporc_serve.specs.Visits.{visit, with_end};

use crate::desk::Desk;
use crate::end::SessionEnd;
use crate::fault::ServeFault;
use crate::item::Item;
use crate::service::Service;
use crate::session::serve_link;
use sporc_order::Tail;
use sporc_outside::{Gate, Listen};
use sporc_turn::{Pass, Turn};
use std::sync::Wait;
use std::thread::{Threads, join_mut};

/// What a server answers, once a session more has ended: a fault of the tail goes before one of the
/// net, that before a ticket's, and that before running out of memory.
pub fn with_end(rest: Result<(), ServeFault>, end: SessionEnd) -> Result<(), ServeFault>
    ensures value { result ≡ with_end rest end }
{
    match end {
        SessionEnd::Worn(ticket) => with_worn(rest, ticket),
        SessionEnd::Memory => match rest {
            Ok(()) => Err(ServeFault::Memory),
            Err(fault) => Err(fault),
        },
        SessionEnd::Unkept => Err(ServeFault::Unkept),
        SessionEnd::Closed | SessionEnd::LinkEnded | SessionEnd::LinkFault | SessionEnd::BadFrame =>
            rest,
    }
}

fn with_worn(rest: Result<(), ServeFault>, ticket: u64) -> Result<(), ServeFault>
    ensures { result ≡ with_end rest (SessionEnd.Worn ticket) }
{
    match rest {
        Ok(()) => Err(ServeFault::Worn(ticket)),
        Err(fault) => match fault {
            ServeFault::Memory => Err(ServeFault::Worn(ticket)),
            ServeFault::ListenFault | ServeFault::Worn(_) | ServeFault::Unkept => Err(fault),
        },
    }
}

// Joins a session that has ended to the rest: what the server answers, and number 0's pass, which
// keeps the items of both.
fn joined<T: Tail>(
    turn: &Turn<Desk<T>>,
    rest: (Result<(), ServeFault>, Pass<Item>),
    session: (SessionEnd, Pass<Item>),
) -> (Result<(), ServeFault>, Pass<Item>)
    requires lock { IsPassOf turn.now rest.1 × IsPassOf turn.now session.1 }
    requires first { (known_of rest.1).number ≡ 0 }
    requires other { (known_of session.1).number ≢ 0 }
    ensures answer { result.0 ≡ with_end rest.0 session.0 }
    ensures known { known_of result.1 ≡ joined_with (known_of rest.1) (known_of session.1) }
    ensures read { read_of result.1 ≡ max (read_of rest.1) (read_of session.1) }
    ensures lock { IsPassOf turn.now result.1 }
    ensures begins { StartsWith (known_of result.1).seen (known_of rest.1).seen
        × StartsWith (known_of result.1).seen (known_of session.1).seen }
    ensures agrees { Agrees by_of (known_of result.1) (known_of result.1).seen }
{
    let (answer, first) = rest;
    let (end, second) = session;
    (with_end(answer, end), turn.join(first, second))
}

// Takes so many links, and serves each with a pass that is split from number 0 and joined back. The
// session of a link runs in this thread, and a new one takes the links behind it; where none can be
// made, this one takes them after its session. So no thread's stack has more than one session, but
// in that case.
pub(crate) fn crowd<R: Threads + Wait + Sync, N: Listen, G: Gate + Sync, T: Tail + Send>(
    service: &Service<'_, R, G, T>,
    net: &mut N,
    first: Pass<Item>,
    sessions: u32,
) -> (Result<(), ServeFault>, Pass<Item>)
where
    N: Send,
    N::Link: Send,
    requires lock { IsPassOf service.now.turn.now first }
    requires first { (known_of first).number ≡ 0 }
    requires limit { (known_of first).splits + sessions < 2 ^ 32 }
    ensures lock { IsPassOf service.now.turn.now result.1 }
    ensures first { (known_of result.1).number ≡ 0 }
    ensures crowd { OfDocument (known_of first).seen
        (λ genesis. IsCrowd genesis (known_of first) (known_of result.1) (read_of result.1)
        (N.told net.old) (N.told net.new) sessions result.0) }
    ensures net { LeavesNet (N.told net.old) (N.told net.new) }
    ensures unkept { result.0 ≡ Err ServeFault.Unkept → T.may_fail }
{
    if sessions == 0 {
        return (Ok(()), first);
    }
    let Ok(mut link) = net.accept(service.rt) else {
        return (Err(ServeFault::ListenFault), first);
    };
    let (first, second) = match service.turn.split(first) {
        Ok(both) => both,
        Err(_) => unreachable!(),
    };
    let others = sessions - 1;
    let mut first = Some(first);
    let mut second = Some(second);
    let (rest, session) = join_mut(
        service.rt,
        &mut || -> (Result<(), ServeFault>, Pass<Item>)
            requires { IsSync R.row × IsSync G.row × IsSend N.row × IsSend N.Link.row × IsSend T.row
                × IsFirst service.now.turn.now first others }
            ensures { IfSome first.entry (ServesOthers service.entry.now.turn.now
                (N.told net.entry.now) (N.told net.exit.now) others result.0 result.1) }
        { crowd(service, net, first.take().unwrap(), others) },
        &mut || -> (SessionEnd, Pass<Item>)
            requires { IsSync R.row × IsSync G.row × IsSend T.row
                × IsOther service.now.turn.now second }
            ensures { IfSome second.entry (ServesOne service.entry.now.turn.now
                (visit (N.Link.told link.entry) (N.Link.told link.exit) result.0) result.1) }
        { serve_link(service, &mut link, second.take().unwrap()) },
    );
    net.take_back(link);
    joined(service.turn, rest, session)
}
