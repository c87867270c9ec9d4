//! Answering a message, in a turn or two.

ghost use Rattle.std.specs.Prelude.{◌≡◌, Err, IfOk, IfErr, IfSome};
ghost use Rattle.sporc_head.specs.Examined.{IsExact};
ghost use Rattle.sporc_order.specs.Sessions.{IsFramed};
ghost use Rattle.sporc_turn.specs.Passes.{known_of, read_of, IsPassOf};
ghost use Rattle.sporc_serve.specs.Logs.{OfDocument};
ghost use Rattle.sporc_serve.specs.Sending.{CanBeSent};
ghost use Rattle.sporc_serve.specs.Turns.{HasReadLast, TakesTurn};

use crate::end::SessionEnd;
use crate::item::Item;
use crate::service::Service;
use crate::turns::{take_look, take_turn};
use sporc_head::Verdict;
use sporc_order::{Reply, Session, Tail};
use sporc_outside::Gate;
use sporc_turn::Pass;
use sporc_wire::ToServer;
use std::alloc::Global;
use std::sync::Wait;

// Answers a message in a turn. The signature of a submitted entry is examined before it, while no
// turn is held: under the key that a turn before looked up.
pub(crate) fn reply_to<R: Wait, G: Gate, T: Tail>(
    service: &Service<'_, R, G, T>,
    pass: Pass<Item>,
    session: &mut Session,
    message: &ToServer,
) -> (Result<Reply, SessionEnd>, Pass<Item>)
    requires lock { IsPassOf service.now.turn.now pass }
    requires framed { IsFramed message.now }
    ensures lock { IsPassOf service.now.turn.now result.1 }
    ensures sendable { IfOk result.0 CanBeSent }
    ensures number { (known_of result.1).number ≡ (known_of pass).number }
    ensures worn { IfErr result.0 (HasReadLast (read_of result.1)) }
    ensures turn { OfDocument (known_of pass).seen (λ genesis. TakesTurn genesis (known_of pass)
        (known_of result.1) session.old session.new message.now result.0) }
    ensures unkept { result.0 ≡ Err SessionEnd.Unkept → T.may_fail }
{
    let Some(entry) = session.entry_in(message) else {
        return take_turn(service, pass, session, message, None);
    };
    let (sought, pass) = take_look(service, pass, entry);
    match sought {
        Ok(sought) => {
            let verdict = examined(service.alloc, sought.key, entry);
            service
                .gate
                .before_line(service.rt, pass.number(), sought.position);
            take_turn(service, pass, session, message, verdict.as_ref())
        }
        Err(end) => (Err(end), pass),
    }
}

// What examining an entry finds, if there is a key for it and memory suffices.
fn examined(alloc: Global, key: Option<[u8; 56]>, entry: &[u8]) -> Option<Verdict>
    ensures { IfSome result (λ v. IsExact v entry.now) }
{
    match key {
        Some(key) => Verdict::of(alloc, &key, entry).ok(),
        None => None,
    }
}
