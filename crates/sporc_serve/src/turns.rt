//! One turn of a session at the order.

ghost use Rattle.std.specs.Prelude.{◌≡◌, ◌≢◌, ◌++◌, Ok, Err, IfOk, IfErr, IfSome, OnOk, OnErr};
ghost use Rattle.sporc_order.specs.Replies.{Says};
ghost use Rattle.sporc_order.specs.Sessions.{step_of, IsExactFor, IsFramed};
ghost use Rattle.sporc_order.specs.Tails.{IsUnanswered};
ghost use Rattle.sporc_turn.specs.Passes.{known_of, read_of, value_of, IsPassOf, IsSameTurn};
ghost use Rattle.sporc_serve.specs.Logs.{log_of, added_of, placed_by, if_answered, OfDocument};
ghost use Rattle.sporc_serve.specs.Sending.{CanBeSent};
ghost use Rattle.sporc_serve.specs.Turns.{HasReadLast, Looks, TakesTurn, end_of};

use crate::desk::{Desk, Sought};
use crate::end::SessionEnd;
use crate::item::Item;
use crate::service::Service;
use sporc_head::Verdict;
use sporc_order::{Reply, Session, Tail, Unanswered};
use sporc_turn::{Held, Pass};
use sporc_wire::ToServer;
use std::alloc::Global;
use std::sync::Wait;

// Answers a message at the order that is held, where a verdict of its entry may be known.
fn step_held<T: Tail>(
    held: &mut Held<Desk<T>>,
    alloc: Global,
    number: u32,
    session: &mut Session,
    message: &ToServer,
    known: Option<&Verdict>,
) -> Result<Reply, Unanswered>
    requires exact { IfSome known (λ v. IsExactFor v.now message.now) }
    ensures turn { IsSameTurn held.old held.new }
    ensures sendable { IsFramed message.now → IfOk result CanBeSent }
    ensures reply { IfOk result
        (Says (step_of (value_of held.old).order session.old message.now).answer) }
    ensures greeted { OnOk result
        (session.new ≡ (step_of (value_of held.old).order session.old message.now).is_greeted) }
    ensures log { log_of (value_of held.new).order (value_of held.new).numbers.items
        ≡ log_of (value_of held.old).order (value_of held.old).numbers.items ++ placed_by number
        (if_answered result (added_of (value_of held.old).order session.old message.now)) }
    ensures unchanged { OnErr result (session.new ≡ session.old) }
    ensures unanswered { IfErr result (IsUnanswered T.may_fail) }
{
    let desk = held.value();
    desk.step(alloc, number, session, message, known)
}

// What the examination of an entry asks of the order that is held.
fn seek_held<T: Tail>(held: &mut Held<Desk<T>>, entry: &[u8]) -> Sought
    ensures turn { IsSameTurn held.old held.new }
    ensures log { log_of (value_of held.new).order (value_of held.new).numbers.items
        ≡ log_of (value_of held.old).order (value_of held.old).numbers.items }
{
    let desk = held.value();
    desk.seek(entry)
}

// Takes a turn, and finds in it what the examination of an entry asks.
pub(crate) fn take_look<R: Wait, G, T: Tail>(
    service: &Service<'_, R, G, T>,
    pass: Pass<Item>,
    entry: &[u8],
) -> (Result<Sought, SessionEnd>, Pass<Item>)
    requires lock { IsPassOf service.now.turn.now pass }
    ensures lock { IsPassOf service.now.turn.now result.1 }
    ensures number { (known_of result.1).number ≡ (known_of pass).number }
    ensures worn { IfErr result.0 (HasReadLast (read_of result.1)) }
    ensures looks { Looks (known_of pass) (known_of result.1) result.0 }
    ensures none_unkept { IfErr result.0 (λ end. end ≢ SessionEnd.Unkept) }
{
    match service.turn.take(service.rt, pass) {
        Ok(mut held) => {
            let sought = seek_held(&mut held, entry);
            (Ok(sought), service.turn.give(held))
        }
        Err((pass, worn)) => (Err(SessionEnd::Worn(worn.0)), pass),
    }
}

// Takes a turn, and answers a message in it, where a verdict of its entry may be known.
pub(crate) fn take_turn<R: Wait, G, T: Tail>(
    service: &Service<'_, R, G, T>,
    pass: Pass<Item>,
    session: &mut Session,
    message: &ToServer,
    known: Option<&Verdict>,
) -> (Result<Reply, SessionEnd>, Pass<Item>)
    requires lock { IsPassOf service.now.turn.now pass }
    requires exact { IfSome known (λ v. IsExactFor v.now message.now) }
    requires framed { IsFramed message.now }
    ensures lock { IsPassOf service.now.turn.now result.1 }
    ensures sendable { IfOk result.0 CanBeSent }
    ensures number { (known_of result.1).number ≡ (known_of pass).number }
    ensures worn { IfErr result.0 (HasReadLast (read_of result.1)) }
    ensures turn { OfDocument (known_of pass).seen (λ genesis. TakesTurn genesis (known_of pass)
        (known_of result.1) session.old session.new message.now result.0) }
    ensures unkept { result.0 ≡ Err SessionEnd.Unkept → T.may_fail }
{
    let number = pass.number();
    match service.turn.take(service.rt, pass) {
        Ok(mut held) => {
            let reply = step_held(&mut held, service.alloc, number, session, message, known);
            (answered(reply), service.turn.give(held))
        }
        Err((pass, worn)) => (Err(SessionEnd::Worn(worn.0)), pass),
    }
}

// The reply, or how the session ends without one.
fn answered(reply: Result<Reply, Unanswered>) -> Result<Reply, SessionEnd>
    ensures ok { IfOk reply (λ r. result ≡ Ok r) }
    ensures err { IfErr reply (λ why. result ≡ Err (end_of why)) }
{
    let reply = reply?;
    Ok(reply)
}
