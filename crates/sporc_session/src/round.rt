//! One round of the receiver.

ghost use Rattle.std.specs.Prelude.{◌≡◌, ◌+◌, ◌<◌, ◌≤◌, ℕ, List, [], length, IfErr};
ghost use Rattle.sporc_head.specs.declared.refusal.Refusal.{Refusal};
ghost use Rattle.sporc_head.specs.declared.limits.TheConstants.{MAX_ENTRIES};
ghost use Rattle.sporc_turn.specs.Passes.{known_of};
ghost use Rattle.sporc_wire.specs.declared.cutter.TheConstants.{MAX_BODY};
ghost use Rattle.sporc_shared.specs.Passes.{IsPassOf};
ghost use Rattle.sporc_session.specs.Traces.{CountsSame, stand_at};
ghost use Rattle.sporc_session.specs.Outcomes.{GatheredAll, LinkDid, RoundDid};
ghost use Rattle.sporc_session.specs.Protocol.{Between, Checking, Drains, Pulling, Sending};
ghost use Rattle.sporc_session.specs.Protocol.{Submits, Taking};
ghost use Rattle.sporc_session.specs.Replies.{HasReadFor, checked_of};
ghost use Rattle.sporc_exchange.specs.Wires.{LinkStand, link_at};

use crate::asking::{pull, send_entry};
use crate::context::Context;
use crate::fault::SessionFault;
use crate::receiver::{WithPass, plain, submit, take_all};
use sporc_base::Bytes;
use sporc_exchange::Inbox;
use sporc_head::Refusal;
use sporc_outside::{Chance, Gate, LeafDisk, Link};
use sporc_shared::Pass;
use std::sync::Wait;

// Pulls the entries after so many, and accepts them. The answer is how many there are then.
fn gather<R: Wait, D: LeafDisk, L: Link, G: Gate>(
    context: &Context<'_, R, D, G>,
    link: &mut L,
    inbox: &mut Inbox,
    pass: Pass,
    at: u32,
) -> WithPass<u32>
    requires lock { IsPassOf context.now.shared.now pass }
    requires first { (known_of pass).number ≡ 0 }
    requires limit { at ≤ MAX_ENTRIES }
    ensures lock { IsPassOf context.now.shared.now result.1 }
    ensures counts { CountsSame (known_of pass) (known_of result.1) }
    ensures gathered { GatheredAll (known_of pass) (known_of result.1)
        (link_at (L.told link.old) inbox.old) (link_at (L.told link.new) inbox.new)
        at result.0 }
    ensures shut { (L.told link.new).is_shut ≡ (L.told link.old).is_shut }
    ensures read { IfErr result.0 (HasReadFor result.1) }
{
    match pull(context.alloc, link, inbox, at) {
        Ok(entries) => {
            let count = entries.len();
            let came = entries.into_vec().into_iter();
            let (took, pass) = take_all(context, pass, at, came);
            match took {
                Ok(()) => (Ok(at + count as u32), pass),
                Err(fault) => (Err(fault), pass),
            }
        }
        Err(fault) => (Err(fault), pass),
    }
}

// Pulls until no entries come.
fn drain<R: Wait, D: LeafDisk, L: Link, G: Gate>(
    context: &Context<'_, R, D, G>,
    link: &mut L,
    inbox: &mut Inbox,
    pass: Pass,
    at: u32,
) -> WithPass<()>
    requires lock { IsPassOf context.now.shared.now pass }
    requires first { (known_of pass).number ≡ 0 }
    requires limit { at ≤ MAX_ENTRIES }
    ensures lock { IsPassOf context.now.shared.now result.1 }
    ensures counts { CountsSame (known_of pass) (known_of result.1) }
    ensures did { (entry : List ℕ) (refusal : Refusal) → LinkDid (known_of pass) (known_of result.1)
        (link_at (L.told link.old) inbox.old) (link_at (L.told link.new) inbox.new)
        (λ n. Taking n at [] (Drains entry refusal)) (λ n. Checking n entry refusal) result.0 }
    ensures shut { (L.told link.new).is_shut ≡ (L.told link.old).is_shut }
    ensures read { IfErr result.0 (HasReadFor result.1) }
{
    let mut mine = pass;
    let mut now = at;
    let mut more = true;
    while more {
        let (gathered, next) = gather(context, link, inbox, mine, now);
        mine = next;
        match gathered {
            Ok(then) => {
                more = then != now;
                now = then;
            }
            Err(fault) => return (Err(fault), mine),
        }
    }
    (Ok(()), mine)
}

// The fault if an entry that was rejected is still on its way.
fn checked(refusal: Refusal, is_flight: bool) -> Result<(), SessionFault>
    ensures { result ≡ checked_of refusal is_flight }
{
    if is_flight {
        Err(SessionFault::ServerRejected(refusal))
    } else {
        Ok(())
    }
}

// Sees whether an entry that was rejected is still on its way.
fn check<R: Wait, D: LeafDisk, G>(
    context: &Context<'_, R, D, G>,
    pass: Pass,
    entry: &[u8],
    refusal: Refusal,
) -> WithPass<()>
    requires lock { IsPassOf context.now.shared.now pass }
    requires first { (known_of pass).number ≡ 0 }
    ensures lock { IsPassOf context.now.shared.now result.1 }
    ensures counts { CountsSame (known_of pass) (known_of result.1) }
    ensures did { (link : LinkStand) → LinkDid (known_of pass) (known_of result.1) link link
        (λ n. Checking n entry.now refusal) (λ n. Between (n + 1)) result.0 }
    ensures read { IfErr result.0 (HasReadFor result.1) }
{
    let (answer, pass) = plain(context.shared.is_flight(context.rt, pass, entry));
    match answer {
        Ok(is_flight) => (checked(refusal, is_flight), pass),
        Err(fault) => (Err(fault), pass),
    }
}

// Takes all entries that there are, and sees whether an entry that was rejected is still on its
// way.
fn settle<R: Wait, D: LeafDisk, L: Link, G: Gate>(
    context: &Context<'_, R, D, G>,
    link: &mut L,
    inbox: &mut Inbox,
    pass: Pass,
    at: u32,
    entry: &[u8],
    refusal: Refusal,
) -> WithPass<()>
    requires lock { IsPassOf context.now.shared.now pass }
    requires first { (known_of pass).number ≡ 0 }
    requires limit { at ≤ MAX_ENTRIES }
    ensures lock { IsPassOf context.now.shared.now result.1 }
    ensures counts { CountsSame (known_of pass) (known_of result.1) }
    ensures did { LinkDid (known_of pass) (known_of result.1)
        (link_at (L.told link.old) inbox.old) (link_at (L.told link.new) inbox.new)
        (λ n. Taking n at [] (Drains entry.now refusal)) (λ n. Between (n + 1)) result.0 }
    ensures shut { (L.told link.new).is_shut ≡ (L.told link.old).is_shut }
    ensures read { IfErr result.0 (HasReadFor result.1) }
{
    let (drained, pass) = drain(context, link, inbox, pass, at);
    match drained {
        Ok(()) => check(context, pass, entry, refusal),
        Err(fault) => (Err(fault), pass),
    }
}

// Sends an entry, and if it is rejected takes all entries that there are.
fn offer<R: Wait, D: LeafDisk, L: Link, G: Gate>(
    context: &Context<'_, R, D, G>,
    link: &mut L,
    inbox: &mut Inbox,
    pass: Pass,
    at: u32,
    entry: Bytes,
) -> WithPass<()>
    requires lock { IsPassOf context.now.shared.now pass }
    requires first { (known_of pass).number ≡ 0 }
    requires limit { at ≤ MAX_ENTRIES }
    requires entry_limit { length entry < MAX_BODY }
    ensures lock { IsPassOf context.now.shared.now result.1 }
    ensures counts { CountsSame (known_of pass) (known_of result.1) }
    ensures did { LinkDid (known_of pass) (known_of result.1)
        (link_at (L.told link.old) inbox.old) (link_at (L.told link.new) inbox.new)
        (λ n. Sending n at entry) (λ n. Between (n + 1)) result.0 }
    ensures shut { (L.told link.new).is_shut ≡ (L.told link.old).is_shut }
    ensures read { IfErr result.0 (HasReadFor result.1) }
{
    let answer = send_entry(context.alloc, link, inbox, &entry);
    match answer {
        Ok(answer) => match answer {
            None => (Ok(()), pass),
            Some(refusal) => settle(context, link, inbox, pass, at, entry.as_slice(), refusal),
        },
        Err(fault) => (Err(fault), pass),
    }
}

// Submits, and sends the entry that was made.
fn give<R: Wait, D: LeafDisk, L: Link, C: Chance, G: Gate>(
    context: &Context<'_, R, D, G>,
    link: &mut L,
    inbox: &mut Inbox,
    chance: &mut C,
    pass: Pass,
    at: u32,
) -> WithPass<()>
    requires lock { IsPassOf context.now.shared.now pass }
    requires first { (known_of pass).number ≡ 0 }
    requires limit { at ≤ MAX_ENTRIES }
    ensures lock { IsPassOf context.now.shared.now result.1 }
    ensures counts { CountsSame (known_of pass) (known_of result.1) }
    ensures did { RoundDid (stand_at pass (L.told link.old) inbox.old (C.told chance.old))
        (stand_at result.1 (L.told link.new) inbox.new (C.told chance.new))
        (λ n. Taking n at [] Submits) (λ n. Between (n + 1)) result.0 }
    ensures shut { (L.told link.new).is_shut ≡ (L.told link.old).is_shut }
    ensures read { IfErr result.0 (HasReadFor result.1) }
{
    let (made, pass) = submit(context, chance, pass);
    match made {
        Ok(made) => match made {
            None => (Ok(()), pass),
            Some(entry) => offer(context, link, inbox, pass, at, entry),
        },
        Err(fault) => (Err(fault), pass),
    }
}

// One round, after so many entries.
pub(crate) fn round<R: Wait, D: LeafDisk, L: Link, C: Chance, G: Gate>(
    context: &Context<'_, R, D, G>,
    link: &mut L,
    inbox: &mut Inbox,
    chance: &mut C,
    pass: Pass,
    at: u32,
) -> WithPass<()>
    requires lock { IsPassOf context.now.shared.now pass }
    requires first { (known_of pass).number ≡ 0 }
    requires limit { at ≤ MAX_ENTRIES }
    ensures lock { IsPassOf context.now.shared.now result.1 }
    ensures counts { CountsSame (known_of pass) (known_of result.1) }
    ensures did { RoundDid (stand_at pass (L.told link.old) inbox.old (C.told chance.old))
        (stand_at result.1 (L.told link.new) inbox.new (C.told chance.new))
        (λ n. Pulling n at) (λ n. Between (n + 1)) result.0 }
    ensures shut { (L.told link.new).is_shut ≡ (L.told link.old).is_shut }
    ensures read { IfErr result.0 (HasReadFor result.1) }
{
    let (gathered, pass) = gather(context, link, inbox, pass, at);
    match gathered {
        Ok(now) => give(context, link, inbox, chance, pass, now),
        Err(fault) => (Err(fault), pass),
    }
}
