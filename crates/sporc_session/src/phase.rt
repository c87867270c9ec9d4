//! The receiver's two phases.

ghost use Rattle.std.specs.Prelude.{◌≡◌, ◌+◌, ℕ, IfErr};
ghost use Rattle.std.specs.Result.{result_err};
ghost use Rattle.sporc_turn.specs.Passes.{known_of};
ghost use Rattle.sporc_shared.specs.Passes.{IsPassOf};
ghost use Rattle.sporc_session.specs.Traces.{CountsSame, stand_at};
ghost use Rattle.sporc_session.specs.Outcomes.{FirstDid, LinkDid};
ghost use Rattle.sporc_session.specs.Replies.{HasReadFor};
ghost use Rattle.sporc_session.specs.Protocol.{Asking, Between, is_unsettled};
ghost use Rattle.sporc_session.specs.Sessions.{FirstPhase, SecondPhase};
ghost use Rattle.sporc_exchange.specs.Wires.{link_at};

use crate::asking::send;
use crate::context::Context;
use crate::fault::SessionFault;
use crate::receiver::{WithPass, plain};
use crate::round::round;
use sporc_exchange::{Inbox, hello_of};
use sporc_outside::{Chance, Gate, LeafDisk, Link};
use sporc_shared::{Look, Pass};
use std::sync::Wait;

// Says Hello, as the client's member and for its document.
fn greet<R: Wait, D: LeafDisk, L: Link, G>(
    context: &Context<'_, R, D, G>,
    link: &mut L,
    inbox: &Inbox,
    pass: Pass,
) -> WithPass<()>
    requires lock { IsPassOf context.now.shared.now pass }
    requires first { (known_of pass).number ≡ 0 }
    ensures lock { IsPassOf context.now.shared.now result.1 }
    ensures counts { CountsSame (known_of pass) (known_of result.1) }
    ensures did { LinkDid (known_of pass) (known_of result.1)
        (link_at (L.told link.old) inbox.now) (link_at (L.told link.new) inbox.now)
        (λ n. Asking) (λ n. Between 0) result.0 }
    ensures shut { (L.told link.new).is_shut ≡ (L.told link.old).is_shut }
    ensures read { IfErr result.0 (HasReadFor result.1) }
{
    let (answer, pass) = plain(context.shared.membership(context.rt, pass));
    match answer {
        Ok(whose) => {
            let hello = hello_of(&whose.document, whose.member);
            (send(context.alloc, link, inbox, &hello), pass)
        }
        Err(fault) => (Err(fault), pass),
    }
}

// Looks at the client, and does a round.
fn look_and_round<R: Wait, D: LeafDisk, L: Link, C: Chance, G: Gate>(
    context: &Context<'_, R, D, G>,
    link: &mut L,
    inbox: &mut Inbox,
    chance: &mut C,
    pass: Pass,
) -> WithPass<()>
    requires lock { IsPassOf context.now.shared.now pass }
    requires first { (known_of pass).number ≡ 0 }
    ensures lock { IsPassOf context.now.shared.now result.1 }
    ensures counts { CountsSame (known_of pass) (known_of result.1) }
    ensures did { (n : ℕ) → FirstDid (stand_at pass (L.told link.old) inbox.old (C.told chance.old))
        (stand_at result.1 (L.told link.new) inbox.new (C.told chance.new))
        (Between n) (Between (n + 1)) result.0 }
    ensures shut { (L.told link.new).is_shut ≡ (L.told link.old).is_shut }
    ensures read { IfErr result.0 (HasReadFor result.1) }
{
    let (answer, pass) = plain(context.shared.look(context.rt, pass));
    match answer {
        Ok(look) => round(context, link, inbox, chance, pass, look.at),
        Err(fault) => (Err(fault), pass),
    }
}

// So many rounds.
fn rounds_of<R: Wait, D: LeafDisk, L: Link, C: Chance, G: Gate>(
    context: &Context<'_, R, D, G>,
    link: &mut L,
    inbox: &mut Inbox,
    chance: &mut C,
    pass: Pass,
    rounds: u32,
) -> WithPass<()>
    requires lock { IsPassOf context.now.shared.now pass }
    requires first { (known_of pass).number ≡ 0 }
    ensures lock { IsPassOf context.now.shared.now result.1 }
    ensures counts { CountsSame (known_of pass) (known_of result.1) }
    ensures did { FirstDid (stand_at pass (L.told link.old) inbox.old (C.told chance.old))
        (stand_at result.1 (L.told link.new) inbox.new (C.told chance.new))
        (Between 0) (Between rounds) result.0 }
    ensures shut { (L.told link.new).is_shut ≡ (L.told link.old).is_shut }
    ensures read { IfErr result.0 (HasReadFor result.1) }
{
    let mut mine = pass;
    let mut done = 0;
    while done < rounds {
        let (one, next) = look_and_round(context, link, inbox, chance, mine);
        mine = next;
        if let Err(fault) = one {
            return (Err(fault), mine);
        }
        done += 1;
    }
    (Ok(()), mine)
}

// The first phase: Hello, and so many rounds.
pub(crate) fn first_phase<R: Wait, D: LeafDisk, L: Link, C: Chance, G: Gate>(
    context: &Context<'_, R, D, G>,
    link: &mut L,
    inbox: &mut Inbox,
    chance: &mut C,
    pass: Pass,
    rounds: u32,
) -> WithPass<()>
    requires lock { IsPassOf context.now.shared.now pass }
    requires first { (known_of pass).number ≡ 0 }
    ensures lock { IsPassOf context.now.shared.now result.1 }
    ensures counts { CountsSame (known_of pass) (known_of result.1) }
    ensures phase { FirstPhase (stand_at pass (L.told link.old) inbox.old (C.told chance.old))
        (stand_at result.1 (L.told link.new) inbox.new (C.told chance.new))
        rounds (result_err result.0) }
    ensures shut { (L.told link.new).is_shut ≡ (L.told link.old).is_shut }
    ensures read { IfErr result.0 (HasReadFor result.1) }
{
    let (greeted, pass) = greet(context, link, inbox, pass);
    match greeted {
        Ok(()) => rounds_of(context, link, inbox, chance, pass, rounds),
        Err(fault) => (Err(fault), pass),
    }
}

// Whether something is pending, or the history is shorter than it is to be.
fn unsettled(until: u32, look: Look) -> bool
    ensures { result ≡ is_unsettled until look.at look.pending }
{
    0 < look.pending || look.at < until
}

// The second phase: at most so many rounds, until the client is settled.
pub(crate) fn second_phase<R: Wait, D: LeafDisk, L: Link, C: Chance, G: Gate>(
    context: &Context<'_, R, D, G>,
    link: &mut L,
    inbox: &mut Inbox,
    chance: &mut C,
    pass: Pass,
    rounds: u32,
    until: u32,
) -> WithPass<()>
    requires lock { IsPassOf context.now.shared.now pass }
    requires first { (known_of pass).number ≡ 0 }
    ensures lock { IsPassOf context.now.shared.now result.1 }
    ensures counts { CountsSame (known_of pass) (known_of result.1) }
    ensures phase { SecondPhase (stand_at pass (L.told link.old) inbox.old (C.told chance.old))
        (stand_at result.1 (L.told link.new) inbox.new (C.told chance.new))
        rounds until result.0 }
    ensures shut { (L.told link.new).is_shut ≡ (L.told link.old).is_shut }
    ensures read { IfErr result.0 (HasReadFor result.1) }
{
    let mut mine = pass;
    let mut done = 0;
    loop {
        let (answer, next) = plain(context.shared.look(context.rt, mine));
        mine = next;
        let look = match answer {
            Ok(look) => look,
            Err(fault) => return (Err(fault), mine),
        };
        if !unsettled(until, look) {
            return (Ok(()), mine);
        }
        if done >= rounds {
            return (Err(SessionFault::NotSettled(look.pending, look.at)), mine);
        }
        let (one, next) = round(context, link, inbox, chance, mine, look.at);
        mine = next;
        if let Err(fault) = one {
            return (Err(fault), mine);
        }
        done += 1;
    }
}
