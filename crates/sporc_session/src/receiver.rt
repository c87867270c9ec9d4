//! The steps of the receiver of a session.

ghost use Rattle.std.specs.Prelude.{◌≡◌, ◌≤◌, ◌<◌, ◌++◌, length, map, IfErr, IfOk, IfSome};
ghost use Rattle.std.specs.Vec.Iter.{into_iter_items};
ghost use Rattle.sporc_outside.specs.Counts.{CountsFaults};
ghost use Rattle.sporc_client.specs.Answers.{accept_fault};
ghost use Rattle.sporc_client.specs.Log.{Accept as Accepted};
ghost use Rattle.sporc_wire.specs.declared.cutter.TheConstants.{MAX_BODY};
ghost use Rattle.sporc_head.specs.declared.limits.TheConstants.{MAX_ENTRIES};
ghost use Rattle.sporc_turn.specs.Passes.{known_of};
ghost use Rattle.sporc_shared.specs.Calls.{CallGives};
ghost use Rattle.sporc_shared.specs.Passes.{IsPassOf, IsReplyOf, IsWornOnErr};
ghost use Rattle.sporc_session.specs.Traces.{CountsSame};
ghost use Rattle.sporc_session.specs.Outcomes.{Drew, DrewFew, SubmittedOne, TookAll, TookOne};
ghost use Rattle.sporc_session.specs.Replies.{HasReadFor, made_of, plain_of, taken_of};

use crate::context::Context;
use crate::fault::SessionFault;
use lms_leaf::LeafFault;
use sporc_base::{Bytes, put_at};
use sporc_client::{AcceptFault, SubmitFault, Submitted};
use sporc_head::Examined;
use sporc_outside::{Chance, Gate, LeafDisk};
use sporc_shared::{Answered, Pass, Reply};
use sporc_turn::Worn;
use std::sync::Wait;
use std::vec::IntoIter;

// A step's answer or the fault of the session, and the pass.
pub(crate) type WithPass<T> = (Result<T, SessionFault>, Pass);

// The answer, or that no ticket was left, and the pass.
pub(crate) fn plain<A>(reply: Reply<A>) -> WithPass<A>
    ensures { result ≡ plain_of reply }
{
    match reply {
        Ok(
            Answered {
                answer,
                front: _,
                pass,
            },
        ) => (Ok(answer), pass),
        Err((pass, Worn(ticket))) => (Err(SessionFault::Worn(ticket)), pass),
    }
}

// The fault of a session in which an entry isn't accepted.
fn taken(position: u32, answer: Result<u64, AcceptFault>) -> Result<(), SessionFault>
    ensures { result ≡ taken_of position answer }
{
    match answer {
        Ok(_) => Ok(()),
        Err(AcceptFault::Refused(refusal)) => Err(SessionFault::Refused(position, refusal)),
        Err(AcceptFault::JournalFull) => Err(SessionFault::JournalFull),
        Err(AcceptFault::Memory) => Err(SessionFault::Memory),
    }
}

// The entry that a submission made, or the fault of a session.
fn made(answer: Result<Submitted, SubmitFault>) -> Result<Option<Bytes>, SessionFault>
    ensures { result ≡ made_of answer }
{
    match answer {
        Ok(Submitted::Entry(entry)) => Ok(Some(entry)),
        Ok(Submitted::Waiting) => Ok(None),
        Ok(Submitted::Nothing) => Ok(None),
        Ok(Submitted::Dropped(_)) => Ok(None),
        Err(SubmitFault::Removed) => Ok(None),
        Err(SubmitFault::NoRight) => Ok(None),
        Err(SubmitFault::HeadTooLong(_)) => Ok(None),
        Err(SubmitFault::NoPairKey(_)) => Ok(None),
        Err(SubmitFault::HistoryFull) => Err(SessionFault::HistoryFull),
        Err(SubmitFault::JournalFull) => Err(SessionFault::JournalFull),
        Err(SubmitFault::Exhausted(next)) => Err(SessionFault::Leaf(LeafFault::Exhausted(next))),
        Err(SubmitFault::LeafFault) => Err(SessionFault::Leaf(LeafFault::DiskFault)),
        Err(SubmitFault::Memory) => Err(SessionFault::Memory),
    }
}

// Accepts an entry that is to stand at a position. If a key for it is known, its signature is
// examined under that one before the turn. If there is no memory for that, it is accepted as it
// came.
fn accept_under<R: Wait, D: LeafDisk, G>(
    context: &Context<'_, R, D, G>,
    pass: Pass,
    pos: u32,
    entry: Bytes,
    key: Option<[u8; 56]>,
) -> Reply<Result<u64, AcceptFault>>
    requires lock { IsPassOf context.now.shared.now pass }
    ensures lock { IsReplyOf context.now.shared.now result }
    ensures call { IfOk result (λ r. CallGives (known_of pass) (known_of r.pass)
        (Accepted (known_of pass).number entry) AcceptFault.Memory
        (λ client. accept_fault client pos entry) r.answer) }
    ensures worn { IsWornOnErr pass result }
{
    let shared = context.shared;
    let Some(key) = key else {
        return shared.accept(context.rt, pass, pos, entry.as_slice());
    };
    match Examined::of(&key, entry.into_vec()) {
        Ok(examined) => shared.accept_examined(context.rt, pass, pos, &examined),
        Err((entry, _)) => shared.accept(context.rt, pass, pos, entry.as_slice()),
    }
}

// Accepts an entry after so many others, with the key that is known for it.
fn take_under<R: Wait, D: LeafDisk, G: Gate>(
    context: &Context<'_, R, D, G>,
    pass: Pass,
    at: u32,
    entry: Bytes,
    key: Option<[u8; 56]>,
) -> WithPass<()>
    requires lock { IsPassOf context.now.shared.now pass }
    requires first { (known_of pass).number ≡ 0 }
    requires limit { at ≤ MAX_ENTRIES }
    ensures lock { IsPassOf context.now.shared.now result.1 }
    ensures counts { CountsSame (known_of pass) (known_of result.1) }
    ensures took { TookOne (known_of pass) (known_of result.1) at entry result.0 }
    ensures read { IfErr result.0 (HasReadFor result.1) }
{
    let position = at + 1;
    let (answer, pass) = plain(accept_under(context, pass, position, entry, key));
    match answer {
        Ok(answer) => {
            let took = taken(position, answer);
            if took.is_ok() {
                context.gate.after_accept(context.rt, position);
            }
            (took, pass)
        }
        Err(fault) => (Err(fault), pass),
    }
}

// Accepts an entry after so many others: asks for its key in one turn, and accepts it in another
// one. Its signature is examined between the two.
fn take_one<R: Wait, D: LeafDisk, G: Gate>(
    context: &Context<'_, R, D, G>,
    pass: Pass,
    at: u32,
    entry: Bytes,
) -> WithPass<()>
    requires lock { IsPassOf context.now.shared.now pass }
    requires first { (known_of pass).number ≡ 0 }
    requires limit { at ≤ MAX_ENTRIES }
    ensures lock { IsPassOf context.now.shared.now result.1 }
    ensures counts { CountsSame (known_of pass) (known_of result.1) }
    ensures took { TookOne (known_of pass) (known_of result.1) at entry result.0 }
    ensures read { IfErr result.0 (HasReadFor result.1) }
{
    let (answer, pass) = plain(context.shared.key_for(context.rt, pass, entry.as_slice()));
    match answer {
        Ok(key) => take_under(context, pass, at, entry, key),
        Err(fault) => (Err(fault), pass),
    }
}

// Accepts entries after so many others.
pub(crate) fn take_all<R: Wait, D: LeafDisk, G: Gate>(
    context: &Context<'_, R, D, G>,
    pass: Pass,
    at: u32,
    mut entries: IntoIter<Vec<u8>>,
) -> WithPass<()>
    requires lock { IsPassOf context.now.shared.now pass }
    requires first { (known_of pass).number ≡ 0 }
    requires limit { at ≤ MAX_ENTRIES }
    ensures lock { IsPassOf context.now.shared.now result.1 }
    ensures counts { CountsSame (known_of pass) (known_of result.1) }
    ensures took { TookAll (known_of pass) (known_of result.1) at
        (map (λ v. v.items) (into_iter_items entries)) result.0 }
    ensures read { IfErr result.0 (HasReadFor result.1) }
{
    let Some(entry) = entries.next() else {
        return (Ok(()), pass);
    };
    let (one, pass) = take_one(context, pass, at, Bytes::new(entry));
    match one {
        Ok(()) => take_all(context, pass, at + 1, entries),
        Err(fault) => (Err(fault), pass),
    }
}

// Two random words.
fn draw<C: Chance>(chance: &mut C) -> Result<[u8; 64], SessionFault>
    ensures ok { IfOk result (Drew (C.told chance.old).given (C.told chance.new).given) }
    ensures count { CountsFaults (C.told chance.old).faults (C.told chance.new).faults result }
    ensures err { IfErr result (DrewFew (C.told chance.old).given (C.told chance.new).given) }
{
    let Ok(first) = chance.fill32() else {
        return Err(SessionFault::ChanceFault);
    };
    let Ok(second) = chance.fill32() else {
        return Err(SessionFault::ChanceFault);
    };
    Ok(joined(&first, &second))
}

// Two words as one string.
fn joined(first: &[u8; 32], second: &[u8; 32]) -> [u8; 64]
    ensures { result ≡ first.now ++ second.now }
{
    let mut both = [0; 64];
    put_at(&mut both, 0, first);
    put_at(&mut both, 32, second);
    both
}

// Submits, and says which entry was made.
pub(crate) fn submit<R: Wait, D: LeafDisk, C: Chance, G>(
    context: &Context<'_, R, D, G>,
    chance: &mut C,
    pass: Pass,
) -> WithPass<Option<Bytes>>
    requires lock { IsPassOf context.now.shared.now pass }
    requires first { (known_of pass).number ≡ 0 }
    ensures lock { IsPassOf context.now.shared.now result.1 }
    ensures counts { CountsSame (known_of pass) (known_of result.1) }
    ensures kept { (C.told chance.old).faults ≤ (C.told chance.new).faults }
    ensures submitted { SubmittedOne (known_of pass) (known_of result.1) (C.told chance.old).given
        (C.told chance.new).given (C.told chance.old).faults (C.told chance.new).faults result.0 }
    ensures within { IfOk result.0 (λ made. IfSome made (λ entry. length entry < MAX_BODY)) }
    ensures read { IfErr result.0 (HasReadFor result.1) }
{
    match draw(chance) {
        Ok(random) => {
            let (answer, pass) = plain(context.shared.submit(context.rt, pass, &random));
            match answer {
                Ok(answer) => (made(answer), pass),
                Err(fault) => (Err(fault), pass),
            }
        }
        Err(fault) => (Err(fault), pass),
    }
}
