//! A server of many sessions.

ghost use Rattle.std.specs.Prelude.{◌≡◌, ◌≢◌, ◌≤◌, Err};
ghost use Rattle.sporc_outside.specs.Told.{AppendsItem, MayAppend};
ghost use Rattle.sporc_wire.specs.declared.limits.TheConstants.{MAX_SESSIONS};
ghost use Rattle.sporc_outside.specs.Nets.{AreShutBehind};
ghost use Rattle.sporc_serve.specs.Served.{IsServed};

use crate::crowd::crowd;
use crate::fault::ServeFault;
use crate::kept_order::KeptOrder;
use crate::opening::{close_kept, open_kept};
use crate::service::Service;
use sporc_order::{NoTail, Order, Tail};
use sporc_outside::{Gate, Listen};
use std::alloc::Global;
use std::sync::Wait;
use std::thread::Threads;

/// Listens at the address, takes so many links, and answers the messages of each from one order: a
/// session each, in a thread of its own where one can be made. Each link is shut as its session
/// ends, and handed back to the net.
///
/// Where no thread can be made, the session of the link that was taken last is served to its end
/// before the next link is taken. A thread ends once those of all links behind its own have ended.
///
/// A fault of a link or of its frames ends that session alone, and so does running out of memory in
/// it.
///
/// The gate is called after each entry that is ordered, and before the turn in which a submitted
/// entry is answered, once it was examined: there `before_line` is told the session's number, from
/// 1 on, and the position at which the entry was then to stand. The caller of the gate holds no
/// turn.
pub fn serve<R: Threads + Wait + Sync, N: Listen, G: Gate + Sync>(
    rt: &R,
    alloc: Global,
    net: &mut N,
    address: &str,
    order: Order,
    sessions: u32,
    gate: &G,
) -> (Order, Result<(), ServeFault>)
where
    N: Send,
    N::Link: Send,
    requires positive { 1 ≤ sessions }
    requires limit { sessions ≤ MAX_SESSIONS }
    ensures served { IsServed order result.0 (N.told net.old) (N.told net.new) sessions result.1 }
    ensures asked { result.1 ≢ Err ServeFault.ListenFault
        → AppendsItem (N.told net.old).asked (N.told net.new).asked address.now }
    ensures may_ask { MayAppend (N.told net.old).asked (N.told net.new).asked address.now }
    ensures shut { AreShutBehind (N.told net.old).returned (N.told net.new).returned }
    ensures links_out { (N.told net.new).out ≡ (N.told net.old).out }
    ensures kept { (N.told net.old).faults ≤ (N.told net.new).faults }
    ensures none_unkept { result.1 ≢ Err ServeFault.Unkept }
{
    let kept = KeptOrder {
        order,
        tail: NoTail,
    };
    let (kept, answer) = serve_kept(rt, alloc, net, address, kept, sessions, gate);
    (kept.order, answer)
}

/// Serves as [`serve`] does, with a tail that keeps each entry before the order takes it, and so
/// before it is answered or handed out. An entry that is not kept is not ordered, and its session
/// ends.
pub fn serve_kept<R: Threads + Wait + Sync, N: Listen, G: Gate + Sync, T: Tail + Send>(
    rt: &R,
    alloc: Global,
    net: &mut N,
    address: &str,
    kept: KeptOrder<T>,
    sessions: u32,
    gate: &G,
) -> (KeptOrder<T>, Result<(), ServeFault>)
where
    N: Send,
    N::Link: Send,
    requires positive { 1 ≤ sessions }
    requires limit { sessions ≤ MAX_SESSIONS }
    requires tail { ∥ T.keeps kept.tail kept.order.entries ∥₁ }
    ensures served { IsServed kept.order result.0.order (N.told net.old) (N.told net.new) sessions
        result.1 }
    ensures tail { ∥ T.keeps result.0.tail result.0.order.entries ∥₁ }
    ensures unkept { result.1 ≡ Err ServeFault.Unkept → T.may_fail }
    ensures asked { result.1 ≢ Err ServeFault.ListenFault
        → AppendsItem (N.told net.old).asked (N.told net.new).asked address.now }
    ensures may_ask { MayAppend (N.told net.old).asked (N.told net.new).asked address.now }
    ensures shut { AreShutBehind (N.told net.old).returned (N.told net.new).returned }
    ensures links_out { (N.told net.new).out ≡ (N.told net.old).out }
    ensures kept { (N.told net.old).faults ≤ (N.told net.new).faults }
{
    let Ok(()) = net.listen(address) else {
        return (kept, Err(ServeFault::ListenFault));
    };
    let (turn, first) = match open_kept(alloc, kept) {
        Ok(both) => both,
        Err(kept) => return (kept, Err(ServeFault::Memory)),
    };
    let service = Service {
        rt,
        alloc,
        turn: &turn,
        gate,
    };
    let (answer, first) = crowd(&service, net, first, sessions);
    match close_kept(turn, first) {
        Ok(kept) => (kept, answer),
        Err(_) => unreachable!(),
    }
}
