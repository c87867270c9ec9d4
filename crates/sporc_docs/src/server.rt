//! A server of many documents.

ghost use Rattle.std.specs.Prelude.{◌≡◌, ◌≢◌, ◌≤◌, ℕ, List, Err};
ghost use Rattle.sporc_outside.specs.Told.{AppendsItem, MayAppend};
ghost use Rattle.sporc_outside.specs.Nets.{AreShutBehind};
ghost use Rattle.sporc_order.specs.OrderModel.{OrderModel};
ghost use Rattle.sporc_serve.specs.Crowds.{LeavesNet};
ghost use Rattle.sporc_wire.specs.declared.limits.TheConstants.{MAX_SESSIONS};
ghost use Rattle.sporc_docs.specs.Lists.{AreApart};
ghost use Rattle.sporc_docs.specs.Served.{AreKept, AreServed, as_served};

use crate::docs::Docs;
use crate::fault::DocsServeFault;
use crate::hands::empty_hands;
use crate::kept_docs::KeptDocs;
use crate::locks::Locks;
use sporc_order::{NoTail, Order, Tail};
use sporc_outside::{Gate, Listen};
use sporc_serve::ServeFault;
use std::alloc::Global;
use std::sync::Wait;
use std::thread::Threads;

// Serves these orders with their tails, and leaves both as they then are.
fn serve_orders<R: Threads + Wait + Sync, N: Listen, G: Gate + Sync, T: Tail + Send>(
    rt: &R,
    alloc: Global,
    net: &mut N,
    orders: &mut Vec<Order>,
    tails: &mut Vec<T>,
    sessions: u32,
    gate: &G,
) -> Result<(), ServeFault>
where
    N: Send,
    N::Link: Send,
    requires apart { AreApart orders.old.items }
    requires tails { AreKept T.keeps tails.old.items orders.old.items }
    requires limit { sessions ≤ MAX_SESSIONS }
    ensures served { AreServed orders.old.items orders.new.items (N.told net.old)
        (N.told net.new) sessions result }
    ensures tails { AreKept T.keeps tails.new.items orders.new.items }
    ensures unkept { result ≡ Err ServeFault.Unkept → T.may_fail }
    ensures net { LeavesNet (N.told net.old) (N.told net.new) }
{
    let count = orders.len();
    let Ok(mut hands) = empty_hands(alloc, sessions, count) else {
        return Err(ServeFault::Memory);
    };
    let Ok(mut locks) = Locks::with_capacity(alloc, count) else {
        return Err(ServeFault::Memory);
    };
    if locks.open(alloc, orders, tails).is_err() {
        locks.close(orders, tails);
        return Err(ServeFault::Memory);
    }
    let answer = locks.serve(rt, alloc, net, gate, &mut hands);
    locks.close(orders, tails);
    answer
}

/// Listens at the address, takes so many links, and answers the messages of each from the order of
/// the document that its first message names, for good: a session each, in a thread of its own
/// where one can be made. A first message that is no Hello, or names a document that isn't held,
/// ends its session. Each link is shut as its session ends, and handed back to the net.
///
/// Where no thread can be made, the session of the link that was taken last is served to its end
/// before the next link is taken. A thread ends once those of all links behind its own have ended.
///
/// Each document has a lock of its own. All that the sessions need of the locks is made before the
/// first link is taken.
///
/// A fault of a link or of its frames ends that session alone, and so does running out of memory in
/// it.
///
/// The gate is called as [`serve`](sporc_serve::serve) calls it, with the session's number among
/// those of all documents.
pub fn serve_docs<R: Threads + Wait + Sync, N: Listen, G: Gate + Sync>(
    rt: &R,
    alloc: Global,
    net: &mut N,
    address: &str,
    docs: Docs,
    sessions: u32,
    gate: &G,
) -> (Docs, Result<(), DocsServeFault>)
where
    N: Send,
    N::Link: Send,
    requires positive { 1 ≤ sessions }
    requires limit { sessions ≤ MAX_SESSIONS }
    ensures served { AreServed docs result.0 (N.told net.old) (N.told net.new) sessions
        (as_served result.1) }
    ensures asked { result.1 ≢ Err DocsServeFault.ListenFault
        → AppendsItem (N.told net.old).asked (N.told net.new).asked address.now }
    ensures may_ask { MayAppend (N.told net.old).asked (N.told net.new).asked address.now }
    ensures shut { AreShutBehind (N.told net.old).returned (N.told net.new).returned }
    ensures links_out { (N.told net.new).out ≡ (N.told net.old).out }
    ensures kept { (N.told net.old).faults ≤ (N.told net.new).faults }
    ensures none_unkept { result.1 ≢ Err DocsServeFault.Unkept }
{
    let Ok(tails) = vec![in alloc; NoTail; docs.len()] else {
        return (docs, unserved(net, address));
    };
    let kept = KeptDocs { docs, tails };
    let (kept, answer) = serve_docs_kept(rt, alloc, net, address, kept, sessions, gate);
    (kept.docs, told(answer))
}

/// Serves as [`serve_docs`] does, with a tail for each document, in their order. A tail keeps each
/// entry of its document before the order takes it, and so before anything of it is answered or
/// handed out. An entry that is not kept is not ordered, and its session ends.
pub fn serve_docs_kept<R: Threads + Wait + Sync, N: Listen, G: Gate + Sync, T: Tail + Send>(
    rt: &R,
    alloc: Global,
    net: &mut N,
    address: &str,
    kept: KeptDocs<T>,
    sessions: u32,
    gate: &G,
) -> (KeptDocs<T>, Result<(), ServeFault>)
where
    N: Send,
    N::Link: Send,
    requires positive { 1 ≤ sessions }
    requires limit { sessions ≤ MAX_SESSIONS }
    requires tails { AreKept T.keeps kept.tails.items kept.docs }
    ensures served { AreServed kept.docs result.0.docs (N.told net.old) (N.told net.new) sessions
        result.1 }
    ensures tails { AreKept T.keeps result.0.tails.items result.0.docs }
    ensures unkept { result.1 ≡ Err ServeFault.Unkept → T.may_fail }
    ensures asked { result.1 ≢ Err ServeFault.ListenFault
        → AppendsItem (N.told net.old).asked (N.told net.new).asked address.now }
    ensures may_ask { MayAppend (N.told net.old).asked (N.told net.new).asked address.now }
    ensures shut { AreShutBehind (N.told net.old).returned (N.told net.new).returned }
    ensures links_out { (N.told net.new).out ≡ (N.told net.old).out }
    ensures kept { (N.told net.old).faults ≤ (N.told net.new).faults }
{
    let Ok(()) = net.listen(address) else {
        return (kept, Err(ServeFault::ListenFault));
    };
    let KeptDocs { docs, tails } = kept;
    let mut orders = docs.into_orders();
    let mut tails = tails;
    let answer = serve_orders(rt, alloc, net, &mut orders, &mut tails, sessions, gate);
    let kept = KeptDocs {
        docs: Docs::of(orders),
        tails,
    };
    (kept, answer)
}

// What is answered where memory ran out before a link could be taken.
fn unserved<N: Listen>(net: &mut N, address: &str) -> Result<(), DocsServeFault>
    ensures served { (os : List OrderModel) (sessions : ℕ)
        → AreServed os os (N.told net.old) (N.told net.new) sessions (as_served result) }
    ensures asked { result ≢ Err DocsServeFault.ListenFault
        → AppendsItem (N.told net.old).asked (N.told net.new).asked address.now }
    ensures may_ask { MayAppend (N.told net.old).asked (N.told net.new).asked address.now }
    ensures shut { AreShutBehind (N.told net.old).returned (N.told net.new).returned }
    ensures links_out { (N.told net.new).out ≡ (N.told net.old).out }
    ensures kept { (N.told net.old).faults ≤ (N.told net.new).faults }
    ensures none_unkept { result ≢ Err DocsServeFault.Unkept }
{
    match net.listen(address) {
        Ok(()) => Err(DocsServeFault::Memory),
        Err(_) => Err(DocsServeFault::ListenFault),
    }
}

// What is answered of many documents.
fn told(answer: Result<(), ServeFault>) -> Result<(), DocsServeFault>
    ensures { as_served result ≡ answer }
{
    Ok(answer?)
}
