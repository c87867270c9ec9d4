//! Saved histories that are read again.

ghost use Rattle.std.specs.Prelude.{◌≡◌, ◌≤◌, [], map, IfOk, IfErr};
ghost use Rattle.sporc_store.specs.declared.limits.TheConstants.{MAX_WORKERS};
ghost use Rattle.sporc_store.specs.SavedFile.{saved_in, read_to, IsPrefix, IsUnchecked};
ghost use Rattle.sporc_store.specs.Loading.{a_member, an_order, loaded, NamesCheck};

use crate::appending::{append_examined, append_saved};
use crate::reading::{open, stop_of_entries};
use crate::stop::Stop;
use sporc_base::Memory;
use sporc_line::Line;
use sporc_order::Order;
use sporc_outside::Gate;
use std::alloc::Global;
use std::sync::Wait;
use std::thread::Threads;

/// The entries of a document's saved history, unchecked, up to where its reading stops: at its end,
/// or at the first place that is cut short or forbidden. No check is made, so the stop is never
/// `Refused`.
pub fn read_saved(
    alloc: Global,
    document: &[u8; 16],
    bytes: &[u8],
) -> Result<(Vec<Vec<u8>>, Stop), Memory>
    ensures ok { IfOk result (λ read. read_to (map (λ entry. entry.items) read.0.items) read.1
        ≡ saved_in document.now bytes.now) }
    ensures unchecked { IfOk result (λ read. IsUnchecked read.1) }
{
    let mut entries = Vec::new(alloc);
    let stop = append_saved(alloc, &mut entries, document, bytes)?;
    Ok((entries, stop))
}

/// Where the reading of a document's saved history stops, whoever checks its entries: at its end,
/// or at the first place that is cut short or forbidden.
pub fn saved_stop(document: &[u8; 16], bytes: &[u8]) -> Stop
    ensures value { result ≡ (saved_in document.now bytes.now).stop }
    ensures unchecked { IsUnchecked result }
{
    match open(document, bytes) {
        Ok((count, mut cursor)) => stop_of_entries(&mut cursor, count),
        Err(stop) => stop,
    }
}

/// Appends the entries of a saved history to the empty line of its document, up to the first that
/// is cut short or that the line refuses. If memory runs out, the line has the entries taken so
/// far.
pub fn load(alloc: Global, bytes: &[u8], line: Line) -> Result<(Line, Stop), (Line, Memory)>
    requires empty { line.entries ≡ [] }
    ensures ok { IfOk result (λ done. read_to done.0.entries done.1
        ≡ loaded (a_member line.genesis line.kit) line.genesis.document bytes.now) }
    ensures named { IfOk result (λ done. NamesCheck done.1) }
    ensures memory { IfErr result (λ failed. IsPrefix failed.0.entries
        (loaded (a_member line.genesis line.kit) line.genesis.document bytes.now).entries) }
    ensures genesis { IfOk result (λ done. done.0.genesis ≡ line.genesis) }
    ensures kit { IfOk result (λ done. done.0.kit ≡ line.kit) }
    ensures returned { IfErr result
        (λ failed. (failed.0.genesis ≡ line.genesis) × (failed.0.kit ≡ line.kit)) }
{
    let mut line = line;
    let document = *line.document();
    match append_saved(alloc, &mut line, &document, bytes) {
        Ok(stop) => Ok((line, stop)),
        Err(memory) => Err((line, memory)),
    }
}

/// [`load`], with the signatures of the file's entries examined by so many workers: those of a
/// block while the line takes the entries of the block before. Each worker calls the gate's
/// `before_line` with its number, from 1, and an entry's position before it examines that entry.
pub fn load_many<R: Threads + Wait + Sync, G: Gate + Sync>(
    rt: &R,
    alloc: Global,
    bytes: &[u8],
    line: Line,
    workers: u32,
    gate: &G,
) -> Result<(Line, Stop), (Line, Memory)>
    requires positive { 1 ≤ workers }
    requires limit { workers ≤ MAX_WORKERS }
    requires empty { line.entries ≡ [] }
    ensures ok { IfOk result (λ done. read_to done.0.entries done.1
        ≡ loaded (a_member line.genesis line.kit) line.genesis.document bytes.now) }
    ensures named { IfOk result (λ done. NamesCheck done.1) }
    ensures memory { IfErr result (λ failed. IsPrefix failed.0.entries
        (loaded (a_member line.genesis line.kit) line.genesis.document bytes.now).entries) }
    ensures genesis { IfOk result (λ done. done.0.genesis ≡ line.genesis) }
    ensures kit { IfOk result (λ done. done.0.kit ≡ line.kit) }
    ensures returned { IfErr result
        (λ failed. (failed.0.genesis ≡ line.genesis) × (failed.0.kit ≡ line.kit)) }
{
    let mut line = line;
    match append_examined(rt, alloc, &mut line, bytes, workers, gate) {
        Ok(stop) => Ok((line, stop)),
        Err(memory) => Err((line, memory)),
    }
}

/// Loads a saved history into the empty order of the document, which makes the checks that need no
/// key.
pub fn load_order(
    alloc: Global,
    bytes: &[u8],
    order: Order,
) -> Result<(Order, Stop), (Order, Memory)>
    requires empty { order.entries ≡ [] }
    ensures ok { IfOk result (λ done. read_to done.0.entries done.1
        ≡ loaded (an_order order.genesis) order.genesis.document bytes.now) }
    ensures named { IfOk result (λ done. NamesCheck done.1) }
    ensures memory { IfErr result (λ failed. IsPrefix failed.0.entries
        (loaded (an_order order.genesis) order.genesis.document bytes.now).entries) }
    ensures genesis { IfOk result (λ done. done.0.genesis ≡ order.genesis) }
    ensures returned { IfErr result (λ failed. failed.0.genesis ≡ order.genesis) }
{
    let mut order = order;
    let document = *order.document();
    match append_saved(alloc, &mut order, &document, bytes) {
        Ok(stop) => Ok((order, stop)),
        Err(memory) => Err((order, memory)),
    }
}

/// [`load_order`], with as many workers as [`load_many`] has.
pub fn load_order_many<R: Threads + Wait + Sync, G: Gate + Sync>(
    rt: &R,
    alloc: Global,
    bytes: &[u8],
    order: Order,
    workers: u32,
    gate: &G,
) -> Result<(Order, Stop), (Order, Memory)>
    requires positive { 1 ≤ workers }
    requires limit { workers ≤ MAX_WORKERS }
    requires empty { order.entries ≡ [] }
    ensures ok { IfOk result (λ done. read_to done.0.entries done.1
        ≡ loaded (an_order order.genesis) order.genesis.document bytes.now) }
    ensures named { IfOk result (λ done. NamesCheck done.1) }
    ensures memory { IfErr result (λ failed. IsPrefix failed.0.entries
        (loaded (an_order order.genesis) order.genesis.document bytes.now).entries) }
    ensures genesis { IfOk result (λ done. done.0.genesis ≡ order.genesis) }
    ensures returned { IfErr result (λ failed. failed.0.genesis ≡ order.genesis) }
{
    let mut order = order;
    match append_examined(rt, alloc, &mut order, bytes, workers, gate) {
        Ok(stop) => Ok((order, stop)),
        Err(memory) => Err((order, memory)),
    }
}
