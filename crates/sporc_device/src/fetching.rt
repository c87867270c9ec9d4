//! The entries that a joiner's hints are taken from.

ghost use Rattle.std.specs.Prelude.{◌≡◌, ◌≤◌, Ok, IfErr, IfOk};
ghost use Rattle.sporc_outside.specs.Told.{MayAppend};
ghost use Rattle.sporc_outside.specs.Nets.{AreShutBehind};
ghost use Rattle.sporc_outside.specs.Uses.{use_of};
ghost use Rattle.sporc_device.specs.Fetching.{IsFetchAt, NotFetched};

use crate::causes::session_fault;
use sporc_files::Fault;
use sporc_outside::{Dial, Link};
use sporc_session::fetch;
use sporc_wire::Entries;
use std::alloc::Global;
use std::sync::Wait;

/// All entries that the server at an address has of a document, for a member who joins. The link to
/// it is shut as soon as they are fetched, and taken back.
pub fn fetch_entries<R: Wait, N: Dial>(
    rt: &R,
    alloc: Global,
    net: &mut N,
    address: &str,
    document: &[u8; 16],
    member: u16,
) -> Result<Entries, Fault>
    ensures ok { IfOk result (λ entries. IsFetchAt address.now document.now member
        (use_of N.told net.old net.new) (Ok entries)) }
    ensures err { IfErr result (NotFetched address.now document.now member
        (use_of N.told net.old net.new)) }
    ensures shut { AreShutBehind (N.told net.old).returned (N.told net.new).returned }
    ensures links_out { (N.told net.new).out ≡ (N.told net.old).out }
    ensures may_ask { MayAppend (N.told net.old).asked (N.told net.new).asked address.now }
    ensures kept { (N.told net.old).faults ≤ (N.told net.new).faults }
    ensures links_kept { (N.told net.old).link_faults ≤ (N.told net.new).link_faults }
{
    // Not called for its answer: that the links' count can be told here is what `links_kept` rests
    // on.
    let _faults = net.link_faults();
    let Ok(mut link) = net.connect(rt, address) else {
        return Err(Fault::Outside);
    };
    let fetched = fetch(alloc, &mut link, document, member);
    link.shut();
    net.take_back(link);
    match fetched {
        Ok(entries) => Ok(entries),
        Err(fault) => Err(session_fault(fault)),
    }
}
