//! The calls of an object in memory: which of them fail, and what a disk logged of them.

ghost use Rattle.std.specs.Prelude.{◌≡◌};

use crate::checks::check;
use sporc_base::is_same;
use sporc_memory::{Calls, DiskCall, DiskRequest};
use std::alloc::Global;
use std::process::Abort;

/// Calls of which those with these numbers fail.
pub fn failing(rt: &impl Abort, alloc: Global, numbers: &[u64]) -> Calls
    ensures { result.faults ≡ 0 }
{
    Calls::failing(Vec::from_slice(alloc, numbers).expect(rt, "memory"))
}

fn name_of(request: &DiskRequest) -> &'static str {
    match request {
        DiskRequest::Len => "len",
        DiskRequest::Read { .. } => "read",
        DiskRequest::Write { bytes, .. } if is_same(bytes.as_slice(), &[7, 8]) => "write 7 8",
        DiskRequest::Write { .. } => "write",
        DiskRequest::Sync => "sync",
    }
}

fn is_call(call: &DiskCall, name: &str, done: bool) -> bool {
    call.done == done && is_same(name_of(&call.request).as_bytes(), name.as_bytes())
}

/// Stops the test unless these calls were made, each of which was done or failed.
pub fn has_calls(rt: &impl Abort, log: &[DiskCall], calls: &[(&str, bool)]) {
    check(rt, "the number of calls", log.len() == calls.len());
    for (call, (name, done)) in log.iter().zip(calls) {
        check(rt, *name, is_call(call, *name, *done));
    }
}
