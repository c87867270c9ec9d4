//! Files, calls and sinks in memory.

use crate::bytes::bytes_of;
use sporc_memory::{Calls, MemorySink};
use sporc_outside::{FileBytes, NamedFile};
use std::alloc::Global;
use std::process::Abort;

/// Calls of which this one fails, counted from 1; with 0 none does.
pub fn calls(rt: &impl Abort, alloc: Global, failing: u64) -> Calls {
    let failing = vec![in alloc; failing].expect(rt, "memory");
    Calls::failing(failing)
}

fn named(rt: &impl Abort, alloc: Global, name: &str, bytes: Vec<u8>) -> NamedFile {
    let name = FileBytes::new(bytes_of(rt, alloc, name.as_bytes()));
    let bytes = FileBytes::new(bytes);
    NamedFile { name, bytes }
}

/// Adds a file.
pub fn add_file(
    rt: &impl Abort,
    alloc: Global,
    files: &mut Vec<NamedFile>,
    name: &str,
    bytes: Vec<u8>,
) {
    let file = named(rt, alloc, name, bytes);
    files.push(file).expect(rt, "memory");
}

/// An empty sink that takes seven bytes in one call, none of which fails, in a box: a function that
/// owns it itself is slow to prove.
pub fn empty_sink(rt: &impl Abort, alloc: Global) -> Box<MemorySink> {
    let sink = MemorySink::new(alloc, 7, Calls::failing(Vec::new(alloc)));
    Box::new(alloc, sink).expect(rt, "memory")
}
