//! Lines of a source in memory that gives pieces of every size.

ghost use Rattle.std.specs.Prelude.{◌<◌};

use crate::calls::failing;
use crate::checks::check;
use sporc_base::is_same;
use sporc_memory::MemorySource;
use sporc_outside::{LineFault, Lines};
use std::alloc::Global;
use std::process::Abort;

const BYTES: &[u8] = b"one\n\nthe third\r\nlast";

const LINES: [&[u8]; 4] = [b"one", b"", b"the third\r", b"last"];

// A source of these bytes in pieces of a size. Calls with these numbers fail.
fn source(rt: &impl Abort, alloc: Global, bytes: &[u8], piece: usize, calls: &[u64]) -> MemorySource
    requires { 0 < piece }
{
    let bytes = Vec::from_slice(alloc, bytes).expect(rt, "memory");
    MemorySource::new(bytes, piece, failing(rt, alloc, calls))
}

// Stops the test unless this line is next, or the end.
fn gives(rt: &impl Abort, lines: &mut Lines, source: &mut MemorySource, expected: Option<&[u8]>) {
    let found = lines.next_line(source);
    let is = match (&found, expected) {
        (Ok(Some(line)), Some(expected)) => is_same(line.as_slice(), expected),
        (Ok(None), None) => true,
        _ => false,
    };
    check(rt, "a line", is);
}

fn fails(rt: &impl Abort, lines: &mut Lines, source: &mut MemorySource, fault: LineFault) {
    let found = lines.next_line(source);
    check(rt, "a fault", matches!(&found, Err(f) if *f == fault));
}

fn gives_all(rt: &impl Abort, alloc: Global, piece: usize)
    requires { 0 < piece }
{
    let mut source = source(rt, alloc, BYTES, piece, &[]);
    let mut lines = Lines::new(alloc, 10);
    for line in &LINES {
        gives(rt, &mut lines, &mut source, Some(*line));
    }
    gives(rt, &mut lines, &mut source, None);
}

#[test]
fn lines_come_in_pieces_of_every_size(rt: HostRuntime) {
    for piece in 1..BYTES.len() + 1 {
        gives_all(&rt, rt.alloc(), piece);
    }
}

#[test]
fn a_line_that_is_too_long_stays_so(rt: HostRuntime) {
    let mut source = source(&rt, rt.alloc(), b"as\nlong\n", 3, &[]);
    let mut lines = Lines::new(rt.alloc(), 3);
    gives(&rt, &mut lines, &mut source, Some(b"as"));
    fails(&rt, &mut lines, &mut source, LineFault::TooLong);
    fails(&rt, &mut lines, &mut source, LineFault::TooLong);
}

#[test]
fn nothing_is_lost_where_the_source_fails(rt: HostRuntime) {
    let mut source = source(&rt, rt.alloc(), b"one\ntwo\n", 2, &[2]);
    let mut lines = Lines::new(rt.alloc(), 10);
    fails(&rt, &mut lines, &mut source, LineFault::Failed);
    gives(&rt, &mut lines, &mut source, Some(b"one"));
    gives(&rt, &mut lines, &mut source, Some(b"two"));
    gives(&rt, &mut lines, &mut source, None);
}
