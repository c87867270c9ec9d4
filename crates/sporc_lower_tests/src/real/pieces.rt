use crate::checks::check;
use sporc_outside::{Counted, Failed, Sink, Source};
use sporc_real::{StandardInput, StandardOutput};
use std::io;
use std::io::{ErrorKind, Read, Write};
use std::process::Abort;

/// A terminal whose calls are interrupted by a signal at first.
#[derive(Drop)]
struct Interrupted {
    signals: u32,
    taken: usize,
}

impl Interrupted {
    fn next(&mut self) -> io::Result<usize> {
        if self.signals == 0 {
            return Ok(self.taken);
        }
        self.signals -= 1;
        Err(io::Error::from(ErrorKind::Interrupted))
    }
}

impl Read for Interrupted {
    fn read(&mut self, buf: &mut [u8]) -> io::Result<usize> {
        Ok(self.next()?.min(buf.len()))
    }
}

impl Write for Interrupted {
    fn write(&mut self, buf: &[u8]) -> io::Result<usize> {
        Ok(self.next()?.min(buf.len()))
    }

    fn flush(&mut self) -> io::Result<()> {
        Ok(())
    }
}

fn reads(rt: &impl Abort, terminal: Interrupted, answer: Result<usize, Failed>, faults: u64) {
    let mut input = StandardInput::new(terminal);
    check(rt, "a read", input.read(&mut [0u8; 4]) == answer);
    check(rt, "the faults", input.faults() == faults);
}

fn writes(rt: &impl Abort, terminal: Interrupted, answer: Result<usize, Failed>, faults: u64) {
    let mut output = StandardOutput::new(terminal);
    check(rt, "a write", output.write(b"four") == answer);
    check(rt, "the faults", output.faults() == faults);
}

#[test]
fn interrupted_reads_are_tried_again(rt: HostRuntime) {
    reads(
        &rt,
        Interrupted {
            signals: 2,
            taken: 3,
        },
        Ok(3),
        0,
    );
    reads(
        &rt,
        Interrupted {
            signals: u32::MAX,
            taken: 3,
        },
        Err(Failed),
        1,
    );
}

#[test]
fn interrupted_writes_are_tried_again(rt: HostRuntime) {
    writes(
        &rt,
        Interrupted {
            signals: 2,
            taken: 3,
        },
        Ok(3),
        0,
    );
    writes(
        &rt,
        Interrupted {
            signals: u32::MAX,
            taken: 3,
        },
        Err(Failed),
        1,
    );
    writes(
        &rt,
        Interrupted {
            signals: 0,
            taken: 0,
        },
        Err(Failed),
        1,
    );
}
