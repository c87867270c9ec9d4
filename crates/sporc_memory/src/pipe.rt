//! One direction of a connection between threads.

ghost use Rattle.std.specs.Prelude.{◌≤◌, length, vec_len};

use std::alloc::{AllocError, Global};
use std::sync::{Condvar, Mutex, Wait};

// The bytes that were written and not read yet.
#[derive(Drop)]
struct Flow {
    bytes: Vec<u8>,
    at: usize,
    is_shut: bool,
    ghost within: { at ≤ vec_len bytes },
}

impl Flow {
    // Whether a read has to wait.
    fn is_dry(&self) -> bool {
        !self.is_shut && self.at == self.bytes.len()
    }

    // Moves bytes into the first places of the buffer, and says how many.
    fn take(&mut self, buf: &mut [u8]) -> usize
        ensures { result ≤ length buf.new }
    {
        let left = &self.bytes[self.at..];
        let n = buf.len().min(left.len());
        buf[..n].copy_from_slice(&left[..n]);
        if n == left.len() {
            self.at = 0;
            self.bytes.clear();
        } else {
            self.at += n;
        }
        n
    }
}

// A flow of bytes from one thread to another.
#[derive(Drop)]
pub(crate) struct Pipe {
    flow: Mutex<Flow>,
    changed: Condvar,
}

impl Pipe {
    pub(crate) fn new(alloc: Global) -> Pipe {
        Pipe {
            flow: Mutex::new(Flow {
                bytes: Vec::new(alloc),
                at: 0,
                is_shut: false,
            }),
            changed: Condvar::new(),
        }
    }

    // Waits until there are bytes or the flow is shut, and moves them into the first places of the
    // buffer.
    pub(crate) fn read<R: Wait>(&self, rt: &R, buf: &mut [u8]) -> usize
        ensures { result ≤ length buf.new }
    {
        let flow = self.flow.lock(rt);
        let mut flow = self.changed.wait_while(rt, flow, |flow| flow.is_dry());
        flow.take(buf)
    }

    pub(crate) fn write<R: Wait>(&self, rt: &R, bytes: &[u8]) -> Result<(), AllocError> {
        self.flow.lock(rt).bytes.extend_from_slice(bytes)?;
        self.changed.notify_all();
        Ok(())
    }

    pub(crate) fn shut<R: Wait>(&self, rt: &R) {
        self.flow.lock(rt).is_shut = true;
        self.changed.notify_all();
    }
}
