//! Links over listed bytes.

ghost use Rattle.std.specs.Prelude.{◌≡◌, ◌<◌, ◌≤◌, ◌↔◌, length, min, IsErr, IfOk, Contains, refl};
ghost use Rattle.sporc_memory.specs.CallsModel.{CountsCall};
ghost use Rattle.sporc_outside.specs.Counts.{next_count};
ghost use Rattle.sporc_memory.specs.MemoryLinkModel.{link_of};
ghost use Rattle.sporc_memory.specs.MemoryStreams.{link_told};
ghost use Rattle.sporc_outside.specs.Streams.{Reads, Writes};
ghost use Rattle.sporc_outside.specs.Uses.{use_of};

use crate::calls::Calls;
use sporc_outside::{Counted, Failed, Link, Sink, Source, Stream};
use std::alloc::Global;
use std::marker::Model;

/// A link whose other end sends listed bytes. It keeps the bytes that are written, and tells both.
/// A write that finds no memory fails, and so do the listed calls.
#[derive(Drop)]
pub struct MemoryLink {
    bytes: Vec<u8>,
    at: usize,
    written: Vec<u8>,
    piece: usize,
    calls: Calls,
    is_shut: bool,
}

impl Model for MemoryLink {
    ghost use Rattle.std.specs.Prelude.{◌≤◌, ◌<◌, drop, vec_len};
    ghost use Rattle.sporc_memory.specs.MemoryLinkModel.{MemoryLinkModel};

    ghost Value = { MemoryLinkModel };

    ghost view = { λ l. record {
      left = drop l.at l.bytes.items;
      written = l.written.items;
      piece = l.piece;
      calls = l.calls;
      is_shut = l.is_shut;
    } };

    ghost invariant = { λ l. (l.at ≤ vec_len l.bytes) × (0 < l.piece) };
}

impl MemoryLink {
    /// Gives these bytes, and moves at most `piece` bytes a call. The listed calls fail.
    pub fn new(alloc: Global, bytes: Vec<u8>, piece: usize, calls: Calls) -> MemoryLink
        requires { 0 < piece }
        ensures value { result ≡ link_of bytes.items piece calls }
    {
        MemoryLink {
            bytes,
            at: 0,
            written: Vec::new(alloc),
            piece,
            calls,
            is_shut: false,
        }
    }

    /// The bytes written so far.
    pub fn written(&self) -> &[u8]
        ensures value { result.now ≡ self.now.written }
    {
        self.written.as_slice()
    }

    /// Whether it was shut.
    pub fn is_shut(&self) -> bool
        ensures value { result ≡ self.now.is_shut }
    {
        self.is_shut
    }
}

impl Counted for MemoryLink {
    ghost faults = { λ l. l.calls.faults };

    fn faults(&self) -> u64 {
        self.calls.faults()
    }
}

impl Stream for MemoryLink {
    ghost told = { link_told };

    ghost faults_are_told = { λ _. refl };
}

impl Source for MemoryLink {
    fn read(&mut self, buf: &mut [u8]) -> Result<usize, Failed>
        ensures within { IfOk result (λ n. n ≤ length buf.new) }
        ensures did { Reads (use_of link_told self.old self.new) result buf.new }
        ensures listed { IsErr result
            ↔ Contains self.old.calls.failing (next_count self.old.calls.made) }
        ensures call { CountsCall self.old.calls self.new.calls result }
    {
        self.calls.begin()?;
        let left = &self.bytes[self.at..];
        let n = buf.len().min(self.piece).min(left.len());
        buf[..n].copy_from_slice(&left[..n]);
        self.at += n;
        Ok(n)
    }
}

impl Sink for MemoryLink {
    fn write(&mut self, bytes: &[u8]) -> Result<usize, Failed>
        ensures within { IfOk result (λ n. n ≤ length bytes.now) }
        ensures positive { IfOk result (λ n. 0 < length bytes.now → 0 < n) }
        ensures did { Writes (use_of link_told self.old self.new) result bytes.now }
        ensures call { CountsCall self.old.calls self.new.calls result }
        ensures piece { IfOk result (λ n. n ≡ min (length bytes.now) self.old.piece) }
    {
        self.calls.begin()?;
        let n = bytes.len().min(self.piece);
        match self.written.extend_from_slice(&bytes[..n]) {
            Ok(()) => Ok(n),
            Err(_) => Err(self.calls.fail()),
        }
    }
}

impl Link for MemoryLink {
    fn shut(&mut self) {
        self.is_shut = true;
    }
}
