//! Sources in memory.

ghost use Rattle.std.specs.Prelude.{◌≡◌, ◌-◌, ◌<◌, ◌≤◌, ◌↔◌, length, min, IsErr, IfOk, Contains};
ghost use Rattle.sporc_memory.specs.CallsModel.{CountsCall};
ghost use Rattle.sporc_outside.specs.Counts.{next_count};
ghost use Rattle.sporc_memory.specs.MemoryStreams.{source_told};
ghost use Rattle.sporc_outside.specs.Streams.{Reads};
ghost use Rattle.sporc_outside.specs.Uses.{use_of};

use crate::calls::Calls;
use sporc_outside::{Counted, Failed, Source, Stream};
use std::marker::Model;

/// A source of listed bytes, which it tells.
#[derive(Drop)]
pub struct MemorySource {
    bytes: Vec<u8>,
    at: usize,
    piece: usize,
    calls: Calls,
}

impl Model for MemorySource {
    ghost use Rattle.std.specs.Prelude.{◌≤◌, ◌<◌, drop, vec_len};
    ghost use Rattle.sporc_memory.specs.MemoryBytesModel.{MemoryBytesModel};

    ghost Value = { MemoryBytesModel };

    ghost view = { λ s.
        record { bytes = drop s.at s.bytes.items; piece = s.piece; calls = s.calls } };

    ghost invariant = { λ s. (s.at ≤ vec_len s.bytes) × (0 < s.piece) };
}

impl MemorySource {
    /// Gives these bytes, at most `piece` of them a call. The listed calls fail.
    pub fn new(bytes: Vec<u8>, piece: usize, calls: Calls) -> MemorySource
        requires { 0 < piece }
        ensures value { result ≡ record { bytes = bytes.items; piece = piece; calls = calls } }
    {
        MemorySource {
            bytes,
            at: 0,
            piece,
            calls,
        }
    }
}

impl Counted for MemorySource {
    ghost faults = { λ s. s.calls.faults };

    fn faults(&self) -> u64 {
        self.calls.faults()
    }
}

impl Stream for MemorySource {
    ghost use Rattle.std.specs.Prelude.{refl};

    ghost told = { source_told };

    ghost faults_are_told = { λ _. refl };
}

impl Source for MemorySource {
    fn read(&mut self, buf: &mut [u8]) -> Result<usize, Failed>
        ensures within { IfOk result (λ n. n ≤ length buf.new) }
        ensures did { Reads (use_of source_told self.old self.new) result buf.new }
        ensures listed { IsErr result
            ↔ Contains self.old.calls.failing (next_count self.old.calls.made) }
        ensures call { CountsCall self.old.calls self.new.calls result }
        ensures piece { IfOk result
            (λ n. n ≡ min (min (length buf.old) self.old.piece) (length self.old.bytes)) }
    {
        self.calls.begin()?;
        let left = &self.bytes[self.at..];
        let n = buf.len().min(self.piece).min(left.len());
        buf[..n].copy_from_slice(&left[..n]);
        self.at += n;
        Ok(n)
    }
}
