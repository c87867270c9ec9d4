//! Sinks in memory.

ghost use Rattle.std.specs.Prelude.{◌≡◌, ◌<◌, ◌≤◌, [], length, min, IfOk};
ghost use Rattle.sporc_memory.specs.CallsModel.{CountsCall};
ghost use Rattle.sporc_memory.specs.MemoryStreams.{sink_told};
ghost use Rattle.sporc_outside.specs.Streams.{Writes};
ghost use Rattle.sporc_outside.specs.Uses.{use_of};

use crate::calls::Calls;
use sporc_outside::{Counted, Failed, Sink, Stream};
use std::alloc::Global;
use std::marker::Model;

/// A sink that keeps its bytes and tells them. A call that finds no memory for them fails.
#[derive(Drop)]
pub struct MemorySink {
    bytes: Vec<u8>,
    piece: usize,
    calls: Calls,
}

impl Model for MemorySink {
    ghost use Rattle.std.specs.Prelude.{◌<◌};
    ghost use Rattle.sporc_memory.specs.MemoryBytesModel.{MemoryBytesModel};

    ghost Value = { MemoryBytesModel };

    ghost view = { λ s. record { bytes = s.bytes.items; piece = s.piece; calls = s.calls } };

    ghost invariant = { λ s. 0 < s.piece };
}

impl MemorySink {
    /// Holds nothing yet, and takes at most `piece` bytes a call. The listed calls fail.
    pub fn new(alloc: Global, piece: usize, calls: Calls) -> MemorySink
        requires { 0 < piece }
        ensures value { result ≡ record { bytes = []; piece = piece; calls = calls } }
    {
        MemorySink {
            bytes: Vec::new(alloc),
            piece,
            calls,
        }
    }

    /// The bytes written so far.
    pub fn as_slice(&self) -> &[u8]
        ensures value { result.now ≡ self.now.bytes }
    {
        self.bytes.as_slice()
    }
}

impl Counted for MemorySink {
    ghost faults = { λ s. s.calls.faults };

    fn faults(&self) -> u64 {
        self.calls.faults()
    }
}

impl Stream for MemorySink {
    ghost use Rattle.std.specs.Prelude.{refl};

    ghost told = { sink_told };

    ghost faults_are_told = { λ _. refl };
}

impl Sink for MemorySink {
    fn write(&mut self, bytes: &[u8]) -> Result<usize, Failed>
        ensures within { IfOk result (λ n. n ≤ length bytes.now) }
        ensures positive { IfOk result (λ n. 0 < length bytes.now → 0 < n) }
        ensures did { Writes (use_of sink_told self.old self.new) result bytes.now }
        ensures call { CountsCall self.old.calls self.new.calls result }
        ensures piece { IfOk result (λ n. n ≡ min (length bytes.now) self.old.piece) }
    {
        self.calls.begin()?;
        let n = bytes.len().min(self.piece);
        match self.bytes.extend_from_slice(&bytes[..n]) {
            Ok(()) => Ok(n),
            Err(_) => Err(self.calls.fail()),
        }
    }
}
