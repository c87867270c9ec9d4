//! Links between threads.

ghost use Rattle.std.specs.Prelude.{◌≡◌};

use crate::pipe::Pipe;
use sporc_outside::{Counted, Failed, Link, Sink, Source, Stream};
use std::sync::{Arc, Wait};

/// An end of a connection between threads. A read waits until bytes have come or either end was
/// shut. A write fails only where there is no memory. It tells no content.
#[derive(Drop)]
pub struct PipeLink<R: Wait + Copy + Drop> {
    rt: R,
    incoming: Arc<Pipe>,
    outgoing: Arc<Pipe>,
    faults: u64,
}

impl<R: Wait + Copy + Drop> PipeLink<R> {
    pub(crate) fn new(rt: R, incoming: Arc<Pipe>, outgoing: Arc<Pipe>) -> PipeLink<R>
        ensures { result.faults ≡ 0 }
    {
        PipeLink {
            rt,
            incoming,
            outgoing,
            faults: 0,
        }
    }
}

impl<R: Wait + Copy + Drop> Counted for PipeLink<R> {
    ghost faults = { λ l. l.faults };

    fn faults(&self) -> u64 {
        self.faults
    }
}

impl<R: Wait + Copy + Drop> Stream for PipeLink<R> {
    ghost use Rattle.std.specs.Prelude.{refl};
    ghost use Rattle.sporc_outside.specs.Streams.{silent_stream};

    ghost told = { λ l. silent_stream l.faults };

    ghost faults_are_told = { λ _. refl };
}

impl<R: Wait + Copy + Drop> Source for PipeLink<R> {
    fn read(&mut self, buf: &mut [u8]) -> Result<usize, Failed> {
        Ok(self.incoming.read(&self.rt, buf))
    }
}

impl<R: Wait + Copy + Drop> Sink for PipeLink<R> {
    fn write(&mut self, bytes: &[u8]) -> Result<usize, Failed> {
        match self.outgoing.write(&self.rt, bytes) {
            Ok(()) => Ok(bytes.len()),
            Err(_) => {
                self.faults = self.faults.saturating_add(1);
                Err(Failed)
            }
        }
    }
}

impl<R: Wait + Copy + Drop> Link for PipeLink<R> {
    fn shut(&mut self) {
        self.incoming.shut(&self.rt);
        self.outgoing.shut(&self.rt);
    }
}
