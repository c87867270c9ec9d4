//! Standard output.

ghost use Rattle.std.specs.Prelude.{◌≡◌};

use crate::counting::counted;
use crate::pieces::write_piece;
use sporc_outside::{Counted, Failed, Sink, Stream};
use std::io::Write;

/// A writer as a sink that holds what the writer does, if it tells that.
#[derive(Drop)]
pub struct StandardOutput<W> {
    writer: W,
    faults: u64,
}

impl<W: Write> StandardOutput<W> {
    /// A sink over this writer.
    pub fn new(writer: W) -> StandardOutput<W>
        ensures writer { result.writer ≡ writer }
        ensures faults { result.faults ≡ 0 }
    {
        StandardOutput { writer, faults: 0 }
    }
}

impl<W: Write> Counted for StandardOutput<W> {
    ghost faults = { λ s. s.faults };

    fn faults(&self) -> u64 {
        self.faults
    }
}

impl<W: Write> Stream for StandardOutput<W> {
    ghost use Rattle.std.specs.Prelude.{refl};
    ghost use Rattle.sporc_outside.specs.Streams.{silent_stream};

    ghost told = { λ s. record (silent_stream s.faults) { written = W.contents s.writer } };

    ghost faults_are_told = { λ _. refl };
}

impl<W: Write> Sink for StandardOutput<W> {
    fn write(&mut self, bytes: &[u8]) -> Result<usize, Failed> {
        let answer = write_piece(&mut self.writer, bytes);
        counted(&mut self.faults, answer)
    }
}
