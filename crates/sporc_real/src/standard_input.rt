//! Standard input.

ghost use Rattle.std.specs.Prelude.{◌≡◌};

use crate::counting::counted;
use crate::pieces::read_piece;
use sporc_outside::{Counted, Failed, Source, Stream};
use std::io::Read;

/// A reader as a source of the bytes that it has left, if it tells them.
#[derive(Drop)]
pub struct StandardInput<R> {
    reader: R,
    faults: u64,
}

impl<R: Read> StandardInput<R> {
    /// A source over this reader.
    pub fn new(reader: R) -> StandardInput<R>
        ensures reader { result.reader ≡ reader }
        ensures faults { result.faults ≡ 0 }
    {
        StandardInput { reader, faults: 0 }
    }
}

impl<R: Read> Counted for StandardInput<R> {
    ghost faults = { λ s. s.faults };

    fn faults(&self) -> u64 {
        self.faults
    }
}

impl<R: Read> Stream for StandardInput<R> {
    ghost use Rattle.std.specs.Prelude.{refl};
    ghost use Rattle.sporc_outside.specs.Streams.{silent_stream};

    ghost told = { λ s. record (silent_stream s.faults) { left = R.remaining s.reader } };

    ghost faults_are_told = { λ _. refl };
}

impl<R: Read> Source for StandardInput<R> {
    fn read(&mut self, buf: &mut [u8]) -> Result<usize, Failed> {
        let answer = read_piece(&mut self.reader, buf);
        counted(&mut self.faults, answer)
    }
}
