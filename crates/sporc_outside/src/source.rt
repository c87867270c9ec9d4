//! What gives bytes.

ghost use Rattle.std.specs.Prelude.{◌≤◌, length, IfOk};
ghost use Rattle.sporc_outside.specs.Streams.{Reads};
ghost use Rattle.sporc_outside.specs.Uses.{use_of};

use crate::counted::Failed;
use crate::stream::Stream;

/// Gives bytes, in pieces of its own choice.
pub trait Source: Stream {
    /// Moves bytes into the first places of the buffer, and says how many. None are moved only at
    /// the end, or where the buffer is empty.
    fn read(&mut self, buf: &mut [u8]) -> Result<usize, Failed>
        ensures within { IfOk result (λ n. n ≤ length buf.new) }
        ensures did { Reads (use_of Self.told self.old self.new) result buf.new };
}
