//! What takes bytes.

ghost use Rattle.std.specs.Prelude.{◌≡◌, ◌<◌, ◌≤◌, length, IfOk, OnOk, OnErr};
ghost use Rattle.std.specs.Io.KnownBytes.{Appends};
ghost use Rattle.sporc_outside.specs.Counts.{CountsFaults};
ghost use Rattle.sporc_outside.specs.Streams.{Writes};
ghost use Rattle.sporc_outside.specs.Uses.{use_of};
ghost use Rattle.sporc_outside.specs.Writing.{AppendsPrefix, AppendsLess};

use crate::counted::Failed;
use crate::stream::Stream;

/// Takes bytes, in pieces of its own choice.
pub trait Sink: Stream {
    /// Takes a prefix of the bytes, and says how many: at least one, where there are any.
    fn write(&mut self, bytes: &[u8]) -> Result<usize, Failed>
        ensures within { IfOk result (λ n. n ≤ length bytes.now) }
        ensures positive { IfOk result (λ n. 0 < length bytes.now → 0 < n) }
        ensures did { Writes (use_of Self.told self.old self.new) result bytes.now };
}

/// Writes all the bytes. If the sink fails, a prefix of them was written, and not all.
pub fn write_all<O: Sink>(out: &mut O, bytes: &[u8]) -> Result<(), Failed>
    ensures ok { OnOk result (Appends (O.told out.old).written (O.told out.new).written bytes.now) }
    ensures err { OnErr result
        (AppendsPrefix (O.told out.old).written (O.told out.new).written bytes.now) }
    ensures less { OnErr result
        (AppendsLess (O.told out.old).written (O.told out.new).written bytes.now) }
    ensures left { (O.told out.new).left ≡ (O.told out.old).left }
    ensures shut { (O.told out.new).is_shut ≡ (O.told out.old).is_shut }
    ensures count { CountsFaults (O.told out.old).faults (O.told out.new).faults result }
{
    let mut at = 0;
    while at < bytes.len() {
        at += out.write(&bytes[at..])?;
    }
    Ok(())
}
