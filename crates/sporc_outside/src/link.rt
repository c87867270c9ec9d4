//! Connections.

ghost use Rattle.sporc_outside.specs.Streams.{Shuts};
ghost use Rattle.sporc_outside.specs.Uses.{use_of};

use crate::sink::Sink;
use crate::source::Source;

/// Both directions of one connection, with one count of faults for both. After [`Link::shut`] it is
/// only handed back.
pub trait Link: Source + Sink {
    /// Shuts both directions.
    fn shut(&mut self)
        ensures did { Shuts (use_of Self.told self.old self.new) };
}
