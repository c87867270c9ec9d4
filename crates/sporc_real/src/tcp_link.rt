//! Connections over TCP.

ghost use Rattle.std.specs.Prelude.{◌≡◌};

use crate::counting::counted;
use crate::pieces::{read_piece, write_piece};
use sporc_outside::{Counted, Failed, Link, Sink, Source, Stream};
use std::io;
use std::io::ErrorKind;
use std::net::{Shutdown, TcpStream};

/// A connection over TCP, whose two directions have one count. A read or a write may wait for the
/// peer, as long as the net that made it says. [`Link::shut`] gives the connection back to the
/// system at once.
#[derive(Drop)]
pub struct TcpLink {
    stream: Option<TcpStream>,
    faults: u64,
}

impl TcpLink {
    pub(crate) fn new(stream: TcpStream) -> TcpLink
        ensures { result.faults ≡ 0 }
    {
        TcpLink {
            stream: Some(stream),
            faults: 0,
        }
    }
}

// What a call on a link that was shut answers.
fn shut_already() -> io::Error {
    io::Error::from(ErrorKind::NotConnected)
}

impl Counted for TcpLink {
    ghost faults = { λ l. l.faults };

    fn faults(&self) -> u64 {
        self.faults
    }
}

impl Stream for TcpLink {
    ghost use Rattle.std.specs.Prelude.{refl};
    ghost use Rattle.sporc_outside.specs.Streams.{silent_stream};

    ghost told = { λ l. silent_stream l.faults };

    ghost faults_are_told = { λ _. refl };
}

impl Source for TcpLink {
    fn read(&mut self, buf: &mut [u8]) -> Result<usize, Failed> {
        let answer = match &mut self.stream {
            Some(stream) => read_piece(stream, buf),
            None => Err(shut_already()),
        };
        counted(&mut self.faults, answer)
    }
}

impl Sink for TcpLink {
    fn write(&mut self, bytes: &[u8]) -> Result<usize, Failed> {
        let answer = match &mut self.stream {
            Some(stream) => write_piece(stream, bytes),
            None => Err(shut_already()),
        };
        counted(&mut self.faults, answer)
    }
}

impl Link for TcpLink {
    /// Of a connection that the peer has shut already this does nothing.
    fn shut(&mut self) {
        if let Some(stream) = self.stream.take() {
            let _ = stream.shutdown(Shutdown::Both);
        }
    }
}
