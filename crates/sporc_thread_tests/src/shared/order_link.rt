//! A link in memory whose other end is a session with an order.

ghost use Rattle.std.specs.Prelude.{◌≤◌, ◌<◌, length};

use sporc_memory::Calls;
use sporc_order::{Order, Reply, Session};
use sporc_outside::{Counted, Failed, Link, Sink, Source, Stream};
use sporc_wire::{Frames, ToClient, ToServer};
use std::alloc::Global;

// The most messages that one write may bring.
const MESSAGES: u32 = 1_000;

/// The server's end: what it was sent and not answered, and the answers that were not read.
#[derive(Drop)]
struct Server {
    alloc: Global,
    order: Box<Order>,
    session: Session,
    frames: Frames,
    answers: Vec<u8>,
    read: usize,
}

impl Server {
    // Takes a piece of what is sent, and answers each message that is whole.
    fn take(&mut self, piece: &[u8]) -> Result<(), Failed> {
        let Ok(()) = self.frames.feed(piece) else {
            return Err(Failed);
        };
        for _ in 0..MESSAGES {
            match self.frames.next_to_server() {
                Ok(Some(message)) => self.answer(&message)?,
                Ok(None) => return Ok(()),
                Err(_) => return Err(Failed),
            }
        }
        Err(Failed)
    }

    // Answers a message.
    fn answer(&mut self, message: &ToServer) -> Result<(), Failed> {
        match self.session.step(self.alloc, &mut self.order, message) {
            Ok(reply) => put_reply(&mut self.answers, &reply),
            Err(_) => Err(Failed),
        }
    }

    // Gives at most as many bytes as there is room for.
    fn give(&mut self, buf: &mut [u8]) -> usize
        ensures { result ≤ length buf.new }
    {
        let left = self.answers.get(self.read..).unwrap_or(&[]);
        let n = left.len().min(buf.len());
        buf[..n].copy_from_slice(&left[..n]);
        self.read = self.read.saturating_add(n);
        n
    }
}

fn put_reply(bytes: &mut Vec<u8>, reply: &Reply) -> Result<(), Failed> {
    match reply {
        Reply::Message(message) => put_frame(bytes, message),
        Reply::Frame(frame) => put(bytes, frame.as_slice()),
        Reply::Silent => Ok(()),
        Reply::Close => Err(Failed),
    }
}

// Appends the frame of a message that has no entries, and whose refusal has no detail.
fn put_frame(bytes: &mut Vec<u8>, message: &ToClient) -> Result<(), Failed> {
    match message {
        ToClient::Ordered { pos } => {
            put(bytes, &[0, 0, 0, 5, 1])?;
            put(bytes, &pos.to_be_bytes())
        }
        ToClient::Rejected { refusal } => put(bytes, &[0, 0, 0, 6, 2, refusal.code(), 0, 0, 0, 0]),
        ToClient::Empty => put(bytes, &[0, 0, 0, 1, 4]),
        ToClient::Entries { .. } => Err(Failed),
    }
}

fn put(bytes: &mut Vec<u8>, piece: &[u8]) -> Result<(), Failed> {
    match bytes.extend_from_slice(piece) {
        Ok(()) => Ok(()),
        Err(_) => Err(Failed),
    }
}

/// A link to a server. It tells no content.
#[derive(Drop)]
pub(crate) struct OrderLink {
    server: Server,
    calls: Calls,
}

impl OrderLink {
    /// A link to an order.
    pub(crate) fn new(alloc: Global, order: Box<Order>, calls: Calls) -> OrderLink {
        OrderLink {
            server: Server {
                alloc,
                order,
                session: Session::new(),
                frames: Frames::new(alloc),
                answers: Vec::new(alloc),
                read: 0,
            },
            calls,
        }
    }
}

impl Counted for OrderLink {
    ghost faults = { λ l. l.calls.faults };

    fn faults(&self) -> u64 {
        self.calls.faults()
    }
}

impl Stream for OrderLink {
    ghost use Rattle.std.specs.Prelude.{refl};
    ghost use Rattle.sporc_outside.specs.Streams.{silent_stream};

    ghost told = { λ l. silent_stream l.calls.faults };

    ghost faults_are_told = { λ _. refl };
}

impl Source for OrderLink {
    fn read(&mut self, buf: &mut [u8]) -> Result<usize, Failed> {
        self.calls.begin()?;
        Ok(self.server.give(buf))
    }
}

impl Sink for OrderLink {
    fn write(&mut self, bytes: &[u8]) -> Result<usize, Failed> {
        self.calls.begin()?;
        match self.server.take(bytes) {
            Ok(()) => Ok(bytes.len()),
            Err(_) => Err(self.calls.fail()),
        }
    }
}

impl Link for OrderLink {
    fn shut(&mut self) {}
}
