//! The messages of a stream that comes in any pieces.

ghost use Rattle.std.specs.Prelude.{◌≡◌, ◌≢◌, [], Some, None, Err, OnOk, OnErr, MatchOption};
ghost use Rattle.std.specs.Prelude.{IsOkUnless};
ghost use Rattle.sporc_base.specs.Outcome.{GivesUnless};
ghost use Rattle.sporc_wire.specs.Messages.{stream_of, fed, next};
ghost use Rattle.sporc_wire.specs.ToClient.{to_client_of};
ghost use Rattle.sporc_wire.specs.ToServer.{to_server_of};

use crate::cutter::{CutFault, Cutter};
use crate::fault::FrameFault;
use crate::message::{BodyFault, Message};
use crate::to_client::ToClient;
use crate::to_server::ToServer;
use std::alloc::Global;
use std::marker::Model;

/// A stream of frames, in whatever pieces it comes: [`Frames::feed`] takes a piece, and the `next`
/// calls hand out the messages of all pieces fed so far, in order.
///
/// A frame that is no message and a length above the limit are faults that only a `next` call
/// finds; each call answers that fault from then on.
///
/// Contracts see the bytes from the first message on that was not handed out, the place of the
/// first of them in the stream, and the fault that was found.
#[derive(Drop)]
pub struct Frames {
    cutter: Cutter,
    at: u64,
    fault: Option<FrameFault>,
    alloc: Global,
}

impl Model for Frames {
    ghost use Rattle.sporc_wire.specs.CutterModel.{unread};
    ghost use Rattle.sporc_wire.specs.Messages.{Unread};

    ghost Value = { Unread };

    ghost view = { λ f. record { at = f.at; rest = unread f.cutter; fault = f.fault } };
}

impl Frames {
    /// An empty stream.
    pub fn new(alloc: Global) -> Frames
        ensures value { result ≡ stream_of [] }
    {
        Frames {
            cutter: Cutter::new(alloc),
            at: 0,
            fault: None,
            alloc,
        }
    }

    /// The place of the next frame in the stream.
    pub fn at(&self) -> u64
        ensures value { result ≡ self.now.at }
    {
        self.at
    }

    /// Appends a piece, unless a `next` call found a fault.
    pub fn feed(&mut self, piece: &[u8]) -> Result<(), FrameFault>
        ensures ok { OnOk result (self.new ≡ fed piece.now self.old) }
        ensures unchanged { OnErr result (self.new ≡ self.old) }
        ensures fault { MatchOption self.old.fault (IsOkUnless result FrameFault.Memory)
            (λ fault. result ≡ Err fault) }
    {
        if let Some(fault) = self.fault {
            return Err(fault);
        }
        self.cutter.feed(piece)?;
        Ok(())
    }

    /// The next message to a server. None exactly if no whole frame is left.
    pub fn next_to_server(&mut self) -> Result<Option<ToServer>, FrameFault>
        ensures value { GivesUnless FrameFault.Memory (λ found. found) result
            (next to_server_of self.old).answer }
        ensures after { result ≢ Err FrameFault.Memory
            → self.new ≡ (next to_server_of self.old).after }
        ensures memory { result ≡ Err FrameFault.Memory → self.new ≡ self.old }
    {
        self.next()
    }

    /// The next message to a client. None exactly if no whole frame is left.
    pub fn next_to_client(&mut self) -> Result<Option<ToClient>, FrameFault>
        ensures value { GivesUnless FrameFault.Memory (λ found. found) result
            (next to_client_of self.old).answer }
        ensures after { result ≢ Err FrameFault.Memory
            → self.new ≡ (next to_client_of self.old).after }
        ensures memory { result ≡ Err FrameFault.Memory → self.new ≡ self.old }
    {
        self.next()
    }

    // The next message.
    fn next<M: Message>(&mut self) -> Result<Option<M>, FrameFault>
        ensures value { GivesUnless FrameFault.Memory (λ found. found) result
            (next M.of self.old).answer }
        ensures after { result ≢ Err FrameFault.Memory → self.new ≡ (next M.of self.old).after }
        ensures memory { result ≡ Err FrameFault.Memory → self.new ≡ self.old }
    {
        if let Some(fault) = self.fault {
            return Err(fault);
        }
        match self.cutter.cut() {
            Ok(()) => {}
            Err(CutFault::Memory) => return Err(FrameFault::Memory),
            Err(CutFault::TooLong(len)) => return self.stop(FrameFault::TooLong(u64::from(len))),
        }
        let Some(body) = self.cutter.body() else {
            return Ok(None);
        };
        let len = body.len() as u64;
        match M::read(self.alloc, body) {
            Ok(message) => {
                self.cutter.go_on();
                self.at = self.at.saturating_add(len.saturating_add(4));
                Ok(Some(message))
            }
            Err(BodyFault::Memory) => Err(FrameFault::Memory),
            Err(BodyFault::Bad(place)) => {
                let place = self.at.saturating_add((place as u64).saturating_add(4));
                self.stop(FrameFault::BadMessage(place))
            }
        }
    }

    // Answers a fault from now on.
    fn stop<M>(&mut self, fault: FrameFault) -> Result<Option<M>, FrameFault>
        ensures value { result ≡ Err fault }
        ensures after { self.new ≡ record self.old { fault = Some fault } }
    {
        self.fault = Some(fault);
        Err(fault)
    }
}
