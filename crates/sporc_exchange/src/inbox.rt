//! What comes over a link.

ghost use Rattle.std.specs.Prelude.{◌≡◌, [], None, Ok, IsOkUnless, OnErr, OnOk};
ghost use Rattle.sporc_base.specs.Outcome.{GivesUnless};
ghost use Rattle.sporc_wire.specs.Messages.{next};
ghost use Rattle.sporc_wire.specs.ToClient.{to_client_of};
ghost use Rattle.sporc_exchange.specs.Asking.{ReadEnds};
ghost use Rattle.sporc_exchange.specs.Wires.{empty_inbox, link_at, none_held, unread_of};

use crate::fault::ExchangeFault;
use sporc_outside::Link;
use sporc_wire::{FrameFault, Frames, ToClient};
use std::alloc::Global;
use std::marker::Model;

/// The most bytes that one read asks for.
pub const PIECE: usize = 4096;

/// The bytes that were taken off a link and not handed out. The last piece is held until it is cut
/// into frames, so that nothing is lost where memory runs out.
///
/// Contracts see them, with the place of the first of them in the stream and how many were taken in
/// all.
#[derive(Drop)]
pub struct Inbox {
    frames: Frames,
    taken: u64,
    piece: [u8; PIECE],
    len: usize,
}

impl Model for Inbox {
    ghost use Rattle.std.specs.Prelude.{take};
    ghost use Rattle.sporc_exchange.specs.Wires.{InboxModel};

    ghost Value = { InboxModel };

    ghost use Rattle.sporc_exchange.specs.Wires.{InboxInvariant};

    ghost view = { λ i. record {
      at = i.frames.at;
      rest = i.frames.rest;
      held = take i.len i.piece;
      taken = i.taken;
    } };

    ghost invariant = { λ i. InboxInvariant i.frames i.len };
}

impl Inbox {
    /// Nothing was taken yet.
    pub fn new(alloc: Global) -> Inbox
        ensures value { result ≡ empty_inbox }
    {
        Inbox {
            frames: Frames::new(alloc),
            taken: 0,
            piece: [0; PIECE],
            len: 0,
        }
    }

    /// The place of the next frame in the stream.
    pub fn at(&self) -> u64
        ensures value { result ≡ self.now.at }
    {
        self.frames.at()
    }

    /// Takes a piece off a link, where no whole frame is there.
    pub fn read_piece<L: Link>(&mut self, link: &mut L) -> Result<(), ExchangeFault>
        requires held { self.old.held ≡ [] }
        requires waits { (next to_client_of (unread_of self.old)).answer ≡ Ok None }
        ensures read { ReadEnds
            (link_at (L.told link.old) self.old) (link_at (L.told link.new) self.new) result }
        ensures shut { (L.told link.new).is_shut ≡ (L.told link.old).is_shut }
    {
        let Ok(n) = link.read(&mut self.piece) else {
            return Err(ExchangeFault::LinkFault);
        };
        if n == 0 {
            return Err(ExchangeFault::LinkEnded(self.taken));
        }
        self.len = n;
        self.taken = self.taken.saturating_add(n as u64);
        Ok(())
    }

    // Cuts what is held into frames.
    fn feed(&mut self) -> Result<(), FrameFault>
        ensures ok { OnOk result (self.new ≡ none_held self.old) }
        ensures err { IsOkUnless result FrameFault.Memory }
        ensures unchanged { OnErr result (self.new ≡ self.old) }
    {
        if self.len == 0 {
            return Ok(());
        }
        self.frames.feed(&self.piece[..self.len])?;
        self.len = 0;
        Ok(())
    }

    /// The next message. None exactly if no whole frame is there.
    pub fn next(&mut self) -> Result<Option<ToClient>, FrameFault>
        ensures value { GivesUnless FrameFault.Memory (λ found. found) result
            (next to_client_of (unread_of self.old)).answer }
        ensures after { OnOk result
            (unread_of self.new ≡ (next to_client_of (unread_of self.old)).after) }
        ensures held { OnOk result (self.new.held ≡ []) }
        ensures taken { self.new.taken ≡ self.old.taken }
        ensures unread { OnErr result (unread_of self.new ≡ unread_of self.old) }
    {
        self.feed()?;
        self.next_fed()
    }

    // The next message, where nothing is held.
    fn next_fed(&mut self) -> Result<Option<ToClient>, FrameFault>
        requires { self.old.held ≡ [] }
        ensures value { GivesUnless FrameFault.Memory (λ found. found) result
            (next to_client_of (unread_of self.old)).answer }
        ensures after { OnOk result
            (unread_of self.new ≡ (next to_client_of (unread_of self.old)).after) }
        ensures held { self.new.held ≡ [] }
        ensures taken { self.new.taken ≡ self.old.taken }
        ensures unread { OnErr result (unread_of self.new ≡ unread_of self.old) }
    {
        self.frames.next_to_client()
    }
}
