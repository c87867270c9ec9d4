//! Tickets, each of which signs one message.

ghost use Rattle.std.specs.Prelude.{◌≡◌, ℕ};

use std::marker::Model;

/// A leaf that was drawn and has not signed. It is spent by the signature that succeeds, or given
/// up.
pub struct Ticket {
    leaf: u32,
}

impl Model for Ticket {
    ghost Value = { ℕ };

    ghost view = { λ t. t.leaf };
}

impl Ticket {
    // The ticket of a leaf that was just drawn.
    pub(crate) fn of(leaf: u32) -> Ticket
        ensures value { result ≡ leaf }
    {
        Ticket { leaf }
    }

    /// The number of its leaf.
    pub fn leaf(&self) -> u32
        ensures value { result ≡ self.now }
    {
        self.leaf
    }

    /// Keeps the ticket for later.
    pub fn keep(self) -> KeptTicket
        ensures value { result ≡ self }
    {
        let Ticket { leaf } = self;
        KeptTicket { leaf }
    }

    /// Spends the ticket without a signature.
    pub fn give_up(self) {
        let Ticket { leaf: _ } = self;
    }
}

/// A ticket that is kept for later, in a value that may be let go: then the ticket is given up.
#[derive(Drop)]
pub struct KeptTicket {
    leaf: u32,
}

impl Model for KeptTicket {
    ghost Value = { ℕ };

    ghost view = { λ t. t.leaf };
}

impl KeptTicket {
    /// The ticket, to sign with.
    pub fn take(self) -> Ticket
        ensures value { result ≡ self }
    {
        Ticket { leaf: self.leaf }
    }
}
