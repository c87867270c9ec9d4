//! Passes of a lock.

ghost use Rattle.std.specs.Prelude.{◌≡◌, ◌≢◌, length, IfNone, IfSome};
ghost use Rattle.sporc_turn.specs.Seats.{IsIdle, Counts, view_of};

use crate::known::View;
use crate::numbers::Numbers;
use atomic_table::Badge;

/// How many passes were split from number 0 and not joined back.
#[derive(Drop)]
pub struct Away {
    pub out: u32,
}

/// The right to take turns at one lock, with what its owner has seen of the log and added to it.
#[derive(Drop)]
pub struct Pass<E> {
    pub(crate) badge: Badge<View<E>>,
    pub(crate) numbers: Numbers,
    ghost one: { length badge.views ≡ 1 },
    ghost idle: { IsIdle (view_of badge) },
    ghost counted: { Counts numbers (view_of badge).known },
}

impl<E> Pass<E> {
    ghost use Rattle.sporc_turn.specs.Passes.{known_of, out_of};

    /// The number: 0 of the pass that `open` gave, and k of the one that the k-th split gave.
    pub fn number(&self) -> u32
        ensures value { result ≡ (known_of self.now).number }
    {
        self.numbers.number
    }

    /// How many passes were split from it and not joined back. Only number 0 is ever split.
    pub fn out(&self) -> u32
        ensures value { result ≡ out_of self.now }
        ensures others { (known_of self.now).number ≢ 0 → result ≡ 0 }
    {
        self.numbers.splits - self.numbers.joined
    }

    // How many passes are out, if any is.
    pub(crate) fn away(&self) -> Option<Away>
        ensures none { IfNone result (out_of self.now ≡ 0) }
        ensures some { IfSome result (λ a. (a.out ≡ out_of self.now) × (a.out ≢ 0)) }
    {
        let out = self.out();
        if out == 0 { None } else { Some(Away { out }) }
    }
}
