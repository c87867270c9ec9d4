//! The value, out with one pass.

ghost use Rattle.std.specs.Prelude.{◌≡◌, true};
ghost use Rattle.sporc_turn.specs.Seats.{IsOut, Counts, has_room};

use crate::kept::Kept;
use crate::known::View;
use crate::numbers::Numbers;
use atomic_table::Seat;

/// The turn: a seat whose ticket is served, and which has the empty slot.
pub(crate) struct Holder<S: Kept> {
    pub(crate) seat: Seat<Option<S>, View<S::Item>>,
    pub(crate) ticket: u64,
    pub(crate) numbers: Numbers,
    ghost is_out: { IsOut seat.me.0 },
    ghost room: { has_room seat.me.1 ≡ true },
    ghost ticket_is: { ticket ≡ seat.me.0.ticket },
    ghost counted: { Counts numbers seat.me.0.known },
}

/// The value, out with one pass. It has to be given back: it can't be dropped.
pub struct Held<S: Kept> {
    pub(crate) holder: Holder<S>,
    pub(crate) value: S,
}
