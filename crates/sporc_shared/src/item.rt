//! Items of a shared client's log, and passes of one.

use std::convert::Infallible;
use std::marker::Model;

/// An item of a shared client's log, for contracts alone: no value of it is made. The first one
/// says what the client was opened with, and each of the others is an event of its journal.
#[derive(Drop)]
pub struct Item {
    never: Infallible,
}

impl Model for Item {
    ghost use Rattle.sporc_shared.specs.Items.{Item, item_code, item_of};

    ghost Value = { Item };

    ghost coded = { item_code };

    ghost view = { λ i. item_of i.never };
}

/// The right to take turns at one shared client, with what its owner has seen of the log and added
/// to it.
pub type Pass = sporc_turn::Pass<Item>;
