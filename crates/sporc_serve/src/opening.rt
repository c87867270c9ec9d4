//! An order under its lock, and taken out again.

ghost use Rattle.std.specs.Prelude.{◌≡◌, ◌≢◌, IfOk, IfErr, OnOk};
ghost use Rattle.sporc_entry.specs.declared.genesis.Genesis.{Genesis};
ghost use Rattle.sporc_turn.specs.Knowing.{first_known};
ghost use Rattle.sporc_turn.specs.Log.{Agrees};
ghost use Rattle.sporc_turn.specs.Passes.{known_of, out_of, IsPassOf};
ghost use Rattle.sporc_serve.specs.Logs.{by_of, order_at, IsLogOf};
ghost use Rattle.sporc_serve.specs.Served.{log_at_first};

use crate::desk::Desk;
use crate::item::Item;
use crate::kept_order::KeptOrder;
use sporc_order::Tail;
use sporc_turn::{Away, Pass, Turn};
use std::alloc::Global;

/// The lock round an order and the tail that keeps its entries, with the pass of number 0. It fails
/// if memory runs out.
pub fn open_kept<T: Tail>(
    alloc: Global,
    kept: KeptOrder<T>,
) -> Result<(Turn<Desk<T>>, Pass<Item>), KeptOrder<T>>
    requires tail { ∥ T.keeps kept.tail kept.order.entries ∥₁ }
    ensures lock { IfOk result (λ t. IsPassOf t.0 t.1) }
    ensures first { IfOk result (λ t. known_of t.1 ≡ first_known (log_at_first kept.order)) }
    ensures returned { IfErr result (λ e. e.order ≡ kept.order) }
    ensures returned_tail { IfErr result (λ e. ∥ T.keeps e.tail e.order.entries ∥₁) }
{
    let desk = match Desk::new(alloc, kept) {
        Ok(desk) => desk,
        Err(refused) => return Err(refused),
    };
    match Turn::open(alloc, desk) {
        Ok(both) => Ok(both),
        Err((desk, _)) => Err(desk.into_kept()),
    }
}

/// The order under a lock, and its tail, if each pass that was split was joined back: that of all
/// that number 0 has seen.
pub fn close_kept<T: Tail>(
    turn: Turn<Desk<T>>,
    first: Pass<Item>,
) -> Result<KeptOrder<T>, (Turn<Desk<T>>, Pass<Item>, Away)>
    requires lock { IsPassOf turn first }
    requires first { (known_of first).number ≡ 0 }
    ensures all { OnOk result (out_of first ≡ 0) }
    ensures order { IfOk result (λ kept. (genesis : Genesis) → IsLogOf genesis (known_of first).seen
        → kept.order ≡ order_at genesis (known_of first).seen) }
    ensures tail { IfOk result (λ kept. ∥ T.keeps kept.tail kept.order.entries ∥₁) }
    ensures agrees { OnOk result (Agrees by_of (known_of first) (known_of first).seen) }
    ensures away { IfErr result (λ e. (e.2.out ≡ out_of first) × (e.2.out ≢ 0)) }
{
    match turn.close(first) {
        Ok(desk) => Ok(desk.into_kept()),
        Err(out) => Err(out),
    }
}
