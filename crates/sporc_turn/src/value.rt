//! The loan of the value. It has a file of its own, since its clause names the row of `Held`, which
//! the file that declares `Held` can't import.

ghost use Rattle.std.specs.Prelude.{◌≡◌};
ghost use Rattle.std.specs.Borrow.{sem};
ghost use Rattle.sporc_turn.specs.Lending.{LendsValue};
ghost use Rattle.sporc_turn.specs.Passes.{value_of};

use crate::held::Held;
use crate::kept::Kept;

impl<S: Kept> Held<S> {
    /// The value, to be read and changed. What is written there is what the pass then holds, in the
    /// same turn.
    pub fn value(&mut self) -> &mut S
        ensures* lent { sem 𝓛 (LendsValue S.row S.Item.row S.Kept self.entry result) }
        ensures value { result.now ≡ value_of self.old }
    {
        &mut self.value
    }
}
