//! Laws of logs, and the limit in numbers, as the contracts of functions that do nothing.

ghost use Rattle.std.specs.Prelude.{◌≡◌, ◌^◌};
ghost use Rattle.sporc_turn.specs.Log.{OnlyFirstAdds};
ghost use Rattle.sporc_turn.specs.declared.limits.TheConstants.{MAX_TICKETS};

use crate::kept::Kept;

/// The limit in numbers.
pub fn limits()
    ensures tickets { MAX_TICKETS ≡ 2 ^ 62 }
{}

/// Once number 0 has joined back all that it split, each item that is added to the log is its own.
pub fn only_the_first_adds<S: Kept>()
    ensures { OnlyFirstAdds S.by }
{}
