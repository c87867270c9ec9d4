//! Errors of the system, counted.

ghost use Rattle.std.specs.Prelude.{◌≡◌, ◌≤◌, Ok, IfOk, IsErr, OnErr};
ghost use Rattle.sporc_outside.specs.Counts.{CountsFaults, Rose, next_count};

use sporc_outside::Failed;
use std::io;

// Counts a fault.
pub(crate) fn fail(faults: &mut u64) -> Failed
    ensures counted { faults.new ≡ next_count faults.old }
    ensures kept { faults.old ≤ faults.new }
    ensures rose { Rose faults.old faults.new }
{
    *faults = faults.saturating_add(1);
    Failed
}

// The answer of a call of the system, its error counted.
pub(crate) fn counted<T>(faults: &mut u64, answer: io::Result<T>) -> Result<T, Failed>
    ensures ok { IfOk answer (λ value. result ≡ Ok value) }
    ensures err { OnErr answer (IsErr result) }
    ensures count { CountsFaults faults.old faults.new result }
{
    match answer {
        Ok(value) => Ok(value),
        Err(_) => Err(fail(faults)),
    }
}
