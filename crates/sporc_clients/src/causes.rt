//! Which fault of a session and of what follows it is answered.

ghost use Rattle.std.specs.Prelude.{◌≡◌};
ghost use Rattle.sporc_bytes.specs.Fields.{fault_as};
ghost use Rattle.sporc_clients.specs.Causes.{ended};
ghost use Rattle.sporc_device.specs.Causes.{fault_of_session};

use sporc_device::session_fault;
use sporc_files::{Fault, first_fault};
use sporc_session::SessionFault;

// How a session ended, for the program.
fn session_end(session: Result<(), SessionFault>) -> Result<(), Fault>
    ensures value { result ≡ fault_as fault_of_session session }
{
    match session {
        Ok(()) => Ok(()),
        Err(fault) => Err(session_fault(fault)),
    }
}

// What the command answers, by what came of its session, of saving and of printing: the first
// fault, but for out of memory at a later one.
pub(crate) fn end(
    session: Result<(), SessionFault>,
    saved: Result<(), Fault>,
    printed: Result<(), Fault>,
) -> Result<(), Fault>
    ensures value { result ≡ ended session saved printed }
{
    let kept = first_fault(saved, printed);
    first_fault(session_end(session), kept)
}
