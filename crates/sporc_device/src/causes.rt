//! What a fault of a session is for the program.

ghost use Rattle.std.specs.Prelude.{◌≡◌};
ghost use Rattle.sporc_device.specs.Causes.{fault_of_session};

use lms_leaf::LeafFault;
use sporc_files::Fault;
use sporc_session::SessionFault;

/// What a fault of a session or of a fetch is for the program.
pub fn session_fault(fault: SessionFault) -> Fault
    ensures value { result ≡ fault_of_session fault }
{
    match fault {
        SessionFault::LinkFault | SessionFault::ChanceFault => Fault::Outside,
        SessionFault::Refused(position, refusal) => Fault::Refused(position, refusal),
        SessionFault::NotSettled(pending, position) => Fault::Unsettled(pending, position),
        SessionFault::BadMessage(place) => Fault::Message(place),
        SessionFault::Leaf(LeafFault::Exhausted(next)) => Fault::Leaf(next),
        SessionFault::Leaf(LeafFault::DiskFault) => Fault::Outside,
        SessionFault::HistoryFull => Fault::FullHistory,
        SessionFault::ServerRejected(refusal) => Fault::Rejected(refusal),
        SessionFault::JournalFull => Fault::FullJournal,
        SessionFault::EditRefused(editor, line, fault) => Fault::Edit(editor, line, fault),
        SessionFault::Worn(_) => Fault::Worn,
        SessionFault::LinkEnded(taken) => Fault::LinkEnded(taken),
        SessionFault::Memory => Fault::Memory,
    }
}
