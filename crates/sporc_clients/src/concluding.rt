//! What stands once a session has ended.

ghost use Rattle.std.specs.Prelude.{◌≡◌, ◌≤◌};
ghost use Rattle.sporc_client.specs.ClientModel.{Rise, leaves_of};
ghost use Rattle.sporc_outside.specs.Told.{MayAppend};
ghost use Rattle.sporc_outside.specs.Uses.{use_of};
ghost use Rattle.sporc_outside.specs.LeafDisk.{disk_images};
ghost use Rattle.sporc_shared.specs.Items.{past_of};
ghost use Rattle.sporc_clients.specs.Concluding.{LeavesAreTaken, PrintOutcome, SaveOutcome};

use crate::reporting::report;
use crate::session::Ended;
use sporc_client::Client;
use sporc_files::Fault;
use sporc_outside::{Folder, LeafDisk, Sink, write_all};
use sporc_session::SessionFault;
use sporc_store::save;
use std::alloc::Global;

/// What a session came to.
#[derive(Drop)]
pub struct Concluded<D: LeafDisk> {
    /// How it ended.
    pub session: Result<(), SessionFault>,
    /// Whether the history was saved.
    pub saved: Result<(), Fault>,
    /// Whether journal and report were printed.
    pub printed: Result<(), Fault>,
    /// The disk of the leaf file.
    pub disk: D,
}

/// Saves the history of a client as the file with a name, then prints its journal and report,
/// whatever fault ended its session or comes in between, and closes the client. So what was printed
/// is saved already, if it could be, however long the sink takes.
pub(crate) fn conclude<D: LeafDisk, O: Sink, F: Folder>(
    alloc: Global,
    ended: Ended<D>,
    out: &mut O,
    files: &mut F,
    name: &str,
) -> Concluded<D>
    requires leaves { Rise (past_of ended.client).first_leaf ended.client.leaves.next
        (leaves_of ended.client.log) }
    ensures session { result.session ≡ ended.result }
    ensures saved { SaveOutcome (past_of ended.client) name.now
        (use_of F.told files.old files.new) result.saved }
    ensures printed { PrintOutcome (past_of ended.client)
        (use_of O.told out.old out.new) result.printed }
    ensures disk { result.disk ≡ ended.client.leaves.disk }
    ensures taken { LeavesAreTaken (disk_images (D.told result.disk)) (past_of ended.client) }
    ensures lent { (F.told files.new).lent ≡ (F.told files.old).lent }
    ensures may_ask { MayAppend (F.told files.old).asked (F.told files.new).asked name.now }
    ensures out_kept { (O.told out.old).faults ≤ (O.told out.new).faults }
    ensures files_kept { (F.told files.old).faults ≤ (F.told files.new).faults }
{
    let Ended { client, result } = ended;
    let saved = save_history(alloc, &client, files, name);
    let printed = print(alloc, &client, out);
    let disk = client.close().close();
    Concluded {
        session: result,
        saved,
        printed,
        disk,
    }
}

// Saves the history of a client as the file with a name.
fn save_history<D: LeafDisk, F: Folder>(
    alloc: Global,
    client: &Client<D>,
    files: &mut F,
    name: &str,
) -> Result<(), Fault>
    ensures saved { SaveOutcome (past_of client.now) name.now
        (use_of F.told files.old files.new) result }
    ensures lent { (F.told files.new).lent ≡ (F.told files.old).lent }
    ensures may_ask { MayAppend (F.told files.old).asked (F.told files.new).asked name.now }
    ensures kept { (F.told files.old).faults ≤ (F.told files.new).faults }
{
    // Not called for its answer: that a client has few entries is what the saving of them asks for.
    let _few = client.heads().len();
    let bytes = save(alloc, client.document(), client.entries())?;
    files.write_file(name, bytes.as_slice())?;
    Ok(())
}

// Prints journal and report of a client.
fn print<D: LeafDisk, O: Sink>(alloc: Global, client: &Client<D>, out: &mut O) -> Result<(), Fault>
    ensures printed { PrintOutcome (past_of client.now) (use_of O.told out.old out.new) result }
    ensures kept { (O.told out.old).faults ≤ (O.told out.new).faults }
{
    let text = report(alloc, client)?;
    write_all(out, text.as_bytes())?;
    Ok(())
}
