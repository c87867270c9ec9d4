//! What is printed of a client.

ghost use Rattle.std.specs.Prelude.{◌≡◌, IfOk, string_bytes};
ghost use Rattle.sporc_shared.specs.Items.{past_of};
ghost use Rattle.sporc_clients.specs.Report.{report_of};

use sporc_base::Memory;
use sporc_client::Client;
use sporc_outside::LeafDisk;
use sporc_report::{push_hash, push_journal, push_show};
use std::alloc::Global;

/// The lines of a client's journal, what its member sees, and the last value of its chain.
pub(crate) fn report<D: LeafDisk>(alloc: Global, client: &Client<D>) -> Result<String, Memory>
    ensures value { IfOk result (λ text. string_bytes text ≡ report_of (past_of client.now)) }
{
    let mut text = String::new(alloc);
    push_journal(alloc, &mut text, client.journal())?;
    push_show(&mut text, client)?;
    push_hash(alloc, &mut text, client)?;
    Ok(text)
}
