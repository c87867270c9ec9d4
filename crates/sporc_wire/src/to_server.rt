//! Messages to the server.

ghost use Rattle.std.specs.Prelude.{◌≡◌, ◌++◌, length, OnOk};
ghost use Rattle.sporc_base.specs.Outcome.{GivesUnless};
ghost use Rattle.sporc_bytes.specs.Fields.{Reads};
ghost use Rattle.sporc_wire.specs.Messages.{framed, counted_to_end};
ghost use Rattle.sporc_wire.specs.ToServer.{hello_at, pull_at, to_server_bytes};

use crate::cutter::MAX_BODY;
use crate::fault::FrameFault;
use crate::message::{BodyFault, Message};
use sporc_base::{Bytes, Memory};
use sporc_bytes::{Cursor, Out, Short};
use std::alloc::Global;

// The first byte of each body.
const HELLO: u8 = 1;

const SUBMIT: u8 = 2;

const PULL: u8 = 3;

/// A message to the server.
#[derive(Drop)]
pub enum ToServer {
    /// The first message: whose document it is, and which member speaks. It has no answer.
    Hello { document: [u8; 16], member: u16 },
    /// An entry for the order.
    Submit { entry: Bytes },
    /// Asks for the entries after the first `from`.
    Pull { from: u32 },
}

impl Message for ToServer {
    ghost of = { Rattle.sporc_wire.specs.ToServer.to_server_of };

    #[tactic(auto, unfolding(crate::specs::ToServer::to_server_of))]
    fn read(alloc: Global, body: &[u8]) -> Result<ToServer, BodyFault> {
        let mut cursor = Cursor::new(body);
        match cursor.u8()? {
            HELLO => Ok(read_hello(&mut cursor)?),
            SUBMIT => Ok(ToServer::Submit {
                entry: Bytes::copy_of(alloc, cursor.rest())?,
            }),
            PULL => Ok(read_pull(&mut cursor)?),
            _ => Err(BodyFault::Bad(0)),
        }
    }
}

// The rest of a Hello.
#[tactic(auto, unfolding(crate::specs::ToServer::hello_at))]
fn read_hello(cursor: &mut Cursor<'_>) -> Result<ToServer, Short>
    ensures { Reads (λ m. m) result (hello_at cursor.old) }
{
    let document = cursor.array()?;
    let member = cursor.u16()?;
    cursor.ended()?;
    Ok(ToServer::Hello { document, member })
}

// The rest of a Pull.
#[tactic(auto, unfolding(crate::specs::ToServer::pull_at))]
fn read_pull(cursor: &mut Cursor<'_>) -> Result<ToServer, Short>
    ensures { Reads (λ m. m) result (pull_at cursor.old) }
{
    let from = cursor.u32()?;
    cursor.ended()?;
    Ok(ToServer::Pull { from })
}

// How many bytes the body of a Submit has.
fn submit_len(entry: &[u8]) -> u64
    ensures { result ≡ counted_to_end (length (to_server_bytes (ToServer.Submit entry.now))) }
{
    (entry.len() as u64).saturating_add(1)
}

// Appends the body of a Submit.
fn put_submit(out: &mut Out, entry: &[u8]) -> Result<(), Memory>
    ensures { OnOk result (out.new ≡ out.old ++ to_server_bytes (ToServer.Submit entry.now)) }
{
    out.put_u8(SUBMIT)?;
    out.put_bytes(entry)
}

/// The frame of a Submit, into which the entry is copied. `TooLong` exactly if its body is above
/// the limit.
pub fn write_submit(alloc: Global, entry: &[u8]) -> Result<Vec<u8>, FrameFault>
    ensures value { GivesUnless FrameFault.Memory (λ v. v.items) result
        (framed (to_server_bytes (ToServer.Submit entry.now))) }
{
    let len = submit_len(entry);
    if len > u64::from(MAX_BODY) {
        return Err(FrameFault::TooLong(len));
    }
    let mut out = Out::with_capacity(alloc, len as usize + 4)?;
    out.put_u32(len as u32)?;
    put_submit(&mut out, entry)?;
    Ok(out.into_bytes())
}

// How many bytes the body of a message has.
fn body_len(message: &ToServer) -> u64
    ensures { result ≡ counted_to_end (length (to_server_bytes message.now)) }
{
    match message {
        ToServer::Hello { document, .. } => (document.as_slice().len() as u64).saturating_add(3),
        ToServer::Submit { entry } => submit_len(entry.as_slice()),
        ToServer::Pull { .. } => 5,
    }
}

// Appends the body of a message.
fn put_body(out: &mut Out, message: &ToServer) -> Result<(), Memory>
    ensures { OnOk result (out.new ≡ out.old ++ to_server_bytes message.now) }
{
    match message {
        ToServer::Hello { document, member } => {
            out.put_u8(HELLO)?;
            out.put_bytes(document)?;
            out.put_u16(*member)
        }
        ToServer::Submit { entry } => put_submit(out, entry.as_slice()),
        ToServer::Pull { from } => {
            out.put_u8(PULL)?;
            out.put_u32(*from)
        }
    }
}

/// The frame of a message. `TooLong` exactly if its body is above the limit.
pub fn write_to_server(alloc: Global, message: &ToServer) -> Result<Vec<u8>, FrameFault>
    ensures value { GivesUnless FrameFault.Memory (λ v. v.items) result
        (framed (to_server_bytes message.now)) }
{
    let len = body_len(message);
    if len > u64::from(MAX_BODY) {
        return Err(FrameFault::TooLong(len));
    }
    let mut out = Out::with_capacity(alloc, len as usize + 4)?;
    out.put_u32(len as u32)?;
    put_body(&mut out, message)?;
    Ok(out.into_bytes())
}
