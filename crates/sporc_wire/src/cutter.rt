//! Cutting a stream of bytes into the bodies of its frames.

ghost use Rattle.std.specs.Prelude.{◌≡◌, ◌≤◌, ◌++◌, ℕ, length, take, [], None, Some, Err, IfOk};
ghost use Rattle.std.specs.Prelude.{OnOk, OnErr, MatchOption};
ghost use Rattle.std.specs.Int.{w32, from_be_bytes};
ghost use Rattle.sporc_base.specs.Bytes.{IsBytes};
ghost use Rattle.sporc_wire.specs.Stream.{first_frame, too_long};
ghost use Rattle.sporc_wire.specs.CutterModel.{CutsFirst, FitsLimit, IsOurs, filled, put_back};
ghost use Rattle.sporc_wire.specs.CutterModel.{rest_of, unread};

use bytes::BytesMut;
use sporc_base::Memory;
use std::alloc::Global;
use std::io;
use std::marker::Model;
use thiserror::Error;
use tokio_util::codec::{Decoder, LengthDelimitedCodec};

/// The largest body of a frame, in bytes.
pub const MAX_BODY: u32 = 4_194_304;

// Why no body is cut out.
#[derive(Debug, Drop, Error)]
pub(crate) enum CutFault {
    #[error("out of memory")]
    Memory,
    // A length above the limit.
    #[error("a body of {0} bytes is too long")]
    TooLong(u32),
}

// The bytes of a stream from the first frame on that was not handed out.
#[derive(Drop)]
pub(crate) struct Cutter {
    codec: LengthDelimitedCodec,
    buffer: BytesMut,
    body: Option<BytesMut>,
}

impl Model for Cutter {
    ghost use Rattle.std.specs.Prelude.{◌≡◌};
    ghost use Rattle.sporc_wire.specs.CutterModel.{CutterModel, IsOurs, rest_of, filled, FitsLimit};

    ghost Value = { CutterModel };

    ghost view = { λ c.
        record { body = filled c.body; rest = rest_of c.codec.state c.buffer.items } };

    ghost invariant = { λ c. IsOurs c.codec × FitsLimit c.body };
}

impl Cutter {
    // No bytes.
    pub(crate) fn new(alloc: Global) -> Cutter
        ensures body { result.body ≡ None }
        ensures rest { result.rest ≡ [] }
    {
        Cutter {
            codec: LengthDelimitedCodec::builder()
                .max_frame_length(MAX_BODY as usize)
                .new_codec(),
            buffer: BytesMut::new(alloc),
            body: None,
        }
    }

    // Appends a piece of the stream.
    pub(crate) fn feed(&mut self, piece: &[u8]) -> Result<(), Memory>
        ensures body { self.new.body ≡ self.old.body }
        ensures ok { OnOk result (self.new.rest ≡ self.old.rest ++ piece.now) }
        ensures memory { OnErr result (self.new.rest ≡ self.old.rest) }
    {
        self.buffer.extend_from_slice(piece)
    }

    // Cuts out the body of the first frame, if that is there in whole and isn't cut out yet.
    pub(crate) fn cut(&mut self) -> Result<(), CutFault>
        ensures unread { unread self.new ≡ unread self.old }
        ensures ok { OnOk result (CutsFirst (unread self.old) self.new.body self.new.rest) }
        ensures too_long { (len : ℕ) → result ≡ Err (CutFault.TooLong len)
            → first_frame (unread self.old) ≡ too_long len }
    {
        if self.body.is_none() {
            self.body = take_body(&mut self.codec, &mut self.buffer)?;
        }
        Ok(())
    }

    // The body that is cut out.
    pub(crate) fn body(&self) -> Option<&[u8]>
        ensures { MatchOption result (self.now.body ≡ None)
            (λ body. self.now.body ≡ Some body.now) }
    {
        match &self.body {
            Some(body) => Some(body.as_slice()),
            None => None,
        }
    }

    // Goes on behind the frame of the body that is cut out.
    pub(crate) fn go_on(&mut self)
        ensures body { self.new.body ≡ None }
        ensures rest { self.new.rest ≡ self.old.rest }
    {
        self.body = None;
    }
}

// The body of the first frame, if that is there in whole.
fn take_body(
    codec: &mut LengthDelimitedCodec,
    buffer: &mut BytesMut,
) -> Result<Option<BytesMut>, CutFault>
    requires { IsOurs codec.old }
    ensures ours { IsOurs codec.new }
    ensures fits { IfOk result FitsLimit }
    ensures unread { OnErr result
        (rest_of codec.new.state buffer.new.items ≡ rest_of codec.old.state buffer.old.items) }
    ensures same { IfOk result
        (λ found. put_back (filled found) (rest_of codec.new.state buffer.new.items)
        ≡ rest_of codec.old.state buffer.old.items) }
    ensures ok { IfOk result (λ found. CutsFirst (rest_of codec.old.state buffer.old.items)
        (filled found) (rest_of codec.new.state buffer.new.items)) }
    ensures too_long { (len : ℕ) → result ≡ Err (CutFault.TooLong len)
        → first_frame (rest_of codec.old.state buffer.old.items) ≡ too_long len }
{
    let _before = bytes_of(buffer);
    let found = codec.decode(buffer);
    let after = bytes_of(buffer);
    match found {
        Ok(found) => Ok(found),
        Err(e) => match e.kind() {
            // The refused length is still there.
            io::ErrorKind::InvalidData => Err(CutFault::TooLong(length_of(after))),
            io::ErrorKind::OutOfMemory => Err(CutFault::Memory),
            _ => unreachable!(),
        },
    }
}

// The bytes of a buffer: a slice's numbers are known to be bytes.
fn bytes_of(buffer: &BytesMut) -> &[u8]
    ensures same { result.now ≡ buffer.now.items }
    ensures fits { IsBytes buffer.now.items }
{
    let bytes = buffer.as_slice();
    bytes
}

// The number that the first four bytes spell.
fn length_of(head: &[u8]) -> u32
    requires { 4 ≤ length head.now }
    ensures { result ≡ from_be_bytes w32 (take 4 head.now) }
{
    u32::from_be_bytes([head[0], head[1], head[2], head[3]])
}
