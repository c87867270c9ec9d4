//! Writing fields at the end of bytes.

ghost use Rattle.std.specs.Prelude.{◌≡◌, ◌<◌, ◌^◌, ◌++◌, ◌∷◌, [], length, IfOk, OnOk, OnErr};
ghost use Rattle.std.specs.Int.{w16, w32, w64, to_be_bytes};
ghost use Rattle.sporc_bytes.specs.Fields.{counted};

use sporc_base::Memory;
use std::alloc::{AllocError, Global};
use std::marker::Model;

/// Bytes that grow field by field, seen as the list of them.
#[derive(Drop)]
pub struct Out {
    bytes: Vec<u8>,
}

impl Model for Out {
    ghost use Rattle.std.specs.Prelude.{ℕ, List};

    ghost Value = { List ℕ };

    ghost view = { λ o. o.bytes.items };
}

impl Out {
    /// No bytes.
    pub fn new(alloc: Global) -> Out
        ensures value { result ≡ [] }
    {
        Out {
            bytes: Vec::new(alloc),
        }
    }

    /// No bytes, with the memory of so many.
    pub fn with_capacity(alloc: Global, len: usize) -> Result<Out, Memory>
        ensures ok { IfOk result (λ out. out ≡ []) }
    {
        let bytes = Vec::with_capacity(alloc, len)?;
        Ok(Out { bytes })
    }

    /// The bytes written.
    pub fn into_bytes(self) -> Vec<u8>
        ensures value { result.items ≡ self }
    {
        self.bytes
    }

    /// Appends bytes as they are.
    pub fn put_bytes(&mut self, bytes: &[u8]) -> Result<(), Memory>
        ensures ok { OnOk result (self.new ≡ self.old ++ bytes.now) }
        ensures memory { OnErr result (self.new ≡ self.old) }
    {
        self.bytes.extend_from_slice(bytes)
    }

    /// Appends one byte.
    pub fn put_u8(&mut self, v: u8) -> Result<(), Memory>
        ensures ok { OnOk result (self.new ≡ self.old ++ v ∷ []) }
        ensures memory { OnErr result (self.new ≡ self.old) }
    {
        self.put_bytes(&[v])
    }

    /// Appends the two bytes of a number.
    pub fn put_u16(&mut self, v: u16) -> Result<(), Memory>
        ensures ok { OnOk result (self.new ≡ self.old ++ to_be_bytes w16 v) }
        ensures memory { OnErr result (self.new ≡ self.old) }
    {
        self.put_bytes(v.to_be_bytes().as_slice())
    }

    /// Appends the four bytes of a number.
    pub fn put_u32(&mut self, v: u32) -> Result<(), Memory>
        ensures ok { OnOk result (self.new ≡ self.old ++ to_be_bytes w32 v) }
        ensures memory { OnErr result (self.new ≡ self.old) }
    {
        self.put_bytes(v.to_be_bytes().as_slice())
    }

    /// Appends the eight bytes of a number.
    pub fn put_u64(&mut self, v: u64) -> Result<(), Memory>
        ensures ok { OnOk result (self.new ≡ self.old ++ to_be_bytes w64 v) }
        ensures memory { OnErr result (self.new ≡ self.old) }
    {
        self.put_bytes(v.to_be_bytes().as_slice())
    }

    /// Appends a counted string: a `u32` length, and then the bytes.
    pub fn put_counted(&mut self, bytes: &[u8]) -> Result<(), Memory>
        requires { length bytes.now < 2 ^ 32 }
        ensures ok { OnOk result (self.new ≡ self.old ++ counted bytes.now) }
        ensures memory { OnErr result (self.new ≡ self.old) }
    {
        let before = self.bytes.len();
        self.put_u32(bytes.len() as u32)?;
        if self.put_bytes(bytes).is_err() {
            self.bytes.truncate(before);
            return Err(AllocError);
        }
        Ok(())
    }
}
