//! Reading fields from the first byte on.

ghost use Rattle.std.specs.Prelude.{◌≡◌, ◌<◌, ◌≤◌, ◌^◌, ◌+◌, ◌++◌, ◌↔◌, IsTrue, [], length, Ok};
ghost use Rattle.std.specs.Prelude.{Err, IfOk, IfErr, OnErr};
ghost use Rattle.std.specs.Int.{w8, w16, w32, w64, to_be_bytes, from_be_bytes};
ghost use Rattle.sporc_bytes.specs.Fields.{Reads, number_at, number_within, bytes_at, counted_at};
ghost use Rattle.sporc_bytes.specs.Fields.{counted, end_at};

use std::marker::Model;
use thiserror::Error;

/// The field whose first byte stands at this place is cut short.
#[derive(Clone, Copy, Debug, PartialEq, Eq, Error)]
#[error("cut short at {0}")]
pub struct Short(pub usize);

/// Reads fields from the first byte on, and knows the place of the next byte.
#[derive(Drop)]
pub struct Cursor<'a> {
    rest: &'a [u8],
    at: usize,
}

impl<'a> Model for Cursor<'a> {
    ghost use Rattle.std.specs.Prelude.{◌<◌, ◌+◌, ◌^◌, length};
    ghost use Rattle.sporc_bytes.specs.Fields.{Reading};

    ghost Value = { Reading };

    ghost view = { λ c. record { rest = c.rest.now; at = c.at } };

    ghost invariant = { λ c. c.at + length c.rest.now < 2 ^ 64 };
}

impl<'a> Cursor<'a> {
    /// A cursor over bytes, the first of which has place 0.
    pub fn new(bytes: &'a [u8]) -> Cursor<'a>
        ensures rest { result.rest ≡ bytes.entry.now }
        ensures at { result.at ≡ 0 }
    {
        Cursor { rest: bytes, at: 0 }
    }

    /// A cursor over bytes that stand within others, the first of them at place `at`.
    pub fn within(bytes: &'a [u8], at: usize) -> Cursor<'a>
        requires { at + length bytes.now < 2 ^ 64 }
        ensures rest { result.rest ≡ bytes.entry.now }
        ensures at { result.at ≡ at }
    {
        Cursor { rest: bytes, at }
    }

    /// The place of the next byte.
    pub fn at(&self) -> usize
        ensures value { result ≡ self.now.at }
    {
        self.at
    }

    /// The bytes that are left.
    pub fn rest(&self) -> &'a [u8]
        ensures value { result.now ≡ self.now.rest }
    {
        self.rest
    }

    /// Whether nothing is left.
    pub fn end(&self) -> bool
        ensures value { IsTrue result ↔ (self.now.rest ≡ []) }
    {
        self.rest.is_empty()
    }

    /// Nothing is left, or the place of the first byte that is.
    pub fn ended(&self) -> Result<(), Short>
        ensures value { Reads (λ _. tt) result (end_at self.now) }
    {
        if self.end() {
            Ok(())
        } else {
            Err(Short(self.at()))
        }
    }

    /// The next `n` bytes. `Short` exactly if fewer are left.
    #[tactic(auto, unfolding(crate::specs::Fields::bytes_at))]
    pub fn take(&mut self, n: usize) -> Result<&'a [u8], Short>
        ensures ok { IfOk result (λ bytes. bytes_at n self.old ≡ Ok (bytes.now, self.new)) }
        ensures err { IfErr result (λ short. bytes_at n self.old ≡ Err short.0) }
        ensures spelled { IfOk result (λ bytes. self.old.rest ≡ bytes.now ++ self.new.rest) }
        ensures len { IfOk result (λ bytes. length bytes.now ≡ n) }
        ensures unchanged { OnErr result (self.new ≡ self.old) }
    {
        if self.rest.len() < n {
            return Err(Short(self.at));
        }
        let (bytes, rest) = self.rest.split_at(n);
        self.rest = rest;
        self.at += n;
        Ok(bytes)
    }

    /// The next byte. `Short` exactly if none is left.
    #[tactic(auto, unfolding(crate::specs::Fields::number_at))]
    pub fn u8(&mut self) -> Result<u8, Short>
        ensures ok { IfOk result (λ n. number_at w8 self.old ≡ Ok (n, self.new)) }
        ensures err { IfErr result (λ short. number_at w8 self.old ≡ Err short.0) }
        ensures spelled { IfOk result (λ n. self.old.rest ≡ to_be_bytes w8 n ++ self.new.rest) }
        ensures unchanged { OnErr result (self.new ≡ self.old) }
    {
        let bytes = self.array()?;
        Ok(u8::from_be_bytes(bytes))
    }

    /// The next byte. `Short` exactly if none is left or it isn't from `low` to `high`.
    #[tactic(auto, unfolding(crate::specs::Fields::number_within))]
    pub fn u8_within(&mut self, low: u8, high: u8) -> Result<u8, Short>
        ensures value { Reads (λ n. (n, self.new)) result (number_within low high w8 self.old) }
        ensures within { IfOk result (λ n. (low ≤ n) × (n ≤ high)) }
        ensures unchanged { OnErr result (self.new ≡ self.old) }
    {
        let mut ahead = Cursor {
            rest: self.rest,
            at: self.at,
        };
        let n = ahead.u8()?;
        if n < low || high < n {
            return Err(Short(self.at));
        }
        *self = ahead;
        Ok(n)
    }

    /// The next two bytes as a number. `Short` exactly if fewer are left.
    #[tactic(auto, unfolding(crate::specs::Fields::number_at))]
    pub fn u16(&mut self) -> Result<u16, Short>
        ensures ok { IfOk result (λ n. number_at w16 self.old ≡ Ok (n, self.new)) }
        ensures err { IfErr result (λ short. number_at w16 self.old ≡ Err short.0) }
        ensures spelled { IfOk result (λ n. self.old.rest ≡ to_be_bytes w16 n ++ self.new.rest) }
        ensures unchanged { OnErr result (self.new ≡ self.old) }
    {
        let bytes = self.array()?;
        Ok(u16::from_be_bytes(bytes))
    }

    /// The next two bytes as a number. `Short` exactly if fewer are left or the number isn't from
    /// `low` to `high`.
    #[tactic(auto, unfolding(crate::specs::Fields::number_within))]
    pub fn u16_within(&mut self, low: u32, high: u32) -> Result<u16, Short>
        ensures value { Reads (λ n. (n, self.new)) result (number_within low high w16 self.old) }
        ensures within { IfOk result (λ n. (low ≤ n) × (n ≤ high)) }
        ensures unchanged { OnErr result (self.new ≡ self.old) }
    {
        let mut ahead = Cursor {
            rest: self.rest,
            at: self.at,
        };
        let n = ahead.u16()?;
        if u32::from(n) < low || high < u32::from(n) {
            return Err(Short(self.at));
        }
        *self = ahead;
        Ok(n)
    }

    /// The next four bytes as a number. `Short` exactly if fewer are left.
    #[tactic(auto, unfolding(crate::specs::Fields::number_at))]
    pub fn u32(&mut self) -> Result<u32, Short>
        ensures ok { IfOk result (λ n. number_at w32 self.old ≡ Ok (n, self.new)) }
        ensures err { IfErr result (λ short. number_at w32 self.old ≡ Err short.0) }
        ensures spelled { IfOk result (λ n. self.old.rest ≡ to_be_bytes w32 n ++ self.new.rest) }
        ensures unchanged { OnErr result (self.new ≡ self.old) }
    {
        let bytes = self.array()?;
        Ok(u32::from_be_bytes(bytes))
    }

    /// The next eight bytes as a number. `Short` exactly if fewer are left.
    #[tactic(auto, unfolding(crate::specs::Fields::number_at))]
    pub fn u64(&mut self) -> Result<u64, Short>
        ensures ok { IfOk result (λ n. number_at w64 self.old ≡ Ok (n, self.new)) }
        ensures err { IfErr result (λ short. number_at w64 self.old ≡ Err short.0) }
        ensures spelled { IfOk result (λ n. self.old.rest ≡ to_be_bytes w64 n ++ self.new.rest) }
        ensures unchanged { OnErr result (self.new ≡ self.old) }
    {
        let bytes = self.take(8)?;
        Ok(number_of(bytes))
    }

    /// The next `N` bytes as an array. `Short` exactly if fewer are left.
    pub fn array<const N: usize>(&mut self) -> Result<[u8; N], Short>
        ensures ok { IfOk result (λ bytes. bytes_at N self.old ≡ Ok (bytes, self.new)) }
        ensures err { IfErr result (λ short. bytes_at N self.old ≡ Err short.0) }
        ensures spelled { IfOk result (λ bytes. self.old.rest ≡ bytes ++ self.new.rest) }
        ensures unchanged { OnErr result (self.new ≡ self.old) }
    {
        let bytes = self.take(N)?;
        Ok(<[u8; N]>::try_from(bytes).unwrap())
    }

    /// The next counted string, of at most `limit` bytes. Its length and its bytes are two fields:
    /// `Short` has the place of the length if that is cut short or above the limit, else the place
    /// of the bytes if they are cut short.
    #[tactic(auto, unfolding(crate::specs::Fields::counted_at))]
    pub fn counted(&mut self, limit: u32) -> Result<&'a [u8], Short>
        ensures ok { IfOk result (λ bytes. counted_at limit self.old ≡ Ok (bytes.now, self.new)) }
        ensures err { IfErr result (λ short. counted_at limit self.old ≡ Err short.0) }
        ensures spelled { IfOk result
            (λ bytes. self.old.rest ≡ counted bytes.now ++ self.new.rest) }
        ensures within { IfOk result (λ bytes. length bytes.now ≤ limit) }
        ensures unchanged { OnErr result (self.new ≡ self.old) }
    {
        let mut ahead = Cursor {
            rest: self.rest,
            at: self.at,
        };
        let len = ahead.u32()?;
        if len > limit {
            return Err(Short(self.at));
        }
        let bytes = ahead.take(len as usize)?;
        *self = ahead;
        Ok(bytes)
    }
}

// The number that eight bytes spell.
fn number_of(bytes: &[u8]) -> u64
    requires { length bytes.now ≡ 8 }
    ensures value { result ≡ from_be_bytes w64 bytes.now }
    ensures spelled { to_be_bytes w64 result ≡ bytes.now }
{
    u64::from_be_bytes([
        bytes[0], bytes[1], bytes[2], bytes[3], bytes[4], bytes[5], bytes[6], bytes[7],
    ])
}
