//! The lines of a source, as they come.

ghost use Rattle.std.specs.Prelude.{◌≡◌, ◌≢◌, ◌^◌, ◌<◌, ◌≤◌, ◌++◌, [], ℕ, List, length, drop};
ghost use Rattle.std.specs.Prelude.{false, nat_lt, option_map, Err, IfErr, IfOk, IfSome, OnErr};
ghost use Rattle.std.specs.Prelude.{OnOk};
ghost use Rattle.std.specs.Io.KnownBytes.{Consumes, IsAtEnd, Keeps};
ghost use Rattle.sporc_outside.specs.Counts.{Rose};
ghost use Rattle.sporc_outside.specs.Lines.{HasLine, TakesLine, after_line, first_line};
ghost use Rattle.sporc_outside.specs.Lines.{line_len, line_of, unread_of};
ghost use Rattle.sporc_outside.specs.declared.lines.LineFault.TheVariants as faults;

use crate::counted::Failed;
use crate::reading::PIECE;
use crate::source::Source;
use std::alloc::{AllocError, Global};
use std::marker::Model;
use thiserror::Error;

/// Why no line is handed out.
#[derive(Clone, Copy, Debug, PartialEq, Eq, Error)]
pub enum LineFault {
    #[error("out of memory")]
    Memory,
    #[error("the source failed")]
    Failed,
    #[error("the line is too long")]
    TooLong,
}

impl From<AllocError> for LineFault {
    ghost from_gives = { λ _ fault. fault ≡ faults.Memory };

    fn from(_: AllocError) -> LineFault {
        LineFault::Memory
    }
}

impl From<Failed> for LineFault {
    ghost from_gives = { λ _ fault. fault ≡ faults.Failed };

    fn from(_: Failed) -> LineFault {
        LineFault::Failed
    }
}

/// The lines of a source, in order: the bytes before each LF, and at the end those after the last
/// LF, if there are any.
///
/// Contracts see the bytes that were taken off the source and not handed out, and the limit.
#[derive(Drop)]
pub struct Lines {
    bytes: Vec<u8>,
    // Where the bytes that are held begin.
    at: usize,
    // How many of these are known to be no LF, so that none is looked at twice.
    seen: usize,
    limit: usize,
}

impl Model for Lines {
    ghost use Rattle.std.specs.Prelude.{drop};
    ghost use Rattle.sporc_outside.specs.Lines.{LinesInvariant, LinesModel};

    ghost Value = { LinesModel };

    ghost view = { λ l. record { held = drop l.at l.bytes.items; limit = l.limit } };

    ghost invariant = { λ l. LinesInvariant l.bytes.items l.at l.seen l.limit };
}

impl Lines {
    /// No bytes are held yet. A line has at most `limit` bytes, without its LF.
    pub fn new(alloc: Global, limit: usize) -> Lines
        requires limit { limit < 2 ^ 62 }
        ensures value { result ≡ record { held = []; limit = limit } }
    {
        Lines {
            bytes: Vec::new(alloc),
            at: 0,
            seen: 0,
            limit,
        }
    }

    /// The next line, without its LF. None exactly if nothing is left: what stands behind the last
    /// LF is a line too. The source is read only while no whole line is held, so a line is
    /// handed out as soon as its LF has come.
    ///
    /// After an error nothing that came is lost: the next call begins at the same line. One that is
    /// too long stays so.
    pub fn next_line<S: Source>(&mut self, source: &mut S) -> Result<Option<Vec<u8>>, LineFault>
        ensures value { IfOk result (λ found. TakesLine
            (unread_of self.old (S.told source.old).left)
            (unread_of self.new (S.told source.new).left)
            (option_map (λ line. line.items) found)) }
        ensures within { IfOk result
            (λ found. IfSome found (λ line. length line.items ≤ self.old.limit)) }
        ensures held { HasLine self.old.held → source.new ≡ source.old }
        ensures too_long { result ≡ Err LineFault.TooLong
            → self.new.limit < line_len self.new.held }
        ensures failed { result ≡ Err LineFault.Failed
            → Rose (S.told source.old).faults (S.told source.new).faults }
        ensures unchanged { OnErr result (Keeps (unread_of self.old (S.told source.old).left)
            (unread_of self.new (S.told source.new).left)) }
        ensures limit { self.new.limit ≡ self.old.limit }
        ensures kept { (S.told source.old).faults ≤ (S.told source.new).faults }
    {
        while !self.look()? {
            if !self.read_piece(source)? {
                return self.take_last();
            }
        }
        Ok(Some(self.take_line()?))
    }

    // Whether a whole line is held.
    fn look(&mut self) -> Result<bool, LineFault>
        ensures ok { IfOk result
            (λ is_there. is_there ≡ nat_lt (line_len self.old.held) (length self.old.held)) }
        ensures within { IfOk result (λ _. line_len self.old.held ≤ self.old.limit) }
        ensures err { IfErr result (λ fault. fault ≡ LineFault.TooLong) }
        ensures too_long { OnErr result (self.old.limit < line_len self.old.held) }
        ensures unchanged { self.new ≡ self.old }
    {
        let held = &self.bytes[self.at..];
        let count = held.len();
        let len = line_len(held, self.seen);
        self.seen = len;
        if len > self.limit {
            return Err(LineFault::TooLong);
        }
        Ok(len < count)
    }

    // Takes a piece off the source, and says whether anything came.
    fn read_piece<S: Source>(&mut self, source: &mut S) -> Result<bool, LineFault>
        ensures unread { Keeps (unread_of self.old (S.told source.old).left)
            (unread_of self.new (S.told source.new).left) }
        ensures grows { IfOk result
            (λ came. came ≡ nat_lt (length self.old.held) (length self.new.held)) }
        ensures end { IfOk result (λ came. came ≡ false
            → (self.new.held ≡ self.old.held) × IsAtEnd (S.told source.new).left) }
        ensures failed { result ≡ Err LineFault.Failed
            → Rose (S.told source.old).faults (S.told source.new).faults }
        ensures named { result ≢ Err LineFault.TooLong }
        ensures limit { self.new.limit ≡ self.old.limit }
        ensures kept { (S.told source.old).faults ≤ (S.told source.new).faults }
    {
        drop_front(&mut self.bytes, self.at);
        self.at = 0;
        let n = append_piece(source, &mut self.bytes)?;
        Ok(n > 0)
    }

    // Hands out the line that is held, of which the end may have no LF.
    fn take_line(&mut self) -> Result<Vec<u8>, LineFault>
        ensures ok { IfOk result (λ line. line.items ≡ first_line self.old.held) }
        ensures held { OnOk result (self.new.held ≡ after_line self.old.held) }
        ensures err { IfErr result (λ fault. fault ≡ LineFault.Memory) }
        ensures unchanged { OnErr result (self.new ≡ self.old) }
        ensures limit { self.new.limit ≡ self.old.limit }
    {
        let held = &self.bytes[self.at..];
        let count = held.len();
        let len = line_len(held, self.seen);
        let line = Vec::from_slice(*self.bytes.allocator(), &held[..len])?;
        self.at += count.min(len + 1);
        self.seen = 0;
        Ok(line)
    }

    // Hands out what is held at the end of the source, if that is anything.
    fn take_last(&mut self) -> Result<Option<Vec<u8>>, LineFault>
        ensures ok { IfOk result
            (λ found. option_map (λ line. line.items) found ≡ line_of self.old.held) }
        ensures held { OnOk result (self.new.held ≡ after_line self.old.held) }
        ensures err { IfErr result (λ fault. fault ≡ LineFault.Memory) }
        ensures unchanged { OnErr result (self.new ≡ self.old) }
        ensures limit { self.new.limit ≡ self.old.limit }
    {
        if self.at == self.bytes.len() {
            return Ok(None);
        }
        Ok(Some(self.take_line()?))
    }
}

// How many bytes stand before the first LF, of which so many are known to.
fn line_len(bytes: &[u8], seen: usize) -> usize
    requires { seen ≤ line_len bytes.now }
    ensures { result ≡ line_len bytes.now }
{
    let mut len = seen;
    while len < bytes.len() && bytes[len] != b'\n' {
        len += 1;
    }
    len
}

// Takes so many bytes away at the front.
fn drop_front(bytes: &mut Vec<u8>, n: usize)
    requires { n ≤ length bytes.old.items }
    ensures { bytes.new.items ≡ drop n bytes.old.items }
{
    if n == 0 {
        return;
    }
    bytes.rotate_left(n);
    bytes.truncate(bytes.len() - n);
}

// Appends what a source gives, and says how much that is. The memory is taken before it is asked.
fn append_piece<S: Source>(source: &mut S, bytes: &mut Vec<u8>) -> Result<usize, LineFault>
    ensures ok { IfOk result (λ n. (piece : List ℕ) × (bytes.new.items ≡ bytes.old.items ++ piece)
        × (length piece ≡ n) × Consumes (S.told source.old).left (S.told source.new).left piece) }
    ensures end { IfOk result (λ n. n ≡ 0 → IsAtEnd (S.told source.new).left) }
    ensures unchanged { OnErr result (bytes.new.items ≡ bytes.old.items) }
    ensures left { OnErr result (Keeps (S.told source.old).left (S.told source.new).left) }
    ensures failed { result ≡ Err LineFault.Failed
        → Rose (S.told source.old).faults (S.told source.new).faults }
    ensures named { result ≢ Err LineFault.TooLong }
    ensures kept { (S.told source.old).faults ≤ (S.told source.new).faults }
{
    bytes.reserve(PIECE)?;
    let mut piece = [0u8; PIECE];
    let n = source.read(&mut piece)?;
    match bytes.extend_from_slice(&piece[..n]) {
        Ok(()) => Ok(n),
        Err(_) => unreachable!(),
    }
}
