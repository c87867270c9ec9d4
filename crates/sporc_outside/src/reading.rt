//! Reading to the end.

ghost use Rattle.std.specs.Prelude.{◌≡◌, ◌+◌, ◌^◌, ◌<◌, ◌≤◌, length, Err, IfOk};
ghost use Rattle.std.specs.Io.KnownBytes.{Consumes, IsAtEnd};
ghost use Rattle.sporc_outside.specs.Counts.{Rose};
ghost use Rattle.sporc_outside.specs.Reading.{ConsumesAtMost, ConsumesExactly};
ghost use Rattle.sporc_outside.specs.declared.reading.ReadFault.TheVariants as faults;

use crate::counted::Failed;
use crate::source::Source;
use std::alloc::{AllocError, Global};
use thiserror::Error;

/// Why a source was not read to its end.
#[derive(Clone, Copy, Debug, PartialEq, Eq, Error)]
pub enum ReadFault {
    #[error("out of memory")]
    Memory,
    #[error("the source failed")]
    Failed,
    #[error("the source is too long")]
    TooLong,
}

impl From<AllocError> for ReadFault {
    ghost from_gives = { λ _ fault. fault ≡ faults.Memory };

    fn from(_: AllocError) -> ReadFault {
        ReadFault::Memory
    }
}

impl From<Failed> for ReadFault {
    ghost from_gives = { λ _ fault. fault ≡ faults.Failed };

    fn from(_: Failed) -> ReadFault {
        ReadFault::Failed
    }
}

// The most bytes that one call asks for.
pub(crate) const PIECE: usize = 4096;

/// Reads a source to its end, where no more than `limit` bytes are left. Of a longer source it
/// takes one byte above the limit, and no more.
pub fn read_all<S: Source>(
    alloc: Global,
    source: &mut S,
    limit: usize,
) -> Result<Vec<u8>, ReadFault>
    requires { limit < 2 ^ 62 }
    ensures within { IfOk result (λ text. length text.items ≤ limit) }
    ensures all { IfOk result
        (λ text. Consumes (S.told source.old).left (S.told source.new).left text.items) }
    ensures end { IfOk result (λ _. IsAtEnd (S.told source.new).left) }
    ensures taken { ConsumesAtMost (limit + 1) (S.told source.old).left (S.told source.new).left }
    ensures failed { result ≡ Err ReadFault.Failed
        → Rose (S.told source.old).faults (S.told source.new).faults }
    ensures too_long { result ≡ Err ReadFault.TooLong
        → ConsumesExactly (limit + 1) (S.told source.old).left (S.told source.new).left }
    ensures kept { (S.told source.old).faults ≤ (S.told source.new).faults }
{
    let mut text = Vec::new(alloc);
    let mut buf = [0u8; PIECE];
    while text.len() <= limit {
        let room = (limit + 1 - text.len()).min(PIECE);
        let n = source.read(&mut buf[..room])?;
        if n == 0 {
            return Ok(text);
        }
        text.extend_from_slice(&buf[..n])?;
    }
    Err(ReadFault::TooLong)
}
