//! Words that are hexadecimal digits.

ghost use Rattle.std.specs.Prelude.{◌≡◌, IfOk};
ghost use Rattle.sporc_script.specs.Hex.{hex_of};

use hex::FromHexError;
use sporc_base::{Bytes, Memory, is_same};
use std::alloc::{AllocError, Global};

// The bytes that the whole word is in lower-case digits, at least one.
#[tactic(auto, unfolding(crate::specs::Hex::hex_of))]
pub fn parse_hex(alloc: Global, word: &[u8]) -> Result<Option<Bytes>, Memory>
    ensures ok { IfOk result (λ found. found ≡ hex_of word.now) }
{
    let bytes = match hex::decode(alloc, word) {
        Ok(bytes) => bytes,
        Err(FromHexError::OutOfMemory) => return Err(AllocError),
        Err(_) => return Ok(None),
    };
    let digits = hex::encode(alloc, bytes.as_slice())?;
    if !bytes.is_empty() && is_same(digits.as_str().as_bytes(), word) {
        return Ok(Some(Bytes::new(bytes)));
    }
    Ok(None)
}
