//! Texts in quotes.

ghost use Rattle.std.specs.Prelude.{◌≡◌, IfOk, false, option_map};
ghost use Rattle.sporc_script.specs.Unescape.{step_of, unescape};
ghost use Rattle.sporc_script.specs.Texts.{text_of};

use crate::words::{after, before};
use sporc_base::Memory;
use sporc_delta::Text;
use std::alloc::Global;

// What a byte of a quoted text does.
#[derive(Clone, Copy)]
pub enum Step {
    Refused,
    Backslash,
    Byte(u8),
}

fn step_at(escaped: bool, b: u8) -> Step
    ensures { result ≡ step_of escaped b }
{
    match (escaped, b) {
        (false, b'\\') => Step::Backslash,
        (false, b'"' | b'\n') => Step::Refused,
        (false, b) => Step::Byte(b),
        (true, b'n') => Step::Byte(b'\n'),
        (true, b'\\' | b'"') => Step::Byte(b),
        (true, _) => Step::Refused,
    }
}

// The bytes that stand escaped between two quotes.
fn unescaped(alloc: Global, body: &[u8]) -> Result<Option<Vec<u8>>, Memory>
    ensures { IfOk result (λ found. option_map (λ v. v.items) found ≡ unescape false body.now) }
{
    let mut text = Vec::new(alloc);
    let mut escaped = false;
    for b in body {
        match step_at(escaped, *b) {
            Step::Refused => return Ok(None),
            Step::Backslash => escaped = true,
            Step::Byte(b) => {
                text.push(b)?;
                escaped = false;
            }
        }
    }
    Ok(if escaped { None } else { Some(text) })
}

// The text that the whole word is in quotes.
pub fn parse_text(alloc: Global, word: &[u8]) -> Result<Option<Text>, Memory>
    ensures ok { IfOk result (λ found. found ≡ text_of word.now) }
{
    let Some(rest) = after(word, b"\"") else {
        return Ok(None);
    };
    let Some(body) = before(rest, b"\"") else {
        return Ok(None);
    };
    let Some(bytes) = unescaped(alloc, body)? else {
        return Ok(None);
    };
    match String::from_utf8(bytes) {
        Ok(text) => Ok(Some(Text::from_string(text))),
        Err(_) => Ok(None),
    }
}
