//! Texts in double quotes.

ghost use Rattle.std.specs.Prelude.{◌≡◌, ◌++◌, OnErr, OnOk, flat_map, string_bytes};
ghost use Rattle.std.specs.Str.{chars};
ghost use Rattle.sporc_base.specs.Lists.{StartsWith};
ghost use Rattle.sporc_script.specs.Quoted.{escape, quoted};

use crate::appending::push_word;
use sporc_base::Memory;

/// Appends a text in quotes, with its escapes.
pub fn push_quoted(out: &mut String, text: &str) -> Result<(), Memory>
    ensures ok { OnOk result
        (string_bytes out.new ≡ string_bytes out.old ++ quoted (chars text.now)) }
    ensures memory { OnErr result (StartsWith (string_bytes out.new) (string_bytes out.old)) }
{
    push_word(out, "\"")?;
    push_all_escaped(out, text)?;
    push_word(out, "\"")
}

fn push_all_escaped(out: &mut String, text: &str) -> Result<(), Memory>
    ensures ok { OnOk result
        (string_bytes out.new ≡ string_bytes out.old ++ flat_map escape (chars text.now)) }
    ensures memory { OnErr result (StartsWith (string_bytes out.new) (string_bytes out.old)) }
{
    for c in text.chars() {
        push_escaped(out, c)?;
    }
    Ok(())
}

fn push_escaped(out: &mut String, c: char) -> Result<(), Memory>
    ensures ok { OnOk result (string_bytes out.new ≡ string_bytes out.old ++ escape c) }
    ensures memory { OnErr result (StartsWith (string_bytes out.new) (string_bytes out.old)) }
{
    match c {
        '\\' => push_word(out, "\\\\"),
        '"' => push_word(out, "\\\""),
        '\n' => push_word(out, "\\n"),
        _ => out.push(c),
    }
}
