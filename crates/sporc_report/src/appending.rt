//! Words and numbers that are appended to a text.

ghost use Rattle.std.specs.Prelude.{◌≡◌, ◌++◌, OnErr, OnOk, string_bytes};
ghost use Rattle.std.specs.Fmt.{decimal};
ghost use Rattle.sporc_base.specs.Lists.{StartsWith};
ghost use Rattle.sporc_member.specs.Role.{role_name};

use itoa::Buffer;
use sporc_base::Memory;
use sporc_member::{Role, role_name};

/// Appends a word.
pub fn push_word(out: &mut String, word: &str) -> Result<(), Memory>
    ensures ok { OnOk result (string_bytes out.new ≡ string_bytes out.old ++ word.now) }
    ensures memory { OnErr result (StartsWith (string_bytes out.new) (string_bytes out.old)) }
{
    out.push_str(word)
}

/// Appends a number in decimal.
pub fn push_decimal(out: &mut String, number: u64) -> Result<(), Memory>
    ensures ok { OnOk result (string_bytes out.new ≡ string_bytes out.old ++ decimal number) }
    ensures memory { OnErr result (StartsWith (string_bytes out.new) (string_bytes out.old)) }
{
    let mut digits = Buffer::new();
    out.push_str(digits.format(number))
}

/// Appends a word and a number behind it.
pub fn push_counted(out: &mut String, word: &str, number: u64) -> Result<(), Memory>
    ensures ok { OnOk result
        (string_bytes out.new ≡ string_bytes out.old ++ (word.now ++ decimal number)) }
    ensures memory { OnErr result (StartsWith (string_bytes out.new) (string_bytes out.old)) }
{
    push_word(out, word)?;
    push_decimal(out, number)
}

/// Appends a number with a word before it and one behind it.
pub fn push_between(out: &mut String, before: &str, number: u64, behind: &str) -> Result<(), Memory>
    ensures ok { OnOk result (string_bytes out.new
        ≡ string_bytes out.old ++ (before.now ++ (decimal number ++ behind.now))) }
    ensures memory { OnErr result (StartsWith (string_bytes out.new) (string_bytes out.old)) }
{
    push_counted(out, before, number)?;
    push_word(out, behind)
}

// Appends the word for a role.
pub fn push_role_name(out: &mut String, role: Role) -> Result<(), Memory>
    ensures ok { OnOk result (string_bytes out.new ≡ string_bytes out.old ++ role_name role) }
    ensures memory { OnErr result (StartsWith (string_bytes out.new) (string_bytes out.old)) }
{
    push_word(out, role_name(role))
}
