//! Lines that were written.

ghost use Rattle.std.specs.Prelude.{◌≡◌, ◌≤◌, [], ◌∷◌, IfOk, OnOk, OnErr};
ghost use Rattle.sporc_delta.specs.Marks.{base_len, keep_marks};
ghost use Rattle.sporc_delta.specs.declared.limits.TheConstants.{MAX_TEXT_LEN};
ghost use Rattle.sporc_screen.specs.Lines.{LeadTo, composed, len_before, with_line};

use crate::MAX_NAMED;
use sporc_base::Memory;
use sporc_delta::Delta;
use sporc_xform::compose;
use std::alloc::Global;

/// What a line begins with.
#[derive(Clone, Copy)]
pub struct Numbers {
    /// Its own number.
    pub line: u64,
    /// How many of the editor's edits were done or refused before it.
    pub own: u64,
}

/// A line that leads an editor to the text shown.
#[derive(Drop)]
pub struct Written {
    /// What it begins with.
    pub numbers: Numbers,
    /// What leads there from the text that the editor has, if it reads the line and has made no
    /// more edits than the line counts.
    pub delta: Delta,
}

impl Written {
    // A line of these numbers.
    pub(crate) fn new(line: u64, own: u64, delta: Delta) -> Written
        ensures numbers { result.numbers ≡ record { line = line; own = own } }
        ensures delta { result.delta ≡ delta }
    {
        Written {
            numbers: Numbers { line, own },
            delta,
        }
    }
}

// Keeps all of a text of `len` characters.
pub(crate) fn kept(alloc: Global, len: u64) -> Result<Delta, Memory>
    requires { len ≤ MAX_TEXT_LEN }
    ensures { IfOk result (λ d. d ≡ keep_marks len) }
{
    let mut delta = Delta::new(alloc);
    delta.push_keep(len)?;
    Ok(delta)
}

// The length of the text before these lines, which lead to a text of `len` characters.
pub(crate) fn len_before(lines: &[Delta], len: u64) -> u64
    requires { len ≤ MAX_TEXT_LEN }
    ensures value { result ≡ len_before lines.now len }
    ensures within { result ≤ MAX_TEXT_LEN }
{
    match lines.first() {
        Some(first) => first.base_len(),
        None => len,
    }
}

// The lines in one delta, which lead to a text of `len` characters.
pub(crate) fn composed(alloc: Global, lines: &[Delta], len: u64) -> Result<Delta, Memory>
    requires lead { LeadTo lines.now len }
    requires limit { len ≤ MAX_TEXT_LEN }
    ensures ok { IfOk result (λ d. d ≡ composed (len_before lines.now len) lines.now) }
{
    let mut all = kept(alloc, len_before(lines, len))?;
    for line in lines {
        all = compose(alloc, &all, line)?;
    }
    Ok(all)
}

// A line alone, in place of all before it.
pub(crate) fn put_alone(lines: &mut Vec<Delta>, line: Delta) -> Result<(), Memory>
    ensures ok { OnOk result (lines.new.items ≡ line ∷ []) }
    ensures memory { OnErr result (lines.new.items ≡ lines.old.items) }
{
    lines.reserve(1)?;
    lines.clear();
    lines.push_reserved(line);
    Ok(())
}

// A line more. If there are as many as may be named, the first two become one.
pub(crate) fn put_line(lines: &mut Vec<Delta>, line: Delta) -> Result<(), Memory>
    requires { LeadTo lines.old.items (base_len line) }
    ensures ok { OnOk result (lines.new.items ≡ with_line lines.old.items line) }
    ensures memory { OnErr result (lines.new.items ≡ lines.old.items) }
{
    if lines.len() < MAX_NAMED {
        lines.reserve(1)?;
        lines.push_reserved(line);
        return Ok(());
    }
    let joined = compose(*lines.allocator(), &lines[0], &lines[1])?;
    let _ = lines.remove(0);
    lines[0] = joined;
    lines.push_reserved(line);
    Ok(())
}
