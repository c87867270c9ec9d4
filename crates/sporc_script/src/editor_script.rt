//! Editor scripts.

ghost use Rattle.std.specs.Prelude.{◌≡◌, ◌≤◌, ℕ, IfOk, length};
ghost use Rattle.sporc_script.specs.declared.limits.TheConstants.{MAX_SCRIPT_BYTES};
ghost use Rattle.sporc_script.specs.declared.lines.LineFault.TheVariants as faults;
ghost use Rattle.sporc_script.specs.EditorLines.{AreShort};
ghost use Rattle.sporc_script.specs.Grammar.{IsEditorFault, IsEditorScript};
ghost use Rattle.sporc_script.specs.Reading.{IsBadEditorLine, ReadsEditorLine};

use crate::editor_commands::read_editor_command;
use crate::editor_line::EditorLine;
use crate::lines::{LineFault, is_skipped, keep, next_line};
use std::alloc::Global;
use std::marker::Model;

/// An editor script, seen as the list of its lines that are not skipped. None of them inserts more
/// bytes than a script has at most.
#[derive(Drop)]
pub struct EditorScript {
    lines: Vec<EditorLine>,
}

impl Model for EditorScript {
    ghost use Rattle.std.specs.Prelude.{List};
    ghost use Rattle.sporc_script.specs.declared.editor_line.EditorLine.{EditorLine};
    ghost use Rattle.sporc_script.specs.EditorLines.{AreShort};

    ghost Value = { List EditorLine };

    ghost view = { λ s. s.lines.items };

    ghost invariant = { λ s. AreShort s.lines.items };
}

impl EditorScript {
    /// The lines that are not skipped, in order.
    pub fn lines(&self) -> &[EditorLine]
        ensures value { result.now ≡ self.now }
        ensures within { AreShort result.now }
    {
        self.lines.as_slice()
    }
}

/// Reads an editor script, up to its first line outside the grammar.
pub fn read_editor(alloc: Global, text: &[u8]) -> Result<EditorScript, LineFault>
    requires limit { length text.now ≤ MAX_SCRIPT_BYTES }
    ensures ok { IfOk result (λ script. IsEditorScript text.now script) }
    ensures within { IfOk result (λ script. length script ≤ length text.now) }
    ensures err { (k : ℕ) → result ≡ Err (faults.Line k) → IsEditorFault text.now k }
{
    let mut lines = Vec::new(alloc);
    let mut rest = text;
    let mut number = 1;
    while !rest.is_empty() {
        let (line, after) = next_line(rest);
        let read = read_numbered(alloc, number, line)?;
        keep(&mut lines, read)?;
        rest = after;
        number += 1;
    }
    Ok(EditorScript { lines })
}

// A line as a part of the script; none, if it is skipped.
fn read_numbered(alloc: Global, number: u32, line: &[u8]) -> Result<Option<EditorLine>, LineFault>
    ensures ok { IfOk result (λ found. ReadsEditorLine number line.now found) }
    ensures err { (k : ℕ) → result ≡ Err (faults.Line k) → IsBadEditorLine number line.now k }
{
    if is_skipped(line) {
        return Ok(None);
    }
    match read_editor_command(alloc, line)? {
        Some(command) => Ok(Some(EditorLine { number, command })),
        None => Err(LineFault::Line { line: number }),
    }
}
