//! Play scripts.

ghost use Rattle.std.specs.Prelude.{◌≡◌, ◌≤◌, ℕ, IfOk, OnOk, MatchOption, length, true};
ghost use Rattle.sporc_script.specs.declared.command.Command.{Command};
ghost use Rattle.sporc_script.specs.declared.limits.TheConstants.{MAX_SCRIPT_BYTES};
ghost use Rattle.sporc_script.specs.declared.lines.LineFault.TheVariants as faults;
ghost use Rattle.sporc_script.specs.Commands.{Spells};
ghost use Rattle.sporc_script.specs.Declarations.{may_follow};
ghost use Rattle.sporc_script.specs.Grammar.{IsPlayFault, IsPlayScript};
ghost use Rattle.sporc_script.specs.Reading.{IsBadLine, ReadsLine, declared_with};

use crate::command::Command;
use crate::commands::read_command;
use crate::declared::Declared;
use crate::lines::{LineFault, is_skipped, keep, next_line};
use crate::play_line::PlayLine;
use sporc_base::Memory;
use std::alloc::Global;
use std::marker::Model;

/// A play script, seen as the list of its lines that are not skipped.
#[derive(Drop)]
pub struct PlayScript {
    lines: Vec<PlayLine>,
}

impl Model for PlayScript {
    ghost use Rattle.std.specs.Prelude.{List};
    ghost use Rattle.sporc_script.specs.declared.play_line.PlayLine.{PlayLine};

    ghost Value = { List PlayLine };

    ghost view = { λ s. s.lines.items };
}

impl PlayScript {
    /// The lines that are not skipped, in order.
    pub fn lines(&self) -> &[PlayLine]
        ensures value { result.now ≡ self.now }
    {
        self.lines.as_slice()
    }
}

/// Reads a play script, up to its first line outside the grammar.
pub fn read_play(alloc: Global, text: &[u8]) -> Result<PlayScript, LineFault>
    requires limit { length text.now ≤ MAX_SCRIPT_BYTES }
    ensures ok { IfOk result (λ script. IsPlayScript text.now script) }
    ensures within { IfOk result (λ script. length script ≤ length text.now) }
    ensures err { (k : ℕ) → result ≡ Err (faults.Line k) → IsPlayFault text.now k }
{
    let mut lines = Vec::new(alloc);
    let mut rest = text;
    let mut number = 1;
    let mut declared = Declared::new(alloc);
    while !rest.is_empty() {
        let (line, after) = next_line(rest);
        let read = read_numbered(alloc, &declared, number, line)?;
        declare(&mut declared, &read)?;
        keep(&mut lines, read)?;
        rest = after;
        number += 1;
    }
    Ok(PlayScript { lines })
}

// A line as a part of the script; none, if it is skipped.
fn read_numbered(
    alloc: Global,
    declared: &Declared,
    number: u32,
    line: &[u8],
) -> Result<Option<PlayLine>, LineFault>
    ensures ok { IfOk result (λ found. ReadsLine declared.now number line.now found) }
    ensures err { (k : ℕ) → result ≡ Err (faults.Line k)
        → IsBadLine declared.now number line.now k }
{
    if is_skipped(line) {
        return Ok(None);
    }
    match next_command(alloc, declared, line)? {
        Some(command) => Ok(Some(PlayLine { number, command })),
        None => Err(LineFault::Line { line: number }),
    }
}

// The command of a line, if it may come next.
fn next_command(alloc: Global, declared: &Declared, line: &[u8]) -> Result<Option<Command>, Memory>
    ensures { IfOk result (λ found. MatchOption found
        ((c : Command) → Spells line.now c → may_follow declared.now c ≡ true → ⊥)
        (λ c. Spells line.now c × (may_follow declared.now c ≡ true))) }
{
    let Some(command) = read_command(alloc, line)? else {
        return Ok(None);
    };
    if declared.may_follow(&command) {
        return Ok(Some(command));
    }
    Ok(None)
}

// What a line declares, if it is not skipped.
fn declare(declared: &mut Declared, read: &Option<PlayLine>) -> Result<(), Memory>
    ensures { OnOk result (declared.new ≡ declared_with declared.old read.now) }
{
    match read {
        Some(line) => declared.declare(&line.command),
        None => Ok(()),
    }
}
