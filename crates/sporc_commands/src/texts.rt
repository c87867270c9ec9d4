//! `text NAME M --at POS`.

ghost use Rattle.std.specs.Prelude.{◌≡◌, ◌≤◌, length, take, IfOk, string_bytes};
ghost use Rattle.std.specs.Str.{encode_utf8_all};
ghost use Rattle.sporc_outside.specs.Uses.{use_of};
ghost use Rattle.sporc_line.specs.Document.{text_of};
ghost use Rattle.sporc_line.specs.Good.{Good};
ghost use Rattle.sporc_files.specs.Names.{names_of_document};
ghost use Rattle.sporc_files.specs.Faults.{AnswersUnlessOutside};
ghost use Rattle.sporc_commands.specs.Checking.{checked_line};
ghost use Rattle.sporc_commands.specs.Telling.{text_at};
ghost use Rattle.sporc_commands.specs.Outcomes.{TextOutcome};

use crate::printing::print;
use crate::reading::read_line;
use sporc_base::Memory;
use sporc_files::{Fault, Names};
use sporc_line::Line;
use sporc_outside::{Folder, Gate, Sink};
use sporc_text::Doc;
use sporc_words::TextAt;
use std::alloc::Global;
use std::sync::Wait;
use std::thread::Threads;

/// `text NAME M --at POS` examines the saved history of a member's device as
/// [`check`](crate::check) does, all of it, and writes the committed text as UTF-8, after its first
/// `at` entries or after all, with nothing before or behind it. If it has fewer entries, the fault
/// is `Ahead` with their number.
pub fn text<R: Threads + Wait + Sync, F: Folder, O: Sink, G: Gate + Sync>(
    rt: &R,
    alloc: Global,
    files: &mut F,
    out: &mut O,
    asked: &TextAt,
    gate: &G,
) -> Result<(), Fault>
    ensures outcome { TextOutcome (names_of_document asked.now.name) asked.now.device asked.now.at
        (use_of F.told files.old files.new) (use_of O.told out.old out.new) result }
    ensures lent { (F.told files.new).lent ≡ (F.told files.old).lent }
    ensures files_kept { (F.told files.old).faults ≤ (F.told files.new).faults }
    ensures out_kept { (O.told out.old).faults ≤ (O.told out.new).faults }
{
    let names = Names::of_document(asked.name.as_str());
    let line = read_line(rt, alloc, files, &names, asked.device, gate)?;
    let text = text_at(alloc, &line, asked.at);
    drop(line);
    let text = text?;
    print(out, text.as_str())
}

// The text after the first so many entries, or after all.
fn text_at(alloc: Global, line: &Line, at: Option<u32>) -> Result<String, Fault>
    ensures value { AnswersUnlessOutside (λ text. string_bytes text) ⊥ result
        (text_at at (checked_line line.now)) }
{
    let Some(at) = at else {
        let text = line.text()?;
        return Ok(text);
    };
    let len = line.len();
    if len < at {
        return Err(Fault::Ahead(len));
    }
    let text = text_after_first(alloc, line, at)?;
    Ok(text)
}

// The text after the first so many entries: their forms, applied one after another from the empty
// text on.
fn text_after_first(alloc: Global, line: &Line, at: u32) -> Result<String, Memory>
    requires in_bounds { at ≤ length line.now.entries }
    requires good { Good line.now.genesis line.now.kit line.now.entries }
    ensures { IfOk result (λ text. string_bytes text
        ≡ encode_utf8_all (text_of line.now.genesis line.now.kit (take at line.now.entries))) }
{
    let mut text = Doc::new(alloc);
    'forms: for i in 0..at {
        text.apply(line.form(i + 1))?;
    }
    text.text()
}
