//! `public NAME M`.

ghost use Rattle.std.specs.Prelude.{◌≡◌, ◌≤◌, [], ◌∷◌, IfOk, IfErr, string_bytes};
ghost use Rattle.sporc_outside.specs.Uses.{use_of};
ghost use Rattle.sporc_files.specs.declared.file.File.TheVariants as kinds;
ghost use Rattle.sporc_files.specs.Names.{file_name, names_of_document};
ghost use Rattle.sporc_files.specs.Reading.{IsFileFault, key_file};
ghost use Rattle.sporc_files.specs.Uses.{AsksOnly, OnlyReads};
ghost use Rattle.sporc_commands.specs.KeyShowing.{IsLineOf, PublicOutcome};

use crate::key_making::key_line;
use crate::printing::print;
use sporc_files::{Fault, Names, read_key_file};
use sporc_outside::{Folder, Sink};
use sporc_words::Public;
use std::alloc::Global;
use std::thread::Threads;

/// Prints the public key of a device's key file, as `keygen` did. The tree is built anew for that.
pub fn public<R: Threads + Sync, F: Folder, O: Sink>(
    rt: &R,
    alloc: Global,
    files: &mut F,
    out: &mut O,
    asked: &Public,
) -> Result<(), Fault>
    ensures outcome { PublicOutcome asked.now (use_of F.told files.old files.new)
        (use_of O.told out.old out.new) result }
    ensures may_ask { AsksOnly
        (file_name (names_of_document asked.now.name) (kinds.Key asked.now.device) ∷ [])
        (F.told files.old).asked (F.told files.new).asked }
    ensures files { (F.told files.new).files ≡ (F.told files.old).files }
    ensures lent { (F.told files.new).lent ≡ (F.told files.old).lent }
    ensures files_kept { (F.told files.old).faults ≤ (F.told files.new).faults }
    ensures out_kept { (O.told out.old).faults ≤ (O.told out.new).faults }
{
    let line = read_line(rt, alloc, files, asked)?;
    print(out, line.as_str())
}

// The line of a device's key file.
fn read_line<R: Threads + Sync, F: Folder>(
    rt: &R,
    alloc: Global,
    files: &mut F,
    asked: &Public,
) -> Result<String, Fault>
    ensures ok { IfOk result
        (λ line. IsLineOf asked.now (F.told files.old).files (string_bytes line)) }
    ensures err { IfErr result
        (IsFileFault (key_file asked.now.device) (use_of F.told files.old files.new)
        (names_of_document asked.now.name) (kinds.Key asked.now.device)) }
    ensures reads { OnlyReads (names_of_document asked.now.name)
        (kinds.Key asked.now.device ∷ []) (use_of F.told files.old files.new) }
{
    let names = Names::of_document(asked.name.as_str());
    let key = read_key_file(rt, alloc, files, &names, asked.device)?.public();
    let line = key_line(alloc, &key)?;
    Ok(line)
}
