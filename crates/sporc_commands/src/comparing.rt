//! `compare NAME M N`.

ghost use Rattle.std.specs.Prelude.{◌≡◌, ◌≤◌, [], ◌∷◌, IfOk, string_bytes};
ghost use Rattle.sporc_outside.specs.Uses.{use_of};
ghost use Rattle.sporc_files.specs.Names.{names_of_document};
ghost use Rattle.sporc_files.specs.Uses.{OnlyReads};
ghost use Rattle.sporc_commands.specs.Comparing.{AreOfOneGenesis, FindsChains, IsVerdictLine};
ghost use Rattle.sporc_commands.specs.Outcomes.{CompareOutcome};

use crate::chains::read_chain;
use crate::printing::print;
use sporc_base::Memory;
use sporc_files::{Fault, File, Names, read_genesis_file};
use sporc_hash::{Digest32, compare as compare_chains};
use sporc_member::Device;
use sporc_outside::{Folder, Sink};
use sporc_report::push_verdict;
use sporc_words::Compare;
use std::alloc::Global;

/// `compare NAME M N` writes how the saved history of one device of a document stands to that of
/// another, each named as it is in words, `M` or `M.D`: `M N same`, `M N prefix`, `M N longer`, or
/// `M N forked after K`. The histories are read unchecked, and compared by their hashes.
pub fn compare<F: Folder, O: Sink>(
    alloc: Global,
    files: &mut F,
    out: &mut O,
    asked: &Compare,
) -> Result<(), Fault>
    ensures outcome { CompareOutcome
        (names_of_document asked.now.name) asked.now.first asked.now.second
        (use_of F.told files.old files.new) (use_of O.told out.old out.new) result }
    ensures lent { (F.told files.new).lent ≡ (F.told files.old).lent }
    ensures files_kept { (F.told files.old).faults ≤ (F.told files.new).faults }
    ensures out_kept { (O.told out.old).faults ≤ (O.told out.new).faults }
{
    let names = Names::of_document(asked.name.as_str());
    let chains = read_chains(alloc, files, &names, asked.first, asked.second)?;
    let line = verdict_line(
        alloc,
        asked.first,
        asked.second,
        chains.0.as_slice(),
        chains.1.as_slice(),
    )?;
    print(out, line.as_str())
}

// The chains of two saved histories of one document.
fn read_chains<F: Folder>(
    alloc: Global,
    files: &mut F,
    names: &Names<'_>,
    first: Device,
    second: Device,
) -> Result<(Vec<Digest32>, Vec<Digest32>), Fault>
    ensures found { FindsChains
        (use_of F.told files.old files.new) names.now first second result }
    ensures one_genesis { IfOk result (λ chains. AreOfOneGenesis chains.0.items chains.1.items) }
    ensures reads { OnlyReads names.now
        (File.Genesis ∷ File.History first ∷ File.History second ∷ [])
        (use_of F.told files.old files.new) }
{
    let genesis = read_genesis_file(alloc, files, names)?;
    let one = read_chain(alloc, files, names, File::History(first), &genesis)?;
    let other = read_chain(alloc, files, names, File::History(second), &genesis)?;
    Ok((one, other))
}

// The line that says how one chain stands to another.
fn verdict_line(
    alloc: Global,
    first: Device,
    second: Device,
    one: &[Digest32],
    other: &[Digest32],
) -> Result<String, Memory>
    requires { AreOfOneGenesis one.now other.now }
    ensures { IfOk result (λ line. IsVerdictLine first second
        (record { first = one.now; second = other.now }) (string_bytes line)) }
{
    let mut line = String::new(alloc);
    push_verdict(&mut line, first, second, compare_chains(one, other))?;
    Ok(line)
}
