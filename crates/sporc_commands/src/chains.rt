//! The chains of saved histories.

ghost use Rattle.std.specs.Prelude.{◌≡◌, [], ◌∷◌, IfOk, map};
ghost use Rattle.sporc_outside.specs.Uses.{use_of};
ghost use Rattle.sporc_hash.specs.Chain.{chain};
ghost use Rattle.sporc_entry.specs.Genesis.{IsGenesis, genesis_bytes};
ghost use Rattle.sporc_files.specs.Names.{file_name};
ghost use Rattle.sporc_files.specs.Uses.{OnlyReads};
ghost use Rattle.sporc_files.specs.Contents.{AnswersOfFile};
ghost use Rattle.sporc_commands.specs.Comparing.{chain_in, values_of};

use crate::entries::read_entries;
use sporc_base::Memory;
use sporc_entry::{Genesis, write_genesis};
use sporc_files::{Fault, File, Names};
use sporc_hash::{Digest32, genesis_hash, next_hash};
use sporc_outside::Folder;
use std::alloc::Global;

// The chain of a document's saved history, unchecked.
pub(crate) fn read_chain<F: Folder>(
    alloc: Global,
    files: &mut F,
    names: &Names<'_>,
    file: File,
    genesis: &Genesis,
) -> Result<Vec<Digest32>, Fault>
    requires { IsGenesis genesis.now }
    ensures found { AnswersOfFile values_of (use_of F.told files.old files.new)
        (file_name names.now file) result (chain_in genesis.now file) }
    ensures reads { OnlyReads names.now (file ∷ []) (use_of F.told files.old files.new) }
{
    let entries = read_entries(alloc, files, names, file, &genesis.document)?;
    let chain = chain_of(alloc, genesis, entries.as_slice())?;
    Ok(chain)
}

// The chain of a history: its values after 0, 1, .. and all entries.
fn chain_of(alloc: Global, genesis: &Genesis, entries: &[Vec<u8>]) -> Result<Vec<Digest32>, Memory>
    requires { IsGenesis genesis.now }
    ensures { IfOk result (λ hashes. hashes.items
        ≡ chain (genesis_bytes genesis.now) (map (λ entry. entry.items) entries.now)) }
{
    let bytes = write_genesis(alloc, genesis)?;
    let mut hash = genesis_hash(bytes.as_slice());
    let mut hashes = vec![in alloc; hash]?;
    for entry in entries {
        hash = next_hash(&hash, entry.as_slice());
        hashes.push(hash)?;
    }
    Ok(hashes)
}
