//! The entries of saved histories, read unchecked.

ghost use Rattle.std.specs.Prelude.{[], ◌∷◌};
ghost use Rattle.sporc_outside.specs.Uses.{use_of};
ghost use Rattle.sporc_store.specs.SavedFile.{saved_in};
ghost use Rattle.sporc_files.specs.Names.{file_name};
ghost use Rattle.sporc_files.specs.Uses.{OnlyReads};
ghost use Rattle.sporc_files.specs.Faults.{AnswersUnlessOutside, whole};
ghost use Rattle.sporc_files.specs.Contents.{AnswersOfFile, entries_in, entries_of};

use sporc_files::{Fault, File, Names, read_bytes, stopped};
use sporc_outside::Folder;
use sporc_store::read_saved;
use std::alloc::Global;

// The entries of a document's saved history, unchecked. A file that is not whole is malformed.
pub(crate) fn read_entries<F: Folder>(
    alloc: Global,
    files: &mut F,
    names: &Names<'_>,
    file: File,
    document: &[u8; 16],
) -> Result<Vec<Vec<u8>>, Fault>
    ensures found { AnswersOfFile entries_of (use_of F.told files.old files.new)
        (file_name names.now file) result (entries_in file document.now) }
    ensures reads { OnlyReads names.now (file ∷ []) (use_of F.told files.old files.new) }
{
    let bytes = read_bytes(alloc, files, names, file)?;
    whole_entries(alloc, file, document, bytes.as_slice())
}

// The entries of a saved history, unchecked, if it is whole.
pub(crate) fn whole_entries(
    alloc: Global,
    file: File,
    document: &[u8; 16],
    bytes: &[u8],
) -> Result<Vec<Vec<u8>>, Fault>
    ensures value { AnswersUnlessOutside entries_of ⊥ result
        (whole file (saved_in document.now bytes.now)) }
{
    let (entries, stop) = read_saved(alloc, document, bytes)?;
    stopped(file, stop)?;
    Ok(entries)
}
