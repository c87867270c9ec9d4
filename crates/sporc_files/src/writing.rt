//! Files that are written.

ghost use Rattle.std.specs.Prelude.{◌≡◌, ◌≤◌, [], ◌∷◌, IfErr, OnOk};
ghost use Rattle.sporc_outside.specs.Files.{HasNoFile};
ghost use Rattle.sporc_outside.specs.Uses.{use_of};
ghost use Rattle.sporc_files.specs.Names.{file_name};
ghost use Rattle.sporc_files.specs.Uses.{AsksOnly};
ghost use Rattle.sporc_files.specs.Faults.{IsOutsideFault};
ghost use Rattle.sporc_files.specs.Writing.{IsNewFault, LeavesFile, Stores, file_with};

use crate::fault::Fault;
use crate::file::File;
use crate::names::Names;
use crate::reading::fault_of_file;
use sporc_outside::Folder;
use std::alloc::Global;

/// Writes a file, unless there is one with its name.
pub fn write_new_file<F: Folder>(
    alloc: Global,
    files: &mut F,
    names: &Names<'_>,
    file: File,
    bytes: &[u8],
) -> Result<(), Fault>
    ensures was_new { OnOk result (HasNoFile (F.told files.old).files (file_name names.now file)) }
    ensures ok { OnOk result (Stores (file_with names.now file bytes.now ∷ [])
        (F.told files.old).files (F.told files.new).files) }
    ensures err { IfErr result (IsNewFault (use_of F.told files.old files.new) names.now file) }
    ensures left { IfErr result
        (LeavesFile (file_name names.now file) (F.told files.old).files (F.told files.new).files) }
    ensures lent { (F.told files.new).lent ≡ (F.told files.old).lent }
    ensures may_ask { AsksOnly (file_name names.now file ∷ []) (F.told files.old).asked
        (F.told files.new).asked }
    ensures kept { (F.told files.old).faults ≤ (F.told files.new).faults }
{
    let name = file.name(alloc, names)?;
    match files.write_new(name.as_str(), bytes) {
        Ok(()) => Ok(()),
        Err(fault) => Err(fault_of_file(file, fault)),
    }
}

/// Writes a file, in place of the one with its name if there is one.
pub fn write_whole_file<F: Folder>(
    alloc: Global,
    files: &mut F,
    names: &Names<'_>,
    file: File,
    bytes: &[u8],
) -> Result<(), Fault>
    ensures ok { OnOk result (Stores (file_with names.now file bytes.now ∷ [])
        (F.told files.old).files (F.told files.new).files) }
    ensures err { IfErr result
        (IsOutsideFault (F.told files.old).faults (F.told files.new).faults) }
    ensures left { IfErr result
        (LeavesFile (file_name names.now file) (F.told files.old).files (F.told files.new).files) }
    ensures lent { (F.told files.new).lent ≡ (F.told files.old).lent }
    ensures may_ask { AsksOnly (file_name names.now file ∷ []) (F.told files.old).asked
        (F.told files.new).asked }
    ensures kept { (F.told files.old).faults ≤ (F.told files.new).faults }
{
    let name = file.name(alloc, names)?;
    files.write_file(name.as_str(), bytes)?;
    Ok(())
}
