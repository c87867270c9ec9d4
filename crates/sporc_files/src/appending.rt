//! Files that are appended to, and disks of files.

ghost use Rattle.std.specs.Prelude.{◌≡◌, ◌≤◌, [], ◌∷◌, IfOk, IfErr, OnOk, OnErr, option_map};
ghost use Rattle.std.specs.Prelude.{string_bytes};
ghost use Rattle.sporc_outside.specs.Files.{ChangesFile, IsAppendedTo, IsDiskOf, made_in};
ghost use Rattle.sporc_outside.specs.Uses.{use_of};
ghost use Rattle.sporc_files.specs.Names.{file_name};
ghost use Rattle.sporc_files.specs.Reading.{IsAppendingFault, IsFileFault, any_bytes};
ghost use Rattle.sporc_files.specs.Uses.{AsksOnly};

use crate::fault::Fault;
use crate::file::File;
use crate::names::Names;
use crate::reading::fault_of_file;
use sporc_outside::Folder;
use std::alloc::Global;

/// A file of a command that is appended to, and its name.
#[derive(Drop)]
pub struct Appended<A> {
    pub file: A,
    pub name: String,
}

/// A file to be appended to, which is made if there is none.
#[tactic(auto, using(crate::proofs::Appendable::changes_none))]
pub fn append_to_file<F: Folder>(
    alloc: Global,
    files: &mut F,
    names: &Names<'_>,
    file: File,
) -> Result<Appended<F::Appended>, Fault>
    ensures ok { IfOk result (λ it. IsAppendedTo (F.told files.old).files (file_name names.now file)
        (F.Appended.told it.file).stored) }
    ensures made { OnOk result ((F.told files.new).files
        ≡ option_map (λ old. made_in old (file_name names.now file)) (F.told files.old).files) }
    ensures name { IfOk result (λ it. string_bytes it.name ≡ file_name names.now file) }
    ensures err { IfErr result
        (IsAppendingFault (use_of F.told files.old files.new) names.now file) }
    ensures left { OnErr result
        (ChangesFile (F.told files.old).files (F.told files.new).files (file_name names.now file)) }
    ensures lent { (F.told files.new).lent ≡ (F.told files.old).lent }
    ensures may_ask { AsksOnly (file_name names.now file ∷ []) (F.told files.old).asked
        (F.told files.new).asked }
    ensures kept { (F.told files.old).faults ≤ (F.told files.new).faults }
{
    let name = file.name(alloc, names)?;
    match files.append_to(name.as_str()) {
        Ok(file) => Ok(Appended { file, name }),
        Err(fault) => Err(fault_of_file(file, fault)),
    }
}

/// A disk over the bytes of a file, which is out until the folder takes it back.
pub fn lend_disk<F: Folder>(
    alloc: Global,
    files: &mut F,
    names: &Names<'_>,
    file: File,
) -> Result<F::Disk, Fault>
    ensures ok { IfOk result (λ disk. IsDiskOf (F.told files.old).files (file_name names.now file)
        (F.Disk.told disk).stored) }
    ensures fresh { IfOk result (λ disk. (F.Disk.told disk).faults ≡ 0) }
    ensures err { IfErr result
        (IsFileFault any_bytes (use_of F.told files.old files.new) names.now file) }
    ensures files { (F.told files.new).files ≡ (F.told files.old).files }
    ensures lent { OnOk result ((F.told files.new).lent
        ≡ option_map (λ lent. file_name names.now file ∷ lent) (F.told files.old).lent) }
    ensures lent_unchanged { OnErr result ((F.told files.new).lent ≡ (F.told files.old).lent) }
    ensures may_ask { AsksOnly (file_name names.now file ∷ []) (F.told files.old).asked
        (F.told files.new).asked }
    ensures kept { (F.told files.old).faults ≤ (F.told files.new).faults }
{
    let name = file.name(alloc, names)?;
    match files.leaf_disk(name.as_str()) {
        Ok(disk) => Ok(disk),
        Err(fault) => Err(fault_of_file(file, fault)),
    }
}
