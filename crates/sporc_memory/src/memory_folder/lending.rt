//! Files that a folder lends, or hands out to be appended to.

ghost use Rattle.std.specs.Prelude.{◌≡◌, ◌≢◌, ◌≤◌, ◌++◌, ◌∷◌, [], length, Some};
ghost use Rattle.std.specs.Prelude.{IfOk, IfErr, OnOk, OnErr};
ghost use Rattle.sporc_memory.specs.CallsModel.{CountsCall, calls_failing};
ghost use Rattle.sporc_outside.specs.Counts.{Rose};
ghost use Rattle.sporc_outside.specs.Files.{file_in, made_in};
ghost use Rattle.sporc_outside.specs.Files.{IsAppendFault, IsAppendedTo, IsDiskFault, IsDiskOf};
ghost use Rattle.sporc_memory.specs.MemoryFolderModel.{IsAbsence};
ghost use Rattle.sporc_memory.specs.MemoryAppendFile.{bytes_of as bytes_in, file_over};
ghost use Rattle.sporc_memory.specs.MemoryDisk.{disk_over};
ghost use Rattle.sporc_outside.specs.Told.{MayAppend};
ghost use Rattle.sporc_outside.specs.declared.file_fault.FileFault.TheVariants as faults;
ghost use Rattle.sporc_outside.specs.declared.file_fault.TheConstants.{MAX_FILE};

use crate::asked::{ask, push_name};
use crate::calls::Calls;
use crate::memory_append_file::MemoryAppendFile;
use crate::memory_disk::MemoryDisk;
use crate::memory_folder::{place_of, write};
use sporc_outside::{FileBytes, FileFault, MAX_FILE, NamedFile};
use std::alloc::{AllocError, Global};

// The bytes of the file that a call asks for.
pub(crate) fn look_up<'a>(
    alloc: Global,
    calls: &mut Calls,
    asked: &mut Vec<FileBytes>,
    files: &'a [NamedFile],
    name: &str,
) -> Result<&'a [u8], FileFault>
    ensures ok { IfOk result (λ bytes. IsDiskOf (Some files.now) name.now (Some bytes.now)) }
    ensures err { IfErr result
        (IsDiskFault (Some files.now) name.now calls.old.faults calls.new.faults) }
    ensures asked { OnOk result (asked.new.items ≡ asked.old.items ++ name.now ∷ []) }
    ensures answered { IfErr result (λ fault. fault ≢ faults.Failed
        → asked.new.items ≡ asked.old.items ++ name.now ∷ []) }
    ensures may_ask { MayAppend (Some asked.old.items) (Some asked.new.items) name.now }
    ensures kept { calls.old.faults ≤ calls.new.faults }
    ensures call { CountsCall calls.old calls.new result }
{
    ask(alloc, calls, asked, name)?;
    found(files, name.as_bytes())
}

// The bytes of the file with this name.
fn found<'a>(files: &'a [NamedFile], name: &[u8]) -> Result<&'a [u8], FileFault>
    ensures ok { IfOk result (λ bytes. file_in files.now name.now ≡ Some bytes.now) }
    ensures within { IfOk result (λ bytes. length bytes.now ≤ MAX_FILE) }
    ensures err { IfErr result (IsAbsence files.now name.now) }
{
    let Some(place) = place_of(files, name) else {
        return Err(FileFault::Missing);
    };
    let bytes = files[place].bytes.as_slice();
    let len = bytes.len() as u64;
    if len > MAX_FILE {
        return Err(FileFault::TooLong(len));
    }
    Ok(bytes)
}

// A disk over a copy of these bytes, with the name kept for its return. It fails where there is no
// memory.
pub(crate) fn lend(
    alloc: Global,
    calls: &mut Calls,
    lent: &mut Vec<FileBytes>,
    name: &[u8],
    bytes: &[u8],
    failing: &mut Vec<u64>,
) -> Result<MemoryDisk, FileFault>
    ensures ok { IfOk result (λ disk. disk ≡ disk_over bytes.now failing.old.items) }
    ensures taken { OnOk result (failing.new.items ≡ []) }
    ensures lent { OnOk result (lent.new.items ≡ lent.old.items ++ name.now ∷ []) }
    ensures lent_unchanged { OnErr result (lent.new.items ≡ lent.old.items) }
    ensures err { IfErr result
        (λ fault. (fault ≡ faults.Failed) × Rose calls.old.faults calls.new.faults) }
    ensures calls { calls.new ≡ record calls.old { faults = calls.new.faults } }
    ensures kept { calls.old.faults ≤ calls.new.faults }
{
    match open(alloc, lent, name, bytes, failing) {
        Ok(disk) => Ok(disk),
        Err(_) => Err(FileFault::from(calls.fail())),
    }
}

fn open(
    alloc: Global,
    lent: &mut Vec<FileBytes>,
    name: &[u8],
    bytes: &[u8],
    failing: &mut Vec<u64>,
) -> Result<MemoryDisk, AllocError>
    ensures ok { IfOk result (λ disk. disk ≡ disk_over bytes.now failing.old.items) }
    ensures taken { OnOk result (failing.new.items ≡ []) }
    ensures lent { OnOk result (lent.new.items ≡ lent.old.items ++ name.now ∷ []) }
    ensures lent_unchanged { OnErr result (lent.new.items ≡ lent.old.items) }
{
    let bytes = Vec::from_slice(alloc, bytes)?;
    let disk = MemoryDisk::new(alloc, bytes, next_calls(alloc, failing))?;
    push_name(alloc, lent, name)?;
    Ok(disk)
}

// No calls yet, of which these are to fail. Those of the object after this one do not.
fn next_calls(alloc: Global, failing: &mut Vec<u64>) -> Calls
    ensures value { result ≡ calls_failing failing.old.items }
    ensures taken { failing.new.items ≡ [] }
{
    Calls::failing(std::mem::replace(failing, Vec::new(alloc)))
}

// Hands out a file to be appended to, which is made if there is none.
pub(crate) fn appended(
    alloc: Global,
    calls: &mut Calls,
    files: &mut Vec<NamedFile>,
    name: &[u8],
    failing: &mut Vec<u64>,
) -> Result<MemoryAppendFile, FileFault>
    ensures ok { IfOk result
        (λ file. IsAppendedTo (Some files.old.items) name.now (Some (bytes_in file))) }
    ensures made { OnOk result (files.new.items ≡ made_in files.old.items name.now) }
    ensures file { IfOk result
        (λ file. file ≡ file_over name.now (bytes_in file) failing.old.items) }
    ensures taken { OnOk result (failing.new.items ≡ []) }
    ensures err { IfErr result
        (IsAppendFault (Some files.old.items) name.now calls.old.faults calls.new.faults) }
    ensures unchanged { OnErr result (files.new.items ≡ files.old.items) }
    ensures calls { calls.new ≡ record calls.old { faults = calls.new.faults } }
    ensures kept { calls.old.faults ≤ calls.new.faults }
{
    let place = place_of(files, name);
    let bytes = match place {
        Some(place) => files[place].bytes.as_slice(),
        None => &[],
    };
    let len = bytes.len() as u64;
    if len > MAX_FILE {
        return Err(FileFault::TooLong(len));
    }
    let Ok(file) = open_appended(alloc, name, bytes, failing) else {
        return Err(FileFault::from(calls.fail()));
    };
    if place.is_none() && write(alloc, files, name, &[]).is_err() {
        return Err(FileFault::from(calls.fail()));
    }
    Ok(file)
}

// A file of this name over a copy of these bytes.
fn open_appended(
    alloc: Global,
    name: &[u8],
    bytes: &[u8],
    failing: &mut Vec<u64>,
) -> Result<MemoryAppendFile, AllocError>
    ensures ok { IfOk result (λ file. file ≡ file_over name.now bytes.now failing.old.items) }
    ensures taken { OnOk result (failing.new.items ≡ []) }
{
    let bytes = Vec::from_slice(alloc, bytes)?;
    named_file(alloc, name, bytes, failing)
}

// A file of this name with these bytes.
fn named_file(
    alloc: Global,
    name: &[u8],
    bytes: Vec<u8>,
    failing: &mut Vec<u64>,
) -> Result<MemoryAppendFile, AllocError>
    ensures ok { IfOk result (λ file. file ≡ file_over name.now bytes.items failing.old.items) }
    ensures taken { OnOk result (failing.new.items ≡ []) }
{
    let name = FileBytes::new(Vec::from_slice(alloc, name)?);
    MemoryAppendFile::new(alloc, name, bytes, next_calls(alloc, failing))
}
