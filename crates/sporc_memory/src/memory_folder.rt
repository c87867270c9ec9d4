//! Folders in memory.

ghost use Rattle.std.specs.Prelude.{◌≡◌, ◌≤◌, ◌⊎◌, ◌++◌, ◌∷◌, [], false, length, Some, None};
ghost use Rattle.std.specs.Prelude.{IsSome, IfOk, IfErr, IfSome, IfNone, OnOk, OnErr};
ghost use Rattle.std.specs.List.{All};
ghost use Rattle.std.specs.Str.{bytes_eq};
ghost use Rattle.sporc_memory.specs.CallsModel.{CountsCall};
ghost use Rattle.sporc_outside.specs.Counts.{CountsFaults, count_of_both};
ghost use Rattle.sporc_outside.specs.Files.{file_in, made_in, with_bytes, with_file, without_file};
ghost use Rattle.sporc_outside.specs.Files.{ChangesFile, HasNoFile, IsAppendFault, IsAppendedTo};
ghost use Rattle.sporc_outside.specs.Files.{IsDiskFault, IsDiskOf, IsNewFault, IsReadFault};
ghost use Rattle.sporc_outside.specs.Files.{RemovesFile, TakesFile};
ghost use Rattle.sporc_memory.specs.MemoryFolderModel.{IsPlaceOf, folder_of, folder_told};
ghost use Rattle.sporc_outside.specs.Folders.{Asks};
ghost use Rattle.sporc_memory.specs.MemoryAppendFile.{bytes_of as bytes_in};
ghost use Rattle.sporc_outside.specs.Told.{MayAppend};
ghost use Rattle.sporc_outside.specs.Uses.{use_of};
ghost use Rattle.sporc_outside.specs.declared.file_fault.FileFault.TheVariants as faults;
ghost use Rattle.sporc_outside.specs.declared.file_fault.TheConstants.{MAX_FILE};

mod lending;

use crate::asked::ask;
use crate::calls::Calls;
use crate::memory_append_file::MemoryAppendFile;
use crate::memory_disk::MemoryDisk;
use lending::{appended, lend, look_up};
use sporc_outside::{Counted, Failed, FileBytes, FileFault, Folder, NamedFile};
use std::alloc::{AllocError, Global};
use std::marker::Model;

/// A folder that keeps its files and tells them. A call that finds no memory fails, and so do the
/// listed calls.
#[derive(Drop)]
pub struct MemoryFolder {
    alloc: Global,
    files: Vec<NamedFile>,
    asked: Vec<FileBytes>,
    lent: Vec<FileBytes>,
    calls: Calls,
    disk_calls: Vec<u64>,
    append_calls: Vec<u64>,
}

impl Model for MemoryFolder {
    ghost use Rattle.std.specs.Prelude.{reverse};
    ghost use Rattle.sporc_memory.specs.MemoryFolderModel.{MemoryFolderModel, HasEach};

    ghost Value = { MemoryFolderModel };

    ghost view = { λ f. record {
      files = f.files.items;
      asked = f.asked.items;
      lent = reverse f.lent.items;
      calls = f.calls;
      disk_calls = f.disk_calls.items;
      append_calls = f.append_calls.items;
    } };

    ghost invariant = { λ f. HasEach f.files.items f.lent.items };
}

impl MemoryFolder {
    /// Holds these files. The listed calls fail.
    pub fn new(alloc: Global, files: Vec<NamedFile>, calls: Calls) -> MemoryFolder
        ensures value { result ≡ folder_of files.items calls }
    {
        MemoryFolder {
            alloc,
            files,
            asked: Vec::new(alloc),
            lent: Vec::new(alloc),
            calls,
            disk_calls: Vec::new(alloc),
            append_calls: Vec::new(alloc),
        }
    }

    /// Of the next disk that is handed out, the calls with these numbers fail.
    pub fn fail_disk_calls(&mut self, failing: Vec<u64>)
        ensures value { self.new ≡ record self.old { disk_calls = failing.items } }
    {
        self.disk_calls = failing;
    }

    /// Of the next file that is handed out to be appended to, the calls with these numbers fail.
    pub fn fail_append_calls(&mut self, failing: Vec<u64>)
        ensures value { self.new ≡ record self.old { append_calls = failing.items } }
    {
        self.append_calls = failing;
    }

    /// The files.
    pub fn files(&self) -> &[NamedFile]
        ensures value { result.now ≡ self.now.files }
    {
        self.files.as_slice()
    }

    /// The names asked for.
    pub fn asked(&self) -> &[FileBytes]
        ensures value { result.now ≡ self.now.asked }
    {
        self.asked.as_slice()
    }
}

impl Counted for MemoryFolder {
    ghost faults = { λ f. f.calls.faults };

    fn faults(&self) -> u64 {
        self.calls.faults()
    }
}

impl Folder for MemoryFolder {
    type Disk = MemoryDisk;

    type Appended = MemoryAppendFile;

    ghost use Rattle.std.specs.Prelude.{Some, refl};
    ghost use Rattle.sporc_memory.specs.MemoryDisk.{bytes_of};

    ghost told = { folder_told };

    ghost faults_are_told = { λ _. refl };

    fn read_file(&mut self, alloc: Global, name: &str) -> Result<Vec<u8>, FileFault>
        ensures ok { IfOk result (λ bytes. file_in self.old.files name.now ≡ Some bytes.items) }
        ensures within { IfOk result (λ bytes. length bytes.items ≤ MAX_FILE) }
        ensures err { IfErr result (IsReadFault
            (Some self.old.files) name.now self.old.calls.faults self.new.calls.faults) }
        ensures files { Some self.new.files ≡ Some self.old.files }
        ensures lent { Some self.new.lent ≡ Some self.old.lent }
        ensures asks { Asks (use_of folder_told self.old self.new) name.now result }
        ensures call { CountsCall self.old.calls self.new.calls result }
    {
        let bytes = look_up(
            self.alloc,
            &mut self.calls,
            &mut self.asked,
            &self.files,
            name,
        )?;
        Ok(Vec::from_slice(alloc, bytes)?)
    }

    fn write_file(&mut self, name: &str, bytes: &[u8]) -> Result<(), Failed>
        ensures ok { OnOk result
            (Some self.new.files ≡ Some (with_file self.old.files name.now bytes.now)) }
        ensures changes { OnErr result
            (ChangesFile (Some self.old.files) (Some self.new.files) name.now) }
        ensures lent { Some self.new.lent ≡ Some self.old.lent }
        ensures asked { OnOk result (self.new.asked ≡ self.old.asked ++ name.now ∷ []) }
        ensures may_ask { MayAppend (Some self.old.asked) (Some self.new.asked) name.now }
        ensures count { CountsFaults self.old.calls.faults self.new.calls.faults result }
        ensures call { CountsCall self.old.calls self.new.calls result }
    {
        ask(self.alloc, &mut self.calls, &mut self.asked, name)?;
        write_file(
            self.alloc,
            &mut self.calls,
            &mut self.files,
            name.as_bytes(),
            bytes,
        )
    }

    fn write_new(&mut self, name: &str, bytes: &[u8]) -> Result<(), FileFault>
        ensures was_new { OnOk result (HasNoFile (Some self.old.files) name.now) }
        ensures ok { OnOk result
            (Some self.new.files ≡ Some (with_file self.old.files name.now bytes.now)) }
        ensures err { IfErr result (IsNewFault
            (Some self.old.files) name.now self.old.calls.faults self.new.calls.faults) }
        ensures changes { OnErr result
            (ChangesFile (Some self.old.files) (Some self.new.files) name.now) }
        ensures exists { result ≡ Err faults.Exists → Some self.new.files ≡ Some self.old.files }
        ensures lent { Some self.new.lent ≡ Some self.old.lent }
        ensures asks { Asks (use_of folder_told self.old self.new) name.now result }
        ensures call { CountsCall self.old.calls self.new.calls result }
    {
        ask(self.alloc, &mut self.calls, &mut self.asked, name)?;
        write_new(
            self.alloc,
            &mut self.calls,
            &mut self.files,
            name.as_bytes(),
            bytes,
        )
    }

    fn leaf_disk(&mut self, name: &str) -> Result<MemoryDisk, FileFault>
        ensures ok { IfOk result
            (λ disk. IsDiskOf (Some self.old.files) name.now (Some (bytes_of disk))) }
        ensures fresh { IfOk result (λ disk. disk.calls.faults ≡ 0) }
        ensures err { IfErr result (IsDiskFault
            (Some self.old.files) name.now self.old.calls.faults self.new.calls.faults) }
        ensures files { Some self.new.files ≡ Some self.old.files }
        ensures lent { OnOk result (Some self.new.lent ≡ Some (name.now ∷ self.old.lent)) }
        ensures lent_unchanged { OnErr result (Some self.new.lent ≡ Some self.old.lent) }
        ensures asks { Asks (use_of folder_told self.old self.new) name.now result }
        ensures call { CountsCall self.old.calls self.new.calls result }
        ensures failing { IfOk result (λ disk. disk.calls.failing ≡ self.old.disk_calls) }
        ensures taken { OnOk result (self.new.disk_calls ≡ []) }
    {
        let bytes = look_up(
            self.alloc,
            &mut self.calls,
            &mut self.asked,
            &self.files,
            name,
        )?;
        lend(
            self.alloc,
            &mut self.calls,
            &mut self.lent,
            name.as_bytes(),
            bytes,
            &mut self.disk_calls,
        )
    }

    fn take_back(&mut self, disk: MemoryDisk) {
        self.calls.add_faults(disk.faults());
        if let Some(name) = self.lent.pop() {
            put(&mut self.files, name.as_slice(), disk.into_bytes());
        }
    }

    fn append_to(&mut self, name: &str) -> Result<MemoryAppendFile, FileFault>
        ensures ok { IfOk result
            (λ file. IsAppendedTo (Some self.old.files) name.now (Some (bytes_in file))) }
        ensures made { OnOk result (Some self.new.files ≡ Some (made_in self.old.files name.now)) }
        ensures name { IfOk result (λ file. file.name ≡ name.now) }
        ensures fresh { IfOk result (λ file. file.calls.faults ≡ 0) }
        ensures err { IfErr result (IsAppendFault
            (Some self.old.files) name.now self.old.calls.faults self.new.calls.faults) }
        ensures changes { OnErr result
            (ChangesFile (Some self.old.files) (Some self.new.files) name.now) }
        ensures lent { Some self.new.lent ≡ Some self.old.lent }
        ensures asks { Asks (use_of folder_told self.old self.new) name.now result }
        ensures call { CountsCall self.old.calls self.new.calls result }
        ensures failing { IfOk result (λ file. file.calls.failing ≡ self.old.append_calls) }
        ensures taken { OnOk result (self.new.append_calls ≡ []) }
    {
        ask(self.alloc, &mut self.calls, &mut self.asked, name)?;
        appended(
            self.alloc,
            &mut self.calls,
            &mut self.files,
            name.as_bytes(),
            &mut self.append_calls,
        )
    }

    fn take_file(&mut self, name: &str, file: MemoryAppendFile)
        ensures back { TakesFile name.now (Some (bytes_in file)) (Some self.old.files)
            (Some self.new.files) }
        ensures lent { Some self.new.lent ≡ Some self.old.lent }
        ensures asked { Some self.new.asked ≡ Some self.old.asked }
        ensures kept { count_of_both self.old.calls.faults file.calls.faults
            ≤ self.new.calls.faults }
    {
        self.calls.add_faults(file.faults());
        let (_, bytes) = file.into_parts();
        put_if_there(&mut self.files, name.as_bytes(), bytes);
    }

    fn remove(&mut self, name: &str, file: MemoryAppendFile) -> Result<(), Failed>
        ensures gone { OnOk result
            (RemovesFile name.now (Some self.old.files) (Some self.new.files)) }
        ensures err { OnErr result
            (RemovesFile name.now (Some self.old.files) (Some self.new.files) ⊎ TakesFile name.now
            (Some (bytes_in file)) (Some self.old.files) (Some self.new.files)) }
        ensures lent { Some self.new.lent ≡ Some self.old.lent }
        ensures asked { Some self.new.asked ≡ Some self.old.asked }
        ensures count { CountsFaults
            (count_of_both self.old.calls.faults file.calls.faults) self.new.calls.faults result }
        ensures call { CountsCall self.old.calls self.new.calls result }
    {
        self.calls.add_faults(file.faults());
        let (_, bytes) = file.into_parts();
        remove_named(
            &mut self.calls,
            &mut self.files,
            &self.lent,
            name.as_bytes(),
            bytes,
        )
    }
}

// Whether a file has this name.
fn is_named(file: &NamedFile, name: &[u8]) -> bool
    ensures { result ≡ bytes_eq file.now.name name.now }
{
    is_name(&file.name, name)
}

// Whether these bytes are the name.
fn is_name(bytes: &FileBytes, name: &[u8]) -> bool
    ensures { result ≡ bytes_eq bytes.now name.now }
{
    bytes.as_slice() == name
}

// Where the file with this name stands.
pub(crate) fn place_of(files: &[NamedFile], name: &[u8]) -> Option<usize>
    ensures found { IfSome result (IsPlaceOf files.now name.now) }
    ensures none { IfNone result (file_in files.now name.now ≡ None) }
{
    for (i, file) in files.iter().enumerate() {
        if is_named(file, name) {
            return Some(i);
        }
    }
    None
}

// Puts these bytes in the file with this name, which there is.
fn put(files: &mut Vec<NamedFile>, name: &[u8], bytes: Vec<u8>)
    requires { IsSome (file_in files.old.items name.now) }
    ensures { files.new.items ≡ with_file files.old.items name.now bytes.items }
{
    if let Some(place) = place_of(files, name) {
        files[place].bytes = FileBytes::new(bytes);
    }
}

// Writes these bytes to the file with this name.
#[tactic(auto, using(crate::proofs::Files::with_new_file))]
pub(crate) fn write(
    alloc: Global,
    files: &mut Vec<NamedFile>,
    name: &[u8],
    bytes: &[u8],
) -> Result<(), AllocError>
    ensures ok { OnOk result (files.new.items ≡ with_file files.old.items name.now bytes.now) }
    ensures memory { OnErr result (files.new.items ≡ files.old.items) }
{
    let bytes = Vec::from_slice(alloc, bytes)?;
    if let Some(place) = place_of(files, name) {
        files[place].bytes = FileBytes::new(bytes);
        return Ok(());
    }
    let name = FileBytes::new(Vec::from_slice(alloc, name)?);
    let bytes = FileBytes::new(bytes);
    files.push(NamedFile { name, bytes })?;
    Ok(())
}

// Writes these bytes to the file with this name, which fails where there is no memory.
fn write_file(
    alloc: Global,
    calls: &mut Calls,
    files: &mut Vec<NamedFile>,
    name: &[u8],
    bytes: &[u8],
) -> Result<(), Failed>
    ensures ok { OnOk result (files.new.items ≡ with_file files.old.items name.now bytes.now) }
    ensures unchanged { OnErr result (files.new.items ≡ files.old.items) }
    ensures calls { calls.new ≡ record calls.old { faults = calls.new.faults } }
    ensures count { CountsFaults calls.old.faults calls.new.faults result }
{
    match write(alloc, files, name, bytes) {
        Ok(()) => Ok(()),
        Err(_) => Err(calls.fail()),
    }
}

// Writes these bytes to the file with this name, unless there is one.
fn write_new(
    alloc: Global,
    calls: &mut Calls,
    files: &mut Vec<NamedFile>,
    name: &[u8],
    bytes: &[u8],
) -> Result<(), FileFault>
    ensures was_new { OnOk result (file_in files.old.items name.now ≡ None) }
    ensures ok { OnOk result (files.new.items ≡ with_file files.old.items name.now bytes.now) }
    ensures err { IfErr result
        (IsNewFault (Some files.old.items) name.now calls.old.faults calls.new.faults) }
    ensures unchanged { OnErr result (files.new.items ≡ files.old.items) }
    ensures calls { calls.new ≡ record calls.old { faults = calls.new.faults } }
    ensures kept { calls.old.faults ≤ calls.new.faults }
{
    if place_of(files, name).is_some() {
        return Err(FileFault::Exists);
    }
    Ok(write_file(alloc, calls, files, name, bytes)?)
}

// Puts these bytes in the file with this name, if there is one.
fn put_if_there(files: &mut Vec<NamedFile>, name: &[u8], bytes: Vec<u8>)
    ensures { files.new.items
        ≡ with_bytes (file_in files.old.items name.now) files.old.items name.now bytes.items }
{
    if place_of(files, name).is_some() {
        put(files, name, bytes);
    }
}

// Removes the file with this name, or puts these bytes in it where the call fails.
fn remove_named(
    calls: &mut Calls,
    files: &mut Vec<NamedFile>,
    lent: &[FileBytes],
    name: &[u8],
    bytes: Vec<u8>,
) -> Result<(), Failed>
    ensures gone { OnOk result (files.new.items ≡ without_file files.old.items name.now) }
    ensures back { OnErr result (files.new.items
        ≡ with_bytes (file_in files.old.items name.now) files.old.items name.now bytes.items) }
    ensures free { OnOk result (All (λ other. bytes_eq other name.now ≡ false) lent.now) }
    ensures count { CountsFaults calls.old.faults calls.new.faults result }
    ensures call { CountsCall calls.old calls.new result }
{
    if let Err(failed) = begin_removal(calls, lent, name) {
        put_if_there(files, name, bytes);
        return Err(failed);
    }
    remove_first(files, name);
    Ok(())
}

// Counts the call that removes the file with this name, which fails where its disk is out.
fn begin_removal(calls: &mut Calls, lent: &[FileBytes], name: &[u8]) -> Result<(), Failed>
    ensures count { CountsFaults calls.old.faults calls.new.faults result }
    ensures call { CountsCall calls.old calls.new result }
    ensures free { OnOk result (All (λ other. bytes_eq other name.now ≡ false) lent.now) }
{
    calls.begin()?;
    if is_listed(lent, name) {
        return Err(calls.fail());
    }
    Ok(())
}

// Whether one of these is the name.
fn is_listed(names: &[FileBytes], name: &[u8]) -> bool
    ensures { result ≡ false → All (λ other. bytes_eq other name.now ≡ false) names.now }
{
    for i in 0..names.len() {
        if is_name(&names[i], name) {
            return true;
        }
    }
    false
}

// Removes the first file with this name.
#[tactic(auto, using(crate::proofs::Files::without_none))]
fn remove_first(files: &mut Vec<NamedFile>, name: &[u8])
    ensures { files.new.items ≡ without_file files.old.items name.now }
{
    if let Some(place) = place_of(files, name) {
        files.remove(place);
    }
}
