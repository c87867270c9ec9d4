//! Files of the system.

ghost use Rattle.std.specs.Prelude.{◌≡◌, ◌≤◌, None, IfOk, IfErr};
ghost use Rattle.sporc_outside.specs.Files.{IsAppendFault, IsDiskFault};
ghost use Rattle.sporc_outside.specs.declared.file_fault.TheConstants.{MAX_FILE};

use crate::counting::{counted, fail};
use crate::real_append_file::RealAppendFile;
use crate::real_disk::RealDisk;
use crate::saving::{save, save_new, sync_folder};
use sporc_outside::{Counted, Failed, FileFault, Folder, LeafDisk, MAX_FILE};
use std::alloc::Global;
use std::fs::{File, OpenOptions};
use std::io::{ErrorKind, Read};
use std::os::unix::fs::MetadataExt;
use std::rt::Files;
use std::{fs, io};

/// Files by their paths from the current directory.
///
/// A file that is written is on the disk when the call returns. A stop in the middle of
/// [`Folder::write_file`] leaves the old file or the new one, and maybe a part of the new one
/// beside it, under its name and `.new`; two programs must not write one file at once. The file
/// that was replaced is kept under its name and `.old` until the next is, where the system has hard
/// links, and the new one has its mode. Of a symbolic link the file that it leads to is written.
///
/// A stop in the middle of [`Folder::write_new`] leaves no file of this name or the whole one,
/// where the system has hard links, and maybe one beside it, under its name, a number and `.new`. A
/// file whose name ends with `.key`, `.ring` or `.leaf` is made readable by its owner alone.
///
/// A disk has the system's lock on its leaf file until it is dropped: one that another program has
/// taken is a call that fails. So has a file that is appended to, up to where it is taken back or
/// gone.
#[derive(Drop)]
pub struct RealFolder<R: Files<File = File> + AllocGlobal + Drop> {
    rt: R,
    faults: u64,
}

impl<R: Files<File = File> + AllocGlobal + Drop> RealFolder<R> {
    /// Files by this runtime, no call of which has failed yet.
    pub fn new(rt: R) -> RealFolder<R>
        ensures value { result.faults ≡ 0 }
    {
        RealFolder { rt, faults: 0 }
    }
}

// An open file, and how many bytes it has.
#[derive(Drop)]
struct OpenedFile {
    file: File,
    len: u64,
}

fn open_with_len<R: Files<File = File>>(
    rt: &R,
    options: &OpenOptions,
    name: &str,
) -> io::Result<OpenedFile> {
    let file = options.open(rt, name)?;
    let len = file.metadata()?.len();
    Ok(OpenedFile { file, len })
}

// Opens a file, unless it is too long. An error other than that there is none is counted.
fn open_file<R: Files<File = File>>(
    rt: &R,
    faults: &mut u64,
    options: &OpenOptions,
    name: &str,
) -> Result<OpenedFile, FileFault>
    ensures within { IfOk result (λ opened. opened.len ≤ MAX_FILE) }
    ensures err { IfErr result (IsDiskFault None name.now faults.old faults.new) }
    ensures kept { faults.old ≤ faults.new }
{
    match open_with_len(rt, options, name) {
        Ok(opened) if opened.len > MAX_FILE => Err(FileFault::TooLong(opened.len)),
        Ok(opened) => Ok(opened),
        Err(error) if error.kind() == ErrorKind::NotFound => Err(FileFault::Missing),
        Err(_) => Err(fail(faults).into()),
    }
}

// Takes the system's lock on a file, unless it is taken. It is given back where the file is
// dropped, or the program ends.
fn lock(file: &File) -> io::Result<()> {
    Ok(file.try_lock()?)
}

// All bytes of a file, or the first ones above the limit.
fn read_whole(alloc: Global, opened: OpenedFile) -> io::Result<Vec<u8>>
    requires { opened.len ≤ MAX_FILE }
{
    let mut bytes = Vec::with_capacity(alloc, opened.len as usize)?;
    opened.file.take(MAX_FILE + 1).read_to_end(&mut bytes)?;
    Ok(bytes)
}

// Opens a file to append to it, which is made if there is none, with the system's lock on it, and
// says how many bytes it has. Another program may have removed it before the lock was taken.
fn open_appended<R: Files<File = File>>(rt: &R, name: &str) -> io::Result<OpenedFile> {
    let mut options = OpenOptions::new();
    options.read(true).append(true).create(true);
    let file = options.open(rt, name)?;
    lock(&file)?;
    let found = file.metadata()?;
    if !found.is_file() || found.nlink() == 0 {
        return Err(io::Error::from(ErrorKind::NotFound));
    }
    sync_folder(rt, name)?;
    let len = found.len();
    Ok(OpenedFile { file, len })
}

// The file that was opened, as the folder hands it out.
fn appended<R: Files<File = File> + AllocGlobal>(
    rt: &R,
    faults: &mut u64,
    name: &str,
) -> Result<RealAppendFile, FileFault>
    ensures fresh { IfOk result (λ file. file.faults ≡ 0) }
    ensures err { IfErr result (IsAppendFault None name.now faults.old faults.new) }
    ensures kept { faults.old ≤ faults.new }
{
    let Ok(opened) = open_appended(rt, name) else {
        return Err(fail(faults).into());
    };
    if opened.len > MAX_FILE {
        return Err(FileFault::TooLong(opened.len));
    }
    Ok(RealAppendFile::new(opened.file))
}

// Removes a file, and brings that to the disk.
fn remove_name<R: Files<File = File>>(rt: &R, path: &str) -> io::Result<()> {
    fs::remove_file(rt, path)?;
    sync_folder(rt, path)
}

impl<R: Files<File = File> + AllocGlobal + Drop> Counted for RealFolder<R> {
    ghost faults = { λ f. f.faults };

    fn faults(&self) -> u64 {
        self.faults
    }
}

impl<R: Files<File = File> + AllocGlobal + Drop> Folder for RealFolder<R> {
    type Disk = RealDisk;

    type Appended = RealAppendFile;

    ghost use Rattle.std.specs.Prelude.{refl};
    ghost use Rattle.sporc_outside.specs.Folders.{silent_folder};

    ghost told = { λ f. silent_folder f.faults };

    ghost faults_are_told = { λ _. refl };

    #[tactic(auto, using(crate::proofs::RealFiles::too_long, crate::proofs::RealFiles::read_fault))]
    fn read_file(&mut self, alloc: Global, name: &str) -> Result<Vec<u8>, FileFault> {
        let opened = open_file(
            &self.rt,
            &mut self.faults,
            OpenOptions::new().read(true),
            name,
        )?;
        match read_whole(alloc, opened) {
            Ok(bytes) if bytes.len() as u64 > MAX_FILE => {
                Err(FileFault::TooLong(bytes.len() as u64))
            }
            Ok(bytes) => Ok(bytes),
            Err(error) if error.kind() == ErrorKind::OutOfMemory => Err(FileFault::Memory),
            Err(_) => Err(fail(&mut self.faults).into()),
        }
    }

    fn write_file(&mut self, name: &str, bytes: &[u8]) -> Result<(), Failed> {
        let answer = save(&self.rt, name, bytes);
        counted(&mut self.faults, answer)
    }

    fn write_new(&mut self, name: &str, bytes: &[u8]) -> Result<(), FileFault> {
        match save_new(&self.rt, name, bytes) {
            Ok(()) => Ok(()),
            Err(error) if error.kind() == ErrorKind::AlreadyExists => Err(FileFault::Exists),
            Err(_) => Err(fail(&mut self.faults).into()),
        }
    }

    fn leaf_disk(&mut self, name: &str) -> Result<RealDisk, FileFault> {
        let opened = open_file(
            &self.rt,
            &mut self.faults,
            OpenOptions::new().read(true).write(true),
            name,
        )?;
        let answer = lock(&opened.file);
        counted(&mut self.faults, answer)?;
        Ok(RealDisk::new(opened.file, opened.len))
    }

    fn take_back(&mut self, disk: RealDisk) {
        self.faults = self.faults.saturating_add(disk.faults());
    }

    fn append_to(&mut self, name: &str) -> Result<RealAppendFile, FileFault> {
        appended(&self.rt, &mut self.faults, name)
    }

    fn take_file(&mut self, _: &str, file: RealAppendFile) {
        self.faults = self.faults.saturating_add(file.faults());
    }

    fn remove(&mut self, name: &str, file: RealAppendFile) -> Result<(), Failed> {
        self.faults = self.faults.saturating_add(file.faults());
        // The file, and the lock on it, is held until its name is gone.
        let answer = remove_name(&self.rt, name);
        counted(&mut self.faults, answer)
    }
}
