//! Files of the system that are appended to.

ghost use Rattle.std.specs.Prelude.{◌≡◌, ◌<◌, ◌≤◌, None, length, IfOk, IfErr};
ghost use Rattle.sporc_outside.specs.AppendFile.{IsWholeFault};
ghost use Rattle.sporc_outside.specs.Counts.{CountsFaults};
ghost use Rattle.sporc_outside.specs.declared.file_fault.TheConstants.{MAX_FILE};

use crate::counting::{counted, fail};
use sporc_outside::{AppendFile, Counted, Failed, FileFault, MAX_FILE};
use std::alloc::Global;
use std::fs::File;
use std::io;
use std::io::{ErrorKind, Write};
use std::os::unix::fs::FileExt;

/// A file that is appended to. Its sync returns once the system says that the bytes are on the
/// disk.
#[derive(Drop)]
pub struct RealAppendFile {
    file: File,
    faults: u64,
}

impl RealAppendFile {
    // A file that was opened for reading and appending.
    pub(crate) fn new(file: File) -> RealAppendFile
        ensures { result.faults ≡ 0 }
    {
        RealAppendFile { file, faults: 0 }
    }
}

// All bytes of a file, unless it is too long.
fn read_all(file: &File, alloc: Global) -> io::Result<Result<Vec<u8>, u64>>
    ensures within { IfOk result (λ read. IfOk read (λ bytes. length bytes.items ≤ MAX_FILE)) }
    ensures too_long { IfOk result (λ read. IfErr read (λ len. MAX_FILE < len)) }
{
    let len = file.metadata()?.len();
    if len > MAX_FILE {
        return Ok(Err(len));
    }
    let mut bytes = vec![in alloc; 0u8; len as usize]?;
    file.read_exact_at(&mut bytes, 0)?;
    Ok(Ok(bytes))
}

// Writes bytes at the end of a file, unless they make it too long.
fn append_to(file: &mut File, bytes: &[u8]) -> io::Result<()> {
    let len = file.metadata()?.len();
    if len.saturating_add(bytes.len() as u64) > MAX_FILE {
        return Err(io::Error::from(ErrorKind::FileTooLarge));
    }
    file.write_all(bytes)
}

// Takes away all bytes of a file but the first `len`.
fn cut_to(file: &File, len: u64) -> io::Result<()> {
    if file.metadata()?.len() < len {
        return Err(io::Error::from(ErrorKind::InvalidInput));
    }
    file.set_len(len)
}

impl Counted for RealAppendFile {
    ghost faults = { λ f. f.faults };

    fn faults(&self) -> u64 {
        self.faults
    }
}

impl AppendFile for RealAppendFile {
    ghost use Rattle.std.specs.Prelude.{refl};
    ghost use Rattle.sporc_outside.specs.AppendFile.{silent_file};

    ghost told = { λ f. silent_file f.faults };

    ghost stored_is_image = { λ _. tt };

    ghost images_are_told = { λ _ _ told. absurd told };

    ghost faults_are_told = { λ _. refl };

    fn read_whole(&mut self, alloc: Global) -> Result<Vec<u8>, FileFault>
        ensures within { IfOk result (λ bytes. length bytes.items ≤ MAX_FILE) }
        ensures err { IfErr result (IsWholeFault None self.old.faults self.new.faults) }
        ensures kept { self.old.faults ≤ self.new.faults }
    {
        match read_all(&self.file, alloc) {
            Ok(Ok(bytes)) => Ok(bytes),
            Ok(Err(len)) => Err(FileFault::TooLong(len)),
            Err(error) if error.kind() == ErrorKind::OutOfMemory => Err(FileFault::Memory),
            Err(_) => Err(fail(&mut self.faults).into()),
        }
    }

    fn append(&mut self, bytes: &[u8]) -> Result<(), Failed>
        ensures count { CountsFaults self.old.faults self.new.faults result }
    {
        let answer = append_to(&mut self.file, bytes);
        counted(&mut self.faults, answer)
    }

    fn cut(&mut self, len: u64) -> Result<(), Failed>
        ensures count { CountsFaults self.old.faults self.new.faults result }
    {
        let answer = cut_to(&self.file, len);
        counted(&mut self.faults, answer)
    }

    fn sync(&mut self) -> Result<(), Failed>
        ensures count { CountsFaults self.old.faults self.new.faults result }
    {
        let answer = self.file.sync_data();
        counted(&mut self.faults, answer)
    }
}
