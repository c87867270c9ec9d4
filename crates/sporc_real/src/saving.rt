//! How files are made and replaced.

ghost use Rattle.std.specs.Prelude.{◌≡◌, true};
ghost use Rattle.std.specs.Fs.{asks_create_new, asks_write};

use std::fs::{File, OpenOptions, Permissions};
use std::io::{ErrorKind, Write};
use std::os::unix::fs::{OpenOptionsExt, PermissionsExt};
use std::path::{Path, PathBuf};
use std::rt::Files;
use std::{fs, io};

// Who may read and write a file with keys or leaves: its owner.
const OWNER_ALONE: u32 = 0o600;

// Who may read and write any other file: everyone, but for those that the umask leaves out.
const EVERYONE: u32 = 0o666;

// How many symbolic links may lead to a file, as the system has it.
const MAX_LINKS: u32 = 40;

// How many files may lie beside a new one, of programs that were stopped or are making it too.
const MAX_BESIDE: u32 = 100;

// The mode of a new file with this name.
fn mode_of(name: &str) -> u32 {
    if name.ends_with(".key") || name.ends_with(".ring") || name.ends_with(".leaf") {
        OWNER_ALONE
    } else {
        EVERYONE
    }
}

// Options that make a file and never open one that is there.
fn new_file(mode: u32) -> OpenOptions
    ensures new { asks_create_new result ≡ true }
    ensures write { asks_write result ≡ true }
{
    let mut options = OpenOptions::new();
    options.mode(mode);
    options.write(true).create_new(true);
    options
}

// Fills a file that was made, and brings it to the disk.
fn fill(mut file: File, bytes: &[u8]) -> io::Result<()> {
    file.write_all(bytes)?;
    file.sync_all()
}

// Brings the names in the folder of this path to the disk.
pub(crate) fn sync_folder<R: Files<File = File>>(rt: &R, path: &str) -> io::Result<()> {
    let folder = match Path::new(path).parent() {
        Some(folder) if !folder.as_str().is_empty() => folder,
        _ => Path::new("."),
    };
    File::open(rt, folder)?.sync_all()
}

// A file that was made beside the place of another, and its path.
#[derive(Drop)]
struct Beside {
    path: String,
    file: File,
}

// Makes a file beside the place of a new one, under a number that nobody else uses.
fn make_beside<R: Files<File = File> + AllocGlobal>(rt: &R, name: &str) -> io::Result<Beside> {
    for number in 0..MAX_BESIDE {
        let path = format!(in rt.alloc(); "{name}.{number}.new")?;
        match new_file(mode_of(name)).open(rt, path.as_str()) {
            Ok(file) => return Ok(Beside { path, file }),
            Err(error) if error.kind() == ErrorKind::AlreadyExists => {}
            Err(error) => return Err(error),
        }
    }
    Err(io::Error::from(ErrorKind::ResourceBusy))
}

// Makes a file in its place, unless there is one. What it made and could not fill is removed.
fn make_in_place<R: Files<File = File>>(rt: &R, name: &str, bytes: &[u8]) -> io::Result<()> {
    let file = new_file(mode_of(name)).open(rt, name)?;
    if let Err(error) = fill(file, bytes) {
        let _ = fs::remove_file(rt, name);
        return Err(error);
    }
    Ok(())
}

// Fills a file beside a place, and links it to the name there, unless there is one. Where the
// system has no such links, the file is made in its place.
fn fill_and_link<R: Files<File = File>>(
    rt: &R,
    file: File,
    path: &str,
    name: &str,
    bytes: &[u8],
) -> io::Result<()> {
    fill(file, bytes)?;
    match fs::hard_link(rt, path, name) {
        Ok(()) => Ok(()),
        Err(error) if error.kind() == ErrorKind::AlreadyExists => Err(error),
        Err(_) => make_in_place(rt, name, bytes),
    }
}

// Makes a file of these bytes, unless there is one with this name. What could not be made whole is
// removed.
pub(crate) fn save_new<R: Files<File = File> + AllocGlobal>(
    rt: &R,
    name: &str,
    bytes: &[u8],
) -> io::Result<()> {
    if fs::symlink_metadata(rt, name).is_ok() {
        return Err(io::Error::from(ErrorKind::AlreadyExists));
    }
    let Beside { path, file } = make_beside(rt, name)?;
    let answer = fill_and_link(rt, file, path.as_str(), name, bytes);
    let _ = fs::remove_file(rt, path.as_str());
    answer?;
    sync_folder(rt, name)
}

// Where a file is written, and the mode of the one that is there.
#[derive(Drop)]
struct Place {
    path: PathBuf,
    old: Option<u32>,
}

// What a symbolic link leads to.
fn follow<R: Files<File = File> + AllocGlobal>(rt: &R, link: &PathBuf) -> io::Result<PathBuf> {
    let target = fs::read_link(rt, link)?;
    match link.parent() {
        Some(folder) => Ok(folder.join(rt.alloc(), &target)?),
        None => Ok(target),
    }
}

// The place of a file with this name, behind symbolic links. What is there and is no plain file is
// not replaced.
fn place_of<R: Files<File = File> + AllocGlobal>(rt: &R, name: &str) -> io::Result<Place> {
    let mut path = PathBuf::from_str(rt.alloc(), name)?;
    for _ in 0..MAX_LINKS {
        match fs::symlink_metadata(rt, &path) {
            Ok(there) if there.is_symlink() => path = follow(rt, &path)?,
            Ok(there) if there.is_file() => {
                let old = Some(there.permissions().mode());
                return Ok(Place { path, old });
            }
            Ok(_) => return Err(io::Error::from(ErrorKind::InvalidInput)),
            Err(error) if error.kind() == ErrorKind::NotFound => {
                return Ok(Place { path, old: None });
            }
            Err(error) => return Err(error),
        }
    }
    Err(io::Error::from(ErrorKind::InvalidInput))
}

// Gives a file that is about to be replaced a second name, in place of the one that had it, as far
// as the system lets it.
fn keep_old<R: Files<File = File> + AllocGlobal>(rt: &R, path: &str) -> io::Result<()> {
    let kept = format!(in rt.alloc(); "{path}.old")?;
    let beside = format!(in rt.alloc(); "{path}.old.new")?;
    let _ = fs::remove_file(rt, beside.as_str());
    if fs::hard_link(rt, path, beside.as_str()).is_ok() {
        let _ = fs::rename(rt, beside.as_str(), kept.as_str());
        // Of two names of one file the rename leaves both.
        let _ = fs::remove_file(rt, beside.as_str());
    }
    Ok(())
}

// Writes a file beside a place, with the mode of the one that is there, as far as the system lets
// it, and puts it there once it is on the disk.
fn replace<R: Files<File = File> + AllocGlobal>(
    rt: &R,
    beside: &str,
    place: &Place,
    mode: u32,
    bytes: &[u8],
) -> io::Result<()> {
    let path = place.path.as_str();
    match place.old {
        Some(old) => {
            let file = new_file(OWNER_ALONE).open(rt, beside)?;
            let _ = file.set_permissions(Permissions::from_mode(old));
            fill(file, bytes)?;
            keep_old(rt, path)?;
        }
        None => fill(new_file(mode).open(rt, beside)?, bytes)?,
    }
    fs::rename(rt, beside, path)
}

// Puts a file of these bytes in place of the one with this name. A stop at any moment leaves the
// old file or the new one, and a fault nothing beside it.
pub(crate) fn save<R: Files<File = File> + AllocGlobal>(
    rt: &R,
    name: &str,
    bytes: &[u8],
) -> io::Result<()> {
    let place = place_of(rt, name)?;
    let path = place.path.as_str();
    let beside = format!(in rt.alloc(); "{path}.new")?;
    let _ = fs::remove_file(rt, beside.as_str());
    if let Err(error) = replace(rt, beside.as_str(), &place, mode_of(name), bytes) {
        let _ = fs::remove_file(rt, beside.as_str());
        return Err(error);
    }
    sync_folder(rt, path)
}
