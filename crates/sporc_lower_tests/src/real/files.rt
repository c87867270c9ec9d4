use crate::checks::{check, fails_by};
use crate::real::scratch::{make_folder, path_in, remove_folder};
use sporc_base::is_same;
use sporc_outside::{Counted, FileFault, Folder};
use sporc_real::RealFolder;
use std::fs::File;
use std::os::unix::fs::{MetadataExt, symlink};
use std::process::Abort;
use std::rt::Files;
use std::{fs, process};

fn has<F: Folder>(rt: &(impl Abort + AllocGlobal), folder: &mut F, name: &str, bytes: &[u8]) {
    let read = folder.read_file(rt.alloc(), name).expect(rt, "a file");
    check(rt, "what is read", is_same(&read, bytes));
}

fn lacks<F: Folder>(rt: &(impl Abort + AllocGlobal), folder: &mut F, name: &str) {
    let fault = folder.read_file(rt.alloc(), name).err();
    fails_by(rt, "no file", fault, FileFault::Missing);
}

/// Who may read and write a file, as the system has it.
pub(crate) fn rights<R: Abort + Files>(rt: &R, name: &str) -> u32 {
    fs::metadata(rt, name).expect(rt, "a file").mode() & 0o777
}

// Whether something lies where a file is written before it takes its name.
fn has_beside<R: Abort + Files + AllocGlobal>(rt: &R, name: &str) -> bool {
    let beside = format!(in rt.alloc(); "{name}.new").expect(rt, "memory");
    fs::exists(rt, beside.as_str()).expect(rt, "an answer")
}

fn saves<F: Folder>(rt: &(impl Abort + AllocGlobal), folder: &mut F, name: &str) {
    lacks(rt, folder, name);
    check(
        rt,
        "the first save",
        folder.write_file(name, b"first").is_ok(),
    );
    check(
        rt,
        "the next save",
        folder.write_file(name, b"next").is_ok(),
    );
    has(rt, folder, name, b"next");
}

// It is no new file, since something is there.
fn is_there<F: Folder>(rt: &impl Abort, folder: &mut F, name: &str, bytes: &[u8]) {
    let fault = folder.write_new(name, bytes).err();
    fails_by(rt, "no new file", fault, FileFault::Exists);
}

fn makes_new<F: Folder>(rt: &(impl Abort + AllocGlobal), folder: &mut F, name: &str) {
    check(rt, "a new file", folder.write_new(name, b"secret").is_ok());
    is_there(rt, folder, name, b"again");
    has(rt, folder, name, b"secret");
}

// Each call of a folder fails for a path that is there and is no file that can be read.
fn fails<F: Folder>(rt: &(impl Abort + AllocGlobal), folder: &mut F, path: &str)
where
    F::Disk: Drop,
{
    let fault = folder.read_file(rt.alloc(), path).err();
    fails_by(rt, "a read", fault, FileFault::Failed);
    let fault = folder.leaf_disk(path).err();
    fails_by(rt, "a disk", fault, FileFault::Failed);
    check(rt, "the faults", folder.faults() == 2);
}

// Nor can a file be written in its place.
fn fails_for_writes<F: Folder>(rt: &(impl Abort + AllocGlobal), folder: &mut F, path: &str)
where
    F::Disk: Drop,
{
    fails(rt, folder, path);
    check(rt, "a write", folder.write_file(path, b"x").is_err());
}

// Nor can one be made there.
fn fails_for_new<F: Folder>(rt: &(impl Abort + AllocGlobal), folder: &mut F, path: &str)
where
    F::Disk: Drop,
{
    fails(rt, folder, path);
    is_there(rt, folder, path, b"x");
}

// A folder is no file.
fn fails_for_folder<R: Abort + Files<File = File> + AllocGlobal + Drop>(rt: &R, path: &str) {
    fs::create_dir(rt, path).expect(rt, "a folder");
    fails_for_writes(rt, &mut RealFolder::new(rt), path);
    check(rt, "nothing beside the file", !has_beside(rt, path));
}

// A link that leads to itself is no file, and is not missing either.
fn fails_for_link<R: Abort + Files<File = File> + AllocGlobal + Drop>(rt: &R, path: &str) {
    symlink(rt, path, path).expect(rt, "a link");
    fails_for_new(rt, &mut RealFolder::new(rt), path);
}

fn fails_for_each<R: Abort + Files<File = File> + AllocGlobal + Drop>(rt: &R, path: &str) {
    fails_for_folder(rt, path_in(rt, path, "a").as_str());
    fails_for_link(rt, path_in(rt, path, "b").as_str());
}

// Saves by a folder of this machine. Whether something lies beside the file then.
fn saves_alone<R: Abort + Files<File = File> + AllocGlobal + Drop>(rt: &R, name: &str) -> bool {
    saves(rt, &mut RealFolder::new(rt), name);
    has_beside(rt, name)
}

// Makes a file by a folder of this machine. Who may read and write it then.
fn makes_own<R: Abort + Files<File = File> + AllocGlobal + Drop>(rt: &R, name: &str) -> u32 {
    makes_new(rt, &mut RealFolder::new(rt), name);
    rights(rt, name)
}

#[test]
fn a_saved_file_replaces_the_old_one(rt: HostRuntime) {
    let path = make_folder(&rt, process::id(rt.process()), "saved");
    let name = path_in(&rt, path.as_str(), "a.history");
    let beside = saves_alone(&rt, name.as_str());
    remove_folder(&rt, path.as_str());
    check(&rt, "nothing beside the file", !beside);
}

#[test]
fn a_file_with_keys_is_made_once_for_its_owner_alone(rt: HostRuntime) {
    let path = make_folder(&rt, process::id(rt.process()), "keys");
    let name = path_in(&rt, path.as_str(), "a.1.key");
    let rights = makes_own(&rt, name.as_str());
    remove_folder(&rt, path.as_str());
    check(&rt, "who may read and write", rights == 0o600);
}

#[test]
fn errors_of_files_are_counted_and_leave_nothing(rt: HostRuntime) {
    let path = make_folder(&rt, process::id(rt.process()), "errors");
    fails_for_each(&rt, path.as_str());
    remove_folder(&rt, path.as_str());
}
