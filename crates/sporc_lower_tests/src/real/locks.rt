use crate::checks::{check, fails_by};
use crate::real::files::rights;
use crate::real::scratch::{make_folder, path_in, remove_folder};
use sporc_outside::{FileFault, Folder, LeafDisk};
use sporc_real::RealFolder;
use std::fs::File;
use std::process;
use std::process::Abort;
use std::rt::Files;

// The first of two folders, as of two programs, has the disk, so the second doesn't get it. The
// first hands it back.
fn one_has_it<R: Abort + Files<File = File> + AllocGlobal + Drop>(
    rt: &R,
    first: &mut RealFolder<&R>,
    second: &mut RealFolder<&R>,
    name: &str,
) {
    first.write_new(name, b"leaf").expect(rt, "a leaf file");
    let disk = first.leaf_disk(name).expect(rt, "a disk");
    let fault = second.leaf_disk(name).err();
    fails_by(rt, "a taken disk", fault, FileFault::Failed);
    first.take_back(disk);
}

// The second folder gets the disk then.
fn the_other_has_it<R: Abort + Files<File = File> + AllocGlobal + Drop>(
    rt: &R,
    second: &mut RealFolder<&R>,
    name: &str,
) {
    let mut disk = second.leaf_disk(name).expect(rt, "a disk");
    check(rt, "the length", disk.len() == Ok(4));
    second.take_back(disk);
}

// Makes a file whose disk is lent to two folders, one after the other. Who may read and write it.
fn lends_once<R: Abort + Files<File = File> + AllocGlobal + Drop>(rt: &R, name: &str) -> u32 {
    let mut second = RealFolder::new(rt);
    one_has_it(rt, &mut RealFolder::new(rt), &mut second, name);
    the_other_has_it(rt, &mut second, name);
    rights(rt, name)
}

#[test]
fn a_leaf_file_is_lent_to_one_program_at_a_time(rt: HostRuntime) {
    let path = make_folder(&rt, process::id(rt.process()), "locks");
    let name = path_in(&rt, path.as_str(), "a.leaf");
    let rights = lends_once(&rt, name.as_str());
    remove_folder(&rt, path.as_str());
    check(&rt, "who may write it", rights == 0o600);
}
