use crate::checks::check;
use crate::real::scratch::{make_folder, path_in, remove_folder};
use sporc_base::is_same;
use sporc_outside::{Counted, Folder, LeafDisk};
use sporc_real::{RealDisk, RealFolder};
use std::fs::File;
use std::process;
use std::process::Abort;
use std::rt::Files;

fn writes(rt: &impl Abort, disk: &mut RealDisk) {
    check(rt, "the length", disk.len() == Ok(4));
    disk.write_at(1, b"oo").expect(rt, "a leaf file");
    disk.write_at(0, b"r").expect(rt, "a leaf file");
    disk.sync().expect(rt, "a leaf file");
}

fn reads(rt: &impl Abort, disk: &mut RealDisk) {
    let mut bytes = [0u8; 3];
    disk.read(0, &mut bytes).expect(rt, "a leaf file");
    check(rt, "what is read", is_same(&bytes, b"roo"));
}

fn is_bounded(rt: &impl Abort, disk: &mut RealDisk) {
    check(
        rt,
        "a read past the end",
        disk.read(3, &mut [0u8; 2]).is_err(),
    );
    check(
        rt,
        "a write past the end",
        disk.write_at(u64::MAX, b"x").is_err(),
    );
    check(rt, "the faults of the disk", disk.faults() == 2);
}

fn is_used(rt: &impl Abort, disk: &mut RealDisk) {
    writes(rt, disk);
    reads(rt, disk);
    is_bounded(rt, disk);
}

fn keeps_leaves<R: Abort + Files<File = File> + AllocGlobal + Drop>(
    rt: &R,
    folder: &mut RealFolder<&R>,
    name: &str,
) {
    folder.write_new(name, b"leaf").expect(rt, "a leaf file");
    let mut disk = folder.leaf_disk(name).expect(rt, "a leaf file");
    is_used(rt, &mut disk);
    folder.take_back(disk);
    check(rt, "the faults of the folder", folder.faults() == 2);
}

#[test]
fn a_leaf_file_is_read_and_written_in_bounds(rt: HostRuntime) {
    let path = make_folder(&rt, process::id(rt.process()), "leaves");
    let name = path_in(&rt, path.as_str(), "a.leaf");
    keeps_leaves(&rt, &mut RealFolder::new(&rt), name.as_str());
    remove_folder(&rt, path.as_str());
}
