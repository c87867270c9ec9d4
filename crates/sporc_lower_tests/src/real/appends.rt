use crate::checks::{check, fails_by};
use crate::real::scratch::{make_folder, path_in, remove_folder};
use sporc_base::is_same;
use sporc_outside::{AppendFile, FileFault, Folder};
use sporc_real::{RealAppendFile, RealFolder};
use std::fs::File;
use std::process::Abort;
use std::rt::Files;
use std::{fs, process};

// Appends bytes to a file that has these then.
fn appends<R: Abort + AllocGlobal>(rt: &R, file: &mut RealAppendFile, bytes: &[u8], all: &[u8]) {
    check(rt, "an append", file.append(bytes).is_ok());
    check(rt, "a sync", file.sync().is_ok());
    let found = file.read_whole(rt.alloc()).expect(rt, "the bytes");
    check(rt, "what is read", is_same(&found, all));
}

// The first of two folders, as of two programs, has the file, so the second doesn't get it. The
// first hands it back.
fn one_has_it<R: Abort + AllocGlobal, F: Folder<Appended = RealAppendFile>>(
    rt: &R,
    first: &mut F,
    second: &mut F,
    name: &str,
) {
    let mut file = first.append_to(name).expect(rt, "a file");
    appends(rt, &mut file, b"one", b"one");
    let fault = second.append_to(name).err();
    fails_by(rt, "a taken file", fault, FileFault::Failed);
    first.take_file(name, file);
}

// Appends to the file that the first folder handed back, and cuts it.
fn goes_on<R: Abort + AllocGlobal>(rt: &R, file: &mut RealAppendFile) {
    appends(rt, file, b"two", b"onetwo");
    check(rt, "a cut", file.cut(4).is_ok());
    appends(rt, file, b"six", b"onetsix");
    check(rt, "a longer cut", file.cut(8).is_err());
}

// The second folder gets the file then, and removes it.
fn the_other_has_it<R: Abort + AllocGlobal, F: Folder<Appended = RealAppendFile>>(
    rt: &R,
    second: &mut F,
    name: &str,
) {
    let mut file = second.append_to(name).expect(rt, "a file");
    goes_on(rt, &mut file);
    check(rt, "a removal", second.remove(name, file).is_ok());
}

fn lends_once<R: Abort + Files<File = File> + AllocGlobal + Drop>(rt: &R, name: &str) {
    let mut second = RealFolder::new(rt);
    one_has_it(rt, &mut RealFolder::new(rt), &mut second, name);
    the_other_has_it(rt, &mut second, name);
    check(rt, "no file", fs::metadata(rt, name).is_err());
}

#[test]
fn a_file_is_appended_to_by_one_program_at_a_time(rt: HostRuntime) {
    let path = make_folder(&rt, process::id(rt.process()), "appends");
    let name = path_in(&rt, path.as_str(), "a.tail");
    lends_once(&rt, name.as_str());
    remove_folder(&rt, path.as_str());
}
