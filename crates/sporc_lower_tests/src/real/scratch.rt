//! Folders for tests.

use std::process::Abort;
use std::rt::{Env, Files};
use std::{env, fs};

/// Makes a folder of this process and this name in the folder for temporary files, and gives its
/// path.
pub fn make_folder<R: Abort + Files + Env + AllocGlobal>(
    rt: &R,
    process: u32,
    name: &str,
) -> String {
    let temporary = env::temp_dir(rt).expect(rt, "a folder");
    let parent = temporary.as_str();
    let path = format!(in rt.alloc(); "{parent}/sporc-{process}-{name}").expect(rt, "memory");
    fs::create_dir(rt, path.as_str()).expect(rt, "a folder");
    path
}

/// The path of this name in a folder.
pub fn path_in<R: Abort + AllocGlobal>(rt: &R, folder: &str, name: &str) -> String {
    format!(in rt.alloc(); "{folder}/{name}").expect(rt, "memory")
}

/// Removes a folder and what is in it.
pub fn remove_folder<R: Abort + Files + AllocGlobal>(rt: &R, folder: &str) {
    fs::remove_dir_all(rt, folder).expect(rt, "a folder");
}
