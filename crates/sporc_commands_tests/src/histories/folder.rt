//! What a command is given: a document's files and a sink, in memory.

use crate::bytes::{append, bytes_of};
use crate::memory::{add_file, calls, empty_sink};
use sporc_entry::write_genesis;
use sporc_head::MAX_ENTRIES;
use sporc_memory::{MemoryFolder, MemorySink};
use sporc_outside::NamedFile;
use sporc_samples::{Cast, DOCUMENT, epoch_key, pair_key};
use sporc_store::save;
use std::alloc::Global;
use std::process::Abort;

/// The files of a document `D`.
#[derive(Drop)]
pub struct Files {
    files: Vec<NamedFile>,
}

/// A folder and a sink, in boxes: a function that owns them themselves is slow to prove.
#[derive(Drop)]
pub struct Room {
    pub folder: Box<MemoryFolder>,
    pub out: Box<MemorySink>,
}

impl Files {
    /// The genesis, and the key and the ring of member 2.
    pub fn of_member(rt: &impl Abort, alloc: Global, cast: &Cast) -> Files {
        let mut files = Files {
            files: Vec::new(alloc),
        };
        files.put(rt, alloc, "D.genesis", genesis(rt, alloc, cast));
        files.put(rt, alloc, "D.2.key", key_file(rt, alloc));
        files.put(rt, alloc, "D.2.ring", ring_file(rt, alloc));
        files
    }

    fn put(&mut self, rt: &impl Abort, alloc: Global, name: &str, bytes: Vec<u8>) {
        add_file(rt, alloc, &mut self.files, name, bytes);
    }

    /// The file of these entries.
    pub fn add_history(&mut self, rt: &impl Abort, alloc: Global, name: &str, entries: &[Vec<u8>]) {
        self.put(rt, alloc, name, history_file(rt, alloc, entries));
    }

    /// A folder with these files, and an empty sink. This call of the folder fails, counted from 1;
    /// with 0 none does.
    pub fn room(self, rt: &impl Abort, alloc: Global, failing: u64) -> Room {
        let folder = MemoryFolder::new(alloc, self.files, calls(rt, alloc, failing));
        let folder = Box::new(alloc, folder).expect(rt, "memory");
        let out = empty_sink(rt, alloc);
        Room { folder, out }
    }
}

fn genesis(rt: &impl Abort, alloc: Global, cast: &Cast) -> Vec<u8> {
    let genesis = cast.genesis(alloc).expect(rt, "a genesis");
    write_genesis(alloc, &genesis).expect(rt, "a genesis")
}

// The key file of member 2 of the cast: a tree of height 5 with four bits a coefficient.
fn key_file(rt: &impl Abort, alloc: Global) -> Vec<u8> {
    let mut bytes = bytes_of(rt, alloc, b"SPK1\0\x02\0\0\0\x05\0\0\0\x03");
    append(rt, &mut bytes, &[2; 16]);
    append(rt, &mut bytes, &[2; 32]);
    bytes
}

// The ring file of member 2, who shares a key with the admin, and is a founder.
fn ring_file(rt: &impl Abort, alloc: Global) -> Vec<u8> {
    let mut bytes = bytes_of(rt, alloc, b"SPR1\0\x02\x01");
    append(rt, &mut bytes, &epoch_key(0));
    append(rt, &mut bytes, b"\0\x01\0\x01");
    append(rt, &mut bytes, &pair_key(2, 1));
    bytes
}

/// The file of these entries.
pub fn history_file(rt: &impl Abort, alloc: Global, entries: &[Vec<u8>]) -> Vec<u8> {
    assert!(rt; entries.len() <= MAX_ENTRIES as usize);
    save(alloc, &DOCUMENT, entries).expect(rt, "a file")
}

/// The place of the file behind its head and these entries.
pub fn place_behind(entries: &[Vec<u8>]) -> usize {
    let mut place = 24usize;
    for entry in entries {
        place = place.saturating_add(entry.len().saturating_add(4));
    }
    place
}
