//! The files of the sample document, by the name `D`, and those of another one.

use crate::bytes::{append, bytes_of};
use crate::place::named;
use sporc_entry::write_genesis;
use sporc_head::MAX_ENTRIES;
use sporc_outside::NamedFile;
use sporc_samples::{Cast, DOCUMENT, History, epoch_key};
use sporc_store::save;
use std::alloc::Global;
use std::process::Abort;

// The number of another document.
const OTHER: [u8; 16] = [8; 16];

// The key file of member 2: a tree of height 5 with four bits a coefficient.
fn key_file(rt: &impl Abort, alloc: Global) -> Vec<u8> {
    let head = b"SPK1\0\x02\0\0\0\x05\0\0\0\x03";
    let mut bytes = bytes_of(rt, alloc, head);
    append(rt, &mut bytes, &[2; 16]);
    append(rt, &mut bytes, &[2; 32]);
    bytes
}

// The ring file of member 2, a founder who shares no key.
fn ring_file(rt: &impl Abort, alloc: Global) -> Vec<u8> {
    let mut bytes = bytes_of(rt, alloc, b"SPR1\0\x02\x01");
    append(rt, &mut bytes, &epoch_key(0));
    append(rt, &mut bytes, b"\0\0");
    bytes
}

// Adds an entry of a member, which inserts a character behind so many.
fn add_entry(
    rt: &impl Abort,
    alloc: Global,
    sample: &mut History,
    cast: &Cast,
    author: u16,
    place: u32,
) {
    sample
        .insert(alloc, cast, author, u64::from(place), b"a")
        .expect(rt, "an entry");
}

// Adds so many entries of a member, each of which inserts a character behind those before it.
fn add_entries(
    rt: &impl Abort,
    alloc: Global,
    sample: &mut History,
    cast: &Cast,
    author: u16,
    count: u32,
) {
    for entry in 0..count {
        add_entry(rt, alloc, sample, cast, author, entry);
    }
}

/// The history of these entries of a member.
pub fn entries(rt: &impl Abort, alloc: Global, cast: &Cast, author: u16, count: u32) -> History {
    let genesis = cast.genesis(alloc).expect(rt, "a genesis");
    let mut sample = History::new(alloc, &genesis).expect(rt, "a history");
    drop(genesis);
    add_entries(rt, alloc, &mut sample, cast, author, count);
    sample
}

/// The file of these entries.
pub fn history_file(rt: &impl Abort, alloc: Global, entries: &[Vec<u8>]) -> Vec<u8> {
    assert!(rt; entries.len() <= MAX_ENTRIES as usize, "too many entries");
    save(alloc, &DOCUMENT, entries).expect(rt, "a file")
}

// The bytes of the genesis, as that of this document.
fn genesis_bytes(rt: &impl Abort, alloc: Global, cast: &Cast, document: [u8; 16]) -> Vec<u8> {
    let mut genesis = cast.genesis(alloc).expect(rt, "a genesis");
    genesis.document = document;
    let bytes = write_genesis(alloc, &genesis).expect(rt, "memory");
    drop(genesis);
    bytes
}

/// Adds a file.
pub fn add(rt: &impl Abort, alloc: Global, files: &mut Vec<NamedFile>, name: &str, bytes: &[u8]) {
    files
        .push(named(rt, alloc, name, bytes))
        .expect(rt, "memory");
}

fn add_genesis(rt: &impl Abort, alloc: Global, cast: &Cast, files: &mut Vec<NamedFile>) {
    let genesis = genesis_bytes(rt, alloc, cast, DOCUMENT);
    add(rt, alloc, files, "D.genesis", genesis.as_slice());
}

fn add_keys(rt: &impl Abort, alloc: Global, files: &mut Vec<NamedFile>) {
    let key = key_file(rt, alloc);
    add(rt, alloc, files, "D.2.key", key.as_slice());
    drop(key);
    let ring = ring_file(rt, alloc);
    add(rt, alloc, files, "D.2.ring", ring.as_slice());
}

fn add_scripts(rt: &impl Abort, alloc: Global, files: &mut Vec<NamedFile>) {
    add(rt, alloc, files, "insert", b"insert 0 \"x\"\n");
    add(rt, alloc, files, "drop", b"drop 1\n");
}

/// The genesis of another document of the same founders, by the name `E`.
pub fn other_genesis(rt: &impl Abort, alloc: Global, cast: &Cast) -> NamedFile {
    let genesis = genesis_bytes(rt, alloc, cast, OTHER);
    named(rt, alloc, "E.genesis", genesis.as_slice())
}

/// The file of no entries of that document.
pub fn other_log(rt: &impl Abort, alloc: Global) -> Vec<u8> {
    save(alloc, &OTHER, &[]).expect(rt, "a file")
}

/// The genesis and a log.
pub fn of_server(rt: &impl Abort, alloc: Global, cast: &Cast, log: &[u8]) -> Vec<NamedFile> {
    let mut files = Vec::new(alloc);
    add_genesis(rt, alloc, cast, &mut files);
    add(rt, alloc, &mut files, "D.log", log);
    files
}

/// The files of member 2 with this leaf file and this history, and two scripts: an insertion, and a
/// removal of the admin.
pub fn of_member(
    rt: &impl Abort,
    alloc: Global,
    cast: &Cast,
    leaf: &[u8],
    history: &[u8],
) -> Vec<NamedFile> {
    let mut files = Vec::new(alloc);
    add_genesis(rt, alloc, cast, &mut files);
    add_keys(rt, alloc, &mut files);
    add(rt, alloc, &mut files, "D.2.leaf", leaf);
    add(rt, alloc, &mut files, "D.2.history", history);
    add_scripts(rt, alloc, &mut files);
    files
}

// The files of member 2, with a history of so many entries.
fn of_author(
    rt: &impl Abort,
    alloc: Global,
    cast: &Cast,
    leaf: &[u8],
    count: u32,
) -> Vec<NamedFile> {
    let sample = entries(rt, alloc, cast, 2, count);
    let history = history_file(rt, alloc, sample.entries());
    drop(sample);
    of_member(rt, alloc, cast, leaf, history.as_slice())
}

/// The files of member 2 in a document of its own, with a history of so many entries.
pub fn with_entries(rt: &impl Abort, alloc: Global, leaf: &[u8], count: u32) -> Vec<NamedFile> {
    let cast = Cast::new(alloc).expect(rt, "a cast");
    let files = of_author(rt, alloc, &cast, leaf, count);
    drop(cast);
    files
}
