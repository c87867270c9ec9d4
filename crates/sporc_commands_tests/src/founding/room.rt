//! A folder, a chance and a sink in memory.

ghost use Rattle.std.specs.Prelude.{IfOk};
ghost use Rattle.sporc_commands.specs.Founding.{MayFound};

use super::chances::{Words, chance, push_eight, push_key};
use crate::memory::calls;
use lms_ots::OtsType;
use lms_tree::LmsType;
use sporc_base::{Items, Memory};
use sporc_commands::{found, keygen};
use sporc_files::Fault;
use sporc_member::{Device, Role};
use sporc_memory::{ListedChance, MemoryFolder, MemorySink};
use sporc_outside::NamedFile;
use sporc_words::{Found, Keygen, Participant, Standing, Word};
use std::alloc::Global;
use std::process::Abort;
use std::thread::Threads;

// Identifiers and seeds of two keys.
const KEYS: [(&str, &str); 2] = [
    (
        "05a7ca4e14a784c0e0daa5e6dd970959",
        "ea27ffea029dc2328007e05d3a1dfd83f357b2404bcc4061c787f0d0a3ed91df",
    ),
    (
        "33333333333333333333333333333333",
        "4444444444444444444444444444444444444444444444444444444444444444",
    ),
];

// Who is named, in an order of their own.
const PARTICIPANTS: [Participant; 3] = [
    Participant {
        member: 2,
        standing: Standing::Founder(Role::Editor),
    },
    Participant {
        member: 3,
        standing: Standing::Joiner,
    },
    Participant {
        member: 1,
        standing: Standing::Founder(Role::Admin),
    },
];

/// The calls that fail, one of the folder, one of the chance and one of the sink, counted from 1;
/// with 0 none does.
pub type Failing = [u64; 3];

/// No call fails.
pub const NONE: Failing = [0, 0, 0];

/// What commands are given, in boxes: a function that owns it itself is slow to prove. The sink
/// takes 100 bytes in one call.
#[derive(Drop)]
pub struct Room {
    pub folder: Box<MemoryFolder>,
    pub chance: Box<ListedChance>,
    pub sink: Box<MemorySink>,
}

impl Room {
    /// A folder with these files, and the words of two keys and a document.
    pub fn new(rt: &impl Abort, alloc: Global, files: Vec<NamedFile>, failing: Failing) -> Room {
        let [in_folder, in_chance, in_sink] = failing;
        let folder = MemoryFolder::new(alloc, files, calls(rt, alloc, in_folder));
        let folder = Box::new(alloc, folder).expect(rt, "memory");
        let chance = chance(rt, alloc, words(rt, alloc), in_chance);
        let sink = MemorySink::new(alloc, 100, calls(rt, alloc, in_sink));
        let sink = Box::new(alloc, sink).expect(rt, "memory");
        Room {
            folder,
            chance,
            sink,
        }
    }

    /// `keygen D M 5 4`.
    pub fn make_key<R: Abort + Threads + Sync>(
        &mut self,
        rt: &R,
        alloc: Global,
        device: Device,
    ) -> Result<(), Fault> {
        let asked = Keygen {
            name: Word::new(alloc, "D").expect(rt, "memory"),
            device,
            height: LmsType::H5,
            width: OtsType::W4,
        };
        keygen(
            rt,
            alloc,
            &mut *self.folder,
            &mut *self.chance,
            &mut *self.sink,
            &asked,
        )
    }

    /// `found D 2:editor 3:joiner 1:admin`.
    pub fn make_document<R: Abort + Threads + Sync>(
        &mut self,
        rt: &R,
        alloc: Global,
    ) -> Result<(), Fault> {
        let asked = founding(alloc).expect(rt, "memory");
        found(rt, alloc, &mut *self.folder, &mut *self.chance, &asked)
    }

    /// The keys of members 1 and 2, and then the document.
    pub fn make_all<R: Abort + Threads + Sync>(
        &mut self,
        rt: &R,
        alloc: Global,
    ) -> Result<(), Fault> {
        self.make_key(rt, alloc, Device::first(1))?;
        self.make_key(rt, alloc, Device::first(2))?;
        self.make_document(rt, alloc)
    }
}

// The words of two keys and a document.
fn words(rt: &impl Abort, alloc: Global) -> Words {
    let mut words = Vec::new(alloc);
    for (id, seed) in &KEYS {
        push_key(rt, &mut words, id, seed);
    }
    push_eight(rt, &mut words);
    words
}

// What `found` is asked for.
fn founding(alloc: Global) -> Result<Found, Memory>
    ensures { IfOk result MayFound }
{
    let name = Word::new(alloc, "D")?;
    let participants = Items::copy_of(alloc, &PARTICIPANTS)?;
    Ok(Found { name, participants })
}
