//! A place where one command runs after the other.

ghost use Rattle.std.specs.Prelude.{◌≡◌, ◌<◌, IfOk};

use crate::bytes::bytes_of;
use sporc_base::is_same;
use sporc_memory::{Calls, ListedChance, MemoryFolder, MemorySink, MemorySource, PipeNet};
use sporc_outside::{Dial, FileBytes, Gate, Listen, NamedFile, OpenGate};
use sporc_top::run;
use std::alloc::{AllocError, Global};
use std::process::Abort;
use std::sync::Wait;
use std::thread::Threads;

// The most bytes that standard output takes at once.
const PIECE: usize = 1_000;

/// What a command is handed, beside the words.
#[derive(Clone, Copy)]
pub enum Object {
    Source,
    Files,
    /// A disk that the folder hands out.
    Disk,
    /// The first file that the folder hands out to be appended to.
    Tail,
    Out,
    Chance,
    Net,
    /// A link that the net hands out.
    Link,
}

/// Of each object the number of the call that fails, or 0.
#[derive(Clone, Copy)]
pub struct Failing {
    pub source: u64,
    pub files: u64,
    pub disk: u64,
    pub tail: u64,
    pub out: u64,
    pub chance: u64,
    pub net: u64,
    pub link: u64,
}

/// No call fails.
pub const NONE: Failing = Failing {
    source: 0,
    files: 0,
    disk: 0,
    tail: 0,
    out: 0,
    chance: 0,
    net: 0,
    link: 0,
};

impl Failing {
    /// This call of an object fails.
    pub fn at(object: Object, call: u64) -> Failing {
        match object {
            Object::Source => Failing {
                source: call,
                ..NONE
            },
            Object::Files => Failing {
                files: call,
                ..NONE
            },
            Object::Disk => Failing { disk: call, ..NONE },
            Object::Tail => Failing { tail: call, ..NONE },
            Object::Out => Failing { out: call, ..NONE },
            Object::Chance => Failing {
                chance: call,
                ..NONE
            },
            Object::Net => Failing { net: call, ..NONE },
            Object::Link => Failing { link: call, ..NONE },
        }
    }
}

/// The calls of an object, of which the one with this number fails.
pub fn calls(alloc: Global, call: u64) -> Result<Calls, AllocError>
    ensures { IfOk result (λ calls. calls.faults ≡ 0) }
{
    Ok(Calls::failing([call].to_vec(alloc)?))
}

/// The calls of an object, of which the one with this number fails, or none if it is 0.
pub fn calls_of(rt: &impl Abort, alloc: Global, call: u64) -> Calls
    ensures { result.faults ≡ 0 }
{
    calls(alloc, call).expect(rt, "memory")
}

/// Standard input and output of a run.
#[derive(Drop)]
pub struct Streams {
    pub source: Box<MemorySource>,
    pub out: Box<MemorySink>,
}

/// A folder, 400 words for a chance, of which a session takes two in each of its rounds, and which
/// calls fail.
#[derive(Drop)]
pub struct Place {
    pub files: Box<MemoryFolder>,
    pub chance: Box<ListedChance>,
    failing: Failing,
}

/// The status of a run, and what it writes.
pub type Answer = (u8, Vec<u8>);

/// A file.
pub fn named(rt: &impl Abort, alloc: Global, name: &str, bytes: &[u8]) -> NamedFile {
    copy_of(rt, alloc, name.as_bytes(), bytes)
}

fn copy_of(rt: &impl Abort, alloc: Global, name: &[u8], bytes: &[u8]) -> NamedFile {
    let name = FileBytes::new(bytes_of(rt, alloc, name));
    let bytes = FileBytes::new(bytes_of(rt, alloc, bytes));
    NamedFile { name, bytes }
}

/// A copy of these files.
pub fn copied(rt: &impl Abort, alloc: Global, files: &[NamedFile]) -> Vec<NamedFile> {
    let mut copies = Vec::new(alloc);
    for file in files {
        let copy = copy_of(rt, alloc, file.name.as_slice(), file.bytes.as_slice());
        copies.push(copy).expect(rt, "memory");
    }
    copies
}

/// A copy of these files without the one with this name.
pub fn copied_without(
    rt: &impl Abort,
    alloc: Global,
    files: &[NamedFile],
    name: &str,
) -> Vec<NamedFile> {
    let mut copies = Vec::new(alloc);
    for file in files {
        if !is_same(file.name.as_slice(), name.as_bytes()) {
            let copy = copy_of(rt, alloc, file.name.as_slice(), file.bytes.as_slice());
            copies.push(copy).expect(rt, "memory");
        }
    }
    copies
}

/// The bytes of the file with this name, if there is one.
pub fn file_in<'a>(files: &'a [NamedFile], name: &str) -> Option<&'a [u8]> {
    for file in files {
        if is_same(file.name.as_slice(), name.as_bytes()) {
            return Some(file.bytes.as_slice());
        }
    }
    None
}

/// The words of a line.
pub fn few_words(rt: &impl Abort, alloc: Global, line: &str) -> Vec<String> {
    let mut words = Vec::new(alloc);
    for word in line.split_whitespace() {
        let word = String::from_str(alloc, word).expect(rt, "memory");
        words.push(word).expect(rt, "memory");
    }
    words
}

// Standard input with these bytes.
fn source_of(
    rt: &impl Abort,
    alloc: Global,
    bytes: &[u8],
    piece: usize,
    failing: u64,
) -> Box<MemorySource>
    requires { 0 < piece }
{
    let source = MemorySource::new(
        bytes_of(rt, alloc, bytes),
        piece,
        calls_of(rt, alloc, failing),
    );
    Box::new(alloc, source).expect(rt, "memory")
}

// Standard output without any.
fn sink_of(rt: &impl Abort, alloc: Global, piece: usize, failing: u64) -> Box<MemorySink>
    requires { 0 < piece }
{
    let out = MemorySink::new(alloc, piece, calls_of(rt, alloc, failing));
    Box::new(alloc, out).expect(rt, "memory")
}

impl Streams {
    /// Input with these bytes and output, each of which moves at most `piece` bytes a call, and
    /// fails at the call with this number.
    pub fn new(
        rt: &impl Abort,
        alloc: Global,
        bytes: &[u8],
        piece: usize,
        read_failing: u64,
        write_failing: u64,
    ) -> Streams
        requires { 0 < piece }
    {
        let source = source_of(rt, alloc, bytes, piece, read_failing);
        let out = sink_of(rt, alloc, piece, write_failing);
        Streams { source, out }
    }

    /// What is written.
    pub fn written(&self, rt: &impl Abort, alloc: Global) -> Vec<u8> {
        bytes_of(rt, alloc, self.out.as_slice())
    }
}

// Appends 200 words.
fn push_words(rt: &impl Abort, words: &mut Vec<[u8; 32]>) {
    for word in 0..200u8 {
        words.push([word; 32]).expect(rt, "memory");
    }
}

// 400 words, of whose calls this one fails.
fn chance_of(rt: &impl Abort, alloc: Global, failing: u64) -> Box<ListedChance> {
    let mut words = Vec::new(alloc);
    push_words(rt, &mut words);
    push_words(rt, &mut words);
    let chance = ListedChance::new(words, calls_of(rt, alloc, failing));
    Box::new(alloc, chance).expect(rt, "memory")
}

// A folder with these files, of whose calls, and of those of its disks and of its tail, these fail.
fn folder_of(
    rt: &impl Abort,
    alloc: Global,
    files: Vec<NamedFile>,
    failing: Failing,
) -> Box<MemoryFolder> {
    let folder = MemoryFolder::new(alloc, files, calls_of(rt, alloc, failing.files));
    let mut folder = Box::new(alloc, folder).expect(rt, "memory");
    folder.fail_disk_calls([failing.disk].to_vec(alloc).expect(rt, "memory"));
    folder.fail_append_calls([failing.tail].to_vec(alloc).expect(rt, "memory"));
    folder
}

impl Place {
    /// A folder with these files, where no call fails.
    pub fn new(rt: &impl Abort, alloc: Global, files: Vec<NamedFile>) -> Place {
        Place::failing(rt, alloc, files, NONE)
    }

    /// A folder with these files, where these calls fail.
    pub fn failing(
        rt: &impl Abort,
        alloc: Global,
        files: Vec<NamedFile>,
        failing: Failing,
    ) -> Place {
        let files = folder_of(rt, alloc, files, failing);
        let chance = chance_of(rt, alloc, failing.chance);
        Place {
            files,
            chance,
            failing,
        }
    }

    // The status of a run over these.
    fn status<R: Threads + Wait + Sync, N: Dial + Listen + Send, G: Gate + Sync>(
        &mut self,
        rt: &R,
        alloc: Global,
        net: &mut N,
        words: &[String],
        streams: &mut Streams,
        gate: &G,
    ) -> u8
    where
        N::Link: Send,
    {
        run(
            rt,
            alloc,
            words,
            &mut *streams.source,
            &mut *streams.out,
            &mut *self.files,
            net,
            &mut *self.chance,
            gate,
        )
    }

    /// What a run over these answers, if the words are those of a line.
    pub fn run<R: Threads + Wait + Sync + Abort, N: Dial + Listen + Send>(
        &mut self,
        rt: &R,
        alloc: Global,
        net: &mut N,
        words: &str,
    ) -> Answer
    where
        N::Link: Send,
    {
        self.run_held(rt, alloc, net, words, &OpenGate)
    }

    /// What a run over these answers with this gate.
    pub fn run_held<R: Threads + Wait + Sync + Abort, N: Dial + Listen + Send, G: Gate + Sync>(
        &mut self,
        rt: &R,
        alloc: Global,
        net: &mut N,
        words: &str,
        gate: &G,
    ) -> Answer
    where
        N::Link: Send,
    {
        let words = few_words(rt, alloc, words);
        let Failing { source, out, .. } = self.failing;
        let mut streams = Streams::new(rt, alloc, b"", PIECE, source, out);
        let status = self.status(rt, alloc, net, words.as_slice(), &mut streams, gate);
        drop(words);
        let written = streams.written(rt, alloc);
        drop(streams);
        (status, written)
    }

    /// What a run over a net between threads answers.
    pub fn run_piped<R: Threads + Wait + Sync + Abort>(
        &mut self,
        rt: &R,
        alloc: Global,
        net: &mut PipeNet<&R>,
        words: &str,
    ) -> Answer {
        self.run(rt, alloc, net, words)
    }

    /// What a run over a net of its own answers.
    pub fn run_alone<R: Threads + Wait + Sync + Abort>(
        &mut self,
        rt: &R,
        alloc: Global,
        words: &str,
    ) -> Answer {
        let mut net = PipeNet::new(rt, alloc).expect(rt, "memory");
        let answer = self.run_piped(rt, alloc, &mut net, words);
        drop(net);
        answer
    }

    /// The bytes of the file with this name, if there is one.
    pub fn file(&self, name: &str) -> Option<&[u8]> {
        file_in(self.files.files(), name)
    }
}
