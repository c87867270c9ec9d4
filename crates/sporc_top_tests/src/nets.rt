//! Nets some of whose calls fail.

ghost use Rattle.std.specs.Prelude.{◌<◌};
ghost use Rattle.sporc_memory.specs.MemoryNetModel.{IsFresh};

use crate::bytes::bytes_of;
use crate::place::{Answer, Failing, NONE, Place, calls, calls_of};
use sporc_memory::{Calls, MemoryLink, MemoryNet, PipeLink, PipeNet};
use sporc_outside::{Counted, Dial, Failed, Link, Links, Listen, Sink, Source, Stream};
use std::alloc::Global;
use std::process::Abort;
use std::sync::Wait;
use std::thread::Threads;

// The most bytes that a listed link moves at once.
const PIECE: usize = 1_000;

// A link that brings these bytes.
fn listed_link(rt: &impl Abort, alloc: Global, sent: &[u8], failing: Failing) -> MemoryLink
    ensures { IsFresh result }
{
    let sent = bytes_of(rt, alloc, sent);
    MemoryLink::new(alloc, sent, PIECE, calls_of(rt, alloc, failing.link))
}

// A net with one link, which brings these bytes.
fn listed_net(rt: &impl Abort, alloc: Global, sent: &[u8], failing: Failing) -> MemoryNet {
    let link = listed_link(rt, alloc, sent, failing);
    let links = vec![in alloc; link].expect(rt, "memory");
    MemoryNet::new(alloc, links, calls_of(rt, alloc, failing.net))
}

// A net with links that bring these, in a box: a function that owns the net itself is slow to
// prove.
fn net_of_all(rt: &impl Abort, alloc: Global, sent: &[Vec<u8>]) -> Box<MemoryNet> {
    let mut links = Vec::new(alloc);
    for stream in sent {
        let link = listed_link(rt, alloc, stream, NONE);
        links.push(link).expect(rt, "memory");
    }
    let net = MemoryNet::new(alloc, links, calls_of(rt, alloc, 0));
    Box::new(alloc, net).expect(rt, "memory")
}

/// What a run answers over a net to which clients come that send these, the last one first.
pub fn run_all<R: Threads + Wait + Sync + Abort>(
    rt: &R,
    alloc: Global,
    place: &mut Place,
    words: &str,
    sent: &[Vec<u8>],
) -> Answer {
    let mut net = net_of_all(rt, alloc, sent);
    let answer = place.run(rt, alloc, &mut *net, words);
    drop(net);
    answer
}

/// What a run over such a net answers, and whether no call of its link failed.
pub fn run_listed<R: Threads + Wait + Sync + Abort>(
    rt: &R,
    alloc: Global,
    place: &mut Place,
    words: &str,
    sent: &[u8],
    failing: Failing,
) -> (Answer, bool) {
    let mut net = listed_net(rt, alloc, sent, failing);
    let answer = place.run(rt, alloc, &mut net, words);
    let is_quiet = net.link_faults() == 0;
    drop(net);
    (answer, is_quiet)
}

/// A handle of a net between threads, of which a call fails, and a call of each of its links. It
/// tells no content.
#[derive(Drop)]
pub struct FaultyNet<R: Wait + Copy + Drop> {
    alloc: Global,
    net: PipeNet<R>,
    calls: Calls,
    link_call: u64,
    link_faults: u64,
}

/// A link of this net. It tells no content.
#[derive(Drop)]
pub struct FaultyLink<R: Wait + Copy + Drop> {
    link: PipeLink<R>,
    calls: Calls,
}

impl<R: Wait + Copy + Drop> FaultyNet<R> {
    /// Another handle of this net, where these calls of the net and of its links fail.
    pub fn new(rt: &impl Abort, alloc: Global, net: &PipeNet<R>, failing: Failing) -> FaultyNet<R> {
        FaultyNet {
            alloc,
            net: net.another().expect(rt, "memory"),
            calls: calls_of(rt, alloc, failing.net),
            link_call: failing.link,
            link_faults: 0,
        }
    }

    /// Calls the other end and hangs up, so that it waits no longer.
    pub fn visit<T: Wait>(&mut self, rt: &T) {
        if let Ok(mut link) = self.net.connect(rt, "") {
            link.shut();
            self.net.take_back(link);
        }
    }
}

impl<R: Wait + Copy + Drop> Counted for FaultyNet<R> {
    ghost faults = { λ n. n.calls.faults };

    fn faults(&self) -> u64 {
        self.calls.faults()
    }
}

impl<R: Wait + Copy + Drop> Links for FaultyNet<R> {
    type Link = FaultyLink<R>;

    ghost use Rattle.std.specs.Prelude.{refl};
    ghost use Rattle.sporc_outside.specs.Nets.{silent_net};

    ghost told = { λ n. silent_net n.link_faults n.calls.faults };

    ghost faults_are_told = { λ _. refl };

    fn link_faults(&self) -> u64 {
        self.link_faults
    }

    fn take_back(&mut self, link: FaultyLink<R>) {
        self.link_faults = self.link_faults.saturating_add(link.faults());
        self.net.take_back(link.link);
    }
}

impl<R: Wait + Copy + Drop> Dial for FaultyNet<R> {
    fn connect<T: Wait>(&mut self, rt: &T, address: &str) -> Result<FaultyLink<R>, Failed> {
        self.calls.begin()?;
        let Ok(calls) = calls(self.alloc, self.link_call) else {
            return Err(self.calls.fail());
        };
        match self.net.connect(rt, address) {
            Ok(link) => Ok(FaultyLink { link, calls }),
            Err(_) => Err(self.calls.fail()),
        }
    }
}

impl<R: Wait + Copy + Drop> Listen for FaultyNet<R> {
    fn listen(&mut self, _address: &str) -> Result<(), Failed> {
        self.calls.begin()
    }

    fn accept<T: Wait>(&mut self, _rt: &T) -> Result<FaultyLink<R>, Failed> {
        Err(self.calls.fail())
    }
}

impl<R: Wait + Copy + Drop> Counted for FaultyLink<R> {
    ghost faults = { λ l. l.calls.faults };

    fn faults(&self) -> u64 {
        self.calls.faults()
    }
}

impl<R: Wait + Copy + Drop> Stream for FaultyLink<R> {
    ghost use Rattle.std.specs.Prelude.{refl};
    ghost use Rattle.sporc_outside.specs.Streams.{silent_stream};

    ghost told = { λ l. silent_stream l.calls.faults };

    ghost faults_are_told = { λ _. refl };
}

impl<R: Wait + Copy + Drop> Source for FaultyLink<R> {
    fn read(&mut self, buf: &mut [u8]) -> Result<usize, Failed> {
        self.calls.begin()?;
        match self.link.read(buf) {
            Ok(len) => Ok(len),
            Err(_) => Err(self.calls.fail()),
        }
    }
}

impl<R: Wait + Copy + Drop> Sink for FaultyLink<R> {
    fn write(&mut self, bytes: &[u8]) -> Result<usize, Failed> {
        self.calls.begin()?;
        match self.link.write(bytes) {
            Ok(len) => Ok(len),
            Err(_) => Err(self.calls.fail()),
        }
    }
}

impl<R: Wait + Copy + Drop> Link for FaultyLink<R> {
    fn shut(&mut self) {
        self.link.shut();
    }
}
