//! Nets between threads.

use crate::pipe::Pipe;
use crate::pipe_link::PipeLink;
use sporc_outside::{Counted, Dial, Failed, Links, Listen};
use std::alloc::{AllocError, Global};
use std::collections::VecDeque;
use std::sync::{Arc, Condvar, Mutex, Wait};

// The end of a connection that was not accepted yet.
#[derive(Drop)]
struct End {
    incoming: Arc<Pipe>,
    outgoing: Arc<Pipe>,
}

impl End {
    // Reads from the first of these, and writes to the second.
    fn of(incoming: &Arc<Pipe>, outgoing: &Arc<Pipe>) -> Result<End, AllocError> {
        let incoming = Arc::try_clone(incoming)?;
        let outgoing = Arc::try_clone(outgoing)?;
        Ok(End { incoming, outgoing })
    }
}

// Where the ends stand that were not accepted yet.
#[derive(Drop)]
struct Hall {
    ends: Mutex<VecDeque<End>>,
    came: Condvar,
}

/// One of the handles of a net between threads, whatever the address. A connection is made at once,
/// and accepted later; a call fails only where there is no memory. It tells no content.
#[derive(Drop)]
pub struct PipeNet<R: Wait + Copy + Drop> {
    rt: R,
    alloc: Global,
    hall: Arc<Hall>,
    faults: u64,
    link_faults: u64,
}

impl<R: Wait + Copy + Drop> PipeNet<R> {
    /// A net with one handle, which keeps this runtime for its links.
    pub fn new(rt: R, alloc: Global) -> Result<PipeNet<R>, AllocError> {
        let hall = Arc::new(
            alloc,
            Hall {
                ends: Mutex::new(VecDeque::new(alloc)),
                came: Condvar::new(),
            },
        )?;
        Ok(PipeNet {
            rt,
            alloc,
            hall,
            faults: 0,
            link_faults: 0,
        })
    }

    /// Another handle of this net.
    pub fn another(&self) -> Result<PipeNet<R>, AllocError> {
        let hall = Arc::try_clone(&self.hall)?;
        Ok(PipeNet {
            rt: self.rt,
            alloc: self.alloc,
            hall,
            faults: 0,
            link_faults: 0,
        })
    }
}

// Both ends of a new connection.
fn new_ends(alloc: Global) -> Result<(End, End), AllocError> {
    let there = Arc::new(alloc, Pipe::new(alloc))?;
    let back = Arc::new(alloc, Pipe::new(alloc))?;
    both_ends(there, back)
}

// Both ends of the connection over these.
fn both_ends(there: Arc<Pipe>, back: Arc<Pipe>) -> Result<(End, End), AllocError> {
    let first = End::of(&back, &there)?;
    let second = End {
        incoming: there,
        outgoing: back,
    };
    Ok((first, second))
}

impl Hall {
    // A new connection: one of its ends waits here, and the other is returned.
    fn connect<R: Wait>(&self, rt: &R, alloc: Global) -> Result<End, AllocError> {
        let (first, second) = new_ends(alloc)?;
        self.ends.lock(rt).push_back(second)?;
        self.came.notify_one();
        Ok(first)
    }

    // Waits for an end, and takes it.
    fn accept<R: Wait>(&self, rt: &R) -> End {
        for _ in rt.forever() {
            let ends = self.ends.lock(rt);
            let mut ends = self.came.wait_while(rt, ends, |ends| ends.is_empty());
            if let Some(end) = ends.pop_front() {
                return end;
            }
        }
        unreachable!()
    }
}

impl<R: Wait + Copy + Drop> Counted for PipeNet<R> {
    ghost faults = { λ n. n.faults };

    fn faults(&self) -> u64 {
        self.faults
    }
}

impl<R: Wait + Copy + Drop> Links for PipeNet<R> {
    type Link = PipeLink<R>;

    ghost use Rattle.std.specs.Prelude.{refl};
    ghost use Rattle.sporc_outside.specs.Nets.{silent_net};

    ghost told = { λ n. silent_net n.link_faults n.faults };

    ghost faults_are_told = { λ _. refl };

    fn link_faults(&self) -> u64 {
        self.link_faults
    }

    fn take_back(&mut self, link: PipeLink<R>) {
        self.link_faults = self.link_faults.saturating_add(link.faults());
    }
}

impl<R: Wait + Copy + Drop> Dial for PipeNet<R> {
    fn connect<T: Wait>(&mut self, rt: &T, _address: &str) -> Result<PipeLink<R>, Failed> {
        match self.hall.connect(rt, self.alloc) {
            Ok(end) => Ok(PipeLink::new(self.rt, end.incoming, end.outgoing)),
            Err(_) => {
                self.faults = self.faults.saturating_add(1);
                Err(Failed)
            }
        }
    }
}

impl<R: Wait + Copy + Drop> Listen for PipeNet<R> {
    fn listen(&mut self, _address: &str) -> Result<(), Failed> {
        Ok(())
    }

    fn accept<T: Wait>(&mut self, rt: &T) -> Result<PipeLink<R>, Failed> {
        let end = self.hall.accept(rt);
        Ok(PipeLink::new(self.rt, end.incoming, end.outgoing))
    }
}
