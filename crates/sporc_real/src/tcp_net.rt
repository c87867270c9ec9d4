//! Nets over TCP.

ghost use Rattle.std.specs.Prelude.{◌≡◌, IfOk, None};

use crate::counting::{counted, fail};
use crate::tcp_link::TcpLink;
use sporc_outside::{Counted, Dial, Failed, Links, Listen};
use std::io;
use std::io::ErrorKind;
use std::net::{Net, TcpListener, TcpStream, ToSocketAddrs};
use std::rt::Clock;
use std::sync::Wait;
use std::thread::sleep;
use std::time::Duration;

// How often a call that could not be taken is tried for again, and how long is waited before each
// time: two minutes together, in which descriptors come free that silent peers hold.
const MAX_TRIES: u32 = 1_200;

const PAUSE_MILLIS: u64 = 100;

/// Dials and listens at addresses such as `localhost:4000`: a name or a number of a host, and a
/// port. Small messages go out at once (`TCP_NODELAY`).
///
/// A call of another end that can't be taken, since no descriptor is free or it was taken back, is
/// no fault of the net: it is tried for again for two minutes, and only what lasts so long fails.
#[derive(Drop)]
pub struct TcpNet<R: Net<Stream = TcpStream, Listener = TcpListener> + Clock + Drop> {
    rt: R,
    limit: Option<Duration>,
    listener: Option<TcpListener>,
    faults: u64,
    link_faults: u64,
}

impl<R: Net<Stream = TcpStream, Listener = TcpListener> + Clock + Drop> TcpNet<R> {
    /// Listens nowhere yet, and waits for peers without a limit.
    pub fn new(rt: R) -> TcpNet<R>
        ensures faults { result.faults ≡ 0 }
        ensures link_faults { result.link_faults ≡ 0 }
    {
        TcpNet {
            rt,
            limit: None,
            listener: None,
            faults: 0,
            link_faults: 0,
        }
    }

    /// Listens nowhere yet. A read or a write of a link that waits longer than this for the peer
    /// fails, and so does a link that isn't made in this time, at each address of the host. With a
    /// limit of 0 no link is made.
    pub fn with_limit(rt: R, limit: Duration) -> TcpNet<R>
        ensures faults { result.faults ≡ 0 }
        ensures link_faults { result.link_faults ≡ 0 }
    {
        TcpNet {
            rt,
            limit: Some(limit),
            listener: None,
            faults: 0,
            link_faults: 0,
        }
    }
}

// A link over a new connection, whose messages go out at once.
fn link_over(stream: TcpStream, limit: Option<Duration>) -> io::Result<TcpLink>
    ensures { IfOk result (λ link. link.faults ≡ 0) }
{
    stream.set_nodelay(true)?;
    stream.set_read_timeout(limit)?;
    stream.set_write_timeout(limit)?;
    Ok(TcpLink::new(stream))
}

// Connects to the first of a host's addresses that answers in time.
fn connect_within<R: Net<Stream = TcpStream>>(
    rt: &R,
    address: &str,
    limit: Duration,
) -> io::Result<TcpStream> {
    let mut last = io::Error::from(ErrorKind::InvalidInput);
    for each in address.to_socket_addrs(rt)? {
        match TcpStream::connect_timeout(rt, &each, limit) {
            Ok(stream) => return Ok(stream),
            Err(error) => last = error,
        }
    }
    Err(last)
}

fn dial<R: Net<Stream = TcpStream>>(
    rt: &R,
    address: &str,
    limit: Option<Duration>,
) -> io::Result<TcpLink>
    ensures { IfOk result (λ link. link.faults ≡ 0) }
{
    let stream = match limit {
        Some(limit) => connect_within(rt, address, limit)?,
        None => TcpStream::connect(rt, address)?,
    };
    let link = link_over(stream, limit)?;
    Ok(link)
}

// Whether the listener is at one of the addresses that this names.
fn is_at<R: Net>(rt: &R, listener: &TcpListener, address: &str) -> io::Result<bool> {
    let here = listener.local_addr()?;
    for each in address.to_socket_addrs(rt)? {
        if each == here {
            return Ok(true);
        }
    }
    Ok(false)
}

fn is_listening<R: Net>(rt: &R, listener: &Option<TcpListener>, address: &str) -> bool {
    match listener {
        Some(listener) => is_at(rt, listener, address).unwrap_or(false),
        None => false,
    }
}

fn accept_once(listener: &TcpListener, limit: Option<Duration>) -> io::Result<TcpLink>
    ensures { IfOk result (λ link. link.faults ≡ 0) }
{
    let (stream, _) = listener.accept()?;
    let link = link_over(stream, limit)?;
    Ok(link)
}

fn accept_at<R: Clock>(
    rt: &R,
    listener: &TcpListener,
    limit: Option<Duration>,
) -> io::Result<TcpLink>
    ensures { IfOk result (λ link. link.faults ≡ 0) }
{
    for _ in 0..MAX_TRIES {
        match accept_once(listener, limit) {
            Ok(link) => return Ok(link),
            Err(_) => sleep(rt, Duration::from_millis(PAUSE_MILLIS)),
        }
    }
    accept_once(listener, limit)
}

impl<R: Net<Stream = TcpStream, Listener = TcpListener> + Clock + Drop> Counted for TcpNet<R> {
    ghost faults = { λ n. n.faults };

    fn faults(&self) -> u64 {
        self.faults
    }
}

impl<R: Net<Stream = TcpStream, Listener = TcpListener> + Clock + Drop> Links for TcpNet<R> {
    type Link = TcpLink;

    ghost use Rattle.std.specs.Prelude.{refl};
    ghost use Rattle.sporc_outside.specs.Nets.{silent_net};

    ghost told = { λ n. silent_net n.link_faults n.faults };

    ghost faults_are_told = { λ _. refl };

    fn link_faults(&self) -> u64 {
        self.link_faults
    }

    fn take_back(&mut self, link: TcpLink) {
        self.link_faults = self.link_faults.saturating_add(link.faults());
    }
}

impl<R: Net<Stream = TcpStream, Listener = TcpListener> + Clock + Drop> Dial for TcpNet<R> {
    fn connect<T: Wait>(&mut self, _rt: &T, address: &str) -> Result<TcpLink, Failed> {
        let answer = dial(&self.rt, address, self.limit);
        counted(&mut self.faults, answer)
    }
}

impl<R: Net<Stream = TcpStream, Listener = TcpListener> + Clock + Drop> Listen for TcpNet<R> {
    /// At an address where it listens already it goes on, and no call that came there is lost. Else
    /// it listens at that one alone.
    fn listen(&mut self, address: &str) -> Result<(), Failed> {
        if is_listening(&self.rt, &self.listener, address) {
            return Ok(());
        }
        let answer = TcpListener::bind(&self.rt, address);
        let listener = counted(&mut self.faults, answer)?;
        self.listener = Some(listener);
        Ok(())
    }

    fn accept<T: Wait>(&mut self, _rt: &T) -> Result<TcpLink, Failed> {
        match &self.listener {
            Some(listener) => {
                let answer = accept_at(&self.rt, listener, self.limit);
                counted(&mut self.faults, answer)
            }
            None => Err(fail(&mut self.faults)),
        }
    }
}
