use crate::checks::{check, hears};
use sporc_outside::{Counted, Dial, Link, Links, Listen, write_all};
use sporc_real::{TcpLink, TcpNet};
use std::net::{Net, OpenListener, TcpListener, TcpStream};
use std::process::Abort;
use std::rt::Clock;
use std::sync::Wait;
use std::thread::{Threads, join};

// An address of this machine where nobody listens.
pub(crate) fn free_address<R: Abort + Net + AllocGlobal>(rt: &R) -> String {
    let listener = TcpListener::bind(rt, "127.0.0.1:0").expect(rt, "a listener");
    let address = listener.local_addr().expect(rt, "an address");
    format!(in rt.alloc(); "{address}").expect(rt, "memory")
}

fn says<L: Link>(rt: &impl Abort, link: &mut L, bytes: &[u8]) {
    check(rt, "a write", write_all(link, bytes).is_ok());
}

// Both ends hear what the other said, and one the end of the connection.
fn both_hear<L: Link>(rt: &impl Abort, caller: &mut L, called: &mut L) {
    hears(rt, called, 2);
    hears(rt, caller, 4);
    caller.shut();
    hears(rt, called, 0);
}

// Each end says something, both at one time.
fn both_say<R: Abort + Threads + Sync>(rt: &R, caller: &mut TcpLink, called: &mut TcpLink) {
    join(rt, || says(rt, caller, b"hi"), || says(rt, called, b"well"));
}

/// A connection from a net to itself: the link that called, and the one that was called.
pub(crate) fn connected<N: Net<Stream = TcpStream, Listener = TcpListener> + Clock + Drop>(
    rt: &(impl Abort + Wait),
    net: &mut TcpNet<N>,
    address: &str,
) -> (TcpLink, TcpLink) {
    let caller = net.connect(rt, address).expect(rt, "a link");
    let called = net.accept(rt).expect(rt, "a link");
    (caller, called)
}

/// Hands both links of a connection back.
pub(crate) fn take_back_both<N: Net<Stream = TcpStream, Listener = TcpListener> + Clock + Drop>(
    net: &mut TcpNet<N>,
    caller: TcpLink,
    called: TcpLink,
) {
    net.take_back(caller);
    net.take_back(called);
}

fn carries<R, N>(rt: &R, net: &mut TcpNet<N>, address: &str)
where
    R: Abort + Threads + Wait + Sync,
    N: Net<Stream = TcpStream, Listener = TcpListener> + Clock + Drop,
{
    let (mut caller, mut called) = connected(rt, net, address);
    both_say(rt, &mut caller, &mut called);
    both_hear(rt, &mut caller, &mut called);
    take_back_both(net, caller, called);
}

#[test]
fn a_connection_carries_bytes_both_ways(rt: HostRuntime) {
    let address = free_address(&rt);
    let mut net = TcpNet::new(&rt);
    net.listen(address.as_str()).expect(&rt, "a listener");
    carries(&rt, &mut net, address.as_str());
    check(&rt, "the faults of the links", net.link_faults() == 0);
}

// Another address of this machine, with the same port.
fn elsewhere(rt: &(impl Abort + AllocGlobal), address: &str) -> String {
    let port = address.strip_prefix("127.0.0.1").expect(rt, "a port");
    format!(in rt.alloc(); "127.0.0.2{port}").expect(rt, "memory")
}

// Whether somebody is heard at the other address of one that a net listens at.
fn is_heard_elsewhere<N: Dial + Listen>(
    rt: &(impl Abort + Wait + AllocGlobal),
    net: &mut N,
    address: &str,
    other: &str,
) -> bool {
    net.listen(address).expect(rt, "a listener");
    match net.connect(rt, other) {
        Ok(link) => {
            net.take_back(link);
            true
        }
        Err(_) => false,
    }
}

// The same port at each address of this machine.
fn everywhere(rt: &(impl Abort + AllocGlobal), other: &str) -> String {
    let port = other.strip_prefix("127.0.0.2").expect(rt, "a port");
    format!(in rt.alloc(); "0.0.0.0{port}").expect(rt, "memory")
}

// A net listens at its address alone, and at all of the machine if that is 0.0.0.0.
#[test]
fn a_net_listens_at_its_address(rt: HostRuntime) {
    let address = free_address(&rt);
    let other = elsewhere(&rt, address.as_str());
    let is_heard = is_heard_elsewhere(&rt, &mut TcpNet::new(&rt), &address, &other);
    check(&rt, "at its address alone", !is_heard);
    let all = everywhere(&rt, other.as_str());
    let is_heard = is_heard_elsewhere(&rt, &mut TcpNet::new(&rt), &all, &other);
    check(&rt, "at each address", is_heard);
}

#[test]
fn a_call_that_nobody_takes_fails(rt: HostRuntime) {
    let address = free_address(&rt);
    let mut net = TcpNet::new(&rt);
    check(&rt, "no link", net.connect(&rt, address.as_str()).is_err());
    check(&rt, "no call", net.accept(&rt).is_err());
    check(&rt, "the faults", net.faults() == 2);
}

// A call that came before the net was told its address again is taken afterwards, by another
// thread. At another address it listens alone.
#[test]
fn a_net_goes_on_listening(rt: HostRuntime) {
    let address = free_address(&rt);
    let mut net = TcpNet::new(&rt);
    let mut there = TcpNet::new(&rt);
    net.listen(address.as_str()).expect(&rt, "a listener");
    let mut caller = there.connect(&rt, address.as_str()).expect(&rt, "a link");
    net.listen(address.as_str()).expect(&rt, "the listener");
    let (called, ()) = join(&rt, || net.accept(&rt), || says(&rt, &mut caller, b"hi"));
    let mut called = called.expect(&rt, "a link");
    hears(&rt, &mut called, 2);
    let other = free_address(&rt);
    net.listen(other.as_str()).expect(&rt, "a listener");
    let answer = there.connect(&rt, address.as_str());
    check(&rt, "nobody at the first address", answer.is_err());
    check(&rt, "the faults", net.faults() == 0);
}
