use crate::checks::{check, hears};
use crate::real::nets::{connected, free_address, take_back_both};
use sporc_outside::{Counted, Dial, Link, Links, Listen, write_all};
use sporc_real::TcpNet;
use std::net::{Net, TcpListener, TcpStream};
use std::process::Abort;
use std::rt::Clock;
use std::sync::Wait;
use std::time::Duration;

// A read that waits too long fails, and so does each call on a link that was shut.
fn gives_up<L: Link>(rt: &impl Abort, link: &mut L) {
    let mut buffer = [0u8; 4];
    check(rt, "a silent peer", link.read(&mut buffer).is_err());
    check(rt, "the fault", link.faults() == 1);
    link.shut();
    check(rt, "a read", link.read(&mut buffer).is_err());
    check(rt, "a write", link.write(b"x").is_err());
    check(rt, "the faults", link.faults() == 3);
}

// A peer that takes nothing: the system takes bytes for it up to its own limit.
fn fills<L: Link>(rt: &impl Abort, link: &mut L) {
    let bytes = [0u8; 1024];
    let mut answer = Ok(0);
    for _ in 0..100_000 {
        answer = link.write(&bytes);
        if answer.is_err() {
            break;
        }
    }
    check(rt, "a peer that takes nothing", answer.is_err());
}

// The honest peer says something before the silent one is given up, and is heard behind that.
fn tells_apart<L: Link>(rt: &impl Abort, with_silent: &mut L, honest: &mut L, with_honest: &mut L) {
    check(rt, "a write", write_all(honest, b"hi").is_ok());
    gives_up(rt, with_silent);
    hears(rt, with_honest, 2);
    fills(rt, with_honest);
}

// Two connections, one to a silent peer and one to an honest one.
fn has_two_peers<R, N>(rt: &R, net: &mut TcpNet<N>, address: &str)
where
    R: Abort + Wait,
    N: Net<Stream = TcpStream, Listener = TcpListener> + Clock + Drop,
{
    let (silent, mut with_silent) = connected(rt, net, address);
    let (mut honest, mut with_honest) = connected(rt, net, address);
    tells_apart(rt, &mut with_silent, &mut honest, &mut with_honest);
    take_back_both(net, silent, with_silent);
    take_back_both(net, honest, with_honest);
}

#[test]
fn silent_peers_are_given_up_and_others_are_not(rt: HostRuntime) {
    let address = free_address(&rt);
    let mut net = TcpNet::with_limit(&rt, Duration::from_millis(50));
    net.listen(address.as_str()).expect(&rt, "a listener");
    has_two_peers(&rt, &mut net, address.as_str());
    check(&rt, "the faults of links", net.link_faults() == 4);
    check(&rt, "the faults of the net", net.faults() == 0);
}

// Whether one of many calls that nobody takes is given up: the system answers the first ones for
// the listener.
fn is_given_up<N: Dial>(rt: &impl Wait, net: &mut N, address: &str) -> bool {
    for _ in 0..1000 {
        match net.connect(rt, address) {
            Ok(link) => net.take_back(link),
            Err(_) => return true,
        }
    }
    false
}

#[test]
fn a_connection_that_is_not_made_in_time_is_given_up(rt: HostRuntime) {
    let address = free_address(&rt);
    let mut net = TcpNet::with_limit(&rt, Duration::from_millis(50));
    net.listen(address.as_str()).expect(&rt, "a listener");
    let is_given_up = is_given_up(&rt, &mut net, address.as_str());
    check(&rt, "a call that nobody takes", is_given_up);
    check(&rt, "the fault", net.faults() == 1);
}
