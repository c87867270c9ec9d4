ghost use Rattle.std.specs.Prelude.{◌≤◌, length};

use crate::checks::{check, check_at};
use sporc_base::is_same;
use sporc_wire::{FrameFault, Frames, ToServer};
use std::alloc::Global;
use std::process::Abort;

const HELLO: [u8; 23] = [
    0, 0, 0, 19, 1, 7, 7, 7, 7, 7, 7, 7, 7, 7, 7, 7, 7, 7, 7, 7, 7, 0, 9,
];

const PULL: [u8; 9] = [0, 0, 0, 5, 3, 0, 1, 0, 2];

const SUBMIT: [u8; 7] = [0, 0, 0, 3, 2, 8, 9];

const ORDERED: [u8; 9] = [0, 0, 0, 5, 1, 0, 0, 0, 8];

const REJECTED: [u8; 10] = [0, 0, 0, 6, 2, 18, 0, 0, 0, 4];

const ENTRIES: [u8; 20] = [0, 0, 0, 16, 3, 0, 0, 0, 3, 2, 0, 0, 0, 2, 8, 9, 0, 0, 0, 0];

const EMPTY: [u8; 5] = [0, 0, 0, 1, 4];

const TO_SERVER: [&[u8]; 3] = [&HELLO, &PULL, &SUBMIT];

const TO_CLIENT: [&[u8]; 4] = [&ORDERED, &REJECTED, &ENTRIES, &EMPTY];

fn is_hello(found: &Option<ToServer>) -> bool {
    match found {
        Some(ToServer::Hello { document, member }) => is_same(document, &[7; 16]) && *member == 9,
        _ => false,
    }
}

fn is_pull(found: &Option<ToServer>) -> bool {
    match found {
        Some(ToServer::Pull { from }) => *from == 65_538,
        _ => false,
    }
}

fn next_is_none(rt: &impl Abort, frames: &mut Frames) -> bool {
    frames.next_to_server().expect(rt, "good frames").is_none()
}

fn next_is_hello(rt: &impl Abort, frames: &mut Frames) -> bool {
    is_hello(&frames.next_to_server().expect(rt, "good frames"))
}

fn next_is_pull(rt: &impl Abort, frames: &mut Frames) -> bool {
    is_pull(&frames.next_to_server().expect(rt, "good frames"))
}

// Feeds bytes one by one, before each of which no message is whole.
fn feed_bytes(rt: &impl Abort, frames: &mut Frames, bytes: &[u8]) {
    for byte in bytes {
        check(rt, "no message yet", next_is_none(rt, frames));
        frames.feed(&[*byte]).expect(rt, "good frames");
    }
}

fn come_byte_by_byte(rt: &impl Abort, frames: &mut Frames) {
    feed_bytes(rt, frames, &HELLO);
    check(rt, "hello", next_is_hello(rt, frames));
    feed_bytes(rt, frames, &PULL);
    check(rt, "pull", next_is_pull(rt, frames));
    check(rt, "no message", next_is_none(rt, frames));
}

const TOO_LONG: FrameFault = FrameFault::TooLong(4_194_305);

fn stays_too_long(frames: &mut Frames) -> bool {
    frames.next_to_server().err() == Some(TOO_LONG)
        && frames.feed(&PULL) == Err(TOO_LONG)
        && frames.next_to_client().err() == Some(TOO_LONG)
}

// A length above the limit stays.
fn is_above_the_limit(rt: &impl Abort, frames: &mut Frames) {
    frames.feed(&PULL).expect(rt, "good frames");
    frames.feed(&[0, 0x40, 0, 1]).expect(rt, "good frames");
    check(rt, "pull", next_is_pull(rt, frames));
    check(rt, "too long", stays_too_long(frames));
}

// A length at the limit is waited for.
fn is_at_the_limit(rt: &impl Abort, frames: &mut Frames) {
    frames.feed(&[0, 0x40, 0, 0, 2]).expect(rt, "good frames");
    check(rt, "no message", next_is_none(rt, frames));
}

fn frames_come_up_to_a_limit(rt: &impl Abort, alloc: Global) {
    come_byte_by_byte(rt, &mut Frames::new(alloc));
    is_above_the_limit(rt, &mut Frames::new(alloc));
    is_at_the_limit(rt, &mut Frames::new(alloc));
}

// The frame of a body.
fn framed(rt: &impl Abort, alloc: Global, body: &[u8]) -> Vec<u8> {
    let len = (body.len() as u64).to_be_bytes();
    let mut frame = Vec::from_slice(alloc, &len[4..]).expect(rt, "memory");
    frame.extend_from_slice(body).expect(rt, "memory");
    frame
}

// Bodies to a server that are no messages, and the place of the field in the body.
const BAD_TO_SERVER: [(&[u8], u64); 8] = [
    (&[], 0),
    (&[0], 0),
    (&[4], 0),
    (&[1, 2, 3], 1),
    (&[1, 7, 7, 7, 7, 7, 7, 7, 7, 7, 7, 7, 7, 7, 7, 7, 7, 0], 17),
    (
        &[1, 7, 7, 7, 7, 7, 7, 7, 7, 7, 7, 7, 7, 7, 7, 7, 7, 0, 1, 0],
        19,
    ),
    (&[3, 0, 0, 0], 1),
    (&[3, 0, 0, 0, 0, 0], 5),
];

// Bodies to a client that are no messages, and the place of the field in the body.
const BAD_TO_CLIENT: [(&[u8], u64); 19] = [
    (&[], 0),
    (&[5], 0),
    (&[1, 0, 0, 0], 1),
    (&[1, 0, 0, 0, 1, 0], 5),
    (&[2], 1),
    (&[2, 0, 0, 0, 0, 0], 1),
    (&[2, 24, 0, 0, 0, 0], 1),
    (&[2, 9, 0, 0], 2),
    (&[2, 9, 0, 0, 0, 1], 2),
    (&[2, 18, 0, 0, 0, 0], 2),
    (&[2, 18, 0, 0, 0, 13], 2),
    (&[2, 23, 0, 0, 0, 1], 2),
    (&[2, 18, 0, 0, 0, 6, 0], 6),
    (&[3, 0, 0, 0, 1, 0], 5),
    (&[3, 0, 0, 0, 1, 17], 5),
    (&[3, 0, 0, 0, 1, 1, 0, 0, 0], 6),
    (&[3, 0, 0, 0, 1, 1, 0, 0, 0, 2, 8], 10),
    (&[3, 0, 0, 0, 1, 1, 0, 0x40, 0, 1, 8], 10),
    (&[4, 0], 1),
];

// Whom messages come to.
#[derive(Clone, Copy)]
enum End {
    Server,
    Client,
}

// Whether a message to this end is handed out.
fn is_handed_out(frames: &mut Frames, end: End) -> Result<bool, FrameFault> {
    match end {
        End::Server => match frames.next_to_server() {
            Ok(message) => Ok(message.is_some()),
            Err(fault) => Err(fault),
        },
        End::Client => match frames.next_to_client() {
            Ok(message) => Ok(message.is_some()),
            Err(fault) => Err(fault),
        },
    }
}

// The fault of this body, after a good message to the same end.
fn fault_behind(
    rt: &impl Abort,
    alloc: Global,
    end: End,
    good: &[u8],
    body: &[u8],
) -> Option<FrameFault> {
    let mut frames = Frames::new(alloc);
    frames.feed(good).expect(rt, "good frames");
    frames
        .feed(framed(rt, alloc, body).as_slice())
        .expect(rt, "good frames");
    is_handed_out(&mut frames, end).expect(rt, "good frames");
    is_handed_out(&mut frames, end).err()
}

// Whether the fault names this place of the body behind 13 bytes.
fn is_bad_at(fault: Option<FrameFault>, place: u64) -> bool {
    fault == Some(FrameFault::BadMessage(place.wrapping_add(13)))
}

// A body that is no message is refused at its field.
fn bad_bodies_are_refused(rt: &impl Abort, alloc: Global) {
    for (body, place) in &BAD_TO_SERVER {
        let fault = fault_behind(rt, alloc, End::Server, &PULL, *body);
        check_at(rt, "to a server, at", *place, is_bad_at(fault, *place));
    }
    for (body, place) in &BAD_TO_CLIENT {
        let fault = fault_behind(rt, alloc, End::Client, &ORDERED, *body);
        check_at(rt, "to a client, at", *place, is_bad_at(fault, *place));
    }
}

// Whether a message is whole once these bytes came.
fn is_whole(rt: &impl Abort, frames: &mut Frames, end: End, bytes: &[u8]) -> bool {
    frames.feed(bytes).expect(rt, "good frames");
    is_handed_out(frames, end).expect(rt, "good frames")
}

// Whether a message is whole once both parts came, and not before.
fn needs_both(rt: &impl Abort, frames: &mut Frames, end: End, prefix: &[u8], rest: &[u8]) -> bool {
    let early = is_whole(rt, frames, end, prefix);
    let whole = is_whole(rt, frames, end, rest);
    whole && !early
}

// Whether nothing is handed out of a prefix of this length, and a message of the whole.
fn is_cut(rt: &impl Abort, alloc: Global, end: End, frame: &[u8], len: usize) -> bool
    requires { len ≤ length frame.now }
{
    let mut frames = Frames::new(alloc);
    let (prefix, rest) = frame.split_at(len);
    needs_both(rt, &mut frames, end, prefix, rest)
}

fn prefixes_of_one_give_nothing(
    rt: &impl Abort,
    alloc: Global,
    end: End,
    what: &str,
    frame: &[u8],
) {
    for len in 0..frame.len() {
        check_at(rt, what, len as u64, is_cut(rt, alloc, end, frame, len));
    }
}

// A prefix of a frame gives nothing.
fn prefixes_give_nothing(rt: &impl Abort, alloc: Global) {
    for frame in &TO_SERVER {
        prefixes_of_one_give_nothing(rt, alloc, End::Server, "to a server, cut at", *frame);
    }
    for frame in &TO_CLIENT {
        prefixes_of_one_give_nothing(rt, alloc, End::Client, "to a client, cut at", *frame);
    }
}

// They come byte by byte, up to a limit.
#[test]
fn frames_are_read(rt: HostRuntime) {
    frames_come_up_to_a_limit(&rt, rt.alloc());
    bad_bodies_are_refused(&rt, rt.alloc());
    prefixes_give_nothing(&rt, rt.alloc());
}
