//! Evidence of forks: summaries of clients that a server lied to, and files that are no evidence.

use crate::checks::{check, check_answer};
use crate::room::{ABC, Room};
use crate::scene::{no_calls, signer};
use sporc_bytes::Out;
use sporc_entry::write_genesis;
use sporc_evidence::{Judged, judge, read_summary, summarize};
use sporc_hash::{Digest32, Verdict, compare, genesis_hash};
use sporc_member::Device;
use sporc_samples::Cast;
use std::alloc::Global;
use std::process::Abort;

// Members 1 and 2 hold "abc". Then each gets the entry that it made itself, and not the other's.
const FORKED: &str = "
1 insert 3 d -> event 4
2 insert 3 e -> event 2
1 submit -> entry
2 submit -> entry
1 give 2 2 -> event 6
2 give 2 3 -> event 4
";

// A file that is laid out by hand: its fields, the values of its chain, each a byte that stands 32
// times or, for 0, the value of the genesis, and whose key signs it.
#[derive(Clone, Copy)]
struct Row {
    name: &'static str,
    format: &'static [u8],
    document: u8,
    author: u16,
    device: u8,
    count: u32,
    values: &'static [u8],
    signer: u16,
    answer: &'static str,
}

const GOOD: Row = Row {
    name: "good",
    format: b"SPE1",
    document: 7,
    author: 1,
    device: 0,
    count: 1,
    values: &[0, 5],
    signer: 1,
    answer: "evidence",
};

const ROWS: [Row; 12] = [
    GOOD,
    Row {
        name: "no entries",
        count: 0,
        values: &[0],
        ..GOOD
    },
    Row {
        name: "format",
        format: b"SPE2",
        answer: "Malformed(0)",
        ..GOOD
    },
    Row {
        name: "too many entries",
        count: 16_385,
        answer: "Malformed(23)",
        ..GOOD
    },
    Row {
        name: "fewer values",
        count: 16_384,
        answer: "Malformed(2427)",
        ..GOOD
    },
    Row {
        name: "more values",
        count: 0,
        answer: "Malformed(63)",
        ..GOOD
    },
    Row {
        name: "document",
        document: 8,
        answer: "WrongDocument",
        ..GOOD
    },
    Row {
        name: "genesis",
        values: &[4, 5],
        answer: "WrongGenesis",
        ..GOOD
    },
    Row {
        name: "a joiner",
        author: 9,
        answer: "UnknownSigner",
        ..GOOD
    },
    Row {
        name: "a further device",
        device: 1,
        answer: "UnknownSigner",
        ..GOOD
    },
    Row {
        name: "another's key",
        signer: 2,
        answer: "BadSignature",
        ..GOOD
    },
    Row {
        name: "another author",
        author: 2,
        answer: "BadSignature",
        ..GOOD
    },
];

// Two lists that part after no entry and have one last value.
const LEFT: Row = Row {
    count: 2,
    values: &[0, 5, 9],
    ..GOOD
};

const RIGHT: Row = Row {
    count: 2,
    values: &[0, 6, 9],
    author: 2,
    signer: 2,
    ..GOOD
};

// Where the fields of the good file begin, the signature's length and its bytes among them.
const STARTS: [usize; 9] = [0, 4, 20, 22, 23, 27, 59, 91, 95];

// The field that is cut in the first `len` bytes.
fn cut_field(len: usize) -> usize {
    let mut start = 0;
    for at in &STARTS {
        if *at <= len {
            start = *at;
        }
    }
    start
}

// The first value of the chain of the sample document.
fn first_value(rt: &impl Abort, alloc: Global, cast: &Cast) -> Digest32 {
    let genesis = cast.genesis(alloc).expect(rt, "a genesis");
    let bytes = write_genesis(alloc, &genesis).expect(rt, "memory");
    genesis_hash(bytes.as_slice())
}

// Appends the fields of a row, up to the signature.
fn put_fields(rt: &impl Abort, out: &mut Out, first: &Digest32, row: &Row) {
    out.put_bytes(row.format).expect(rt, "memory");
    out.put_bytes(&[row.document; 16]).expect(rt, "memory");
    out.put_u16(row.author).expect(rt, "memory");
    out.put_u8(row.device).expect(rt, "memory");
    out.put_u32(row.count).expect(rt, "memory");
    for byte in row.values {
        let value = if *byte == 0 { *first } else { [*byte; 32] };
        out.put_bytes(&value).expect(rt, "memory");
    }
}

// The file of a row, signed.
fn file(rt: &impl Abort, alloc: Global, cast: &Cast, row: &Row) -> Vec<u8> {
    let first = first_value(rt, alloc, cast);
    let mut message = Out::new(alloc);
    message.put_u8(6).expect(rt, "memory");
    put_fields(rt, &mut message, &first, row);
    let message = message.into_bytes();
    let member = cast.member(row.signer).expect(rt, "a member");
    let signature = member
        .sign(alloc, 3, message.as_slice())
        .expect(rt, "memory");
    let mut out = Out::new(alloc);
    put_fields(rt, &mut out, &first, row);
    let len = u32::try_from(signature.len()).expect(rt, "a length");
    out.put_u32(len).expect(rt, "memory");
    out.put_bytes(signature.as_slice()).expect(rt, "memory");
    out.into_bytes()
}

// What reading a file answers.
fn answer(rt: &impl Abort, alloc: Global, cast: &Cast, bytes: &[u8]) -> String {
    let genesis = cast.genesis(alloc).expect(rt, "a genesis");
    match read_summary(alloc, bytes, &genesis) {
        Ok(_) => format!(in alloc; "evidence").expect(rt, "memory"),
        Err(fault) => format!(in alloc; "{fault:?}").expect(rt, "memory"),
    }
}

// A file with a byte behind its end, and cut at each byte.
fn cuts(rt: &impl Abort, alloc: Global, cast: &Cast, good: &mut Vec<u8>) {
    good.push(0).expect(rt, "memory");
    let found = answer(rt, alloc, cast, good.as_slice());
    check_answer(rt, "a byte more", found.as_str(), "Malformed(2443)");
    let _more = good.pop();
    for _ in 0..good.len() {
        let _last = good.pop();
        let wanted = told_field(rt, alloc, good.len());
        let found = answer(rt, alloc, cast, good.as_slice());
        check_answer(rt, "cut", found.as_str(), wanted.as_str());
    }
}

// What is told of the good file's first `len` bytes.
fn told_field(rt: &impl Abort, alloc: Global, len: usize) -> String {
    let at = cut_field(len);
    format!(in alloc; "Malformed({at})").expect(rt, "memory")
}

// Files with one bit turned: each bit of what stands before the values, and one of the last value.
fn bits(rt: &impl Abort, alloc: Global, cast: &Cast, good: &mut Vec<u8>) {
    for at in 0..27 {
        for bit in 0..8u8 {
            turn(good, at, bit);
            let found = answer(rt, alloc, cast, good.as_slice());
            check(rt, "a bit of the head", found.as_str() != "evidence");
            turn(good, at, bit);
        }
    }
    turn(good, 90, 0);
    let found = answer(rt, alloc, cast, good.as_slice());
    check_answer(rt, "a bit of a value", found.as_str(), "BadSignature");
}

// Turns a bit of a byte.
fn turn(bytes: &mut Vec<u8>, at: usize, bit: u8) {
    if let Some(byte) = bytes.get_mut(at) {
        *byte ^= 1u8.wrapping_shl(u32::from(bit));
    }
}

#[test]
fn files_are_evidence(rt: HostRuntime) {
    let alloc = rt.alloc();
    let cast = Cast::new(alloc).expect(&rt, "a cast");
    for row in &ROWS {
        let bytes = file(&rt, alloc, &cast, row);
        let found = answer(&rt, alloc, &cast, bytes.as_slice());
        check_answer(&rt, row.name, found.as_str(), row.answer);
    }
    let mut good = file(&rt, alloc, &cast, &GOOD);
    bits(&rt, alloc, &cast, &mut good);
    let mut good = file(&rt, alloc, &cast, &GOOD);
    cuts(&rt, alloc, &cast, &mut good);
}

// The judgment on two files that are evidence.
fn judgment(rt: &impl Abort, alloc: Global, cast: &Cast, a: &[u8], b: &[u8]) -> Judged {
    let genesis = cast.genesis(alloc).expect(rt, "a genesis");
    let a = read_summary(alloc, a, &genesis).ok().expect(rt, "evidence");
    let b = read_summary(alloc, b, &genesis).ok().expect(rt, "evidence");
    judge(&a, &b)
}

// The summary of a member's client.
fn summary(rt: &impl Abort, alloc: Global, room: &mut Room, member: u16) -> Vec<u8> {
    let mut signer = signer(rt, alloc, Device::first(member), no_calls(alloc));
    let client = room.client(rt, u32::from(member));
    summarize(alloc, client.line(), member, 0, &mut signer, &[9; 32])
        .ok()
        .expect(rt, "a summary")
}

#[test]
fn clients_show_a_fork(rt: HostRuntime) {
    let alloc = rt.alloc();
    let cast = Cast::new(alloc).expect(&rt, "a cast");
    let mut room = Room::new(&rt, alloc, &cast, 2);
    let empty = summary(&rt, alloc, &mut room, 1);
    room.tries(&rt, alloc, ABC);
    let short = summary(&rt, alloc, &mut room, 1);
    room.tries(&rt, alloc, FORKED);
    let one = summary(&rt, alloc, &mut room, 1);
    let two = summary(&rt, alloc, &mut room, 2);
    let forked = judgment(&rt, alloc, &cast, one.as_slice(), two.as_slice());
    check(
        &rt,
        "forked",
        matches!(forked, Judged::Forked { after: 1, .. }),
    );
    let longer = judgment(&rt, alloc, &cast, short.as_slice(), empty.as_slice());
    check(&rt, "longer", longer == Judged::Consistent(Verdict::Longer));
    let prefix = judgment(&rt, alloc, &cast, short.as_slice(), two.as_slice());
    check(&rt, "prefix", prefix == Judged::Consistent(Verdict::Prefix));
    let same = judgment(&rt, alloc, &cast, one.as_slice(), one.as_slice());
    check(&rt, "same", same == Judged::Consistent(Verdict::Same));
}

// Lists that no chain has: two founders signed them, and they meet again.
#[test]
fn forged_lists_part(rt: HostRuntime) {
    let alloc = rt.alloc();
    let cast = Cast::new(alloc).expect(&rt, "a cast");
    let left = file(&rt, alloc, &cast, &LEFT);
    let right = file(&rt, alloc, &cast, &RIGHT);
    let forked = judgment(&rt, alloc, &cast, left.as_slice(), right.as_slice());
    check(
        &rt,
        "forked",
        matches!(forked, Judged::Forked { after: 0, .. }),
    );
    let halves = compare(&[[0; 32], [5; 32], [9; 32]], &[[0; 32], [6; 32], [9; 32]]);
    check(&rt, "compare sees nothing", halves == Verdict::Same);
}
