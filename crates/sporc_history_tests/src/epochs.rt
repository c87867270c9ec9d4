use crate::checks::{check, check_bytes};
use sporc_entry::{ChangeBody, Wrap, Wraps};
use sporc_epoch::{Pairs, Ring, SealFault, open_previous, open_wrap, seal_change};
use sporc_member::Change;
use std::alloc::Global;
use std::process::Abort;

const DOCUMENT: [u8; 16] = [9; 16];

const REMOVE: Change = Change::Remove { member: 7 };

// SHA-256, by Python's hashlib, of 4, the document, epoch 1 and the key.
const COMMITMENT: [u8; 32] = [
    0x37, 0x0a, 0x6c, 0x0f, 0xee, 0x36, 0xc6, 0xa3, 0x3d, 0xbb, 0xf7, 0xd8, 0x9d, 0xa5, 0xa7, 0x6d,
    0xa0, 0x14, 0x64, 0x2c, 0xbd, 0x7b, 0x11, 0x99, 0x5f, 0xaa, 0xc9, 0xc5, 0xaa, 0x29, 0xf7, 0x1a,
];

// Masked by OpenSSL's ChaCha20, whose nonce of 16 bytes is the block number and then the stream
// number.
const PREVIOUS: [u8; 32] = [
    0x9a, 0xf1, 0x0e, 0x9d, 0x2c, 0xa6, 0x6d, 0xd3, 0x74, 0xcf, 0x18, 0x55, 0x83, 0x11, 0xf7, 0x8c,
    0x6d, 0x48, 0x3c, 0xe0, 0x23, 0x83, 0x61, 0x14, 0x98, 0x59, 0x30, 0x95, 0xfb, 0xab, 0x72, 0x2a,
];

const WRAPS: [Wrap; 2] = [
    Wrap {
        member: 1,
        sealed: [
            0xdd, 0xcc, 0xe5, 0x43, 0x82, 0xfa, 0xe9, 0x3b, 0xca, 0x7a, 0x3d, 0x13, 0x77, 0x71,
            0x5b, 0x24, 0x1e, 0xcf, 0x53, 0xdc, 0x1e, 0xcf, 0x31, 0xb2, 0x06, 0xf6, 0xd7, 0xfc,
            0xbc, 0x4e, 0xa5, 0x22,
        ],
    },
    Wrap {
        member: 4,
        sealed: [
            0x27, 0xd3, 0xd7, 0xc6, 0x5f, 0xb5, 0x95, 0x37, 0x1c, 0x60, 0x0e, 0x39, 0x93, 0xb3,
            0x07, 0x03, 0x36, 0xa1, 0xf7, 0xe5, 0xce, 0x0c, 0x91, 0xd1, 0x20, 0xe5, 0xc3, 0x33,
            0xc7, 0x73, 0x0d, 0x08,
        ],
    },
];

// Pairwise keys, each of one byte 32 times.
fn pairs_of(rt: &impl Abort, alloc: Global, keys: &[(u16, u8)]) -> Pairs {
    let mut pairs = Pairs::new(alloc);
    for (member, byte) in keys {
        let inserted: Result<_, _> = pairs.insert(*member, [*byte; 32]);
        inserted.expect(rt, "memory");
    }
    pairs
}

// A change by member 1, signed by leaf 5, for itself and for member 4.
fn sealed(rt: &impl Abort, alloc: Global, change: &Change, epoch: u8) -> ChangeBody {
    let pairs = pairs_of(rt, alloc, &[(1, 101), (4, 104)]);
    let (old, new) = ([10 + epoch % 100; 32], [11 + epoch % 100; 32]);
    let ended = u32::from(epoch);
    seal_change(
        alloc,
        change,
        &[1, 4],
        &DOCUMENT,
        1,
        5,
        ended,
        &old,
        &new,
        &pairs,
    )
    .expect(rt, "a sealed change")
}

fn check_key(rt: &impl Abort, what: &str, found: Option<[u8; 32]>, wanted: Option<[u8; 32]>) {
    check(rt, what, found == wanted);
}

// Puts two keys of one epoch, one after the other.
fn put_twice(rt: &impl Abort, ring: &mut Ring) {
    ring.reserve().expect(rt, "memory");
    ring.put(3, [7; 32]).expect(rt, "memory");
    ring.put(3, [3; 32]).expect(rt, "memory");
}

fn copy_of_two(rt: &impl Abort, alloc: Global) -> Ring {
    let mut ring = Ring::new(alloc);
    put_twice(rt, &mut ring);
    ring.copy().expect(rt, "memory")
}

// A ring gives the keys that were put.
fn ring_gives_keys(rt: &impl Abort, alloc: Global) {
    let copy = copy_of_two(rt, alloc);
    check_key(rt, "put", copy.key(3).copied(), Some([3; 32]));
    check_key(rt, "not put", copy.key(7).copied(), None);
}

// A sealed change is that of OpenSSL.
fn is_that_of_openssl(rt: &impl Abort, body: &ChangeBody) {
    check(rt, "change", body.change == REMOVE);
    check_bytes(rt, "commitment", &body.commitment, &COMMITMENT);
    check_bytes(rt, "previous", &body.previous, &PREVIOUS);
    check(rt, "wraps", body.wraps.as_slice() == WRAPS.as_slice());
    check_bytes(rt, "opened", &open_previous(body, 1, &[11; 32]), &[10; 32]);
}

// Why a change isn't sealed for these members.
fn seal_fault(alloc: Global, members: &[u16], pairs: &Pairs) -> Option<SealFault> {
    let key = [0; 32];
    seal_change(
        alloc, &REMOVE, members, &DOCUMENT, 1, 5, 0, &key, &key, pairs,
    )
    .err()
}

// The least member without a key is named.
fn least_is_named(rt: &impl Abort, alloc: Global) {
    let pairs = pairs_of(rt, alloc, &[(4, 104)]);
    let fault = seal_fault(alloc, &[7, 4, 3, 5], &pairs);
    check(rt, "least", fault == Some(SealFault::NoPairKey(3)));
}

// Two wraps for member 4, the first of which is good.
fn wraps_twice(rt: &impl Abort, alloc: Global) -> Wraps {
    let again = Wrap {
        member: 4,
        sealed: [0; 32],
    };
    Wraps::copy_of(alloc, &[WRAPS[0], WRAPS[1], again]).expect(rt, "memory")
}

// The first wrap for a member is opened. Then there is no wrap, and then no pairwise key.
fn first_is_opened(rt: &impl Abort, body: &ChangeBody, mine: &Pairs) {
    check_key(rt, "first", open_wrap(body, 1, 5, 4, mine), Some([11; 32]));
    check_key(rt, "no wrap", open_wrap(body, 1, 5, 3, mine), None);
    check_key(rt, "no pairwise key", open_wrap(body, 2, 5, 4, mine), None);
}

fn is_opened(rt: &impl Abort, alloc: Global, body: &ChangeBody) {
    let mine = pairs_of(rt, alloc, &[(1, 104)]);
    first_is_opened(rt, body, &mine);
}

fn change_is_sealed_and_opened(rt: &impl Abort, alloc: Global) {
    let wraps = wraps_twice(rt, alloc);
    let mut body = sealed(rt, alloc, &REMOVE, 0);
    is_that_of_openssl(rt, &body);
    body.wraps = wraps;
    is_opened(rt, alloc, &body);
}

// A ring gives the keys that were put, and changes are sealed and opened.
#[test]
fn keys_are_put_and_sealed(rt: HostRuntime) {
    ring_gives_keys(&rt, rt.alloc());
    least_is_named(&rt, rt.alloc());
    change_is_sealed_and_opened(&rt, rt.alloc());
}
