//! The ring files of members 3 and 7, worked by hand, and what is read of them.

ghost use Rattle.sporc_keys.specs.RingFile.{IsRingFile};

use crate::bytes::spelled;
use crate::checks::{check_at, check_same};
use sporc_base::is_same;
use sporc_keys::{
    PairKey, RingFile, RingFileFault, read_ring_file, ring_of_member, write_ring_file,
};
use std::alloc::Global;
use std::process::Abort;

// A founder's: the format, the member, the key of epoch 0 behind a 1, the number of shared keys,
// and those with 3 and 7.
const FILE: &str =
    "5350523100030133333333333333333333333333333333333333333333333333333333333333330002000344\
        4444444444444444444444444444444444444444444444444444444444444400075555555555555555555555\
        555555555555555555555555555555555555555555";

// A joiner's, which shares no keys.
const JOINER: &str = "535052310007000000";

const PAIRS: [PairKey; 2] = [
    PairKey {
        member: 3,
        key: [0x44; 32],
    },
    PairKey {
        member: 7,
        key: [0x55; 32],
    },
];

fn is_pair(pair: &PairKey, expected: &PairKey) -> bool {
    pair.member == expected.member && is_same(&pair.key, &expected.key)
}

fn are_the_pairs(pairs: &[PairKey]) -> bool {
    match pairs {
        [one, other] => is_pair(one, &PAIRS[0]) && is_pair(other, &PAIRS[1]),
        _ => false,
    }
}

fn is_founders(ring: &RingFile) -> bool {
    ring.member == 3 && ring.epoch_key == Some([0x33; 32]) && are_the_pairs(ring.pairs.as_slice())
}

fn is_joiners(ring: &RingFile) -> bool {
    ring.member == 7 && ring.epoch_key.is_none() && ring.pairs.as_slice().is_empty()
}

// What is read of a file is written again.
fn is_written_again(rt: &impl Abort, alloc: Global, file: &[u8], ring: &RingFile)
    requires { IsRingFile ring.now }
{
    let written = write_ring_file(alloc, ring).expect(rt, "memory");
    check_same(rt, "written again", written.as_slice(), file);
}

// Whether it is the ring of this member, which is spelled out.
fn is_ring_of(ring: &RingFile, member: u16) -> bool {
    match member {
        3 => is_founders(ring),
        _ => is_joiners(ring),
    }
}

fn is_found(found: Result<RingFile, RingFileFault>, member: u16) -> bool {
    match found {
        Ok(ring) => is_ring_of(&ring, member),
        Err(_) => false,
    }
}

fn is_read(rt: &impl Abort, alloc: Global, file: &str, member: u16) {
    let file = spelled(rt, alloc, file);
    is_found_for(rt, alloc, file.as_slice(), member);
    is_a_ring(rt, alloc, file.as_slice(), member);
}

fn is_found_for(rt: &impl Abort, alloc: Global, file: &[u8], member: u16) {
    let found = is_found(ring_of_member(alloc, file, member), member);
    check_at(rt, "ring of member", u64::from(member), found);
}

fn is_a_ring(rt: &impl Abort, alloc: Global, file: &[u8], member: u16) {
    let ring = read_ring_file(alloc, file).expect(rt, "a ring");
    check_at(rt, "ring", u64::from(member), is_ring_of(&ring, member));
    is_written_again(rt, alloc, file, &ring);
}

#[test]
fn rings_are_read_and_written(rt: HostRuntime) {
    is_read(&rt, rt.alloc(), FILE, 3);
    is_read(&rt, rt.alloc(), JOINER, 7);
}
