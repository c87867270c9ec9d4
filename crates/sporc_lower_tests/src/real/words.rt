use crate::checks::check;
use sporc_outside::{Chance, Counted};
use sporc_real::RandomWords;
use std::process::Abort;

// Marks the places at which these words differ.
fn mark(differs: &mut [bool; 32], one: &[u8; 32], other: &[u8; 32]) {
    for ((differs, a), b) in differs.iter_mut().zip(one).zip(other) {
        if a != b {
            *differs = true;
        }
    }
}

// Whether each byte of some of the next 64 words differs from that of the first.
fn all_bytes_vary<C: Chance>(rt: &impl Abort, words: &mut C) -> bool {
    let first = words.fill32().expect(rt, "a word");
    let mut differs = [false; 32];
    for _ in 0..64 {
        let word = words.fill32().expect(rt, "a word");
        mark(&mut differs, &first, &word);
    }
    differs.iter().all(|varies| *varies)
}

// That a byte is alike in all of them has a chance of one in 2^512.
#[test]
fn each_byte_of_random_words_varies(rt: HostRuntime) {
    let mut words = RandomWords::new(&rt);
    let vary = all_bytes_vary(&rt, &mut words);
    check(&rt, "each byte", vary);
    check(&rt, "the faults", words.faults() == 0);
}
