ghost use Rattle.std.specs.Prelude.{◌≡◌};
ghost use Rattle.sporc_turn.specs.Passes.{IsPassOf, known_of};

use crate::checks::{check, check_at};
use crate::lock::tally::Tally;
use crate::lock::work::{add_number, opened, tally_of};
use sporc_turn::{Pass, Turn};
use std::process::Abort;
use std::sync::Wait;

// How often each thread adds its number.
const ROUNDS: u32 = 1000;

// How many threads there are.
const THREADS: [u32; 2] = [2, 8];

// Each of so many threads added its number as often.
fn have_added(rt: &impl Abort, tally: &Tally, threads: u32) {
    let all = threads as usize * ROUNDS as usize;
    check(rt, "how many numbers", tally.len() == all);
    for number in 0..threads {
        let has_all = tally.count(number) == ROUNDS as usize;
        check_at(rt, "of number", u64::from(number), has_all);
    }
}

#[test]
fn each_thread_adds_as_often(rt: HostRuntime) {
    for threads in &THREADS {
        let tally = tally_of(&rt, rt.alloc(), *threads, ROUNDS);
        have_added(&rt, &tally, *threads);
    }
}

// A lock stays open while its second pass is away, and closes when that is joined back.
fn stays_open<R: Abort + Wait>(rt: &R, turn: Turn<Tally>, first: Pass<u32>, second: Pass<u32>)
    requires lock { IsPassOf turn first × IsPassOf turn second }
    requires numbers { ((known_of first).number ≡ 0) × ((known_of second).number ≡ 1) }
{
    check(rt, "away from the first", first.out() == 1);
    check(rt, "away from the second", second.out() == 0);
    let Ok(held) = turn.take(rt, second) else {
        panic!(rt; "worn");
    };
    let Err((turn, first, away)) = turn.close(first) else {
        panic!(rt; "closed while a pass was away");
    };
    check(rt, "away at the close", away.out == 1);
    let first = turn.join(first, turn.give(held));
    check(rt, "the close", turn.close(first).is_ok());
}

#[test]
fn a_lock_whose_pass_is_away_stays_open(rt: HostRuntime) {
    let (turn, first, second) = opened(&rt, rt.alloc());
    stays_open(&rt, turn, first, second);
}

// News of a lock are told to its first pass while the second holds the value.
fn are_told<R: Abort + Wait>(rt: &R, turn: &Turn<Tally>, first: Pass<u32>, second: Pass<u32>)
    requires lock { IsPassOf turn.now first × IsPassOf turn.now second }
    requires numbers { ((known_of first).number ≡ 0) × ((known_of second).number ≡ 1) }
{
    let Ok(mut held) = turn.take(rt, second) else {
        panic!(rt; "worn");
    };
    let (before, first) = turn.news(first);
    check(rt, "memory", add_number(&mut held, 1));
    let second = turn.give(held);
    let (after, _) = turn.news(first);
    check(rt, "the news before", before == 0);
    check(rt, "the second's number", second.number() == 1);
    check(rt, "the news after", after == 1);
}

#[test]
fn news_wait_for_nobody(rt: HostRuntime) {
    let (turn, first, second) = opened(&rt, rt.alloc());
    are_told(&rt, &turn, first, second);
}
