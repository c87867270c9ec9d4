ghost use Rattle.std.specs.Prelude.{◌≡◌, ◌+◌, ◌-◌, ◌<◌, ◌^◌, [], ◌∷◌, ◌++◌, MatchBool};
ghost use Rattle.std.specs.Thread.{IsSync};
ghost use Rattle.sporc_turn.specs.Passes.{IsPassOf, IsSameTurn, known_of, value_of};

use crate::lock::tally::Tally;
use sporc_turn::{Held, Pass, Turn};
use std::alloc::Global;
use std::process::Abort;
use std::sync::Wait;
use std::thread::{Threads, join};

/// Adds a number to the value that is held.
pub fn add_number(held: &mut Held<Tally>, number: u32) -> bool
    ensures turn { IsSameTurn held.old held.new }
    ensures log { MatchBool result
        ((value_of held.new).numbers.items ≡ (value_of held.old).numbers.items ++ number ∷ [])
        ((value_of held.new).numbers.items ≡ (value_of held.old).numbers.items) }
{
    held.value().add(number)
}

// One turn, in which the pass adds its number.
fn once<R: Wait>(rt: &R, turn: &Turn<Tally>, pass: Pass<u32>) -> Pass<u32>
    requires { IsPassOf turn.now pass }
    ensures lock { IsPassOf turn.now result }
    ensures number { (known_of result).number ≡ (known_of pass).number }
    ensures splits { (known_of result).splits ≡ (known_of pass).splits }
{
    let number = pass.number();
    match turn.take(rt, pass) {
        Ok(mut held) => {
            let _ = add_number(&mut held, number);
            turn.give(held)
        }
        Err((pass, _)) => pass,
    }
}

fn rounds_of<R: Wait>(rt: &R, turn: &Turn<Tally>, pass: Pass<u32>, rounds: u32) -> Pass<u32>
    requires { IsPassOf turn.now pass }
    ensures lock { IsPassOf turn.now result }
    ensures number { (known_of result).number ≡ (known_of pass).number }
{
    let mut mine = pass;
    'rounds: for _ in 0..rounds {
        mine = once(rt, turn, mine);
    }
    mine
}

// Number 0 takes turns in a thread of its own, and so does each of the others, which are split from
// it and joined back.
fn crowd<R: Threads + Wait + Sync>(
    rt: &R,
    turn: &Turn<Tally>,
    first: Pass<u32>,
    others: u32,
    rounds: u32,
) -> Pass<u32>
    requires lock { IsPassOf turn.now first }
    requires first { (known_of first).number ≡ 0 }
    requires limit { (known_of first).splits + others < 2 ^ 32 }
    ensures lock { IsPassOf turn.now result }
    ensures first { (known_of result).number ≡ 0 }
{
    if others == 0 {
        return rounds_of(rt, turn, first, rounds);
    }
    let (first, other) = match turn.split(first) {
        Ok(both) => both,
        Err(_) => unreachable!(),
    };
    let (first, other) = join(
        rt,
        move || -> Pass<u32>
            requires { IsSync R.row × IsPassOf turn.now first × ((known_of first).number ≡ 0)
                × ((known_of first).splits + (others - 1) < 2 ^ 32) × (0 < others) }
            ensures { IsPassOf turn.entry.now result × ((known_of result).number ≡ 0) }
        { crowd(rt, turn, first, others - 1, rounds) },
        move || -> Pass<u32>
            requires { IsPassOf turn.now other }
            ensures { IsPassOf turn.entry.now result
                × ((known_of result).number ≡ (known_of other).number) }
        { rounds_of(rt, turn, other, rounds) },
    );
    turn.join(first, other)
}

/// What so many threads add, each so many times.
pub fn tally_of<R: Abort + Threads + Wait + Sync>(
    rt: &R,
    alloc: Global,
    threads: u32,
    rounds: u32,
) -> Tally {
    let Ok((turn, first)) = Turn::open(alloc, Tally::new(alloc)) else {
        panic!(rt; "memory");
    };
    let first = crowd(rt, &turn, first, threads.saturating_sub(1), rounds);
    turn.close(first).ok().expect(rt, "the tally")
}

/// A lock with two passes.
pub fn opened(rt: &impl Abort, alloc: Global) -> (Turn<Tally>, Pass<u32>, Pass<u32>)
    ensures lock { IsPassOf result.0 result.1 × IsPassOf result.0 result.2 }
    ensures numbers { ((known_of result.1).number ≡ 0) × ((known_of result.2).number ≡ 1) }
{
    let Ok((turn, first)) = Turn::open(alloc, Tally::new(alloc)) else {
        panic!(rt; "memory");
    };
    let Ok((first, second)) = turn.split(first) else {
        unreachable!()
    };
    (turn, first, second)
}
