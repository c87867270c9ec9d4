//! Two passes of one client.

ghost use Rattle.std.specs.Prelude.{◌≡◌, ◌≢◌, ◌+◌, ◌<◌, ◌^◌};
ghost use Rattle.sporc_turn.specs.Passes.{known_of};
ghost use Rattle.sporc_shared.specs.Passes.{IsPassOf};

use crate::checks::{check, check_text};
use crate::shared::scene::{BLANK, one_entry, opened};
use crate::shared::staging::closed;
use sporc_client::{Client, Submitted};
use sporc_delta::Delta;
use sporc_outside::LeafDisk;
use sporc_samples::{Cast, History};
use sporc_shared::{Answered, Front, Pass, SharedClient};
use std::alloc::Global;
use std::process::Abort;
use std::sync::Wait;

// Inserts a text at the end of that of a front, of this length. How many events there are then.
fn append<R: Abort + Wait, D: LeafDisk>(
    rt: &R,
    alloc: Global,
    shared: &SharedClient<D>,
    pass: Pass,
    seen: Front,
    len: u64,
    text: &str,
) -> (u64, Pass)
    requires { IsPassOf shared.now pass }
    ensures lock { IsPassOf shared.now result.1 }
    ensures number { (known_of result.1).number ≡ (known_of pass).number }
{
    let delta = inserted(rt, alloc, len, text);
    match shared.edit(rt, pass, seen, &delta) {
        Ok(
            Answered {
                answer,
                front,
                pass,
            },
        ) => {
            let events = answer.expect(rt, "an event");
            check(rt, "the front", events == front.events);
            (events, pass)
        }
        Err(_) => panic!(rt; "worn"),
    }
}

// The delta that inserts a text at the end of one of this length, at most 100.
fn inserted(rt: &impl Abort, alloc: Global, len: u64, text: &str) -> Delta {
    assert!(rt; len <= 100 && text.len() <= 100, "too long");
    Delta::insert_at(alloc, len, len, text).expect(rt, "memory")
}

// Accepts the first entry of a history. How many events there are then.
fn accept_first<R: Abort + Wait, D: LeafDisk>(
    rt: &R,
    shared: &SharedClient<D>,
    pass: Pass,
    sample: &History,
) -> (u64, Pass)
    requires { IsPassOf shared.now pass }
    ensures lock { IsPassOf shared.now result.1 }
    ensures number { (known_of result.1).number ≡ (known_of pass).number }
{
    let entry = sample.entries().first().expect(rt, "an entry");
    match shared.accept(rt, pass, 1, entry.as_slice()) {
        Ok(Answered { answer, pass, .. }) => (answer.expect(rt, "an event"), pass),
        Err(_) => panic!(rt; "worn"),
    }
}

// How many entries there are, how many items are pending, and how long the shown text is.
fn seen<R: Abort + Wait, D: LeafDisk>(
    rt: &R,
    shared: &SharedClient<D>,
    pass: Pass,
) -> ((u32, u32, u64), Pass)
    requires { IsPassOf shared.now pass }
    ensures lock { IsPassOf shared.now result.1 }
    ensures number { (known_of result.1).number ≡ (known_of pass).number }
{
    match shared.look(rt, pass) {
        Ok(Answered { answer, pass, .. }) => ((answer.at, answer.pending, answer.len), pass),
        Err(_) => panic!(rt; "worn"),
    }
}

// Whether a submission gives an entry.
fn submitted<R: Abort + Wait, D: LeafDisk>(
    rt: &R,
    shared: &SharedClient<D>,
    pass: Pass,
) -> (bool, Pass)
    requires { IsPassOf shared.now pass }
    ensures lock { IsPassOf shared.now result.1 }
    ensures number { (known_of result.1).number ≡ (known_of pass).number }
{
    match shared.submit(rt, pass, &[5; 64]) {
        Ok(Answered { answer, pass, .. }) => {
            let submitted = answer.expect(rt, "a submission");
            (matches!(&submitted, Submitted::Entry(_)), pass)
        }
        Err(_) => panic!(rt; "worn"),
    }
}

// The first pass edits at the start and behind front 1, and the second accepts an entry between the
// two.
fn edit_and_accept<R: Abort + Wait, D: LeafDisk>(
    rt: &R,
    alloc: Global,
    shared: &SharedClient<D>,
    first: Pass,
    second: Pass,
    sample: &History,
) -> Pass
    requires lock { IsPassOf shared.now first × IsPassOf shared.now second }
    requires first { (known_of first).number ≡ 0 }
    requires other { (known_of second).number ≢ 0 }
    ensures lock { IsPassOf shared.now result }
    ensures first { (known_of result).number ≡ 0 }
{
    let (one, first) = append(rt, alloc, shared, first, Front { events: 0 }, 0, "x");
    let (two, second) = accept_first(rt, shared, second, sample);
    let (three, first) = append(rt, alloc, shared, first, Front { events: 1 }, 1, "y");
    check(rt, "the first's edit", one == 1);
    check(rt, "the second's accept", two == 2);
    check(rt, "the first's other edit", three == 3);
    let ((at, pending, len), first) = seen(rt, shared, first);
    check(rt, "the entries", at == 1);
    check(rt, "the pending items", pending == 2);
    check(rt, "the length", len == 4);
    let (is_entry, first) = submitted(rt, shared, first);
    check(rt, "an entry", is_entry);
    shared.join(first, second)
}

// Splits a pass, and closes the client after both were used.
fn passed_by_two<R: Abort + Wait, D: LeafDisk + Drop>(
    rt: &R,
    alloc: Global,
    shared: SharedClient<D>,
    first: Pass,
    sample: &History,
) -> String
    requires lock { IsPassOf shared first }
    requires first { (known_of first).number ≡ 0 }
    requires limit { (known_of first).splits + 1 < 2 ^ 32 }
{
    let Ok((first, second)) = shared.split(first) else {
        unreachable!()
    };
    let first = edit_and_accept(rt, alloc, &shared, first, second, sample);
    let outcome = closed(rt, alloc, shared, first, Ok(()));
    outcome.text
}

// Shares a client between two passes.
fn shared_by_two<R: Abort + Wait, D: LeafDisk + Drop>(
    rt: &R,
    alloc: Global,
    client: Box<Client<D>>,
    sample: &History,
) -> String {
    match SharedClient::open(alloc, Box::into_inner(client)) {
        Ok((shared, first)) => passed_by_two(rt, alloc, shared, first, sample),
        Err(_) => panic!(rt; "memory"),
    }
}

fn edited_by_two<R: Abort + Wait>(rt: &R, alloc: Global, cast: &Cast) -> String {
    let sample = one_entry(rt, alloc, cast, b"ab");
    let client = opened(rt, alloc, cast, 4, BLANK);
    shared_by_two(rt, alloc, client, &sample)
}

#[test]
fn an_edit_stands_right_of_what_came_left_of_it(rt: HostRuntime) {
    let cast = Cast::new(rt.alloc()).expect(&rt, "the cast");
    let shown = edited_by_two(&rt, rt.alloc(), &cast);
    check_text(&rt, shown.as_str(), "abxy");
}
