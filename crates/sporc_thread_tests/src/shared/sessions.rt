//! Sessions with an honest order.

use crate::checks::{check, check_end, check_text};
use crate::shared::staging::{Answer, Deed, FRESH, Outcome, Start, TWO_ROUNDS, Wanted, written};
use sporc_samples::Cast;
use sporc_script::MAX_EDITORS;
use sporc_session::SessionFault;
use std::alloc::Global;
use std::process::Abort;
use std::sync::Wait;
use std::thread::Threads;

const NO_ROUNDS: Wanted = Wanted {
    rounds: 0,
    until: 0,
};

const NO_TARGET: Wanted = Wanted {
    rounds: 2,
    until: 0,
};

const EDITORS: u32 = MAX_EDITORS as u32;

const LINES: u64 = 100;

// An editor writes a word.
const HELLO: &str = "insert 0 \"hello\"\n";

// An admin's lines. The second one counts more characters than there are, and the third is beyond
// the text's end.
const EACH_LINE: &str =
    "insert 0 \"hello\"\nremove 1 9\ninsert 9 \"i\"\nremove 0 1\nrole 2 reader\ndrop 5\n";

const COMMITTED: [Deed; 3] = [Deed::Edit(1, 5), Deed::Submit(0), Deed::Accept(0, 1)];

const PENDING: [Deed; 1] = [Deed::Edit(1, 5)];

const EACH_DEED: [Deed; 6] = [
    Deed::Edit(1, 5),
    Deed::Edit(1, 0),
    Deed::Edit(1, 1),
    Deed::Edit(1, 0),
    Deed::Other(1),
    Deed::Other(1),
];

// A member, its one editor's lines, and how long its session goes; and its end, which is well if
// there is no fault, with the text and the journal that it leaves.
type Row = (
    u8,
    &'static str,
    Wanted,
    Option<SessionFault>,
    &'static str,
    &'static [Deed],
);

const ROWS: [Row; 3] = [
    // a line goes to the order and comes back
    (4, HELLO, TWO_ROUNDS, None, "hello", &COMMITTED),
    // with no rounds it stays pending
    (
        4,
        HELLO,
        NO_ROUNDS,
        Some(SessionFault::NotSettled(1, 0)),
        "hello",
        &PENDING,
    ),
    // an admin edits and changes the members
    (
        1,
        EACH_LINE,
        NO_ROUNDS,
        Some(SessionFault::NotSettled(6, 0)),
        "i",
        &EACH_DEED,
    ),
];

// A session left what its row tells.
fn is_left(rt: &impl Abort, outcome: &Outcome, row: &Row) {
    let (_, _, _, fault, text, deeds) = row;
    check_end(rt, outcome.answer.err(), *fault);
    check_text(rt, outcome.text.as_str(), *text);
    check(
        rt,
        "the journal",
        are_same(outcome.deeds.as_slice(), *deeds),
    );
}

fn are_same(one: &[Deed], other: &[Deed]) -> bool {
    one == other
}

// A session as its row tells.
fn goes<R: Abort + Threads + Wait + Sync>(rt: &R, alloc: Global, cast: &Cast, row: &Row) {
    let (member, lines, wanted, ..) = row;
    let start = Start {
        member: *member,
        ..FRESH
    };
    let outcome = written(rt, alloc, cast, start, 1, *lines, *wanted);
    is_left(rt, &outcome, row);
}

// Lines of which number n inserts n characters.
fn longer_and_longer(rt: &impl Abort, alloc: Global) -> String {
    let mut text = String::new(alloc);
    for line in 0..LINES {
        text.push_str("insert 0 \"x").expect(rt, "memory");
        for _ in 0..line {
            text.push('x').expect(rt, "memory");
        }
        text.push_str("\"\n").expect(rt, "memory");
    }
    text
}

// Counts an editor's line. Whether it is the next one.
fn count_line(lines: &mut [u64], by: u32, len: u64) -> bool {
    match lines.get_mut(by as usize) {
        Some(last) => {
            *last = last.saturating_add(1);
            len == *last
        }
        None => false,
    }
}

// Whether each of these editors has all its lines.
fn are_all(lines: &[u64]) -> bool {
    for count in lines {
        if *count != LINES {
            return false;
        }
    }
    true
}

// The lines of each editor stand in a journal once and in order, and no others.
fn each_line_once(rt: &impl Abort, alloc: Global, deeds: &[Deed]) -> bool {
    let mut lines = vec![in alloc; 0u64; MAX_EDITORS + 1].expect(rt, "memory");
    for deed in deeds {
        if let Deed::Edit(by, len) = deed
            && !count_line(lines.as_mut_slice(), *by, *len)
        {
            return false;
        }
    }
    match lines.split_first() {
        Some((receiver, editors)) => *receiver == 0 && are_all(editors),
        None => false,
    }
}

// A session of eight editors leaves a hundred lines of each, which are not all committed.
fn each_editor_writes<R: Abort + Threads + Wait + Sync>(rt: &R, alloc: Global, cast: &Cast) {
    let lines = longer_and_longer(rt, alloc);
    let outcome = written(rt, alloc, cast, FRESH, EDITORS, lines.as_str(), NO_TARGET);
    check(rt, "not settled", is_unsettled(&outcome.answer));
    let is_once = each_line_once(rt, alloc, outcome.deeds.as_slice());
    check(rt, "each line once", is_once);
}

fn is_unsettled(answer: &Answer) -> bool {
    matches!(answer, Err(SessionFault::NotSettled(..)))
}

#[test]
fn lines_go_to_the_order_or_stay_pending(rt: HostRuntime) {
    let cast = Cast::new(rt.alloc()).expect(&rt, "the cast");
    for row in &ROWS {
        goes(&rt, rt.alloc(), &cast, row);
    }
    each_editor_writes(&rt, rt.alloc(), &cast);
}
