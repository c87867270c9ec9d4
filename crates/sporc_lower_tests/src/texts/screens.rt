//! Screens of an editor that types ahead.

use crate::checks::check;
use sporc_delta::{Delta, MAX_COUNT, TextSlice};
use sporc_screen::{Edit, MAX_NAMED, Screen, ScreenFault, Written};
use sporc_text::Doc;
use std::alloc::Global;
use std::process::Abort;

// What happens to a client's text and an editor's, both empty before.
#[derive(Clone, Copy)]
enum Move {
    // The editor inserts a text.
    Types(u64, &'static str),
    // The editor removes characters.
    Removes(u64, u64),
    // The screen does the editor's next edit.
    Does,
    // Another's text comes to the client.
    Comes(u64, &'static str),
    // The editor reads the next line.
    Reads,
    // The client takes the draft.
    Takes,
}

use Move::{Comes, Does, Reads, Removes, Takes, Types};

// Edits and lines cross each other on their way.
const MOVES: [Move; 28] = [
    Types(0, "hello"),
    Comes(0, "A"),
    Reads,
    Does,
    Reads,
    Types(6, "!"),
    Types(7, "?"),
    Comes(1, "B"),
    Does,
    Reads,
    Reads,
    Comes(0, "C"),
    Does,
    Reads,
    Reads,
    Takes,
    Removes(0, 2),
    Comes(3, "D"),
    Types(0, "é"),
    Reads,
    Does,
    Takes,
    Comes(0, "E"),
    Does,
    Reads,
    Reads,
    Reads,
    Takes,
];

// An editor that keeps the rule, the client, and what is under way.
#[derive(Drop)]
struct Sides {
    client: Doc,
    screen: Screen,
    text: Doc,
    seen: u64,
    sent: u64,
    edits: Vec<(u64, Move)>,
    done: usize,
    lines: Vec<Written>,
    read: usize,
}

fn edit_of(row: Move) -> Edit<'static> {
    match row {
        Types(at, text) => Edit::Insert {
            at,
            text: TextSlice::new(text),
        },
        Removes(at, count) => Edit::Remove { at, count },
        _ => Edit::Remove { at: 0, count: 0 },
    }
}

// Applies a delta.
fn applies(rt: &impl Abort, doc: &mut Doc, delta: &Delta) {
    assert!(rt; delta.base_len() == doc.len());
    doc.apply(delta).expect(rt, "memory");
}

// The delta of an insertion.
fn inserted(rt: &impl Abort, alloc: Global, len: u64, at: u64, text: &str) -> Delta {
    assert!(rt; len <= 1_000 && at <= len && text.len() <= 1_000);
    Delta::insert_at(alloc, len, at, text).expect(rt, "memory")
}

fn comes(rt: &impl Abort, screen: &mut Screen, form: &Delta) -> Written {
    assert!(rt; form.base_len() == screen.draft().base_len());
    assert!(rt; form.out_len() <= MAX_COUNT && !screen.is_full());
    screen.come(form).expect(rt, "memory")
}

// The client takes the draft.
fn takes(rt: &impl Abort, alloc: Global, screen: &mut Screen) -> Delta {
    let len = screen.draft().out_len();
    assert!(rt; len <= MAX_COUNT);
    let kept = Delta::keep_all(alloc, len).expect(rt, "memory");
    screen.take_draft(kept)
}

// The user edits the editor's text.
fn types(rt: &impl Abort, alloc: Global, sides: &mut Sides, row: Move) {
    let len = sides.text.len();
    assert!(rt; len <= 1_000 && sides.sent <= 1_000);
    let delta = match row {
        Types(at, text) => inserted(rt, alloc, len, at, text),
        Removes(at, count) => {
            assert!(rt; at <= len && count <= len - at);
            Delta::remove_at(alloc, len, at, count).expect(rt, "memory")
        }
        _ => return,
    };
    applies(rt, &mut sides.text, &delta);
    sides.edits.push((sides.seen, row)).expect(rt, "memory");
    sides.sent += 1;
}

// The screen does the next edit.
fn does(rt: &impl Abort, sides: &mut Sides) {
    assert!(rt; sides.done < sides.edits.len() && !sides.screen.is_full());
    let (seen, row) = sides.edits[sides.done];
    sides.done += 1;
    match sides.screen.edit(seen, &edit_of(row)) {
        Ok(line) => sides.lines.push(line).expect(rt, "memory"),
        Err(_) => check(rt, "an edit is refused", false),
    }
}

// The editor reads the next line, by its rule.
fn reads(rt: &impl Abort, sides: &mut Sides) {
    assert!(rt; sides.read < sides.lines.len());
    let line = &sides.lines[sides.read];
    sides.read += 1;
    if line.numbers.own == sides.sent {
        applies(rt, &mut sides.text, &line.delta);
        sides.seen = line.numbers.line;
    }
}

fn moves(rt: &impl Abort, alloc: Global, sides: &mut Sides, row: Move) {
    match row {
        Types(..) | Removes(..) => types(rt, alloc, sides, row),
        Does => does(rt, sides),
        Reads => reads(rt, sides),
        Comes(at, text) => {
            let form = inserted(rt, alloc, sides.client.len(), at, text);
            let line = comes(rt, &mut sides.screen, &form);
            applies(rt, &mut sides.client, &form);
            sides.lines.push(line).expect(rt, "memory");
        }
        Takes => {
            let draft = takes(rt, alloc, &mut sides.screen);
            applies(rt, &mut sides.client, &draft);
        }
    }
}

fn begun(rt: &impl Abort, alloc: Global) -> Sides {
    Sides {
        client: Doc::new(alloc),
        screen: Screen::open(alloc, 0).expect(rt, "memory"),
        text: Doc::new(alloc),
        seen: 0,
        sent: 0,
        edits: Vec::new(alloc),
        done: 0,
        lines: Vec::new(alloc),
        read: 0,
    }
}

fn has_text(rt: &impl Abort, doc: &Doc, expected: &str) {
    let text = doc.text().expect(rt, "memory");
    check(rt, expected, text.as_str() == expected);
}

#[test]
fn edits_and_lines_cross(rt: HostRuntime) {
    let alloc = rt.alloc();
    let mut sides = begun(&rt, alloc);
    for row in &MOVES {
        moves(&rt, alloc, &mut sides, *row);
    }
    has_text(&rt, &sides.text, "EéBDhello!?");
    has_text(&rt, &sides.client, "EéBDhello!?");
    check(&rt, "the last line", sides.seen == 10);
}

// Whether an edit at the front is refused by this fault.
fn refuses(rt: &impl Abort, screen: &mut Screen, seen: u64, at: u64, fault: ScreenFault) -> bool {
    assert!(rt; !screen.is_full());
    matches!(screen.edit(seen, &Edit::Remove { at, count: 0 }), Err(e) if e == fault)
}

#[test]
fn old_lines_are_known_no_more(rt: HostRuntime) {
    let alloc = rt.alloc();
    let mut screen = Screen::open(alloc, 0).expect(&rt, "memory");
    for _ in 0..MAX_NAMED + 1 {
        assert!(&rt; !screen.is_full());
        let _ = screen.renew().expect(&rt, "memory");
    }
    check(
        &rt,
        "composed",
        refuses(&rt, &mut screen, 1, 0, ScreenFault::Seen),
    );
    check(
        &rt,
        "out of bounds",
        refuses(&rt, &mut screen, 2, 1, ScreenFault::Outside),
    );
    assert!(&rt; !screen.is_full());
    let numbers = screen.refuse();
    check(
        &rt,
        "counted",
        numbers.own == 1 && numbers.line == MAX_NAMED as u64 + 2,
    );
    check(
        &rt,
        "before a refusal",
        refuses(&rt, &mut screen, 2, 0, ScreenFault::Seen),
    );
}
