ghost use Rattle.std.specs.Prelude.{◌≡◌, ◌+◌, ◌≤◌};
ghost use Rattle.sporc_delta.specs.Marks.{base_len, inserted_len};
ghost use Rattle.sporc_delta.specs.declared.limits.TheConstants.{MAX_TEXT_LEN};

use crate::checks::check;
use sporc_base::Memory;
use sporc_delta::{Delta, Part, TextSlice};
use sporc_xform::{both, compose, earlier, later, pass, restate_later};
use std::alloc::Global;
use std::process::Abort;

// Deltas as lists of marks: K keeps a character, R removes one, and any other is inserted.

fn is_inserted(mark: char) -> bool {
    mark != 'K' && mark != 'R' && mark != '.'
}

// The first mark, or a dot at the end.
fn first(marks: &[char]) -> char {
    match marks.first() {
        Some(mark) => *mark,
        None => '.',
    }
}

fn rest(marks: &[char]) -> &[char] {
    if marks.is_empty() { marks } else { &marks[1..] }
}

// ---- the transforms on marks, as their rules say

fn plain_later(rt: &impl Abort, alloc: Global, q: &[char], p: &[char]) -> Vec<char> {
    let mut marks = Vec::new(alloc);
    let (mut p, mut q) = (p, q);
    for _ in 0..40 {
        let (a, b) = (first(p), first(q));
        if is_inserted(a) {
            marks.push('K').expect(rt, "memory");
            p = rest(p);
        } else if is_inserted(b) {
            marks.push(b).expect(rt, "memory");
            q = rest(q);
        } else {
            if a == 'K' {
                marks.push(b).expect(rt, "memory");
            }
            p = rest(p);
            q = rest(q);
        }
    }
    marks
}

fn plain_earlier(rt: &impl Abort, alloc: Global, p: &[char], q: &[char]) -> Vec<char> {
    let mut marks = Vec::new(alloc);
    let (mut p, mut q) = (p, q);
    for _ in 0..40 {
        let (a, b) = (first(p), first(q));
        if is_inserted(a) {
            marks.push(a).expect(rt, "memory");
            p = rest(p);
        } else if is_inserted(b) {
            marks.push('K').expect(rt, "memory");
            q = rest(q);
        } else {
            if b == 'K' {
                marks.push(a).expect(rt, "memory");
            }
            p = rest(p);
            q = rest(q);
        }
    }
    marks
}

fn plain_compose(rt: &impl Abort, alloc: Global, p: &[char], q: &[char]) -> Vec<char> {
    let mut marks = Vec::new(alloc);
    let (mut p, mut q) = (p, q);
    for _ in 0..40 {
        let (a, b) = (first(p), first(q));
        if is_inserted(b) {
            marks.push(b).expect(rt, "memory");
            q = rest(q);
        } else if a == 'R' {
            marks.push('R').expect(rt, "memory");
            p = rest(p);
        } else {
            if b == 'K' {
                marks.push(a).expect(rt, "memory");
            } else if a == 'K' {
                marks.push('R').expect(rt, "memory");
            }
            p = rest(p);
            q = rest(q);
        }
    }
    marks
}

// ---- deltas from marks, and back

fn push_mark(rt: &impl Abort, alloc: Global, delta: &mut Delta, mark: char) {
    if delta.base_len() > 100 || delta.out_len() > 100 {
        return;
    }
    match mark {
        'K' => delta.push_keep(1).expect(rt, "memory"),
        'R' => delta.push_remove(1).expect(rt, "memory"),
        _ => {
            let mut text = String::new(alloc);
            text.push(mark).expect(rt, "memory");
            let text = TextSlice::new(text.as_str());
            if text.len() > 1 {
                return;
            }
            delta.push_insert(&text).expect(rt, "memory");
        }
    }
}

fn delta_of(rt: &impl Abort, alloc: Global, marks: &[char]) -> Delta {
    let mut delta = Delta::new(alloc);
    for mark in marks {
        push_mark(rt, alloc, &mut delta, *mark);
    }
    delta
}

fn marks_of(rt: &impl Abort, alloc: Global, delta: &Delta) -> Vec<char> {
    let mut marks = Vec::new(alloc);
    for part in delta.parts() {
        match part {
            Part::Keep(count) => {
                for _ in 0..*count {
                    marks.push('K').expect(rt, "memory");
                }
            }
            Part::Insert(text) => {
                for character in text.as_str().chars() {
                    marks.push(character).expect(rt, "memory");
                }
            }
            Part::Remove(count) => {
                for _ in 0..*count {
                    marks.push('R').expect(rt, "memory");
                }
            }
        }
    }
    marks
}

fn chars_of(rt: &impl Abort, alloc: Global, text: &str) -> Vec<char> {
    let mut marks = Vec::new(alloc);
    for mark in text.chars() {
        marks.push(mark).expect(rt, "memory");
    }
    marks
}

/// The delta of these marks.
pub(crate) fn marked(rt: &impl Abort, alloc: Global, marks: &str) -> Delta {
    let marks = chars_of(rt, alloc, marks);
    delta_of(rt, alloc, &marks)
}

// Whether a delta is made of these marks.
fn is_of(rt: &impl Abort, alloc: Global, made: Result<Delta, Memory>, marks: &[char]) -> bool {
    let delta = made.expect(rt, "memory");
    marks_of(rt, alloc, &delta).as_slice() == marks
}

// Whether two deltas are made, each of its marks.
fn are_of(
    rt: &impl Abort,
    alloc: Global,
    made: Result<(Delta, Delta), Memory>,
    first: &[char],
    second: &[char],
) -> bool {
    let (one, other) = made.expect(rt, "memory");
    is_of(rt, alloc, Ok(one), first) && is_of(rt, alloc, Ok(other), second)
}

// Whether a delta that is restated in place has these marks.
fn is_restated(rt: &impl Abort, alloc: Global, q: &Delta, p: &Delta, marks: &[char]) -> bool
    requires base { base_len q.now ≡ base_len p.now }
    requires limit { base_len p.now + inserted_len p.now + inserted_len q.now ≤ MAX_TEXT_LEN }
{
    let mut delta = q.copy().expect(rt, "memory");
    restate_later(alloc, &mut delta, p).expect(rt, "memory");
    marks_of(rt, alloc, &delta).as_slice() == marks
}

// Whether two deltas that pass each other in place have these marks.
fn are_passed(
    rt: &impl Abort,
    alloc: Global,
    p: &Delta,
    q: &Delta,
    first: &[char],
    second: &[char],
) -> bool
    requires base { base_len p.now ≡ base_len q.now }
    requires limit { base_len p.now + inserted_len p.now + inserted_len q.now ≤ MAX_TEXT_LEN }
{
    let mut one = p.copy().expect(rt, "memory");
    let mut other = q.copy().expect(rt, "memory");
    pass(alloc, &mut one, q)
        .expect(rt, "memory")
        .put(&mut other);
    is_of(rt, alloc, Ok(one), first) && is_of(rt, alloc, Ok(other), second)
}

// Whether each transform of two short deltas over one text gives these marks.
#[tactic(auto, using(sporc_xform::proofs::LengthLemmas::inserted_len_le))]
fn transforms_give(
    rt: &impl Abort,
    alloc: Global,
    p: &Delta,
    q: &Delta,
    first: &[char],
    second: &[char],
) -> bool {
    if p.base_len() != q.base_len() || p.base_len() + p.out_len() + q.out_len() >= 1000 {
        return false;
    }
    is_of(rt, alloc, earlier(alloc, p, q), first)
        && is_of(rt, alloc, later(alloc, q, p), second)
        && are_of(rt, alloc, both(alloc, p, q), first, second)
        && is_restated(rt, alloc, q, p, second)
        && are_passed(rt, alloc, p, q, first, second)
}

// Whether the composition of two deltas that follow one another has these marks.
fn composition_gives(rt: &impl Abort, alloc: Global, p: &Delta, q: &Delta, marks: &[char]) -> bool {
    if p.out_len() != q.base_len() {
        return false;
    }
    is_of(rt, alloc, compose(alloc, p, q), marks)
}

// Two deltas, the first ordered earlier, and what each becomes behind the other.
const TRANSFORMS: [(&str, &str, &str, &str); 23] = [
    // An insertion inside a removal.
    ("KRR", "KKZK", "KRKR", "KZ"),
    // Two insertions at one place: that of the first stands left.
    ("KaK", "KbK", "KaKK", "KKbK"),
    // Both remove one character.
    ("KRK", "KRK", "KK", "KK"),
    // Characters of several bytes.
    ("é€K", "K😀", "é€KK", "KKK😀"),
    // Three authors: a removal, and two insertions at one place of the text after it.
    ("KRK", "KYKK", "KKRK", "KYK"),
    ("KRK", "KKXK", "KRKK", "KXK"),
    ("KXK", "KYK", "KXKK", "KKYK"),
    // Neighbours. Two insertions, a character apart, the first or the second in front; at one
    // place; at both ends.
    ("KaKKK", "KKbKK", "KaKKKK", "KKKbKK"),
    ("KKaKK", "KbKKK", "KKKaKK", "KbKKKK"),
    ("aKK", "bKK", "aKKK", "KbKK"),
    ("KKa", "KKb", "KKaK", "KKKb"),
    // An insertion at the front of a removal, at its end, and a character before it and behind it.
    ("KRRK", "KbKKK", "KKRRK", "KbK"),
    ("KRRK", "KKKbK", "KRRKK", "KbK"),
    ("KKRRK", "KbKKKK", "KKKRRK", "KbKK"),
    ("KRRKK", "KKKKbK", "KRRKKK", "KKbK"),
    ("KaKKK", "KRRK", "KaK", "KKRRK"),
    ("KKKaK", "KRRK", "KaK", "KRRKK"),
    // Removals side by side, and a character apart.
    ("KRKK", "KKRK", "KRK", "KRK"),
    ("KKRK", "KRKK", "KRK", "KRK"),
    ("RKK", "KRK", "RK", "RK"),
    ("RKKK", "KKRK", "RKK", "KRK"),
    // One of them changes nothing, or there is no text.
    ("KK", "KbK", "KKK", "KbK"),
    ("", "b", "K", "b"),
];

fn transforms_as(rt: &impl Abort, alloc: Global, row: (&str, &str, &str, &str)) -> bool {
    let (p, q, first, second) = row;
    let p = marked(rt, alloc, p);
    let q = marked(rt, alloc, q);
    let first = chars_of(rt, alloc, first);
    let second = chars_of(rt, alloc, second);
    transforms_give(rt, alloc, &p, &q, &first, &second)
}

// Two deltas that follow one another, and their composition.
const COMPOSITIONS: [(&str, &str, &str); 3] = [
    ("KRK", "KYK", "KYRK"),
    ("KXKK", "KRKK", "KKK"),
    // An insertion that is then removed in part.
    ("xyéK", "KRKK", "xéK"),
];

fn composes_as(rt: &impl Abort, alloc: Global, row: (&str, &str, &str)) -> bool {
    let (p, q, marks) = row;
    let p = marked(rt, alloc, p);
    let q = marked(rt, alloc, q);
    let marks = chars_of(rt, alloc, marks);
    composition_gives(rt, alloc, &p, &q, &marks)
}

#[test]
fn worked_rows(rt: HostRuntime) {
    for row in &TRANSFORMS {
        check(&rt, row.1, transforms_as(&rt, rt.alloc(), *row));
    }
    for row in &COMPOSITIONS {
        check(&rt, row.0, composes_as(&rt, rt.alloc(), *row));
    }
}

// The delta of this number over a text of so many characters: before each character and at the end
// it inserts or not, and it keeps or removes each.
fn small_delta(
    rt: &impl Abort,
    alloc: Global,
    base: u32,
    number: u32,
    inserted: char,
) -> Vec<char> {
    let mut marks = Vec::new(alloc);
    let mut left = number;
    for _ in 0..base {
        if left % 2 == 1 {
            marks.push(inserted).expect(rt, "memory");
        }
        marks
            .push(if left / 2 % 2 == 1 { 'R' } else { 'K' })
            .expect(rt, "memory");
        left /= 4;
    }
    if left % 2 == 1 {
        marks.push(inserted).expect(rt, "memory");
    }
    marks
}

// Whether two deltas over one text are transformed by the rules on marks, which give the first of
// them these.
fn is_transformed(rt: &impl Abort, alloc: Global, p: &[char], q: &[char], first: &[char]) -> bool {
    let second = plain_later(rt, alloc, q, p);
    let p = delta_of(rt, alloc, p);
    let q = delta_of(rt, alloc, q);
    transforms_give(rt, alloc, &p, &q, first, &second)
}

// Whether two deltas that follow one another are composed by the rules on marks.
fn is_composed(rt: &impl Abort, alloc: Global, p: &[char], q: &[char]) -> bool {
    let marks = plain_compose(rt, alloc, p, q);
    let p = delta_of(rt, alloc, p);
    let q = delta_of(rt, alloc, q);
    composition_gives(rt, alloc, &p, &q, &marks)
}

// Whether that is so of the deltas of these numbers over a text of so many characters.
fn is_by_the_rules(rt: &impl Abort, alloc: Global, base: u32, i: u32, j: u32) -> bool {
    let p = small_delta(rt, alloc, base, i, 'a');
    let q = small_delta(rt, alloc, base, j, 'é');
    let first = plain_earlier(rt, alloc, &p, &q);
    // The earlier one behind the later one is stated on the text after it.
    is_transformed(rt, alloc, &p, &q, &first) && is_composed(rt, alloc, &q, &first)
}

// The characters of a text, and how many such deltas there are.
const SMALL: [(u32, u32); 4] = [(0, 2), (1, 8), (2, 32), (3, 128)];

#[test]
fn small_deltas_are_like_the_rules_on_marks(rt: HostRuntime) {
    for (base, count) in &SMALL {
        for i in 0..*count {
            for j in 0..*count {
                assert!(rt;
                    is_by_the_rules(&rt, rt.alloc(), *base, i, j),
                    "{base}: {i} and {j}"
                );
            }
        }
    }
}
