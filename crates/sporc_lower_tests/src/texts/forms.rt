ghost use Rattle.std.specs.Prelude.{◌≡◌, ◌+◌, ◌*◌, ◌≤◌, ◌<◌, ◌∷◌, ◌++◌, [], length, IsTrue};
ghost use Rattle.sporc_delta.specs.Marks.{base_len, inserted_len, out_len};
ghost use Rattle.sporc_suffix.specs.Forms.{Follow, all_inserted, reached};

use crate::checks::check;
use sporc_delta::Delta;
use sporc_suffix::{Blocks, Steps};
use sporc_xform::later;
use std::alloc::Global;
use std::marker::Brand;
use std::process::Abort;
use std::sync::ledger::{Blank, Ledger};

// Whether the texts before and after it are short.
#[tactic(auto, using(sporc_xform::proofs::LengthLemmas::inserted_len_le))]
fn is_short(delta: &Delta) -> bool
    ensures base_within { IsTrue result → base_len delta.now ≤ 10000 }
    ensures inserted_within { IsTrue result → inserted_len delta.now ≤ 10000 }
{
    delta.base_len() <= 10_000 && delta.out_len() <= 10_000
}

// A delta of a text of `len` characters that inserts a letter at 0.
fn letter(rt: &impl Abort, alloc: Global, len: u64) -> Delta
    ensures base { base_len result ≡ len }
    ensures len_within { len ≤ 10000 }
    ensures within { inserted_len result ≤ 10000 }
{
    assert!(rt; len <= 9_999);
    let delta = Delta::insert_at(alloc, len, 0, "a").expect(rt, "memory");
    assert!(rt; delta.base_len() == len && is_short(&delta));
    delta
}

// Appends a form. One for which there was no memory leaves the forms as they were, and is appended
// then.
fn push_anyway(rt: &impl Abort, blocks: &mut Blocks, form: Delta)
    requires base { base_len form ≡ reached blocks.old.base blocks.old.forms }
    requires limit { length blocks.old.forms ≤ 10000 }
    ensures base { blocks.new.base ≡ blocks.old.base }
    ensures forms { blocks.new.forms ≡ blocks.old.forms ++ form ∷ [] }
{
    let len = blocks.len();
    match blocks.push(form) {
        Ok(()) => {}
        Err((form, _)) => {
            check(rt, "forms after no memory", blocks.len() == len);
            let Ok(()) = blocks.push(form) else {
                panic!(rt; "memory");
            };
        }
    }
}

// Appends a short form to short forms that follow one another.
fn append(rt: &impl Abort, blocks: &mut Blocks, form: Delta)
    requires base { base_len form ≡ reached blocks.old.base blocks.old.forms }
    requires limit { length blocks.old.forms ≤ 10000 }
    requires follow { Follow blocks.old.base blocks.old.forms }
    requires form_limit { inserted_len form ≤ 10000 }
    requires inserted_limit { all_inserted blocks.old.forms ≤ 10000 * length blocks.old.forms }
    ensures base { blocks.new.base ≡ blocks.old.base }
    ensures len { length blocks.new.forms ≡ length blocks.old.forms + 1 }
    ensures follow { Follow blocks.new.base blocks.new.forms }
    ensures reached { reached blocks.new.base blocks.new.forms ≡ out_len form }
    ensures inserted_within { all_inserted blocks.new.forms ≤ 10000 * length blocks.new.forms }
{
    push_anyway(rt, blocks, form);
}

// So many forms over `xyz`, each of which inserts a letter at 0.
fn forms(rt: &impl Abort, alloc: Global, count: u32) -> Blocks
    ensures base { result.base ≡ 3 }
    ensures len { length result.forms ≡ count }
    ensures within { length result.forms ≤ 10000 }
    ensures follow { Follow result.base result.forms }
    ensures inserted_within { all_inserted result.forms ≤ 10000 * length result.forms }
{
    assert!(rt; count <= 10_000);
    let mut blocks = Blocks::new(alloc, 3).expect(rt, "memory");
    let mut len = 3;
    for _ in 0..count {
        let form = letter(rt, alloc, len);
        len = form.out_len();
        append(rt, &mut blocks, form);
    }
    blocks
}

// A letter at 0 of the text after the first `from` forms, behind all of them.
fn behind_all<L: Ledger>(
    rt: &impl Abort,
    alloc: Global,
    blocks: &Blocks,
    from: u32,
    steps: &mut Steps<L>,
) -> Delta
    requires in_bounds { from < length blocks.now.forms }
    requires limit { length blocks.now.forms ≤ 10000 }
    requires follow { Follow blocks.now.base blocks.now.forms }
    requires inserted_limit { all_inserted blocks.now.forms ≤ 10000 * length blocks.now.forms }
    // With 4,096 forms it passes from the second on in at most 24 steps.
    ensures steps { length blocks.now.forms ≡ 4096 → from ≡ 1 → steps.new ≤ steps.old + 24 }
{
    let delta = letter(rt, alloc, blocks.form(from).base_len());
    blocks.later_over(&delta, from, steps).expect(rt, "memory")
}

// What it becomes behind the forms, form by form.
fn walked(rt: &impl Abort, alloc: Global, blocks: &Blocks, from: u32) -> Delta
    requires { from < length blocks.now.forms }
{
    let mut delta = letter(rt, alloc, blocks.form(from).base_len());
    for place in from..blocks.len() {
        delta = passed(rt, alloc, &delta, blocks.form(place));
    }
    delta
}

fn passed(rt: &impl Abort, alloc: Global, delta: &Delta, form: &Delta) -> Delta {
    assert!(rt; delta.base_len() == form.base_len() && is_short(delta) && is_short(form));
    later(alloc, delta, form).expect(rt, "memory")
}

// From a place on, all forms are passed as they are one by one.
fn passes_as_walked<L: Ledger>(
    rt: &impl Abort,
    blank: Blank,
    alloc: Global,
    blocks: &Blocks,
    from: u32,
)
    requires name { blank.name ≡ L.name }
    requires parts { blank.parts ≡ L.parts }
    requires positive { 0 < blank.parts }
    requires in_bounds { from < length blocks.now.forms }
    requires limit { length blocks.now.forms ≤ 10000 }
    requires follow { Follow blocks.now.base blocks.now.forms }
    requires inserted_limit { all_inserted blocks.now.forms ≤ 10000 * length blocks.now.forms }
{
    let mut steps: Steps<L> = Steps::new(blank);
    let found = behind_all(rt, alloc, blocks, from, &mut steps);
    let plain = walked(rt, alloc, blocks, from);
    check(rt, "forms one by one", found.is_same(&plain));
}

#[test]
fn letters_at_the_front_are_passed_in_few_steps(rt: HostRuntime) {
    let alloc = rt.alloc();
    let blocks = forms(&rt, alloc, 4096);
    passes_as_walked::<Brand>(&rt, Blank::new(1), alloc, &blocks, 1);
}

#[test]
fn forms_after_a_place_are_put_in_one(rt: HostRuntime) {
    let alloc = rt.alloc();
    let blocks = forms(&rt, alloc, 5);
    let one = blocks.composed(2).expect(&rt, "memory");
    let plain = Delta::insert_at(alloc, 5, 0, "aaa").expect(&rt, "memory");
    check(&rt, "forms in one", one.is_same(&plain));
}
