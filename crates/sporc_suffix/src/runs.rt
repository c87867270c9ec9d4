//! Runs of forms, each composed to one delta.

ghost use Rattle.std.specs.Prelude.{◌≡◌, ◌+◌, ◌^◌, ◌≤◌, ◌<◌, ◌∷◌, ◌++◌, ◌-◌, [], drop, take};
ghost use Rattle.std.specs.Prelude.{get_or, length, slice_get, Some, IfOk};
ghost use Rattle.sporc_delta.specs.Marks.{base_len, out_len};
ghost use Rattle.sporc_delta.specs.Transforms.{compose};
ghost use Rattle.sporc_suffix.specs.Forms.{Fits, TwoADigit, later_over};
ghost use Rattle.sporc_suffix.specs.Runs.{EndWith, Joined, KeepRuns, forms_in, last_of, runs_of};

use crate::Steps;
use crate::ready::ReadyForm;
use sporc_base::Memory;
use sporc_delta::Delta;
use sporc_xform::{compose, restate_later};
use std::alloc::Global;
use std::sync::ledger::Ledger;

// The place of the last form of the run at a place, where a run of level `n` has `2^n` forms.
fn last_of(level: usize, place: usize) -> usize
    requires { last_of level place < 2 ^ 32 }
    ensures value { result ≡ last_of level place }
{
    if level == 0 {
        return place;
    }
    last_of(level - 1, 2 * place + 1)
}

// The run at a place, in one delta.
fn run_at(forms: &[ReadyForm], level: usize, place: usize) -> &Delta
    requires runs { KeepRuns forms.now }
    requires limit { length forms.now < 2 ^ 32 }
    requires in_bounds { place < length (runs_of level (forms_in forms.now)) }
    ensures value { slice_get (runs_of level (forms_in forms.now)) place ≡ Some result.now }
{
    let last = &forms[last_of(level, place)];
    if level == 0 {
        return last.form();
    }
    last.run(level - 1)
}

/// The runs that end with a form which is stated on the text after these forms: each is composed of
/// the run of half as many forms before it and the newest one.
pub(crate) fn runs_ended(
    alloc: Global,
    forms: &[ReadyForm],
    form: &Delta,
) -> Result<Vec<Delta>, Memory>
    requires runs { KeepRuns forms.now }
    requires limit { length forms.now < 2 ^ 32 }
    requires joined { Joined (forms_in forms.now ++ form.now ∷ []) }
    ensures ok { IfOk result
        (λ runs. EndWith (forms_in forms.now ++ form.now ∷ []) (length forms.now) runs.items) }
{
    let mut runs = Vec::new(alloc);
    let mut count = forms.len();
    'levels: while count % 2 == 1 {
        let before = run_at(forms, runs.len(), count - 1);
        let run = composed(alloc, before, newest(form, runs.as_slice()))?;
        runs.push(run)?;
        count /= 2;
    }
    Ok(runs)
}

// Two deltas that follow each other in one, which has no spare room.
fn composed(alloc: Global, p: &Delta, q: &Delta) -> Result<Delta, Memory>
    requires { out_len p.now ≡ base_len q.now }
    ensures ok { IfOk result (λ d. d ≡ compose p.now q.now) }
{
    compose(alloc, p, q)?.copy()
}

// The last of the runs that end with a form, which is the form itself where there are none.
fn newest<'a>(form: &'a Delta, runs: &'a [Delta]) -> &'a Delta
    ensures value { result.now ≡ get_or (form.now ∷ runs.now) (length runs.now) form.now }
{
    match runs {
        [] => form,
        [.., last] => last,
    }
}

/// What a delta becomes behind all runs of a level from a place on: first behind one that has no
/// neighbour before it, then behind those of the level above, and then behind one that is left
/// over.
pub(crate) fn over_runs<L: Ledger>(
    alloc: Global,
    forms: &[ReadyForm],
    level: usize,
    q: Delta,
    from: usize,
    count: usize,
    steps: &mut Steps<L>,
) -> Result<Delta, Memory>
    requires runs { KeepRuns forms.now }
    requires limit { length forms.now < 2 ^ 32 }
    requires level_limit { level + count ≤ length forms.now }
    requires all_runs { count ≡ length (runs_of level (forms_in forms.now)) }
    requires in_bounds { from ≤ count }
    requires fits { Fits q (drop from (runs_of level (forms_in forms.now))) }
    ensures ok { IfOk result
        (λ d. d ≡ later_over q (drop from (runs_of level (forms_in forms.now)))) }
    ensures cost { (steps.old ≤ steps.new) × TwoADigit steps.old steps.new (count - from) }
{
    if from == count {
        return Ok(q);
    }
    let first = from + from % 2;
    let last = count - count % 2;
    let q = over_one(alloc, forms, level, q, from, first, steps)?;
    let q = over_runs(alloc, forms, level + 1, q, first / 2, last / 2, steps)?;
    let q = over_one(alloc, forms, level, q, last, count, steps)?;
    Ok(q)
}

// What a delta becomes behind the run at a place, if that is before an end.
fn over_one<L: Ledger>(
    alloc: Global,
    forms: &[ReadyForm],
    level: usize,
    q: Delta,
    from: usize,
    end: usize,
    steps: &mut Steps<L>,
) -> Result<Delta, Memory>
    requires runs { KeepRuns forms.now }
    requires limit { length forms.now < 2 ^ 32 }
    requires end_limit { end ≤ from + 1 }
    requires from_in_bounds { from ≤ end }
    requires in_bounds { end ≤ length (runs_of level (forms_in forms.now)) }
    requires fits { Fits q (take (end - from) (drop from (runs_of level (forms_in forms.now)))) }
    ensures ok { IfOk result (λ d. d
        ≡ later_over q (take (end - from) (drop from (runs_of level (forms_in forms.now))))) }
    ensures cost { (steps.old ≤ steps.new) × (steps.new ≤ steps.old + 1) }
{
    if from == end {
        return Ok(q);
    }
    steps.tick();
    let mut passed = q;
    restate_later(alloc, &mut passed, run_at(forms, level, from))?;
    Ok(passed)
}
