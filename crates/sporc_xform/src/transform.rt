//! Each of two deltas over one text, restated behind the other.

ghost use Rattle.std.specs.Prelude.{◌≡◌, ◌+◌, ◌≤◌, ◌++◌, length, IfOk, OnOk};
ghost use Rattle.std.specs.List.{flat_map};
ghost use Rattle.sporc_delta.specs.declared.limits.TheConstants.{MAX_TEXT_LEN};
ghost use Rattle.sporc_delta.specs.Marks.{base_len, inserted_len, out_len};
ghost use Rattle.sporc_delta.specs.Transforms.{earlier, earlier_step, later, later_step};
ghost use Rattle.sporc_xform.specs.Runs.{base_marks, run_steps};

use crate::side_by_side::{Run, SideBySide};
use sporc_base::Memory;
use sporc_delta::Delta;
use std::alloc::Global;

/// What `q` becomes on the text after `p`, where `p` is ordered earlier: where both insert at one
/// place, `p`'s insertion stands left.
pub fn later(alloc: Global, q: &Delta, p: &Delta) -> Result<Delta, Memory>
    requires base { base_len q.now ≡ base_len p.now }
    requires limit { base_len p.now + inserted_len p.now + inserted_len q.now ≤ MAX_TEXT_LEN }
    ensures ok { IfOk result (λ d. d ≡ later q.now p.now) }
{
    let mut steps = SideBySide::new(p, q);
    let mut delta = Delta::new(alloc);
    'runs: while let Some(run) = steps.next() {
        push_later(&mut delta, &run)?;
    }
    Ok(delta)
}

/// What `p` becomes on the text after `q`, where `p` is ordered earlier: where both insert at one
/// place, `p`'s insertion stands left.
pub fn earlier(alloc: Global, p: &Delta, q: &Delta) -> Result<Delta, Memory>
    requires base { base_len p.now ≡ base_len q.now }
    requires limit { base_len p.now + inserted_len p.now + inserted_len q.now ≤ MAX_TEXT_LEN }
    ensures ok { IfOk result (λ d. d ≡ earlier p.now q.now) }
{
    let mut steps = SideBySide::new(p, q);
    let mut delta = Delta::new(alloc);
    'runs: while let Some(run) = steps.next() {
        push_earlier(&mut delta, &run)?;
    }
    Ok(delta)
}

/// What each of `p` and `q` becomes on the text after the other, where `p` is ordered earlier: that
/// of `p`, and that of `q`.
pub fn both(alloc: Global, p: &Delta, q: &Delta) -> Result<(Delta, Delta), Memory>
    requires base { base_len p.now ≡ base_len q.now }
    requires limit { base_len p.now + inserted_len p.now + inserted_len q.now ≤ MAX_TEXT_LEN }
    ensures earlier { IfOk result (λ d. d.0 ≡ earlier p.now q.now) }
    ensures later { IfOk result (λ d. d.1 ≡ later q.now p.now) }
{
    let mut steps = SideBySide::new(p, q);
    let mut first = Delta::new(alloc);
    let mut second = Delta::new(alloc);
    'runs: while let Some(run) = steps.next() {
        push_earlier(&mut first, &run)?;
        push_later(&mut second, &run)?;
    }
    Ok((first, second))
}

// Appends what these steps leave of the delta that is ordered later.
fn push_later(delta: &mut Delta, run: &Run<'_>) -> Result<(), Memory>
    requires base_limit { base_len delta.old + length (run_steps run.now) ≤ MAX_TEXT_LEN }
    requires out_limit { out_len delta.old + length (run_steps run.now) ≤ MAX_TEXT_LEN }
    ensures ok { OnOk result (delta.new ≡ delta.old ++ flat_map later_step (run_steps run.now)) }
{
    match run {
        Run::Earlier(text) => delta.push_keep(text.len()),
        Run::Later(text) => delta.push_insert(text),
        Run::Both {
            earlier_removes,
            later_removes,
            count,
        } => push_base(delta, *earlier_removes, *later_removes, *count),
    }
}

// Appends what these steps leave of the delta that is ordered earlier.
fn push_earlier(delta: &mut Delta, run: &Run<'_>) -> Result<(), Memory>
    requires base_limit { base_len delta.old + length (run_steps run.now) ≤ MAX_TEXT_LEN }
    requires out_limit { out_len delta.old + length (run_steps run.now) ≤ MAX_TEXT_LEN }
    ensures ok { OnOk result (delta.new ≡ delta.old ++ flat_map earlier_step (run_steps run.now)) }
{
    match run {
        Run::Earlier(text) => delta.push_insert(text),
        Run::Later(text) => delta.push_keep(text.len()),
        Run::Both {
            earlier_removes,
            later_removes,
            count,
        } => push_base(delta, *later_removes, *earlier_removes, *count),
    }
}

// Appends marks of so many characters, if the other delta doesn't remove them.
fn push_base(
    delta: &mut Delta,
    other_removes: bool,
    removes: bool,
    count: u64,
) -> Result<(), Memory>
    requires base_limit { base_len delta.old + count ≤ MAX_TEXT_LEN }
    requires out_limit { out_len delta.old + count ≤ MAX_TEXT_LEN }
    ensures ok { OnOk result (delta.new ≡ delta.old ++ base_marks other_removes removes count) }
{
    if other_removes {
        return Ok(());
    }
    if removes {
        delta.push_remove(count)
    } else {
        delta.push_keep(count)
    }
}
