//! Deltas that are restated in place.

ghost use Rattle.std.specs.Prelude.{◌≡◌, ◌+◌, ◌≤◌, ◌<◌, ◌↔◌, IsTrue, IfOk, IfSome, IfNone, OnOk};
ghost use Rattle.std.specs.Prelude.{OnErr};
ghost use Rattle.sporc_delta.specs.Marks.{base_len, inserted_len, out_len};
ghost use Rattle.sporc_delta.specs.Shifts.{kept_first, kept_last};
ghost use Rattle.sporc_delta.specs.Transforms.{earlier, later};
ghost use Rattle.sporc_delta.specs.declared.limits.TheConstants.{MAX_TEXT_LEN};
ghost use Rattle.sporc_xform.specs.Restating.{CanBecome, IsMoved, Meet, ShiftsEarlier, ShiftsLater};
ghost use Rattle.sporc_xform.specs.Restating.{became};

use crate::transform::{both, later};
use sporc_base::Memory;
use sporc_delta::{Delta, Shift};
use std::alloc::Global;

/// What a delta becomes behind another one.
#[derive(Drop)]
pub enum Passed {
    /// Itself, with another count at one of its ends.
    Shifted(Shift),
    /// A new delta.
    New(Delta),
}

impl Passed {
    /// Makes that of the delta, which takes no memory.
    pub fn put(self, delta: &mut Delta)
        requires { CanBecome self delta.old }
        ensures value { delta.new ≡ became self delta.old }
    {
        match self {
            Passed::Shifted(shift) => delta.shift(shift),
            Passed::New(new) => *delta = new,
        }
    }
}

/// Restates `q` behind `p`, which is ordered earlier, as [`later`] does. It takes no memory unless
/// their changes meet.
pub fn restate_later(alloc: Global, q: &mut Delta, p: &Delta) -> Result<(), Memory>
    requires base { base_len q.old ≡ base_len p.now }
    requires limit { base_len p.now + inserted_len p.now + inserted_len q.old ≤ MAX_TEXT_LEN }
    ensures ok { OnOk result (q.new ≡ later q.old p.now) }
    ensures err { OnErr result (Meet p.now q.old) }
    ensures memory { OnErr result (q.new ≡ q.old) }
{
    match shift_later(q, p) {
        Some(shift) => q.shift(shift),
        None => *q = later(alloc, q, p)?,
    }
    Ok(())
}

/// Restates `p` behind `q`, where `p` is ordered earlier, and says what `q` becomes behind `p`, as
/// [`both`] does. It takes no memory unless their changes meet.
pub fn pass(alloc: Global, p: &mut Delta, q: &Delta) -> Result<Passed, Memory>
    requires base { base_len p.old ≡ base_len q.now }
    requires limit { base_len p.old + inserted_len p.old + inserted_len q.now ≤ MAX_TEXT_LEN }
    ensures earlier { OnOk result (p.new ≡ earlier p.old q.now) }
    ensures later { IfOk result (λ passed. became passed q.now ≡ later q.now p.old) }
    ensures fits { IfOk result (λ passed. CanBecome passed q.now) }
    ensures err { OnErr result (Meet p.old q.now) }
    ensures memory { OnErr result (p.new ≡ p.old) }
{
    if let Some((first, second)) = shifts(p, q) {
        p.shift(first);
        return Ok(Passed::Shifted(second));
    }
    let (first, second) = both(alloc, p, q)?;
    *p = first;
    Ok(Passed::New(second))
}

// The shifts of both, if their changes don't meet.
fn shifts(p: &Delta, q: &Delta) -> Option<(Shift, Shift)>
    requires base { base_len p.now ≡ base_len q.now }
    requires limit { base_len p.now + inserted_len p.now + inserted_len q.now ≤ MAX_TEXT_LEN }
    ensures earlier { IfSome result (λ both. ShiftsEarlier both.0 p.now q.now) }
    ensures later { IfSome result (λ both. ShiftsLater both.1 q.now p.now) }
    ensures none { IfNone result (Meet p.now q.now) }
{
    let first = shift_earlier(p, q)?;
    let second = shift_later(q, p)?;
    Some((first, second))
}

// The shift of `q` behind `p`, which is ordered earlier.
fn shift_later(q: &Delta, p: &Delta) -> Option<Shift>
    requires base { base_len q.now ≡ base_len p.now }
    requires limit { base_len p.now + inserted_len p.now + inserted_len q.now ≤ MAX_TEXT_LEN }
    ensures value { IfSome result (λ shift. ShiftsLater shift q.now p.now) }
    ensures none { IfNone result (Meet p.now q.now) }
{
    if is_apart(q, p) {
        return Some(Shift::Last(moved(q.kept_last(), p)?));
    }
    if is_before(p, q) {
        return Some(Shift::First(moved(q.kept_first(), p)?));
    }
    None
}

// The shift of `p`, which is ordered earlier, behind `q`.
fn shift_earlier(p: &Delta, q: &Delta) -> Option<Shift>
    requires base { base_len p.now ≡ base_len q.now }
    requires limit { base_len p.now + inserted_len p.now + inserted_len q.now ≤ MAX_TEXT_LEN }
    ensures value { IfSome result (λ shift. ShiftsEarlier shift p.now q.now) }
    ensures none { IfNone result (Meet p.now q.now) }
{
    if is_apart(q, p) {
        return Some(Shift::First(moved(p.kept_first(), q)?));
    }
    if is_before(p, q) {
        return Some(Shift::Last(moved(p.kept_last(), q)?));
    }
    None
}

// Whether all that one delta changes stands before all that another one does.
fn is_before(first: &Delta, second: &Delta) -> bool
    ensures value { IsTrue result
        ↔ (base_len first.now ≤ kept_last first.now + kept_first second.now) }
{
    first.base_len() <= first.kept_last() + second.kept_first()
}

// Whether it does, with a character between that both keep.
fn is_apart(first: &Delta, second: &Delta) -> bool
    ensures value { IsTrue result
        ↔ (base_len first.now < kept_last first.now + kept_first second.now) }
{
    first.base_len() < first.kept_last() + second.kept_first()
}

// A count of characters that are kept, with what another delta adds there or removes, if there are
// some before and after.
fn moved(kept: u64, other: &Delta) -> Option<u64>
    requires { kept ≤ MAX_TEXT_LEN }
    ensures value { IfSome result (λ count. IsMoved kept count other.now) }
    ensures none { IfNone result (0 < kept → kept + out_len other.now ≤ base_len other.now) }
{
    let grown = kept + other.out_len();
    if kept == 0 || grown <= other.base_len() {
        return None;
    }
    Some(grown - other.base_len())
}
