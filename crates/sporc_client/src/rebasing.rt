//! Another's form and the pending items, passing each other.

ghost use Rattle.std.specs.Prelude.{◌≡◌, ◌+◌, ◌≤◌, ◌∷◌, [], fold, IfOk, OnOk};
ghost use Rattle.sporc_delta.specs.Marks.{base_len, inserted_len};
ghost use Rattle.sporc_delta.specs.declared.limits.TheConstants.{MAX_TEXT_LEN};
ghost use Rattle.sporc_client.specs.Passing.{CanAllBecome, ItemCanBecome, all_became, item_became};
ghost use Rattle.sporc_client.specs.PlainClient.{after_pending};
ghost use Rattle.sporc_client.specs.Rebasing.{AreOver, AreStated, beyond, inserted_by, rebased};

use crate::pending::Pending;
use sporc_base::Memory;
use sporc_delta::Delta;
use sporc_text::Doc;
use sporc_xform::{Passed, pass};
use std::alloc::Global;

/// What each pending item becomes behind another's form, None if it stays, and the form behind
/// them.
#[derive(Drop)]
pub(crate) struct Passage {
    pub(crate) passed: Vec<Option<Passed>>,
    pub(crate) form: Delta,
}

// Passes a form and the pending items by each other, all but the change of the items; the form is
// ordered earlier.
pub(crate) fn pass_items(alloc: Global, form: &Delta, items: &[Pending]) -> Result<Passage, Memory>
    requires over { AreOver (base_len form.now) items.now }
    requires limit { base_len form.now + inserted_len form.now + inserted_by items.now
        ≤ MAX_TEXT_LEN }
    ensures items { IfOk result
        (λ passage. all_became passage.passed.items items.now ≡ rebased form.now items.now) }
    ensures fits { IfOk result (λ passage. CanAllBecome passage.passed.items items.now) }
    ensures form { IfOk result (λ passage. passage.form ≡ beyond form.now items.now) }
{
    let mut after = form.copy()?;
    let mut passed = Vec::with_capacity(alloc, items.len())?;
    for item in items {
        let one = pass_one(alloc, &mut after, item)?;
        passed.push_reserved(one);
    }
    Ok(Passage {
        passed,
        form: after,
    })
}

// Passes a form and one item by each other, all but the change of the item.
fn pass_one(alloc: Global, form: &mut Delta, item: &Pending) -> Result<Option<Passed>, Memory>
    requires over { AreOver (base_len form.old) (item.now ∷ []) }
    requires limit { base_len form.old + inserted_len form.old + inserted_by (item.now ∷ [])
        ≤ MAX_TEXT_LEN }
    ensures item { IfOk result
        (λ one. item_became one item.now ∷ [] ≡ rebased form.old (item.now ∷ [])) }
    ensures fits { IfOk result (λ one. ItemCanBecome one item.now) }
    ensures form { OnOk result (form.new ≡ beyond form.old (item.now ∷ [])) }
{
    match item {
        Pending::Edit(delta) => {
            let one = pass(alloc, form, delta)?;
            Ok(Some(one))
        }
        Pending::Change(_) => Ok(None),
    }
}

/// Makes of each pending item what it becomes.
pub(crate) fn put_all(passed: Vec<Option<Passed>>, items: &mut Vec<Pending>)
    requires { CanAllBecome passed.items items.old.items }
    ensures value { items.new.items ≡ all_became passed.items items.old.items }
{
    let mut left = passed;
    'items: while let Some(one) = left.pop() {
        let place = left.len();
        put_one(one, &mut items[place]);
    }
}

// Makes of one item what it becomes.
fn put_one(passed: Option<Passed>, item: &mut Pending)
    requires { ItemCanBecome passed item.old }
    ensures value { item.new ≡ item_became passed item.old }
{
    let Some(passed) = passed else {
        return;
    };
    match item {
        Pending::Edit(delta) => passed.put(delta),
        Pending::Change(_) => drop(passed),
    }
}

/// Applies pending edits to a text, one after the other. If memory runs out, the text is one in
/// between.
pub(crate) fn apply_all(text: &mut Doc, items: &[Pending]) -> Result<(), Memory>
    requires stated { AreStated text.old items.now }
    ensures value { OnOk result (text.new ≡ fold after_pending text.old items.now) }
{
    for item in items {
        apply_one(text, item)?;
    }
    Ok(())
}

// Applies a pending item to a text.
fn apply_one(text: &mut Doc, item: &Pending) -> Result<(), Memory>
    requires stated { AreStated text.old (item.now ∷ []) }
    ensures value { OnOk result (text.new ≡ after_pending text.old item.now) }
{
    match item {
        Pending::Edit(delta) => text.apply(delta),
        Pending::Change(_) => Ok(()),
    }
}
