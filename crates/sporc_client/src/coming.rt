//! What an entry that comes does to a client's own part.

ghost use Rattle.std.specs.Prelude.{◌≡◌, ◌+◌, ◌≤◌, length, IfOk};
ghost use Rattle.sporc_delta.specs.Marks.{base_len, inserted_len};
ghost use Rattle.sporc_delta.specs.declared.limits.TheConstants.{MAX_COUNT, MAX_TEXT_LEN};
ghost use Rattle.sporc_suffix.specs.Forms.{Follow};
ghost use Rattle.sporc_line.specs.Document.{text_after};
ghost use Rattle.sporc_client.specs.Coming.{CanCome, effect};
ghost use Rattle.sporc_client.specs.Rebasing.{AreOver, inserted_by};
ghost use Rattle.sporc_client.specs.Taking.{coming_at, form_at};

use crate::rebasing::pass_items;
use crate::workspace::Workspace;
use sporc_base::{Items, Memory};
use sporc_delta::Delta;
use sporc_line::Prepared;
use sporc_member::Device;
use sporc_xform::Passed;
use std::alloc::Global;

/// What an entry that comes does to the pending items and to the entry on its way.
#[derive(Drop)]
pub(crate) enum Coming {
    /// It is the entry on its way: the first pending item is committed.
    Own,
    /// It is another change: the entry on its way has come too late.
    Change,
    /// It is another edit: this is what the pending items become behind it. One of the device's own
    /// takes the number of the entry on its way.
    Edit(Items<Option<Passed>>, bool),
}

/// What a prepared entry, of these bytes, does to a client's own part, and its shown delta.
pub(crate) fn settle(
    alloc: Global,
    me: Device,
    own: &Workspace,
    prepared: &Prepared,
    bytes: &[u8],
) -> Result<(Coming, Delta), Memory>
    requires follow { Follow 0 own.now.shown }
    requires text_limit { length (text_after own.now.shown) ≤ MAX_COUNT }
    requires over { AreOver (base_len prepared.now.form) own.now.pending }
    requires limit { base_len prepared.now.form + inserted_len prepared.now.form
        + inserted_by own.now.pending ≤ MAX_TEXT_LEN }
    ensures coming { IfOk result (λ both. effect both.0 own.now.pending
        ≡ coming_at me own.now bytes.now prepared.now) }
    ensures fits { IfOk result (λ both. CanCome both.0 own.now.pending) }
    ensures form { IfOk result (λ both. both.1 ≡ form_at own.now bytes.now prepared.now) }
{
    if own.is_on_its_way(bytes) {
        let keeps = Delta::keep_all(alloc, own.shown_len())?;
        return Ok((Coming::Own, keeps));
    }
    if prepared.is_change() {
        let keeps = Delta::keep_all(alloc, own.shown_len())?;
        return Ok((Coming::Change, keeps));
    }
    let passage = pass_items(alloc, prepared.form(), own.pending())?;
    let by_me = prepared.author_device().is(me);
    Ok((
        Coming::Edit(Items::new(passage.passed), by_me),
        passage.form,
    ))
}
