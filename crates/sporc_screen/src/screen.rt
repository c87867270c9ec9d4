//! What an editor is shown.

ghost use Rattle.std.specs.Prelude.{◌≡◌, ◌+◌, ◌≤◌, ◌<◌, ◌^◌, ◌↔◌, IsTrue, IfOk, OnOk};
ghost use Rattle.std.specs.Prelude.{OnErr, OnSome, IfSome, IfNone, true, false};
ghost use Rattle.sporc_base.specs.FirstFault.{AnswersUnless, first_of};
ghost use Rattle.sporc_delta.specs.Marks.{base_len, keep_marks, out_len};
ghost use Rattle.sporc_delta.specs.declared.limits.TheConstants.{MAX_COUNT};
ghost use Rattle.sporc_screen.specs.Screens.{came, edit_checks, edited, last_line, numbers_of};
ghost use Rattle.sporc_screen.specs.Lines.{knows_line, place_of};
ghost use Rattle.sporc_screen.specs.Screens.{opened, refused, renewed, taken};
ghost use Rattle.sporc_screen.specs.declared.fault.ScreenFault.TheVariants as faults;

use crate::lines::{kept, put_alone, put_line};
use crate::restating::restate;
use crate::{Edit, Numbers, ScreenFault, Written};
use sporc_base::Memory;
use sporc_delta::Delta;
use sporc_xform::both;
use std::alloc::Global;
use std::marker::Model;
use std::mem::replace;

/// What an editor is shown: its draft, and the lines that it may not have read yet.
#[derive(Drop)]
pub struct Screen {
    draft: Delta,
    own: u64,
    last: u64,
    base: u64,
    since: Vec<Delta>,
}

impl Model for Screen {
    ghost use Rattle.sporc_screen.specs.Screens.{ScreenInvariant, ScreenModel};

    ghost Value = { ScreenModel };

    ghost view = { λ s. record {
      draft = s.draft;
      own = s.own;
      last = s.last;
      base = s.base;
      since = s.since.items;
    } };

    ghost invariant = { λ s. ScreenInvariant (record {
      draft = s.draft;
      own = s.own;
      last = s.last;
      base = s.base;
      since = s.since.items;
    }) };
}

impl Screen {
    /// A screen over a client's text of `len` characters, which is line 0.
    pub fn open(alloc: Global, len: u64) -> Result<Screen, Memory>
        requires { len ≤ MAX_COUNT }
        ensures ok { IfOk result (λ s. s ≡ opened len) }
    {
        let draft = kept(alloc, len)?;
        Ok(Screen {
            draft,
            own: 0,
            last: 0,
            base: 0,
            since: Vec::new(alloc),
        })
    }

    /// Does an edit of the text that the editor has: that after line `seen`, which it read last,
    /// with its edits since.
    pub fn edit(&mut self, seen: u64, edit: &Edit<'_>) -> Result<Written, ScreenFault>
        requires room { self.old.last + 1 < 2 ^ 64 }
        ensures fault { AnswersUnless faults.Memory result
            (first_of (edit_checks self.old seen edit.now)) }
        ensures ok { OnOk result (self.new ≡ edited self.old seen edit.now) }
        ensures unchanged { OnErr result (self.new ≡ self.old) }
        ensures value { IfOk result (λ line. line ≡ last_line self.new) }
    {
        let Some(place) = place_behind(self.base, self.last, self.since.len(), seen) else {
            return Err(ScreenFault::Seen);
        };
        let alloc = *self.since.allocator();
        let restated = restate(alloc, &self.draft, &self.since[place..], edit)?;
        let delta = restated.line.copy()?;
        put_alone(&mut self.since, restated.line)?;
        self.draft = restated.draft;
        self.own += 1;
        self.last += 1;
        self.base = seen;
        Ok(Written::new(self.last, self.own, delta))
    }

    /// A delta of the client's text comes, which is ordered earlier than the draft.
    pub fn come(&mut self, form: &Delta) -> Result<Written, Memory>
        requires base { base_len form.now ≡ base_len self.old.draft }
        requires limit { out_len form.now ≤ MAX_COUNT }
        requires room { self.old.last + 1 < 2 ^ 64 }
        ensures ok { OnOk result (self.new ≡ came self.old form.now) }
        ensures memory { OnErr result (self.new ≡ self.old) }
        ensures value { IfOk result (λ line. line ≡ last_line self.new) }
    {
        let (line, draft) = both(*self.since.allocator(), form, &self.draft)?;
        let delta = line.copy()?;
        put_line(&mut self.since, line)?;
        self.draft = draft;
        self.last += 1;
        Ok(Written::new(self.last, self.own, delta))
    }

    /// Refuses an edit. Write the whole text behind these numbers: lines before that are known no
    /// more, and edits that name them are refused in turn.
    pub fn refuse(&mut self) -> Numbers
        requires room { self.old.last + 1 < 2 ^ 64 }
        ensures state { self.new ≡ refused self.old }
        ensures value { result ≡ numbers_of self.new }
    {
        self.own += 1;
        self.last += 1;
        self.base = self.last;
        self.since.clear();
        Numbers {
            line: self.last,
            own: self.own,
        }
    }

    /// Numbers of a line with the whole text, for an editor that lost its way. All lines stay
    /// known.
    pub fn renew(&mut self) -> Result<Numbers, Memory>
        requires room { self.old.last + 1 < 2 ^ 64 }
        ensures ok { OnOk result (self.new ≡ renewed self.old) }
        ensures memory { OnErr result (self.new ≡ self.old) }
        ensures value { IfOk result (λ numbers. numbers ≡ numbers_of self.new) }
    {
        let line = kept(*self.since.allocator(), self.draft.out_len())?;
        put_line(&mut self.since, line)?;
        self.last += 1;
        Ok(Numbers {
            line: self.last,
            own: self.own,
        })
    }

    /// Whether no line is left to be numbered.
    pub fn is_full(&self) -> bool
        ensures meaning { IsTrue result ↔ (2 ^ 64 ≤ self.now.last + 1) }
    {
        self.last == u64::MAX
    }

    /// The edits that were done and not taken, as one delta of the client's text.
    pub fn draft(&self) -> &Delta
        ensures value { result.now ≡ self.now.draft }
    {
        &self.draft
    }

    /// Takes the draft, which the client has from now on. In its place stands a delta that keeps
    /// all of the text shown, made before, so that no memory is needed.
    pub fn take_draft(&mut self, kept: Delta) -> Delta
        requires { kept ≡ keep_marks (out_len self.old.draft) }
        ensures state { self.new ≡ taken self.old }
        ensures value { result ≡ self.old.draft }
    {
        replace(&mut self.draft, kept)
    }
}

// How many lines stand before those behind line `seen`, if it is the base or one of the `count`
// lines since, up to `last`.
fn place_behind(base: u64, last: u64, count: usize, seen: u64) -> Option<usize>
    requires { base + count ≤ last }
    ensures some { IfSome result (λ place. place ≡ place_of base last count seen) }
    ensures within { OnSome result (seen ≤ last) }
    ensures known { OnSome result (knows_line base last count seen ≡ true) }
    ensures unknown { IfNone result (knows_line base last count seen ≡ false) }
{
    if seen == base {
        return Some(0);
    }
    if seen > last || last - seen >= count as u64 {
        return None;
    }
    Some(count - (last - seen) as usize)
}
