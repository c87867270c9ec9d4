//! Entries checked, prepared and committed.

ghost use Rattle.std.specs.Prelude.{◌≡◌, ◌+◌, ◌≤◌, ◌∷◌, ◌++◌, [], length, take, drop, Some, None};
ghost use Rattle.std.specs.Prelude.{IfOk, IfSome, OnOk, OnErr};
ghost use Rattle.sporc_base.specs.FirstFault.{AnswersUnless, first_of};
ghost use Rattle.sporc_delta.specs.Marks.{base_len, inserted_len};
ghost use Rattle.sporc_suffix.specs.Forms.{later_over};
ghost use Rattle.sporc_entry.specs.declared.limits.TheConstants.{MAX_EDIT_BODY};
ghost use Rattle.sporc_entry.specs.Entry.{change_of};
ghost use Rattle.sporc_head.specs.Examined.{IsExact};
ghost use Rattle.sporc_head.specs.IsChecked.{IsChecked};
ghost use Rattle.sporc_line.specs.Document.{forms_of, text_of};
ghost use Rattle.sporc_line.specs.LineChecks.{key_checks, first_fault};
ghost use Rattle.sporc_line.specs.Prepared.{IsEffect, IsPrepared};

use super::Line;
use crate::effect::Effect;
use crate::keys::check_new_key;
use crate::passing::pass_forms;
use crate::payload::read_payload;
use crate::prepared::Prepared;
use sporc_base::Memory;
use sporc_delta::Delta;
use sporc_entry::ChangeBody;
use sporc_epoch::stream_of;
use sporc_head::{Checked, Examined, Refusal, Verdict};

impl Line {
    /// Checks an entry that is to stand at a position, and takes all the memory that its commit
    /// needs. The line stays as it is; the refusal is the first check that fails.
    pub fn prepare(&mut self, pos: u32, bytes: &[u8]) -> Result<Prepared, Refusal>
        ensures fault { AnswersUnless Refusal.Memory result
            (first_fault self.old.genesis self.old.kit self.old.entries pos bytes.now) }
        ensures prepared { IfOk result (IsPrepared self.old.genesis self.old.kit self.old.entries) }
        ensures bytes { IfOk result (λ prepared. prepared.checked.bytes ≡ bytes.now) }
        ensures room { OnOk result (1 ≤ self.new.spare) }
        ensures genesis { self.new.genesis ≡ self.old.genesis }
        ensures kit { self.new.kit ≡ self.old.kit }
        ensures entries { self.new.entries ≡ self.old.entries }
    {
        self.prepare_known(pos, bytes, None)
    }

    /// Checks and prepares an entry whose signature was examined. It is verified anew if the key
    /// isn't that of its author's device here.
    pub fn prepare_examined(&mut self, pos: u32, examined: &Examined) -> Result<Prepared, Refusal>
        ensures fault { AnswersUnless Refusal.Memory result
            (first_fault self.old.genesis self.old.kit self.old.entries pos examined.now.entry) }
        ensures prepared { IfOk result (IsPrepared self.old.genesis self.old.kit self.old.entries) }
        ensures bytes { IfOk result (λ prepared. prepared.checked.bytes ≡ examined.now.entry) }
        ensures room { OnOk result (1 ≤ self.new.spare) }
        ensures genesis { self.new.genesis ≡ self.old.genesis }
        ensures kit { self.new.kit ≡ self.old.kit }
        ensures entries { self.new.entries ≡ self.old.entries }
    {
        self.prepare_known(pos, examined.entry(), Some(examined.known()))
    }

    /// Checks and prepares an entry's bytes, of which a verdict may be known.
    pub fn prepare_known(
        &mut self,
        pos: u32,
        bytes: &[u8],
        known: Option<&Verdict>,
    ) -> Result<Prepared, Refusal>
        requires exact { IfSome known (λ v. IsExact v.now bytes.now) }
        ensures fault { AnswersUnless Refusal.Memory result
            (first_fault self.old.genesis self.old.kit self.old.entries pos bytes.now) }
        ensures prepared { IfOk result (IsPrepared self.old.genesis self.old.kit self.old.entries) }
        ensures bytes { IfOk result (λ prepared. prepared.checked.bytes ≡ bytes.now) }
        ensures room { OnOk result (1 ≤ self.new.spare) }
        ensures genesis { self.new.genesis ≡ self.old.genesis }
        ensures kit { self.new.kit ≡ self.old.kit }
        ensures entries { self.new.entries ≡ self.old.entries }
    {
        let checked = self
            .heads
            .check_known(Some(self.kit.me()), pos, bytes, known)?;
        let effect = self.effect_of(&checked)?;
        let prepared = self.ready(checked, effect)?;
        Ok(prepared)
    }

    /// Appends an entry that was prepared at this line as it is now. It takes no memory.
    pub fn commit(&mut self, prepared: Prepared)
        requires prepared { IsPrepared self.old.genesis self.old.kit self.old.entries prepared }
        requires room { 1 ≤ self.old.spare }
        ensures genesis { self.new.genesis ≡ self.old.genesis }
        ensures kit { self.new.kit ≡ self.old.kit }
        ensures entries { self.new.entries ≡ self.old.entries ++ prepared.checked.bytes ∷ [] }
    {
        let Prepared {
            checked,
            form,
            text,
            key,
        } = prepared;
        let _ = self.heads.push(checked);
        self.forms.put(form);
        self.text.put(text);
        self.key = key;
    }

    /// Appends an entry that is to stand at a position, if no check fails. The refusal is the first
    /// that does; the line then stays as it is.
    pub fn accept(&mut self, pos: u32, bytes: &[u8]) -> Result<(), Refusal>
        ensures fault { AnswersUnless Refusal.Memory result
            (first_fault self.old.genesis self.old.kit self.old.entries pos bytes.now) }
        ensures genesis { self.new.genesis ≡ self.old.genesis }
        ensures kit { self.new.kit ≡ self.old.kit }
        ensures ok { OnOk result (self.new.entries ≡ self.old.entries ++ bytes.now ∷ []) }
        ensures unchanged { OnErr result (self.new.entries ≡ self.old.entries) }
    {
        self.accept_known(pos, bytes, None)
    }

    /// Appends an entry whose signature was examined. It is verified anew if the key isn't that of
    /// its author's device here.
    pub fn accept_examined(&mut self, pos: u32, examined: &Examined) -> Result<(), Refusal>
        ensures fault { AnswersUnless Refusal.Memory result
            (first_fault self.old.genesis self.old.kit self.old.entries pos examined.now.entry) }
        ensures genesis { self.new.genesis ≡ self.old.genesis }
        ensures kit { self.new.kit ≡ self.old.kit }
        ensures ok { OnOk result (self.new.entries ≡ self.old.entries ++ examined.now.entry ∷ []) }
        ensures unchanged { OnErr result (self.new.entries ≡ self.old.entries) }
    {
        self.accept_known(pos, examined.entry(), Some(examined.known()))
    }

    /// Accepts an entry's bytes, of which a verdict may be known.
    pub fn accept_known(
        &mut self,
        pos: u32,
        bytes: &[u8],
        known: Option<&Verdict>,
    ) -> Result<(), Refusal>
        requires exact { IfSome known (λ v. IsExact v.now bytes.now) }
        ensures fault { AnswersUnless Refusal.Memory result
            (first_fault self.old.genesis self.old.kit self.old.entries pos bytes.now) }
        ensures genesis { self.new.genesis ≡ self.old.genesis }
        ensures kit { self.new.kit ≡ self.old.kit }
        ensures ok { OnOk result (self.new.entries ≡ self.old.entries ++ bytes.now ∷ []) }
        ensures unchanged { OnErr result (self.new.entries ≡ self.old.entries) }
    {
        let prepared = self.prepare_known(pos, bytes, known)?;
        self.commit(prepared);
        Ok(())
    }

    // The checks of an entry that need keys, and what the entry does.
    fn effect_of(&self, checked: &Checked) -> Result<Effect, Refusal>
        requires { IsChecked self.now.genesis self.now.entries checked.now }
        ensures fault { AnswersUnless Refusal.Memory result (first_of
            (key_checks self.now.genesis self.now.kit self.now.entries checked.now.entry)) }
        ensures ok { IfOk result
            (IsEffect self.now.genesis self.now.kit self.now.entries checked.now) }
    {
        match checked.change() {
            None => self.edit_effect(checked),
            Some(body) => self.change_effect(checked, body),
        }
    }

    // The checks of an edit's body, and what it does: its marks pass the forms since its base.
    fn edit_effect(&self, checked: &Checked) -> Result<Effect, Refusal>
        requires checked { IsChecked self.now.genesis self.now.entries checked.now }
        requires edit { change_of checked.now.entry ≡ None }
        ensures fault { AnswersUnless Refusal.Memory result (first_of
            (key_checks self.now.genesis self.now.kit self.now.entries checked.now.entry)) }
        ensures ok { IfOk result
            (IsEffect self.now.genesis self.now.kit self.now.entries checked.now) }
    {
        let header = checked.header();
        // Without a key no body is a delta.
        let Some(key) = self.key() else {
            return Err(Refusal::BadPayload);
        };
        let marks = read_payload(self.allocator(), key, stream_of(header), checked.body())?;
        if marks.base_len() != self.text_len_at(header.base) {
            return Err(Refusal::WrongLength);
        }
        let form = self.over_forms(marks, header.base)?;
        Ok(Effect {
            form,
            key: Some(*key),
        })
    }

    // The checks of the key that a change starts, and what the change does: it keeps the text.
    fn change_effect(&self, checked: &Checked, body: &ChangeBody) -> Result<Effect, Refusal>
        requires checked { IsChecked self.now.genesis self.now.entries checked.now }
        requires change { change_of checked.now.entry ≡ Some body.now }
        ensures fault { AnswersUnless Refusal.Memory result (first_of
            (key_checks self.now.genesis self.now.kit self.now.entries checked.now.entry)) }
        ensures ok { IfOk result
            (IsEffect self.now.genesis self.now.kit self.now.entries checked.now) }
    {
        let len = self.len();
        let epoch = self.heads().epoch() + 1;
        let key = self.kit().started_key(checked.header(), body, epoch);
        let old = self.key().copied();
        check_new_key(self.document(), self.own_device(), epoch, body, old, key)?;
        let form = Delta::keep_all(self.allocator(), self.text_len_at(len))?;
        Ok(Effect { form, key })
    }

    // What marks, stated on the text after `from` entries, become behind all forms.
    fn over_forms(&self, marks: Delta, from: u32) -> Result<Delta, Memory>
        requires in_bounds { from ≤ length self.now.entries }
        requires base { base_len marks
            ≡ length (text_of self.now.genesis self.now.kit (take from self.now.entries)) }
        requires limit { inserted_len marks ≤ MAX_EDIT_BODY }
        ensures ok { IfOk result (λ form. form ≡ later_over marks
            (drop from (forms_of self.now.genesis self.now.kit self.now.entries))) }
    {
        pass_forms(&self.forms, marks, from)
    }

    // Takes the memory of an entry's commit.
    fn ready(&mut self, checked: Checked, effect: Effect) -> Result<Prepared, Memory>
        requires checked { IsChecked self.old.genesis self.old.entries checked }
        requires passed { first_fault self.old.genesis self.old.kit self.old.entries
            (length self.old.entries + 1) checked.bytes ≡ None }
        requires effect { IsEffect self.old.genesis self.old.kit self.old.entries checked effect }
        ensures prepared { IfOk result (IsPrepared self.old.genesis self.old.kit self.old.entries) }
        ensures bytes { IfOk result (λ prepared. prepared.checked.bytes ≡ checked.bytes) }
        ensures room { OnOk result (1 ≤ self.new.spare) }
        ensures genesis { self.new.genesis ≡ self.old.genesis }
        ensures kit { self.new.kit ≡ self.old.kit }
        ensures entries { self.new.entries ≡ self.old.entries }
    {
        let Effect { form, key } = effect;
        let text = self.text.ready(&form)?;
        self.heads.reserve()?;
        match self.forms.ready(form) {
            Ok(form) => Ok(Prepared {
                checked,
                form,
                text,
                key,
            }),
            Err((_, memory)) => Err(memory),
        }
    }
}
