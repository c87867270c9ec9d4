//! Forms in their order.

ghost use Rattle.std.specs.Prelude.{◌≡◌, ◌+◌, ◌-◌, ◌≤◌, ◌<◌, ◌^◌, ◌∷◌, ◌++◌, ◌==◌, [], drop, take};
ghost use Rattle.std.specs.Prelude.{length, slice_get, Some, IfOk, IfErr, OnOk, OnErr};
ghost use Rattle.sporc_delta.specs.declared.limits.TheConstants.{MAX_TEXT_LEN};
ghost use Rattle.sporc_delta.specs.Marks.{base_len, inserted_len};
ghost use Rattle.std.specs.Vec.{vec_capacity, vec_len};
ghost use Rattle.sporc_suffix.specs.Compositions.{composed};
ghost use Rattle.sporc_suffix.specs.Forms.{TwoADigit, all_inserted, later_over, reached};
ghost use Rattle.sporc_suffix.specs.Runs.{EndWith, IsReadyAt, Joined, KeepRuns, forms_in};

use crate::Steps;
use crate::composing::in_halves;
use crate::ready::ReadyForm;
use crate::runs::{over_runs, runs_ended};
use sporc_base::Memory;
use sporc_delta::Delta;
use std::alloc::Global;
use std::marker::Model;
use std::sync::ledger::Ledger;

/// Forms in their order, each stated on the text after those before it, seen as their list, with
/// the length of the text before the first and the number of forms that can be put without memory.
/// Beside each form stand the compositions of the whole aligned runs of two forms, of four, and so
/// on, that end with it.
#[derive(Drop)]
pub struct Blocks {
    forms: Vec<ReadyForm>,
    base: u64,
}

impl Model for Blocks {
    ghost use Rattle.std.specs.Prelude.{◌-◌};
    ghost use Rattle.std.specs.Vec.{vec_capacity, vec_len};
    ghost use Rattle.sporc_suffix.specs.Forms.{BlocksModel};
    ghost use Rattle.sporc_suffix.specs.Runs.{BlocksInvariant, forms_in};

    ghost Value = { BlocksModel };

    ghost view = { λ b. record {
      base = b.base;
      forms = forms_in b.forms.items;
      spare = vec_capacity b.forms - vec_len b.forms;
    } };

    ghost invariant = { λ b. BlocksInvariant b.base b.forms.items };
}

impl Blocks {
    /// No forms, over a text of `base` characters.
    pub fn new(alloc: Global, base: u64) -> Result<Blocks, Memory>
        ensures base { IfOk result (λ b. b.base ≡ base) }
        ensures forms { IfOk result (λ b. b.forms ≡ []) }
    {
        Ok(Blocks {
            forms: Vec::new(alloc),
            base,
        })
    }

    /// The number of forms.
    pub fn len(&self) -> u32
        ensures value { result ≡ length self.now.forms }
    {
        self.forms.len() as u32
    }

    /// Whether there are no forms.
    pub fn is_empty(&self) -> bool
        ensures value { result ≡ (length self.now.forms == 0) }
    {
        self.forms.is_empty()
    }

    /// The form at a place, counted from 0.
    pub fn form(&self, place: u32) -> &Delta
        requires { place < length self.now.forms }
        ensures value { slice_get self.now.forms place ≡ Some result.now }
    {
        self.forms[place as usize].form()
    }

    /// Takes the memory of one more form, and composes the runs that become whole with it. The form
    /// is handed back where there is no memory.
    pub fn ready(&mut self, form: Delta) -> Result<ReadyForm, (Delta, Memory)>
        requires base { base_len form ≡ reached self.old.base self.old.forms }
        requires limit { length self.old.forms < 2 ^ 32 - 1 }
        ensures ok { IfOk result (λ ready. ready.form ≡ form) }
        ensures made { IfOk result (IsReadyAt self.new.base self.new.forms) }
        ensures room { OnOk result (0 < self.new.spare) }
        ensures returned { IfErr result (λ e. e.0 ≡ form) }
        ensures base_unchanged { self.new.base ≡ self.old.base }
        ensures forms_unchanged { self.new.forms ≡ self.old.forms }
    {
        match room_and_runs(&mut self.forms, &form) {
            Ok(runs) => Ok(ReadyForm::new(form, runs)),
            Err(e) => Err((form, e)),
        }
    }

    /// Appends a form that was made ready at this list. It takes no memory.
    pub fn put(&mut self, ready: ReadyForm)
        requires made { IsReadyAt self.old.base self.old.forms ready }
        requires limit { length self.old.forms < 2 ^ 32 - 1 }
        requires room { 0 < self.old.spare }
        ensures base { self.new.base ≡ self.old.base }
        ensures forms { self.new.forms ≡ self.old.forms ++ ready.form ∷ [] }
    {
        self.forms.push_reserved(ready);
    }

    /// Appends a form, which is handed back where there is no memory.
    pub fn push(&mut self, form: Delta) -> Result<(), (Delta, Memory)>
        requires base { base_len form ≡ reached self.old.base self.old.forms }
        requires limit { length self.old.forms < 2 ^ 32 - 1 }
        ensures ok { OnOk result (self.new.forms ≡ self.old.forms ++ form ∷ []) }
        ensures memory { OnErr result (self.new.forms ≡ self.old.forms) }
        ensures returned { IfErr result (λ e. e.0 ≡ form) }
        ensures unchanged { self.new.base ≡ self.old.base }
    {
        match self.ready(form) {
            Ok(ready) => {
                self.put(ready);
                Ok(())
            }
            Err(e) => Err(e),
        }
    }

    /// What `q`, stated on the text after the first `from` forms, becomes behind all forms, where
    /// it is ordered later than each. It passes whole runs, at most two for each binary digit of
    /// the number of forms.
    pub fn later_over<L: Ledger>(
        &self,
        q: &Delta,
        from: u32,
        steps: &mut Steps<L>,
    ) -> Result<Delta, Memory>
        requires in_bounds { from ≤ length self.now.forms }
        requires base { base_len q.now ≡ reached self.now.base (take from self.now.forms) }
        requires limit { base_len q.now + inserted_len q.now
            + all_inserted (drop from self.now.forms) ≤ MAX_TEXT_LEN }
        ensures ok { IfOk result (λ d. d ≡ later_over q.now (drop from self.now.forms)) }
        ensures cost { (steps.old ≤ steps.new)
            × TwoADigit steps.old steps.new (length self.now.forms - from) }
    {
        let alloc = *self.forms.allocator();
        let count = self.forms.len();
        over_runs(
            alloc,
            self.forms.as_slice(),
            0,
            q.copy()?,
            from as usize,
            count,
            steps,
        )
    }

    /// All forms after the first `from`, in one delta: it leads from the text after those to the
    /// text after all.
    pub fn composed(&self, from: u32) -> Result<Delta, Memory>
        requires in_bounds { from ≤ length self.now.forms }
        requires limit { self.now.base ≤ MAX_TEXT_LEN }
        ensures ok { IfOk result (λ d. d ≡ composed
            (reached self.now.base (take from self.now.forms)) (drop from self.now.forms)) }
    {
        let len = reached_at(self.base, self.forms.as_slice(), from as usize);
        let (_, rest) = self.forms.as_slice().split_at(from as usize);
        in_halves(*self.forms.allocator(), len, rest)
    }
}

// The length of the text after the first `count` forms, over a text of `base` characters.
fn reached_at(base: u64, forms: &[ReadyForm], count: usize) -> u64
    requires in_bounds { count ≤ length forms.now }
    requires limit { base ≤ MAX_TEXT_LEN }
    ensures value { result ≡ reached base (take count (forms_in forms.now)) }
    ensures within { result ≤ MAX_TEXT_LEN }
{
    if count == 0 {
        base
    } else {
        forms[count - 1].form().out_len()
    }
}

// Takes the room of one more form, and composes the runs that it ends.
fn room_and_runs(forms: &mut Vec<ReadyForm>, form: &Delta) -> Result<Vec<Delta>, Memory>
    requires runs { KeepRuns forms.old.items }
    requires limit { length forms.old.items < 2 ^ 32 }
    requires joined { Joined (forms_in forms.old.items ++ form.now ∷ []) }
    ensures ok { IfOk result (λ runs. EndWith (forms_in forms.old.items ++ form.now ∷ [])
        (length forms.old.items) runs.items) }
    ensures room { OnOk result (0 < vec_capacity forms.new - vec_len forms.new) }
    ensures unchanged { forms.new.items ≡ forms.old.items }
{
    forms.reserve(1)?;
    runs_ended(*forms.allocator(), forms.as_slice(), form)
}
