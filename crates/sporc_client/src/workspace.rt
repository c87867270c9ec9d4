//! A client's own part.

ghost use Rattle.std.specs.Prelude.{◌≡◌, ◌+◌, ◌≤◌, ◌<◌, ◌∷◌, ◌++◌, [], drop, take, length, None};
ghost use Rattle.std.specs.Prelude.{Some, option_copied, slice_get, IfOk, OnOk};
ghost use Rattle.sporc_delta.specs.Marks.{base_len, inserted_len, keep_marks};
ghost use Rattle.sporc_delta.specs.declared.limits.TheConstants.{MAX_COUNT, MAX_TEXT_LEN};
ghost use Rattle.sporc_suffix.specs.Forms.{Follow, all_inserted, later_over, reached};
ghost use Rattle.sporc_suffix.specs.Runs.{IsReadyAt};
ghost use Rattle.sporc_line.specs.Document.{text_after};
ghost use Rattle.sporc_client.specs.declared.limits.TheConstants.{MAX_EVENTS};
ghost use Rattle.sporc_client.specs.Coming.{CanCome, effect, flight_after, pending_after};
ghost use Rattle.sporc_client.specs.Step.{is_same_as};
ghost use Rattle.sporc_client.specs.Workspace.{SameOwn};

use crate::coming::Coming;
use crate::event::Event;
use crate::pending::Pending;
use crate::rebasing::put_all;
use sporc_base::{Bytes, Memory, is_same};
use sporc_delta::Delta;
use sporc_suffix::{Blocks, ReadyForm, Steps};
use std::alloc::Global;
use std::marker::{Brand, Model};
use std::sync::ledger::{Blank, Ledger};

/// The pending items, the entry on its way, a shown delta for each event, and the journal.
#[derive(Drop)]
pub(crate) struct Workspace {
    pending: Vec<Pending>,
    flight: Option<Bytes>,
    shown: Blocks,
    journal: Vec<Event>,
}

impl Model for Workspace {
    ghost use Rattle.std.specs.Prelude.{◌-◌, min};
    ghost use Rattle.std.specs.Vec.{vec_capacity, vec_len};
    ghost use Rattle.sporc_client.specs.Workspace.{WorkspaceModel, WorkspaceInvariant};

    ghost Value = { WorkspaceModel };

    ghost view = { λ w. record {
      pending = w.pending.items;
      flight = w.flight;
      shown = w.shown.forms;
      journal = w.journal.items;
      spare = min (min (vec_capacity w.pending - vec_len w.pending)
          (vec_capacity w.journal - vec_len w.journal)) w.shown.spare;
    } };

    ghost invariant = { λ w. WorkspaceInvariant w.shown.base w.shown.forms w.journal.items };
}

impl Workspace {
    /// Nothing of one's own, and no events.
    pub(crate) fn new(alloc: Global) -> Result<Workspace, Memory>
        ensures pending { IfOk result (λ w. w.pending ≡ []) }
        ensures flight { IfOk result (λ w. w.flight ≡ None) }
        ensures shown { IfOk result (λ w. w.shown ≡ []) }
        ensures journal { IfOk result (λ w. w.journal ≡ []) }
    {
        Ok(Workspace {
            pending: Vec::new(alloc),
            flight: None,
            shown: Blocks::new(alloc, 0)?,
            journal: Vec::new(alloc),
        })
    }

    /// The pending items.
    pub(crate) fn pending(&self) -> &[Pending]
        ensures value { result.now ≡ self.now.pending }
    {
        self.pending.as_slice()
    }

    /// The entry on its way.
    pub(crate) fn flight(&self) -> Option<&Bytes>
        ensures value { option_copied result ≡ self.now.flight }
    {
        self.flight.as_ref()
    }

    /// Whether these are the bytes of the entry on its way.
    pub(crate) fn is_on_its_way(&self, bytes: &[u8]) -> bool
        ensures value { result ≡ is_same_as self.now.flight bytes.now }
    {
        match &self.flight {
            None => false,
            Some(entry) => is_same(entry.as_slice(), bytes),
        }
    }

    /// The journal.
    pub(crate) fn journal(&self) -> &[Event]
        ensures value { result.now ≡ self.now.journal }
        ensures each { length self.now.shown ≡ length result.now }
        ensures within { length result.now ≤ MAX_EVENTS }
    {
        self.journal.as_slice()
    }

    /// The shown delta of an event.
    pub(crate) fn shown_delta(&self, event: u64) -> Option<&Delta>
        ensures value { option_copied result ≡ slice_get self.now.shown event }
    {
        if event >= self.journal.len() as u64 {
            return None;
        }
        Some(self.shown.form(event as u32))
    }

    /// The length of the text shown now.
    pub(crate) fn shown_len(&self) -> u64
        requires follow { Follow 0 self.now.shown }
        ensures value { result ≡ length (text_after self.now.shown) }
    {
        self.shown_len_at(self.journal.len() as u32)
    }

    /// The length of the text shown after so many events.
    #[tactic(auto, using(crate::proofs::Shown::length_last))]
    pub(crate) fn shown_len_at(&self, events: u32) -> u64
        requires in_bounds { events ≤ length self.now.shown }
        requires follow { Follow 0 self.now.shown }
        ensures value { result ≡ length (text_after (take events self.now.shown)) }
    {
        if events == 0 {
            return 0;
        }
        self.shown.form(events - 1).out_len()
    }

    /// A delta that is stated on the text shown after `seen` events, restated on the text shown
    /// now.
    pub(crate) fn restated(&self, delta: &Delta, seen: u32) -> Result<Delta, Memory>
        requires in_bounds { seen ≤ length self.now.shown }
        requires base { base_len delta.now ≡ reached 0 (take seen self.now.shown) }
        requires limit { base_len delta.now + inserted_len delta.now
            + all_inserted (drop seen self.now.shown) ≤ MAX_TEXT_LEN }
        ensures value { IfOk result (λ d. d ≡ later_over delta.now (drop seen self.now.shown)) }
    {
        behind::<Brand>(Blank::new(1), &self.shown, delta, seen)
    }

    /// Takes the memory of one more event, with this shown delta, and of one more pending item.
    pub(crate) fn ready(&mut self, form: Delta) -> Result<ReadyForm, Memory>
        requires base { base_len form ≡ reached 0 self.old.shown }
        ensures ok { IfOk result (λ ready. ready.form ≡ form) }
        ensures made { IfOk result (IsReadyAt 0 self.new.shown) }
        ensures room { OnOk result (0 < self.new.spare) }
        ensures pending { self.new.pending ≡ self.old.pending }
        ensures flight { self.new.flight ≡ self.old.flight }
        ensures shown { self.new.shown ≡ self.old.shown }
        ensures journal { self.new.journal ≡ self.old.journal }
    {
        self.pending.reserve(1)?;
        self.journal.reserve(1)?;
        match self.shown.ready(form) {
            Ok(ready) => Ok(ready),
            Err((_, memory)) => Err(memory),
        }
    }

    /// Appends an event with the shown delta that was made ready.
    pub(crate) fn record_event(&mut self, event: Event, ready: ReadyForm)
        requires made { IsReadyAt 0 self.old.shown ready }
        requires limit { length self.old.shown < MAX_EVENTS }
        requires room { 0 < self.old.spare }
        ensures pending { self.new.pending ≡ self.old.pending }
        ensures flight { self.new.flight ≡ self.old.flight }
        ensures shown { self.new.shown ≡ self.old.shown ++ ready.form ∷ [] }
        ensures journal { self.new.journal ≡ self.old.journal ++ event ∷ [] }
    {
        self.journal.push_reserved(event);
        self.shown.put(ready);
    }

    /// Appends an event with the shown delta that was made ready, and an item.
    pub(crate) fn record_item(&mut self, event: Event, ready: ReadyForm, item: Pending)
        requires made { IsReadyAt 0 self.old.shown ready }
        requires limit { length self.old.shown < MAX_EVENTS }
        requires room { 0 < self.old.spare }
        ensures pending { self.new.pending ≡ self.old.pending ++ item ∷ [] }
        ensures flight { self.new.flight ≡ self.old.flight }
        ensures shown { self.new.shown ≡ self.old.shown ++ ready.form ∷ [] }
        ensures journal { self.new.journal ≡ self.old.journal ++ event ∷ [] }
    {
        self.pending.push_reserved(item);
        self.journal.push_reserved(event);
        self.shown.put(ready);
    }

    /// Does what an entry that comes does, and appends its event with the shown delta that was made
    /// ready.
    pub(crate) fn record_coming(&mut self, event: Event, ready: ReadyForm, coming: Coming)
        requires made { IsReadyAt 0 self.old.shown ready }
        requires limit { length self.old.shown < MAX_EVENTS }
        requires room { 0 < self.old.spare }
        requires fits { CanCome coming self.old.pending }
        ensures pending { self.new.pending
            ≡ pending_after (effect coming self.old.pending) self.old.pending }
        ensures flight { self.new.flight
            ≡ flight_after (effect coming self.old.pending) self.old.flight }
        ensures shown { self.new.shown ≡ self.old.shown ++ ready.form ∷ [] }
        ensures journal { self.new.journal ≡ self.old.journal ++ event ∷ [] }
    {
        self.record_event(event, ready);
        match coming {
            Coming::Own => {
                self.drop_first();
                self.flight = None;
            }
            Coming::Change => self.flight = None,
            Coming::Edit(passed, by_me) => {
                put_all(passed.into_vec(), &mut self.pending);
                if by_me {
                    self.flight = None;
                }
            }
        }
    }

    /// Takes the first pending item off, if there is one.
    fn drop_first(&mut self)
        ensures pending { self.new.pending ≡ drop 1 self.old.pending }
        ensures flight { self.new.flight ≡ self.old.flight }
        ensures shown { self.new.shown ≡ self.old.shown }
        ensures journal { self.new.journal ≡ self.old.journal }
    {
        if !self.pending.is_empty() {
            let _ = self.pending.remove(0);
        }
    }

    /// Appends an event with the shown delta that was made ready, and puts an entry on its way.
    pub(crate) fn record_submission(&mut self, event: Event, ready: ReadyForm, entry: Bytes)
        requires made { IsReadyAt 0 self.old.shown ready }
        requires limit { length self.old.shown < MAX_EVENTS }
        requires room { 0 < self.old.spare }
        ensures pending { self.new.pending ≡ self.old.pending }
        ensures flight { self.new.flight ≡ Some entry }
        ensures shown { self.new.shown ≡ self.old.shown ++ ready.form ∷ [] }
        ensures journal { self.new.journal ≡ self.old.journal ++ event ∷ [] }
    {
        self.record_event(event, ready);
        self.flight = Some(entry);
    }

    /// Appends an event with the shown delta that was made ready, and takes the first item off, if
    /// there is one.
    pub(crate) fn record_drop(&mut self, event: Event, ready: ReadyForm)
        requires made { IsReadyAt 0 self.old.shown ready }
        requires limit { length self.old.shown < MAX_EVENTS }
        requires room { 0 < self.old.spare }
        ensures pending { self.new.pending ≡ drop 1 self.old.pending }
        ensures flight { self.new.flight ≡ self.old.flight }
        ensures shown { self.new.shown ≡ self.old.shown ++ ready.form ∷ [] }
        ensures journal { self.new.journal ≡ self.old.journal ++ event ∷ [] }
    {
        self.record_event(event, ready);
        self.drop_first();
    }

    /// Gives all of it up, and appends the event of that with the shown delta that was made ready.
    pub(crate) fn record_discard(&mut self, event: Event, ready: ReadyForm)
        requires made { IsReadyAt 0 self.old.shown ready }
        requires limit { length self.old.shown < MAX_EVENTS }
        requires room { 0 < self.old.spare }
        ensures pending { self.new.pending ≡ [] }
        ensures flight { self.new.flight ≡ None }
        ensures shown { self.new.shown ≡ self.old.shown ++ ready.form ∷ [] }
        ensures journal { self.new.journal ≡ self.old.journal ++ event ∷ [] }
    {
        self.record_event(event, ready);
        self.pending.clear();
        let _ = self.flight.take();
    }
}

/// Takes the memory of one more event that keeps the shown text, and of one more pending item.
pub(crate) fn ready_keep(alloc: Global, own: &mut Workspace) -> Result<ReadyForm, Memory>
    requires follow { Follow 0 own.old.shown }
    requires limit { length (text_after own.old.shown) ≤ MAX_COUNT }
    ensures ok { IfOk result
        (λ ready. ready.form ≡ keep_marks (length (text_after own.old.shown))) }
    ensures made { IfOk result (IsReadyAt 0 own.new.shown) }
    ensures room { OnOk result (0 < own.new.spare) }
    ensures unchanged { SameOwn own.old own.new }
{
    let keep = Delta::keep_all(alloc, own.shown_len())?;
    let ready = own.ready(keep)?;
    Ok(ready)
}

// A delta that is stated after the first `seen` forms, restated behind all of them, with no count
// of steps.
fn behind<L: Ledger>(
    blank: Blank,
    forms: &Blocks,
    delta: &Delta,
    seen: u32,
) -> Result<Delta, Memory>
    requires name { blank.name ≡ L.name }
    requires parts { blank.parts ≡ L.parts }
    requires positive { 0 < blank.parts }
    requires in_bounds { seen ≤ length forms.now.forms }
    requires base { base_len delta.now ≡ reached forms.now.base (take seen forms.now.forms) }
    requires limit { base_len delta.now + inserted_len delta.now
        + all_inserted (drop seen forms.now.forms) ≤ MAX_TEXT_LEN }
    ensures value { IfOk result (λ d. d ≡ later_over delta.now (drop seen forms.now.forms)) }
{
    let mut steps: Steps<L> = Steps::new(blank);
    let restated = forms.later_over(delta, seen, &mut steps)?;
    Ok(restated)
}
