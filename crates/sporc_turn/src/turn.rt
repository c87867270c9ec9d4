//! The lock.

ghost use Rattle.std.specs.Prelude.{◌≡◌, ◌≢◌, ◌+◌, ◌^◌, ◌<◌, ◌≤◌, max, IfOk, OnOk, IfErr, IsOk};
ghost use Rattle.std.specs.Prelude.{MatchResult, [], length, true};
ghost use Rattle.sporc_base.specs.Lists.{StartsWith};
ghost use Rattle.sporc_turn.specs.Log.{Extends, Agrees};
ghost use Rattle.sporc_turn.specs.Knowing.{first_known, seeing, adding, hearing, splitting, copied};
ghost use Rattle.sporc_turn.specs.Knowing.{joined_with};
ghost use Rattle.sporc_turn.specs.Seats.{IsIdle, has_room};
ghost use Rattle.sporc_turn.specs.Steps.{drawing, serving, reading};

use crate::held::{Held, Holder};
use crate::kept::Kept;
use crate::known::View;
use crate::limits::MAX_TICKETS;
use crate::numbers::Numbers;
use crate::pass::{Away, Pass};
use crate::rule::{
    CompareSeen, DrawTicket, JoinPass, PassServing, RaiseCount, ReadCount, ReadServing, ReadTicket,
    Rule, SplitPass,
};
use atomic_table::{Refused, Seat, Table};
use sporc_base::Memory;
use std::alloc::{AllocError, AllocFailed, Global};
use std::snapshot::Snapshot;
use std::sync::Wait;
use std::thread::yield_now;
use thiserror::Error;

const TICKET: usize = 0;

const SERVING: usize = 1;

const COUNT: usize = 2;

/// The next ticket, which was read and not drawn: all tickets below it were drawn.
#[derive(Debug, Drop, Error)]
#[error("all tickets below {0} were drawn")]
pub struct Worn(pub u64);

/// The lock. Each of its passes and held values is of this lock alone (`IsPassOf`, `IsHeldOf`).
#[derive(Drop)]
pub struct Turn<S: Kept> {
    pub(crate) table: Table<Option<S>, View<S::Item>, Snapshot<S>, Rule, Global>,
    ghost sized: { (table.shared.table_id.words ≡ 3) × (table.shared.table_id.slots ≡ 1) },
}

impl<S: Kept> Turn<S> {
    ghost use Rattle.sporc_turn.specs.Passes.{known_of, read_of, watermark_of, out_of, known_held};
    ghost use Rattle.sporc_turn.specs.Passes.{read_held, watermark_held, value_of};
    ghost use Rattle.sporc_turn.specs.Passes.{IsPassOf, IsHeldOf};

    /// The lock round a value, with the pass whose number is 0. It has seen the value's log and
    /// watermark.
    pub fn open(alloc: Global, value: S) -> Result<(Turn<S>, Pass<S::Item>), (S, Memory)>
        ensures lock { IfOk result (λ t. IsPassOf t.0 t.1) }
        ensures first { IfOk result (λ t. known_of t.1 ≡ first_known (S.log value)) }
        ensures watermark { IfOk result (λ t. watermark_of t.1 ≡ S.watermark value) }
        ensures returned { IfErr result (λ e. e.0 ≡ value) }
    {
        let count = value.logged();
        let about = Snapshot::of(&value);
        let mut slots = Vec::new(alloc);
        if let Err(AllocFailed { value }) = slots.push(Some(value)) {
            slots.destroy_empty();
            return Err((value.unwrap(), AllocError));
        }
        match Table::new(alloc, &[0, 0, count], slots, &about) {
            Ok((table, seat)) => Ok((
                Turn { table },
                Pass {
                    badge: seat.into_badge(),
                    numbers: Numbers {
                        number: 0,
                        splits: 0,
                        joined: 0,
                    },
                },
            )),
            Err(Refused { mut slots }) => {
                let value = slots.pop().unwrap().unwrap();
                slots.destroy_empty();
                Err((value, AllocError))
            }
        }
    }

    // The ticket that was drawn, which was read as the next one.
    fn draw<R: Wait>(&self, rt: &R, seat: &mut Seat<Option<S>, View<S::Item>>) -> Result<u64, Worn>
        requires table { seat.old.table_id ≡ self.now.table.shared.table_id }
        requires idle { IsIdle seat.old.me.0 }
        requires bare { seat.old.me.1 ≡ [] }
        ensures table { seat.new.table_id ≡ seat.old.table_id }
        ensures bare { seat.new.me.1 ≡ [] }
        ensures ticket { MatchResult result (λ n. (seat.old.me.0.read ≤ n) × (n < MAX_TICKETS))
            (λ w. w.0 ≡ MAX_TICKETS) }
        ensures view { MatchResult result (λ n. seat.new.me.0 ≡ drawing (reading seat.old.me.0 n) n)
            (λ w. seat.new.me.0 ≡ reading seat.old.me.0 w.0) }
    {
        'tries: for _ in rt.forever() {
            let next = self.table.shared.load::<ReadTicket>(seat, TICKET);
            if next >= MAX_TICKETS {
                return Err(Worn(next));
            }
            let found = self
                .table
                .shared
                .compare_exchange::<DrawTicket>(seat, TICKET, next, next + 1);
            if found == next {
                return Ok(next);
            }
        }
        unreachable!()
    }

    // Waits until the ticket is served, and takes the value out.
    fn wait<R: Wait>(&self, rt: &R, seat: &mut Seat<Option<S>, View<S::Item>>, ticket: u64) -> S
        requires table { seat.old.table_id ≡ self.now.table.shared.table_id }
        requires waits { seat.old.me.0.waits ≡ true }
        requires ticket { seat.old.me.0.ticket ≡ ticket }
        requires bare { seat.old.me.1 ≡ [] }
        ensures table { seat.new.table_id ≡ seat.old.table_id }
        ensures room { has_room seat.new.me.1 ≡ true }
        ensures view { seat.new.me.0 ≡ serving seat.old.me.0 (S.log result) (S.watermark result) }
        ensures found { Agrees S.by seat.old.me.0.known (S.log result) }
        ensures news { seat.old.me.0.known.news ≤ length (S.log result) }
        ensures watermark { seat.old.me.0.watermark ≤ S.watermark result }
    {
        'turns: for _ in rt.forever() {
            let served = self.table.shared.load::<ReadServing>(seat, SERVING);
            if served == ticket {
                return self.table.shared.exchange(seat, 0, None).unwrap();
            }
            yield_now();
        }
        unreachable!()
    }

    /// Draws a ticket, waits until it is served, and takes the value out. The log of the value
    /// agrees with all that the pass knows, and is no shorter than its last news; and the watermark
    /// is none below the one that the pass saw last.
    ///
    /// No ticket is drawn if all of them were: then the pass comes back, and has read `MAX_TICKETS`
    /// as the next ticket. The next ticket is never below one that was read before, so it stays
    /// that.
    pub fn take<R: Wait>(
        &self,
        rt: &R,
        pass: Pass<S::Item>,
    ) -> Result<Held<S>, (Pass<S::Item>, Worn)>
        requires lock { IsPassOf self.now pass }
        ensures lock { MatchResult result (IsHeldOf self.now) (λ e. IsPassOf self.now e.0) }
        ensures found { IfOk result (λ h. Agrees S.by (known_of pass) (S.log (value_of h))) }
        ensures news { IfOk result (λ h. (known_of pass).news ≤ length (S.log (value_of h))) }
        ensures held { IfOk result
            (λ h. known_held h ≡ seeing (known_of pass) (S.log (value_of h))) }
        ensures watermark { MatchResult result
            (λ h. watermark_held h ≡ S.watermark (value_of h))
            (λ e. watermark_of e.0 ≡ watermark_of pass) }
        ensures watermark_kept { IfOk result (λ h. watermark_of pass ≤ watermark_held h) }
        ensures drawn { IfOk result
            (λ h. (read_of pass ≤ read_held h) × (read_held h < MAX_TICKETS)) }
        ensures worn { IfErr result (λ e. e.1.0 ≡ MAX_TICKETS) }
        ensures read { IfErr result (λ e. read_of e.0 ≡ e.1.0) }
        ensures unchanged { IfErr result (λ e. known_of e.0 ≡ known_of pass) }
    {
        let Pass { badge, numbers } = pass;
        let mut seat = badge.into_seat();
        let ticket = match self.draw(rt, &mut seat) {
            Ok(ticket) => ticket,
            Err(worn) => {
                let badge = seat.into_badge();
                return Err((Pass { badge, numbers }, worn));
            }
        };
        let value = self.wait(rt, &mut seat, ticket);
        let holder = Holder {
            seat,
            ticket,
            numbers,
        };
        Ok(Held { holder, value })
    }

    /// Puts the value home, and ends the turn. The pass has seen the whole log, and the items that
    /// were added in this turn are its own.
    pub fn give(&self, held: Held<S>) -> Pass<S::Item>
        requires lock { IsHeldOf self.now held }
        requires log { Extends S.by (known_held held) (S.log (value_of held)) }
        requires watermark { watermark_held held ≤ S.watermark (value_of held) }
        ensures lock { IsPassOf self.now result }
        ensures known { known_of result ≡ adding (known_held held) (S.log (value_of held)) }
        ensures read { read_of result ≡ read_held held }
        ensures watermark { watermark_of result ≡ S.watermark (value_of held) }
        ensures agrees { Agrees S.by (known_of result) (S.log (value_of held)) }
    {
        let Held { holder, value } = held;
        let Holder {
            mut seat,
            ticket,
            numbers,
        } = holder;
        let count = value.logged();
        match self.table.shared.exchange(&mut seat, 0, Some(value)) {
            None => {}
            Some(_) => unreachable!(),
        }
        self.table
            .shared
            .store::<RaiseCount>(&mut seat, COUNT, count);
        self.table
            .shared
            .store::<PassServing>(&mut seat, SERVING, ticket + 1);
        Pass {
            badge: seat.into_badge(),
            numbers,
        }
    }

    /// A length of the log: at least that of what the pass has seen, and at least its earlier news.
    /// It waits for nobody.
    pub fn news(&self, pass: Pass<S::Item>) -> (u64, Pass<S::Item>)
        requires lock { IsPassOf self.now pass }
        ensures lock { IsPassOf self.now result.1 }
        ensures seen { length (known_of pass).seen ≤ result.0 }
        ensures again { (known_of pass).news ≤ result.0 }
        ensures known { known_of result.1 ≡ hearing (known_of pass) result.0 }
        ensures read { read_of result.1 ≡ read_of pass }
        ensures watermark { watermark_of result.1 ≡ watermark_of pass }
    {
        let Pass { badge, numbers } = pass;
        let mut seat = badge.into_seat();
        let news = self.table.shared.load::<ReadCount>(&mut seat, COUNT);
        let pass = Pass {
            badge: seat.into_badge(),
            numbers,
        };
        (news, pass)
    }

    /// Number 0 and a new pass, whose number is one more than the last one's. It has seen as much,
    /// and has no items of its own. A split takes no memory, so it never fails.
    pub fn split(
        &self,
        pass: Pass<S::Item>,
    ) -> Result<(Pass<S::Item>, Pass<S::Item>), (Pass<S::Item>, Memory)>
        requires lock { IsPassOf self.now pass }
        requires first { (known_of pass).number ≡ 0 }
        requires limit { (known_of pass).splits + 1 < 2 ^ 32 }
        ensures ok { IsOk result }
        ensures lock { IfOk result (λ r. IsPassOf self.now r.0 × IsPassOf self.now r.1) }
        ensures old { IfOk result (λ r. known_of r.0 ≡ splitting (known_of pass)) }
        ensures new { IfOk result (λ r. known_of r.1 ≡ copied (known_of pass)) }
        ensures read { IfOk result
            (λ r. (read_of r.0 ≡ read_of pass) × (read_of r.1 ≡ read_of pass)) }
        ensures watermark { IfOk result (λ r. watermark_of r.0 ≡ watermark_of pass) }
        ensures copied_watermark { IfOk result (λ r. watermark_of r.1 ≡ watermark_of pass) }
        ensures returned { IfErr result (λ e. e.0 ≡ pass) }
    {
        let Pass { badge, numbers } = pass;
        let mut seat = badge.into_seat::<Option<S>>();
        let other = self.table.shared.split_seat::<SplitPass>(&mut seat);
        let splits = numbers.splits + 1;
        Ok((
            Pass {
                badge: seat.into_badge(),
                numbers: Numbers {
                    number: 0,
                    splits,
                    joined: numbers.joined,
                },
            },
            Pass {
                badge: other.into_badge(),
                numbers: Numbers {
                    number: splits,
                    splits: 0,
                    joined: 0,
                },
            },
        ))
    }

    /// Joins a pass back to number 0, which keeps its items. It has seen the longer of both lists,
    /// and each of them is a prefix of that one. Of the next tickets that both read it keeps the
    /// larger, and so of the watermarks that both saw.
    pub fn join(&self, a: Pass<S::Item>, b: Pass<S::Item>) -> Pass<S::Item>
        requires lock { IsPassOf self.now a × IsPassOf self.now b }
        requires first { (known_of a).number ≡ 0 }
        requires other { (known_of b).number ≢ 0 }
        ensures lock { IsPassOf self.now result }
        ensures known { known_of result ≡ joined_with (known_of a) (known_of b) }
        ensures read { read_of result ≡ max (read_of a) (read_of b) }
        ensures watermark { watermark_of result ≡ max (watermark_of a) (watermark_of b) }
        ensures first { StartsWith (known_of result).seen (known_of a).seen }
        ensures other { StartsWith (known_of result).seen (known_of b).seen }
        ensures agrees { Agrees S.by (known_of result) (known_of result).seen }
    {
        let Pass { badge, numbers } = a;
        let mut seat = badge.into_seat::<Option<S>>();
        let Pass {
            badge: other,
            numbers: _,
        } = b;
        self.table
            .shared
            .join_seat::<JoinPass>(&mut seat, other.into_seat());
        self.table.shared.load::<CompareSeen>(&mut seat, TICKET);
        Pass {
            badge: seat.into_badge(),
            numbers: Numbers {
                number: 0,
                splits: numbers.splits,
                joined: numbers.joined + 1,
            },
        }
    }

    /// The value, if each pass that was split was joined back. Its log is what number 0 has seen,
    /// and its watermark none below the one that number 0 saw last. Otherwise the lock and the pass
    /// come back, with the number of passes that are out.
    pub fn close(self, pass: Pass<S::Item>) -> Result<S, (Turn<S>, Pass<S::Item>, Away)>
        requires lock { IsPassOf self pass }
        requires first { (known_of pass).number ≡ 0 }
        ensures all { OnOk result (out_of pass ≡ 0) }
        ensures log { IfOk result (λ x. S.log x ≡ (known_of pass).seen) }
        ensures watermark { IfOk result (λ x. watermark_of pass ≤ S.watermark x) }
        ensures agrees { IfOk result (λ x. Agrees S.by (known_of pass) (S.log x)) }
        ensures away { IfErr result (λ e. (e.2.out ≡ out_of pass) × (e.2.out ≢ 0)) }
        ensures returned { IfErr result (λ e. (e.0 ≡ self) × (e.1 ≡ pass)) }
    {
        if let Some(away) = pass.away() {
            return Err((self, pass, away));
        }
        let Pass { badge, numbers: _ } = pass;
        let Turn { table } = self;
        let mut closed = table.close_with(badge.into_seat());
        let value = closed.take(0).unwrap();
        closed.free();
        Ok(value)
    }
}
