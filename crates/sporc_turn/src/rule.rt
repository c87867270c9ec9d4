//! The rule of the lock's table, and the kinds of step on its words, each with what it tells.
//!
//! Word 0 is the next ticket, word 1 the ticket that is served, and word 2 the length of the log.
//! The one slot holds the value, or nothing while the value is out.

ghost use Rattle.std.specs.Prelude.{length};
ghost use Rattle.sporc_turn.specs.Rule.{TurnInvariant};
ghost use Rattle.sporc_turn.specs.Steps.{newcomer, left_of_split, right_of_split, of_both};
ghost use Rattle.sporc_turn.specs.Steps.{spent_view, ReadsTicket, DrawsTicket, ReadsServing};
ghost use Rattle.sporc_turn.specs.Steps.{RaisesCount, PassesServing, ReadsCount, Compares};

use crate::kept::Kept;
use crate::known::View;
use atomic_table::{Join, Play, Split, TableRule};
use std::snapshot::Snapshot;

/// The rule holds between any two steps.
pub(crate) struct Rule;

impl<S: Kept> TableRule<Option<S>, View<S::Item>, Snapshot<S>> for Rule {
    ghost holds = { λ key. TurnInvariant S.by S.log S.watermark (length (S.log key.value)) };

    ghost first = { λ key. newcomer (S.log key.value) (S.watermark key.value) };
}

/// A load of the ticket word.
pub(crate) struct ReadTicket;

impl<S: Kept> Play<Option<S>, View<S::Item>> for ReadTicket {
    ghost then = { λ st m r n. ReadsTicket m r n };
}

/// A compare-and-exchange of the ticket word.
pub(crate) struct DrawTicket;

impl<S: Kept> Play<Option<S>, View<S::Item>> for DrawTicket {
    ghost then = { λ st m r n. DrawsTicket m st.first r n };
}

/// A load of the serving word, at which the value is taken out where the turn has come.
pub(crate) struct ReadServing;

impl<S: Kept> Play<Option<S>, View<S::Item>> for ReadServing {
    ghost then = { λ st m r n. ReadsServing m S.log S.watermark S.by r n };
}

/// A store of the count, while the value is out.
pub(crate) struct RaiseCount;

impl<S: Kept> Play<Option<S>, View<S::Item>> for RaiseCount {
    ghost then = { λ st m r n. RaisesCount m S.log S.watermark S.by n };
}

/// A store of the serving word, at which the value is put home.
pub(crate) struct PassServing;

impl<S: Kept> Play<Option<S>, View<S::Item>> for PassServing {
    ghost then = { λ st m r n. PassesServing m n };
}

/// A load of the count.
pub(crate) struct ReadCount;

impl<S: Kept> Play<Option<S>, View<S::Item>> for ReadCount {
    ghost then = { λ st m r n. ReadsCount m r n };
}

/// A load after a join, at which the lists that both passes had seen are compared.
pub(crate) struct CompareSeen;

impl<S: Kept> Play<Option<S>, View<S::Item>> for CompareSeen {
    ghost then = { λ st m r n. Compares m S.by n };
}

/// A pass is split.
pub(crate) struct SplitPass;

impl<E> Split<View<E>> for SplitPass {
    ghost left = { left_of_split };

    ghost right = { right_of_split };
}

/// A pass is joined to the first.
pub(crate) struct JoinPass;

impl<E> Join<View<E>> for JoinPass {
    ghost both = { of_both };

    ghost spent = { spent_view };
}
