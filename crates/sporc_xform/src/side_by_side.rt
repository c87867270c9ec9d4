//! Two deltas over one text, side by side.

ghost use Rattle.std.specs.Prelude.{◌≡◌, ◌++◌, ◌<◌, [], length, IfSome, IfNone};
ghost use Rattle.sporc_delta.specs.Marks.{base_len};
ghost use Rattle.sporc_delta.specs.Parts.{marks_of};
ghost use Rattle.sporc_delta.specs.Transforms.{steps};
ghost use Rattle.sporc_xform.specs.Left.{SideBySideInvariant};
ghost use Rattle.sporc_xform.specs.Runs.{run_steps};

use crate::cursor::Cursor;
use sporc_delta::{Delta, TextSlice};
use std::marker::Model;

/// Equal steps of two deltas over one text.
#[derive(Drop)]
pub(crate) enum Run<'a> {
    /// The delta that is ordered earlier inserts a text.
    Earlier(TextSlice<'a>),
    /// The delta that is ordered later inserts a text.
    Later(TextSlice<'a>),
    /// Each keeps or removes the next characters of the text.
    Both {
        earlier_removes: bool,
        later_removes: bool,
        count: u64,
    },
}

/// Two deltas over one text, seen as the steps that are left.
#[derive(Drop)]
pub(crate) struct SideBySide<'a> {
    earlier: Cursor<'a>,
    later: Cursor<'a>,
}

impl<'a> Model for SideBySide<'a> {
    ghost use Rattle.std.specs.Prelude.{List};
    ghost use Rattle.sporc_delta.specs.Parts.{marks_of};
    ghost use Rattle.sporc_delta.specs.Transforms.{Step, steps};
    ghost use Rattle.sporc_xform.specs.Left.{SideBySideInvariant};

    ghost Value = { List Step };

    ghost view = { λ s. steps (marks_of s.earlier) (marks_of s.later) };

    ghost invariant = { λ s. SideBySideInvariant s.earlier s.later };
}

impl<'a> SideBySide<'a> {
    /// All steps of two deltas, the first of which is ordered earlier.
    pub fn new(earlier: &'a Delta, later: &'a Delta) -> SideBySide<'a>
        requires { base_len earlier.now ≡ base_len later.now }
        ensures value { result ≡ steps earlier.entry.now later.entry.now }
    {
        SideBySide {
            earlier: Cursor::new(earlier),
            later: Cursor::new(later),
        }
    }

    /// The next steps, if any are left.
    pub fn next(&mut self) -> Option<Run<'a>>
        ensures taken { IfSome result (λ run. self.old ≡ run_steps run ++ self.new) }
        ensures positive { IfSome result (λ run. 0 < length (run_steps run)) }
        ensures end { IfNone result (self.old ≡ []) }
    {
        next_run(&mut self.earlier, &mut self.later)
    }
}

// The next steps of `p` and `q`, `p` ordered earlier.
fn next_run<'a>(p: &mut Cursor<'a>, q: &mut Cursor<'a>) -> Option<Run<'a>>
    requires { SideBySideInvariant p.old q.old }
    ensures over { SideBySideInvariant p.new q.new }
    ensures taken { IfSome result (λ run. steps (marks_of p.old) (marks_of q.old)
        ≡ run_steps run ++ steps (marks_of p.new) (marks_of q.new)) }
    ensures positive { IfSome result (λ run. 0 < length (run_steps run)) }
    ensures end { IfNone result (steps (marks_of p.old) (marks_of q.old) ≡ []) }
{
    if p.inserts() {
        let len = p.first_len();
        return Some(Run::Earlier(p.take(len)));
    }
    if q.inserts() {
        let len = q.first_len();
        return Some(Run::Later(q.take(len)));
    }
    let count = p.first_len().min(q.first_len());
    if count == 0 {
        return None;
    }
    let run = Run::Both {
        earlier_removes: p.removes(),
        later_removes: q.removes(),
        count,
    };
    let _ = p.take(count);
    let _ = q.take(count);
    Some(run)
}
