//! The first phase: the receiver, and each editor in a thread of its own.

ghost use Rattle.std.specs.Prelude.{◌≡◌, ◌+◌, ◌<◌, ◌^◌, length, IfErr, IfSome};
ghost use Rattle.std.specs.Result.{result_and, result_err};
ghost use Rattle.std.specs.Thread.{IsSend, IsSync};
ghost use Rattle.sporc_outside.specs.Uses.{use_of};
ghost use Rattle.sporc_turn.specs.Passes.{known_of};
ghost use Rattle.sporc_shared.specs.Passes.{IsPassOf};
ghost use Rattle.sporc_session.specs.Traces.{stand_at};
ghost use Rattle.sporc_session.specs.Crowds.{CrowdEnds, EditorEnds, IsCrowd, IsEditors, IsFirst};
ghost use Rattle.sporc_session.specs.Replies.{HasReadFor};

use crate::context::Context;
use crate::editor::do_lines;
use crate::fault::SessionFault;
use crate::phase::first_phase;
use crate::receiver::WithPass;
use sporc_exchange::Inbox;
use sporc_outside::{Chance, Gate, LeafDisk, Link};
use sporc_script::EditorScript;
use sporc_shared::Pass;
use std::sync::Wait;
use std::thread::{Threads, join_mut};

// How the receiver ended, and how the editors did: with the first fault of one, if there is one.
#[derive(Clone, Copy)]
pub(crate) struct Ends {
    pub receiver: Result<(), SessionFault>,
    pub editors: Result<(), SessionFault>,
}

// The receiver with the pass that has number 0, and an editor for each script.
pub(crate) fn crowd<
    R: Threads + Wait + Sync,
    D: LeafDisk + Send,
    L: Link + Send,
    C: Chance + Send,
    G: Gate + Sync,
>(
    context: &Context<'_, R, D, G>,
    link: &mut L,
    inbox: &mut Inbox,
    chance: &mut C,
    first: Pass,
    rounds: u32,
    scripts: &[EditorScript],
) -> (Ends, Pass)
    requires lock { IsPassOf context.now.shared.now first }
    requires first { (known_of first).number ≡ 0 }
    requires limit { (known_of first).splits + length scripts.now < 2 ^ 32 }
    ensures lock { IsPassOf context.now.shared.now result.1 }
    ensures first { (known_of result.1).number ≡ 0 }
    ensures crowd { IsCrowd (stand_at first (L.told link.old) inbox.old (C.told chance.old))
        (stand_at result.1 (L.told link.new) inbox.new (C.told chance.new))
        rounds scripts.now (result_err result.0.receiver) (result_err result.0.editors) }
    ensures shut { (L.told link.new).is_shut ≡ (L.told link.old).is_shut }
    ensures read { IfErr result.0.receiver (HasReadFor result.1)
        × IfErr result.0.editors (HasReadFor result.1) }
{
    let Some((script, others)) = scripts.split_first() else {
        let (receiver, first) = first_phase(context, link, inbox, chance, first, rounds);
        let ends = Ends {
            receiver,
            editors: Ok(()),
        };
        return (ends, first);
    };
    let (first, second) = match context.shared.split(first) {
        Ok(both) => both,
        Err(_) => unreachable!(),
    };
    let mut first = Some(first);
    let mut second = Some(second);
    let ((ends, first), (editor, second)) = join_mut(
        context.rt,
        &mut || -> (Ends, Pass)
            requires { IsSync R.row × IsSync G.row × IsSend D.row × IsSend L.row × IsSend C.row
                × IsFirst context.now.shared.now first (length others.now) }
            ensures { IfSome first.entry (λ p. CrowdEnds context.entry.now.shared.now p result.1
                (use_of L.told link.entry.now link.exit.now) inbox.entry.now inbox.exit.now
                (use_of C.told chance.entry.now chance.exit.now) rounds others.entry.now result.0) }
        {
            let pass = first.take().unwrap();
            crowd(context, link, inbox, chance, pass, rounds, others)
        },
        &mut || -> WithPass<()>
            requires { IsEditors context.now.shared.now second }
            ensures { IfSome second.entry (λ p. EditorEnds context.entry.now.shared.now p result.1
                script.entry.now result.0) }
        { do_lines(context, second.take().unwrap(), script.lines()) },
    );
    (
        with_editor(ends, editor),
        context.shared.join(first, second),
    )
}

// An editor's fault goes before those of the later ones.
fn with_editor(ends: Ends, editor: Result<(), SessionFault>) -> Ends
    ensures receiver { result.receiver ≡ ends.receiver }
    ensures editors { result.editors ≡ result_and editor ends.editors }
{
    Ends {
        receiver: ends.receiver,
        editors: editor.and(ends.editors),
    }
}
