//! The sessions of a server of many documents, each in a thread of its own where one can be made.

ghost use Rattle.std.specs.Prelude.{◌≡◌, Err, length};
ghost use Rattle.std.specs.Thread.{IsSync, IsSend};
ghost use Rattle.sporc_serve.specs.Crowds.{LeavesNet};
ghost use Rattle.sporc_serve.specs.Visits.{visit};
ghost use Rattle.sporc_docs.specs.Crowds.{IsCrowd, ServesOne, ServesOthers};
ghost use Rattle.sporc_docs.specs.Hands.{AllHands, HavePasses, LogsBegin};

use crate::docs_service::DocsService;
use crate::hands::Hand;
use crate::session::serve_hand;
use sporc_order::Tail;
use sporc_outside::{Gate, Listen};
use sporc_serve::{ServeFault, SessionEnd, with_end};
use std::sync::Wait;
use std::thread::{Threads, join_mut};

// Takes a link for each of these hands, and serves it with its passes: in this thread, while a new
// one takes the links behind it; where none can be made, this one takes them after its session.
pub(crate) fn crowd<R: Threads + Wait + Sync, N: Listen, G: Gate + Sync, T: Tail + Send>(
    docs: &DocsService<'_, R, G, T>,
    net: &mut N,
    hands: &mut [Hand],
) -> Result<(), ServeFault>
where
    N: Send,
    N::Link: Send,
    requires locks { AllHands (HavePasses docs.now.turns.now) hands.old }
    requires one_length { length docs.now.documents.now ≡ length docs.now.turns.now }
    ensures locks { AllHands (HavePasses docs.now.turns.now) hands.new }
    ensures crowd { AllHands LogsBegin hands.old
        → IsCrowd docs.now.turns.now docs.now.documents.now hands.old hands.new (N.told net.old)
        (N.told net.new) result }
    ensures net { LeavesNet (N.told net.old) (N.told net.new) }
    ensures unkept { result ≡ Err ServeFault.Unkept → T.may_fail }
{
    let Some((hand, others)) = hands.split_first_mut() else {
        return Ok(());
    };
    let Ok(mut link) = net.accept(docs.rt) else {
        return Err(ServeFault::ListenFault);
    };
    let (rest, end) = join_mut(
        docs.rt,
        &mut || -> Result<(), ServeFault>
            requires { IsSync R.row × IsSync G.row × IsSend N.row × IsSend N.Link.row × IsSend T.row
                × AllHands (HavePasses docs.now.turns.now) others.now
                × (length docs.now.documents.now ≡ length docs.now.turns.now) }
            ensures { ServesOthers docs.entry.now.turns.now docs.entry.now.documents.now
                others.entry.now others.exit.now (N.told net.entry.now) (N.told net.exit.now)
                result }
        { crowd(docs, net, others) },
        &mut || -> SessionEnd
            requires { IsSync R.row × IsSync G.row × IsSend T.row
                × HavePasses docs.now.turns.now hand.now.passes.items
                × (length docs.now.documents.now ≡ length docs.now.turns.now) }
            ensures { ServesOne docs.entry.now.turns.now docs.entry.now.documents.now
                (visit (N.Link.told link.entry) (N.Link.told link.exit) result)
                hand.entry.now.passes.items hand.exit.now.passes.items }
        { serve_hand(docs, &mut link, hand) },
    );
    net.take_back(link);
    with_end(rest, end)
}
