//! The sessions of many documents, with passes that are split before them and joined back behind.

ghost use Rattle.std.specs.Prelude.{◌≡◌, Err, length};
ghost use Rattle.std.specs.List.{AllZip};
ghost use Rattle.sporc_serve.specs.Crowds.{LeavesNet};
ghost use Rattle.sporc_docs.specs.Hands.{AllHands, HasFirst, HaveRoom, IsEmpty};
ghost use Rattle.sporc_docs.specs.Locks.{EndsAll};

use crate::crowd::crowd;
use crate::docs_service::DocsService;
use crate::hands::{Hand, join_hands, split_hands};
use sporc_order::Tail;
use sporc_outside::{Gate, Listen};
use sporc_serve::{Item, ServeFault};
use sporc_turn::Pass;
use std::sync::Wait;
use std::thread::Threads;

// Serves the documents of these locks: all passes are split before the first link is taken, and
// joined back behind the last session.
pub(crate) fn serve_hands<R: Threads + Wait + Sync, N: Listen, G: Gate + Sync, T: Tail + Send>(
    docs: &DocsService<'_, R, G, T>,
    net: &mut N,
    firsts: &mut [Option<Pass<Item>>],
    hands: &mut [Hand],
) -> Result<(), ServeFault>
where
    N: Send,
    N::Link: Send,
    requires firsts { AllZip HasFirst docs.now.turns.now firsts.old }
    requires room { HaveRoom (length hands.old) firsts.old }
    requires empty { AllHands (AllZip IsEmpty docs.now.turns.now) hands.old }
    requires one_length { length docs.now.documents.now ≡ length docs.now.turns.now }
    ensures firsts { AllZip HasFirst docs.now.turns.now firsts.new }
    ensures ending { EndsAll docs.now.documents.now firsts.old firsts.new (N.told net.old)
        (N.told net.new) (length hands.old) result }
    ensures net { LeavesNet (N.told net.old) (N.told net.new) }
    ensures unkept { result ≡ Err ServeFault.Unkept → T.may_fail }
{
    split_hands(docs.turns, firsts, hands);
    let answer = crowd(docs, net, hands);
    join_hands(docs.turns, firsts, hands);
    answer
}
