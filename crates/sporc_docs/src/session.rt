//! One session of a server of many documents.

ghost use Rattle.std.specs.Prelude.{◌≡◌, ◌<◌, length, IfSome};
ghost use Rattle.sporc_outside.specs.Told.{IsTrueIfTold};
ghost use Rattle.sporc_turn.specs.declared.pass.Pass.{Pass};
ghost use Rattle.sporc_turn.specs.Passes.{known_of, read_of};
ghost use Rattle.sporc_order.specs.Sessions.{IsFramed};
ghost use Rattle.sporc_serve.specs.Crowds.{IsOther};
ghost use Rattle.sporc_serve.specs.Traces.{LeadsFrom};
ghost use Rattle.sporc_serve.specs.Turns.{HasReadLast};
ghost use Rattle.std.specs.List.{position_from};
ghost use Rattle.std.specs.Str.{bytes_eq};
ghost use Rattle.sporc_serve.specs.Visits.{visit};
ghost use Rattle.sporc_docs.specs.Hands.{HavePasses};
ghost use Rattle.sporc_docs.specs.Sessions.{Became, Sits, named_by};

use crate::docs_service::DocsService;
use crate::hands::Hand;
use sporc_base::is_same;
use sporc_order::Tail;
use sporc_outside::{Gate, Link};
use sporc_serve::{Item, Service, SessionEnd, first_message, serve_from};
use sporc_turn::Pass;
use sporc_wire::{Frames, ToServer};
use std::sync::Wait;

// The session over a link from its first message on, by the pass that is kept for the document
// which that names.
fn serve_at<R: Wait, L: Link, G: Gate, T: Tail>(
    service: &Service<'_, R, G, T>,
    link: &mut L,
    frames: &mut Frames,
    first: &ToServer,
    pass: &mut Option<Pass<Item>>,
) -> SessionEnd
    requires lock { IsOther service.now.turn.now pass.old }
    requires framed { IsFramed first.now }
    ensures lock { IsOther service.now.turn.now pass.new }
    ensures number { Became (λ p p'. (known_of p').number ≡ (known_of p).number) pass.old pass.new }
    ensures worn { Became (λ p p'. HasReadLast (read_of p') result) pass.old pass.new }
    ensures shut { (L.told link.new).is_shut ≡ (L.told link.old).is_shut }
    ensures unkept { result ≡ SessionEnd.Unkept → T.may_fail }
    ensures goes { Became (λ p p'. LeadsFrom first.now frames.old (L.told link.old)
        (L.told link.new) result (known_of p) (known_of p')) pass.old pass.new }
{
    let taken = pass.take().unwrap();
    let (end, after) = serve_from(service, link, frames, first, taken);
    *pass = Some(after);
    end
}

// The place that a first message names, from 0 on.
fn named_by(documents: &[[u8; 16]], message: &ToServer) -> Option<usize>
    ensures value { result ≡ named_by documents.now message.now }
    ensures within { IfSome result (λ place. place < length documents.now) }
{
    match message {
        ToServer::Hello { document, .. } => place_among(documents, document),
        ToServer::Submit { .. } | ToServer::Pull { .. } => None,
    }
}

// The place of a document, from 0 on.
fn place_among(documents: &[[u8; 16]], document: &[u8; 16]) -> Option<usize>
    ensures value { result ≡ position_from (bytes_eq document.now) 0 documents.now }
    ensures within { IfSome result (λ place. place < length documents.now) }
{
    documents.iter().position(|held| is_same(document, held))
}

// A session over a link. Its first message names its document, for good, and a first message that
// names none ends it. A hand has a pass for each document.
fn serve_one<R: Wait, L: Link, G: Gate, T: Tail>(
    docs: &DocsService<'_, R, G, T>,
    link: &mut L,
    hand: &mut [Option<Pass<Item>>],
) -> SessionEnd
    requires locks { HavePasses docs.now.turns.now hand.old }
    requires one_length { length docs.now.documents.now ≡ length docs.now.turns.now }
    ensures locks { HavePasses docs.now.turns.now hand.new }
    ensures session { Sits docs.now.documents.now
        (visit (L.told link.old) (L.told link.new) result) hand.old hand.new }
    ensures unkept { result ≡ SessionEnd.Unkept → T.may_fail }
    ensures shut { IsTrueIfTold (L.told link.new).is_shut }
{
    let mut frames = Frames::new(docs.alloc);
    let first = match first_message(docs.rt, link, &mut frames) {
        Ok(first) => first,
        Err(end) => {
            link.shut();
            return end;
        }
    };
    let Some(place) = named_by(docs.documents, &first) else {
        link.shut();
        return SessionEnd::Closed;
    };
    let service = Service {
        rt: docs.rt,
        alloc: docs.alloc,
        turn: &docs.turns[place],
        gate: docs.gate,
    };
    let end = serve_at(&service, link, &mut frames, &first, &mut hand[place]);
    link.shut();
    end
}

// A session over a link with a hand.
pub(crate) fn serve_hand<R: Wait, L: Link, G: Gate, T: Tail>(
    docs: &DocsService<'_, R, G, T>,
    link: &mut L,
    hand: &mut Hand,
) -> SessionEnd
    requires locks { HavePasses docs.now.turns.now hand.old.passes.items }
    requires one_length { length docs.now.documents.now ≡ length docs.now.turns.now }
    ensures locks { HavePasses docs.now.turns.now hand.new.passes.items }
    ensures session { Sits docs.now.documents.now (visit (L.told link.old) (L.told link.new) result)
        hand.old.passes.items hand.new.passes.items }
    ensures unkept { result ≡ SessionEnd.Unkept → T.may_fail }
    ensures shut { IsTrueIfTold (L.told link.new).is_shut }
{
    serve_one(docs, link, &mut hand.passes)
}
