//! The orders of many documents.

ghost use Rattle.std.specs.Prelude.{◌≡◌, ◌≢◌, ◌≤◌, ◌<◌, ◌∷◌, ◌++◌, [], length, None, Err, IfErr};
ghost use Rattle.std.specs.Prelude.{IfSome, OnOk, OnErr};
ghost use Rattle.sporc_docs.specs.Lists.{is_of, place_of, route_of, AreApart};
ghost use Rattle.sporc_wire.specs.declared.limits.TheConstants.{MAX_DOCUMENTS};

use crate::fault::DocsFault;
use sporc_base::is_same;
use sporc_order::Order;
use sporc_wire::{MAX_DOCUMENTS, ToServer};
use std::alloc::{AllocFailed, Global};
use std::marker::Model;

/// The orders of many documents, one for each.
///
/// Contracts see the orders, as they were added.
#[derive(Drop)]
pub struct Docs {
    orders: Vec<Order>,
}

impl Model for Docs {
    ghost use Rattle.std.specs.Prelude.{◌≤◌, List, length};
    ghost use Rattle.sporc_order.specs.OrderModel.{OrderModel};
    ghost use Rattle.sporc_docs.specs.Lists.{AreApart};
    ghost use Rattle.sporc_wire.specs.declared.limits.TheConstants.{MAX_DOCUMENTS};

    ghost Value = { List OrderModel };

    ghost view = { λ d. d.orders.items };

    ghost invariant = { λ d. (length d.orders.items ≤ MAX_DOCUMENTS) × AreApart d.orders.items };
}

impl Docs {
    /// No document.
    pub fn new(alloc: Global) -> Docs
        ensures value { result ≡ [] }
    {
        Docs {
            orders: Vec::new(alloc),
        }
    }

    // These orders.
    pub(crate) fn of(orders: Vec<Order>) -> Docs
        requires apart { AreApart orders.items }
        requires limit { length orders.items ≤ MAX_DOCUMENTS }
        ensures value { result ≡ orders.items }
    {
        Docs { orders }
    }

    // How many documents there are.
    pub(crate) fn len(&self) -> usize
        ensures value { result ≡ length self.now }
    {
        self.orders.len()
    }

    /// Adds the order of a document, unless one of it is held already, or as many as may be.
    pub fn add(&mut self, order: Order) -> Result<(), (DocsFault, Order)>
        ensures ok { OnOk result (self.new ≡ self.old ++ order ∷ []) }
        ensures new { OnOk result ((place_of self.old order.genesis.document ≡ None)
            × (length self.old < MAX_DOCUMENTS)) }
        ensures exists { IfErr result
            (λ e. e.0 ≡ DocsFault.Exists → place_of self.old order.genesis.document ≢ None) }
        ensures full { IfErr result
            (λ e. e.0 ≡ DocsFault.Full → (place_of self.old order.genesis.document ≡ None)
            × (length self.old ≡ MAX_DOCUMENTS)) }
        ensures out_of_memory { IfErr result
            (λ e. e.0 ≡ DocsFault.Memory → (place_of self.old order.genesis.document ≡ None)
            × (length self.old < MAX_DOCUMENTS)) }
        ensures unchanged { OnErr result (self.new ≡ self.old) }
        ensures returned { IfErr result (λ e. e.1 ≡ order) }
    {
        if place_in(&self.orders, order.document()).is_some() {
            return Err((DocsFault::Exists, order));
        }
        if self.orders.len() >= MAX_DOCUMENTS {
            return Err((DocsFault::Full, order));
        }
        match self.orders.push(order) {
            Ok(()) => Ok(()),
            Err(AllocFailed { value }) => Err((DocsFault::Memory, value)),
        }
    }

    /// The place of the document that a Hello names, from 0 on in the order added. None exactly if
    /// the message is no Hello, or the document isn't held.
    pub fn route(&self, message: &ToServer) -> Option<u32>
        ensures value { result ≡ route_of self.now message.now }
    {
        match message {
            ToServer::Hello { document, .. } => Some(place_in(&self.orders, document)? as u32),
            ToServer::Submit { .. } | ToServer::Pull { .. } => None,
        }
    }

    /// The orders, as they were added.
    pub fn orders(&self) -> &[Order]
        ensures value { result.now ≡ self.now }
    {
        self.orders.as_slice()
    }

    /// The orders, as they were added.
    pub fn into_orders(self) -> Vec<Order>
        ensures value { result.items ≡ self }
        ensures apart { AreApart result.items }
        ensures within { length result.items ≤ MAX_DOCUMENTS }
    {
        self.orders
    }
}

// Whether an order is this document's.
fn is_of(order: &Order, document: &[u8; 16]) -> bool
    ensures { result ≡ is_of document.now order.now }
{
    is_same(document, order.document())
}

// The place of a document's order, from 0 on.
fn place_in(orders: &[Order], document: &[u8; 16]) -> Option<usize>
    ensures value { result ≡ place_of orders.now document.now }
    ensures within { IfSome result (λ place. place < length orders.now) }
{
    orders.iter().position(|order| is_of(order, document))
}
