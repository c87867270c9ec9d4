//! Many documents on one server.
//!
//! [`Docs`] holds the orders of many documents, one for each, and tells which of them a session's
//! first message names. [`serve_docs`] listens, takes so many links, and runs a session over each:
//! its first message binds it to a document, for good. Each document's order lies under a lock of
//! its own, and each session has a hand with a pass of every lock, which is split before the first
//! link is taken, and joined back behind the last session.
//!
//! ```text
//! let mut docs = Docs::new(alloc);
//! // DocsFault::Exists, if one of that document is held
//! docs.add(order)?;
//! docs.route(&ToServer::Hello { document, member: 1 })     // its place, from 0 on
//! let (docs, answer) = serve_docs(&rt, alloc, &mut net, "localhost:4000", docs, 2, &OpenGate);
//! docs.into_orders()                                       // as they were added
//! // a server with a tail for each document
//! serve_docs_kept(.., KeptDocs { docs, tails }, 2, &OpenGate)
//! ```
//!
//! Proved: which orders are held, no two of one document, and which of them a message names; of the
//! machine of many documents that the sessions of each are answered as by the machine that holds it
//! alone ([`laws::documents_are_isolated`]); and of the server that what `sporc_serve::serve`
//! promises holds for each document with the sessions bound to it, and that each tail keeps its
//! document's entries to the end. Only tested: that 64 documents are taken and served at once, with
//! ample memory (`sporc_thread_tests`). Neither: that one document is served while another one's
//! order is held.
#![tactic(auto)]

mod crowd;
mod docs;
mod docs_service;
mod fault;
mod hands;
mod kept_docs;
pub mod laws;
mod locks;
mod server;
mod serving;
mod session;

pub use crate::docs::Docs;
pub use crate::fault::{DocsFault, DocsServeFault};
pub use crate::kept_docs::KeptDocs;
pub use crate::server::{serve_docs, serve_docs_kept};
pub use sporc_wire::MAX_DOCUMENTS;
