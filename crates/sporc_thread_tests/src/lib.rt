//! The tests of the lock, the shared client and its session, and of the server: of `sporc_turn`,
//! `sporc_shared`, `sporc_session`, `sporc_serve` and `sporc_docs`. They stand in a crate of their
//! own, since a crate with tests is proved twice. No program stands on it.
//!
//! - `lock/turns`: threads that take turns get to their ends, a lock isn't closed while a pass is
//!   away, and news wait for nobody.
//! - `shared/two_passes`: calls of two passes of one client, the one between the other's.
//! - `shared/sessions`: what sessions with an honest order leave, with one editor and with eight.
//! - `shared/meeting`: a session whose receiver and editor wait for one another, so that both have
//!   to run at one time.
//! - `shared/fetching`: entries that are fetched over a link in memory.
//! - `shared/session_faults`: each fault that ends a session but `Worn`, which takes 2^62 calls,
//!   and `Memory`; with each call of the leaf file, the link and the chance that may fail.
//! - `docs`: as many documents as a server may hold, and what a server of many documents answers:
//!   sessions of two documents beside one of none, entries of the other document, a link that fails
//!   beside one that doesn't, 64 documents at once, and a tail for each document, which has its
//!   entries alone.
//! - `serve`: a server of one document over links in memory. Answers are compared with bytes that
//!   are spelled out by hand. A tail that fails at an entry, and one that has each entry before it
//!   is answered.
//!
//! Those of the lock are built of `lock/tally` (a value under the lock) and `lock/work` (a turn,
//! rounds of turns, and a crowd of threads); those of the shared client of `shared/scene` (clients
//! and histories), `shared/order_link` (a link in memory to an order) and `shared/staging` (a
//! session from its client to what it leaves); those of the server of `serve/streams` (what clients
//! send), `serve/replies` (what servers send), `serve/notes` (a tail in memory) and `serve/server`
//! (a server over links in memory). `objects` has what both make their sessions of, and `checks`
//! what stops a test.
#![tactic(auto)]

#[cfg(test)]
mod checks;
#[cfg(test)]
mod docs;
#[cfg(test)]
mod lock;
#[cfg(test)]
mod objects;
#[cfg(test)]
mod serve;
#[cfg(test)]
mod shared;
