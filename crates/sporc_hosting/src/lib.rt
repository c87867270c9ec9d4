//! The commands `serve` and `serve-all`: a document, or several, served at one address.
//!
//! - [`serve`] begins with the order in the log and the tail of a document, serves sessions from
//!   it, and saves the log; then the tail's file is gone.
//! - [`serve_all`] begins with the log and the tail of each name in turn, serves sessions of all
//!   these documents at once, and saves each log.
//!
//! ```text
//! // `log 12`
//! serve(rt, alloc, &mut files, &mut net, &mut out, &asked, &OpenGate)?;
//! // `log notes 12` and `log plans 0`, or Fault::Exists
//! serve_all(rt, alloc, &mut files, &mut net, &mut out, &asked, &OpenGate)?;
//! ```
//!
//! Proved: of each one relation, in `specs/Outcomes.antt` and `specs/Hosting.antt`, between its
//! words, the folder, the sink and the net as it found and left them, and its answer. What the
//! files say is a function of their bytes (`Serving`, `Loading`), whose first fault is answered,
//! unless memory runs out or something outside fails. The sessions are those of
//! `sporc_serve::serve_kept` and `sporc_docs::serve_docs_kept`, with the tail of each log. Only
//! tested: documents with clients of their own, servers that go on from one that was stopped, and
//! that calls succeed with ample memory (`sporc_top_tests`). Neither: that a real folder keeps what
//! is written, and that a client gets an answer.
#![tactic(auto)]

mod giving;
mod hosting;
mod loading;
mod log;
mod open_log;
mod opening;
mod rounds;
mod rounds_of_all;
mod saving;
mod serving;
mod tail;

pub use hosting::serve_all;
pub use serving::serve;
