//! A ticket lock that proves what its holders know of the value's log.
//!
//! The value under the lock stands for a list of items, its log, and has a watermark, a number that
//! never falls ([`Kept`]). Whoever wants the value has a [`Pass`]. A pass draws a ticket and waits
//! for its turn ([`Turn::take`]), changes the value through the [`Held`] that it gets, and gives it
//! back ([`Turn::give`]). Each pass knows a prefix of the log, all that it has seen, and its own
//! items in it.
//!
//! ```rust
//! let (turn, first) = Turn::open(alloc, value)?;
//! let (first, second) = turn.split(first)?;      // one pass for each thread
//! let mut held = turn.take(&rt, second)?;        // waits for its turn
//! held.value().add(7);
//! let second = turn.give(held);
//! let first = turn.join(first, second);
//! let value = turn.close(first)?;
//! ```
//!
//! Proved, over every way in which the threads' steps on the lock's words may follow one another:
//! no pass finds a log that doesn't begin with what it has seen, nor one that lacks an item of its
//! own or has one twice, nor a watermark below the last that it saw; and `close` gives back a value
//! whose log is what the last pass has seen.
//! [`Turn::news`], [`Turn::give`], [`Turn::split`], [`Turn::join`] and [`Turn::close`] take no
//! runtime, so they wait for nobody: a mutex round the whole lock could not meet these signatures,
//! since its `lock` takes one. Only [`Turn::take`] waits. Only tested: that threads which take
//! turns get to their ends. Neither: that a turn comes, and whose turn comes first.
#![tactic(auto)]

mod held;
mod kept;
mod known;
pub mod laws;
mod limits;
mod numbers;
mod pass;
mod rule;
mod turn;
mod value;

pub use held::Held;
pub use kept::Kept;
pub use known::{Joined, Known, View};
pub use limits::MAX_TICKETS;
pub use pass::{Away, Pass};
pub use sporc_base::Memory;
pub use turn::{Turn, Worn};
