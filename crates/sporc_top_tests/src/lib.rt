//! The tests of `sporc_play` and of the program's commands, as `sporc_top::run` performs them over
//! a source, a sink, a folder, a chance and nets in memory. They stand in a crate of their own,
//! since a crate with tests is proved twice. No program stands on it.
//!
//! [`failing`] lets each object that `play`, `serve`, `client` and `serve-all` are handed fail at
//! each of its calls in turn: the command's scene stands in [`faults`], [`servers`], [`sessions`]
//! and [`hosts`]. [`histories`] has a member whose files are wrong. [`faults`] has words that ask
//! for nothing too, and [`plays`] the longest script and the generated run. Worked plays are
//! scripts of `examples/`. [`commands`] runs commands one after the other, [`gates`] a member and a
//! server with gates that hold them, [`tails`] servers that go on from one that was stopped, and
//! that serve several times, and [`statuses`] shows the statuses that a session ends with.
#![tactic(auto)]

#[cfg(test)]
mod answers;
#[cfg(test)]
mod bytes;
#[cfg(test)]
mod checks;
#[cfg(test)]
mod commands;
#[cfg(test)]
mod document;
#[cfg(test)]
mod failing;
#[cfg(test)]
mod faults;
#[cfg(test)]
mod gates;
#[cfg(test)]
mod histories;
#[cfg(test)]
mod hosts;
#[cfg(test)]
mod nets;
#[cfg(test)]
mod place;
#[cfg(test)]
mod plays;
#[cfg(test)]
mod servers;
#[cfg(test)]
mod sessions;
#[cfg(test)]
mod statuses;
#[cfg(test)]
mod tails;
