//! The tests of `sporc_client` and `sporc_evidence`. They stand in a crate of their own, since a
//! crate with tests is proved twice. No program stands on it.
//!
//! Clients sign by real keys, whose leaf files are in memory. What several clients do stands in
//! rows, which one loop reads.
#![tactic(auto)]

#[cfg(test)]
mod checks;
#[cfg(test)]
mod devices;
#[cfg(test)]
mod editing;
#[cfg(test)]
mod evidence;
#[cfg(test)]
mod filling;
#[cfg(test)]
mod meeting;
#[cfg(test)]
mod restarting;
#[cfg(test)]
mod room;
#[cfg(test)]
mod scene;
#[cfg(test)]
mod submitting;
