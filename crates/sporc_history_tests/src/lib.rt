//! The tests of `sporc_hash`, `sporc_cipher`, `sporc_member`, `sporc_entry`, `sporc_epoch`,
//! `sporc_head`, `sporc_line`, `sporc_wire`, `sporc_order` and `sporc_store`. They stand in a crate
//! of their own, since a crate with tests is proved twice. No program stands on it.
//!
//! Digests are compared with those of Python's hashlib, masks with those of OpenSSL; formats with
//! bytes that are spelled out by hand. Entries are signed by real keys. Each refusal comes of an
//! entry that fails its check alone, and of one that fails all later checks too, in both versions;
//! that of a full history, of heads alone. A history of version 1 that the code of before version 2
//! saved is loaded. The bytes of a tail are those of docs/FORMATS.md, and what stands wrong in
//! them; what a server that is stopped in the middle of a call of its tail's file leaves is opened
//! again.
#![tactic(auto)]

#[cfg(test)]
mod chains;
#[cfg(test)]
mod checks;
#[cfg(test)]
mod entries;
#[cfg(test)]
mod epochs;
#[cfg(test)]
mod frames;
#[cfg(test)]
mod heads;
#[cfg(test)]
mod lines;
#[cfg(test)]
mod masks;
#[cfg(test)]
mod members;
#[cfg(test)]
mod orders;
#[cfg(test)]
mod samples;
#[cfg(test)]
mod tails;
