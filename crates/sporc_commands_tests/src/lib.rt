//! The tests of foundings and key rings (`sporc_keys`, `sporc_commands`), of saved histories
//! (`sporc_store`, `sporc_commands`), and of the lines between the program and an editor
//! (`sporc_editor`). They stand in a crate of their own, since a crate with tests is proved twice.
//! No program stands on it.
//!
//! - [`editor`]: lines that are spelled out by hand.
//! - [`founding`]: files of rings, and commands over a folder, a chance and a sink in memory. Files
//!   are spelled out by hand. The first public key is one that Bouncy Castle made. The second is of
//!   a Python program that makes the first too, and the commitment a digest of Python's hashlib.
//! - [`histories`]: saved histories, and commands over a folder and a sink in memory. Files are
//!   spelled out by hand, or hold entries that real keys signed.
//!
//! A function owns at most one of keys, history, file, line and folder, and hands it down: one that
//! owns more is slow to prove. Assertions stand in [`checks`], but for those whose condition a call
//! requires.
#![tactic(auto)]

#[cfg(test)]
mod bytes;
#[cfg(test)]
mod checks;
#[cfg(test)]
mod editor;
#[cfg(test)]
mod founding;
#[cfg(test)]
mod histories;
#[cfg(test)]
mod memory;
