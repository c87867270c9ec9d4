//! The tests of what stands below histories: of the outside (`sporc_outside`, and `sporc_real` over
//! the files, the connections and the random bytes of this machine), of signatures (`lms_ots`,
//! `lms_tree`, `lms_leaf`, `lms_sign`) and of texts (`sporc_delta`, `sporc_xform`, `sporc_text`,
//! `sporc_suffix`, `sporc_screen`). They stand in a crate of their own, since a crate with tests is
//! proved twice. No program stands on it.
//!
//! - `outside`: a file in memory that is appended to, and what a stop leaves of it. The other
//!   objects in memory are those of the tests of the crates above.
//! - `real`: each adapter is called once, and fails once where it easily can. Folders are made in
//!   the system's folder for temporary files, and removed again.
//! - `signatures`: keys and signatures are compared with those of Bouncy Castle; a file of leaves
//!   with the calls that reach its disk.
//! - `texts`: deltas are compared with the format's examples, and transforms with worked rows and
//!   with the rules on single marks; an editor that types ahead comes to the text shown.
#![tactic(auto)]

#[cfg(test)]
mod calls;
#[cfg(test)]
mod checks;
#[cfg(test)]
mod outside;
#[cfg(test)]
mod real;
#[cfg(test)]
mod signatures;
#[cfg(test)]
mod texts;
