//! Members of a roster.

use crate::role::Role;

/// A member of a document: its number and its role. Its keys are its devices'.
#[derive(Clone, Copy, PartialEq, Eq)]
pub struct Member {
    pub member: u16,
    pub role: Role,
}
