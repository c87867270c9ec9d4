//! A member and its role.

use sporc_member::Role;

/// A member and its role.
#[derive(Clone, Copy)]
pub struct MemberRole {
    pub member: u16,
    pub role: Role,
}
