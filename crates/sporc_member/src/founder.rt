//! Members at the beginning.

use crate::role::Role;

/// A member that founds a document: its number, its role and the 56 bytes of its first device's
/// public key (RFC 8554, section 5.3).
#[derive(Clone, Copy, PartialEq, Eq)]
pub struct Founder {
    pub member: u16,
    pub role: Role,
    pub key: [u8; 56],
}
