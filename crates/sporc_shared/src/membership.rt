//! Whose a client is.

/// Whose a client is: of a document, and of a member of it.
#[derive(Clone, Copy)]
pub struct Membership {
    pub document: [u8; 16],
    pub member: u16,
}
