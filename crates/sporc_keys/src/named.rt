//! Those whom a document's founding names.

ghost use Rattle.std.specs.Prelude.{◌≡◌, IfSome};
ghost use Rattle.sporc_keys.specs.Founding.{IsKnownKey, founder_in, number_of};

use lms_tree::LmsPublic;
use sporc_member::{Founder, Role};

/// One whom the founding of a document names.
#[derive(Clone, Copy)]
pub enum Named {
    /// A member from the beginning, with its role and its public key.
    Founder {
        member: u16,
        role: Role,
        key: LmsPublic,
    },
    /// One whom a change may add later.
    Joiner {
        member: u16,
    },
}

impl Named {
    /// Its number.
    pub fn number(&self) -> u16
        ensures value { result ≡ number_of self.now }
    {
        match self {
            Named::Founder { member, .. } => *member,
            Named::Joiner { member } => *member,
        }
    }

    // The member that it is from the beginning, if it is one.
    pub(crate) fn founder(&self) -> Option<Founder>
        ensures value { result ≡ founder_in self.now }
        ensures key { IfSome result IsKnownKey }
    {
        match self {
            Named::Founder { member, role, key } => Some(Founder {
                member: *member,
                role: *role,
                key: key.to_bytes(),
            }),
            Named::Joiner { .. } => None,
        }
    }
}
