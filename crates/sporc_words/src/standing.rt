//! What a number stands for where a document is founded.

use sporc_member::Role;

/// What a number stands for: a founder with a role, or one who may be added later.
#[derive(Clone, Copy)]
pub enum Standing {
    /// A founder with this role.
    Founder(Role),
    /// One who may be added later.
    Joiner,
}

impl Standing {
    ghost use Rattle.std.specs.Prelude.{◌≡◌};
    ghost use Rattle.sporc_words.specs.Values.{founds_admin};

    /// Whether it is an admin.
    pub fn is_admin(self) -> bool
        ensures value { result ≡ founds_admin self }
    {
        match self {
            Standing::Founder(role) => role.is_admin(),
            Standing::Joiner => false,
        }
    }
}

/// A number, and what it stands for: the word `M:ROLE`.
#[derive(Clone, Copy)]
pub struct Participant {
    /// The number, from 1 to 65,535.
    pub member: u16,
    pub standing: Standing,
}
