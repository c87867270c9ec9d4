//! Roles.

ghost use Rattle.std.specs.Prelude.{◌≡◌};
ghost use Rattle.sporc_member.specs.Role.{role_name};

/// What a member may do: a reader nothing, an editor edits, an admin edits and changes.
#[derive(Clone, Copy, PartialEq, Eq)]
pub enum Role {
    Reader,
    Editor,
    Admin,
}

impl Role {
    ghost use Rattle.sporc_member.specs.Role.{role_code_of, role_with_code, same_role, is_admin};

    /// The role with this number, in genesis and changes.
    pub fn from_code(code: u8) -> Option<Role>
        ensures value { result ≡ role_with_code code }
    {
        match code {
            1 => Some(Role::Reader),
            2 => Some(Role::Editor),
            3 => Some(Role::Admin),
            _ => None,
        }
    }

    /// Its number: 1, 2 or 3.
    pub fn code(self) -> u8
        ensures value { result ≡ role_code_of self }
    {
        match self {
            Role::Reader => 1,
            Role::Editor => 2,
            Role::Admin => 3,
        }
    }

    /// Whether it is the other role.
    pub fn is(self, other: Role) -> bool
        ensures value { result ≡ same_role self other }
    {
        self.code() == other.code()
    }

    /// Whether it may change the members.
    pub fn is_admin(self) -> bool
        ensures value { result ≡ is_admin self }
    {
        self.is(Role::Admin)
    }
}

/// The word for a role, in scripts and in what is printed.
pub fn role_name(role: Role) -> &'static str
    ensures value { result.now ≡ role_name role }
{
    match role {
        Role::Reader => "reader",
        Role::Editor => "editor",
        Role::Admin => "admin",
    }
}
