//! The members of the sample document.

ghost use Rattle.std.specs.Prelude.{IfOk};
ghost use Rattle.sporc_entry.specs.Genesis.{IsGenesis};

use crate::fault::SampleFault;
use crate::keys::epoch_key;
use crate::member::Member;
use sporc_base::Memory;
use sporc_bytes::Out;
use sporc_entry::{Genesis, read_genesis};
use sporc_hash::commit;
use sporc_member::{Founder, Role};
use std::alloc::Global;

/// The sample document.
pub const DOCUMENT: [u8; 16] = [7; 16];

/// The members of the sample document with their keys: 1 an admin, 2, 4 and 5 editors, 3 a reader.
#[derive(Drop)]
pub struct Cast {
    members: Vec<Member>,
}

impl Cast {
    /// Makes the keys.
    pub fn new(alloc: Global) -> Result<Cast, SampleFault> {
        let roles = [
            Role::Admin,
            Role::Editor,
            Role::Reader,
            Role::Editor,
            Role::Editor,
        ];
        let mut members = Vec::new(alloc);
        let mut number = 0u16;
        for role in roles {
            number = number.wrapping_add(1);
            members.push(Member::new(alloc, number, role)?)?;
        }
        Ok(Cast { members })
    }

    /// The member with this number.
    pub fn member(&self, number: u16) -> Result<&Member, SampleFault> {
        for member in &self.members {
            if member.number() == number {
                return Ok(member);
            }
        }
        Err(SampleFault::NoMember)
    }

    /// The genesis of the document that they founded. It commits to the first epoch's key.
    pub fn genesis(&self, alloc: Global) -> Result<Genesis, SampleFault>
        ensures ok { IfOk result (λ genesis. IsGenesis genesis) }
    {
        let bytes = self.genesis_bytes(alloc)?;
        let genesis = read_genesis(alloc, bytes.as_slice())?;
        Ok(genesis)
    }

    fn genesis_bytes(&self, alloc: Global) -> Result<Vec<u8>, SampleFault> {
        let mut out = Out::new(alloc);
        out.put_u8(1)?;
        out.put_bytes(&DOCUMENT)?;
        out.put_bytes(&commit(&DOCUMENT, 0, &epoch_key(0)))?;
        out.put_u16(5)?;
        for member in &self.members {
            put_founder(&mut out, &member.founder())?;
        }
        Ok(out.into_bytes())
    }
}

fn put_founder(out: &mut Out, founder: &Founder) -> Result<(), Memory> {
    out.put_u16(founder.member)?;
    out.put_u8(founder.role.code())?;
    out.put_bytes(&founder.key)
}
