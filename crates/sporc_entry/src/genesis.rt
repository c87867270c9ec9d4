//! What a document begins with.

ghost use Rattle.std.specs.Prelude.{◌≡◌, ◌++◌, Ok, IfOk, OnOk};
ghost use Rattle.std.specs.List.{flat_map};
ghost use Rattle.sporc_bytes.specs.Fields.{Reads, fault_as};
ghost use Rattle.sporc_base.specs.Outcome.{GivesUnless};
ghost use Rattle.sporc_entry.specs.declared.genesis.Genesis.{Genesis};
ghost use Rattle.sporc_entry.specs.Genesis.{founder_at, founders_at, genesis_at, genesis_in};
ghost use Rattle.sporc_entry.specs.Genesis.{genesis_of, has_admin_founder, bad_key, founders_fault};
ghost use Rattle.sporc_entry.specs.Genesis.{founder_bytes, genesis_bytes, IsGenesis};

use crate::fault::GenesisFault;
use crate::fields::read_role;
use crate::limits::HIGHEST_MEMBER;
use lms_tree::LmsPublic;
use sporc_base::{Items, Memory};
use sporc_bytes::{Cursor, Out, Short};
use sporc_hash::Digest32;
use sporc_member::{Founder, MAX_MEMBERS};
use std::alloc::Global;

/// The members that a document begins with, seen as the list of them.
pub type Founders = Items<Founder>;

/// What a document begins with.
#[derive(Drop)]
pub struct Genesis {
    pub document: [u8; 16],
    /// The commitment to the key of epoch 0.
    pub commitment: Digest32,
    /// The members at the beginning, in ascending order of their numbers.
    pub founders: Founders,
}

impl Genesis {
    /// A copy.
    pub fn copy(&self) -> Result<Genesis, Memory>
        ensures ok { IfOk result (λ copy. copy ≡ self.now) }
    {
        let founders = self.founders.copy()?;
        Ok(Genesis {
            document: self.document,
            commitment: self.commitment,
            founders,
        })
    }
}

// The version of geneses.
const VERSION: u8 = 1;

// The founder that stands next, whose number is at least `least`.
#[tactic(auto, unfolding(crate::specs::Genesis::founder_at))]
fn read_founder(cursor: &mut Cursor<'_>, least: u32) -> Result<Founder, Short>
    ensures { Reads (λ founder. (founder, cursor.new)) result (founder_at least cursor.old) }
{
    let member = cursor.u16_within(least, HIGHEST_MEMBER)?;
    let role = read_role(cursor)?;
    let key = cursor.array()?;
    Ok(Founder { member, role, key })
}

// The founders that stand next.
fn read_founders(
    alloc: Global,
    cursor: &mut Cursor<'_>,
    count: u16,
) -> Result<Vec<Founder>, GenesisFault>
    ensures { GivesUnless GenesisFault.Memory (λ founders. (founders.items, cursor.new)) result
        (fault_as GenesisFault.Malformed (founders_at count cursor.old)) }
{
    let mut founders = Vec::with_capacity(alloc, usize::from(count))?;
    let mut least = 1;
    for _ in 0..count {
        let founder = read_founder(cursor, least)?;
        least = u32::from(founder.member) + 1;
        founders.push(founder)?;
    }
    Ok(founders)
}

// The fields of a genesis that stand next.
#[tactic(auto, unfolding(crate::specs::Genesis::genesis_at))]
fn read_fields(alloc: Global, cursor: &mut Cursor<'_>) -> Result<Genesis, GenesisFault>
    ensures { GivesUnless GenesisFault.Memory (λ genesis. (genesis, cursor.new)) result
        (fault_as GenesisFault.Malformed (genesis_at cursor.old)) }
{
    cursor.u8_within(VERSION, VERSION)?;
    let document = cursor.array()?;
    let commitment = cursor.array()?;
    let count = cursor.u16_within(1, u32::from(MAX_MEMBERS))?;
    let founders = read_founders(alloc, cursor, count)?;
    Ok(Genesis {
        document,
        commitment,
        founders: Founders::new(founders),
    })
}

// The genesis that these bytes spell, whoever its founders are.
#[tactic(auto, unfolding(crate::specs::Genesis::genesis_in))]
fn read_all(alloc: Global, bytes: &[u8]) -> Result<Genesis, GenesisFault>
    ensures { GivesUnless GenesisFault.Memory (λ genesis. genesis) result
        (fault_as GenesisFault.Malformed (genesis_in bytes.now)) }
{
    let mut cursor = Cursor::new(bytes);
    let genesis = read_fields(alloc, &mut cursor)?;
    cursor.ended()?;
    Ok(genesis)
}

// Whether a founder is an admin.
fn has_an_admin(founders: &[Founder]) -> bool
    ensures { result ≡ has_admin_founder founders.now }
{
    founders.iter().any(|m| m.role.is_admin())
}

// The first founder whose key is of no known type.
fn first_bad_key(founders: &[Founder]) -> Option<Founder>
    ensures { result ≡ bad_key founders.now }
{
    founders
        .iter()
        .copied()
        .find(|m| LmsPublic::from_bytes(&m.key).is_none())
}

// Why no document can begin with these founders, if it can't.
fn fault_of(founders: &[Founder]) -> Option<GenesisFault>
    ensures { result ≡ founders_fault founders.now }
{
    if !has_an_admin(founders) {
        return Some(GenesisFault::NoAdmin);
    }
    match first_bad_key(founders) {
        None => None,
        Some(m) => Some(GenesisFault::BadKey(m.member)),
    }
}

// The genesis that these bytes spell.
#[tactic(auto, unfolding(crate::specs::Genesis::genesis_of))]
fn read_tested(alloc: Global, bytes: &[u8]) -> Result<Genesis, GenesisFault>
    ensures { GivesUnless GenesisFault.Memory (λ genesis. genesis) result (genesis_of bytes.now) }
{
    let genesis = read_all(alloc, bytes)?;
    match fault_of(genesis.founders.as_slice()) {
        None => Ok(genesis),
        Some(fault) => Err(fault),
    }
}

/// The genesis that these bytes spell. After the grammar, a genesis without an admin is refused,
/// and then one with a key of no known type.
pub fn read_genesis(alloc: Global, bytes: &[u8]) -> Result<Genesis, GenesisFault>
    // What is read is spelled so.
    ensures found { IfOk result (λ g. IsGenesis g × (bytes.now ≡ genesis_bytes g)) }
    // What is spelled so is read, unless memory runs out.
    ensures only { (g : Genesis) → IsGenesis g → bytes.now ≡ genesis_bytes g
        → GivesUnless GenesisFault.Memory (λ g. g) result (Ok g) }
    // Which fault it is.
    ensures value { GivesUnless GenesisFault.Memory (λ g. g) result (genesis_of bytes.now) }
{
    read_tested(alloc, bytes)
}

// Appends founders.
fn put_founders(out: &mut Out, founders: &[Founder]) -> Result<(), Memory>
    ensures { OnOk result (out.new ≡ out.old ++ flat_map founder_bytes founders.now) }
{
    for founder in founders {
        put_founder(out, founder)?;
    }
    Ok(())
}

// Appends a founder.
fn put_founder(out: &mut Out, founder: &Founder) -> Result<(), Memory>
    ensures { OnOk result (out.new ≡ out.old ++ founder_bytes founder.now) }
{
    out.put_u16(founder.member)?;
    out.put_u8(founder.role.code())?;
    out.put_bytes(&founder.key)?;
    Ok(())
}

/// The one spelling of a genesis.
#[tactic(auto, unfolding(crate::specs::Genesis::genesis_bytes))]
pub fn write_genesis(alloc: Global, genesis: &Genesis) -> Result<Vec<u8>, Memory>
    requires { IsGenesis genesis.now }
    ensures ok { IfOk result (λ bytes. bytes.items ≡ genesis_bytes genesis.now) }
{
    let founders = genesis.founders.as_slice();
    let mut out = Out::new(alloc);
    out.put_u8(VERSION)?;
    out.put_bytes(&genesis.document)?;
    out.put_bytes(&genesis.commitment)?;
    out.put_u16(founders.len() as u16)?;
    put_founders(&mut out, founders)?;
    Ok(out.into_bytes())
}
