//! The bodies of changes.

ghost use Rattle.std.specs.Prelude.{◌≡◌, ◌+◌, ◌<◌, ◌≤◌, ◌^◌, ◌++◌, [], ◌∷◌, length, Ok, IfOk, OnOk};
ghost use Rattle.std.specs.Int.{w16, to_be_bytes};
ghost use Rattle.std.specs.List.{flat_map};
ghost use Rattle.sporc_bytes.specs.Fields.{Reads, values_at};
ghost use Rattle.sporc_base.specs.Outcome.{GivesUnless};
ghost use Rattle.sporc_bytes.specs.Fields.{fault_as};
ghost use Rattle.sporc_member.specs.Role.{role_code_of};
ghost use Rattle.sporc_entry.specs.declared.change.ChangeBody.{ChangeBody};
ghost use Rattle.sporc_entry.specs.declared.version.TheConstants.{FIRST_VERSION, DEVICES_VERSION};
ghost use Rattle.sporc_entry.specs.ChangeBody.{kind_at, change_of_kind, change_of_member};
ghost use Rattle.sporc_entry.specs.ChangeBody.{change_of_device, change_at, wrap_at};
ghost use Rattle.sporc_entry.specs.ChangeBody.{change_body_at, change_body_from, change_bytes};
ghost use Rattle.sporc_entry.specs.ChangeBody.{wrap_bytes, change_body_bytes, IsChangeBody};

use crate::fault::EntryFault;
use crate::fields::read_role;
use crate::limits::HIGHEST_MEMBER;
use crate::version::{ADD, ADD_DEVICE, DROP_DEVICE, REMOVE, SET_ROLE, UPGRADE, has_kind};
use crate::wrap::{Wrap, Wraps};
use sporc_base::Memory;
use sporc_bytes::{Cursor, Out, Short};
use sporc_hash::Digest32;
use sporc_member::{Change, MAX_MEMBERS, Role};
use std::alloc::Global;

/// The body of a change, which begins an epoch.
#[derive(Drop)]
pub struct ChangeBody {
    /// What it does to the members.
    pub change: Change,
    /// The commitment to the key of the next epoch.
    pub commitment: Digest32,
    /// The key of the epoch that ends, sealed under the key of the next.
    pub previous: [u8; 32],
    /// The key of the next epoch, sealed for each member.
    pub wraps: Wraps,
}

// The kind of change that stands next, in an entry of this version.
#[tactic(auto, unfolding(crate::specs::ChangeBody::kind_at))]
fn read_kind(cursor: &mut Cursor<'_>, version: u8) -> Result<u8, Short>
    ensures { Reads (λ kind. (kind, cursor.new)) result (kind_at version cursor.old) }
{
    let at = cursor.at();
    let kind = cursor.u8()?;
    if !has_kind(version, kind) {
        return Err(Short(at));
    }
    Ok(kind)
}

// The change that stands next, in an entry of this version.
#[tactic(auto, unfolding(crate::specs::ChangeBody::change_at))]
pub(crate) fn read_member_change(cursor: &mut Cursor<'_>, version: u8) -> Result<Change, Short>
    ensures { Reads (λ change. (change, cursor.new)) result (change_at version cursor.old) }
{
    let kind = read_kind(cursor, version)?;
    read_of_kind(cursor, kind)
}

// What stands next of a change of this kind.
#[tactic(auto, unfolding(crate::specs::ChangeBody::change_of_kind))]
fn read_of_kind(cursor: &mut Cursor<'_>, kind: u8) -> Result<Change, Short>
    ensures { Reads (λ change. (change, cursor.new)) result (change_of_kind kind cursor.old) }
{
    if kind == UPGRADE {
        return Ok(Change::Upgrade);
    }
    let member = cursor.u16_within(1, HIGHEST_MEMBER)?;
    read_of_member(cursor, kind, member)
}

// What stands next of a change of this kind behind the member.
#[tactic(auto, unfolding(crate::specs::ChangeBody::change_of_member))]
fn read_of_member(cursor: &mut Cursor<'_>, kind: u8, member: u16) -> Result<Change, Short>
    ensures { Reads (λ change. (change, cursor.new)) result
        (change_of_member kind member cursor.old) }
{
    match kind {
        ADD => {
            let role = read_role(cursor)?;
            let key = cursor.array()?;
            Ok(Change::Add { member, role, key })
        }
        REMOVE => Ok(Change::Remove { member }),
        SET_ROLE => {
            let role = read_role(cursor)?;
            Ok(Change::SetRole { member, role })
        }
        _ => {
            let device = cursor.u8()?;
            read_of_device(cursor, kind, member, device)
        }
    }
}

// What stands next of a change of this kind behind the device.
#[tactic(auto, unfolding(crate::specs::ChangeBody::change_of_device))]
fn read_of_device(
    cursor: &mut Cursor<'_>,
    kind: u8,
    member: u16,
    device: u8,
) -> Result<Change, Short>
    ensures { Reads (λ change. (change, cursor.new)) result
        (change_of_device kind member device cursor.old) }
{
    if kind != ADD_DEVICE {
        return Ok(Change::DropDevice { member, device });
    }
    let key = cursor.array()?;
    Ok(Change::AddDevice {
        member,
        device,
        key,
    })
}

// The sealed key that stands next.
#[tactic(auto, unfolding(crate::specs::ChangeBody::wrap_at))]
pub(crate) fn read_wrap(cursor: &mut Cursor<'_>) -> Result<Wrap, Short>
    ensures { Reads (λ wrap. (wrap, cursor.new)) result (wrap_at cursor.old) }
{
    let member = cursor.u16()?;
    let sealed = cursor.array()?;
    Ok(Wrap { member, sealed })
}

// The sealed keys that stand next.
fn read_wraps(alloc: Global, cursor: &mut Cursor<'_>, count: u16) -> Result<Vec<Wrap>, EntryFault>
    ensures { GivesUnless EntryFault.Memory (λ wraps. (wraps.items, cursor.new)) result
        (fault_as EntryFault.Malformed (values_at wrap_at count cursor.old)) }
{
    let mut wraps = Vec::with_capacity(alloc, usize::from(count))?;
    for _ in 0..count {
        let wrap = read_wrap(cursor)?;
        wraps.push(wrap)?;
    }
    Ok(wraps)
}

// The fields of a change's body that stand next, in an entry of this version.
#[tactic(auto, unfolding(crate::specs::ChangeBody::change_body_at))]
fn read_fields(
    alloc: Global,
    cursor: &mut Cursor<'_>,
    version: u8,
) -> Result<ChangeBody, EntryFault>
    ensures { GivesUnless EntryFault.Memory (λ body. (body, cursor.new)) result
        (fault_as EntryFault.Malformed (change_body_at version cursor.old)) }
{
    let change = read_member_change(cursor, version)?;
    let commitment = cursor.array()?;
    let previous = cursor.array()?;
    let count = cursor.u16_within(0, u32::from(MAX_MEMBERS))?;
    let wraps = read_wraps(alloc, cursor, count)?;
    Ok(ChangeBody {
        change,
        commitment,
        previous,
        wraps: Wraps::new(wraps),
    })
}

// The body of a change that these bytes spell in an entry of this version, the first of them at
// place `at`.
#[tactic(auto, unfolding(crate::specs::ChangeBody::change_body_from))]
pub(crate) fn read_body(
    alloc: Global,
    version: u8,
    body: &[u8],
    at: usize,
) -> Result<ChangeBody, EntryFault>
    requires { at + length body.now < 2 ^ 64 }
    ensures { GivesUnless EntryFault.Memory (λ c. c) result
        (fault_as EntryFault.Malformed (change_body_from version at body.now)) }
{
    let mut cursor = Cursor::within(body, at);
    let change = read_fields(alloc, &mut cursor, version)?;
    cursor.ended()?;
    Ok(change)
}

/// The body of a change that these bytes spell in an entry of this version. Places are counted from
/// the first of them.
pub fn read_change(alloc: Global, version: u8, body: &[u8]) -> Result<ChangeBody, EntryFault>
    requires range { (FIRST_VERSION ≤ version) × (version ≤ DEVICES_VERSION) }
    // What is read is spelled so.
    ensures found { IfOk result (λ c. IsChangeBody version c × (body.now ≡ change_body_bytes c)) }
    // What is spelled so is read, unless memory runs out.
    ensures only { (c : ChangeBody) → IsChangeBody version c → body.now ≡ change_body_bytes c
        → GivesUnless EntryFault.Memory (λ c. c) result (Ok c) }
    // Which fault it is.
    ensures value { GivesUnless EntryFault.Memory (λ c. c) result
        (fault_as EntryFault.Malformed (change_body_from version 0 body.now)) }
{
    read_body(alloc, version, body, 0)
}

// Appends a change.
fn put_change(out: &mut Out, change: &Change) -> Result<(), Memory>
    ensures { OnOk result (out.new ≡ out.old ++ change_bytes change.now []) }
{
    match change {
        Change::Add { member, role, key } => {
            put_role(out, ADD, *member, *role)?;
            out.put_bytes(key)
        }
        Change::Remove { member } => put_member(out, REMOVE, *member),
        Change::SetRole { member, role } => put_role(out, SET_ROLE, *member, *role),
        Change::AddDevice {
            member,
            device,
            key,
        } => {
            put_device(out, ADD_DEVICE, *member, *device)?;
            out.put_bytes(key)
        }
        Change::DropDevice { member, device } => put_device(out, DROP_DEVICE, *member, *device),
        Change::Upgrade => out.put_u8(UPGRADE),
    }
}

// Appends the kind of a change and whom it is of.
fn put_member(out: &mut Out, kind: u8, member: u16) -> Result<(), Memory>
    ensures { OnOk result (out.new ≡ out.old ++ kind ∷ to_be_bytes w16 member) }
{
    out.put_u8(kind)?;
    out.put_u16(member)
}

// Appends the kind of a change, whom it is of, and the role that it gives.
fn put_role(out: &mut Out, kind: u8, member: u16, role: Role) -> Result<(), Memory>
    ensures { OnOk result
        (out.new ≡ out.old ++ kind ∷ to_be_bytes w16 member ++ role_code_of role ∷ []) }
{
    put_member(out, kind, member)?;
    out.put_u8(role.code())
}

// Appends the kind of a change, whom it is of, and which device of the member.
fn put_device(out: &mut Out, kind: u8, member: u16, device: u8) -> Result<(), Memory>
    ensures { OnOk result (out.new ≡ out.old ++ kind ∷ to_be_bytes w16 member ++ device ∷ []) }
{
    put_member(out, kind, member)?;
    out.put_u8(device)
}

// Appends sealed keys.
fn put_wraps(out: &mut Out, wraps: &[Wrap]) -> Result<(), Memory>
    ensures { OnOk result (out.new ≡ out.old ++ flat_map wrap_bytes wraps.now) }
{
    for wrap in wraps {
        put_wrap(out, wrap)?;
    }
    Ok(())
}

// Appends a sealed key.
fn put_wrap(out: &mut Out, wrap: &Wrap) -> Result<(), Memory>
    ensures { OnOk result (out.new ≡ out.old ++ wrap_bytes wrap.now) }
{
    out.put_u16(wrap.member)?;
    out.put_bytes(&wrap.sealed)
}

// Appends the body of a change.
#[tactic(auto, unfolding(crate::specs::ChangeBody::change_body_bytes))]
fn put_body(out: &mut Out, body: &ChangeBody) -> Result<(), Memory>
    requires { length body.now.wraps < 2 ^ 16 }
    ensures { OnOk result (out.new ≡ out.old ++ change_body_bytes body.now) }
{
    let wraps = body.wraps.as_slice();
    put_change(out, &body.change)?;
    out.put_bytes(&body.commitment)?;
    out.put_bytes(&body.previous)?;
    out.put_u16(wraps.len() as u16)?;
    put_wraps(out, wraps)
}

/// The bytes of the body of a change: the one spelling of it, where it has one.
pub fn write_change(alloc: Global, body: &ChangeBody) -> Result<Vec<u8>, Memory>
    requires { length body.now.wraps < 2 ^ 16 }
    ensures ok { IfOk result (λ bytes. bytes.items ≡ change_body_bytes body.now) }
{
    let mut out = Out::new(alloc);
    put_body(&mut out, body)?;
    Ok(out.into_bytes())
}
