//! The people of a document: members, and all who were, with every device that they ever used.

ghost use Rattle.std.specs.Prelude.{◌≡◌, ◌++◌, map, IfOk, OnOk};
ghost use Rattle.std.specs.List.{filter_map, flat_map};
ghost use Rattle.sporc_member.specs.People.{ever_of, keyed, live_of, member_in};
ghost use Rattle.sporc_member.specs.RosterModel.{has_device};

use crate::device::{Device, KeyedDevice};
use crate::device_lists::has_device;
use crate::member::Member;
use crate::role::Role;
use sporc_base::{Items, Memory};
use std::alloc::Global;

/// A device that a member uses or used, by its number, with the 56 bytes of its public key.
#[derive(Clone, Copy, PartialEq, Eq)]
pub struct Owned {
    pub device: u8,
    pub live: bool,
    pub key: [u8; 56],
}

/// Who has a number or had it: the role, if it is a member's now, and each device that was ever
/// used, in ascending order.
#[derive(Drop)]
pub struct Person {
    pub member: u16,
    pub role: Option<Role>,
    pub devices: Items<Owned>,
}

// Devices of a member, each with whether it is among the live ones, which are at most a few.
pub(crate) fn owned_in(
    alloc: Global,
    devices: &[KeyedDevice],
    live: &[KeyedDevice],
) -> Result<Vec<Owned>, Memory>
    ensures { IfOk result (λ owned. owned.items ≡ map (λ d. record {
      device = d.device.number;
      live = has_device d.device live.now;
      key = d.key;
    }) devices.now) }
{
    devices.iter().map(|d| owned_among(d, live)).collect(alloc)
}

// A device, with whether it is among the live ones.
fn owned_among(d: &KeyedDevice, live: &[KeyedDevice]) -> Owned
    ensures { result ≡ record {
      device = d.now.device.number;
      live = has_device d.now.device live.now;
      key = d.now.key;
    } }
{
    Owned {
        device: d.device.number,
        live: has_device(live, d.device),
        key: d.key,
    }
}

// The members among people.
pub(crate) fn members_in(alloc: Global, people: &[Person]) -> Result<Vec<Member>, Memory>
    ensures { IfOk result (λ members. members.items ≡ filter_map member_in people.now) }
{
    people.iter().filter_map(member_in).collect(alloc)
}

// A person as a member, if it has a role.
fn member_in(person: &Person) -> Option<Member>
    ensures { result ≡ member_in person.now }
{
    person.role.map(|role| Member {
        member: person.member,
        role,
    })
}

// The numbers of people.
pub(crate) fn used_in(alloc: Global, people: &[Person]) -> Result<Vec<u16>, Memory>
    ensures { IfOk result (λ used. used.items ≡ map (λ p. p.member) people.now) }
{
    people.iter().map(|p| p.member).collect(alloc)
}

// Every device that people ever used.
pub(crate) fn ever_in(alloc: Global, people: &[Person]) -> Result<Vec<KeyedDevice>, Memory>
    ensures { IfOk result (λ devices. devices.items ≡ flat_map ever_of people.now) }
{
    let mut devices = Vec::with_capacity(alloc, device_count(people))?;
    for p in people {
        push_ever(&mut devices, p)?;
    }
    Ok(devices)
}

// How many devices people ever used.
fn device_count(people: &[Person]) -> usize {
    let mut count: usize = 0;
    for p in people {
        count = count.saturating_add(p.devices.as_slice().len());
    }
    count
}

// Pushes the devices that a person ever used.
fn push_ever(devices: &mut Vec<KeyedDevice>, person: &Person) -> Result<(), Memory>
    ensures { OnOk result (devices.new.items ≡ devices.old.items ++ ever_of person.now) }
{
    for o in person.devices.as_slice() {
        devices.push(keyed(person.member, o))?;
    }
    Ok(())
}

// A device of a member.
fn keyed(member: u16, owned: &Owned) -> KeyedDevice
    ensures { result ≡ keyed member owned.now }
{
    KeyedDevice {
        device: Device {
            member,
            number: owned.device,
        },
        key: owned.key,
    }
}

// The live devices of people.
pub(crate) fn live_in(alloc: Global, people: &[Person]) -> Result<Vec<KeyedDevice>, Memory>
    ensures { IfOk result (λ devices. devices.items ≡ flat_map live_of people.now) }
{
    let mut devices = Vec::with_capacity(alloc, device_count(people))?;
    for p in people {
        push_live(&mut devices, p)?;
    }
    Ok(devices)
}

// Pushes the live devices of a person.
fn push_live(devices: &mut Vec<KeyedDevice>, person: &Person) -> Result<(), Memory>
    ensures { OnOk result (devices.new.items ≡ devices.old.items ++ live_of person.now) }
{
    for o in person.devices.as_slice() {
        if o.live {
            devices.push(keyed(person.member, o))?;
        }
    }
    Ok(())
}
