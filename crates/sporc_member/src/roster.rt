//! The members and their devices as changes make them.

ghost use Rattle.std.specs.Prelude.{◌≡◌, ◌≤◌, true, false, [], length, option_map, is_some, IfOk};
ghost use Rattle.std.specs.Prelude.{OnOk, OnErr, IsOk, None, map};
ghost use Rattle.std.specs.Option.{option_copied};
ghost use Rattle.sporc_member.specs.declared.limits.TheConstants.{MAX_MEMBERS};
ghost use Rattle.std.specs.List.Sorted.{IsStrictlyIncreasing};
ghost use Rattle.sporc_member.specs.People.{person_of};

use crate::change::{Change, ChangeFault};
use crate::device::{Device, KeyedDevice};
use crate::device_lists::{
    device_numbers_in, devices_by, devices_with, insert_device, insert_live, place_from, renumber,
    take_out_device, take_out_devices_of,
};
use crate::founder::Founder;
use crate::limits::{MAX_DEVICES, MAX_MEMBERS};
use crate::lists::{
    give_role, has_admin_with, has_admin_without, insert_ready, members_by, numbers_in,
    numbers_with, numbers_without, place_of, take_out_member, take_out_number,
};
use crate::member::Member;
use crate::people::{Person, ever_in, live_in, members_in, owned_in, used_in};
use crate::role::Role;
use lms_tree::LmsPublic;
use sporc_base::{Items, Memory};
use std::alloc::Global;
use std::marker::Model;

/// The members with their live devices, every number that was ever a member's and every device that
/// ever was one, all in ascending order, and whether the document was upgraded.
///
/// Contracts see the roster, and `spare`: how many changes it can make without memory.
#[derive(Drop)]
pub struct Roster {
    members: Vec<Member>,
    numbers: Vec<u16>,
    used: Vec<u16>,
    devices: Vec<KeyedDevice>,
    device_numbers: Vec<u8>,
    ever: Vec<KeyedDevice>,
    upgraded: bool,
}

impl Model for Roster {
    ghost use Rattle.sporc_member.specs.RosterModel.{RosterModel, model_of, invariant_of};

    ghost Value = { RosterModel };

    ghost view = { model_of };

    ghost invariant = { invariant_of };
}

impl Roster {
    ghost use Rattle.sporc_base.specs.FirstFault.{Answers};
    ghost use Rattle.sporc_member.specs.Roster.{founder_numbers, numbers_of, member_at, key_of};
    ghost use Rattle.sporc_member.specs.Roster.{devices_of, is_used, is_device_used};
    ghost use Rattle.sporc_member.specs.Roster.{change_fault_of, after_change, founded};
    ghost use Rattle.sporc_member.specs.People.{CanRestore, people_of, person_of};
    ghost use Rattle.sporc_member.specs.People.{roster_of_people};

    /// The roster of the founders.
    pub fn found(alloc: Global, founders: &[Founder]) -> Result<Roster, Memory>
        requires ascending { IsStrictlyIncreasing (founder_numbers founders.now) }
        requires limit { length founders.now ≤ MAX_MEMBERS }
        ensures ok { IfOk result (λ roster. roster.roster ≡ founded founders.now) }
    {
        let members = members_by(alloc, founders)?;
        let numbers = numbers_in(alloc, members.as_slice())?;
        let used = numbers_in(alloc, members.as_slice())?;
        let devices = devices_by(alloc, founders)?;
        let device_numbers = device_numbers_in(alloc, devices.as_slice())?;
        let ever = devices_by(alloc, founders)?;
        Ok(Roster {
            members,
            numbers,
            used,
            devices,
            device_numbers,
            ever,
            upgraded: false,
        })
    }

    /// The roster that has these people, with room for no change.
    pub fn restore(alloc: Global, people: &[Person], upgraded: bool) -> Result<Roster, Memory>
        requires possible { CanRestore people.now }
        ensures ok { IfOk result (λ roster. roster.roster
            ≡ roster_of_people people.now upgraded) }
    {
        let members = members_in(alloc, people)?;
        let numbers = numbers_in(alloc, members.as_slice())?;
        let used = used_in(alloc, people)?;
        let devices = live_in(alloc, people)?;
        let device_numbers = device_numbers_in(alloc, devices.as_slice())?;
        let ever = ever_in(alloc, people)?;
        Ok(Roster {
            members,
            numbers,
            used,
            devices,
            device_numbers,
            ever,
            upgraded,
        })
    }

    /// The people: one for each number that was ever a member's, ascending, with its role, if it is
    /// a member's now, and each device that it ever used.
    pub fn people(&self) -> Result<Vec<Person>, Memory>
        ensures ok { IfOk result (λ people. people.items ≡ people_of self.now.roster) }
    {
        people_with(self, self.used.as_slice())
    }

    // Who has this number, or had it.
    fn person(&self, number: u16) -> Result<Person, Memory>
        ensures { IfOk result (λ person. person ≡ person_of self.now.roster number) }
    {
        let alloc = self.alloc();
        let ever = devices_with(self.ever.as_slice(), number);
        let live = devices_with(self.devices.as_slice(), number);
        let devices = owned_in(alloc, ever, live)?;
        Ok(Person {
            member: number,
            role: self.role(number),
            devices: Items::new(devices),
        })
    }

    // The allocator of its lists.
    fn alloc(&self) -> Global {
        *self.used.allocator()
    }

    /// The numbers of the members, ascending.
    pub fn members(&self) -> &[u16]
        ensures value { result.now ≡ numbers_of self.now.roster.members }
        ensures ascending { IsStrictlyIncreasing result.now }
    {
        self.numbers.as_slice()
    }

    /// The member with this number.
    pub fn member(&self, number: u16) -> Option<&Member>
        ensures value { option_copied result ≡ member_at self.now.roster number }
    {
        self.members.iter().find(|m| m.member == number)
    }

    // Whether a number was ever a member's.
    fn is_used(&self, number: u16) -> bool
        ensures { result ≡ is_used self.now.roster number }
    {
        self.used.iter().any(|n| *n == number)
    }

    // Whether a device ever was one.
    fn is_device_used(&self, device: Device) -> bool
        ensures { result ≡ is_device_used self.now.roster device }
    {
        self.ever.iter().any(|d| d.device.is(device))
    }

    /// The role of the member with this number.
    pub fn role(&self, member: u16) -> Option<Role>
        ensures value { result ≡ option_map (λ m. m.role) (member_at self.now.roster member) }
    {
        self.member(member).map(|m| m.role)
    }

    /// The numbers of the member's live devices, ascending. Empty for one who is no member.
    pub fn devices(&self, member: u16) -> &[u8]
        ensures value { result.now ≡ devices_of self.now.roster member }
        ensures none { is_some (member_at self.now.roster member) ≡ false → result.now ≡ [] }
    {
        let devices = self.devices.as_slice();
        let first = place_from(devices, u32::from(member));
        let end = place_from(devices, u32::from(member) + 1);
        &self.device_numbers[first..end]
    }

    /// The public key of a live device of the member with this number.
    pub fn key(&self, member: u16, device: u8) -> Option<&[u8; 56]>
        ensures value { option_copied result
            ≡ key_of self.now.roster (record { member = member; number = device }) }
        ensures member { is_some
            (key_of self.now.roster (record { member = member; number = device })) ≡ true
            → is_some (member_at self.now.roster member) ≡ true }
    {
        let device = Device {
            member,
            number: device,
        };
        self.devices
            .iter()
            .find(|d| d.device.is(device))
            .map(|d| &d.key)
    }

    /// Whether the document was upgraded.
    pub fn upgraded(&self) -> bool
        ensures value { result ≡ self.now.roster.upgraded }
    {
        self.upgraded
    }

    /// Whether the members may be changed so: the first fault of the change, if it has one.
    pub fn test(&self, change: &Change) -> Result<(), ChangeFault>
        ensures value { Answers result (change_fault_of self.now.roster change.now) }
    {
        match change {
            Change::Add { member, role, key } => self.test_add(*member, *role, key),
            Change::Remove { member } => self.test_remove(*member),
            Change::SetRole { member, role } => self.test_set_role(*member, *role),
            Change::AddDevice {
                member,
                device,
                key,
            } => self.test_add_device(*member, *device, key),
            Change::DropDevice { member, device } => self.test_drop_device(*member, *device),
            Change::Upgrade => self.test_upgrade(),
        }
    }

    fn test_add(&self, member: u16, role: Role, key: &[u8; 56]) -> Result<(), ChangeFault>
        ensures { Answers result
            (change_fault_of self.now.roster (Change.Add member role key.now)) }
    {
        let _ = role;
        if member == 0 || self.is_used(member) {
            return Err(ChangeFault::NumberUsed);
        }
        if self.members.len() >= usize::from(MAX_MEMBERS) {
            return Err(ChangeFault::RosterFull);
        }
        if LmsPublic::from_bytes(key).is_none() {
            return Err(ChangeFault::BadKey);
        }
        Ok(())
    }

    fn test_remove(&self, member: u16) -> Result<(), ChangeFault>
        ensures { Answers result (change_fault_of self.now.roster (Change.Remove member)) }
    {
        if self.member(member).is_none() {
            return Err(ChangeFault::NotMember);
        }
        if !has_admin_without(self.members.as_slice(), member) {
            return Err(ChangeFault::LastAdmin);
        }
        Ok(())
    }

    #[tactic(auto, using(crate::proofs::Places::admin_once))]
    fn test_set_role(&self, member: u16, role: Role) -> Result<(), ChangeFault>
        ensures { Answers result (change_fault_of self.now.roster (Change.SetRole member role)) }
    {
        let Some(found) = self.member(member) else {
            return Err(ChangeFault::NotMember);
        };
        if found.role.is(role) {
            return Err(ChangeFault::SameRole);
        }
        if !has_admin_with(self.members.as_slice(), member, role) {
            return Err(ChangeFault::LastAdmin);
        }
        Ok(())
    }

    fn test_add_device(&self, member: u16, device: u8, key: &[u8; 56]) -> Result<(), ChangeFault>
        ensures { Answers result
            (change_fault_of self.now.roster (Change.AddDevice member device key.now)) }
    {
        if !self.upgraded() {
            return Err(ChangeFault::NotUpgraded);
        }
        if self.member(member).is_none() {
            return Err(ChangeFault::NotMember);
        }
        if self.is_device_used(Device {
            member,
            number: device,
        }) {
            return Err(ChangeFault::DeviceUsed);
        }
        if self.devices(member).len() >= usize::from(MAX_DEVICES) {
            return Err(ChangeFault::DevicesFull);
        }
        if LmsPublic::from_bytes(key).is_none() {
            return Err(ChangeFault::BadKey);
        }
        Ok(())
    }

    fn test_drop_device(&self, member: u16, device: u8) -> Result<(), ChangeFault>
        ensures { Answers result
            (change_fault_of self.now.roster (Change.DropDevice member device)) }
    {
        if !self.upgraded() {
            return Err(ChangeFault::NotUpgraded);
        }
        if self.member(member).is_none() {
            return Err(ChangeFault::NotMember);
        }
        if self.key(member, device).is_none() {
            return Err(ChangeFault::NoDevice);
        }
        if self.devices(member).len() <= 1 {
            return Err(ChangeFault::LastDevice);
        }
        Ok(())
    }

    fn test_upgrade(&self) -> Result<(), ChangeFault>
        ensures { Answers result (change_fault_of self.now.roster Change.Upgrade) }
    {
        if self.upgraded() {
            return Err(ChangeFault::AlreadyUpgraded);
        }
        Ok(())
    }

    /// Takes the memory of one change: the next `make` takes none.
    pub fn reserve(&mut self) -> Result<(), Memory>
        ensures unchanged { self.new.roster ≡ self.old.roster }
        ensures ok { OnOk result (1 ≤ self.new.spare) }
        ensures ready { 1 ≤ self.old.spare → IsOk result }
    {
        self.members.reserve(1)?;
        self.numbers.reserve(1)?;
        self.used.reserve(1)?;
        self.devices.reserve(1)?;
        self.device_numbers.reserve(1)?;
        self.ever.reserve(1)
    }

    /// Makes a change that `test` accepts. It takes no memory where `spare` is at least 1.
    pub fn make(&mut self, change: &Change) -> Result<(), Memory>
        requires accepted { change_fault_of self.old.roster change.now ≡ None }
        ensures ok { OnOk result (self.new.roster ≡ after_change self.old.roster change.now) }
        ensures memory { OnErr result (self.new.roster ≡ self.old.roster) }
        ensures ready { 1 ≤ self.old.spare → IsOk result }
    {
        match change {
            Change::Add { member, role, key } => self.add(*member, *role, *key),
            Change::Remove { member } => {
                self.remove(*member);
                Ok(())
            }
            Change::SetRole { member, role } => {
                self.set_role(*member, *role);
                Ok(())
            }
            Change::AddDevice {
                member,
                device,
                key,
            } => self.add_device(*member, *device, *key),
            Change::DropDevice { member, device } => {
                self.drop_device(*member, *device);
                Ok(())
            }
            Change::Upgrade => {
                self.upgrade();
                Ok(())
            }
        }
    }

    fn add(&mut self, member: u16, role: Role, key: [u8; 56]) -> Result<(), Memory>
        requires accepted { change_fault_of self.old.roster (Change.Add member role key) ≡ None }
        ensures ok { OnOk result
            (self.new.roster ≡ after_change self.old.roster (Change.Add member role key)) }
        ensures memory { OnErr result (self.new.roster ≡ self.old.roster) }
        ensures ready { 1 ≤ self.old.spare → IsOk result }
    {
        self.reserve()?;
        let place = place_of(self.numbers.as_slice(), member);
        insert_ready(&mut self.members, place, Member { member, role });
        insert_ready(&mut self.numbers, place, member);
        let place = place_of(self.used.as_slice(), member);
        insert_ready(&mut self.used, place, member);
        let device = KeyedDevice {
            device: Device::first(member),
            key,
        };
        insert_live(&mut self.devices, &mut self.device_numbers, device);
        insert_device(&mut self.ever, device);
        Ok(())
    }

    fn remove(&mut self, member: u16)
        ensures { self.new.roster ≡ after_change self.old.roster (Change.Remove member) }
    {
        take_out_member(&mut self.members, member);
        take_out_number(&mut self.numbers, member);
        take_out_devices_of(&mut self.devices, member);
        renumber(&mut self.device_numbers, self.devices.as_slice());
    }

    fn set_role(&mut self, member: u16, role: Role)
        ensures { self.new.roster ≡ after_change self.old.roster (Change.SetRole member role) }
    {
        give_role(&mut self.members, member, role);
    }

    fn add_device(&mut self, member: u16, device: u8, key: [u8; 56]) -> Result<(), Memory>
        requires accepted { change_fault_of self.old.roster (Change.AddDevice member device key)
            ≡ None }
        ensures ok { OnOk result
            (self.new.roster ≡ after_change self.old.roster (Change.AddDevice member device key)) }
        ensures memory { OnErr result (self.new.roster ≡ self.old.roster) }
        ensures ready { 1 ≤ self.old.spare → IsOk result }
    {
        self.reserve()?;
        let device = KeyedDevice {
            device: Device {
                member,
                number: device,
            },
            key,
        };
        insert_live(&mut self.devices, &mut self.device_numbers, device);
        insert_device(&mut self.ever, device);
        Ok(())
    }

    fn drop_device(&mut self, member: u16, device: u8)
        ensures { self.new.roster ≡ after_change self.old.roster (Change.DropDevice member device) }
    {
        take_out_device(
            &mut self.devices,
            Device {
                member,
                number: device,
            },
        );
        renumber(&mut self.device_numbers, self.devices.as_slice());
    }

    fn upgrade(&mut self)
        ensures { self.new.roster ≡ after_change self.old.roster Change.Upgrade }
    {
        self.upgraded = true;
    }

    /// The numbers of the members after a change, ascending where `test` accepts it.
    pub fn members_after(&self, change: &Change) -> Result<Vec<u16>, Memory>
        ensures ok { IfOk result (λ numbers. numbers.items
            ≡ numbers_of (after_change self.now.roster change.now).members) }
    {
        let alloc = *self.numbers.allocator();
        let numbers = self.numbers.as_slice();
        match change {
            Change::Add { member, .. } => numbers_with(alloc, numbers, *member),
            Change::Remove { member } => numbers_without(alloc, numbers, *member),
            Change::SetRole { .. } => Vec::from_slice(alloc, numbers),
            Change::AddDevice { .. } | Change::DropDevice { .. } | Change::Upgrade => {
                Vec::from_slice(alloc, numbers)
            }
        }
    }
}

// The people with these numbers.
fn people_with(roster: &Roster, numbers: &[u16]) -> Result<Vec<Person>, Memory>
    ensures { IfOk result (λ people. people.items
        ≡ map (person_of roster.now.roster) numbers.now) }
{
    let mut people = Vec::with_capacity(roster.alloc(), numbers.len())?;
    for number in numbers {
        people.push(roster.person(*number)?)?;
    }
    Ok(people)
}
