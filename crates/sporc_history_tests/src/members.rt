ghost use Rattle.std.specs.Prelude.{◌≡◌};

use crate::checks::check;
use sporc_base::is_same;
use sporc_member::{Change, ChangeFault, Founder, Role, Roster};
use std::alloc::Global;
use std::process::Abort;

// A key of the types 5 (LMS_SHA256_M32_H5) and 3 (LMOTS_SHA256_N32_W4), numbered in its last byte.
fn key(number: u8) -> [u8; 56] {
    let mut key = [0u8; 56];
    key[3] = 5;
    key[7] = 3;
    key[55] = number;
    key
}

fn founder(member: u16, role: Role) -> Founder
    ensures { result.member ≡ member }
{
    let key = key(7);
    Founder { member, role, key }
}

fn add(member: u16, role: Role) -> Change {
    let key = key(9);
    Change::Add { member, role, key }
}

fn add_without_key(member: u16) -> Change {
    Change::Add {
        member,
        role: Role::Editor,
        key: [0; 56],
    }
}

fn remove(member: u16) -> Change {
    Change::Remove { member }
}

fn set_role(member: u16, role: Role) -> Change {
    Change::SetRole { member, role }
}

fn add_device(member: u16, device: u8) -> Change {
    Change::AddDevice {
        member,
        device,
        key: key(device),
    }
}

const DEVICE_WITHOUT_KEY: Change = Change::AddDevice {
    member: 1,
    device: 9,
    key: [0; 56],
};

fn drop_device(member: u16, device: u8) -> Change {
    Change::DropDevice { member, device }
}

fn is_refused(rt: &impl Abort, roster: &Roster, change: Change, fault: ChangeFault) {
    check(rt, fault.name(), roster.test(&change) == Err(fault));
}

// What the roster of admin 1 alone refuses.
fn one_admin_refuses(rt: &impl Abort, roster: &Roster) {
    is_refused(rt, roster, add(1, Role::Reader), ChangeFault::NumberUsed);
    is_refused(rt, roster, remove(1), ChangeFault::LastAdmin);
    is_refused(rt, roster, set_role(1, Role::Admin), ChangeFault::SameRole);
    is_refused(
        rt,
        roster,
        set_role(1, Role::Editor),
        ChangeFault::LastAdmin,
    );
    is_refused(rt, roster, remove(2), ChangeFault::NotMember);
    is_refused(rt, roster, add_without_key(2), ChangeFault::BadKey);
}

fn are(found: &[u16], numbers: &[u16]) -> bool {
    found == numbers
}

// Whether these are the members after a change.
fn come_after(rt: &impl Abort, roster: &Roster, change: &Change, numbers: &[u16]) -> bool {
    let after = roster.members_after(change).expect(rt, "memory");
    are(after.as_slice(), numbers)
}

// Makes a change, after which these are the members.
fn make(rt: &impl Abort, roster: &mut Roster, change: Change, numbers: &[u16]) {
    roster.reserve().expect(rt, "memory");
    check(
        rt,
        "members after",
        come_after(rt, roster, &change, numbers),
    );
    let accepted = roster.test(&change);
    check(rt, "accepted", accepted.is_ok());
    if accepted.is_ok() {
        roster.make(&change).expect(rt, "memory");
    }
    check(rt, "members", are(roster.members(), numbers));
}

fn are_made(rt: &impl Abort, roster: &mut Roster) {
    make(rt, roster, add(3, Role::Reader), &[1, 3, 5]);
    make(rt, roster, set_role(3, Role::Admin), &[1, 3, 5]);
    make(rt, roster, remove(1), &[3, 5]);
    make(rt, roster, add(65535, Role::Editor), &[3, 5, 65535]);
    make(rt, roster, remove(5), &[3, 65535]);
}

fn is_key(found: Option<&[u8; 56]>, key: &[u8; 56]) -> bool {
    match found {
        Some(found) => is_same(found, key),
        None => false,
    }
}

fn is_changed(roster: &Roster) -> bool {
    roster.role(3) == Some(Role::Admin)
        && roster.role(1).is_none()
        && is_key(roster.key(65535, 0), &key(9))
}

fn has_devices(rt: &impl Abort, roster: &Roster, member: u16, devices: &[u8]) {
    check(rt, "devices", roster.devices(member) == devices);
}

// What the roster of admin 1 alone refuses of devices, before its Upgrade and after.
fn devices_are_refused(rt: &impl Abort, roster: &mut Roster) {
    is_refused(rt, roster, add_device(1, 1), ChangeFault::NotUpgraded);
    is_refused(rt, roster, drop_device(1, 0), ChangeFault::NotUpgraded);
    make(rt, roster, Change::Upgrade, &[1]);
    check(rt, "upgraded", roster.upgraded());
    is_refused(rt, roster, Change::Upgrade, ChangeFault::AlreadyUpgraded);
    is_refused(rt, roster, add_device(1, 0), ChangeFault::DeviceUsed);
    is_refused(rt, roster, drop_device(1, 0), ChangeFault::LastDevice);
    is_refused(rt, roster, drop_device(1, 3), ChangeFault::NoDevice);
    is_refused(rt, roster, add_device(2, 1), ChangeFault::NotMember);
    is_refused(rt, roster, drop_device(2, 0), ChangeFault::NotMember);
}

// Eight live devices are as many as one can have; a number that was dropped is used.
fn devices_come_and_go(rt: &impl Abort, roster: &mut Roster) {
    for device in [7, 2, 5, 1, 6, 3, 4] {
        make(rt, roster, add_device(1, device), &[1]);
    }
    has_devices(rt, roster, 1, &[0, 1, 2, 3, 4, 5, 6, 7]);
    is_refused(rt, roster, add_device(1, 8), ChangeFault::DevicesFull);
    make(rt, roster, drop_device(1, 3), &[1]);
    has_devices(rt, roster, 1, &[0, 1, 2, 4, 5, 6, 7]);
    is_refused(rt, roster, add_device(1, 3), ChangeFault::DeviceUsed);
    is_refused(rt, roster, drop_device(1, 3), ChangeFault::NoDevice);
    is_refused(rt, roster, DEVICE_WITHOUT_KEY, ChangeFault::BadKey);
    make(rt, roster, drop_device(1, 0), &[1]);
    make(rt, roster, add_device(1, 255), &[1]);
    has_devices(rt, roster, 1, &[1, 2, 4, 5, 6, 7, 255]);
    check(rt, "no key", roster.key(1, 3).is_none());
    check(rt, "a key", is_key(roster.key(1, 5), &key(5)));
}

// Who leaves has no device, and the devices of others stay.
fn devices_leave(rt: &impl Abort, roster: &mut Roster) {
    make(rt, roster, add(2, Role::Admin), &[1, 2]);
    make(rt, roster, add_device(2, 9), &[1, 2]);
    has_devices(rt, roster, 2, &[0, 9]);
    make(rt, roster, remove(1), &[2]);
    has_devices(rt, roster, 1, &[]);
    has_devices(rt, roster, 2, &[0, 9]);
    is_refused(rt, roster, add_device(1, 8), ChangeFault::NotMember);
}

fn two_change(rt: &impl Abort, alloc: Global) {
    let founders = [founder(1, Role::Admin), founder(5, Role::Editor)];
    let mut roster = Roster::found(alloc, &founders).expect(rt, "memory");
    are_made(rt, &mut roster);
    check(rt, "changed", is_changed(&roster));
    is_refused(rt, &roster, add(1, Role::Editor), ChangeFault::NumberUsed);
}

// Sixty-four members are as many as there can be.
fn members_are_full(rt: &impl Abort, roster: &mut Roster) {
    for member in 2..66 {
        let change = add(member, Role::Reader);
        if roster.test(&change).is_ok() {
            roster.make(&change).expect(rt, "memory");
        }
    }
    check(rt, "sixty-four", roster.members().len() == 64);
    is_refused(rt, roster, add(66, Role::Reader), ChangeFault::RosterFull);
}

// By their numbers, from 1 on.
const FAULTS: [(ChangeFault, &str); 12] = [
    (ChangeFault::NumberUsed, "number-used"),
    (ChangeFault::NotMember, "not-member"),
    (ChangeFault::SameRole, "same-role"),
    (ChangeFault::LastAdmin, "last-admin"),
    (ChangeFault::RosterFull, "roster-full"),
    (ChangeFault::BadKey, "bad-key"),
    (ChangeFault::DeviceUsed, "device-used"),
    (ChangeFault::NoDevice, "no-device"),
    (ChangeFault::LastDevice, "last-device"),
    (ChangeFault::DevicesFull, "devices-full"),
    (ChangeFault::NotUpgraded, "not-upgraded"),
    (ChangeFault::AlreadyUpgraded, "already-upgraded"),
];

fn is_named_and_numbered(fault: ChangeFault, name: &str, number: u8) -> bool {
    fault.name() == name
        && fault.code() == number
        && ChangeFault::from_code(u32::from(number)) == Some(fault)
}

fn have_names_and_numbers(rt: &impl Abort) {
    let mut number = 1u8;
    for (fault, name) in &FAULTS {
        check(rt, *name, is_named_and_numbered(*fault, *name, number));
        number = number.wrapping_add(1);
    }
    check(rt, "role 2", Role::from_code(2) == Some(Role::Editor));
    check(rt, "role 4", Role::from_code(4).is_none());
}

#[test]
fn members_change(rt: HostRuntime) {
    let roster = Roster::found(rt.alloc(), &[founder(1, Role::Admin)]).expect(&rt, "memory");
    one_admin_refuses(&rt, &roster);
    have_names_and_numbers(&rt);
    two_change(&rt, rt.alloc());
}

#[test]
fn devices_change(rt: HostRuntime) {
    let founders = [founder(1, Role::Admin)];
    let mut roster = Roster::found(rt.alloc(), &founders).expect(&rt, "memory");
    devices_are_refused(&rt, &mut roster);
    devices_come_and_go(&rt, &mut roster);
    devices_leave(&rt, &mut roster);
    members_are_full(&rt, &mut roster);
}
