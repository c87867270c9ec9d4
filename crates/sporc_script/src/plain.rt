//! Lines that are words and numbers alone.

ghost use Rattle.std.specs.Prelude.{◌≡◌};
ghost use Rattle.sporc_script.specs.Plain.{flip_of, further_device_of, give_of, member_device_of};
ghost use Rattle.sporc_script.specs.Plain.{member_role_of, restart_of, tree_of, two_devices_of};
ghost use Rattle.sporc_script.specs.Plain.{two_members_of};

use crate::command::{DevicePair, Flip, Give, Pair, Restart, Tree};
use crate::member_role::MemberRole;
use crate::names::{parse_height, parse_role, parse_width};
use crate::words::{
    cut, parse_device, parse_device_number, parse_further_number, parse_member, parse_u32,
    parse_u64,
};
use sporc_member::Device;

// `H W`
#[tactic(auto, unfolding(crate::specs::Plain::tree_of))]
pub fn read_tree(words: &[u8]) -> Option<Tree>
    ensures value { result ≡ tree_of words.now }
{
    let (first, second) = cut(words)?;
    let height = parse_height(first)?;
    let width = parse_width(second)?;
    Some(Tree { height, width })
}

// `M ROLE`
#[tactic(auto, unfolding(crate::specs::Plain::member_role_of))]
pub fn read_member_role(words: &[u8]) -> Option<MemberRole>
    ensures value { result ≡ member_role_of words.now }
{
    let (first, second) = cut(words)?;
    let member = parse_member(first)?;
    let role = parse_role(second)?;
    Some(MemberRole { member, role })
}

// `M N`
#[tactic(auto, unfolding(crate::specs::Plain::two_members_of))]
pub fn read_two_members(words: &[u8]) -> Option<Pair>
    ensures value { result ≡ two_members_of words.now }
{
    let (m, n) = cut(words)?;
    let first = parse_member(m)?;
    let second = parse_member(n)?;
    Some(Pair { first, second })
}

// `C C`
#[tactic(auto, unfolding(crate::specs::Plain::two_devices_of))]
pub fn read_two_devices(words: &[u8]) -> Option<DevicePair>
    ensures value { result ≡ two_devices_of words.now }
{
    let (c, d) = cut(words)?;
    let first = parse_device(c)?;
    let second = parse_device(d)?;
    Some(DevicePair { first, second })
}

// `M D`
#[tactic(auto, unfolding(crate::specs::Plain::member_device_of))]
pub fn read_member_device(words: &[u8]) -> Option<Device>
    ensures value { result ≡ member_device_of words.now }
{
    let (first, second) = cut(words)?;
    let member = parse_member(first)?;
    let number = parse_device_number(second)?;
    Some(Device { member, number })
}

// `M D` of a further device
#[tactic(auto, unfolding(crate::specs::Plain::further_device_of))]
pub fn read_further_device(words: &[u8]) -> Option<Device>
    ensures value { result ≡ further_device_of words.now }
{
    let (first, second) = cut(words)?;
    let member = parse_member(first)?;
    let number = parse_further_number(second)?;
    Some(Device { member, number })
}

// `C POS E`
#[tactic(auto, unfolding(crate::specs::Plain::give_of))]
pub fn read_give(words: &[u8]) -> Option<Give>
    ensures value { result ≡ give_of words.now }
{
    let (first, rest) = cut(words)?;
    let device = parse_device(first)?;
    let (second, third) = cut(rest)?;
    let position = parse_u32(second)?;
    let entry = parse_u64(third)?;
    Some(Give {
        device,
        position,
        entry,
    })
}

// `C K`
#[tactic(auto, unfolding(crate::specs::Plain::restart_of))]
pub fn read_restart(words: &[u8]) -> Option<Restart>
    ensures value { result ≡ restart_of words.now }
{
    let (first, second) = cut(words)?;
    let device = parse_device(first)?;
    let entries = parse_u64(second)?;
    Some(Restart { device, entries })
}

// `E AT`
#[tactic(auto, unfolding(crate::specs::Plain::flip_of))]
pub fn read_flip(words: &[u8]) -> Option<Flip>
    ensures value { result ≡ flip_of words.now }
{
    let (first, second) = cut(words)?;
    let entry = parse_u64(first)?;
    let at = parse_u64(second)?;
    Some(Flip { entry, at })
}
