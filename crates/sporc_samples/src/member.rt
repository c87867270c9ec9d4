//! Members and their devices with keys.

ghost use Rattle.std.specs.Prelude.{◌≡◌};
ghost use Rattle.lms_tree.specs.declared.lms_type.LmsType.{LmsType};

use lms_ots::OtsType;
use lms_tree::{LmsType, Tree};
use sporc_base::Memory;
use sporc_member::{Device, Founder, Role};
use std::alloc::Global;

/// A member by a device of it with 32 one-time keys: a tree of height 5, four bits a coefficient.
#[derive(Drop)]
pub struct Member {
    device: Device,
    role: Role,
    tree: Tree,
    ghost five: { tree.lms ≡ LmsType.H5 },
}

impl Member {
    /// The member with this number by its first device, whose keys come from it.
    pub fn new(alloc: Global, number: u16, role: Role) -> Result<Member, Memory> {
        Member::by_device(alloc, Device::first(number), role)
    }

    /// A member by this device of it, whose keys come from both numbers.
    pub fn by_device(alloc: Global, device: Device, role: Role) -> Result<Member, Memory> {
        let [high, low] = device.member.to_be_bytes();
        let mut seed = [high ^ low; 32];
        seed[31] ^= device.number;
        let mut id = [low; 16];
        id[15] ^= device.number;
        let tree = Tree::build(alloc, &seed, &id, LmsType::H5, OtsType::W4)?;
        Ok(Member { device, role, tree })
    }

    /// Its number.
    pub fn number(&self) -> u16 {
        self.device.member
    }

    /// The device whose keys it has.
    pub fn device(&self) -> Device {
        self.device
    }

    /// The bytes of its public key.
    pub fn key(&self) -> [u8; 56] {
        self.tree.public().to_bytes()
    }

    /// What a genesis says of it.
    pub fn founder(&self) -> Founder {
        Founder {
            member: self.device.member,
            role: self.role,
            key: self.key(),
        }
    }

    /// Its signature of a message by the one-time key of a leaf, taken modulo 32.
    pub fn sign(&self, alloc: Global, leaf: u32, message: &[u8]) -> Result<Vec<u8>, Memory> {
        self.tree.sign(alloc, leaf % 32, &[5; 32], message)
    }
}
