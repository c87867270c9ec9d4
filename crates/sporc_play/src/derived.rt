//! The values that a play derives for the members of its script and their devices, all of them by
//! SHA-256.

ghost use Rattle.std.specs.Prelude.{◌≡◌, ◌<◌, ◌^◌, take};
ghost use Rattle.sporc_play.specs.Derived.{derived, document_number, first_key, identifier_of};
ghost use Rattle.sporc_play.specs.Derived.{pair_key, random_of, seed_of};

use sha2::{Digest, Sha256};
use sporc_base::put_at;
use sporc_member::Device;

// A value of some kind, by a member and a number.
fn derived(kind: u8, member: u16, number: u32) -> [u8; 32]
    ensures value { result ≡ derived kind member number }
{
    let mut hasher = Sha256::new();
    hasher.update([0xf0u8, kind]);
    hasher.update(member.to_be_bytes());
    hasher.update(number.to_be_bytes());
    hasher.finalize()
}

// The first 16 bytes of a derived value.
fn prefix_of(value: &[u8; 32]) -> [u8; 16]
    ensures value { result ≡ take 16 value.now }
{
    let mut prefix = [0; 16];
    prefix.copy_from_slice(&value[..16]);
    prefix
}

/// The seed of a device's signature tree.
pub fn seed_of(device: Device) -> [u8; 32]
    ensures value { result ≡ seed_of device }
{
    derived(1, device.member, u32::from(device.number))
}

/// The identifier of a device's signature tree.
pub fn identifier_of(device: Device) -> [u8; 16]
    ensures value { result ≡ identifier_of device }
{
    prefix_of(&derived(2, device.member, u32::from(device.number)))
}

/// The key that two members share.
pub fn pair_key(one: u16, other: u16) -> [u8; 32]
    ensures value { result ≡ pair_key one other }
{
    if one <= other {
        derived(3, one, u32::from(other))
    } else {
        derived(3, other, u32::from(one))
    }
}

/// The key of epoch 0.
pub fn first_key() -> [u8; 32]
    ensures value { result ≡ first_key }
{
    derived(4, 0, 0)
}

/// The document's number.
pub fn document_number() -> [u8; 16]
    ensures value { result ≡ document_number }
{
    prefix_of(&derived(5, 0, 0))
}

/// The random bytes of what a device signs or submits for the t-th time, from 1: 32 for the
/// signature, and 32 for a new key.
pub fn random_of(device: Device, t: u32) -> [u8; 64]
    requires limit { t < 2 ^ 24 }
    ensures value { result ≡ random_of device t }
{
    let number = u32::from(device.number) * (1 << 24) + t;
    let mut random = [0; 64];
    put_at(&mut random, 0, &derived(6, device.member, number));
    put_at(&mut random, 32, &derived(7, device.member, number));
    random
}
