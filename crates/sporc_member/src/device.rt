//! Devices.

ghost use Rattle.std.specs.Prelude.{◌≡◌};

/// The number of the device that each member begins with.
pub const FIRST_DEVICE: u8 = 0;

/// A device of a member, by the member's number and its own, which no later device of the member
/// has. Each device signs with a key of its own.
#[derive(Clone, Copy, PartialEq, Eq)]
pub struct Device {
    pub member: u16,
    pub number: u8,
}

impl Device {
    ghost use Rattle.sporc_member.specs.Device.{first_device, same_device, is_before};

    /// The device that a member begins with.
    pub fn first(member: u16) -> Device
        ensures value { result ≡ first_device member }
    {
        Device {
            member,
            number: FIRST_DEVICE,
        }
    }

    /// Whether it is the other device.
    pub fn is(self, other: Device) -> bool
        ensures value { result ≡ same_device self other }
    {
        self.member == other.member && self.number == other.number
    }

    // Whether it stands before the other one in the order of members, and of numbers where the
    // member is one.
    pub(crate) fn is_before(self, other: Device) -> bool
        ensures { result ≡ is_before self other }
    {
        self.member < other.member || self.member == other.member && self.number < other.number
    }
}

/// A device with the 56 bytes of its public key (RFC 8554, section 5.3).
#[derive(Clone, Copy, PartialEq, Eq)]
pub struct KeyedDevice {
    pub device: Device,
    pub key: [u8; 56],
}
