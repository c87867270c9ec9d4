//! The streams of ChaCha20 that mask bodies and seal keys.

ghost use Rattle.std.specs.Prelude.{◌≡◌};
ghost use Rattle.sporc_cipher.specs.Mask.{mask_of};
ghost use Rattle.sporc_epoch.specs.Streams.{entry_stream, stream_of, previous_stream};

use sporc_cipher::mask;
use sporc_entry::Header;
use sporc_member::Device;

/// The greatest number of an epoch. No change ends it.
pub const MAX_EPOCH: u32 = u32::MAX;

// The number of the first stream of a member's devices is a multiple of this.
const MEMBER_STREAMS: u64 = 1 << 40;

// The number of a device's first stream, from its member's on, is a multiple of this.
const DEVICE_STREAMS: u64 = 1 << 32;

// The number of the first stream that seals the key of an epoch that ended.
const PREVIOUS_STREAMS: u64 = 1 << 60;

/// The number of the stream of an entry, by the device that signs it and its leaf. It masks the
/// body of an edit under the key of its epoch, and seals the key of the next epoch under a pairwise
/// key.
pub fn entry_stream(device: Device, leaf: u32) -> u64
    ensures value { result ≡ entry_stream device leaf }
{
    u64::from(device.member) * MEMBER_STREAMS
        + u64::from(device.number) * DEVICE_STREAMS
        + u64::from(leaf)
}

/// The number of the stream of the entry with this header.
pub fn stream_of(header: &Header) -> u64
    ensures value { result ≡ stream_of header.now }
{
    entry_stream(header.author_device(), header.leaf)
}

// The number of the stream that seals, under the key of an epoch, that of the epoch before.
pub(crate) fn previous_stream(epoch: u32) -> u64
    ensures value { result ≡ previous_stream epoch }
{
    PREVIOUS_STREAMS + u64::from(epoch)
}

// A key, sealed under another; or a sealed one, opened.
pub(crate) fn masked(under: &[u8; 32], stream: u64, key: &[u8; 32]) -> [u8; 32]
    ensures value { result ≡ mask_of under.now stream key.now }
{
    let mut masked = *key;
    mask(under, stream, &mut masked);
    masked
}
