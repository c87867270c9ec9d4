//! Keys of epochs, and keys that two members share.

/// The key of an epoch.
pub fn epoch_key(epoch: u32) -> [u8; 32] {
    let [a, b, c, d] = epoch.to_be_bytes();
    let mut key = [0x45; 32];
    key[28] = a;
    key[29] = b;
    key[30] = c;
    key[31] = d;
    key
}

/// The key that two members share, the same in either order.
pub fn pair_key(one: u16, other: u16) -> [u8; 32] {
    let [a, b] = one.min(other).to_be_bytes();
    let [c, d] = one.max(other).to_be_bytes();
    let mut key = [0x50; 32];
    key[28] = a;
    key[29] = b;
    key[30] = c;
    key[31] = d;
    key
}
