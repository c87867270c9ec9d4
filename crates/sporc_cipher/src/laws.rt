//! Laws of masks.

ghost use Rattle.std.specs.Prelude.{◌≡◌, length};
ghost use Rattle.sporc_cipher.specs.Mask.{mask_of};

/// A mask put on twice is taken off, and a mask keeps the length.
pub fn mask_twice(key: &[u8; 32], stream: u64, bytes: &[u8])
    ensures undone { mask_of key.now stream (mask_of key.now stream bytes.now) ≡ bytes.now }
    ensures len { length (mask_of key.now stream bytes.now) ≡ length bytes.now }
{}
