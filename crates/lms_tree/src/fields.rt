//! Numbers among the bytes of keys and signatures.

ghost use Rattle.std.specs.Prelude.{◌≡◌, ◌+◌, ◌≤◌, length};
ghost use Rattle.lms_tree.specs.Fields.{u32_at};

// The four bytes from `place` on, as a number.
pub(crate) fn u32_at(bytes: &[u8], place: usize) -> u32
    requires { place + 4 ≤ length bytes.now }
    ensures { result ≡ u32_at bytes.now place }
{
    let mut four = [0u8; 4];
    four.copy_from_slice(&bytes[place..place + 4]);
    u32::from_be_bytes(four)
}
