//! Byte strings.

ghost use Rattle.std.specs.Prelude.{◌≡◌, ◌↔◌, ◌+◌, ◌≤◌, ◌++◌, IsTrue, length, take, drop, bytes_eq};

/// Whether two byte strings are the same.
pub fn is_same(a: &[u8], b: &[u8]) -> bool
    ensures value { result ≡ bytes_eq a.now b.now }
    ensures meaning { IsTrue result ↔ (a.now ≡ b.now) }
{
    a == b
}

/// Writes a field into bytes, from a place on.
#[tactic(auto, using(std::proofs::lemmas::Slice::overwrites))]
pub fn put_at(bytes: &mut [u8], place: usize, field: &[u8])
    requires in_bounds { place + length field.now ≤ length bytes.old }
    ensures value { take (place + length field.now) bytes.new ≡ take place bytes.old ++ field.now }
    ensures rest { drop (place + length field.now) bytes.new
        ≡ drop (place + length field.now) bytes.old }
{
    bytes[place..place + field.len()].copy_from_slice(field);
}
