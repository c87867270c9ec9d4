//! The random bytes of a submission, in two halves: those of the signature, and the key of a new
//! epoch.

ghost use Rattle.std.specs.Prelude.{◌≡◌, drop, take};

/// The first 32 of 64 random bytes.
pub fn first_half(random: &[u8; 64]) -> [u8; 32]
    ensures value { result ≡ take 32 random.now }
{
    let mut half = [0; 32];
    half.copy_from_slice(&random[..32]);
    half
}

/// The last 32 of 64 random bytes.
pub fn second_half(random: &[u8; 64]) -> [u8; 32]
    ensures value { result ≡ drop 32 random.now }
{
    let mut half = [0; 32];
    half.copy_from_slice(&random[32..]);
    half
}
