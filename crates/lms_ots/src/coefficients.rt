//! A string of bytes as a row of small numbers, and their checksum.

ghost use Rattle.std.specs.Prelude.{◌≡◌, ◌+◌, ◌*◌, ◌^◌, ◌<◌, ◌≤◌, length};
ghost use Rattle.lms_ots.specs.Coefficients.{IsWidth, checksum_of, coef_of, with_checksum};

use crate::ots_type::OtsType;

/// The `i`-th number of `w` bits in `s`, high bits first (RFC 8554, section 3.1.3).
pub fn coef(s: &[u8], i: usize, w: u32) -> u8
    requires width { IsWidth w }
    requires limit { (i + 1) * w ≤ 8 * length s.now }
    ensures value { result ≡ coef_of s.now i w }
    ensures within { result < 2 ^ w }
{
    let per_byte = (8 / w) as usize;
    let place = (i % per_byte) as u32;
    let byte = s[i / per_byte];
    let shift = 8 - (w * place + w);
    let mask = ((1u16 << w) - 1) as u8;
    (byte >> shift) & mask
}

/// What the coefficients of a digest lack of the greatest, in sum, shifted left by the type's `ls`
/// (RFC 8554, section 4.4). So a digest with a greater coefficient has a smaller checksum.
pub fn checksum(q: &[u8; 32], t: OtsType) -> u16
    ensures value { result ≡ checksum_of q.now t }
{
    let w = t.w();
    let greatest = t.greatest();
    let mut sum = 0u16;
    'coefficients: for i in 0..(256 / w) as usize {
        sum += u16::from(greatest - coef(q, i, w));
    }
    sum << t.ls()
}

// A digest and its checksum: the string whose coefficients are signed.
pub(crate) fn with_checksum(digest: &[u8; 32], t: OtsType) -> [u8; 34]
    ensures { result ≡ with_checksum digest.now t }
{
    let mut string = [0u8; 34];
    string[..32].copy_from_slice(digest);
    string[32..].copy_from_slice(&checksum(digest, t).to_be_bytes());
    string
}
