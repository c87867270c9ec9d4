//! The types of one-time signatures.

ghost use Rattle.std.specs.Prelude.{◌≡◌, ◌≢◌, ◌-◌, ◌≤◌, ◌^◌, ◌↔◌, IsNone};

/// A type of one-time signatures, named by the bits of a coefficient: LMOTS_SHA256_N32_W1 and its
/// kin, of RFC 8554, table 1.
#[derive(Clone, Copy, PartialEq, Eq)]
pub enum OtsType {
    W1,
    W2,
    W4,
    W8,
}

impl OtsType {
    ghost use Rattle.lms_ots.specs.declared.ots_type.OtsType.{OtsType};
    ghost use Rattle.lms_ots.specs.OtsType.{checksum_shift_of, ots_code_of, ots_signature_len_of};
    ghost use Rattle.lms_ots.specs.OtsType.{ots_type_with_code, part_count_of, width_of};

    /// The type with this type code.
    pub fn from_code(code: u32) -> Option<OtsType>
        ensures value { result ≡ ots_type_with_code code }
        ensures unknown { IsNone result ↔ ((t : OtsType) → ots_code_of t ≢ code) }
    {
        match code {
            1 => Some(OtsType::W1),
            2 => Some(OtsType::W2),
            3 => Some(OtsType::W4),
            4 => Some(OtsType::W8),
            _ => None,
        }
    }

    /// The type code.
    pub fn code(self) -> u32
        ensures value { result ≡ ots_code_of self }
    {
        match self {
            OtsType::W1 => 1,
            OtsType::W2 => 2,
            OtsType::W4 => 3,
            OtsType::W8 => 4,
        }
    }

    /// The bits of a coefficient.
    pub fn w(self) -> u32
        ensures value { result ≡ width_of self }
    {
        match self {
            OtsType::W1 => 1,
            OtsType::W2 => 2,
            OtsType::W4 => 4,
            OtsType::W8 => 8,
        }
    }

    /// The number of parts of a key and of a signature, 32 bytes each.
    pub fn p(self) -> usize
        ensures value { result ≡ part_count_of self }
        ensures within { result ≤ 265 }
    {
        match self {
            OtsType::W1 => 265,
            OtsType::W2 => 133,
            OtsType::W4 => 67,
            OtsType::W8 => 34,
        }
    }

    /// The bits by which the checksum is shifted left.
    pub fn ls(self) -> u32
        ensures value { result ≡ checksum_shift_of self }
    {
        match self {
            OtsType::W1 => 7,
            OtsType::W2 => 6,
            OtsType::W4 => 4,
            OtsType::W8 => 0,
        }
    }

    /// The length of a signature in bytes.
    pub fn signature_len(self) -> usize
        ensures value { result ≡ ots_signature_len_of self }
    {
        36 + 32 * self.p()
    }

    // The greatest coefficient, which is the number of steps of a whole chain.
    pub(crate) fn greatest(self) -> u8
        ensures { result ≡ 2 ^ width_of self - 1 }
    {
        match self {
            OtsType::W1 => 1,
            OtsType::W2 => 3,
            OtsType::W4 => 15,
            OtsType::W8 => 255,
        }
    }
}
