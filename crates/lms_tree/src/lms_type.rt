//! The types of trees.

ghost use Rattle.std.specs.Prelude.{◌≡◌, ◌≢◌, ◌≤◌, ◌↔◌, IsNone};

/// A type of trees, named by its height: LMS_SHA256_M32_H5 and its kin, of RFC 8554, table 2.
#[derive(Clone, Copy, PartialEq, Eq)]
pub enum LmsType {
    H5,
    H10,
    H15,
    H20,
    H25,
}

impl LmsType {
    ghost use Rattle.lms_tree.specs.declared.lms_type.LmsType.{LmsType};
    ghost use Rattle.lms_tree.specs.LmsType.{height_of, lms_code_of, lms_type_with_code};

    /// The type with this type code.
    pub fn from_code(code: u32) -> Option<LmsType>
        ensures value { result ≡ lms_type_with_code code }
        ensures unknown { IsNone result ↔ ((t : LmsType) → lms_code_of t ≢ code) }
    {
        match code {
            5 => Some(LmsType::H5),
            6 => Some(LmsType::H10),
            7 => Some(LmsType::H15),
            8 => Some(LmsType::H20),
            9 => Some(LmsType::H25),
            _ => None,
        }
    }

    /// The type code.
    pub fn code(self) -> u32
        ensures value { result ≡ lms_code_of self }
    {
        match self {
            LmsType::H5 => 5,
            LmsType::H10 => 6,
            LmsType::H15 => 7,
            LmsType::H20 => 8,
            LmsType::H25 => 9,
        }
    }

    /// The height: a tree has `2^height` leaves.
    pub fn height(self) -> u32
        ensures value { result ≡ height_of self }
        ensures within { result ≤ 25 }
    {
        match self {
            LmsType::H5 => 5,
            LmsType::H10 => 10,
            LmsType::H15 => 15,
            LmsType::H20 => 20,
            LmsType::H25 => 25,
        }
    }
}
