//! Public keys.

ghost use Rattle.std.specs.Prelude.{◌≡◌, ◌↔◌, length, Some, IsSome, IfSome};
ghost use Rattle.lms_ots.specs.OtsType.{ots_type_with_code};

use crate::fields::u32_at;
use crate::lms_type::LmsType;
use lms_ots::OtsType;
use sporc_base::put_at;

/// A public key: the types of the tree and of its one-time keys, the tree's identifier `I` and the
/// value `T[1]` of its root.
#[derive(Clone, Copy, PartialEq, Eq)]
pub struct LmsPublic {
    pub lms: LmsType,
    pub ots: OtsType,
    pub id: [u8; 16],
    pub root: [u8; 32],
}

impl LmsPublic {
    ghost use Rattle.lms_tree.specs.Fields.{u32_at};
    ghost use Rattle.lms_tree.specs.LmsType.{lms_type_with_code};
    ghost use Rattle.lms_tree.specs.LmsPublic.{public_key_bytes, public_key_in};

    /// The key that these bytes spell (RFC 8554, section 5.3): both type codes, four bytes each,
    /// `I` and `T[1]`.
    pub fn from_bytes(bytes: &[u8]) -> Option<LmsPublic>
        ensures value { result ≡ public_key_in bytes.now }
        ensures found { IsSome result ↔ ((length bytes.now ≡ 56)
            × IsSome (lms_type_with_code (u32_at bytes.now 0))
            × IsSome (ots_type_with_code (u32_at bytes.now 4))) }
        ensures written_so { IfSome result (λ key. public_key_bytes key ≡ bytes.now) }
    {
        if bytes.len() != 56 {
            return None;
        }
        let lms = LmsType::from_code(u32_at(bytes, 0))?;
        let ots = OtsType::from_code(u32_at(bytes, 4))?;
        let mut id = [0u8; 16];
        id.copy_from_slice(&bytes[8..24]);
        let mut root = [0u8; 32];
        root.copy_from_slice(&bytes[24..56]);
        Some(LmsPublic { lms, ots, id, root })
    }

    /// The bytes of the key.
    pub fn to_bytes(&self) -> [u8; 56]
        ensures value { result ≡ public_key_bytes self.now }
        ensures read_again { public_key_in result ≡ Some self.now }
    {
        let mut bytes = [0u8; 56];
        put_at(&mut bytes, 0, &self.lms.code().to_be_bytes());
        put_at(&mut bytes, 4, &self.ots.code().to_be_bytes());
        put_at(&mut bytes, 8, &self.id);
        put_at(&mut bytes, 24, &self.root);
        bytes
    }
}
