//! The values of nodes.

ghost use Rattle.std.specs.Prelude.{◌≡◌, ◌*◌, length};
ghost use Rattle.lms_tree.specs.Nodes.{ancestor_of, inner_value, leaf_value, parent_value};

use sha2::{Digest, Sha256};

// The value of node `r`, a leaf with this one-time public key.
pub(crate) fn leaf_value(id: &[u8; 16], r: u32, key: &[u8; 32]) -> [u8; 32]
    ensures { result ≡ leaf_value id.now r key.now }
{
    let mut hasher = Sha256::new();
    hasher.update(id);
    hasher.update(r.to_be_bytes());
    hasher.update([0x82u8, 0x82]);
    hasher.update(key);
    hasher.finalize()
}

// The value of node `r` above these two.
pub(crate) fn inner_value(id: &[u8; 16], r: u32, left: &[u8; 32], right: &[u8; 32]) -> [u8; 32]
    ensures { result ≡ inner_value id.now r left.now right.now }
{
    let mut hasher = Sha256::new();
    hasher.update(id);
    hasher.update(r.to_be_bytes());
    hasher.update([0x83u8, 0x83]);
    hasher.update(left);
    hasher.update(right);
    hasher.finalize()
}

// The value of the node above node `r`.
fn parent_value(id: &[u8; 16], r: u32, value: &[u8; 32], sibling: &[u8; 32]) -> [u8; 32]
    ensures { result ≡ parent_value id.now r value.now sibling.now }
{
    if r % 2 == 0 {
        inner_value(id, r / 2, value, sibling)
    } else {
        inner_value(id, r / 2, sibling, value)
    }
}

// The value `levels` levels above node `r`, where `path` has the siblings on the way.
pub(crate) fn ancestor_value(
    id: &[u8; 16],
    r: u32,
    leaf: [u8; 32],
    path: &[u8],
    levels: u32,
) -> [u8; 32]
    requires { length path.now ≡ 32 * levels }
    ensures { result ≡ ancestor_of id.now r leaf path.now levels }
{
    let mut value = leaf;
    let mut node = r;
    'levels: for i in 0..levels as usize {
        let mut sibling = [0u8; 32];
        sibling.copy_from_slice(&path[32 * i..32 * i + 32]);
        value = parent_value(id, node, &value, &sibling);
        node /= 2;
    }
    value
}
