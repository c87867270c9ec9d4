//! The nodes of a tree, and what it signs.

ghost use Rattle.std.specs.Prelude.{◌≡◌, ℕ, ◌+◌, ◌*◌, ◌^◌, ◌<◌, ◌≤◌, [], ◌++◌, length};
ghost use Rattle.std.specs.Prelude.{slice_index_or, IfOk};
ghost use Rattle.std.specs.Int.{w32, to_be_bytes};
ghost use Rattle.lms_ots.specs.Chains.{concatenated};
ghost use Rattle.lms_ots.specs.Signatures.{ots_public_of};
ghost use Rattle.lms_tree.specs.LmsType.{height_of};
ghost use Rattle.lms_tree.specs.LmsPrivate.{LmsPrivate, lms_public_of, path_of, value_at};
ghost use Rattle.lms_tree.specs.NodeArray.{HasNodes};
ghost use Rattle.lms_tree.specs.Nodes.{leaf_value, sibling};
ghost use Rattle.lms_tree.specs.Signatures.{lms_signature_of};
ghost use Rattle.lms_tree.specs.Verification.{Verifies};

use crate::lms_type::LmsType;
use crate::nodes::{inner_value, leaf_value};
use crate::public_key::LmsPublic;
use lms_ots::{OtsType, ots_public, ots_sign};
use sporc_base::Memory;
use std::alloc::Global;
use std::marker::Model;
use std::thread::{Threads, for_each_mut};

/// A private key with all nodes of its tree. It is seen as the private key: the types, the
/// identifier and the seed from which RFC 8554, Appendix A, derives all one-time keys.
#[derive(Drop)]
pub struct Tree {
    lms: LmsType,
    ots: OtsType,
    id: [u8; 16],
    seed: [u8; 32],
    // Node `r` is at index `r`; index 0 is not used.
    nodes: Vec<[u8; 32]>,
}

impl Model for Tree {
    ghost Value = { LmsPrivate };

    ghost view = { λ t. record { lms = t.lms; ots = t.ots; id = t.id; seed = t.seed } };

    ghost invariant = { λ t. HasNodes
        (record { lms = t.lms; ots = t.ots; id = t.id; seed = t.seed }) t.nodes.items 1 };
}

// The value of leaf `q`, which is node `leaves + q`.
fn leaf_at(seed: &[u8; 32], id: &[u8; 16], ots: OtsType, leaves: usize, q: usize) -> [u8; 32]
    requires { leaves + q < 2 ^ 32 }
    ensures { result ≡ leaf_value id.now (leaves + q) (ots_public_of ots id.now q seed.now) }
{
    let key = ots_public(ots, id, q as u32, seed);
    leaf_value(id, (leaves + q) as u32, &key)
}

// The array of nodes with its leaves alone.
fn leaves_of(
    alloc: Global,
    seed: &[u8; 32],
    id: &[u8; 16],
    lms: LmsType,
    ots: OtsType,
) -> Result<Vec<[u8; 32]>, Memory>
    ensures { IfOk result
        (λ nodes. HasNodes (record { lms = lms; ots = ots; id = id.now; seed = seed.now })
        nodes.items (2 ^ height_of lms)) }
{
    let leaves = 1usize << lms.height();
    let mut nodes = vec![in alloc; [0u8; 32]; 2 * leaves]?;
    'leaves: for q in 0..leaves {
        nodes[leaves + q] = leaf_at(seed, id, ots, leaves, q);
    }
    Ok(nodes)
}

// Computes all leaves, a part of them in each of so many threads.
fn fill_leaves<R: Threads + Sync>(
    rt: &R,
    seed: &[u8; 32],
    id: &[u8; 16],
    ots: OtsType,
    leaves: &mut [[u8; 32]],
    workers: u32,
)
    requires limit { 2 * length leaves.old ≤ 2 ^ 32 }
    requires positive { 0 < workers }
    ensures { (q : ℕ) → q < length leaves.old → slice_index_or leaves.new q []
        ≡ leaf_value id.now (length leaves.old + q) (ots_public_of ots id.now q seed.now) }
{
    let count = leaves.len();
    for_each_mut(
        rt,
        leaves,
        workers as usize,
        &|q, leaf| *leaf = leaf_at(seed, id, ots, count, q),
    );
}

// As `leaves_of`, with so many threads.
fn leaves_by<R: Threads + Sync>(
    rt: &R,
    alloc: Global,
    seed: &[u8; 32],
    id: &[u8; 16],
    lms: LmsType,
    ots: OtsType,
    workers: u32,
) -> Result<Vec<[u8; 32]>, Memory>
    requires { 0 < workers }
    ensures { IfOk result
        (λ nodes. HasNodes (record { lms = lms; ots = ots; id = id.now; seed = seed.now })
        nodes.items (2 ^ height_of lms)) }
{
    let count = 1usize << lms.height();
    let mut nodes = vec![in alloc; [0u8; 32]; 2 * count]?;
    let (_, leaves) = nodes.split_at_mut(count);
    fill_leaves(rt, seed, id, ots, leaves, workers);
    Ok(nodes)
}

// The number of the node beside node `r`.
fn sibling(r: usize) -> usize
    requires { r < 2 ^ 63 }
    ensures { result ≡ sibling r }
{
    if r % 2 == 0 { r + 1 } else { r - 1 }
}

// The fields of a signature, one after another.
fn assembled(
    alloc: Global,
    q: u32,
    ots_signature: &[u8],
    code: u32,
    path: &[[u8; 32]],
) -> Result<Vec<u8>, Memory>
    ensures { IfOk result (λ v. v.items ≡ to_be_bytes w32 q ++ ots_signature.now
        ++ to_be_bytes w32 code ++ concatenated (value_at path.now) (length path.now)) }
{
    let len = ots_signature
        .len()
        .saturating_add(path.len().saturating_mul(32))
        .saturating_add(8);
    let mut signature = Vec::with_capacity(alloc, len)?;
    signature.extend_from_slice(&q.to_be_bytes())?;
    signature.extend_from_slice(ots_signature)?;
    signature.extend_from_slice(&code.to_be_bytes())?;
    'levels: for value in path {
        signature.extend_from_slice(value)?;
    }
    Ok(signature)
}

impl Tree {
    /// The tree of a seed. It computes the public key of every leaf, about 1,100 compressions of
    /// SHA-256 with W4 and 8,700 with W8, and keeps `64 * 2^height` bytes.
    pub fn build(
        alloc: Global,
        seed: &[u8; 32],
        id: &[u8; 16],
        lms: LmsType,
        ots: OtsType,
    ) -> Result<Tree, Memory>
        ensures ok { IfOk result
            (λ tree. tree ≡ record { lms = lms; ots = ots; id = id.now; seed = seed.now }) }
    {
        let nodes = leaves_of(alloc, seed, id, lms, ots)?;
        Ok(Tree::above(seed, id, lms, ots, nodes))
    }

    /// The tree that [`Tree::build`] builds. Its leaves are shared out among so many threads, in
    /// parts of equal length; where no thread can be made for a part, the thread that was to start
    /// it computes the part itself.
    pub fn build_by_workers<R: Threads + Sync>(
        rt: &R,
        alloc: Global,
        seed: &[u8; 32],
        id: &[u8; 16],
        lms: LmsType,
        ots: OtsType,
        workers: u32,
    ) -> Result<Tree, Memory>
        requires range { 1 ≤ workers × workers ≤ 64 }
        ensures ok { IfOk result
            (λ tree. tree ≡ record { lms = lms; ots = ots; id = id.now; seed = seed.now }) }
    {
        let nodes = leaves_by(rt, alloc, seed, id, lms, ots, workers)?;
        Ok(Tree::above(seed, id, lms, ots, nodes))
    }

    // The tree above these leaves.
    fn above(
        seed: &[u8; 32],
        id: &[u8; 16],
        lms: LmsType,
        ots: OtsType,
        mut nodes: Vec<[u8; 32]>,
    ) -> Tree
        requires { HasNodes (record { lms = lms; ots = ots; id = id.now; seed = seed.now })
            nodes.items (2 ^ height_of lms) }
        ensures { result ≡ record { lms = lms; ots = ots; id = id.now; seed = seed.now } }
    {
        let leaves = 1usize << lms.height();
        'inner: for i in 1..leaves {
            let r = leaves - i;
            let value = inner_value(id, r as u32, &nodes[2 * r], &nodes[2 * r + 1]);
            nodes[r] = value;
        }
        Tree {
            lms,
            ots,
            id: *id,
            seed: *seed,
            nodes,
        }
    }

    /// The public key.
    pub fn public(&self) -> LmsPublic
        ensures value { result ≡ lms_public_of self.now }
    {
        LmsPublic {
            lms: self.lms,
            ots: self.ots,
            id: self.id,
            root: self.nodes[1],
        }
    }

    /// The values of the siblings on the way from leaf `q` to the root, from the leaf upwards: as
    /// many as the tree is high.
    pub fn path(&self, alloc: Global, q: u32) -> Result<Vec<[u8; 32]>, Memory>
        requires { q < 2 ^ height_of self.now.lms }
        ensures ok { IfOk result
            (λ path. path.items ≡ path_of self.now q (height_of self.now.lms)) }
    {
        let height = self.lms.height();
        let mut path = Vec::with_capacity(alloc, height as usize)?;
        let mut node = (1usize << height) + q as usize;
        'levels: for _level in 0..height {
            path.push(self.nodes[sibling(node)])?;
            node /= 2;
        }
        Ok(path)
    }

    /// The signature of a message by leaf `q` under the randomizer `c` (RFC 8554, section 5.4.1).
    /// No leaf of a key may ever sign a second message.
    pub fn sign(
        &self,
        alloc: Global,
        q: u32,
        c: &[u8; 32],
        message: &[u8],
    ) -> Result<Vec<u8>, Memory>
        requires { q < 2 ^ height_of self.now.lms }
        ensures value { IfOk result (λ v. v.items ≡ lms_signature_of self.now q c.now message.now) }
        ensures verifies { IfOk result
            (λ v. Verifies (lms_public_of self.now) message.now v.items) }
    {
        let ots_signature = ots_sign(alloc, self.ots, &self.id, q, &self.seed, c, message)?;
        let path = self.path(alloc, q)?;
        let code = self.lms.code();
        let signature = assembled(alloc, q, &ots_signature, code, &path)?;
        Ok(signature)
    }
}
