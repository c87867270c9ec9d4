use crate::checks::check;
use crate::signatures::leaves::leaves_of;
use crate::signatures::trees::{has_digest, tree_of};
use hex::FromHex;
use lms_ots::OtsType;
use lms_sign::Signer;
use lms_tree::{LmsType, verify};
use sporc_base::is_same;
use sporc_memory::MemoryDisk;
use std::alloc::Global;
use std::process::Abort;

// The key and the signature are Bouncy Castle 1.72's, which signed by the last leaf; the signature
// is compared by its SHA-256.
const SEED: &str = "12365ab3b305e66de39ba32532b7c9f5d2ca969612fbd58d9b76e3da1501aeb3";

const ID: &str = "321c3f65ffa92c445c372c67c96b2a71";

const C: &str = "390ebb28a8d23139cf32d618b9f87343a1dd9642ac4fc5060e82d01804a9dd6f";

const DIGEST: &str = "300f995749b6eb6f2be2c3ec91b5fd9d541605ce4e2e64bd348a6dceb9295292";

// A signer all of whose leaves are drawn but those of the last block. It is in a box: a function
// that owns a signer itself is slow to prove.
fn signer(rt: &impl Abort, alloc: Global) -> Box<Signer<MemoryDisk>> {
    let tree = tree_of(rt, alloc, SEED, ID, LmsType::H5, OtsType::W4);
    let leaves = leaves_of(rt, alloc, &[1, 1, 1, 1, 1, 1, 1, 0]);
    Box::new(alloc, Signer::open(tree, leaves)).expect(rt, "memory")
}

fn give_up(rt: &impl Abort, signer: &mut Signer<MemoryDisk>, leaf: u32) {
    let ticket = signer.draw().expect(rt, "a leaf");
    check(rt, "a leaf", ticket.leaf() == leaf);
    ticket.give_up();
}

fn signed(
    rt: &impl Abort,
    alloc: Global,
    signer: &mut Signer<MemoryDisk>,
    c: &[u8; 32],
    message: &[u8],
) -> Vec<u8> {
    let ticket = signer.draw().expect(rt, "a leaf");
    match signer.sign(alloc, ticket, c, message) {
        Ok(signature) => signature,
        Err((ticket, _)) => {
            ticket.give_up();
            panic!(rt; "memory")
        }
    }
}

// Signs by the last leaf.
fn signs(rt: &impl Abort, alloc: Global, signer: &mut Signer<MemoryDisk>) {
    let c = <[u8; 32]>::from_hex(C).expect(rt, "hex digits");
    let signature = signed(rt, alloc, signer, &c, b"hello");
    check(rt, "the digest", has_digest(rt, &signature, DIGEST));
    check(
        rt,
        "a signature",
        verify(&signer.public(), b"hello", &signature),
    );
}

fn draws_the_last_block(rt: &impl Abort, alloc: Global, signer: &mut Signer<MemoryDisk>) {
    for leaf in 28..31 {
        give_up(rt, signer, leaf);
    }
    signs(rt, alloc, signer);
}

#[test]
fn signs_by_the_last_leaf_as_bouncy_castle(rt: HostRuntime) {
    let mut signer = signer(&rt, rt.alloc());
    draws_the_last_block(&rt, rt.alloc(), &mut signer);
    let disk = Box::into_inner(signer).close();
    check(&rt, "the file", is_same(disk.as_slice(), &[1; 8]));
}
