//! Signers.

ghost use Rattle.std.specs.Prelude.{◌≡◌, ◌^◌, ◌<◌, ◌≤◌, IfOk, IfErr};
ghost use Rattle.sporc_outside.specs.LeafDisk.{disk_images};
ghost use Rattle.lms_tree.specs.LmsType.{height_of};
ghost use Rattle.lms_tree.specs.LmsPrivate.{lms_public_of};
ghost use Rattle.lms_tree.specs.Signatures.{lms_signature_of};
ghost use Rattle.lms_tree.specs.Verification.{Verifies};
ghost use Rattle.lms_leaf.specs.LeafFile.{ArePassed, AreTaken};
ghost use Rattle.lms_leaf.specs.Leaves.{Draws, DrawFaults};

use crate::ticket::Ticket;
use lms_leaf::{LeafFault, Leaves};
use lms_tree::{LmsPublic, Tree};
use sporc_base::Memory;
use sporc_outside::LeafDisk;
use std::alloc::Global;
use std::marker::Model;

/// Signs by a tree of one-time keys, with the leaf numbers of its leaf file. It is seen as the
/// private key and the leaf numbers.
#[derive(Drop)]
pub struct Signer<D: LeafDisk> {
    tree: Tree,
    leaves: Leaves<D>,
}

impl<D: LeafDisk> Model for Signer<D> {
    ghost use Rattle.std.specs.Prelude.{◌≡◌, ◌^◌};
    ghost use Rattle.lms_tree.specs.LmsType.{height_of};
    ghost use Rattle.lms_sign.specs.Signer.{SignerModel};

    ghost Value = { SignerModel D };

    ghost view = { λ s. record { key = s.tree; leaves = s.leaves } };

    ghost invariant = { λ s. s.leaves.leaf_count ≡ 2 ^ height_of s.tree.lms };
}

impl<D: LeafDisk> Signer<D> {
    /// Joins a tree and the leaf numbers of a file for trees of its height.
    pub fn open(tree: Tree, leaves: Leaves<D>) -> Signer<D>
        requires { leaves.leaf_count ≡ 2 ^ height_of tree.lms }
        ensures value { result ≡ record { key = tree; leaves = leaves } }
    {
        Signer { tree, leaves }
    }

    /// Draws the next leaf.
    pub fn draw(&mut self) -> Result<Ticket, LeafFault>
        ensures draws { Draws D.told self.old.leaves result self.new.leaves }
        ensures faults { DrawFaults D.told self.old.leaves result self.new.leaves }
        ensures within { IfOk result (λ ticket. ticket < 2 ^ height_of self.old.key.lms) }
        ensures key { self.new.key ≡ self.old.key }
    {
        let leaf = self.leaves.draw()?;
        Ok(Ticket::of(leaf))
    }

    /// Signs a message by the ticket's leaf, with 32 random bytes `c` (RFC 8554, section 5.4.1).
    /// The ticket comes back if it runs out of memory.
    pub fn sign(
        &mut self,
        alloc: Global,
        ticket: Ticket,
        c: &[u8; 32],
        message: &[u8],
    ) -> Result<Vec<u8>, (Ticket, Memory)>
        requires { ticket < 2 ^ height_of self.old.key.lms }
        ensures value { IfOk result (λ signature.
            signature.items ≡ lms_signature_of self.old.key ticket c.now message.now) }
        ensures verifies { IfOk result (λ signature.
            Verifies (lms_public_of self.old.key) message.now signature.items) }
        ensures returned { IfErr result (λ back. back.0 ≡ ticket) }
        ensures unchanged { self.new ≡ self.old }
    {
        match self.tree.sign(alloc, ticket.leaf(), c, message) {
            Ok(signature) => {
                ticket.give_up();
                Ok(signature)
            }
            Err(memory) => Err((ticket, memory)),
        }
    }

    /// The public key, under which all its signatures verify.
    pub fn public(&self) -> LmsPublic
        ensures value { result ≡ lms_public_of self.now.key }
    {
        self.tree.public()
    }

    /// The leaf that the next draw gives, or the count of leaves if all are drawn. No crash makes
    /// the blocks of the leaves drawn since the opening of the leaf file free again, and whatever a
    /// crash leaves, a later opening goes on at this leaf or above it.
    pub fn next_leaf(&self) -> u32
        ensures value { result ≡ self.now.leaves.next }
        ensures since_open { self.now.leaves.next_at_open ≤ result }
        ensures within { result ≤ self.now.leaves.leaf_count }
        ensures all { self.now.leaves.leaf_count ≡ 2 ^ height_of self.now.key.lms }
        ensures taken { AreTaken (disk_images (D.told self.now.leaves.disk))
            self.now.leaves.next_at_open result }
        ensures passed { ArePassed (disk_images (D.told self.now.leaves.disk)) result }
    {
        self.leaves.next()
    }

    /// Gives the disk of the leaf file back. No crash makes the blocks of the leaves drawn since
    /// its opening free again, and a later opening goes on at the next leaf or above it.
    pub fn close(self) -> D
        ensures value { result ≡ self.leaves.disk }
        ensures taken { AreTaken (disk_images (D.told result))
            self.leaves.next_at_open self.leaves.next }
        ensures passed { ArePassed (disk_images (D.told result)) self.leaves.next }
    {
        self.leaves.close()
    }
}
