//! What signing and verifying owe each other.

ghost use Rattle.lms_tree.specs.Laws.{SignaturesVerify, VerificationComputes};

/// Every signature of every message verifies under the public key, for every private key, leaf of
/// its tree and randomizer.
pub fn signatures_verify()
    ensures { SignaturesVerify }
{}

/// The test that computes says whether a signature verifies.
pub fn verification_computes()
    ensures { VerificationComputes }
{}
