//! What signing and verifying owe each other.

ghost use Rattle.lms_ots.specs.Laws.{SignaturesLeadToPublicKeys};

/// Every signature of every message leads to the public key of its seed, for every type,
/// identifier, leaf number, seed and randomizer.
pub fn signatures_lead_to_public_keys()
    ensures { SignaturesLeadToPublicKeys }
{}
