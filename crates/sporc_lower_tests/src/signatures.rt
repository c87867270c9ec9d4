//! Signatures.

mod leaves;
mod signers;
mod trees;
