//! The outside of this machine.

mod appends;
mod files;
mod leaves;
mod locks;
mod nets;
mod patience;
mod pieces;
mod scratch;
mod words;
