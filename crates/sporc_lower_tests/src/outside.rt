//! The outside in memory.

mod appends;
mod lines;
