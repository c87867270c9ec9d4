//! The lock of `sporc_turn`.

mod tally;
mod turns;
mod work;
