//! Answers of a shared client's calls.

use crate::front::Front;
use crate::item::Pass;
use sporc_turn::Worn;

/// What a call answered, how many events the journal had as it gave the turn back, and the pass.
#[derive(Drop)]
pub struct Answered<A> {
    pub answer: A,
    pub front: Front,
    pub pass: Pass,
}

/// An answer, or the pass with the next ticket of a lock that has none left.
pub type Reply<A> = Result<Answered<A>, (Pass, Worn)>;
