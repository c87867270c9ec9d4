//! What keeps entries before an order takes them.

ghost use Rattle.std.specs.Prelude.{◌≡◌, ◌+◌, ◌++◌, ◌∷◌, ℕ, [], List, length, IsOk, OnOk, OnErr};

use sporc_head::Refusal;
use std::alloc::AllocError;
use thiserror::Error;

/// An entry is not kept.
#[derive(Clone, Copy, Debug, PartialEq, Eq, Error)]
#[error("the entry is not kept")]
pub struct Unkept;

/// Why an entry is not taken.
#[derive(Clone, Copy, Debug, PartialEq, Eq, Error)]
pub enum Untaken {
    /// It fails this check, or memory ran out.
    #[error("the entry is refused: {0}")]
    Refused(Refusal),
    /// It fails none, and is not kept.
    #[error("the entry is not kept")]
    Unkept,
}

impl From<Refusal> for Untaken {
    ghost use Rattle.sporc_order.specs.declared.tail.Untaken.TheVariants as untaken;

    ghost from_gives = { λ refusal e. e ≡ untaken.Refused refusal };

    fn from(refusal: Refusal) -> Untaken {
        Untaken::Refused(refusal)
    }
}

/// Why a message is not answered.
#[derive(Clone, Copy, Debug, PartialEq, Eq, Error)]
pub enum Unanswered {
    /// Memory ran out.
    #[error("out of memory")]
    Memory,
    /// Its entry fails no check, and is not kept.
    #[error("the entry is not kept")]
    Unkept,
}

impl From<AllocError> for Unanswered {
    ghost use Rattle.sporc_order.specs.declared.tail.Unanswered.TheVariants as unanswered;

    ghost from_gives = { λ _ e. e ≡ unanswered.Memory };

    fn from(_: AllocError) -> Unanswered {
        Unanswered::Memory
    }
}

/// What keeps each entry before an order takes it, as a file does.
pub trait Tail {
    // It keeps the entries of this order: whatever comes, an order that begins with them is found
    // again.
    ghost keeps: { Self → List (List ℕ) → Type 0 };

    // An entry may not be kept.
    ghost may_fail: { Type 0 };

    /// Keeps an entry at its position, behind those that it keeps. If that fails, it keeps what it
    /// kept.
    fn put(&mut self, position: u32, entry: &[u8]) -> Result<(), Unkept>
        ensures ok { OnOk result ((entries : List (List ℕ)) → keeps self.old entries
            → position ≡ length entries + 1 → keeps self.new (entries ++ entry.now ∷ [])) }
        ensures err { OnErr result ((entries : List (List ℕ)) → keeps self.old entries
            → position ≡ length entries + 1 → keeps self.new entries) }
        ensures unkept { OnErr result may_fail };
}

/// Keeps nothing: the entries of an order are lost where it is.
#[derive(Clone, Copy)]
pub struct NoTail;

impl Tail for NoTail {
    ghost keeps = { λ _ _. Unit {0} };

    ghost may_fail = { ⊥ };

    fn put(&mut self, _: u32, _: &[u8]) -> Result<(), Unkept>
        ensures ok { IsOk result }
    {
        Ok(())
    }
}
