//! Listed words in place of random ones.

ghost use Rattle.std.specs.Prelude.{◌≡◌, ◌∷◌, [], IfOk, OnErr, Some};
ghost use Rattle.sporc_memory.specs.CallsModel.{CountsCall};
ghost use Rattle.sporc_outside.specs.Counts.{CountsFaults};
ghost use Rattle.sporc_outside.specs.Told.{AppendsItem};

use crate::calls::Calls;
use sporc_outside::{Chance, Counted, Failed};
use std::marker::Model;

/// Gives the words of a list in order, and tells them. A call behind the last word fails, and so do
/// the listed calls.
#[derive(Drop)]
pub struct ListedChance {
    words: Vec<[u8; 32]>,
    at: usize,
    calls: Calls,
}

impl Model for ListedChance {
    ghost use Rattle.std.specs.Prelude.{◌≤◌, take, drop, vec_len};
    ghost use Rattle.sporc_memory.specs.ListedChanceModel.{ListedChanceModel};

    ghost Value = { ListedChanceModel };

    ghost view = { λ c. record {
      given = take c.at c.words.items;
      left = drop c.at c.words.items;
      calls = c.calls;
    } };

    ghost invariant = { λ c. c.at ≤ vec_len c.words };
}

impl ListedChance {
    /// Gives these words. The listed calls fail.
    pub fn new(words: Vec<[u8; 32]>, calls: Calls) -> ListedChance
        ensures value { result ≡ record { given = []; left = words.items; calls = calls } }
    {
        ListedChance {
            words,
            at: 0,
            calls,
        }
    }
}

impl Counted for ListedChance {
    ghost faults = { λ c. c.calls.faults };

    fn faults(&self) -> u64 {
        self.calls.faults()
    }
}

impl Chance for ListedChance {
    ghost use Rattle.std.specs.Prelude.{refl};
    ghost use Rattle.sporc_memory.specs.ListedChanceModel.{chance_told};

    ghost told = { chance_told };

    ghost faults_are_told = { λ _. refl };

    fn fill32(&mut self) -> Result<[u8; 32], Failed>
        ensures ok { IfOk result
            (λ word. AppendsItem (Some self.old.given) (Some self.new.given) word) }
        ensures next { IfOk result (λ word. self.old.left ≡ word ∷ self.new.left) }
        ensures err { OnErr result (Some self.new.given ≡ Some self.old.given) }
        ensures call { CountsCall self.old.calls self.new.calls result }
        ensures count { CountsFaults self.old.calls.faults self.new.calls.faults result }
    {
        self.calls.begin()?;
        match self.words.get(self.at) {
            Some(word) => {
                self.at += 1;
                Ok(*word)
            }
            None => Err(self.calls.fail()),
        }
    }
}
