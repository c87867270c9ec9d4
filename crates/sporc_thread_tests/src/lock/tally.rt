ghost use Rattle.std.specs.Prelude.{◌≡◌, [], ◌∷◌, ◌++◌, MatchBool};

use sporc_turn::Kept;
use std::alloc::Global;

/// The numbers of those who had the value, in order.
#[derive(Drop)]
pub struct Tally {
    pub numbers: Vec<u32>,
}

impl Kept for Tally {
    type Item = u32;

    ghost log = { λ t. t.numbers.items };

    ghost by = { λ n. n };

    ghost watermark = { λ t. 0 };

    fn logged(&self) -> u64 {
        self.numbers.len() as u64
    }
}

impl Tally {
    pub fn new(alloc: Global) -> Tally
        ensures { result.numbers.items ≡ [] }
    {
        Tally {
            numbers: Vec::new(alloc),
        }
    }

    /// Adds a number, where there is memory for it.
    pub fn add(&mut self, number: u32) -> bool
        ensures { MatchBool result (self.new.numbers.items ≡ self.old.numbers.items ++ number ∷ [])
            (self.new.numbers.items ≡ self.old.numbers.items) }
    {
        self.numbers.push(number).is_ok()
    }

    pub(crate) fn len(&self) -> usize {
        self.numbers.len()
    }

    pub fn count(&self, number: u32) -> usize {
        let mut count = 0usize;
        for n in &self.numbers {
            if *n == number {
                count = count.saturating_add(1);
            }
        }
        count
    }
}
