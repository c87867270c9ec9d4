//! Random words of the system.

ghost use Rattle.std.specs.Prelude.{◌≡◌};

use crate::counting::counted;
use sporc_outside::{Chance, Counted, Failed};
use std::random::RandomSource;

/// Takes words from the system's random bytes, which are fit for keys.
#[derive(Drop)]
pub struct RandomWords<R: RandomSource + Drop> {
    rt: R,
    faults: u64,
}

impl<R: RandomSource + Drop> RandomWords<R> {
    /// Takes words by this runtime.
    pub fn new(rt: R) -> RandomWords<R>
        ensures value { result.faults ≡ 0 }
    {
        RandomWords { rt, faults: 0 }
    }
}

impl<R: RandomSource + Drop> Counted for RandomWords<R> {
    ghost faults = { λ c. c.faults };

    fn faults(&self) -> u64 {
        self.faults
    }
}

impl<R: RandomSource + Drop> Chance for RandomWords<R> {
    ghost use Rattle.std.specs.Prelude.{refl};
    ghost use Rattle.sporc_outside.specs.Chances.{silent_chance};

    ghost told = { λ c. silent_chance c.faults };

    ghost faults_are_told = { λ _. refl };

    fn fill32(&mut self) -> Result<[u8; 32], Failed> {
        let mut word = [0u8; 32];
        let answer = self.rt.fill_bytes(&mut word);
        counted(&mut self.faults, answer)?;
        Ok(word)
    }
}
