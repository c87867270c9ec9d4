//! Words of a command line.

ghost use Rattle.std.specs.Prelude.{◌≡◌, IfOk};

use sporc_base::Memory;
use std::alloc::Global;
use std::marker::Model;

/// A word of a command line, seen as its bytes, which are UTF-8.
#[derive(Drop)]
pub struct Word {
    text: String,
}

impl Model for Word {
    ghost use Rattle.std.specs.Prelude.{List, ℕ};
    ghost use Rattle.std.specs.String.{string_bytes};

    ghost Value = { List ℕ };

    ghost view = { λ w. string_bytes w.text };
}

impl Word {
    /// A copy of a word.
    pub fn new(alloc: Global, text: &str) -> Result<Word, Memory>
        ensures ok { IfOk result (λ word. word ≡ text.now) }
    {
        let text = String::from_str(alloc, text)?;
        Ok(Word { text })
    }

    /// The word.
    pub fn as_str(&self) -> &str
        ensures value { result.now ≡ self.now }
    {
        self.text.as_str()
    }
}
