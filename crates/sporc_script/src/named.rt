//! Values that have names, and the one that a word names.

ghost use Rattle.std.specs.Prelude.{◌≡◌, ℕ, List};
ghost use Rattle.sporc_script.specs.Readers.{named_of};

use sporc_base::is_same;

// What a word of a script may name.
pub trait HasName: Copy {
    ghost name_of: { Self → List ℕ };

    fn name(&self) -> &'static [u8]
        ensures value { result.now ≡ name_of self.now };
}

// The one of these that the whole word names.
pub fn find_named<T: HasName>(all: &[T], word: &[u8]) -> Option<T>
    ensures value { result ≡ named_of T.name_of all.now word.now }
{
    all.iter().copied().find(|one| is_same(one.name(), word))
}
