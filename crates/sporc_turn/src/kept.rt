//! Values that stand for a list of items.

ghost use Rattle.std.specs.Prelude.{◌≡◌, ℕ, List, length};

/// A value that stands for a list of items, each with the number of a pass, and has a watermark.
/// While the value is held, the list only grows and the watermark never falls.
pub trait Kept {
    type Item;

    /// The list that a value stands for.
    ghost log: { Self → List Self.Item };

    /// The number of the pass that added an item.
    ghost by: { Self.Item → ℕ };

    /// A number that never falls while the value is held.
    ghost watermark: { Self → ℕ };

    /// The length of the list.
    fn logged(&self) -> u64
        ensures { result ≡ length (log self.now) };
}
