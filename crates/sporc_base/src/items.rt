//! Vectors as lists.

ghost use Rattle.std.specs.Prelude.{◌≡◌, IfOk};

use crate::Memory;
use std::alloc::Global;
use std::marker::Model;

/// A vector, seen as the list of its items.
#[derive(Drop)]
pub struct Items<T> {
    items: Vec<T>,
}

/// A byte string, seen as the list of its bytes.
pub type Bytes = Items<u8>;

impl<T> Model for Items<T> {
    ghost use Rattle.std.specs.Prelude.{List};

    ghost Value = { List T };

    ghost view = { λ l. l.items.items };
}

impl<T> Items<T> {
    /// The items of a vector, which is moved.
    pub fn new(items: Vec<T>) -> Items<T>
        ensures value { result ≡ items.items }
    {
        Items { items }
    }

    /// The items.
    pub fn as_slice(&self) -> &[T]
        ensures value { result.now ≡ self.now }
    {
        self.items.as_slice()
    }

    /// The vector of the items, which takes no memory.
    pub fn into_vec(self) -> Vec<T>
        ensures value { result.items ≡ self }
    {
        self.items
    }
}

impl<T: Copy> Items<T> {
    /// A copy of items that stand elsewhere.
    pub fn copy_of(alloc: Global, items: &[T]) -> Result<Items<T>, Memory>
        ensures ok { IfOk result (λ copy. copy ≡ items.now) }
    {
        let items = Vec::from_slice(alloc, items)?;
        Ok(Items { items })
    }

    /// A copy.
    pub fn copy(&self) -> Result<Items<T>, Memory>
        ensures ok { IfOk result (λ copy. copy ≡ self.now) }
    {
        Items::copy_of(*self.items.allocator(), self.items.as_slice())
    }
}
