//! Lists that are fields of a value which contracts compare.
//!
//! Two vectors with the same items may differ in capacity, so values that hold them could not be
//! called equal. A `Sequence` is its items and nothing else.
ghost use Rattle.std.specs.Prelude.{◌≡◌, ◌<◌, [], ◌∷◌, ◌++◌, OnErr, OnOk, IfOk, length, slice_set};

use crate::NoMemory;
use std::alloc::Global;
use std::marker::Model;

/// Items in order, which contracts see as a list. It is made from a vector and gives it back, and
/// takes no memory for either. A copy takes memory, and so may one item more.
#[derive(Drop)]
pub struct Sequence<T: Drop> {
    items: Vec<T>,
}

impl<T: Drop> Model for Sequence<T> {
    ghost use Rattle.std.specs.Prelude.{List};

    ghost Value = { List T };

    ghost view = { λ s. s.items.items };
}

impl<T: Drop> Sequence<T> {
    /// The items of the vector, in its order.
    pub fn of(items: Vec<T>) -> Self
        ensures { result ≡ items.items }
    {
        Sequence { items }
    }

    /// A copy of these items. The error is want of memory.
    pub fn copy_of(alloc: Global, items: &[T]) -> Result<Self, NoMemory>
    where
        T: Copy,
        ensures { IfOk result (λ copy. copy ≡ items.now) }
    {
        Ok(Sequence {
            items: Vec::from_slice(alloc, items)?,
        })
    }

    /// The items, in order.
    pub fn as_slice(&self) -> &[T]
        ensures { result.now ≡ self.now }
    {
        self.items.as_slice()
    }

    /// Puts the item at a place, in the stead of the one that stands there. The others stay. It takes no
    /// memory.
    pub fn set(&mut self, place: usize, item: T)
        requires { place < length self.old }
        ensures { self.new ≡ slice_set self.old place item }
    {
        self.items[place] = item;
    }

    /// Puts the item behind all others. The error is want of memory, and then the items are as before.
    pub fn push(&mut self, item: T) -> Result<(), NoMemory>
        ensures more { OnOk result (self.new ≡ self.old ++ item ∷ []) }
        ensures kept { OnErr result (self.new ≡ self.old) }
    {
        Ok(self.items.push(item)?)
    }

    /// A vector of the items, in order.
    pub fn into_vec(self) -> Vec<T>
        ensures { result.items ≡ self }
    {
        let Sequence { items } = self;
        items
    }
}
