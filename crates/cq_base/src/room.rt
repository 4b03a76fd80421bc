//! Lists whose room is taken beforehand.
//!
//! A slot must not ask for memory. So whoever starts a run takes room for all that it can hold, and
//! a list says how much of that room is left.
ghost use Rattle.std.specs.Prelude.{◌≡◌, ◌+◌, ◌<◌, ◌∷◌, ◌++◌, [], IfOk, length};

use crate::NoMemory;
use std::alloc::Global;
use std::marker::Model;

/// A list with room for more items, which contracts see as the items and the number that still fits.
#[derive(Drop)]
pub struct Room<T: Copy> {
    list: Vec<T>,
    spare: u64,
}

impl<T: Copy> Model for Room<T> {
    ghost use Rattle.std.specs.Prelude.{◌+◌, ◌≤◌, vec_len, vec_capacity};
    ghost use Rattle.cq_base.specs.Room.{RoomView};

    ghost Value = { RoomView T };

    ghost view = { λ r. record { items = r.list.items; spare = r.spare } };

    ghost invariant = { λ r. vec_len r.list + r.spare ≤ vec_capacity r.list };
}

impl<T: Copy> Room<T> {
    /// An empty list with room for so many items. The error is want of memory.
    pub fn new(alloc: Global, room: u64) -> Result<Room<T>, NoMemory>
        ensures items { IfOk result (λ r. r.items ≡ []) }
        ensures spare { IfOk result (λ r. r.spare ≡ room) }
    {
        Ok(Room {
            list: Vec::with_capacity(alloc, room as usize)?,
            spare: room,
        })
    }

    /// Puts an item at the end. It takes room for one item and no memory.
    pub fn push(&mut self, item: T)
        requires { 0 < self.old.spare }
        ensures items { self.new.items ≡ self.old.items ++ item ∷ [] }
        ensures spare { self.new.spare + 1 ≡ self.old.spare }
    {
        self.spare -= 1;
        self.list.push_reserved(item);
    }

    /// Takes all items out, and has their room again.
    pub fn clear(&mut self)
        ensures items { self.new.items ≡ [] }
        ensures spare { self.new.spare ≡ self.old.spare + length self.old.items }
    {
        self.spare += self.list.len() as u64;
        self.list.clear();
    }

    /// How many more items there is room for.
    pub fn spare(&self) -> u64
        ensures { result ≡ self.now.spare }
    {
        self.spare
    }

    /// The items, in the order in which they were put.
    pub fn items(&self) -> &[T]
        ensures { result.now ≡ self.now.items }
    {
        self.list.as_slice()
    }

    /// A vector of the items, in the order in which they were put. It takes no memory.
    pub fn into_vec(self) -> Vec<T>
        ensures { result.items ≡ self.items }
    {
        let Room { list, spare: _ } = self;
        list
    }
}
