//! The departures of a run.
//!
//! A slot sends into a [`Room`] of few places, and what it sent is then taken over by the departures of the run,
//! which are packed.
ghost use Rattle.std.specs.Prelude.{◌≡◌, ◌+◌, ◌≤◌, ◌++◌, [], IfOk, length, map};
ghost use Rattle.cq_base.specs.Packed.{unpacked};

use crate::{Departure, NoMemory, PackedDeparture, Room, Supply};
use std::alloc::Global;
use std::marker::Model;

/// The departures of a run, in order, each in 64 bytes. Contracts see the departures and the number that still fits, as
/// those of a [`Room`].
#[derive(Drop)]
pub struct Departures {
    packed: Room<PackedDeparture>,
}

impl Model for Departures {
    ghost use Rattle.std.specs.Prelude.{map};
    ghost use Rattle.cq_base.specs.Packed.{unpacked};
    ghost use Rattle.cq_base.specs.Room.{RoomView};
    ghost use Rattle.cq_base.specs.declared.cell.Departure.{Departure};

    ghost Value = { RoomView Departure };

    ghost view = { λ d. record { items = map unpacked d.packed.items; spare = d.packed.spare } };
}

// Packs these departures, behind those that are packed.
#[tactic(auto, using(crate::proofs::Each::pack_steps))]
fn put_each(packed: &mut Room<PackedDeparture>, sent: &[Departure])
    requires { length sent.now ≤ packed.old.spare }
    ensures items { map unpacked packed.new.items ≡ map unpacked packed.old.items ++ sent.now }
    ensures spare { packed.new.spare + length sent.now ≡ packed.old.spare }
{
    'departures: for departure in sent {
        packed.push(PackedDeparture::of(departure));
    }
}

impl Departures {
    /// No departure, and room for so many. The error is want of memory.
    pub fn new(alloc: Global, room: u64) -> Result<Departures, NoMemory>
        ensures items { IfOk result (λ departures. departures.items ≡ []) }
        ensures spare { IfOk result (λ departures. departures.spare ≡ room) }
    {
        Ok(Departures {
            packed: Room::new(alloc, room)?,
        })
    }

    /// Takes all departures over from a list, which is empty then. They stand behind the others, in their order. It
    /// takes room for them and no memory.
    pub fn take_all(&mut self, sent: &mut Room<Departure>)
        requires { length sent.old.items ≤ self.old.spare }
        ensures items { self.new.items ≡ self.old.items ++ sent.old.items }
        ensures spare { self.new.spare + length sent.old.items ≡ self.old.spare }
        ensures none_left { sent.new.items ≡ [] }
        ensures room { sent.new.spare ≡ sent.old.spare + length sent.old.items }
    {
        self.put_all(sent.items());
        sent.clear();
    }

    /// Puts these departures behind the others. It takes room for them and no memory.
    pub fn put_all(&mut self, sent: &[Departure])
        requires { length sent.now ≤ self.old.spare }
        ensures items { self.new.items ≡ self.old.items ++ sent.now }
        ensures spare { self.new.spare + length sent.now ≡ self.old.spare }
    {
        put_each(&mut self.packed, sent);
    }

    /// The departures, packed, in order.
    pub fn as_slice(&self) -> &[PackedDeparture]
        ensures { map unpacked result.now ≡ self.now.items }
    {
        self.packed.items()
    }

    /// The departures, packed, in order, to be used up. It takes no memory.
    pub fn into_supply(self) -> Supply<PackedDeparture>
        ensures { map unpacked result ≡ self.items }
    {
        let Departures { packed } = self;
        Supply::of(packed.into_vec())
    }

    /// The departures as they are, in order, with room for no more. They are used up as these are put together. The
    /// error is want of memory.
    pub fn into_room(self, alloc: Global) -> Result<Room<Departure>, NoMemory>
        ensures items { IfOk result (λ room. room.items ≡ self.items) }
        ensures spare { IfOk result (λ room. room.spare ≡ 0) }
    {
        let count = self.as_slice().len();
        let mut room = Room::new(alloc, count as u64)?;
        let mut left = self.into_supply();
        'departures: while let Some(packed) = left.pop_first() {
            room.push(packed.departure());
        }
        Ok(room)
    }
}
