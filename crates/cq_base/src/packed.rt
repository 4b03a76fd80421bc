//! A departure without waste.
//!
//! A run keeps all its departures until what leaves is built, and there may be many millions of them. Between the
//! parts of a departure, of its cell and of its key stand bytes that say nothing, as each part begins at a multiple
//! of its widest field. So what is kept has the fields of all parts side by side, the widest first.
ghost use Rattle.std.specs.Prelude.{◌≡◌};
ghost use Rattle.cq_base.specs.Packed.{unpacked};

use crate::{Cell, CellId, Class, Departure, Key, Port, Queued, Slot};

/// A departure in 64 bytes. Contracts speak of the departure that it stands for by `unpacked`.
#[derive(Clone, Copy)]
pub struct PackedDeparture {
    rank: u128,
    slot: Slot,
    came: Slot,
    packet: u32,
    index: u32,
    at: u32,
    len: u32,
    input: Port,
    key_input: Port,
    output: Port,
    cell_output: Port,
    class: Class,
    level: u8,
    last: bool,
}

impl PackedDeparture {
    /// The departure, packed.
    #[tactic(auto, unfolding(crate::specs::Packed::unpacked))]
    pub fn of(departure: &Departure) -> PackedDeparture
        ensures { unpacked result ≡ departure.now }
    {
        let cell = departure.queued.cell;
        let key = departure.queued.key;
        PackedDeparture {
            rank: key.rank,
            slot: departure.slot,
            came: key.slot,
            packet: cell.id.packet,
            index: cell.id.index,
            at: cell.at,
            len: cell.len,
            input: cell.id.input,
            key_input: key.input,
            output: departure.output,
            cell_output: cell.output,
            class: cell.class,
            level: key.level,
            last: cell.last,
        }
    }

    /// The departure that it stands for.
    #[tactic(auto, unfolding(crate::specs::Packed::unpacked))]
    pub fn departure(&self) -> Departure
        ensures { result ≡ unpacked self.now }
    {
        let cell = Cell {
            id: CellId {
                input: self.input,
                packet: self.packet,
                index: self.index,
            },
            output: self.cell_output,
            class: self.class,
            last: self.last,
            at: self.at,
            len: self.len,
        };
        let key = Key {
            level: self.level,
            rank: self.rank,
            slot: self.came,
            input: self.key_input,
        };
        Departure {
            slot: self.slot,
            output: self.output,
            queued: Queued { cell, key },
        }
    }
}
