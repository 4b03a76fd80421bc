//! Where the cells of a slot are looked for first.
use cq_base::{Cell, CellId, MOST_PORTS};

/// How many packets of each input had begun when a cell of it was found last. It says where to look first and nothing
/// of what is found there, so any value will do.
#[derive(Clone, Copy)]
pub(crate) struct Nearby {
    packets: [u32; MOST_PORTS],
}

impl Nearby {
    /// No cell was found yet.
    pub(crate) fn nowhere() -> Nearby {
        Nearby {
            packets: [0; MOST_PORTS],
        }
    }

    /// How many packets of the input had begun.
    pub(crate) fn of_input(&self, input: usize) -> usize {
        match self.packets.get(input) {
            Some(packets) => *packets as usize,
            None => 0,
        }
    }

    /// A cell was looked for, and this was found.
    pub(crate) fn looked(&mut self, cell: Option<Cell>) {
        if let Some(cell) = cell {
            self.found(cell.id);
        }
    }

    // A cell was found.
    fn found(&mut self, id: CellId) {
        if let Some(packets) = self.packets.get_mut(id.input as usize) {
            *packets = id.packet.saturating_add(1);
        }
    }
}
