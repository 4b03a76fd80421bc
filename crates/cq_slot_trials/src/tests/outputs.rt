//! Outputs of two classes, and what leaves them.
ghost use Rattle.std.specs.Prelude.{◌≡◌, IfOk, length};
ghost use Rattle.cq_rank.specs.Classes.{rows_of};

use cq_base::{ClassRow, Departure, NoMemory, Room};
use cq_rank::FirstCome;
use std::alloc::Global;

/// First come, first served, of two classes.
pub(super) fn first_come(alloc: Global) -> Result<FirstCome, NoMemory>
    ensures { IfOk result (λ rank. length (rows_of rank.fixed) ≡ 2) }
{
    let class = ClassRow {
        level: 0,
        priority: 0,
        cost: 1,
    };
    FirstCome::new(alloc, &[class, class])
}

/// Notes of each departure its slot, its output, and the input and the packet of the cell.
pub(super) fn note_departures(
    left: &mut Vec<[u64; 4]>,
    sent: &Room<Departure>,
) -> Result<(), NoMemory> {
    for departure in sent.items() {
        let id = departure.queued.cell.id;
        left.push([
            departure.slot,
            departure.output as u64,
            id.input as u64,
            id.packet as u64,
        ])?;
    }
    Ok(())
}
