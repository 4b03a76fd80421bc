//! How much room a run over a schedule needs.
ghost use Rattle.std.specs.Prelude.{◌≡◌, ◌≤◌, IfOk};
ghost use Rattle.cq_cells.specs.Traffic.{is_from, is_to};
ghost use Rattle.cq_traffic.specs.Rooms.{rooms_of};

use cq_base::NoMemory;
use cq_cells::Schedule;
use std::alloc::Global;

/// How many cells arrive at each of the first so many inputs. The error is want of memory.
pub fn rooms_from(alloc: Global, schedule: &Schedule, ports: u16) -> Result<Vec<u64>, NoMemory>
    requires { ports ≤ schedule.now.ports }
    ensures { IfOk result (λ rooms. rooms.items ≡ rooms_of is_from schedule.now.came ports) }
{
    let rooms = (0..ports).map(|input| schedule.from_input(input));
    Ok(rooms.collect(alloc)?)
}

/// How many cells arrive for each of the first so many outputs. The error is want of memory.
pub fn rooms_to(alloc: Global, schedule: &Schedule, ports: u16) -> Result<Vec<u64>, NoMemory>
    requires { ports ≤ schedule.now.ports }
    ensures { IfOk result (λ rooms. rooms.items ≡ rooms_of is_to schedule.now.came ports) }
{
    let rooms = (0..ports).map(|output| schedule.to_output(output));
    Ok(rooms.collect(alloc)?)
}
