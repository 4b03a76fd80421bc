//! What a fabric of tables is made of, and one that has had no slot; and an ideal switch of tables that has had none.
ghost use Rattle.std.specs.Prelude.{◌≡◌, IfOk};
ghost use Rattle.cq_simulate.specs.Terms.{AreTables, ports_of, ArePortsFor, IsFreshFor, IsIdealFor};

use cq_base::NoMemory;
use cq_cells::Schedule;
use cq_engine::Engine;
use cq_ideal::Ideal;
use cq_route::Tables;
use cq_scfq::Discipline;
use cq_traffic::{rooms_from, rooms_to};
use std::alloc::Global;

/// What the ports of a fabric are made of.
#[derive(Drop)]
pub struct Ports {
    /// The rank of each output.
    pub ranks: Vec<Discipline>,
    /// How many cells come to each input.
    pub from_inputs: Vec<u64>,
    /// How many come for each output.
    pub to_outputs: Vec<u64>,
}

/// How many ports there are.
pub fn port_count(tables: &Tables) -> u64
    ensures { result ≡ ports_of tables.now.setup }
{
    tables.setup.kinds.as_slice().len() as u64
}

/// The ports of the tables' switch, for the cells of a schedule of as many ports. The error is want of memory.
#[tactic(auto, using(crate::proofs::TakenUp::machine_count))]
pub fn ports_for(alloc: Global, tables: &Tables, schedule: &Schedule) -> Result<Ports, NoMemory>
    requires tables { AreTables tables.now }
    requires ports { schedule.now.ports ≡ ports_of tables.now.setup }
    ensures { IfOk result (ArePortsFor tables.now schedule.now.came) }
{
    let ports = port_count(tables) as u16;
    let ranks = Discipline::all(alloc, &tables.setup)?;
    let from_inputs = rooms_from(alloc, schedule, ports)?;
    let to_outputs = rooms_to(alloc, schedule, ports)?;
    Ok(Ports {
        ranks,
        from_inputs,
        to_outputs,
    })
}

/// A fabric of the tables' switch that has had no slot, with room for the cells of a schedule of as many ports. The
/// error is want of memory.
// It is inlined since an engine is large: so it is made where its caller keeps it.
#[inline(always)]
pub fn engine_for(
    alloc: Global,
    tables: &Tables,
    schedule: &Schedule,
) -> Result<Engine<Discipline>, NoMemory>
    requires tables { AreTables tables.now }
    requires ports { schedule.now.ports ≡ ports_of tables.now.setup }
    ensures { IfOk result (IsFreshFor tables.now schedule.now.came) }
{
    let ports = ports_for(alloc, tables, schedule)?;
    let ranks = ports.ranks;
    let from = ports.from_inputs.as_slice();
    let to = ports.to_outputs.as_slice();
    let limits = tables.limits.as_slice();
    Engine::new(alloc, ranks, from, to, limits, tables.workers)
}

/// An ideal switch of the tables that has had no slot, with room for the cells of a schedule of as many ports. The
/// error is want of memory.
pub fn ideal_for(
    alloc: Global,
    tables: &Tables,
    schedule: &Schedule,
) -> Result<Ideal<Discipline>, NoMemory>
    requires tables { AreTables tables.now }
    requires ports { schedule.now.ports ≡ ports_of tables.now.setup }
    ensures { IfOk result (IsIdealFor tables.now schedule.now.came) }
{
    let ports = port_count(tables) as u16;
    let ranks = Discipline::all(alloc, &tables.setup)?;
    let rooms = rooms_to(alloc, schedule, ports)?;
    Ideal::new(alloc, ranks, rooms.as_slice(), tables.limits.as_slice())
}
