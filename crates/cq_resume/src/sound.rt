//! Whether a state is sound.
ghost use Rattle.std.specs.Prelude.{◌≡◌, ◌↔◌, ◌<◌, ◌≤◌, AllPairs, IfErr, IfOk, IsTrue, OnOk, length};
ghost use Rattle.std.specs.List.{AllByRecursion};
ghost use Rattle.cq_resume.specs.Terms.{IsTraffic, IsTally, AreSized, ArePackets, FlowsStand, IsFound, IsNameBefore, AreCellsFor, AreNamesFor, AreOrdered, HaveRoom, IsFirstOfTwo, AreFoundIn, StandBelow, IsFirstOf, IsSound, HasShape, switch_of, CanTakeUp, AreTables, classes_of, ports_of, machines_of, IsInRange, most_ports};

use crate::StateRefusal;
use crate::floors::are_below_floors;
use crate::flows::keep_arrival_order;
use crate::found::{Found, find};
use crate::order::in_order;
use crate::packets::{Tally, tally_packets};
use crate::slack::have_slack;
use cq_base::{Port, Setup};
use cq_cells::Schedule;
use cq_route::Tables;
use cq_state::State;
use std::alloc::Global;

// Refuses lines that are out of order, and then a cell of a list without slack: the second clause and the third.
fn judge_places(found: &Found, state: &State) -> Result<(), StateRefusal>
    requires outputs { AllByRecursion (λ q. q.cell.output < most_ports) found.now.listed.items }
    requires inputs { AllByRecursion (λ q. q.key.input < state.now.head.ports) found.now.listed.items }
    ensures stand { OnOk result (AreOrdered found.now state.now.head.next state.now.moved × HaveRoom found.now) }
    ensures refused { IfErr result
        (IsFirstOfTwo 2 (AreOrdered found.now state.now.head.next state.now.moved) (HaveRoom found.now)) }
{
    if !in_order(found, state) {
        return Err(StateRefusal::Unsound { clause: 2 });
    }
    if !have_slack(&found.listed, &found.buffered, state.head.ports) {
        return Err(StateRefusal::Unsound { clause: 3 });
    }
    Ok(())
}

// Whether each cell that waits is of its class's level, and its rank no greater than the floor of its class.
fn stand_below(setup: &Setup, state: &State, found: &Found) -> bool
    requires ranks { length state.now.ranks ≡ length setup.now.kinds }
    requires sized { AreSized (machines_of setup.now) state.now.ranks }
    requires cells { AreCellsFor setup.now found.now }
    ensures { IsTrue result ↔ StandBelow setup.now state.now.ranks found.now }
{
    let ranks = state.ranks.as_slice();
    are_below_floors(setup, ranks, &found.listed) && are_below_floors(setup, ranks, &found.buffered)
}

// Refuses flows that leave out of the order of arrival, and then a cell above the floor of its class: the fifth clause
// and the sixth.
fn judge_ranks(
    alloc: Global,
    setup: &Setup,
    state: &State,
    found: &Found,
) -> Result<(), StateRefusal>
    requires ordered { AllPairs IsNameBefore found.now.names.items }
    requires ports { length setup.now.kinds ≤ most_ports }
    requires names { AreNamesFor setup.now found.now }
    requires ranks { length state.now.ranks ≡ length setup.now.kinds }
    requires sized { AreSized (machines_of setup.now) state.now.ranks }
    requires cells { AreCellsFor setup.now found.now }
    ensures stand { OnOk result (FlowsStand found.now.names.items × StandBelow setup.now state.now.ranks found.now) }
    ensures refused { IfErr result
        (IsFirstOfTwo 5 (FlowsStand found.now.names.items) (StandBelow setup.now state.now.ranks found.now)) }
{
    let ports = setup.kinds.as_slice().len() as Port;
    if !keep_arrival_order(alloc, &found.names, ports)? {
        return Err(StateRefusal::Unsound { clause: 5 });
    }
    if !stand_below(setup, state, found) {
        return Err(StateRefusal::Unsound { clause: 6 });
    }
    Ok(())
}

// What the cells come to that a state does not name, where those that it names were found. It is refused for the first
// of the other clauses that does not hold.
#[tactic(auto, using(crate::proofs::Judging::judge_steps))]
fn judge_found(
    alloc: Global,
    state: &State,
    tables: &Tables,
    schedule: &Schedule,
    found: &Found,
) -> Result<Tally, StateRefusal>
    requires ports { schedule.now.ports ≡ ports_of tables.now.setup }
    requires packets { ArePackets schedule.now.ports schedule.now.came }
    requires known { AreFoundIn tables.now schedule.now state.now found.now }
    ensures ready { OnOk result (CanTakeUp state.now found.now) }
    ensures tally { IfOk result (IsTally (switch_of tables.now schedule.now) state.now) }
    ensures sound { OnOk result (IsSound (switch_of tables.now schedule.now) state.now) }
    ensures refused { IfErr result (IsFirstOf (switch_of tables.now schedule.now) state.now) }
{
    judge_places(found, state)?;
    let tally = tally_packets(
        alloc,
        schedule,
        state.head.next,
        &found.names,
        tables.limits.as_slice(),
    )?;
    let Some(tally) = tally else {
        return Err(StateRefusal::Unsound { clause: 4 });
    };
    judge_ranks(alloc, &tables.setup, state, found)?;
    Ok(tally)
}

/// The cells that a state of this shape names, and what those come to that it does not name. It is refused for the
/// first clause that does not hold.
#[tactic(auto, using(crate::proofs::Judging::judge_finds))]
pub fn judge(
    alloc: Global,
    state: &State,
    tables: &Tables,
    schedule: &Schedule,
) -> Result<(Found, Tally), StateRefusal>
    requires tables { AreTables tables.now }
    requires ports { schedule.now.ports ≡ ports_of tables.now.setup }
    requires traffic { IsTraffic (ports_of tables.now.setup) (classes_of tables.now.setup) schedule.now.came }
    requires packets { ArePackets schedule.now.ports schedule.now.came }
    requires in_range { IsInRange state.now }
    requires shape { HasShape (switch_of tables.now schedule.now) state.now }
    ensures found { IfOk result (λ answer. IsFound schedule.now.came state.now answer.0) }
    ensures ready { IfOk result (λ answer. CanTakeUp state.now answer.0) }
    ensures tally { IfOk result (λ answer. IsTally (switch_of tables.now schedule.now) state.now answer.1) }
    ensures sound { OnOk result (IsSound (switch_of tables.now schedule.now) state.now) }
    ensures refused { IfErr result (IsFirstOf (switch_of tables.now schedule.now) state.now) }
{
    let found = find(alloc, state, schedule)?;
    let tally = judge_found(alloc, state, tables, schedule, &found)?;
    Ok((found, tally))
}
