//! The run of the ideal switch.
ghost use Rattle.std.specs.Prelude.{◌≡◌, ◌↔◌, ◌+◌, ◌<◌, ◌≤◌, ◌^◌, IsTrue, false, All, Ok, IfOk, IfErr, OnOk, [], length, map, max};
ghost use Rattle.cq_ideal.specs.Rest.{HasRested};
ghost use Rattle.cq_simulate.specs.Terms.{no_arrivals, arriving, end_of, traffic_of, NoLimits, marked_state, departures_limited, limited_run, slots_of, ideal_departures, slots_ran, IsRefusalOf, IsReady, IsScheduleFor, IsQuiet, IsQuietUntil};

use crate::RunRefusal;
use crate::ports::{ideal_for, port_count};
use cq_base::{Departure, Departures, Room, Slot};
use cq_cells::{Coming, Schedule};
use cq_ideal::Ideal;
use cq_rank::Rank;
use cq_route::Tables;
use cq_traffic::quiet_near;
use std::alloc::Global;

/// What the ideal switch did.
#[derive(Drop)]
pub struct IdealRun {
    /// The departures, in order of slot, then output.
    pub sent: Room<Departure>,
    /// How many slots there are up to the last departure, its own included; 0 where none left.
    pub slots: u64,
}

/// Runs the ideal switch of the tables' ranks and limits over a schedule of the same ports and classes, from slot 0
/// until no cell arrives any more and none waits. It takes time for the slots in which a cell waits or comes, and none
/// for those between them.
///
/// - `Tag`: a rank does not fit 128 bits; the first such fault of the ideal switch.
/// - `NoMemory`: there was not the memory for the lists and the departures.
#[tactic(auto, using(crate::proofs::OfPackets::slots_are, crate::proofs::OfPackets::last_departs_without_limits))]
pub fn run_ideal(
    alloc: Global,
    tables: &Tables,
    schedule: &Schedule,
) -> Result<IdealRun, RunRefusal>
    requires { IsScheduleFor tables.now schedule.now }
    ensures sent { IfOk result (λ run. ideal_departures tables.now schedule.now.came ≡ Ok run.sent.items) }
    ensures slots { IfOk result (λ run. run.slots ≡ slots_of run.sent.items) }
    // after so many slots the run ends, or with the last arrival, where that is later: what arrives last may be refused
    ensures ends { IfOk result (λ run.
        slots_ran tables.now schedule.now.came ≡ max (end_of schedule.now.came) run.slots) }
    ensures ends_with_a_departure { NoLimits tables.now.limits →
        IfOk result (λ run. slots_ran tables.now schedule.now.came ≡ run.slots) }
    ensures refused { IfErr result (IsRefusalOf (ideal_departures tables.now schedule.now.came)) }
{
    let packed = run_ideal_packed(alloc, tables, schedule)?;
    let sent = packed.into_room(alloc)?;
    let slots = slots_of(sent.items());
    Ok(IdealRun { sent, slots })
}

/// The departures of [`run_ideal`], packed, with its errors.
pub fn run_ideal_packed(
    alloc: Global,
    tables: &Tables,
    schedule: &Schedule,
) -> Result<Departures, RunRefusal>
    requires { IsScheduleFor tables.now schedule.now }
    ensures sent { IfOk result (λ sent. ideal_departures tables.now schedule.now.came ≡ Ok sent.items) }
    ensures early { IfOk result (λ sent. slots_of sent.items ≤ 2 ^ 63 + 2 ^ 35) }
    ensures refused { IfErr result (IsRefusalOf (ideal_departures tables.now schedule.now.came)) }
{
    let ports = port_count(tables);
    let mut sent = Departures::new(alloc, schedule.total() + ports)?;
    let mut ideal = ideal_for(alloc, tables, schedule)?;
    let ran = run_slots(alloc, &mut ideal, ports, schedule, &mut sent);
    drop(ideal);
    ran?;
    Ok(sent)
}

// Whether no cell arrives any more and none waits.
fn is_over<R: Rank>(ideal: &Ideal<R>, schedule: &Schedule, slot: Slot) -> bool
    ensures { IsTrue result ↔ ((end_of schedule.now.came ≤ slot) × All (λ cells. cells ≡ []) ideal.now.state.lists) }
{
    schedule.end() <= slot && ideal.empty()
}

// The cells of the slot come. Where none comes and none waits, the slots up to the next arrival are skipped: the switch
// rests, and the cells of that slot come. The answer is the slot whose cells came.
#[tactic(auto, unfolding(cq_ideal::specs::LimitedIdeal::limited_run), using(cq_traffic::proofs::Arriving::quiet_of))]
fn skip<R: Rank>(ideal: &mut Ideal<R>, schedule: &Schedule, slot: Slot, coming: &mut Coming) -> Slot
    requires running { ideal.old.stopped ≡ false }
    requires next { ideal.old.next ≡ slot }
    ensures quiet { IsQuiet schedule.now.came slot result }
    ensures skips { arriving schedule.now.came slot ≡ no_arrivals →
        All (λ cells. cells ≡ []) ideal.old.state.lists → IsQuietUntil schedule.now.came slot result }
    ensures empty { slot < result → All (λ cells. cells ≡ []) ideal.old.state.lists }
    ensures rested { HasRested (map R.machine ideal.old.fixed) slot result ideal.old ideal.new }
    ensures came { coming.new ≡ arriving schedule.now.came result }
{
    schedule.arrive(slot, coming);
    if !coming.is_empty() || !ideal.empty() {
        return slot;
    }
    let next = quiet_near(schedule, slot, coming);
    if next == slot {
        return slot;
    }
    ideal.rest(next);
    schedule.arrive(next, coming);
    next
}

// Runs a switch of so many ports over all cells that arrive. What is sent in a slot stands in a list for as many as
// there are ports, until it is packed. The error is the switch's first tag fault, or want of memory.
#[tactic(auto, using(crate::proofs::Steps::running_first))]
fn run_slots<R: Rank>(
    alloc: Global,
    ideal: &mut Ideal<R>,
    ports: u64,
    schedule: &Schedule,
    sent: &mut Departures,
) -> Result<(), RunRefusal>
    requires ready { IsReady (map R.machine ideal.old.fixed) schedule.now.came ideal.old sent.old }
    requires ports { ports ≡ length ideal.old.fixed }
    ensures sent { OnOk result (departures_limited (limited_run ideal.old.limits (map R.machine ideal.old.fixed) 0
        (traffic_of schedule.now.came) (marked_state ideal.old)) ≡ Ok sent.new.items) }
    ensures refused { IfErr result (IsRefusalOf (departures_limited (limited_run ideal.old.limits (map R.machine
        ideal.old.fixed) 0 (traffic_of schedule.now.came) (marked_state ideal.old)))) }
    ensures early { OnOk result (slots_of sent.new.items ≤ 2 ^ 63 + 2 ^ 35) }
{
    let mut leaving = Room::new(alloc, ports)?;
    let mut coming = Coming::none();
    let mut slot = 0;
    'slots: while !is_over(ideal, schedule, slot) {
        slot = skip(ideal, schedule, slot, &mut coming);
        ideal.slot(slot, coming.arrivals(), &mut leaving)?;
        sent.take_all(&mut leaving);
        slot += 1;
    }
    Ok(())
}

// How many slots there are up to the last departure, its own included; 0 where none left.
fn slots_of(sent: &[Departure]) -> u64
    requires { slots_of sent.now < 2 ^ 64 }
    ensures { result ≡ slots_of sent.now }
{
    let mut slots: u64 = 0;
    'departures: for departure in sent {
        slots = slots.max(departure.slot + 1);
    }
    slots
}
