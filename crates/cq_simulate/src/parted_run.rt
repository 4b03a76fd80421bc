//! The run of the fabric in parts: up to a slot, and on from there.
ghost use Rattle.std.specs.Prelude.{◌≡◌, ◌+◌, ◌-◌, ◌<◌, ◌≤◌, ◌^◌, IfErr, IfOk, OnOk, length, map};
ghost use Rattle.cq_simulate.specs.Terms.{IsParted, IsResumed, switch_of, ports_of, openings_of, ArrivesIn, HasPartedTo, IsReadyPart, NoneCome, StopsWithin, CanBeTakenUp, IsPartFault, IsResumeFault, kept_of, taken_at, unpacked_run, IsScheduleFor, GoesOnFrom, IsFreshFor};

use crate::RunRefusal;
use crate::fabric_run::{PackedFabricRun, run_on, skip};
use crate::ports::{engine_for, port_count, ports_for};
use cq_base::{Departure, Departures, NoMemory, Room, Slot, TagFault, Transfer};
use cq_cells::{Coming, Schedule};
use cq_crew::Gate;
use cq_engine::Engine;
use cq_rank::Rank;
use cq_resume::{Frozen, Taken};
use cq_route::Tables;
use cq_scfq::Discipline;
use std::alloc::Global;
use std::thread::Threads;

/// A run that stands still between two slots.
#[derive(Drop)]
pub struct Parted {
    /// The fabric, with what was counted.
    pub frozen: Frozen,
    /// The departures so far, in order of slot, then output.
    pub sent: Room<Departure>,
    /// The transfers so far, in order of slot, then phase, then input.
    pub note: Room<Transfer>,
}

/// Runs the fabric over a schedule of the same ports and classes up to this slot, which it does not run, with or
/// without arrivals. It takes time for the slots in which a cell waits or comes, and none for the others, also past the
/// last.
///
/// - `Tag`: a rank of these slots does not fit 128 bits.
/// - `NoMemory`: there was not the memory for the lists, the buffers, the departures and the transfers.
pub fn part_fabric<R: Threads + Sync, G: Gate>(
    rt: &R,
    alloc: Global,
    tables: &Tables,
    schedule: &Schedule,
    slots: Slot,
    gate: &G,
) -> Result<Parted, RunRefusal>
    requires fit { IsScheduleFor tables.now schedule.now }
    requires slots { slots < 2 ^ 63 }
    ensures parted { IfOk result (λ run.
        IsParted (switch_of tables.now schedule.now) (openings_of tables.now.setup) slots (taken_at run)) }
    ensures ports { IfOk result (λ run. length run.frozen.lists ≡ ports_of tables.now.setup) }
    ensures refused { IfErr result
        (IsPartFault (switch_of tables.now schedule.now) (openings_of tables.now.setup) slots) }
{
    let mut engine = engine_for(alloc, tables, schedule)?;
    part_fresh(rt, alloc, &mut engine, tables, schedule, slots, gate)
}

// Does so with a fabric of the tables' switch that has had no slot.
fn part_fresh<R: Threads + Sync, G: Gate>(
    rt: &R,
    alloc: Global,
    engine: &mut Engine<Discipline>,
    tables: &Tables,
    schedule: &Schedule,
    slots: Slot,
    gate: &G,
) -> Result<Parted, RunRefusal>
    requires fit { IsScheduleFor tables.now schedule.now }
    requires slots { slots < 2 ^ 63 }
    requires fresh { IsFreshFor tables.now schedule.now.came engine.old }
    ensures parted { IfOk result (λ run.
        IsParted (switch_of tables.now schedule.now) (openings_of tables.now.setup) slots (taken_at run)) }
    ensures ports { IfOk result (λ run. length run.frozen.lists ≡ ports_of tables.now.setup) }
    ensures refused { IfErr result
        (IsPartFault (switch_of tables.now schedule.now) (openings_of tables.now.setup) slots) }
{
    let ports = port_count(tables);
    let total = schedule.total();
    let mut sent = Room::new(alloc, total + ports)?;
    let mut note = Room::new(alloc, total + 2 * ports)?;
    run_before(
        rt, alloc, engine, schedule, slots, gate, &mut sent, &mut note,
    )?;
    let frozen = engine.freeze(alloc)?;
    Ok(Parted { frozen, sent, note })
}

/// Runs the fabric on from a state that was taken up, until no cell arrives any more and none waits. What was kept
/// before stands ahead of what this run keeps. The departures are packed.
///
/// - `Tag`: a rank of these slots does not fit 128 bits.
/// - `NoMemory`: there was not the memory for the lists, the buffers, the departures and the transfers.
pub fn resume_fabric<R: Threads + Sync, G: Gate>(
    rt: &R,
    alloc: Global,
    tables: &Tables,
    schedule: &Schedule,
    taken: &Taken,
    gate: &G,
) -> Result<PackedFabricRun, RunRefusal>
    requires fit { IsScheduleFor tables.now schedule.now }
    requires sound { CanBeTakenUp (switch_of tables.now schedule.now) taken.now }
    ensures run { IfOk result (λ run.
        IsResumed (switch_of tables.now schedule.now) taken.now (kept_of (unpacked_run run))) }
    ensures refused { IfErr result (IsResumeFault (switch_of tables.now schedule.now) taken.now) }
{
    let count = port_count(tables);
    let total = schedule.total();
    let sent = packed_holding(alloc, taken.sent.as_slice(), total + count)?;
    let note = holding(alloc, taken.note.as_slice(), total + 2 * count)?;
    let engine = engine_from(alloc, tables, schedule, taken)?;
    run_on(rt, alloc, engine, count, schedule, gate, sent, note)
}

// A fabric of the tables' switch that goes on from a state that was taken up. The error is want of memory. It is
// inlined since an engine is large: so it is made where its caller keeps it.
#[inline(always)]
fn engine_from(
    alloc: Global,
    tables: &Tables,
    schedule: &Schedule,
    taken: &Taken,
) -> Result<Engine<Discipline>, NoMemory>
    requires fit { IsScheduleFor tables.now schedule.now }
    requires sound { CanBeTakenUp (switch_of tables.now schedule.now) taken.now }
    ensures { IfOk result (GoesOnFrom tables.now schedule.now.came taken.now.frozen) }
{
    let ports = ports_for(alloc, tables, schedule)?;
    let ranks = ports.ranks;
    let from = ports.from_inputs.as_slice();
    let to = ports.to_outputs.as_slice();
    let limits = tables.limits.as_slice();
    Engine::thaw(
        alloc,
        ranks,
        from,
        to,
        limits,
        tables.workers,
        &taken.frozen,
    )
}

// Room for those that are held and so many more. The error is want of memory: none holds more than 64 bits count.
fn room_with(held: usize, spare: u64) -> Result<u64, NoMemory>
    ensures { IfOk result (λ room. room ≡ held + spare) }
{
    (held as u64).checked_add(spare).ok_or(NoMemory)
}

// These items, with room for so many more. The error is want of memory.
#[tactic(auto, using(std::proofs::lemmas::List::take_more, std::proofs::lemmas::List::take_all))]
fn holding<T: Copy>(alloc: Global, items: &[T], spare: u64) -> Result<Room<T>, NoMemory>
    ensures items { IfOk result (λ room. room.items ≡ items.now) }
    ensures spare { IfOk result (λ room. room.spare ≡ spare) }
{
    let mut room = Room::new(alloc, room_with(items.len(), spare)?)?;
    'items: for item in items {
        room.push(*item);
    }
    Ok(room)
}

// These departures, packed, with room for so many more. The error is want of memory.
fn packed_holding(alloc: Global, items: &[Departure], spare: u64) -> Result<Departures, NoMemory>
    ensures items { IfOk result (λ departures. departures.items ≡ items.now) }
    ensures spare { IfOk result (λ departures. departures.spare ≡ spare) }
{
    let mut departures = Departures::new(alloc, room_with(items.len(), spare)?)?;
    departures.put_all(items);
    Ok(departures)
}

// The slot up to which no cell arrives: that of the next arrival, but no later than the last.
fn quiet_before(schedule: &Schedule, slot: Slot, last: Slot, coming: &Coming) -> Slot
    requires { slot ≤ last }
    ensures late { slot ≤ result }
    ensures within { result ≤ last }
    ensures none { NoneCome schedule.now.came slot result }
    ensures ends { result < last → ArrivesIn result schedule.now.came }
{
    schedule.next_near(slot, coming).unwrap_or(last).min(last)
}

// Runs a fabric over the slots from the next one up to the last, which it does not run.
#[tactic(auto, using(crate::proofs::Steps::crossing_first))]
fn run_before<T: Threads + Sync, R: Rank, G: Gate>(
    rt: &T,
    alloc: Global,
    engine: &mut Engine<R>,
    schedule: &Schedule,
    last: Slot,
    gate: &G,
    sent: &mut Room<Departure>,
    note: &mut Room<Transfer>,
) -> Result<(), TagFault>
    requires ready { IsReadyPart (map R.machine engine.old.fixed) schedule.now.came last engine.old sent.old note.old }
    ensures run { OnOk result (HasPartedTo (map R.machine engine.old.fixed) schedule.now.came last engine.old
        engine.new sent.old sent.new note.old note.new) }
    ensures fault { IfErr result (StopsWithin (map R.machine engine.old.fixed) schedule.now.came engine.old
        (last - engine.old.next)) }
{
    let mut coming = Coming::none();
    let mut slot = engine.next();
    'slots: while slot < last {
        slot = skip(engine, schedule, slot, &mut coming, |coming| {
            quiet_before(schedule, slot, last, coming)
        });
        if slot >= last {
            return Ok(());
        }
        let arrivals = coming.arrivals();
        engine.slot(rt, alloc, slot, arrivals, gate, sent, note)?;
        slot += 1;
    }
    Ok(())
}
