//! The run of the fabric.
ghost use Rattle.std.specs.Prelude.{◌≡◌, ◌↔◌, ◌<◌, ◌≤◌, ℕ, List, Option, IsTrue, false, IfOk, IfErr, Ok, OnOk, length, map};
ghost use Rattle.cq_engine.specs.Resting.{HasRested};
ghost use denote.Ref.{Bor};
ghost use Rattle.cq_simulate.specs.Terms.{Cell, arriving, end_of, IsEmptyFabric, IsKeptOf, unpacked_run, ideal_departures, ideal_refusals, IsRefusalOf, IsScheduleFor, HasKept, HasRunOn, IsIdle, IsReadyOn, IsRefusalOn};

use crate::RunRefusal;
use crate::ports::{engine_for, port_count};
use cq_base::{Departure, Departures, Figures, Room, Slot, Transfer};
use cq_cells::{Coming, Schedule};
use cq_crew::Gate;
use cq_engine::{Engine, Refused};
use cq_rank::Rank;
use cq_route::Tables;
use cq_traffic::quiet_near;
use std::alloc::Global;
use std::thread::Threads;

/// What the fabric did.
#[derive(Drop)]
pub struct FabricRun {
    /// The departures, in order of slot, then output.
    pub sent: Room<Departure>,
    /// The transfers, in order of slot, then phase, then input.
    pub note: Room<Transfer>,
    /// What was seen of the run.
    pub figures: Figures,
    /// How many packets and cells were refused, at each output that has a limit, in order of output.
    pub refused: Vec<Refused>,
}

/// What the fabric did, with its departures packed.
#[derive(Drop)]
pub struct PackedFabricRun {
    /// The departures, in order of slot, then output.
    pub sent: Departures,
    /// The transfers, in order of slot, then phase, then input.
    pub note: Room<Transfer>,
    /// What was seen of the run.
    pub figures: Figures,
    /// How many packets and cells were refused, at each output that has a limit, in order of output.
    pub refused: Vec<Refused>,
}

/// Runs the fabric of the tables' ranks and limits over a schedule of the same ports and classes, from slot 0 until no
/// cell arrives any more and none waits. What departs, and how much is refused, is as in the ideal switch. At most as
/// many workers as the tables say propose at once, and `gate` is told of their steps. Neither changes anything of what
/// is done. It takes time for the slots in which a cell waits or comes, and none for those between them.
///
/// - `Tag`: a rank does not fit 128 bits; the first such fault of the ideal switch.
/// - `NoMemory`: there was not the memory for the lists, the buffers, the departures and the transfers.
pub fn run_fabric<R: Threads + Sync, G: Gate>(
    rt: &R,
    alloc: Global,
    tables: &Tables,
    schedule: &Schedule,
    gate: &G,
) -> Result<FabricRun, RunRefusal>
    requires { IsScheduleFor tables.now schedule.now }
    ensures run { IfOk result (IsKeptOf tables.now schedule.now.came) }
    ensures as_ideal { IfOk result (λ run. ideal_departures tables.now schedule.now.came ≡ Ok run.sent.items) }
    ensures refuses_as_ideal { IfOk result (λ run.
        ideal_refusals tables.now schedule.now.came ≡ Ok run.refused.items) }
    ensures refused { IfErr result (IsRefusalOf (ideal_departures tables.now schedule.now.came)) }
{
    let run = run_fabric_packed(rt, alloc, tables, schedule, gate)?;
    let room = run.sent.into_room(alloc)?;
    Ok(FabricRun {
        sent: room,
        note: run.note,
        figures: run.figures,
        refused: run.refused,
    })
}

/// Does what [`run_fabric`] does, and packs the departures. Its errors are the same.
pub fn run_fabric_packed<R: Threads + Sync, G: Gate>(
    rt: &R,
    alloc: Global,
    tables: &Tables,
    schedule: &Schedule,
    gate: &G,
) -> Result<PackedFabricRun, RunRefusal>
    requires { IsScheduleFor tables.now schedule.now }
    ensures run { IfOk result (λ run. IsKeptOf tables.now schedule.now.came (unpacked_run run)) }
    ensures as_ideal { IfOk result (λ run. ideal_departures tables.now schedule.now.came ≡ Ok run.sent.items) }
    ensures refuses_as_ideal { IfOk result (λ run.
        ideal_refusals tables.now schedule.now.came ≡ Ok run.refused.items) }
    ensures refused { IfErr result (IsRefusalOf (ideal_departures tables.now schedule.now.came)) }
{
    let ports = port_count(tables);
    let total = schedule.total();
    let sent = Departures::new(alloc, total + ports)?;
    let note = Room::new(alloc, total + 2 * ports)?;
    let engine = engine_for(alloc, tables, schedule)?;
    run_on(rt, alloc, engine, ports, schedule, gate, sent, note)
}

/// Runs a fabric of so many ports on over all cells that are still to come, and gives what it kept. The error is the
/// first tag fault, or want of memory.
// It is inlined since an engine is large: so none is copied for the call.
#[inline(always)]
pub fn run_on<T: Threads + Sync, R: Rank, G: Gate>(
    rt: &T,
    alloc: Global,
    mut engine: Engine<R>,
    ports: u64,
    schedule: &Schedule,
    gate: &G,
    mut sent: Departures,
    mut note: Room<Transfer>,
) -> Result<PackedFabricRun, RunRefusal>
    requires ready { IsReadyOn (map R.machine engine.fixed) schedule.now.came engine sent note }
    requires ports { ports ≡ length engine.fixed }
    ensures run { IfOk result (HasKept (map R.machine engine.fixed) schedule.now.came engine sent note) }
    ensures refused { IfErr result (IsRefusalOn (map R.machine engine.fixed) schedule.now.came engine) }
{
    let ran = run_slots(
        rt,
        alloc,
        &mut engine,
        ports,
        schedule,
        gate,
        &mut sent,
        &mut note,
    );
    // What was seen is taken out whatever came of the run, so that an engine is dropped nowhere else.
    let seen = engine.into_seen();
    ran?;
    Ok(PackedFabricRun {
        sent,
        note,
        figures: seen.figures,
        refused: seen.refused,
    })
}

// Whether no cell arrives any more and none waits.
fn is_over<R: Rank>(engine: &Engine<R>, schedule: &Schedule, slot: Slot) -> bool
    ensures { IsTrue result ↔ ((end_of schedule.now.came ≤ slot) × IsEmptyFabric engine.now.fabric) }
{
    schedule.end() <= slot && engine.empty()
}

/// The cells of the slot come. Where none comes and none waits, the slots up to the one that `until` tells are skipped:
/// the fabric rests, and the cells of that slot come. The answer is the slot whose cells came.
pub fn skip<R: Rank, F: FnOnce(&Coming) -> Slot>(
    engine: &mut Engine<R>,
    schedule: &Schedule,
    slot: Slot,
    coming: &mut Coming,
    until: F,
) -> Slot
    requires running { engine.old.stopped ≡ false }
    requires next { engine.old.next ≡ slot }
    requires tells { (near : Bor (List (Option Cell))) → F.pre until near }
    requires late { (near : Bor (List (Option Cell))) (next : ℕ) → F.post until near next → slot ≤ next }
    ensures late { slot ≤ result }
    ensures idle { slot < result → IsIdle schedule.now.came slot engine.old.fabric }
    ensures told { IsIdle schedule.now.came slot engine.old.fabric →
        (near : Bor (List (Option Cell))) × F.post until near result }
    ensures rested { HasRested (map R.machine engine.old.fixed) slot result engine.old engine.new }
    ensures came { coming.new ≡ arriving schedule.now.came result }
{
    schedule.arrive(slot, coming);
    if !coming.is_empty() || !engine.empty() {
        return slot;
    }
    let next = until(coming);
    if next == slot {
        return slot;
    }
    engine.rest(next);
    schedule.arrive(next, coming);
    next
}

// Runs a fabric of so many ports on over all cells that are still to come. What is sent in a slot stands in a list for
// as many as there are ports, until it is packed. The error is the first tag fault, or want of memory.
#[tactic(auto, using(crate::proofs::Steps::crossing_first, crate::proofs::Steps::enough_are))]
fn run_slots<T: Threads + Sync, R: Rank, G: Gate>(
    rt: &T,
    alloc: Global,
    engine: &mut Engine<R>,
    ports: u64,
    schedule: &Schedule,
    gate: &G,
    sent: &mut Departures,
    note: &mut Room<Transfer>,
) -> Result<(), RunRefusal>
    requires ready { IsReadyOn (map R.machine engine.old.fixed) schedule.now.came engine.old sent.old note.old }
    requires ports { ports ≡ length engine.old.fixed }
    ensures run { OnOk result (HasRunOn (map R.machine engine.old.fixed) schedule.now.came engine.old engine.new
        sent.old sent.new note.old note.new) }
    ensures refused { IfErr result (IsRefusalOn (map R.machine engine.old.fixed) schedule.now.came engine.old) }
{
    let mut leaving = Room::new(alloc, ports)?;
    let mut coming = Coming::none();
    let mut slot = engine.next();
    'slots: while !is_over(engine, schedule, slot) {
        slot = skip(engine, schedule, slot, &mut coming, |coming| {
            quiet_near(schedule, slot, coming)
        });
        engine.slot(rt, alloc, slot, coming.arrivals(), gate, &mut leaving, note)?;
        sent.take_all(&mut leaving);
        slot += 1;
    }
    Ok(())
}
