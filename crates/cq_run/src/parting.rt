//! Stopping a run over the captures that were read, and taking one up. The error of each call is why the run halts: a
//! rank does not fit, the state is refused, its text would be too long, or memory ran out.
//!
//! What a function owns it lends to its last call, and drops by name behind it: this is one step of a proof, where the
//! end of a scope is one for each field.
ghost use Rattle.std.specs.Prelude.{◌≡◌, ◌<◌, ◌^◌, ℕ, List, IfErr, IfOk, OnOk, length};
ghost use Rattle.cq_run.specs.Terms.{AreTables, Captured, ports_of, AreGiven, IsPartHalt, IsRead, IsRefusal, IsResumeHalt, IsResumedBy, IsPartText, IsPartedAt, IsScheduleFor, IsScheduleOf, halt_for_state, halt_for_text, schedule_of, switch_of, taken_at};

use crate::switching::Crossed;
use crate::{Halt, Refusal, StateFault};
use cq_base::Sequence;
use cq_cells::Schedule;
use cq_crew::Gate;
use cq_pcap::Capture;
use cq_resume::{StateLong, StateRefusal, Taken, read_state, state_bytes};
use cq_route::Tables;
use cq_simulate::{PackedFabricRun, Parted, part_fabric, resume_fabric};
use std::alloc::Global;
use std::thread::Threads;

/// The text of the state in which the crossbar switch stands after so many slots with these captures, one for each
/// port.
#[tactic(auto, using(crate::proofs::Reached::exit_is))]
pub fn part_by_crossbar<R: Threads + Sync, G: Gate>(
    rt: &R,
    alloc: Global,
    tables: &Tables,
    captures: &[Capture],
    slots: u64,
    gate: &G,
) -> Result<Vec<u8>, Halt>
    requires tables { AreTables tables.now }
    requires captures { length captures.now ≡ ports_of tables.now.setup }
    requires slots { slots < 2 ^ 63 }
    ensures given { OnOk result (AreGiven tables.now captures.now) }
    ensures text { IfOk result (λ text. IsPartText tables.now captures.now slots text.items) }
    ensures refused { IfErr result (IsPartHalt tables.now captures.now slots) }
{
    let schedule = Schedule::of(rt, alloc, captures, tables)?;
    let (t0, total) = (schedule.t0(), schedule.total());
    let parted = part_fabric(rt, alloc, tables, &schedule, slots, gate);
    drop(schedule);
    let parted = parted?;
    let text = text_of_parted(alloc, tables, &parted, t0, total);
    drop(parted);
    text
}

// The text of the state of a run that stopped, over a schedule of so many cells that begins at this stamp.
#[tactic(auto, using(crate::proofs::Reached::exit_is))]
fn text_of_parted(
    alloc: Global,
    tables: &Tables,
    parted: &Parted,
    t0: u64,
    total: u64,
) -> Result<Vec<u8>, Halt>
    requires tables { AreTables tables.now }
    requires ports { length parted.now.frozen.lists ≡ ports_of tables.now.setup }
    ensures text { (captures : List (List Captured)) (slots : ℕ) →
        t0 ≡ (schedule_of tables.now captures).t0 → total ≡ length (schedule_of tables.now captures).came →
        IsPartedAt tables.now captures slots (taken_at parted.now) →
        IfOk result (λ text. IsPartText tables.now captures slots text.items) }
    ensures refused { (captures : List (List Captured)) (slots : ℕ) →
        t0 ≡ (schedule_of tables.now captures).t0 → total ≡ length (schedule_of tables.now captures).came →
        IsPartedAt tables.now captures slots (taken_at parted.now) →
        IfErr result (IsPartHalt tables.now captures slots) }
{
    let classes = tables.setup.classes.as_slice().len() as u16;
    Ok(state_bytes(
        alloc,
        &parted.frozen,
        parted.sent.items(),
        parted.note.items(),
        t0,
        classes,
        total,
    )?)
}

/// What the crossbar switch does with these captures, one for each port, where it goes on from the state of this text.
/// What it did before stands ahead of it.
#[tactic(auto, using(crate::proofs::Reached::exit_is))]
pub fn resume_by_crossbar<R: Threads + Sync, G: Gate>(
    rt: &R,
    alloc: Global,
    tables: &Tables,
    captures: &[Capture],
    text: Sequence<u8>,
    gate: &G,
) -> Result<Crossed, Halt>
    requires tables { AreTables tables.now }
    requires captures { length captures.now ≡ ports_of tables.now.setup }
    ensures resumed { IfOk result (IsResumedBy tables.now captures.now text) }
    ensures refused { IfErr result (IsResumeHalt tables.now captures.now text) }
{
    let schedule = Schedule::of(rt, alloc, captures, tables)?;
    let t0 = schedule.t0();
    let run = resume_by_schedule(rt, alloc, tables, &schedule, text, gate);
    drop(schedule);
    Ok(Crossed { run: run?, t0 })
}

// What it does over the schedule of these captures.
#[tactic(auto, using(crate::proofs::Reached::exit_is))]
fn resume_by_schedule<R: Threads + Sync, G: Gate>(
    rt: &R,
    alloc: Global,
    tables: &Tables,
    schedule: &Schedule,
    text: Sequence<u8>,
    gate: &G,
) -> Result<PackedFabricRun, Halt>
    requires fit { IsScheduleFor tables.now schedule.now }
    requires made { IsScheduleOf tables.now schedule.now }
    ensures resumed { (captures : List (List Captured)) → schedule.now ≡ schedule_of tables.now captures →
        AreGiven tables.now captures →
        IfOk result (λ run. IsResumedBy tables.now captures text (record { run = run; t0 = schedule.now.t0 })) }
    ensures refused { (captures : List (List Captured)) → schedule.now ≡ schedule_of tables.now captures →
        IfErr result (IsResumeHalt tables.now captures text) }
{
    let taken = read_out(alloc, text, tables, schedule)?;
    let run = resume_fabric(rt, alloc, tables, schedule, &taken, gate);
    drop(taken);
    Ok(run?)
}

// The stopped run that this text tells. The text is given up, since the run that goes on from there needs it no more.
fn read_out(
    alloc: Global,
    text: Sequence<u8>,
    tables: &Tables,
    schedule: &Schedule,
) -> Result<Taken, StateRefusal>
    requires tables { AreTables tables.now }
    requires schedule { IsScheduleOf tables.now schedule.now }
    ensures read { IfOk result (IsRead (switch_of tables.now schedule.now) text) }
    ensures cause { IfErr result (IsRefusal (switch_of tables.now schedule.now) text) }
{
    read_state(alloc, text.as_slice(), tables, schedule)
}

impl From<StateLong> for Halt {
    ghost from_gives = { λ refusal halt. halt ≡ halt_for_text refusal };

    fn from(refusal: StateLong) -> Self {
        match refusal {
            StateLong::Long => state_refused(StateFault::Long),
            StateLong::NoMemory => Halt::NoMemory,
        }
    }
}

impl From<StateRefusal> for Halt {
    ghost from_gives = { λ refusal halt. halt ≡ halt_for_state refusal };

    fn from(refusal: StateRefusal) -> Self {
        match refusal {
            StateRefusal::Text { line } => state_refused(StateFault::Line { line }),
            StateRefusal::Shape => state_refused(StateFault::Shape),
            StateRefusal::Unsound { clause } => state_refused(StateFault::Unsound { clause }),
            StateRefusal::NoMemory => Halt::NoMemory,
        }
    }
}

// The halt where something is wrong with the state.
fn state_refused(fault: StateFault) -> Halt
    ensures { result ≡ Halt.Refused (Refusal.State fault) }
{
    Halt::Refused {
        refusal: Refusal::State { fault },
    }
}
