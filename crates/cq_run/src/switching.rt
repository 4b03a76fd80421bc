//! Running a switch over the captures that were read. The error of each call is why the run halts: a rank does not fit,
//! an audit says no, or memory ran out.
//!
//! What a function owns it lends to its last call, and drops by name behind it, as in `judge`.
ghost use Rattle.std.specs.Prelude.{◌≡◌, ◌≤◌, List, All, IfOk, IfErr, Ok, OnOk, length};
ghost use Rattle.cq_run.specs.Terms.{ArePacked, AreTables, Captured, HaveLeftOf, Departure, IsScheduleFor, ideal_departures, schedule_of, sent_or_tag, trace_of, ports_of, IsAuditHalted, IsAuditPassed, IsHaltOf, IsCrossed, IsSwitched, sent_by, ideally_sent, halt_for_log, halt_of};

use crate::{Denial, Halt, Refusal};
use cq_audit::{AuditRefusal, audit_log, audit_trace};
use cq_base::{Departures, NoMemory, Sequence, Supply};
use cq_cells::Schedule;
use cq_crew::Gate;
use cq_pcap::Capture;
use cq_report::trace_text_of_packed;
use cq_route::Tables;
use cq_simulate::{
    PackedFabricRun, Packing, RunRefusal, packets_of_all, run_fabric_packed, run_ideal_packed,
};
use std::alloc::Global;
use std::thread::Threads;

/// What was sent, and from when its slots are counted.
#[derive(Drop)]
pub struct Switched {
    /// The departures, in order of slot, then output.
    pub sent: Departures,
    /// The stamp from which slots are counted, in nanoseconds.
    pub t0: u64,
}

impl Switched {
    /// What leaves each output, in order. The departures are used up while the captures of the outputs grow, and then
    /// the captures that were read are given up.
    pub fn into_packets(
        self,
        alloc: Global,
        tables: &Tables,
        captures: Sequence<Capture>,
    ) -> Result<Supply<Packing>, NoMemory>
        requires { HaveLeftOf tables.now captures self.sent.items self.t0 }
        ensures { IfOk result (ArePacked tables.now captures self.sent.items) }
    {
        let Switched { sent, t0 } = self;
        let places = packets_of_all(alloc, sent, captures.as_slice(), tables, t0);
        drop(captures);
        Ok(Supply::of(places?))
    }
}

/// What the crossbar switch did, and from when its slots are counted.
#[derive(Drop)]
pub struct Crossed {
    /// What it did.
    pub run: PackedFabricRun,
    /// The stamp from which slots are counted, in nanoseconds.
    pub t0: u64,
}

impl Crossed {
    /// What was sent. The rest is dropped.
    pub fn into_switched(self) -> Switched
        ensures { result ≡ sent_by self }
    {
        let Crossed { run, t0 } = self;
        Switched { sent: run.sent, t0 }
    }
}

/// What the ideal switch sends of these captures, one for each port.
pub fn switch_ideally<R: Threads + Sync>(
    rt: &R,
    alloc: Global,
    tables: &Tables,
    captures: &[Capture],
) -> Result<Switched, Halt>
    requires tables { AreTables tables.now }
    requires captures { length captures.now ≡ ports_of tables.now.setup }
    ensures switched { IfOk result (IsSwitched tables.now captures.now) }
    ensures refused { IfErr result (IsHaltOf (ideally_sent tables.now captures.now)) }
{
    let schedule = Schedule::of(rt, alloc, captures, tables)?;
    let t0 = schedule.t0();
    let sent = run_ideal_packed(alloc, tables, &schedule);
    drop(schedule);
    Ok(Switched { sent: sent?, t0 })
}

/// What the crossbar switch does with these captures, one for each port. It sends what the ideal switch
/// sends, whoever proposes first.
pub fn switch_by_crossbar<R: Threads + Sync, G: Gate>(
    rt: &R,
    alloc: Global,
    tables: &Tables,
    captures: &[Capture],
    gate: &G,
) -> Result<Crossed, Halt>
    requires tables { AreTables tables.now }
    requires captures { length captures.now ≡ ports_of tables.now.setup }
    ensures crossed { IfOk result (IsCrossed tables.now captures.now) }
    ensures reportable { IfOk result (λ crossed.
        All (λ x. x.cells ≤ crossed.run.figures.slots) crossed.run.figures.outputs) }
    ensures refused { IfErr result (IsHaltOf (ideally_sent tables.now captures.now)) }
{
    let schedule = Schedule::of(rt, alloc, captures, tables)?;
    let t0 = schedule.t0();
    let run = run_fabric_packed(rt, alloc, tables, &schedule, gate);
    drop(schedule);
    Ok(Crossed { run: run?, t0 })
}

/// Checks a log and a trace of any maker of what a switch does with these captures, one for each port. Ok comes where
/// the log is that of a stable run, and the trace is what the ideal switch sends.
#[tactic(auto, using(crate::proofs::Reached::exit_is))]
pub fn audit_texts<R: Threads + Sync>(
    rt: &R,
    alloc: Global,
    tables: &Tables,
    captures: &[Capture],
    trace: &[u8],
    log: &[u8],
) -> Result<(), Halt>
    requires tables { AreTables tables.now }
    requires captures { length captures.now ≡ ports_of tables.now.setup }
    ensures passed { OnOk result (IsAuditPassed tables.now captures.now trace.now log.now) }
    ensures halted { IfErr result (IsAuditHalted tables.now captures.now trace.now log.now) }
{
    let schedule = Schedule::of(rt, alloc, captures, tables)?;
    let done = audit_over(alloc, tables, &schedule, trace, log);
    drop(schedule);
    done
}

// The same, over the schedule of these captures.
#[tactic(auto, using(crate::proofs::Reached::exit_is))]
fn audit_over(
    alloc: Global,
    tables: &Tables,
    schedule: &Schedule,
    trace: &[u8],
    log: &[u8],
) -> Result<(), Halt>
    requires { IsScheduleFor tables.now schedule.now }
    ensures passed { (captures : List (List Captured)) → schedule.now ≡ schedule_of tables.now captures →
        OnOk result (IsAuditPassed tables.now captures trace.now log.now) }
    ensures halted { (captures : List (List Captured)) → schedule.now ≡ schedule_of tables.now captures →
        IfErr result (IsAuditHalted tables.now captures trace.now log.now) }
{
    let text = ideal_text(alloc, tables, schedule)?;
    audit_log(
        alloc,
        &tables.setup,
        tables.limits.as_slice(),
        schedule,
        log,
    )?;
    match audit_trace(trace, &text) {
        None => Ok(()),
        Some(line) => Err(denied(Denial::Trace { line })),
    }
}

// The trace of what the ideal switch sends. The departures are given up: as text they have a quarter of their bytes.
#[tactic(auto, using(crate::proofs::Reached::exit_is))]
fn ideal_text(alloc: Global, tables: &Tables, schedule: &Schedule) -> Result<Vec<u8>, Halt>
    requires { IsScheduleFor tables.now schedule.now }
    ensures text { IfOk result (λ text. (sent : List Departure)
        × (ideal_departures tables.now schedule.now.came ≡ Ok sent) × (text.items ≡ trace_of sent)) }
    ensures refused { IfErr result (IsHaltOf (sent_or_tag (ideal_departures tables.now schedule.now.came))) }
{
    let sent = run_ideal_packed(alloc, tables, schedule)?;
    let text = trace_text_of_packed(alloc, sent.as_slice());
    drop(sent);
    Ok(text?)
}

// The halt of an audit that says no.
fn denied(denial: Denial) -> Halt
    ensures { result ≡ Halt.Refused (Refusal.Audit denial) }
{
    Halt::Refused {
        refusal: Refusal::Audit { denial },
    }
}

impl From<AuditRefusal> for Halt {
    ghost from_gives = { λ refusal halt. halt ≡ halt_for_log refusal };

    fn from(refusal: AuditRefusal) -> Self {
        match refusal {
            AuditRefusal::NoMemory => Halt::NoMemory,
            _ => denied(Denial::Log(refusal)),
        }
    }
}

impl From<RunRefusal> for Halt {
    ghost from_gives = { λ refusal halt. halt ≡ halt_of refusal };

    fn from(refusal: RunRefusal) -> Self {
        match refusal {
            RunRefusal::Tag(fault) => Halt::Refused {
                refusal: Refusal::Tag { fault },
            },
            RunRefusal::NoMemory => Halt::NoMemory,
        }
    }
}
