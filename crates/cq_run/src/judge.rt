//! Judging what the words name. Nothing is written here.
//!
//! What a command owns it lends to its last call, and drops by name behind it: this is one step of a proof, where the
//! end of a scope is one for each field.
ghost use Rattle.std.specs.Prelude.{◌≡◌, ℕ, ◌≤◌, ◌<◌, ◌^◌, ◌⊎◌, List, ◌∷◌, [], All, Err, IfErr, IfOk, IsOk, Ok, length};
ghost use Rattle.std.specs.Int.{IsInRange};
ghost use Rattle.cq_run.specs.Terms.{Closed, StopsInTime, command_asking, Fails, Reads, Judges, tables_in, checked, AreGiven, AreTables, audited, ports_of, file_alone, IsPartHalt, IsPartText, soak_captures, soak_tables, plain_tables, Meets, Reporting, IsJudged, IsHaltOf, Ahead, InTurn, IsGiven, IsResumeHalt, IsResuming, IsWithinRange, IsCrossing, IsIdeal, IsPassing, ideally_sent, most_ports, most_soak_slots, report_with};

use crate::ahead::stream_from;
use crate::build::{
    build_check, build_crossed, build_file, build_passed, build_report, build_switched, build_yes,
};
use crate::parting::{part_by_crossbar, resume_by_crossbar};
use crate::plan::Work;
use crate::reading::{read_configuration, read_input, read_inputs, read_stopped, read_text};
use crate::switching::{Crossed, audit_texts, switch_by_crossbar, switch_ideally};
use crate::{Command, Denial, Halt};
use cq_base::{Name, NoMemory, Sequence};
use cq_crew::Gate;
use cq_gen::{Soak, make};
use cq_pcap::Capture;
use cq_route::Tables;
use cq_space::Files;
use cq_stream::Watch;
use std::alloc::Global;
use std::sync::Wait;
use std::thread::Threads;

/// What a command comes to: the work to be done, with all its bytes, or the first refusal or denial. It reads
/// only, and leaves the file space closed. The gate is told of the workers' steps, and changes no answer. The
/// clauses hold for any reader of captures that goes by the grammar.
#[tactic(auto, using(crate::proofs::Planned::judged_as))]
pub fn judge<R: Threads + Sync, F: Files, G: Gate>(
    rt: &R,
    alloc: Global,
    files: &mut F,
    command: Command,
    gate: &G,
) -> Result<Work, Halt>
    requires closed { (F.space files.old).mode ≡ Closed }
    requires range { IsWithinRange command }
    ensures { IsJudged F.space F.may_fail F.unbegun InTurn command files.old files.new result }
{
    match command {
        Command::Pass { from, to } => pass(rt, alloc, files, from, to, gate),
        Command::Check { config } => check(alloc, files, config),
        Command::Ideal { config } => judge_configured(rt, alloc, files, config, Asked::Ideal, gate),
        Command::Run { config } => judge_configured(rt, alloc, files, config, Asked::Run, gate),
        Command::Soak { seed, ports, slots } => soak(rt, alloc, seed, ports, slots, gate),
        Command::Audit { config } => judge_configured(rt, alloc, files, config, Asked::Audit, gate),
        Command::Part {
            config,
            slots,
            state,
        } => judge_configured(rt, alloc, files, config, Asked::Part { slots, state }, gate),
        Command::Resume { config, state } => {
            judge_configured(rt, alloc, files, config, Asked::Resume { state }, gate)
        }
    }
}

#[tactic(auto, using(crate::proofs::Planned::capture_steps))]
fn pass<R: Threads + Sync, F: Files, G: Gate>(
    rt: &R,
    alloc: Global,
    files: &mut F,
    from: Name,
    to: Name,
    gate: &G,
) -> Result<Work, Halt>
    requires { (F.space files.old).mode ≡ Closed }
    ensures { IsJudged F.space F.may_fail F.unbegun InTurn (Command.Pass from to) files.old files.new result }
{
    let tables = Tables::plain(alloc, from.text(), to.text())?;
    let work = pass_over(rt, alloc, files, &tables, from, to, gate);
    drop(tables);
    work
}

// The same, over the tables of a plain switch between these names.
#[tactic(auto, unfolding(cq_route::specs::Plain::plain_tables))]
fn pass_over<R: Threads + Sync, F: Files, G: Gate>(
    rt: &R,
    alloc: Global,
    files: &mut F,
    tables: &Tables,
    from: Name,
    to: Name,
    gate: &G,
) -> Result<Work, Halt>
    requires closed { (F.space files.old).mode ≡ Closed }
    requires plain { tables.now ≡ plain_tables from to }
    requires tables { AreTables tables.now }
    ensures { IsJudged F.space F.may_fail F.unbegun InTurn (Command.Pass from to) files.old files.new result }
{
    let capture = read_input(alloc, files, from, 0, tables.limit_bytes)?;
    pass_on(rt, alloc, tables, capture, to, gate)
}

// What the crossbar switch of one port makes of this capture, with all its bytes.
#[tactic(auto, using(crate::proofs::Reached::exit_is))]
fn pass_on<R: Threads + Sync, G: Gate>(
    rt: &R,
    alloc: Global,
    tables: &Tables,
    capture: Capture,
    to: Name,
    gate: &G,
) -> Result<Work, Halt>
    requires tables { AreTables tables.now }
    requires port { ports_of tables.now.setup ≡ 1 }
    ensures passing { IfOk result (IsPassing tables.now capture to) }
    ensures refused { IfErr result (IsHaltOf (ideally_sent tables.now (capture ∷ []))) }
{
    let captures = alone(alloc, capture)?;
    let crossed = switch_by_crossbar(rt, alloc, tables, captures.as_slice(), gate)?;
    Ok(build_passed(alloc, tables, captures, crossed.into_switched(), to)?)
}

// The captures of a switch of one port.
fn alone(alloc: Global, capture: Capture) -> Result<Sequence<Capture>, NoMemory>
    ensures { IfOk result (λ captures. captures ≡ capture ∷ []) }
{
    Ok(Sequence::of(Vec::from_array(alloc, [capture])?))
}

fn check<F: Files>(alloc: Global, files: &mut F, config: Name) -> Result<Work, Halt>
    requires { (F.space files.old).mode ≡ Closed }
    ensures { IsJudged F.space F.may_fail F.unbegun InTurn (Command.Check config) files.old files.new result }
{
    let tables = read_configuration(alloc, files, config)?;
    let work = say_check(alloc, &tables);
    drop(tables);
    work
}

// The line that says what is in these tables.
fn say_check(alloc: Global, tables: &Tables) -> Result<Work, Halt>
    ensures checked { IfOk result (λ plan. plan ≡ checked tables.now) }
    ensures memory { IfErr result (λ halt. halt ≡ Halt.NoMemory) }
{
    Ok(build_check(alloc, tables)?)
}

// What is asked of a configuration and the captures that it names.
#[derive(Drop)]
enum Asked {
    // What the ideal switch sends.
    Ideal,
    // What the crossbar switch does.
    Run,
    // Whether its trace and its log are those of a switch.
    Audit,
    // The state after so many slots, under this name.
    Part { slots: u64, state: Name },
    // What the crossbar switch does from the state of this name on.
    Resume { state: Name },
}

// What a command comes to that asks this of a configuration.
#[tactic(auto, using(crate::proofs::Planned::tables_steps))]
fn judge_configured<R: Threads + Sync, F: Files, G: Gate>(
    rt: &R,
    alloc: Global,
    files: &mut F,
    config: Name,
    asked: Asked,
    gate: &G,
) -> Result<Work, Halt>
    requires closed { (F.space files.old).mode ≡ Closed }
    requires slots { StopsInTime asked }
    ensures { IsJudged F.space F.may_fail F.unbegun InTurn (command_asking config asked) files.old files.new result }
{
    let tables = read_configuration(alloc, files, config)?;
    let work = judge_tables(rt, alloc, files, &tables, asked, gate);
    drop(tables);
    work
}

// The same, over the tables of the configuration: the captures of their ports are read next.
fn judge_tables<R: Threads + Sync, F: Files, G: Gate>(
    rt: &R,
    alloc: Global,
    files: &mut F,
    tables: &Tables,
    asked: Asked,
    gate: &G,
) -> Result<Work, Halt>
    requires closed { (F.space files.old).mode ≡ Closed }
    requires tables { AreTables tables.now }
    requires slots { StopsInTime asked }
    ensures { (config : List ℕ) (start : F) → F.unbegun start files.old →
        Judges InTurn (tables_in config)
        (λ name. (name ≡ config) × Fails F.space F.may_fail F.unbegun (Reads name) start files.old)
        (F.space start) (F.space files.old) (Ok tables.now) →
        IsJudged F.space F.may_fail F.unbegun InTurn (command_asking config asked) start files.new result }
{
    let captures = read_inputs(alloc, files, tables)?;
    judge_captures(rt, alloc, files, tables, captures, asked, gate)
}

// The same, of what the configuration gave. What more a command reads is read next. The captures are given up on the
// way.
fn judge_captures<R: Threads + Sync, F: Files, G: Gate>(
    rt: &R,
    alloc: Global,
    files: &mut F,
    tables: &Tables,
    captures: Sequence<Capture>,
    asked: Asked,
    gate: &G,
) -> Result<Work, Halt>
    requires closed { (F.space files.old).mode ≡ Closed }
    requires tables { AreTables tables.now }
    requires captures { length captures ≡ ports_of tables.now.setup }
    requires slots { StopsInTime asked }
    ensures { (config : List ℕ) (start : F) →
        IsGiven F.space F.unbegun config start files.old (record { tables = tables.now; captures = captures }) →
        IsJudged F.space F.may_fail F.unbegun InTurn (command_asking config asked) start files.new result }
{
    match asked {
        Asked::Ideal => send_ideally(rt, alloc, tables, captures),
        Asked::Run => cross(rt, alloc, tables, captures, gate),
        Asked::Audit => {
            let work = audit(rt, alloc, files, tables, captures.as_slice());
            drop(captures);
            work
        }
        Asked::Part { slots, state } => part(rt, alloc, tables, captures, slots, state, gate),
        Asked::Resume { state } => {
            let text = read_stopped(alloc, files, state)?;
            go_on(rt, alloc, tables, captures, text, gate)
        }
    }
}

// What the ideal switch makes of these captures, one for each port, with all its bytes. The captures are given up on
// the way.
#[tactic(auto, using(crate::proofs::Planned::crossed_steps))]
fn send_ideally<R: Threads + Sync>(
    rt: &R,
    alloc: Global,
    tables: &Tables,
    captures: Sequence<Capture>,
) -> Result<Work, Halt>
    requires tables { AreTables tables.now }
    requires captures { length captures ≡ ports_of tables.now.setup }
    ensures ideal { IfOk result (IsIdeal tables.now captures) }
    ensures refused { IfErr result (IsHaltOf (ideally_sent tables.now captures)) }
{
    let switched = switch_ideally(rt, alloc, tables, captures.as_slice())?;
    Ok(build_switched(alloc, tables, captures, switched)?)
}

/// What `run` comes to for a configuration, or its first refusal, where captures are decoded by readers ahead of
/// judging. The watch is told of each that begins, and changes no answer.
#[tactic(auto, using(crate::proofs::Planned::tables_steps))]
pub fn run_ahead<R, F: Files, G: Gate, W: Watch + 'static>(
    rt: R,
    alloc: Global,
    files: &mut F,
    config: Name,
    gate: &G,
    watch: &W,
) -> Result<Work, Halt>
where
    R: Threads + Wait + Sync + Copy + Send + 'static,
    requires closed { (F.space files.old).mode ≡ Closed }
    ensures { IsJudged F.space F.may_fail F.unbegun Ahead (Command.Run config) files.old files.new result }
{
    let tables = read_configuration(alloc, files, config)?;
    let work = cross_ahead(rt, alloc, files, &tables, gate, watch);
    drop(tables);
    work
}

// The same, over the tables of the configuration: the captures of their ports are read next.
fn cross_ahead<R, F: Files, G: Gate, W: Watch + 'static>(
    rt: R,
    alloc: Global,
    files: &mut F,
    tables: &Tables,
    gate: &G,
    watch: &W,
) -> Result<Work, Halt>
where
    R: Threads + Wait + Sync + Copy + Send + 'static,
    requires closed { (F.space files.old).mode ≡ Closed }
    requires tables { AreTables tables.now }
    ensures { (config : List ℕ) (start : F) → F.unbegun start files.old →
        Judges InTurn (tables_in config)
        (λ asked. (asked ≡ config) × Fails F.space F.may_fail F.unbegun (Reads asked) start files.old)
        (F.space start) (F.space files.old) (Ok tables.now) →
        IsJudged F.space F.may_fail F.unbegun Ahead (Command.Run config) start files.new result }
{
    let rows = tables.ports.as_slice();
    let captures = stream_from(rt, alloc, files, tables, rows, 0, watch)?;
    cross(&rt, alloc, tables, captures, gate)
}

// What the crossbar switch makes of these captures, one for each port, with all its bytes. The captures are given up
// on the way.
#[tactic(auto, using(crate::proofs::Planned::crossed_steps), unfolding(crate::specs::Plan::crossed))]
fn cross<R: Threads + Sync, G: Gate>(
    rt: &R,
    alloc: Global,
    tables: &Tables,
    captures: Sequence<Capture>,
    gate: &G,
) -> Result<Work, Halt>
    requires tables { AreTables tables.now }
    requires captures { length captures ≡ ports_of tables.now.setup }
    ensures crossing { IfOk result (IsCrossing tables.now captures) }
    ensures refused { IfErr result (IsHaltOf (ideally_sent tables.now captures)) }
{
    let crossed = switch_by_crossbar(rt, alloc, tables, captures.as_slice(), gate)?;
    Ok(build_crossed(alloc, tables, captures, crossed)?)
}

fn soak<R: Threads + Sync, G: Gate>(
    rt: &R,
    alloc: Global,
    seed: u64,
    ports: u16,
    slots: u32,
    gate: &G,
) -> Result<Work, Halt>
    requires ports { IsInRange 1 most_ports ports }
    requires slots { IsInRange 1 most_soak_slots slots }
    ensures meets { IfOk result (λ plan. Meets (Reporting (soak_tables ports) (soak_captures seed ports slots)) plan) }
    ensures writes { IfOk result (λ plan. plan.writes ≡ []) }
    ensures sent { IfOk result (λ _. IsOk (ideally_sent (soak_tables ports) (soak_captures seed ports slots))) }
    ensures refused { IfErr result (IsHaltOf (ideally_sent (soak_tables ports) (soak_captures seed ports slots))) }
{
    let soak = make(alloc, seed, ports, slots)?;
    let work = report_on(rt, alloc, &soak, gate);
    drop(soak);
    work
}

// The report of what the crossbar switch makes of this traffic.
#[tactic(auto, unfolding(crate::specs::Plan::reported))]
fn report_on<R: Threads + Sync, G: Gate>(
    rt: &R,
    alloc: Global,
    soak: &Soak,
    gate: &G,
) -> Result<Work, Halt>
    requires tables { AreTables soak.now.tables }
    requires captures { length soak.now.captures.items ≡ ports_of soak.now.tables.setup }
    ensures meets { IfOk result (λ plan. Meets (Reporting soak.now.tables soak.now.captures.items) plan) }
    ensures writes { IfOk result (λ plan. plan.writes ≡ []) }
    ensures sent { IfOk result (λ _. IsOk (ideally_sent soak.now.tables soak.now.captures.items)) }
    ensures refused { IfErr result (IsHaltOf (ideally_sent soak.now.tables soak.now.captures.items)) }
{
    let crossed = switch_by_crossbar(rt, alloc, &soak.tables, &soak.captures, gate)?;
    let work = report_of(alloc, &crossed);
    drop(crossed);
    work
}

// The report of what the crossbar switch did.
fn report_of(alloc: Global, crossed: &Crossed) -> Result<Work, Halt>
    requires { All (λ x. x.cells ≤ crossed.now.run.figures.slots) crossed.now.run.figures.outputs }
    ensures writes { IfOk result (λ plan. plan.writes ≡ []) }
    ensures text { IfOk result (λ plan.
        plan.text ≡ report_with crossed.now.run.figures crossed.now.run.refused.items) }
    ensures memory { IfErr result (λ halt. halt ≡ Halt.NoMemory) }
{
    Ok(build_report(alloc, &crossed.run.figures, &crossed.run.refused)?)
}

// What an audit comes to of these captures, one for each port: the trace and the log are read next.
fn audit<R: Threads + Sync, F: Files>(
    rt: &R,
    alloc: Global,
    files: &mut F,
    tables: &Tables,
    captures: &[Capture],
) -> Result<Work, Halt>
    requires closed { (F.space files.old).mode ≡ Closed }
    requires tables { AreTables tables.now }
    requires captures { length captures.now ≡ ports_of tables.now.setup }
    ensures { (config : List ℕ) (start : F) →
        IsGiven F.space F.unbegun config start files.old (record { tables = tables.now; captures = captures.now }) →
        IsJudged F.space F.may_fail F.unbegun InTurn (Command.Audit config) start files.new result }
{
    let trace = read_text(alloc, files, &tables.trace, Denial::LongTrace)?;
    let log = read_text(alloc, files, &tables.log, Denial::LongLog)?;
    let done = audit_texts(
        rt,
        alloc,
        tables,
        captures,
        trace.as_slice(),
        log.as_slice(),
    );
    drop(log);
    drop(trace);
    answer_yes(alloc, done)
}

// The yes of an audit, where it is done without a no.
#[tactic(auto, using(crate::proofs::Reached::exit_is))]
fn answer_yes(alloc: Global, done: Result<(), Halt>) -> Result<Work, Halt>
    ensures yes { IfOk result (λ plan. IsOk done × (plan ≡ audited)) }
    ensures no { IfErr result (λ halt. (done ≡ Err halt) ⊎ (halt ≡ Halt.NoMemory)) }
{
    done?;
    Ok(build_yes(alloc)?)
}

// The text of the state in which the crossbar switch stands after so many slots with these captures, one for each
// port, under this name.
fn part<R: Threads + Sync, G: Gate>(
    rt: &R,
    alloc: Global,
    tables: &Tables,
    captures: Sequence<Capture>,
    slots: u64,
    state: Name,
    gate: &G,
) -> Result<Work, Halt>
    requires tables { AreTables tables.now }
    requires captures { length captures ≡ ports_of tables.now.setup }
    requires slots { slots < 2 ^ 63 }
    ensures are_given { IfOk result (λ _. AreGiven tables.now captures) }
    ensures text { IfOk result (λ plan. (text : List ℕ)
        × IsPartText tables.now captures slots text × (plan ≡ file_alone state text)) }
    ensures refused { IfErr result (IsPartHalt tables.now captures slots) }
{
    let text = part_by_crossbar(rt, alloc, tables, captures.as_slice(), slots, gate);
    drop(captures);
    Ok(build_file(alloc, state, text?)?)
}

// What the crossbar switch makes of these captures, one for each port, where it goes on from the state of this text.
// The captures are given up on the way, and the text once it is read.
#[tactic(auto, using(crate::proofs::Reached::exit_is), unfolding(crate::specs::Plan::resumed))]
fn go_on<R: Threads + Sync, G: Gate>(
    rt: &R,
    alloc: Global,
    tables: &Tables,
    captures: Sequence<Capture>,
    text: Sequence<u8>,
    gate: &G,
) -> Result<Work, Halt>
    requires tables { AreTables tables.now }
    requires captures { length captures ≡ ports_of tables.now.setup }
    ensures resuming { IfOk result (IsResuming tables.now captures text) }
    ensures refused { IfErr result (IsResumeHalt tables.now captures text) }
{
    let crossed = resume_by_crossbar(rt, alloc, tables, captures.as_slice(), text, gate)?;
    Ok(build_crossed(alloc, tables, captures, crossed)?)
}
