//! Building the bytes that a command comes to. Here nothing is read and nothing is written. The error of each call is
//! want of memory.
ghost use Rattle.std.specs.Prelude.{◌≡◌, ◌∷◌, ◌++◌, ◌≤◌, [], All, IfOk, OnOk, length};
ghost use Rattle.cq_run.specs.Terms.{HaveLeftOf, audited, capture_out, captures_out, check_line, checked, counted, file_alone, switched, under_names, yes_line, report_with, log_of, trace_of};

use crate::plan::{Work, Write};
use crate::switching::{Crossed, Switched};
use cq_base::{Figures, MOST_DIGITS, Name, NoMemory, Room, Sequence, Supply, Transfer, digits};
use cq_pcap::Capture;
use cq_report::{log_text_of_room, report_text, trace_text_of_packed};
use cq_route::{PortRow, Tables};
use cq_simulate::{Packing, Refused};
use std::alloc::Global;

/// The line that says what is in a configuration.
pub fn build_check(alloc: Global, tables: &Tables) -> Result<Work, NoMemory>
    ensures { IfOk result (λ plan. plan ≡ checked tables.now) }
{
    let text = check_text(alloc, tables)?;
    Ok(Work::of(Vec::new(alloc), text))
}

/// The answer of an audit that says yes. Nothing is written.
pub fn build_yes(alloc: Global) -> Result<Work, NoMemory>
    ensures { IfOk result (λ plan. plan ≡ audited) }
{
    let text = yes_text(alloc)?;
    Ok(Work::of(Vec::new(alloc), text))
}

#[tactic(auto, unfolding(crate::specs::Plan::yes_line))]
fn yes_text(alloc: Global) -> Result<Vec<u8>, NoMemory>
    ensures { IfOk result (λ text. text.items ≡ yes_line) }
{
    let mut text = Vec::new(alloc);
    text.extend_from_slice(b"audit yes")?;
    text.push(b'\n')?;
    Ok(text)
}

#[tactic(auto, unfolding(crate::specs::Plan::check_line))]
fn check_text(alloc: Global, tables: &Tables) -> Result<Vec<u8>, NoMemory>
    ensures { IfOk result (λ text. text.items ≡ check_line tables.now) }
{
    let mut text = Vec::new(alloc);
    put_counted(&mut text, b"ok ports ", tables.setup.kinds.as_slice().len())?;
    put_counted(
        &mut text,
        b" classes ",
        tables.setup.classes.as_slice().len(),
    )?;
    put_counted(&mut text, b" addresses ", tables.addresses.as_slice().len())?;
    put_counted(&mut text, b" rules ", tables.rules.as_slice().len())?;
    text.push(b'\n')?;
    Ok(text)
}

// A name and a number behind it.
fn put_counted(text: &mut Vec<u8>, name: &[u8], count: usize) -> Result<(), NoMemory>
    ensures { OnOk result (text.new.items ≡ text.old.items ++ counted name.now count) }
{
    let mut places = [0u8; MOST_DIGITS];
    let used = digits(count as u128, &mut places);
    text.extend_from_slice(name)?;
    text.extend_from_slice(&places[..used])?;
    Ok(())
}

/// What leaves the one output of a switch of one port, under this name.
#[tactic(auto, using(crate::proofs::Crossed::some_left))]
pub fn build_passed(
    alloc: Global,
    tables: &Tables,
    captures: Sequence<Capture>,
    run: Switched,
    to: Name,
) -> Result<Work, NoMemory>
    requires { HaveLeftOf tables.now captures run.sent.items run.t0 }
    ensures { IfOk result (λ plan. plan ≡ file_alone to (capture_out tables.now captures run.sent.items 0)) }
{
    let mut places = run.into_packets(alloc, tables, captures)?;
    let Some(place) = places.pop_first() else {
        unreachable!()
    };
    build_file(alloc, to, place.bytes)
}

/// What leaves each output of a switch, and the trace of its run.
#[tactic(auto, unfolding(crate::specs::Plan::switched))]
pub fn build_switched(
    alloc: Global,
    tables: &Tables,
    captures: Sequence<Capture>,
    run: Switched,
) -> Result<Work, NoMemory>
    requires { HaveLeftOf tables.now captures run.sent.items run.t0 }
    ensures { IfOk result (λ plan. plan ≡ switched tables.now captures run.sent.items) }
{
    let writes = build_traced(alloc, tables, captures, run)?;
    Ok(Work::of(writes, Vec::new(alloc)))
}

/// What leaves each output of the crossbar switch, the trace and the log of its run, and its report.
pub fn build_crossed(
    alloc: Global,
    tables: &Tables,
    captures: Sequence<Capture>,
    crossed: Crossed,
) -> Result<Work, NoMemory>
    requires left { HaveLeftOf tables.now captures crossed.run.sent.items crossed.t0 }
    requires reportable { All (λ x. x.cells ≤ crossed.run.figures.slots) crossed.run.figures.outputs }
    ensures writes { IfOk result (λ plan. plan.writes
        ≡ captures_out tables.now captures crossed.run.sent.items 0 tables.now.ports
        ++ (tables.now.trace, trace_of crossed.run.sent.items) ∷ (tables.now.log, log_of crossed.run.note.items)
        ∷ []) }
    ensures text { IfOk result (λ plan. plan.text ≡ report_with crossed.run.figures crossed.run.refused.items) }
{
    let Crossed { run, t0 } = crossed;
    let sent = Switched { sent: run.sent, t0 };
    build_logged(
        alloc,
        tables,
        captures,
        sent,
        run.note,
        &run.figures,
        &run.refused,
    )
}

// The same, of the parts of what the switch did. The log comes first, since it uses up the transfers.
fn build_logged(
    alloc: Global,
    tables: &Tables,
    captures: Sequence<Capture>,
    run: Switched,
    note: Room<Transfer>,
    figures: &Figures,
    refused: &[Refused],
) -> Result<Work, NoMemory>
    requires left { HaveLeftOf tables.now captures run.sent.items run.t0 }
    requires reportable { All (λ x. x.cells ≤ figures.now.slots) figures.now.outputs }
    ensures writes { IfOk result (λ plan. plan.writes
        ≡ captures_out tables.now captures run.sent.items 0 tables.now.ports
        ++ (tables.now.trace, trace_of run.sent.items) ∷ (tables.now.log, log_of note.items) ∷ []) }
    ensures text { IfOk result (λ plan. plan.text ≡ report_with figures.now refused.now) }
{
    let log = log_text_of_room(alloc, note)?;
    let mut writes = build_traced(alloc, tables, captures, run)?;
    put_write(alloc, &mut writes, &tables.log, log)?;
    Ok(Work::of(writes, report_text(alloc, figures, refused)?))
}

/// These bytes, under this name, and nothing else.
pub fn build_file(alloc: Global, name: Name, bytes: Vec<u8>) -> Result<Work, NoMemory>
    ensures { IfOk result (λ plan. plan ≡ file_alone name bytes.items) }
{
    let writes = Vec::from_array(alloc, [Write::of(name, bytes)])?;
    Ok(Work::of(writes, Vec::new(alloc)))
}

/// The report of a run, where nothing else is written.
pub fn build_report(alloc: Global, figures: &Figures, refused: &[Refused]) -> Result<Work, NoMemory>
    requires { All (λ x. x.cells ≤ figures.now.slots) figures.now.outputs }
    ensures writes { IfOk result (λ plan. plan.writes ≡ []) }
    ensures text { IfOk result (λ plan. plan.text ≡ report_with figures.now refused.now) }
{
    Ok(Work::of(Vec::new(alloc), report_text(alloc, figures, refused)?))
}

// The captures of what leaves each output, each under its name, and the trace behind them. The trace is told first,
// since the captures use up the departures.
#[tactic(auto, using(crate::proofs::Crossed::packed_under))]
fn build_traced(
    alloc: Global,
    tables: &Tables,
    captures: Sequence<Capture>,
    run: Switched,
) -> Result<Vec<Write>, NoMemory>
    requires { HaveLeftOf tables.now captures run.sent.items run.t0 }
    ensures { IfOk result (λ writes. writes.items
        ≡ captures_out tables.now captures run.sent.items 0 tables.now.ports
        ++ (tables.now.trace, trace_of run.sent.items) ∷ []) }
{
    let trace = trace_text_of_packed(alloc, run.sent.as_slice())?;
    let places = run.into_packets(alloc, tables, captures)?;
    let mut writes = build_captures(alloc, tables.ports.as_slice(), places)?;
    put_write(alloc, &mut writes, &tables.trace, trace)?;
    Ok(writes)
}

// The captures of the outputs, each under its name in the row of its port, with room for two writes more.
fn build_captures(
    alloc: Global,
    rows: &[PortRow],
    mut places: Supply<Packing>,
) -> Result<Vec<Write>, NoMemory>
    requires { length rows.now ≤ length places }
    ensures { IfOk result (λ writes. writes.items ≡ under_names rows.now places) }
{
    let mut writes = Vec::with_capacity(alloc, rows.len() + 2)?;
    let done = put_captures(alloc, &mut writes, rows, &mut places);
    drop(places);
    done?;
    Ok(writes)
}

// Those captures behind what is to be written already. They are used up.
fn put_captures(
    alloc: Global,
    writes: &mut Vec<Write>,
    rows: &[PortRow],
    places: &mut Supply<Packing>,
) -> Result<(), NoMemory>
    requires { length rows.now ≤ length places.old }
    ensures { OnOk result (writes.new.items ≡ writes.old.items ++ under_names rows.now places.old) }
{
    'ports: for row in rows {
        let Some(place) = places.pop_first() else {
            unreachable!()
        };
        put_write(alloc, writes, &row.write, place.bytes)?;
    }
    Ok(())
}

// One more name that is to have these bytes, behind the others.
fn put_write(
    alloc: Global,
    writes: &mut Vec<Write>,
    name: &Name,
    bytes: Vec<u8>,
) -> Result<(), NoMemory>
    ensures { OnOk result (writes.new.items ≡ writes.old.items ++ (name.now, bytes.items) ∷ []) }
{
    writes.push(Write::of(Name::of(alloc, name.text())?, bytes))?;
    Ok(())
}
