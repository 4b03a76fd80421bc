//! A log and a trace that were worked by hand, and what is wrong with others.
ghost use Rattle.std.specs.Prelude.{◌≡◌, ◌≤◌, IfOk, length};
ghost use Rattle.cq_base.specs.Limits.{most_ports};
ghost use Rattle.cq_list.specs.InputList.{cells_of};
ghost use Rattle.cq_prefs.specs.FirstCells.{orders_of};
ghost use Rattle.cq_audit.specs.Phase.{AreOfPhase};

use cq_audit::{PhaseFault, audit_trace, part, read_log, stable_told};
use cq_base::{NoMemory, Port, Transfer};
use cq_lines::LineRefusal;
use cq_list::InputList;
use cq_prefs::Offers;
use cq_trial_kit::{LOG, TRACE, list_of, waiting};
use std::alloc::Global;

// Whether a log is read as these transfers.
fn is_read_as(alloc: Global, log: &[u8], told: &[Transfer]) -> bool {
    match read_log(alloc, log, 2) {
        Ok(note) => note.as_slice() == told,
        Err(_) => false,
    }
}

#[test]
fn the_log_of_two_cells_for_one_output_is_read(rt: HostRuntime) {
    let told = [crossing(1, 0, 0), crossing(2, 1, 0)];
    assert!(rt; is_read_as(rt.alloc(), LOG.as_bytes(), &told));
}

// Logs of a switch of two ports, and the first wrong line of each.
const LOGS: &[(&[u8], Option<u64>)] = &[
    (b"", None),
    (b"0 1 0 0 0\n0 2 1 0 0 0\n", Some(1)),
    (b"0 1 0 0 0 0\n0 2 1 0 0 0", Some(2)),
    (b"0 1 0 0 0 0\n0 1 0 0 0 0\n", Some(2)),
    (b"0 2 0 0 0 0\n0 1 1 0 0 0\n", Some(2)),
    (b"0 1 2 0 0 0\n", Some(1)),
    (b"0 3 0 0 0 0\n", Some(1)),
    (b"18446744073709551616 1 0 0 0 0\n", Some(1)),
    (b"0 1 0 0 0 -\n", Some(1)),
];

// Whether a log is refused at this line, or read where none is wrong.
fn is_refused_at(alloc: Global, row: &(&[u8], Option<u64>)) -> bool {
    let (log, line) = *row;
    match read_log(alloc, log, 2) {
        Ok(_) => line.is_none(),
        Err(LineRefusal::Line { line: at }) => line == Some(at),
        Err(LineRefusal::NoMemory) => false,
    }
}

#[test]
fn a_log_is_refused_at_its_first_wrong_line(rt: HostRuntime) {
    for row in LOGS {
        assert!(rt; is_refused_at(rt.alloc(), row));
    }
}

// Traces, and the first line of each that is other than in the worked one.
const TRACES: &[(&str, Option<u64>)] = &[
    (TRACE, None),
    ("0 0 0 0 0\n1 0 1 0 1\n", Some(2)),
    ("0 0 0 0 0\n", Some(2)),
    ("0 0 0 0 0\n1 0 1 0 0", Some(2)),
    ("0 0 0 0 0\n1 0 1 0 0\n2 0 0 1 0\n", Some(3)),
];

fn differs_at(row: &(&str, Option<u64>)) -> bool {
    audit_trace(row.0.as_bytes(), TRACE.as_bytes()) == row.1
}

#[test]
fn a_trace_differs_in_its_first_line_that_is_other(rt: HostRuntime) {
    for row in TRACES {
        assert!(rt; differs_at(row));
    }
}

// The list of an input of two, with one cell, which is for output 0.
fn one_waits(alloc: Global, input: Port) -> Result<InputList, NoMemory>
    ensures { IfOk result (λ list. list.outputs ≡ 2) }
{
    list_of(alloc, input, 2, &[(0, 0)])
}

// The line of an input whose first cell crosses to an output in a phase of slot zero.
fn crossing(phase: u8, input: Port, output: Port) -> Transfer
    ensures slot { result.slot ≡ 0 }
    ensures phase { result.phase ≡ phase }
    ensures input { result.input ≡ input }
    ensures output { result.output ≡ output }
{
    Transfer {
        slot: 0,
        phase,
        input,
        output,
        id: waiting(input, 0, 0, 0).cell.id,
    }
}

// What is wrong with these lines, if anything is.
fn verdict(lists: &[InputList], offers: &Offers, lines: &[Transfer]) -> Option<PhaseFault>
    requires few { length lists.now ≤ most_ports }
    requires offers { offers.now ≡ orders_of (cells_of lists.now) }
    requires lines { AreOfPhase (length lists.now) 0 1 lines.now }
{
    match stable_told(lists, offers, 0, 1, lines) {
        Ok(_) => None,
        Err(fault) => Some(fault),
    }
}

// Whether a phase of two inputs, in each of which a cell for output zero waits, is refused at its first wrong line,
// or at its first pair that is not settled.
fn are_told(lists: &[InputList], offers: &Offers) -> bool
    requires lists { length lists.now ≡ 2 }
    requires offers { offers.now ≡ orders_of (cells_of lists.now) }
{
    let first = crossing(1, 0, 0);
    let second = crossing(1, 1, 0);
    let unsettled = Some(PhaseFault::Blocking(0, 0));
    let verdicts = [
        verdict(lists, offers, &[first]),
        verdict(lists, offers, &[]),
        verdict(lists, offers, &[second]),
        verdict(lists, offers, &[crossing(1, 0, 1)]),
        verdict(lists, offers, &[first, second]),
    ];
    verdicts
        == [
            None,
            unsettled,
            unsettled,
            Some(PhaseFault::WrongLine(0)),
            Some(PhaseFault::WrongLine(1)),
        ]
}

// Whether it is, with the lists and the offers of that phase.
fn phases_are_told(alloc: Global) -> bool {
    let Ok(zero) = one_waits(alloc, 0) else {
        return false;
    };
    let Ok(one) = one_waits(alloc, 1) else {
        return false;
    };
    let Ok(mut offers) = Offers::new(alloc, 2) else {
        return false;
    };
    let lists = [zero, one];
    offers.fill(&lists);
    are_told(&lists, &offers)
}

#[test]
fn a_phase_is_refused_at_its_first_wrong_line_or_first_unsettled_pair(rt: HostRuntime) {
    assert!(rt; phases_are_told(rt.alloc()));
}

// Whether so many lines are of the phase, and so many stand behind them.
fn parts_into(lines: &[Transfer], phase: u8, first: usize, behind: usize) -> bool {
    let (of_phase, others) = part(lines, 0, phase);
    of_phase.len() == first && others.len() == behind
}

#[test]
fn the_lines_of_a_phase_stand_at_the_front(rt: HostRuntime) {
    let lines = [crossing(1, 0, 0), crossing(1, 1, 1)];
    assert!(rt; parts_into(&lines, 1, 2, 0) && parts_into(&lines, 2, 0, 2));
}
