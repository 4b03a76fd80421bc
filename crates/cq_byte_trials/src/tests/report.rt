//! Texts of runs that were worked by hand.
use cq_base::{
    Cell, CellId, Departure, Figures, InputFigures, Key, NoMemory, OutputFigures, PackedDeparture,
    Port, Queued, Room, Sequence, Transfer,
};
use cq_ideal::Refused;
use cq_report::{log_text, log_text_of_room, report_text, trace_text, trace_text_of_packed};
use std::alloc::Global;

// A cell leaves: its slot and its output, and its input, its packet and its number there.
type Leaving = (u64, u16, u16, u32, u32);

fn cell_id(input: Port, packet: u32, index: u32) -> CellId {
    CellId {
        input,
        packet,
        index,
    }
}

fn departure(row: &Leaving) -> Departure {
    let (slot, output, input, packet, index) = *row;
    let cell = Cell {
        id: cell_id(input, packet, index),
        output,
        class: 0,
        last: true,
        at: 0,
        len: 60,
    };
    let key = Key {
        level: 0,
        rank: 7,
        slot: 0,
        input,
    };
    Departure {
        slot,
        output,
        queued: Queued { cell, key },
    }
}

// A cell crosses: its slot, its phase, its input and its output, and its packet and its number there.
type Crossing = (u64, u8, u16, u16, u32, u32);

fn transfer(row: &Crossing) -> Transfer {
    let (slot, phase, input, output, packet, index) = *row;
    Transfer {
        slot,
        phase,
        input,
        output,
        id: cell_id(input, packet, index),
    }
}

fn packed(row: &Leaving) -> PackedDeparture {
    PackedDeparture::of(&departure(row))
}

fn departures(alloc: Global, rows: &[Leaving]) -> Result<Vec<Departure>, NoMemory> {
    Ok(rows.iter().map(departure).collect(alloc)?)
}

fn packed_departures(alloc: Global, rows: &[Leaving]) -> Result<Vec<PackedDeparture>, NoMemory> {
    Ok(rows.iter().map(packed).collect(alloc)?)
}

fn transfers(alloc: Global, rows: &[Crossing]) -> Result<Vec<Transfer>, NoMemory> {
    Ok(rows.iter().map(transfer).collect(alloc)?)
}

// Whether this text was made.
fn is_text(made: Result<Vec<u8>, NoMemory>, text: &[u8]) -> bool {
    match made {
        Ok(bytes) => bytes.as_slice() == text,
        Err(_) => false,
    }
}

// Whether what is told of these items is this text.
fn is_told<T: Drop, F: Fn(&[T]) -> Result<Vec<u8>, NoMemory>>(
    items: Result<Vec<T>, NoMemory>,
    tell: F,
    text: &[u8],
) -> bool
    requires { F.IsAlwaysCallable tell }
{
    match items {
        Ok(items) => is_text(tell(&items), text),
        Err(_) => false,
    }
}

// Departures, and their trace.
const TRACES: &[(&[Leaving], &[u8])] = &[
    (&[], b""),
    (
        &[
            (0, 0, 0, 0, 0),
            (1, 0, 1, 0, 0),
            (1, 1, 2, 1, 0),
            (2, 0, 2, 0, 0),
        ],
        b"0 0 0 0 0\n1 0 1 0 0\n1 1 2 1 0\n2 0 2 0 0\n",
    ),
    (
        &[
            (3600000000000, 63, 62, 4294967295, 4095),
            (u64::MAX, u16::MAX, u16::MAX, u32::MAX, u32::MAX),
        ],
        b"3600000000000 63 62 4294967295 4095\n18446744073709551615 65535 65535 4294967295 4294967295\n",
    ),
];

fn have_both_traces(alloc: Global, row: &(&[Leaving], &[u8])) -> bool {
    let (rows, text) = *row;
    is_told(
        departures(alloc, rows),
        |sent| trace_text(alloc, sent),
        text,
    ) && is_told(
        packed_departures(alloc, rows),
        |sent| trace_text_of_packed(alloc, sent),
        text,
    )
}

#[test]
fn a_trace_has_a_line_for_each_departure(rt: HostRuntime) {
    for row in TRACES {
        assert!(rt; have_both_traces(rt.alloc(), row));
    }
}

// Transfers, and their log.
const LOGS: &[(&[Crossing], &[u8])] = &[
    (&[], b""),
    (
        &[
            (0, 1, 0, 0, 0, 0),
            (0, 2, 1, 0, 0, 0),
            (1, 1, 2, 1, 1, 0),
            (1, 2, 2, 0, 0, 0),
        ],
        b"0 1 0 0 0 0\n0 2 1 0 0 0\n1 1 2 1 1 0\n1 2 2 0 0 0\n",
    ),
    (
        &[(0, 1, 0, 0, 0, 0), (0, 2, 1, 0, 0, 0), (1, 1, 0, 0, 1, 0)],
        b"0 1 0 0 0 0\n0 2 1 0 0 0\n1 1 0 0 1 0\n",
    ),
    (
        &[
            (0, 1, 0, 0, 0, 0),
            (3600000000000, 2, 62, 63, 4294967295, 4095),
        ],
        b"0 1 0 0 0 0\n3600000000000 2 62 63 4294967295 4095\n",
    ),
];

// The transfers, in a room that they fill.
fn noted(alloc: Global, rows: &[Crossing]) -> Result<Room<Transfer>, NoMemory> {
    let mut note = Room::new(alloc, rows.len() as u64)?;
    for row in rows {
        if 0 < note.spare() {
            note.push(transfer(row));
        }
    }
    Ok(note)
}

fn have_log_of_room(alloc: Global, rows: &[Crossing], text: &[u8]) -> bool {
    match noted(alloc, rows) {
        Ok(note) => is_text(log_text_of_room(alloc, note), text),
        Err(_) => false,
    }
}

fn have_both_logs(alloc: Global, row: &(&[Crossing], &[u8])) -> bool {
    let (rows, text) = *row;
    is_told(transfers(alloc, rows), |note| log_text(alloc, note), text)
        && have_log_of_room(alloc, rows, text)
}

#[test]
fn a_log_has_a_line_for_each_transfer_also_where_they_are_used_up(rt: HostRuntime) {
    for row in LOGS {
        assert!(rt; have_both_logs(rt.alloc(), row));
    }
}

// What is told of a run: its slots, its proposals and the most of one phase; of each input its cells, the greatest
// length of its list and the least slack; and of each output its cells and the longest wait.
struct Told {
    run: (u64, u64, u64),
    inputs: &'static [(u64, u64, Option<u64>)],
    outputs: &'static [(u64, Option<u64>)],
}

fn input_figures(row: &(u64, u64, Option<u64>)) -> InputFigures {
    InputFigures {
        cells: row.0,
        longest: row.1,
        slack: row.2,
    }
}

fn output_figures(row: &(u64, Option<u64>)) -> OutputFigures {
    OutputFigures {
        cells: row.0,
        wait: row.1,
    }
}

fn figures_of(alloc: Global, told: &Told) -> Result<Figures, NoMemory> {
    let (slots, proposals, most) = told.run;
    let inputs: Vec<InputFigures> = told.inputs.iter().map(input_figures).collect(alloc)?;
    let outputs: Vec<OutputFigures> = told.outputs.iter().map(output_figures).collect(alloc)?;
    Ok(Figures {
        slots,
        proposals,
        most,
        inputs: Sequence::of(inputs),
        outputs: Sequence::of(outputs),
    })
}

// Whether a text has these lines.
fn is_of(alloc: Global, text: &[u8], lines: &[&str]) -> bool {
    match lines.concat(alloc) {
        Ok(lines) => text == lines.as_bytes(),
        Err(_) => false,
    }
}

// Whether the report of these figures, and of what was refused, has these lines.
fn is_reported(alloc: Global, figures: &Figures, refused: &[Refused], lines: &[&str]) -> bool {
    let outputs = figures.outputs.as_slice();
    if !outputs.iter().all(|x| x.cells <= figures.slots) {
        return false;
    }
    match report_text(alloc, figures, refused) {
        Ok(text) => is_of(alloc, &text, lines),
        Err(_) => false,
    }
}

// Whether the report of what is told of a run, and of what was refused, has these lines.
fn has_lines(alloc: Global, told: &Told, refused: &[Refused], lines: &[&str]) -> bool {
    match figures_of(alloc, told) {
        Ok(figures) => is_reported(alloc, &figures, refused, lines),
        Err(_) => false,
    }
}

const NOTHING_CAME: [&str; 5] = [
    "slots 0\n",
    "proposals 0\n",
    "most 0\n",
    "input 0 cells 0 longest 0 slack -\n",
    "output 0 cells 0 idle 0 wait -\n",
];

const CONTENTION: [&str; 7] = [
    "slots 2\n",
    "proposals 3\n",
    "most 2\n",
    "input 0 cells 1 longest 1 slack 0\n",
    "input 1 cells 1 longest 1 slack 0\n",
    "output 0 cells 2 idle 0 wait 1\n",
    "output 1 cells 0 idle 2 wait -\n",
];

const FAIR: [&str; 7] = [
    "slots 3\n",
    "proposals 4\n",
    "most 2\n",
    "input 0 cells 2 longest 1 slack 0\n",
    "input 1 cells 1 longest 1 slack 0\n",
    "output 0 cells 3 idle 0 wait 1\n",
    "output 1 cells 0 idle 3 wait -\n",
];

const GOES_AHEAD: [&str; 9] = [
    "slots 3\n",
    "proposals 7\n",
    "most 3\n",
    "input 0 cells 1 longest 1 slack 0\n",
    "input 1 cells 1 longest 1 slack 0\n",
    "input 2 cells 2 longest 2 slack 0\n",
    "output 0 cells 3 idle 0 wait 2\n",
    "output 1 cells 1 idle 2 wait 0\n",
    "output 2 cells 0 idle 3 wait -\n",
];

const OFFICE: [&str; 11] = [
    "slots 7\n",
    "proposals 14\n",
    "most 2\n",
    "input 0 cells 4 longest 1 slack 0\n",
    "input 1 cells 6 longest 1 slack 0\n",
    "input 2 cells 0 longest 0 slack -\n",
    "input 3 cells 0 longest 0 slack -\n",
    "output 0 cells 1 idle 6 wait 0\n",
    "output 1 cells 7 idle 0 wait 3\n",
    "output 2 cells 2 idle 5 wait 1\n",
    "output 3 cells 0 idle 7 wait -\n",
];

const BURST: [&str; 9] = [
    "slots 3\n",
    "proposals 3\n",
    "most 1\n",
    "input 0 cells 2 longest 1 slack 0\n",
    "input 1 cells 1 longest 1 slack 0\n",
    "output 0 cells 3 idle 0 wait 0\n",
    "output 1 cells 0 idle 3 wait -\n",
    "limit 0 refused 2 cells 3\n",
    "limit 1 refused 0 cells 0\n",
];

const LIMITED: Told = Told {
    run: (3, 3, 1),
    inputs: &[(2, 1, Some(0)), (1, 1, Some(0))],
    outputs: &[(3, Some(0)), (0, None)],
};

const REFUSED: [Refused; 2] = [
    Refused {
        output: 0,
        limit: 1,
        packets: 2,
        cells: 3,
    },
    Refused {
        output: 1,
        limit: 100,
        packets: 0,
        cells: 0,
    },
];

#[test]
fn a_report_tells_what_was_refused_at_outputs_with_limits(rt: HostRuntime) {
    assert!(rt; has_lines(rt.alloc(), &LIMITED, &REFUSED, &BURST));
}

// Runs, with the lines of their reports.
const RUNS: &[(Told, &[&str])] = &[
    (
        Told {
            run: (0, 0, 0),
            inputs: &[(0, 0, None)],
            outputs: &[(0, None)],
        },
        &NOTHING_CAME,
    ),
    (
        Told {
            run: (2, 3, 2),
            inputs: &[(1, 1, Some(0)), (1, 1, Some(0))],
            outputs: &[(2, Some(1)), (0, None)],
        },
        &CONTENTION,
    ),
    (
        Told {
            run: (3, 4, 2),
            inputs: &[(2, 1, Some(0)), (1, 1, Some(0))],
            outputs: &[(3, Some(1)), (0, None)],
        },
        &FAIR,
    ),
    (
        Told {
            run: (3, 7, 3),
            inputs: &[(1, 1, Some(0)), (1, 1, Some(0)), (2, 2, Some(0))],
            outputs: &[(3, Some(2)), (1, Some(0)), (0, None)],
        },
        &GOES_AHEAD,
    ),
    (
        Told {
            run: (7, 14, 2),
            inputs: &[(4, 1, Some(0)), (6, 1, Some(0)), (0, 0, None), (0, 0, None)],
            outputs: &[(1, Some(0)), (7, Some(3)), (2, Some(1)), (0, None)],
        },
        &OFFICE,
    ),
];

#[test]
fn a_report_has_the_figures_behind_their_names(rt: HostRuntime) {
    for (told, lines) in RUNS {
        assert!(rt; has_lines(rt.alloc(), told, &[], lines));
    }
}
