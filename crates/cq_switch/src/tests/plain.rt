//! A plain slow switch, written for these tests alone, that takes the rules at their word; and that the
//! program's traces are its traces.
//!
//! It shares no line with the crates: it counts slots one by one, looks through all cells in each, and
//! sorts a list whenever a cell comes. Slots, cells and outputs are those of the configuration of `cq_trials`.
ghost use Rattle.std.specs.Prelude.{◌<◌};

use super::crossed::by_defaults;
use cq_base::NoMemory;
use cq_trial_kit::Draws;
use cq_trials::{DEFAULTS, Disk, Frame, Left, passes};
use std::alloc::Global;
use std::thread::Threads;

/// The slot of its arrival, its input, its packet, and its number in the packet. So the order of these
/// four is the order in which a first-come output sends.
type Cell = (u64, usize, usize, u64);

/// A cell and its output.
type Arrival = (Cell, u8);

/// In nanoseconds.
fn stamp_of(frame: Frame) -> u64 {
    let (seconds, nanoseconds, _, _) = frame;
    u64::from(seconds)
        .wrapping_mul(1_000_000_000)
        .wrapping_add(u64::from(nanoseconds))
}

/// At 64 bytes a cell, and at least one.
fn cells_of(frame: Frame) -> u64 {
    let (_, _, _, len) = frame;
    u64::from(len.div_ceil(64).max(1))
}

/// The default output, 0, where the frame is too short to have a destination.
fn output_of(frame: Frame) -> u8 {
    let (_, _, output, len) = frame;
    if len < 6 { 0 } else { output }
}

/// The least stamp of all frames.
fn origin_of(inputs: &[&[Frame]]) -> u64 {
    let mut least = None;
    for frames in inputs {
        let earliest = frames.iter().map(|frame| stamp_of(*frame)).min();
        least = match (least, earliest) {
            (Some(a), Some(b)) => Some(b.min(a)),
            (None, other) | (other, None) => other,
        };
    }
    least.unwrap_or(0)
}

fn put_cells(
    arrivals: &mut Vec<Arrival>,
    input: usize,
    packet: usize,
    frame: Frame,
    start: u64,
) -> Result<(), NoMemory> {
    for number in 0..cells_of(frame) {
        let cell = (start.saturating_add(number), input, packet, number);
        arrivals.push((cell, output_of(frame)))?;
    }
    Ok(())
}

/// Puts the cells of an input. Each frame starts in its stamp slot, at 512 ns a slot, or in the first slot after the
/// cells of the frame before it, whichever is later.
fn put_frames(
    arrivals: &mut Vec<Arrival>,
    input: usize,
    frames: &[Frame],
    origin: u64,
) -> Result<(), NoMemory> {
    let mut free = 0u64;
    for (packet, frame) in frames.iter().enumerate() {
        let start = (stamp_of(*frame).saturating_sub(origin) / 512).max(free);
        put_cells(arrivals, input, packet, *frame, start)?;
        free = start.saturating_add(cells_of(*frame));
    }
    Ok(())
}

/// Puts all cells of all inputs.
fn put_inputs(
    arrivals: &mut Vec<Arrival>,
    inputs: &[&[Frame]],
    origin: u64,
) -> Result<(), NoMemory> {
    for (input, frames) in inputs.iter().enumerate() {
        put_frames(arrivals, input, frames, origin)?;
    }
    Ok(())
}

/// Puts the cells that arrive in the slot into the lists of their outputs.
fn arrive(lists: &mut Vec<Vec<Cell>>, arrivals: &[Arrival], slot: u64) -> Result<(), NoMemory> {
    for (cell, output) in arrivals {
        if cell.0 == slot
            && let Some(list) = lists.get_mut(usize::from(*output))
        {
            list.push(*cell)?;
            list.sort()?;
        }
    }
    Ok(())
}

/// Sends the first cell of each list, and writes its line.
fn send(lists: &mut Vec<Vec<Cell>>, slot: u64, trace: &mut String) -> Result<(), NoMemory> {
    for (output, list) in lists.iter_mut().enumerate() {
        if !list.is_empty() {
            let (_, input, packet, number) = list.remove(0);
            write!(trace, "{slot} {output} {input} {packet} {number}\n")?;
        }
    }
    Ok(())
}

/// Puts a list for each output, in which nothing waits.
fn put_lists(lists: &mut Vec<Vec<Cell>>, alloc: Global, outputs: usize) -> Result<(), NoMemory> {
    for _ in 0..outputs {
        lists.push(Vec::new(alloc))?;
    }
    Ok(())
}

/// Writes the departures, where these cells arrive.
fn put_departures(
    trace: &mut String,
    lists: &mut Vec<Vec<Cell>>,
    arrivals: &[Arrival],
) -> Result<(), NoMemory> {
    // After the last arrival each slot sends a cell, until none is left.
    let last = arrivals.iter().map(|(cell, _)| cell.0).max().unwrap_or(0);
    for slot in 0..last.saturating_add(arrivals.len() as u64) {
        arrive(lists, arrivals, slot)?;
        send(lists, slot, trace)?;
    }
    Ok(())
}

/// What the plain switch works on.
#[derive(Drop)]
struct Plain {
    arrivals: Vec<Arrival>,
    lists: Vec<Vec<Cell>>,
    trace: String,
}

impl Plain {
    fn new(alloc: Global) -> Plain {
        Plain {
            arrivals: Vec::new(alloc),
            lists: Vec::new(alloc),
            trace: String::new(alloc),
        }
    }

    /// Runs the switch whose inputs have these frames.
    fn run(&mut self, alloc: Global, inputs: &[&[Frame]]) -> Result<(), NoMemory> {
        put_inputs(&mut self.arrivals, inputs, origin_of(inputs))?;
        put_lists(&mut self.lists, alloc, inputs.len())?;
        put_departures(&mut self.trace, &mut self.lists, &self.arrivals)
    }

    /// Whether these cells came, in this order, or none are told.
    fn came_as(&self, cells: Option<&[Arrival]>) -> bool {
        match cells {
            Some(cells) => self.arrivals.as_slice() == cells,
            None => true,
        }
    }
}

/// A frame of up to 300 bytes, stamped within 4 microseconds of three seconds.
fn drawn_frame(draws: &mut Draws, ports: u64) -> Frame
    requires some { 0 < ports }
    requires few { ports < 5 }
{
    let stamp = 2_999_996_000 + draws.below(8_000);
    let seconds = (stamp / 1_000_000_000) as u32;
    let nanoseconds = (stamp % 1_000_000_000) as u32;
    let output = draws.below(ports) as u8;
    (seconds, nanoseconds, output, draws.below(301) as u32)
}

/// Puts three to six frames.
fn put_drawn_frames(frames: &mut Vec<Frame>, draws: &mut Draws, ports: u64) -> Result<(), NoMemory>
    requires some { 0 < ports }
    requires few { ports < 5 }
{
    for _ in 0..3 + draws.below(4) {
        frames.push(drawn_frame(draws, ports))?;
    }
    Ok(())
}

/// Puts the frames of two to four inputs.
fn put_drawn(inputs: &mut Vec<Vec<Frame>>, alloc: Global, seed: u64) -> Result<(), NoMemory> {
    let mut draws = Draws::from_seed(seed);
    let ports = 2 + draws.below(3);
    for _ in 0..ports {
        let mut frames = Vec::new(alloc);
        put_drawn_frames(&mut frames, &mut draws, ports)?;
        inputs.push(frames)?;
    }
    Ok(())
}

/// Whether a switch of the program writes this trace.
fn writes<R: Threads + Sync>(
    rt: &R,
    alloc: Global,
    command: &str,
    inputs: &[&[Frame]],
    trace: &str,
) -> bool {
    let disk = Disk::of_switch(alloc, inputs, 1, &DEFAULTS);
    let left: Left = (&[("trace.txt", trace.as_bytes())], &[]);
    passes(rt, alloc, &[command, "c.toml"], disk, left)
}

/// Whether the program writes this trace, by either switch.
fn both_write<R: Threads + Sync>(rt: &R, alloc: Global, inputs: &[&[Frame]], trace: &str) -> bool {
    writes(rt, alloc, "ideal", inputs, trace) && writes(rt, alloc, "run", inputs, trace)
}

/// Whether the program writes the plain switch's trace, by either switch, and the cells come so to the plain switch, if
/// these are told.
fn agrees<R: Threads + Sync>(
    rt: &R,
    alloc: Global,
    inputs: &[&[Frame]],
    cells: Option<&[Arrival]>,
) -> bool {
    let mut plain = Plain::new(alloc);
    match plain.run(alloc, inputs) {
        Ok(()) => plain.came_as(cells) && both_write(rt, alloc, inputs, &plain.trace),
        Err(_) => false,
    }
}

/// The frames of one input, and their cells, in the slots in which they come.
type Line = (&'static [Frame], &'static [Arrival]);

const LINES: &[Line] = &[
    // One, two and two cells at once.
    (
        &[(0, 0, 0, 64), (0, 0, 0, 65), (0, 0, 0, 128)],
        &[
            ((0, 0, 0, 0), 0),
            ((1, 0, 1, 0), 0),
            ((2, 0, 1, 1), 0),
            ((3, 0, 2, 0), 0),
            ((4, 0, 2, 1), 0),
        ],
    ),
    // An earlier stamp after a later one.
    (
        &[(0, 2048, 0, 60), (0, 0, 0, 60)],
        &[((4, 0, 0, 0), 0), ((5, 0, 1, 0), 0)],
    ),
    // A busy line.
    (
        &[(0, 0, 0, 200), (0, 512, 0, 60)],
        &[
            ((0, 0, 0, 0), 0),
            ((1, 0, 0, 1), 0),
            ((2, 0, 0, 2), 0),
            ((3, 0, 0, 3), 0),
            ((4, 0, 1, 0), 0),
        ],
    ),
];

#[test]
fn one_line_is_as_in_the_plain_switch(rt: HostRuntime) {
    for (frames, cells) in LINES {
        assert!(rt; agrees(&rt, rt.alloc(), &[*frames], Some(*cells)));
    }
}

#[test]
fn worked_runs_are_as_in_the_plain_switch(rt: HostRuntime) {
    for run in by_defaults() {
        assert!(rt; agrees(&rt, rt.alloc(), run.inputs, None));
    }
}

/// Puts the frames of each input.
fn put_slices<'a>(inputs: &mut Vec<&'a [Frame]>, drawn: &'a [Vec<Frame>]) -> Result<(), NoMemory> {
    for frames in drawn {
        inputs.push(frames.as_slice())?;
    }
    Ok(())
}

/// Whether the program agrees on these frames.
fn agrees_on<R: Threads + Sync>(rt: &R, alloc: Global, drawn: &[Vec<Frame>]) -> bool {
    let mut inputs = Vec::new(alloc);
    match put_slices(&mut inputs, drawn) {
        Ok(()) => agrees(rt, alloc, &inputs, None),
        Err(_) => false,
    }
}

fn agrees_on_drawn<R: Threads + Sync>(rt: &R, alloc: Global, seed: u64) -> bool {
    let mut drawn = Vec::new(alloc);
    match put_drawn(&mut drawn, alloc, seed) {
        Ok(()) => agrees_on(rt, alloc, &drawn),
        Err(_) => false,
    }
}

#[test]
fn drawn_traffic_is_as_in_the_plain_switch(rt: HostRuntime) {
    for seed in 1..9 {
        assert!(rt; agrees_on_drawn(&rt, rt.alloc(), seed));
    }
}
