//! A plain slow fabric, written for these tests alone, that takes the rules at their word.
//!
//! It shares no line with the crates: it counts cushions and threads cell by cell, sorts a buffer whenever it
//! sends, and finds a matching in rounds, in which all inputs ask at once.

use super::coming::Coming;
use super::engine::{Outcome, Told};
use cq_base::{Arrivals, Cell, InputFigures, NoMemory, OutputFigures};
use cq_engine::Refused;
use std::alloc::Global;

/// Per output the ranks of the two classes: outputs 0 and 2 send those of one level in the order of arrival.
pub(super) const PRIORITIES: [[u128; 2]; 4] = [[0, 0], [3, 1], [7, 7], [0, 9]];

/// Per output the levels of the two classes.
pub(super) const LEVELS: [[u8; 2]; 4] = [[0, 0], [0, 0], [1, 0], [1, 0]];

/// What is seen of an input to which nothing came yet.
pub(super) const NOTHING_CAME: InputFigures = InputFigures {
    cells: 0,
    longest: 0,
    slack: None,
};

/// What is seen of an output that nothing left yet.
pub(super) const NOTHING_LEFT: OutputFigures = OutputFigures {
    cells: 0,
    wait: None,
};

/// Its level, its rank, the slot of its arrival, its input, and its output. So cells compare as their keys do.
type Waiting = (u8, u128, u64, u16, u16);

/// The lists, the buffers, and what is told and seen of a run.
#[derive(Drop)]
pub(super) struct Slow {
    lists: Vec<Vec<Waiting>>,
    buffers: Vec<Vec<Waiting>>,
    pub(super) limits: [Option<u64>; 4],
    marks: [bool; 4],
    refused: Vec<Refused>,
    told: Told,
    slots: u64,
    proposals: u64,
    most: u64,
    inputs: [InputFigures; 4],
    outputs: [OutputFigures; 4],
}

/// Four empty queues.
fn empty(alloc: Global) -> Result<Vec<Vec<Waiting>>, NoMemory> {
    let mut queues = Vec::new(alloc);
    for _ in 0..4 {
        queues.push(Vec::new(alloc))?;
    }
    Ok(queues)
}

/// How many cells wait in each of four queues.
fn lengths(queues: &[Vec<Waiting>]) -> [usize; 4] {
    let mut lengths = [0; 4];
    for (length, queue) in lengths.iter_mut().zip(queues) {
        *length = queue.len();
    }
    lengths
}

/// Nothing was refused yet at the outputs with limits.
fn none_refused(alloc: Global, limits: &[Option<u64>; 4]) -> Result<Vec<Refused>, NoMemory> {
    let mut refused = Vec::new(alloc);
    for (output, limit) in limits.iter().enumerate() {
        if let Some(limit) = limit {
            refused.push(Refused {
                output: output as u16,
                limit: *limit,
                packets: 0,
                cells: 0,
            })?;
        }
    }
    Ok(refused)
}

/// How many cells of the output's buffer are more urgent.
fn cushion(buffers: &[Vec<Waiting>], cell: Waiting) -> usize {
    let mut more_urgent = 0usize;
    if let Some(buffer) = buffers.get(cell.4 as usize) {
        for other in buffer.iter() {
            if *other < cell {
                more_urgent = more_urgent.wrapping_add(1);
            }
        }
    }
    more_urgent
}

/// The cell goes in at the least of its cushion, the place of the first less urgent cell for its output, and the
/// end.
fn insert(list: &mut Vec<Waiting>, cell: Waiting, cushion: usize) -> Result<(), NoMemory> {
    let later = list
        .iter()
        .position(|other| other.4 == cell.4 && cell < *other);
    let place = cushion.min(later.unwrap_or(cushion)).min(list.len());
    list.insert(place, cell)?;
    Ok(())
}

/// What each input asks for: its first cell for an output that has not refused it.
fn asks(lists: &[Vec<Waiting>], refused: &[(usize, u16)]) -> [Option<Waiting>; 4] {
    let mut asks = [None; 4];
    for input in 0..4usize {
        if let Some(list) = lists.get(input) {
            asks[input] = list
                .iter()
                .find(|cell| !refused.contains(&(input, cell.4)))
                .copied();
        }
    }
    asks
}

/// Whether some input asks for the same output with a more urgent cell.
fn is_outdone(asks: &[Option<Waiting>; 4], cell: Waiting) -> bool {
    for ask in asks {
        if let Some(other) = ask
            && other.4 == cell.4
            && *other < cell
        {
            return true;
        }
    }
    false
}

/// Each output that is asked by several inputs refuses all but the one with the most urgent cell.
fn refuse(asks: &[Option<Waiting>; 4], refused: &mut Vec<(usize, u16)>) -> Result<(), NoMemory> {
    for (input, ask) in asks.iter().enumerate() {
        if let Some(cell) = ask
            && is_outdone(asks, *cell)
        {
            refused.push((input, cell.4))?;
        }
    }
    Ok(())
}

/// Who asks when nobody is refused any more, and how many were refused (Gale and Shapley 1962). There are 16 pairs
/// at most.
fn matched(
    alloc: Global,
    lists: &[Vec<Waiting>],
) -> Result<([Option<Waiting>; 4], usize), NoMemory> {
    let mut refused = Vec::new(alloc);
    for _ in 0..16 {
        refuse(&asks(lists, &refused), &mut refused)?;
    }
    Ok((asks(lists, &refused), refused.len()))
}

/// The lesser of the slack so far and that of the cell at this place.
fn lesser(so_far: Option<u64>, cushion: usize, place: usize) -> Option<u64> {
    let slack = (cushion as u64).wrapping_sub(place as u64);
    Some(so_far.unwrap_or(slack).min(slack))
}

/// How many cells for the output wait in these queues.
fn waiting_for(queues: &[Vec<Waiting>], output: u16) -> u64 {
    let mut waiting = 0u64;
    for queue in queues {
        for cell in queue.iter() {
            if cell.4 == output {
                waiting = waiting.wrapping_add(1);
            }
        }
    }
    waiting
}

impl Slow {
    /// Nothing came yet, and the outputs have these limits.
    pub(super) fn nothing(alloc: Global, limits: [Option<u64>; 4]) -> Result<Slow, NoMemory> {
        Ok(Slow {
            lists: empty(alloc)?,
            buffers: empty(alloc)?,
            limits,
            marks: [false; 4],
            refused: none_refused(alloc, &limits)?,
            told: Told::nothing(alloc),
            slots: 0,
            proposals: 0,
            most: 0,
            inputs: [NOTHING_CAME; 4],
            outputs: [NOTHING_LEFT; 4],
        })
    }

    /// A run of these slots. The packet of each cell has the number of the slot of its arrival.
    pub(super) fn run(&mut self, alloc: Global, slots: &[Coming<4>]) -> Result<(), NoMemory> {
        for (slot, coming) in slots.iter().enumerate() {
            self.slot(alloc, slot as u64, &coming.arrivals)?;
        }
        Ok(())
    }

    /// What the run came to.
    pub(super) fn outcome(&self) -> Outcome<'_> {
        Outcome {
            sent: self.told.sent.as_slice(),
            crossed: self.told.crossed.as_slice(),
            sums: [self.slots, self.proposals, self.most],
            inputs: &self.inputs,
            outputs: &self.outputs,
            refused: self.refused.as_slice(),
            marks: self.marks,
            in_lists: lengths(&self.lists),
            in_buffers: lengths(&self.buffers),
        }
    }

    /// One slot: the arrivals, and a sending between two transfers.
    fn slot(&mut self, alloc: Global, slot: u64, arrivals: &Arrivals) -> Result<(), NoMemory> {
        self.arrive(slot, arrivals)?;
        self.look();
        self.transfer(alloc, slot, 1)?;
        self.send(slot)?;
        self.transfer(alloc, slot, 2)
    }

    /// How many cells for the output wait at any input or in its buffer.
    fn held(&self, output: u16) -> u64 {
        waiting_for(&self.lists, output).wrapping_add(waiting_for(&self.buffers, output))
    }

    /// Whether the cell is of a packet that is refused: its first cell finds that its output holds as many cells as the
    /// limit says, or more.
    fn refuses(&mut self, input: u16, cell: Cell) -> bool {
        if cell.id.index == 0 {
            let held = self.held(cell.output);
            let limit = self.limits.get(cell.output as usize).copied().flatten();
            if let Some(mark) = self.marks.get_mut(input as usize) {
                *mark = held >= limit.unwrap_or(u64::MAX);
            }
        }
        self.marks.get(input as usize).copied().unwrap_or(false)
    }

    fn count_refused(&mut self, cell: Cell) {
        for count in self.refused.iter_mut() {
            if count.output == cell.output {
                count.cells = count.cells.wrapping_add(1);
                count.packets = count.packets.wrapping_add(u64::from(cell.id.index == 0));
            }
        }
    }

    fn arrive(&mut self, slot: u64, arrivals: &Arrivals) -> Result<(), NoMemory> {
        for input in 0..4u16 {
            if let Some(cell) = arrivals.at(input) {
                if self.refuses(input, cell) {
                    self.count_refused(cell);
                } else {
                    self.admit(slot, input, cell)?;
                }
            }
        }
        Ok(())
    }

    fn admit(&mut self, slot: u64, input: u16, cell: Cell) -> Result<(), NoMemory> {
        if let Some(ranks) = PRIORITIES.get(cell.output as usize)
            && let Some(rank) = ranks.get(cell.class as usize)
            && let Some(levels) = LEVELS.get(cell.output as usize)
            && let Some(level) = levels.get(cell.class as usize)
            && let Some(list) = self.lists.get_mut(input as usize)
            && let Some(figures) = self.inputs.get_mut(input as usize)
        {
            let waiting = (*level, *rank, slot, input, cell.output);
            insert(list, waiting, cushion(&self.buffers, waiting))?;
            figures.cells = figures.cells.wrapping_add(1);
        }
        Ok(())
    }

    /// Looks at the lists, after the arrivals of a slot.
    fn look(&mut self) {
        for (list, figures) in self.lists.iter().zip(self.inputs.iter_mut()) {
            figures.longest = figures.longest.max(list.len() as u64);
            for (place, cell) in list.iter().enumerate() {
                figures.slack = lesser(figures.slack, cushion(&self.buffers, *cell), place);
            }
        }
    }

    fn transfer(&mut self, alloc: Global, slot: u64, phase: u64) -> Result<(), NoMemory> {
        let (asks, refused) = matched(alloc, &self.lists)?;
        let mut proposals = refused as u64;
        for (input, ask) in asks.iter().enumerate() {
            if let Some(cell) = ask
                && let Some(list) = self.lists.get_mut(input)
                && let Some(buffer) = self.buffers.get_mut(cell.4 as usize)
            {
                list.retain(|other| *other != *cell);
                buffer.push(*cell)?;
                let line = [slot, phase, input as u64, cell.4 as u64, cell.2];
                self.told.crossed.push(line)?;
                proposals = proposals.wrapping_add(1);
            }
        }
        self.proposals = self.proposals.wrapping_add(proposals);
        self.most = self.most.max(proposals);
        Ok(())
    }

    fn send(&mut self, slot: u64) -> Result<(), NoMemory> {
        for (output, buffer) in self.buffers.iter_mut().enumerate() {
            buffer.sort()?;
            if !buffer.is_empty()
                && let Some(figures) = self.outputs.get_mut(output)
            {
                let (_, _, came, input, _) = buffer.remove(0);
                self.told
                    .sent
                    .push([slot, output as u64, input as u64, came])?;
                self.slots = slot.wrapping_add(1);
                let wait = slot.wrapping_sub(came);
                figures.cells = figures.cells.wrapping_add(1);
                figures.wait = Some(figures.wait.unwrap_or(wait).max(wait));
            }
        }
        Ok(())
    }
}
