//! The state of a stopped run, as its text tells it.
use cq_base::{Port, Sequence, Slot, Transfer};

/// What the first lines of a state tell.
#[derive(Clone, Copy, Debug, PartialEq, Eq)]
pub struct Head {
    /// How many slots are done: the next one has this number.
    pub next: Slot,
    /// How many ports there are.
    pub ports: Port,
    /// How many classes there are.
    pub classes: u16,
    /// The stamp from which slots are counted, in nanoseconds.
    pub t0: u64,
    /// How many cells the schedule has.
    pub total: u64,
    /// The sum of the proposals of all phases.
    pub proposals: u64,
    /// The most proposals of a phase.
    pub most: u64,
}

/// What was seen of the list of an input.
#[derive(Clone, Copy, Debug, PartialEq, Eq)]
pub struct Seen {
    /// The greatest length after arrivals, in cells.
    pub longest: u64,
    /// The least slack after arrivals. None where the list never had a cell.
    pub slack: Option<u64>,
}

/// A cell, named by the slot and the input of its arrival, with its level and its rank.
// Fields lie in memory as they stand here: the wide ones first, so that a cell takes 32 bytes.
#[derive(Clone, Copy, Debug, PartialEq, Eq)]
pub struct Named {
    /// The rank that its output gave it.
    pub rank: u128,
    /// The slot in which it arrived.
    pub slot: Slot,
    /// The input that it came to.
    pub input: Port,
    /// The level of its key.
    pub level: u8,
}

/// A cell that was sent.
#[derive(Clone, Copy, Debug, PartialEq, Eq)]
pub struct Sent {
    /// The slot in which it was sent.
    pub slot: Slot,
    /// The cell.
    pub cell: Named,
}

/// The state of a stopped run: one value for each text, and one text for each value.
#[derive(Drop)]
pub struct State {
    /// What the first lines tell.
    pub head: Head,
    /// What was seen of each input, in order.
    pub inputs: Sequence<Seen>,
    /// The numbers of each output's rank state, in order.
    pub ranks: Sequence<Sequence<u128>>,
    /// The cells in the lists of the inputs.
    pub listed: Sequence<Named>,
    /// The cells in the buffers of the outputs.
    pub buffered: Sequence<Named>,
    /// The departures so far.
    pub sent: Sequence<Sent>,
    /// The transfers so far.
    pub moved: Sequence<Transfer>,
}
