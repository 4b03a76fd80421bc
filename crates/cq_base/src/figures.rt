//! What a run of the fabric is measured by.
use crate::Sequence;

/// What was seen of an input.
#[derive(Clone, Copy, Debug, PartialEq, Eq)]
pub struct InputFigures {
    /// How many cells arrived at it and were admitted. A cell that its output refuses is not counted.
    pub cells: u64,
    /// The greatest length of its list after the arrivals of a slot, in cells.
    pub longest: u64,
    /// The least slack, in cells, that a cell in its list had after the arrivals of a slot: by so much
    /// its cushion exceeded its input thread. None where the list never had a cell.
    pub slack: Option<u64>,
}

/// What was seen of an output.
#[derive(Clone, Copy, Debug, PartialEq, Eq)]
pub struct OutputFigures {
    /// How many cells it sent.
    pub cells: u64,
    /// The greatest number of slots from a cell's arrival to its departure. None where no cell left.
    pub wait: Option<u64>,
}

/// What was seen of a run.
#[derive(Drop)]
pub struct Figures {
    /// How many slots there are up to the last one in which a cell departed, that one included; 0 where none did.
    pub slots: u64,
    /// The proposals of all phases.
    pub proposals: u64,
    /// The greatest number of proposals of one phase.
    pub most: u64,
    /// One for each input, in order.
    pub inputs: Sequence<InputFigures>,
    /// One for each output, in order.
    pub outputs: Sequence<OutputFigures>,
}
