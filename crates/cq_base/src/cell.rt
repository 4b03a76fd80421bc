//! Cells, and where and when they move.
//!
//! A frame crosses the switch in cells of a fixed size. What moves is a name for a piece of the
//! frame, never its bytes, so everything here is small plain data that is copied.
use crate::Key;

/// A port of the switch, numbered from 0. It is an input and an output.
pub type Port = u16;

/// A class of traffic, numbered from 0.
pub type Class = u16;

/// A slot, numbered from 0: the time in which one cell crosses a line.
pub type Slot = u64;

/// Which cell it is. No two cells of a run have the same id.
#[derive(Clone, Copy, Debug, PartialEq, Eq)]
pub struct CellId {
    /// The input that it comes to.
    pub input: Port,
    /// The number of its packet in the capture of that input, from 0.
    pub packet: u32,
    /// Its number in the packet, from 0.
    pub index: u32,
}

/// A cell: a piece of a captured frame that crosses the switch as one.
#[derive(Clone, Copy, Debug, PartialEq, Eq)]
pub struct Cell {
    /// Which cell it is.
    pub id: CellId,
    /// The output that it goes to.
    pub output: Port,
    /// The class of its packet.
    pub class: Class,
    /// Whether it is the last cell of its packet.
    pub last: bool,
    /// Where its piece begins in the captured frame, in bytes.
    pub at: u32,
    /// How long its piece is, in bytes.
    pub len: u32,
}

/// A cell that waits, with the key that it got when it arrived.
#[derive(Clone, Copy, Debug, PartialEq, Eq)]
pub struct Queued {
    /// The cell.
    pub cell: Cell,
    /// How urgent it is.
    pub key: Key,
}

/// A cell that an output sends in a slot.
#[derive(Clone, Copy, Debug, PartialEq, Eq)]
pub struct Departure {
    /// The slot in which it is sent.
    pub slot: Slot,
    /// The output that sends it.
    pub output: Port,
    /// The cell, with its key.
    pub queued: Queued,
}

/// A cell that crosses from an input to an output.
#[derive(Clone, Copy, Debug, PartialEq, Eq)]
pub struct Transfer {
    /// The slot in which it crosses.
    pub slot: Slot,
    /// The matching of the slot that lets it cross: 1 for the first, 2 for the second.
    pub phase: u8,
    /// The input that it leaves.
    pub input: Port,
    /// The output that it comes to.
    pub output: Port,
    /// Which cell crosses.
    pub id: CellId,
}

/// A rank that does not fit 128 bits, of a cell that arrives.
#[derive(Clone, Copy, Debug, PartialEq, Eq)]
pub struct TagFault {
    /// The slot in which the cell arrives.
    pub slot: Slot,
    /// The input that it comes to.
    pub input: Port,
    /// The output that would rank it.
    pub output: Port,
}
