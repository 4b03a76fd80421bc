//! Packets put together from the cells of an output.
ghost use Rattle.std.specs.Prelude.{◌≡◌, ◌≤◌, ℕ, IfOk, None};
ghost use Rattle.cq_base.specs.Limits.{most_classes, most_ports};
ghost use Rattle.cq_reasm.specs.Joining.{HasTaken, IsTakable, nothing_open, open_at};

use crate::open_packets::OpenPackets;
use cq_base::{Cell, NoMemory, Port, Sequence};
use std::alloc::Global;
use std::marker::Model;

/// A packet that is whole.
#[derive(Drop)]
pub struct Joined {
    /// The input that it came to.
    pub input: Port,
    /// Its number in the capture of that input, from 0.
    pub packet: u32,
    /// The captured bytes.
    pub body: Sequence<u8>,
}

/// Puts packets together from their cells. Contracts see the number of inputs and of classes, and for
/// each input and class the packet that is open, if one is: its number, how many of its cells were
/// taken, and their bytes in order.
#[derive(Drop)]
pub struct Joiner {
    inputs: u16,
    classes: u16,
    packets: OpenPackets,
}

impl Model for Joiner {
    ghost use Rattle.std.specs.Prelude.{◌≡◌, ◌*◌, length};
    ghost use Rattle.cq_reasm.specs.Joining.{JoinerView};

    ghost Value = { JoinerView };

    ghost view = { λ j. record { inputs = j.inputs; classes = j.classes; open_packets = j.packets } };

    ghost invariant = { λ j. length j.packets ≡ j.inputs * j.classes };
}

impl Joiner {
    /// No packet is open. There are 1 to 64 inputs and 1 to 16 classes. The joiner keeps the allocator
    /// for the packets. The error is want of memory.
    pub fn new(alloc: Global, inputs: u16, classes: u16) -> Result<Joiner, NoMemory>
        requires inputs { 1 ≤ inputs × inputs ≤ most_ports }
        requires classes { 1 ≤ classes × classes ≤ most_classes }
        ensures joiner { IfOk result (λ j. j ≡ nothing_open inputs classes) }
        ensures nothing { IfOk result (λ j. (input class : ℕ) → open_at j input class ≡ None) }
    {
        let places = usize::from(inputs) * usize::from(classes);
        Ok(Joiner {
            inputs,
            classes,
            packets: OpenPackets::new(alloc, places)?,
        })
    }

    /// Takes a cell with the bytes of its piece. It is the next cell of its input and class: the next of
    /// the packet that is open, or the first of a packet where none is.
    ///
    /// At the last cell of a packet it gives the packet whole, with the pieces of its cells in order,
    /// and then none of the input and class is open. At any other cell it gives None, and the packet is
    /// open with one more cell taken. The packets of all other inputs and classes are as before.
    ///
    /// The error is want of memory, and then all is as before.
    pub fn take(&mut self, cell: &Cell, piece: &[u8]) -> Result<Option<Joined>, NoMemory>
        requires { IsTakable self.old cell.now piece.now }
        ensures { HasTaken self.old self.new cell.now piece.now result }
    {
        self.take_reserving(cell, piece, piece.len())
    }

    /// Does what [`take`](Joiner::take) does. A packet that is opened gets memory for so many bytes at once: where
    /// that is its length it never moves while it grows, and has no more than it fills.
    pub fn take_reserving(
        &mut self,
        cell: &Cell,
        piece: &[u8],
        room: usize,
    ) -> Result<Option<Joined>, NoMemory>
        requires { IsTakable self.old cell.now piece.now }
        ensures { HasTaken self.old self.new cell.now piece.now result }
    {
        let id = cell.id;
        let place = usize::from(id.input) * usize::from(self.classes) + usize::from(cell.class);
        self.packets.add(place, id.packet, id.index, piece, room)?;
        if !cell.last {
            return Ok(None);
        }
        let body = self.packets.close(place);
        Ok(body.map(|body| Joined {
            input: id.input,
            packet: id.packet,
            body: Sequence::of(body),
        }))
    }
}
