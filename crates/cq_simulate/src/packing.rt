//! The captures of what leaves all outputs, built in one pass over the departures.
ghost use Rattle.std.specs.Prelude.{◌≡◌, ◌≤◌, All, IfOk, OnOk, length};
ghost use Rattle.cq_simulate.specs.Terms.{t0_of, most_classes, most_ports, ArePacked, HaveLeftOf, CanBeJoined, IsEmptied, Took};

use crate::packets::{frame_of, original_of, stamp_of, take};
use cq_base::{Cell, Departure, Departures, NoMemory, PackedDeparture};
use cq_pcap::{Capture, FILE_HEADER, RECORD_HEADER, begin_capture, put_packet};
use cq_reasm::Joiner;
use cq_route::Tables;
use std::alloc::Global;

/// What is put together at an output: the packets that have left it, as a capture, and those that are open there.
#[derive(Drop)]
pub struct Packing {
    joiner: Joiner,
    /// The bytes of the capture of the packets that have left, in the order in which their last cells departed.
    pub bytes: Vec<u8>,
}

/// The captures of the packets that leave each output, in order of output: at each those of
/// [`packets_of`](crate::packets_of). The departures are used up, and give their memory back, while the captures grow.
/// Each capture is given its room at the start. The error is want of memory.
#[tactic(auto, unfolding(crate::specs::Packets::packets_out), using(crate::proofs::AllPacked::all_packed))]
pub fn packets_of_all(
    alloc: Global,
    sent: Departures,
    captures: &[Capture],
    tables: &Tables,
    t0: u64,
) -> Result<Vec<Packing>, NoMemory>
    requires { HaveLeftOf tables.now captures.now sent.items t0 }
    ensures { IfOk result (λ places. ArePacked tables.now captures.now sent.items places.items) }
{
    let ports = captures.len() as u16;
    let classes = tables.setup.classes.as_slice().len() as u16;
    let rooms = rooms_of(alloc, ports, sent.as_slice())?;
    let mut places = emptied(alloc, ports, classes, &rooms)?;
    let mut left = sent.into_supply();
    'departures: while let Some(packed) = left.pop_first() {
        let departure = packed.departure();
        places[departure.output as usize].take(&departure, captures, tables, t0)?;
    }
    Ok(places)
}

// How many bytes the capture of each output comes to.
fn rooms_of(alloc: Global, ports: u16, sent: &[PackedDeparture]) -> Result<Vec<usize>, NoMemory>
    ensures { IfOk result (λ rooms. length rooms.items ≡ ports) }
{
    let mut rooms = vec![in alloc; FILE_HEADER; ports as usize]?;
    'departures: for packed in sent {
        let departure = packed.departure();
        if let Some(room) = rooms.get_mut(departure.output as usize) {
            *room = room.saturating_add(room_of(&departure.queued.cell));
        }
    }
    Ok(rooms)
}

// How many of them come of a cell: its piece, and with the last cell the record's header.
fn room_of(cell: &Cell) -> usize {
    let header = if cell.last { RECORD_HEADER } else { 0 };
    header + cell.len as usize
}

// At so many outputs no packet is open and none has left. There are as many inputs.
fn emptied(
    alloc: Global,
    ports: u16,
    classes: u16,
    rooms: &[usize],
) -> Result<Vec<Packing>, NoMemory>
    requires ports { 1 ≤ ports × ports ≤ most_ports }
    requires classes { 1 ≤ classes × classes ≤ most_classes }
    requires rooms { length rooms.now ≡ ports }
    ensures outputs { IfOk result (λ places. length places.items ≡ ports) }
    ensures each { IfOk result (λ places. All (IsEmptied ports classes) places.items) }
{
    let mut places = Vec::with_capacity(alloc, ports as usize)?;
    'places: while places.len() < ports as usize {
        places.push(Packing::new(alloc, ports, classes, rooms[places.len()])?)?;
    }
    Ok(places)
}

impl Packing {
    // No packet is open, and none has left.
    fn new(alloc: Global, inputs: u16, classes: u16, room: usize) -> Result<Packing, NoMemory>
        requires inputs { 1 ≤ inputs × inputs ≤ most_ports }
        requires classes { 1 ≤ classes × classes ≤ most_classes }
        ensures { IfOk result (IsEmptied inputs classes) }
    {
        let joiner = Joiner::new(alloc, inputs, classes)?;
        let bytes = begin_capture(alloc, room)?;
        Ok(Packing { joiner, bytes })
    }

    // Takes the cell that departs. If it is the last of its packet, that packet has left. A packet of one cell is not
    // opened.
    fn take(
        &mut self,
        departure: &Departure,
        captures: &[Capture],
        tables: &Tables,
        t0: u64,
    ) -> Result<(), NoMemory>
        requires slot_ns { tables.now.slot_ns ≤ 1000000000 }
        requires t0 { t0 ≡ t0_of captures.now }
        requires can { CanBeJoined captures.now self.old.joiner departure.now }
        ensures { OnOk result (Took tables.now captures.now departure.now self.old self.new) }
    {
        let cell = &departure.queued.cell;
        if cell.last && cell.id.index == 0 {
            let stamp = stamp_of(departure.slot, tables, t0);
            let original = original_of(captures, cell.id.input, cell.id.packet);
            return put_packet(&mut self.bytes, stamp, original, frame_of(captures, cell));
        }
        let left = take(&mut self.joiner, departure, captures, tables, t0)?;
        match left {
            None => Ok(()),
            Some(packet) => {
                let body = packet.body.as_slice();
                put_packet(&mut self.bytes, packet.stamp, packet.original, body)
            }
        }
    }
}
