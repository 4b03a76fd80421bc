//! The packets that leave an output.
ghost use Rattle.std.specs.Prelude.{◌≡◌, ◌+◌, ◌*◌, ◌<◌, ◌≤◌, ℕ, All, IfOk, IfSome, None, OnOk, [], length};
ghost use Rattle.cq_cells.specs.Schedule.{packets_of as packets_at};
ghost use Rattle.cq_simulate.specs.Terms.{longest_body, t0_of, packet_at, ports_of, IsOtherPair, open_after, open_at, HaveLeftOf, packets_out, Fits, IsCaptured, left_with, piece_at};

use cq_base::{Cell, Departure, NoMemory, Port, Slot};
use cq_pcap::{Capture, OutPacket};
use cq_reasm::{Joined, Joiner};
use cq_route::Tables;
use std::alloc::Global;

/// The packets that leave an output, in the order in which their last cells depart: each with the stamp of that slot,
/// its original length, and its captured bytes. `sent` is what departs of the cells that come over the schedule of
/// these captures: of each input, class and output whole packets, one after another, in whatever order. What a run that
/// comes to its end sends is so, and each of these in the order of arrival (`runs_leave_whole_packets`). `t0` is the
/// stamp from which its slots are counted, in nanoseconds. From an output that is no port nothing departs, so no packet
/// leaves it; and a packet that is refused does not leave. The error is want of memory.
#[tactic(auto, using(crate::proofs::AllPacked::nowhere))]
pub fn packets_of(
    alloc: Global,
    output: Port,
    sent: &[Departure],
    captures: &[Capture],
    tables: &Tables,
    t0: u64,
) -> Result<Vec<OutPacket>, NoMemory>
    requires { HaveLeftOf tables.now captures.now sent.now t0 }
    ensures packets { IfOk result (λ packets. packets.items ≡ packets_out tables.now captures.now sent.now output) }
    ensures nowhere { ports_of tables.now.setup ≤ output → IfOk result (λ packets. packets.items ≡ []) }
    ensures bodies { IfOk result (λ packets. All (λ p. length p.body ≤ longest_body) packets.items) }
{
    let inputs = captures.len() as u16;
    let classes = tables.setup.classes.as_slice().len() as u16;
    let mut joiner = Joiner::new(alloc, inputs, classes)?;
    let mut packets = Vec::new(alloc);
    let put = put_together(
        &mut joiner,
        &mut packets,
        output,
        sent,
        captures,
        tables,
        t0,
    );
    drop(joiner);
    put?;
    Ok(packets)
}

// Puts together the packets that leave an output, into a list that is empty, with a joiner at which none is open.
fn put_together(
    joiner: &mut Joiner,
    packets: &mut Vec<OutPacket>,
    output: Port,
    sent: &[Departure],
    captures: &[Capture],
    tables: &Tables,
    t0: u64,
) -> Result<(), NoMemory>
    requires of { HaveLeftOf tables.now captures.now sent.now t0 }
    requires inputs { joiner.old.inputs ≡ length captures.now }
    requires classes { joiner.old.classes ≡ length tables.now.setup.classes }
    requires nothing { (input class : ℕ) → open_at joiner.old input class ≡ None }
    requires none { packets.old.items ≡ [] }
    ensures packets { OnOk result (packets.new.items ≡ packets_out tables.now captures.now sent.now output) }
    ensures bodies { OnOk result (All (λ p. length p.body ≤ longest_body) packets.new.items) }
{
    'departures: for departure in sent {
        if departure.output == output {
            let left = take(joiner, departure, captures, tables, t0)?;
            if let Some(packet) = left {
                packets.push(packet)?;
            }
        }
    }
    Ok(())
}

/// Takes the cell that departs. If it is the last of its packet, that packet leaves.
pub(crate) fn take(
    joiner: &mut Joiner,
    departure: &Departure,
    captures: &[Capture],
    tables: &Tables,
    t0: u64,
) -> Result<Option<OutPacket>, NoMemory>
    requires slot_ns { tables.now.slot_ns ≤ 1000000000 }
    requires t0 { t0 ≡ t0_of captures.now }
    requires input { departure.now.queued.cell.id.input < joiner.old.inputs }
    requires class { departure.now.queued.cell.class < joiner.old.classes }
    requires captured { IsCaptured captures.now departure.now.queued.cell }
    requires fits { Fits captures.now
        (open_at joiner.old departure.now.queued.cell.id.input departure.now.queued.cell.class)
        departure.now.queued.cell }
    ensures packet { IfOk result (λ left. left ≡ left_with tables.now captures.now departure.now) }
    ensures body { IfOk result (λ left. IfSome left (λ p. length p.body ≤ longest_body)) }
    ensures inputs { joiner.new.inputs ≡ joiner.old.inputs }
    ensures classes { joiner.new.classes ≡ joiner.old.classes }
    ensures pair { OnOk result (open_at joiner.new departure.now.queued.cell.id.input departure.now.queued.cell.class ≡
        open_after (open_at joiner.old departure.now.queued.cell.id.input departure.now.queued.cell.class)
        departure.now.queued.cell (piece_at captures.now departure.now.queued.cell)) }
    ensures others { (input class : ℕ) → class < joiner.old.classes →
        IsOtherPair input class departure.now.queued.cell →
        open_at joiner.new input class ≡ open_at joiner.old input class }
{
    let cell = &departure.queued.cell;
    let whole = frame_of(captures, cell).len();
    let joined = joiner.take_reserving(cell, piece_of(captures, cell), whole)?;
    match joined {
        None => Ok(None),
        Some(joined) => Ok(Some(leaving(departure.slot, joined, captures, tables, t0))),
    }
}

/// The captured bytes of a cell's packet.
pub(crate) fn frame_of<'a>(captures: &'a [Capture], cell: &Cell) -> &'a [u8]
    requires { IsCaptured captures.now cell.now }
    ensures { result.now ≡ (packet_at captures.now cell.now.id.input cell.now.id.packet).body }
{
    let capture = &captures[cell.id.input as usize];
    capture.body(cell.id.packet as usize)
}

// The bytes of a cell's piece.
fn piece_of<'a>(captures: &'a [Capture], cell: &Cell) -> &'a [u8]
    requires { IsCaptured captures.now cell.now }
    ensures piece { result.now ≡ piece_at captures.now cell.now }
    ensures len { length result.now ≡ cell.now.len }
{
    let frame = frame_of(captures, cell);
    let at = cell.at as usize;
    &frame[at..at + cell.len as usize]
}

// A packet that is whole, with the stamp of the slot.
fn leaving(slot: Slot, joined: Joined, captures: &[Capture], tables: &Tables, t0: u64) -> OutPacket
    requires slot_ns { tables.now.slot_ns ≤ 1000000000 }
    requires t0 { t0 ≡ t0_of captures.now }
    requires input { joined.input < length captures.now }
    requires packet { joined.packet < length (packets_at captures.now joined.input) }
    ensures stamp { result.stamp ≡ t0_of captures.now + slot * tables.now.slot_ns }
    ensures original { result.original ≡ (packet_at captures.now joined.input joined.packet).original }
    ensures body { result.body ≡ joined.body }
    ensures small { length (packet_at captures.now joined.input joined.packet).body ≤ longest_body }
{
    OutPacket {
        stamp: stamp_of(slot, tables, t0),
        original: original_of(captures, joined.input, joined.packet),
        body: joined.body,
    }
}

/// The stamp of what leaves in a slot.
pub(crate) fn stamp_of(slot: Slot, tables: &Tables, t0: u64) -> u128
    requires { tables.now.slot_ns ≤ 1000000000 }
    ensures { result ≡ t0 + slot * tables.now.slot_ns }
{
    u128::from(t0) + u128::from(slot) * u128::from(tables.slot_ns)
}

/// The original length of a captured packet.
#[tactic(auto, using(crate::proofs::AllPacked::original_steps))]
pub(crate) fn original_of(captures: &[Capture], input: Port, packet: u32) -> u32
    requires input { input < length captures.now }
    requires packet { packet < length (packets_at captures.now input) }
    ensures original { result ≡ (packet_at captures.now input packet).original }
    ensures small { length (packet_at captures.now input packet).body ≤ longest_body }
{
    let capture = &captures[input as usize];
    capture.rows()[packet as usize].original
}
