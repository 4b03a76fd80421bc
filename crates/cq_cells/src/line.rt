//! The cells that arrive at one input. Each packet has a row, and a slot is looked up among the rows near where the one
//! before was, or by halving: the work grows with the logarithm of the number of packets at most.
ghost use Rattle.std.specs.Prelude.{◌≡◌, ℕ, ◌+◌, ◌-◌, ◌/◌, ◌==◌, ◌^◌, ◌<◌, ◌≤◌, find, length, map, max, option_map, slice_index_or, IfOk, IsTrue};
ghost use Rattle.std.specs.List.Sorted.{IsNonDecreasingBy};
ghost use Rattle.cq_cells.specs.Terms.{end_of, longest_file, AreAdded, AreRows, IsBegun, IsEnded, row_at, row_cell, IsNextArrival, arrivals_at, cells_of, packets_of, IsRecorded, route, AreTables, ports_of, t0_of};

use crate::segments::cells_of;
use cq_base::{Cell, CellId, Class, NoMemory, Port, Slot};
use cq_pcap::{Capture, PacketRow};
use cq_route::Tables;
use std::alloc::Global;
use std::marker::Model;

/// When a packet arrives, and how it is cut.
#[derive(Clone, Copy)]
pub struct Row {
    /// The slot of its first cell.
    pub start: u64,
    /// The number of its cells.
    pub cells: u32,
    /// The output that it goes to.
    pub output: Port,
    /// Its class.
    pub class: Class,
    /// How many bytes of it were captured.
    pub len: u32,
}

/// What arrives at an input. Contracts see it as its arrivals, in order.
#[derive(Drop)]
pub struct Line {
    input: Port,
    cell_bytes: u32,
    cells: u64,
    end: Slot,
    rows: Vec<Row>,
}

impl Model for Line {
    ghost use Rattle.std.specs.Prelude.{◌≡◌, ◌≤◌, List, length};
    ghost use Rattle.cq_base.specs.Arriving.{Arrival, end_of};
    ghost use Rattle.cq_base.specs.Limits.{longest_file};
    ghost use Rattle.cq_cells.specs.Lines.{AreRows, line_arrivals};

    ghost Value = { List Arrival };

    ghost view = { λ l. line_arrivals l.input l.cell_bytes l.rows.items };

    ghost invariant = { λ l.
        AreRows l.cell_bytes l.rows.items × (l.cells ≡ length (line_arrivals l.input l.cell_bytes l.rows.items)) ×
        (l.cells ≤ longest_file) × (l.end ≡ end_of (line_arrivals l.input l.cell_bytes l.rows.items)) };
}

impl Line {
    /// How many cells arrive.
    pub fn cells(&self) -> u64
        ensures cells { result ≡ length self.now }
        ensures few { result ≤ longest_file }
    {
        self.cells
    }

    /// The first slot from which on no cell arrives.
    pub fn end(&self) -> Slot
        ensures { result ≡ end_of self.now }
    {
        self.end
    }

    /// The cell that arrives in the slot.
    pub fn cell_at(&self, slot: Slot) -> Option<Cell>
        ensures { result ≡ option_map (λ a. a.cell) (find (λ a. a.slot == slot) self.now) }
    {
        self.cell_near(slot, 0)
    }

    /// The cell that arrives in the slot. Where so many packets have begun, or one more, it is found at once.
    pub fn cell_near(&self, slot: Slot, near: usize) -> Option<Cell>
        ensures { result ≡ option_map (λ a. a.cell) (find (λ a. a.slot == slot) self.now) }
    {
        let packet = begun_near(&self.rows, slot, near).checked_sub(1)?;
        let row = self.rows[packet];
        let index = slot - row.start;
        if index >= u64::from(row.cells) {
            return None;
        }
        let id = CellId {
            input: self.input,
            packet: packet as u32,
            index: index as u32,
        };
        Some(row.cell(self.cell_bytes, id))
    }

    /// The least slot from this one on in which a cell arrives, or None where there is none.
    pub fn next_arrival(&self, from: Slot) -> Option<Slot>
        ensures { IsNextArrival self.now from result }
    {
        self.next_near(from, 0)
    }

    /// The least slot from this one on in which a cell arrives, or None where there is none. Where so many packets have
    /// begun, or one more, it is found at once.
    #[tactic(auto, using(crate::proofs::Looked::next_steps))]
    pub fn next_near(&self, from: Slot, near: usize) -> Option<Slot>
        ensures { IsNextArrival self.now from result }
    {
        let row = self
            .rows
            .get(ended(&self.rows, self.cell_bytes, from, near))?;
        Some(row.start.max(from))
    }

    /// The arrivals at an input, whose packets go where they are routed. Each is counted for its output. The
    /// error is want of memory.
    pub fn of(
        alloc: Global,
        input: Port,
        captures: &[Capture],
        tables: &Tables,
        t0: u64,
        routes: &[(Port, Class)],
        to_output: &mut [u64],
    ) -> Result<Line, NoMemory>
        requires tables { AreTables tables.now }
        requires place { input < length captures.now }
        requires t0 { t0 ≡ t0_of captures.now }
        requires routes { routes.now ≡ map (λ p. route tables.now input p.body) (packets_of captures.now input) }
        requires outputs { length to_output.old ≡ ports_of tables.now.setup }
        requires room { (j : ℕ) → j < length to_output.old → slice_index_or to_output.old j 0 + longest_file < 2 ^ 64 }
        ensures line { IfOk result (λ line. line ≡ arrivals_at tables.now captures.now input) }
        ensures few { IfOk result (λ line. length line ≤ longest_file) }
        ensures recorded { IfOk result (λ _. IsRecorded (packets_of captures.now input)) }
        ensures outputs { length to_output.new ≡ length to_output.old }
        ensures counts { IfOk result (λ _.
            AreAdded (arrivals_at tables.now captures.now input) to_output.old to_output.new) }
    {
        let capture = &captures[input as usize];
        let packets = capture.rows();
        let mut rows = Vec::with_capacity(alloc, packets.len())?;
        let mut free = 0;
        let mut cells = 0;
        'packets: for k in 0..packets.len() {
            let row = row_of(tables, t0, free, packets[k], routes[k]);
            free = row.start + u64::from(row.cells);
            cells += u64::from(row.cells);
            to_output[row.output as usize] += u64::from(row.cells);
            rows.push_reserved(row);
        }
        Ok(Line {
            input,
            cell_bytes: tables.cell_bytes,
            cells,
            end: free,
            rows,
        })
    }
}

// How many packets have begun in the slot.
fn begun(rows: &[Row], slot: Slot) -> usize
    requires { IsNonDecreasingBy (λ row. row.start) rows.now }
    ensures few { result ≤ length rows.now }
    ensures begun { IsBegun rows.now slot result }
{
    rows.partition_point(|row| row.start <= slot)
}

// The same. It is tried first whether they are so many, or one more.
fn begun_near(rows: &[Row], slot: Slot, near: usize) -> usize
    requires { IsNonDecreasingBy (λ row. row.start) rows.now }
    ensures few { result ≤ length rows.now }
    ensures begun { IsBegun rows.now slot result }
{
    if is_begun(rows, slot, near) {
        return near;
    }
    let more = near.saturating_add(1);
    if is_begun(rows, slot, more) {
        return more;
    }
    begun(rows, slot)
}

// Whether so many packets have begun in the slot: there are so many, the last of them has, and the one after it has
// not.
fn is_begun(rows: &[Row], slot: Slot, number: usize) -> bool
    requires { IsNonDecreasingBy (λ row. row.start) rows.now }
    ensures { IsTrue result → (number ≤ length rows.now) × IsBegun rows.now slot number }
{
    if rows.len() < number {
        return false;
    }
    slot < start_after(rows, number) && start_before(rows, number) <= slot
}

// When the packet after so many begins, or the last slot where there is none.
fn start_after(rows: &[Row], number: usize) -> Slot
    ensures { number < length rows.now → result ≡ (row_at rows.now number).start }
{
    match rows.get(number) {
        Some(row) => row.start,
        None => u64::MAX,
    }
}

// When the last of so many packets begins, or the first slot where there is none.
fn start_before(rows: &[Row], number: usize) -> Slot
    ensures { 0 < number → number ≤ length rows.now → result ≡ (row_at rows.now (number - 1)).start }
{
    match number.checked_sub(1) {
        Some(last) => start_after(rows, last),
        None => 0,
    }
}

// How many packets have arrived whole before the slot. Of those that have begun only the last may not have.
#[tactic(auto, using(crate::proofs::Looked::starts_rise))]
fn ended(rows: &[Row], _cell_bytes: u32, slot: Slot, near: usize) -> usize
    requires { AreRows _cell_bytes rows.now }
    ensures few { result ≤ length rows.now }
    ensures ended { IsEnded rows.now slot result }
{
    let begun = begun_near(rows, slot, near);
    match begun.checked_sub(1) {
        Some(last) if slot - rows[last].start < u64::from(rows[last].cells) => last,
        _ => begun,
    }
}

// The row of a packet that can begin in this slot at the earliest.
fn row_of(tables: &Tables, t0: u64, free: u64, packet: PacketRow, way: (Port, Class)) -> Row
    requires tables { AreTables tables.now }
    ensures start { result.start ≡ max ((packet.stamp - t0) / tables.now.slot_ns) free }
    ensures cells { result.cells ≡ cells_of packet.len tables.now.cell_bytes }
    ensures route { (result.output, result.class) ≡ way }
    ensures len { result.len ≡ packet.len }
{
    let (output, class) = way;
    let slot = packet.stamp.saturating_sub(t0) / tables.slot_ns;
    Row {
        start: slot.max(free),
        cells: cells_of(packet.len, tables.cell_bytes),
        output,
        class,
        len: packet.len,
    }
}

impl Row {
    // The cell of the packet with this id.
    #[tactic(auto, using(crate::proofs::Pieces::piece_begins))]
    fn cell(&self, cell_bytes: u32, id: CellId) -> Cell
        requires some { 1 ≤ cell_bytes }
        requires cut { self.now.cells ≡ cells_of self.now.len cell_bytes }
        requires index { id.index < self.now.cells }
        ensures { result ≡ row_cell id.input cell_bytes id.packet self.now id.index }
    {
        let at = id.index * cell_bytes;
        Cell {
            id,
            output: self.output,
            class: self.class,
            last: id.index + 1 == self.cells,
            at,
            len: cell_bytes.min(self.len - at),
        }
    }
}
