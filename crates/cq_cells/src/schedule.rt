//! What arrives at all inputs.
ghost use Rattle.std.specs.Prelude.{◌≡◌, ℕ, ◌^◌, ◌<◌, ◌≤◌, filter, length, map, replicate, IfOk};
ghost use Rattle.std.specs.List.{range_with_len};
ghost use Rattle.cq_cells.specs.Terms.{arriving, most_ports, arriving_at, end_of, AreAdded, all_of, IsNextArrival, arrivals_at, packets_of, schedule_of, IsRecorded, IsShort, IsTraffic, is_from, is_to, number_of, IsDirectoryOf, AreTables, classes_of, ports_of, t0_of};

use crate::coming::Coming;
use crate::line::Line;
use crate::nearby::Nearby;
use crate::routes::routes_of;
use crate::t0::{earlier, t0_of};
use cq_base::{Arrivals, Cell, NoMemory, Port, Slot};
use cq_pcap::Capture;
use cq_route::{Directory, Tables};
use std::alloc::Global;
use std::marker::Model;
use std::thread::Threads;

/// When the cells of captured packets arrive. Contracts see the stamp from which slots are counted, the
/// number of ports, and all arrivals, input after input and packet after packet.
#[derive(Drop)]
pub struct Schedule {
    t0: u64,
    total: u64,
    end: Slot,
    lines: Vec<Line>,
    to_output: Vec<u64>,
}

impl Model for Schedule {
    ghost use Rattle.std.specs.Prelude.{length};
    ghost use Rattle.cq_cells.specs.Lines.{AreCounted, all_of};
    ghost use Rattle.cq_cells.specs.Scheduled.{Scheduled};

    ghost Value = { Scheduled };

    ghost view = { λ s.
        record { t0 = s.t0; ports = length s.lines.items; came = all_of s.lines.items } };

    ghost invariant = { λ s. AreCounted s.lines.items s.total s.end s.to_output.items };
}

impl Schedule {
    /// The schedule of captures, capture i at input i. The cells of a packet arrive one a slot: the
    /// first in the slot in which its stamp lies, counted from the least stamp of all captures, or in a
    /// later one where the packet before it still arrives. The packets of a capture are routed in threads.
    /// The error is want of memory.
    pub fn of<R: Threads + Sync>(
        rt: &R,
        alloc: Global,
        captures: &[Capture],
        tables: &Tables,
    ) -> Result<Schedule, NoMemory>
        requires tables { AreTables tables.now }
        requires captures { length captures.now ≡ ports_of tables.now.setup }
        ensures schedule { IfOk result (λ s. s ≡ schedule_of tables.now captures.now) }
        ensures traffic { IfOk result (λ s.
            IsTraffic (ports_of tables.now.setup) (classes_of tables.now.setup) s.came) }
        ensures short { IfOk result (λ s. IsShort s.came) }
        ensures recorded { IfOk result (λ _.
            (i : ℕ) → i < length captures.now → IsRecorded (packets_of captures.now i)) }
    {
        let t0 = t0_of(captures);
        let directory = Directory::of(alloc, tables)?;
        let mut to_output = no_cells(alloc, captures.len())?;
        let lines = lines_of(rt, alloc, captures, tables, &directory, t0, &mut to_output)?;
        let total = total_of(&lines);
        let end = end_of(&lines);
        Ok(Schedule {
            t0,
            total,
            end,
            lines,
            to_output,
        })
    }

    // What arrives at the input.
    fn line(&self, input: Port) -> &Line
        requires { input < self.now.ports }
        ensures { result.now ≡ filter (is_from input) self.now.came }
    {
        &self.lines[input as usize]
    }

    /// The cell that arrives in the slot at the input, or None where none does.
    pub fn cell_at(&self, slot: Slot, input: Port) -> Option<Cell>
        requires { input < self.now.ports }
        ensures { result ≡ arriving_at self.now.came slot input }
    {
        self.line(input).cell_at(slot)
    }

    /// All cells that arrive in the slot.
    pub fn arrivals_at(&self, slot: Slot) -> Arrivals
        ensures { result ≡ arriving self.now.came slot }
    {
        let mut coming = Coming::none();
        self.arrive(slot, &mut coming);
        *coming.arrivals()
    }

    /// The cells that arrive in the slot come in place of those that stand there. They are looked for near those that
    /// were found last, so that slots one after another cost no search.
    pub fn arrive(&self, slot: Slot, coming: &mut Coming)
        ensures { coming.new ≡ arriving self.now.came slot }
    {
        coming.fill(&self.lines, slot);
    }

    /// The least slot from this one on in which a cell arrives, or None where none arrives any more. It is looked
    /// up by halving at each input.
    pub fn next_arrival(&self, from: Slot) -> Option<Slot>
        ensures { IsNextArrival self.now.came from result }
    {
        next_of(&self.lines, from, &Nearby::nowhere())
    }

    /// The least slot from this one on in which a cell arrives, or None where there is none. It is looked for near the
    /// cells that were found last, so that the end of a stretch in which none arrives costs no search.
    pub fn next_near(&self, from: Slot, coming: &Coming) -> Option<Slot>
        ensures { IsNextArrival self.now.came from result }
    {
        next_of(&self.lines, from, coming.near())
    }

    /// The least slot from this one on in which a cell arrives at the input, or None where none arrives there any more.
    pub fn next_at(&self, input: Port, from: Slot) -> Option<Slot>
        requires { input < self.now.ports }
        ensures { IsNextArrival (filter (is_from input) self.now.came) from result }
    {
        self.line(input).next_arrival(from)
    }

    /// The stamp from which slots are counted, in nanoseconds: the least one, or 0 where there is no
    /// packet.
    pub fn t0(&self) -> u64
        ensures { result ≡ self.now.t0 }
    {
        self.t0
    }

    /// How many cells arrive.
    pub fn total(&self) -> u64
        ensures cells { result ≡ length self.now.came }
        ensures few { result ≤ 2 ^ 34 }
    {
        self.total
    }

    /// The first slot from which on no cell arrives, or 0 where there is no cell.
    pub fn end(&self) -> Slot
        ensures { result ≡ end_of self.now.came }
    {
        self.end
    }

    /// How many cells arrive at the input.
    pub fn from_input(&self, input: Port) -> u64
        requires { input < self.now.ports }
        ensures { result ≡ number_of (is_from input) self.now.came }
    {
        self.line(input).cells()
    }

    /// How many cells are for the output.
    pub fn to_output(&self, output: Port) -> u64
        requires { output < self.now.ports }
        ensures { result ≡ number_of (is_to output) self.now.came }
    {
        self.to_output[output as usize]
    }
}

// So many counts of nothing. The error is want of memory.
fn no_cells(alloc: Global, outputs: usize) -> Result<Vec<u64>, NoMemory>
    ensures { IfOk result (λ counts. counts.items ≡ replicate outputs 0) }
{
    Ok(vec![in alloc; 0; outputs]?)
}

// The lines of all inputs, of whose cells each is counted for its output. The error is want of memory.
fn lines_of<R: Threads + Sync>(
    rt: &R,
    alloc: Global,
    captures: &[Capture],
    tables: &Tables,
    directory: &Directory,
    t0: u64,
    to_output: &mut [u64],
) -> Result<Vec<Line>, NoMemory>
    requires tables { AreTables tables.now }
    requires directory { IsDirectoryOf tables.now directory.now }
    requires captures { length captures.now ≡ ports_of tables.now.setup }
    requires t0 { t0 ≡ t0_of captures.now }
    requires outputs { to_output.old ≡ replicate (ports_of tables.now.setup) 0 }
    ensures lines { IfOk result (λ lines.
        lines.items ≡ map (arrivals_at tables.now captures.now) (range_with_len 0 (length captures.now))) }
    ensures recorded { IfOk result (λ _. (i : ℕ) → i < length captures.now → IsRecorded (packets_of captures.now i)) }
    ensures outputs { length to_output.new ≡ length to_output.old }
    ensures counts { IfOk result (λ lines. AreAdded (all_of lines.items) to_output.old to_output.new) }
{
    let mut lines = Vec::with_capacity(alloc, captures.len())?;
    'inputs: for input in 0..captures.len() {
        let at = input as Port;
        let routes = routes_of(rt, alloc, at, &captures[input], tables, directory)?;
        let line = Line::of(alloc, at, captures, tables, t0, &routes, to_output)?;
        lines.push_reserved(line);
    }
    Ok(lines)
}

// How many cells arrive at all inputs.
fn total_of(lines: &[Line]) -> u64
    requires { length lines.now ≤ most_ports }
    ensures cells { result ≡ length (all_of lines.now) }
    ensures few { result ≤ 2 ^ 34 }
{
    let mut total = 0;
    'lines: for line in lines {
        total += line.cells();
    }
    total
}

// The first slot from which on no cell arrives at any input.
#[tactic(auto, using(crate::proofs::Owned::end_of_all))]
fn end_of(lines: &[Line]) -> Slot
    ensures { result ≡ end_of (all_of lines.now) }
{
    lines.iter().map(Line::end).fold(0, Slot::max)
}

// The least slot from this one on in which a cell arrives at the inputs of these lines, or None where there is
// none. It is looked for near these places first.
fn next_of(lines: &[Line], from: Slot, near: &Nearby) -> Option<Slot>
    ensures { IsNextArrival (all_of lines.now) from result }
{
    let mut next = None;
    'lines: for (input, line) in lines.iter().enumerate() {
        next = earlier(next, line.next_near(from, near.of_input(input)));
    }
    next
}
