//! Captures, and the slots in which their cells arrive.
ghost use Rattle.std.specs.Prelude.{◌≡◌, ◌<◌};

use super::given::{Come, Given, Switch, Trial, shows};
use cq_base::{Arrivals, Cell, NoMemory, Port, Slot};
use cq_cells::{Coming, Schedule, cells_of};
use std::alloc::Global;
use std::thread::Threads;

// The length of a packet, the bytes of a cell, and how many cells it has.
const LENGTHS: [(u32, u32, u32); 6] = [
    (0, 64, 1),
    (64, 64, 1),
    (65, 64, 2),
    (128, 64, 2),
    (262_144, 64, 4096),
    (60, 65_535, 1),
];

fn have_as_many() -> bool {
    for (length, cell_bytes, cells) in LENGTHS {
        if cells_of(length, cell_bytes) != cells {
            return false;
        }
    }
    true
}

#[test]
fn a_packet_has_as_many_cells_as_it_needs(rt: HostRuntime) {
    assert!(rt; have_as_many());
}

// Of the cell that arrives in a slot its packet, its number, where its piece begins, how long it is, and whether it is
// the last.
type Piece = (u32, u32, u32, u32, bool);

// Of a cell that arrives its packet and its output.
type Arrived = Option<(u32, Port)>;

// What a schedule is to show.
#[derive(Clone, Copy)]
enum Shown {
    // In a slot this arrives at input zero.
    Piece(Slot, Option<Piece>),
    // In slot after slot what is to come in turn arrives at three inputs, and the counts are those of such cells.
    Turns,
    // Of many packets each is counted, and goes to its own output.
    Many,
}

impl Trial for Shown {
    fn is_seen<R: Threads + Sync>(&self, _rt: &R, _alloc: Global, given: Given) -> bool {
        let schedule = given.schedule;
        let ports = given.captures.len();
        match *self {
            Shown::Piece(slot, piece) => 0 < ports && arrives(schedule, slot, piece),
            Shown::Turns => ports == 3 && arrive_in_turn(schedule) && has_counts(schedule),
            Shown::Many => ports == 3 && has_many(schedule) && has_routes(schedule),
        }
    }
}

// Whether this arrives in a slot at input zero.
fn arrives(schedule: &Schedule, slot: Slot, piece: Option<Piece>) -> bool
    requires { 0 < schedule.now.ports }
{
    let cell = schedule.cell_at(slot, 0);
    cell.map(|c| (c.id.packet, c.id.index, c.at, c.len, c.last)) == piece
}

const TOGETHER: &[Come] = &[(0, 64, 0), (0, 65, 0), (0, 128, 0)];

const TURNED: &[Come] = &[(2048, 60, 0), (0, 60, 0)];

const CROWDED: &[Come] = &[(0, 200, 0), (512, 60, 0)];

// Packets that come to one port, a slot, and what arrives in it.
type Row = (&'static [Come], Slot, Option<Piece>);

const PIECES: &[Row] = &[
    (TOGETHER, 0, Some((0, 0, 0, 64, true))),
    (TOGETHER, 1, Some((1, 0, 0, 64, false))),
    (TOGETHER, 2, Some((1, 1, 64, 1, true))),
    (TOGETHER, 3, Some((2, 0, 0, 64, false))),
    (TOGETHER, 4, Some((2, 1, 64, 64, true))),
    (TOGETHER, 5, None),
    (TURNED, 0, None),
    (TURNED, 3, None),
    (TURNED, 4, Some((0, 0, 0, 60, true))),
    (TURNED, 5, Some((1, 0, 0, 60, true))),
    (TURNED, 6, None),
    (CROWDED, 3, Some((0, 3, 192, 8, true))),
    (CROWDED, 4, Some((1, 0, 0, 60, true))),
    (&[], 0, None),
];

#[test]
fn cells_arrive_one_a_slot_from_the_slot_of_their_stamp_on(rt: HostRuntime) {
    for (packets, slot, piece) in PIECES {
        let shown = Shown::Piece(*slot, *piece);
        assert!(rt; shows(&rt, rt.alloc(), Switch::OnePort, &[*packets], &shown));
    }
}

fn arrived(cell: Option<Cell>) -> Arrived {
    cell.map(|cell| (cell.id.packet, cell.output))
}

// Whether these arrive at the three inputs.
fn arrive(arrivals: &Arrivals, first: Arrived, second: Arrived, third: Arrived) -> bool {
    arrived(arrivals.at(0)) == first
        && arrived(arrivals.at(1)) == second
        && arrived(arrivals.at(2)) == third
}

// What arrives at three ports in slot after slot, and in the first again.
const TURNS: &[(Slot, Arrived, Arrived, Arrived)] = &[
    (0, Some((0, 0)), Some((0, 0)), Some((0, 0))),
    (1, None, None, Some((1, 1))),
    (2, None, None, None),
    (0, Some((0, 0)), Some((0, 0)), Some((0, 0))),
];

// Whether these arrive in turn, where a slot is looked up and where it is filled in place.
fn arrive_in_turn(schedule: &Schedule) -> bool {
    let mut coming = Coming::none();
    for (slot, first, second, third) in TURNS {
        schedule.arrive(*slot, &mut coming);
        let looked_up = schedule.arrivals_at(*slot);
        if !arrive(&looked_up, *first, *second, *third)
            || !arrive(coming.arrivals(), *first, *second, *third)
        {
            return false;
        }
    }
    true
}

// Whether four cells, two of them of input two, arrive up to slot two, three for output zero and one for output one.
fn has_counts(schedule: &Schedule) -> bool
    requires { schedule.now.ports ≡ 3 }
{
    (schedule.t0(), schedule.total(), schedule.end()) == (1024, 4, 2)
        && (schedule.from_input(0), schedule.from_input(2)) == (1, 2)
        && (
            schedule.to_output(0),
            schedule.to_output(1),
            schedule.to_output(2),
        ) == (3, 1, 0)
}

// What comes to three ports.
const INPUTS: &[&[Come]] = &[
    &[(1024, 60, 0)],
    &[(1024, 60, 0)],
    &[(1024, 60, 0), (1536, 60, 1)],
];

#[test]
fn each_input_has_its_own_packets(rt: HostRuntime) {
    assert!(rt; shows(&rt, rt.alloc(), Switch::ThreePorts, INPUTS, &Shown::Turns));
}

// Packets of one stamp, every third of which goes to output one.
fn many_packets(alloc: Global) -> Result<Vec<Come>, NoMemory> {
    let mut packets = Vec::new(alloc);
    for k in 0..16_384_u32 {
        packets.push((0, 6, (k % 3) as u8))?;
    }
    Ok(packets)
}

// Whether all of them are counted, also by their outputs.
fn has_many(schedule: &Schedule) -> bool
    requires { schedule.now.ports ≡ 3 }
{
    let outputs = (schedule.to_output(0), schedule.to_output(1));
    (schedule.total(), schedule.end()) == (16384, 16384) && outputs == (10923, 5461)
}

// Packets, each of which arrives in the slot of its number, and their outputs.
const ROUTES: &[(u32, Port)] = &[(0, 0), (1, 1), (8191, 1), (8192, 0), (16382, 0), (16383, 0)];

// Whether each of these arrives so at input zero.
fn has_routes(schedule: &Schedule) -> bool
    requires { schedule.now.ports ≡ 3 }
{
    for (packet, output) in ROUTES {
        if arrived(schedule.cell_at(u64::from(*packet), 0)) != Some((*packet, *output)) {
            return false;
        }
    }
    true
}

// Whether each of many packets goes to its own output.
fn many_are_routed<R: Threads + Sync>(rt: &R, alloc: Global) -> bool {
    match many_packets(alloc) {
        Ok(packets) => {
            let inputs: [&[Come]; 3] = [&packets, &[], &[]];
            shows(rt, alloc, Switch::ThreePorts, &inputs, &Shown::Many)
        }
        Err(_) => false,
    }
}

// A capture this long is split among threads.
#[test]
fn each_of_many_packets_has_its_own_route(rt: HostRuntime) {
    assert!(rt; many_are_routed(&rt, rt.alloc()));
}
