//! Small captures through switches of one and three ports.
ghost use Rattle.std.specs.Prelude.{◌≡◌, ◌≤◌, length};
ghost use Rattle.cq_base.specs.Limits.{longest_file};
ghost use Rattle.cq_route.specs.Tables.{ports_of};
ghost use Rattle.cq_cells.specs.Scheduled.{schedule_of};
ghost use Rattle.cq_simulate.specs.Packets.{HaveLeftOf};
ghost use Rattle.cq_simulate.specs.ScheduleFor.{IsScheduleFor};

use super::given::{Come, Given, Switch, Trial, shows};
use cq_base::{Departure, Port, TagFault, Transfer};
use cq_crew::OpenGate;
use cq_pcap::{OutPacket, PacketRow, read_capture};
use cq_simulate::{
    FabricRun, IdealRun, Packing, Refused, RunRefusal, packets_of, packets_of_all, run_fabric,
    run_ideal, run_ideal_packed, runs_leave_whole_packets,
};
use std::alloc::Global;
use std::thread::Threads;

/// Of a departure the slot, the output, and the cell by input, packet and number.
type Sent = (u64, u16, u16, u32, u32);

/// Of a transfer the slot, the phase, the input, the output and the packet.
type Crossed = (u64, u8, u16, u16, u32);

/// Of a packet that leaves the stamp, the length on the wire, and how many bytes were captured.
type Left = (u128, u32, usize);

/// What a switch is to show.
#[derive(Clone, Copy)]
enum Shown<'a> {
    /// The ideal switch and the fabric take so many slots, and these cells leave.
    Trace(u64, &'a [Sent]),
    /// Both stop at this fault.
    Fault(TagFault),
    /// The fabric makes so many proposals, and these cells cross it.
    Log(u64, &'a [Crossed]),
    /// The fabric refuses these.
    Refused(&'a [Refused]),
    /// These packets leave the output, both where they are put together for it alone and where those of all outputs
    /// are in one pass.
    Packets(Port, &'a [Left]),
}

// A run: the switch, the packets that come to its inputs, and what it is to show.
type Run = (Switch, &'static [&'static [Come]], Shown<'static>);

impl<'a> Trial for Shown<'a> {
    fn is_seen<R: Threads + Sync>(&self, rt: &R, alloc: Global, given: Given) -> bool {
        let Shown::Packets(output, left) = *self else {
            return is_seen_ideally(alloc, given, *self) && is_kept(rt, alloc, given, *self);
        };
        let Ok(run) = run_ideal(alloc, given.tables, given.schedule) else {
            return false;
        };
        runs_leave_whole_packets();
        leave_alone(alloc, given, run.sent.items(), output, left)
            && leave_in_one_pass(alloc, given, output, left)
    }
}

// Whether a run that has no result shows it.
fn is_stopped(refusal: RunRefusal, shown: Shown) -> bool {
    match shown {
        Shown::Fault(fault) => refusal == RunRefusal::Tag(fault),
        _ => false,
    }
}

// Whether the run of the ideal switch shows it, where that is to show something.
fn is_seen_ideally(alloc: Global, given: Given, shown: Shown) -> bool
    requires { IsScheduleFor given.tables.now given.schedule.now }
{
    match run_ideal(alloc, given.tables, given.schedule) {
        Ok(run) => shows_ideally(&run, shown),
        Err(refusal) => is_stopped(refusal, shown),
    }
}

fn shows_ideally(run: &IdealRun, shown: Shown) -> bool {
    match shown {
        Shown::Trace(slots, sent) => run.slots == slots && are(run.sent.items(), sent),
        Shown::Fault(_) => false,
        _ => true,
    }
}

// Whether the run of the fabric shows it.
fn is_kept<R: Threads + Sync>(rt: &R, alloc: Global, given: Given, shown: Shown) -> bool
    requires { IsScheduleFor given.tables.now given.schedule.now }
{
    match run_fabric(rt, alloc, given.tables, given.schedule, &OpenGate) {
        Ok(run) => keeps(&run, shown),
        Err(refusal) => is_stopped(refusal, shown),
    }
}

fn keeps(run: &FabricRun, shown: Shown) -> bool {
    match shown {
        Shown::Trace(slots, sent) => run.figures.slots == slots && are(run.sent.items(), sent),
        Shown::Log(proposals, log) => {
            run.figures.proposals == proposals && are(run.note.items(), log)
        }
        Shown::Refused(refused) => run.refused.as_slice() == refused,
        _ => false,
    }
}

// Whether these packets leave the output, where they are put together of what departs for it alone.
fn leave_alone(alloc: Global, given: Given, sent: &[Departure], output: Port, left: &[Left]) -> bool
    requires { HaveLeftOf given.tables.now given.captures.now sent.now given.schedule.now.t0 }
{
    let t0 = given.schedule.t0();
    match packets_of(alloc, output, sent, given.captures, given.tables, t0) {
        Ok(packets) => are(&packets, left),
        Err(_) => false,
    }
}

// Whether they do where those of all outputs are put together in one pass.
fn leave_in_one_pass(alloc: Global, given: Given, output: Port, left: &[Left]) -> bool
    requires captures { length given.captures.now ≡ ports_of given.tables.now.setup }
    requires came { given.schedule.now ≡ schedule_of given.tables.now given.captures.now }
    requires schedule { IsScheduleFor given.tables.now given.schedule.now }
{
    let Ok(sent) = run_ideal_packed(alloc, given.tables, given.schedule) else {
        return false;
    };
    runs_leave_whole_packets();
    let t0 = given.schedule.t0();
    match packets_of_all(alloc, sent, given.captures, given.tables, t0) {
        Ok(places) => are_packed(alloc, &places, output, left),
        Err(_) => false,
    }
}

// Whether they stand at the place of the output.
fn are_packed(alloc: Global, places: &[Packing], output: Port, left: &[Left]) -> bool {
    match places.get(output as usize) {
        Some(place) => hold(alloc, &place.bytes, left),
        None => false,
    }
}

// What can be told in short.
trait IsTold<T> {
    fn is(&self, told: &T) -> bool;
}

impl IsTold<Sent> for Departure {
    fn is(&self, told: &Sent) -> bool {
        let id = self.queued.cell.id;
        (self.slot, self.output, id.input, id.packet, id.index) == *told
    }
}

impl IsTold<Crossed> for Transfer {
    fn is(&self, told: &Crossed) -> bool {
        (
            self.slot,
            self.phase,
            self.input,
            self.output,
            self.id.packet,
        ) == *told
    }
}

impl IsTold<Left> for OutPacket {
    fn is(&self, told: &Left) -> bool {
        (self.stamp, self.original, self.body.as_slice().len()) == *told
    }
}

impl IsTold<Left> for PacketRow {
    fn is(&self, told: &Left) -> bool {
        (u128::from(self.stamp), self.original, self.len as usize) == *told
    }
}

// Whether these are told so, one after the other.
fn are<T: IsTold<U>, U>(found: &[T], told: &[U]) -> bool {
    if found.len() != told.len() {
        return false;
    }
    for (one, so) in found.iter().zip(told) {
        if !one.is(so) {
            return false;
        }
    }
    true
}

// Whether the bytes are a capture of such packets.
fn hold(alloc: Global, bytes: &[u8], left: &[Left]) -> bool {
    if bytes.len() > 1 << 28 {
        return false;
    }
    match bytes.to_vec(alloc) {
        Ok(bytes) => is_capture_of(alloc, bytes, left),
        Err(_) => false,
    }
}

fn is_capture_of(alloc: Global, bytes: Vec<u8>, left: &[Left]) -> bool
    requires { length bytes.items ≤ longest_file }
{
    match read_capture(alloc, bytes) {
        Ok(capture) => are(capture.rows(), left),
        Err(_) => false,
    }
}

const TOGETHER: &[Come] = &[(0, 64, 0), (0, 65, 0), (0, 128, 0)];

// Cells of three inputs come for output 0, and one slot later a cell of input 2 for output 1.
const WAITING: &[&[Come]] = &[&[(0, 60, 0)], &[(0, 60, 0)], &[(0, 60, 0), (512, 60, 1)]];

// What leaves of these.
const WAITED: &[Sent] = &[
    (0, 0, 0, 0, 0),
    (1, 0, 1, 0, 0),
    (1, 1, 2, 1, 0),
    (2, 0, 2, 0, 0),
];

// What crosses of these, to an output one cell a phase.
const CROSSED: &[Crossed] = &[
    (0, 1, 0, 0, 0),
    (0, 2, 1, 0, 0),
    (1, 1, 2, 1, 1),
    (1, 2, 2, 0, 0),
];

// The two cells of input 1 come in slots 0 and 1, and output 0, which one cell fills, is empty in slot 1. The run goes
// on to slot 5, in which the next packet finds room.
const CROWDING: &[&[Come]] = &[&[(0, 60, 0)], &[(0, 128, 0), (2560, 60, 0)], &[]];

const RUNS: &[Run] = &[
    // Packets pass one line as they came.
    (
        Switch::OnePort,
        &[TOGETHER],
        Shown::Packets(0, &[(0, 68, 64), (1024, 69, 65), (2048, 132, 128)]),
    ),
    // No packet comes.
    (Switch::OnePort, &[&[]], Shown::Trace(0, &[])),
    // Cells wait for their output after the last has arrived.
    (Switch::ThreePorts, WAITING, Shown::Trace(3, WAITED)),
    // Of those cells one crosses to an output in a phase.
    (Switch::ThreePorts, WAITING, Shown::Log(7, CROSSED)),
    // Of those packets three leave output 0.
    (
        Switch::ThreePorts,
        WAITING,
        Shown::Packets(0, &[(0, 64, 60), (512, 64, 60), (1024, 64, 60)]),
    ),
    // Of those packets one leaves output 1.
    (
        Switch::ThreePorts,
        WAITING,
        Shown::Packets(1, &[(512, 64, 60)]),
    ),
    // Of those packets none leaves output 2.
    (Switch::ThreePorts, WAITING, Shown::Packets(2, &[])),
    // Packets leave by their last cells.
    (
        Switch::ThreePorts,
        &[&[(1000, 200, 0)], &[(1000, 60, 0)], &[]],
        Shown::Packets(0, &[(1512, 64, 60), (3048, 204, 200)]),
    ),
    // A rank that does not fit stops the run.
    (
        Switch::DearPort,
        &[&[(0, 60, 0), (512, 60, 0)]],
        Shown::Fault(TagFault {
            slot: 1,
            input: 0,
            output: 0,
        }),
    ),
    // A rank fits again after a slot in which nothing is sent.
    (
        Switch::DearPort,
        &[&[(0, 60, 0), (1024, 60, 0)]],
        Shown::Trace(3, &[(0, 0, 0, 0, 0), (2, 0, 0, 1, 0)]),
    ),
    // A packet that finds its output full does not leave.
    (
        Switch::ThreeLimitedPorts,
        CROWDING,
        Shown::Trace(6, &[(0, 0, 0, 0, 0), (5, 0, 1, 1, 0)]),
    ),
    // A packet that finds its output full is not written.
    (
        Switch::ThreeLimitedPorts,
        CROWDING,
        Shown::Packets(0, &[(0, 64, 60), (2560, 64, 60)]),
    ),
    // A packet that finds its output full is refused whole.
    (
        Switch::ThreeLimitedPorts,
        CROWDING,
        Shown::Refused(&[Refused {
            output: 0,
            limit: 1,
            packets: 1,
            cells: 2,
        }]),
    ),
    // The slots end with the last departure where the rest is refused.
    (
        Switch::ThreeLimitedPorts,
        &[&[(0, 60, 0)], &[(0, 200, 0)], &[]],
        Shown::Trace(1, &[(0, 0, 0, 0, 0)]),
    ),
];

#[test]
fn each_run_shows_what_it_is_to(rt: HostRuntime) {
    for (switch, inputs, shown) in RUNS {
        assert!(rt; shows(&rt, rt.alloc(), *switch, inputs, shown));
    }
}
