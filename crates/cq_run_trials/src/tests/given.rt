//! What trials begin with: small captures, switches of one and three ports, and the slots of what comes to them.
ghost use Rattle.std.specs.Prelude.{◌≡◌, ◌≤◌, IfOk, IfSome, OnOk, codes, length};
ghost use Rattle.std.specs.Thread.{IsSync};
ghost use Rattle.cq_route.specs.Plain.{plain_tables};
ghost use Rattle.cq_route.specs.Tables.{AreTables, ports_of};
ghost use Rattle.cq_cells.specs.Scheduled.{schedule_of};
ghost use Rattle.cq_simulate.specs.ScheduleFor.{IsScheduleFor};

use cq_base::{ClassRow, Kind, Name, NoMemory, Sequence};
use cq_cells::Schedule;
use cq_pcap::{Capture, PcapRefusal, read_capture};
use cq_route::{AddressRow, PortRow, Tables};
use cq_trial_kit::HEADER;
use std::alloc::Global;
use std::thread::Threads;

// More than a capture here has.
const MANY: usize = 1_048_576;

/// Of a packet that comes its stamp in nanoseconds, its captured length, and the last byte of the address to which it
/// goes. On the wire it has four bytes more.
pub type Come = (u32, u8, u8);

// The captures of what comes to each input. One that is refused is left out.
fn captures_of(alloc: Global, inputs: &[&[Come]]) -> Result<Vec<Capture>, NoMemory> {
    let mut captures = Vec::new(alloc);
    for packets in inputs {
        if let Ok(capture) = capture_of(alloc, packets) {
            captures.push(capture)?;
        }
    }
    Ok(captures)
}

fn capture_of(alloc: Global, packets: &[Come]) -> Result<Capture, PcapRefusal> {
    let mut bytes = Vec::from_slice(alloc, &HEADER).or(Err(PcapRefusal::NoMemory))?;
    for (stamp, length, to) in packets {
        put_packet(&mut bytes, *stamp, *length, *to).or(Err(PcapRefusal::NoMemory))?;
    }
    bytes.truncate(MANY);
    read_capture(alloc, bytes)
}

fn put_packet(bytes: &mut Vec<u8>, stamp: u32, length: u8, to: u8) -> Result<(), NoMemory> {
    let captured = u32::from(length);
    let header = [
        [0; 4],
        stamp.to_le_bytes(),
        captured.to_le_bytes(),
        (captured + 4).to_le_bytes(),
    ];
    bytes.extend_from_slice(header.as_flattened())?;
    for place in 0..length {
        bytes.push(match place {
            0 => 0x02,
            5 => to,
            1..5 => 0,
            _ => place,
        })?;
    }
    Ok(())
}

/// The switch of a trial.
#[derive(Clone, Copy)]
pub enum Switch {
    /// One port that sends in the order of arrival.
    OnePort,
    /// One fair port, where each cell costs all that a rank can hold.
    DearPort,
    /// Three ports that send in the order of arrival, and two workers. Frames to address one go to output one, all
    /// others to output zero.
    ThreePorts,
    /// The three ports, where one cell fills output zero.
    ThreeLimitedPorts,
}

impl Switch {
    // Makes the tables of a plain switch those of this one.
    fn set(self, alloc: Global, tables: &mut Tables) -> Result<(), NoMemory>
        requires plain { tables.old ≡ plain_tables (codes "in") (codes "out") }
        requires in_range { AreTables tables.old }
        ensures { OnOk result (AreTables tables.new) }
    {
        match self {
            Switch::OnePort => Ok(()),
            Switch::DearPort => set_dear_port(alloc, tables),
            Switch::ThreePorts => set_three_ports(alloc, tables, None),
            Switch::ThreeLimitedPorts => set_three_ports(alloc, tables, Some(1)),
        }
    }
}

#[tactic(auto, unfolding(cq_route::specs::Plain::plain_tables))]
fn set_dear_port(alloc: Global, tables: &mut Tables) -> Result<(), NoMemory>
    requires { tables.old ≡ plain_tables (codes "in") (codes "out") }
    ensures { OnOk result (AreTables tables.new) }
{
    let class = ClassRow {
        level: 0,
        priority: 0,
        cost: u128::MAX,
    };
    tables.setup.kinds = Sequence::of(Vec::from_array(alloc, [Kind::Fair])?);
    tables.setup.classes = Sequence::of(Vec::from_array(alloc, [class])?);
    Ok(())
}

// The file of a port.
fn file(alloc: Global) -> Result<PortRow, NoMemory> {
    Ok(PortRow {
        read: None,
        write: Name::of(alloc, "out")?,
    })
}

// The files of three ports.
fn three_files(alloc: Global) -> Result<Vec<PortRow>, NoMemory>
    ensures { IfOk result (λ files. length files.items ≡ 3) }
{
    Ok(Vec::from_array(alloc, [file(alloc)?, file(alloc)?, file(alloc)?])?)
}

// Three ports, the first of which has this limit.
#[tactic(auto, unfolding(cq_route::specs::Plain::plain_tables))]
fn set_three_ports(alloc: Global, tables: &mut Tables, limit: Option<u64>) -> Result<(), NoMemory>
    requires plain { tables.old ≡ plain_tables (codes "in") (codes "out") }
    requires limit { IfSome limit (λ n. 1 ≤ n) }
    ensures { OnOk result (AreTables tables.new) }
{
    let one = AddressRow {
        mac: [0x02, 0, 0, 0, 0, 1],
        output: 1,
    };
    tables.setup.kinds = Sequence::of(Vec::from_array(alloc, [Kind::FirstCome; 3])?);
    tables.ports = Sequence::of(three_files(alloc)?);
    tables.limits = Sequence::of(Vec::from_array(alloc, [limit, None, None])?);
    tables.addresses = Sequence::of(Vec::from_array(alloc, [one])?);
    tables.workers = 2;
    Ok(())
}

/// The tables of a switch, captures, one for each of its ports, and the slots of what comes.
#[derive(Clone, Copy)]
pub struct Given<'a> {
    pub tables: &'a Tables,
    pub captures: &'a [Capture],
    pub schedule: &'a Schedule,
}

/// What a switch shows of the packets that come to it.
pub trait Trial {
    /// Whether it shows this.
    fn is_seen<R: Threads + Sync>(&self, rt: &R, alloc: Global, given: Given) -> bool
        requires sync { IsSync R.row }
        requires captures { length given.captures.now ≡ ports_of given.tables.now.setup }
        requires came { given.schedule.now ≡ schedule_of given.tables.now given.captures.now }
        requires schedule { IsScheduleFor given.tables.now given.schedule.now };
}

/// Whether the switch shows this of the packets that come to its inputs.
pub fn shows<R: Threads + Sync, T: Trial>(
    rt: &R,
    alloc: Global,
    switch: Switch,
    inputs: &[&[Come]],
    trial: &T,
) -> bool {
    match Tables::plain(alloc, "in", "out") {
        Ok(mut tables) => {
            switch.set(alloc, &mut tables).is_ok() && shows_by(rt, alloc, &tables, inputs, trial)
        }
        Err(_) => false,
    }
}

// Whether the switch of these tables does.
fn shows_by<R: Threads + Sync, T: Trial>(
    rt: &R,
    alloc: Global,
    tables: &Tables,
    inputs: &[&[Come]],
    trial: &T,
) -> bool
    requires { AreTables tables.now }
{
    match captures_of(alloc, inputs) {
        Ok(captures) => shows_in(rt, alloc, tables, &captures, trial),
        Err(_) => false,
    }
}

// Whether it does in these captures, of which there is to be one for each of its ports.
fn shows_in<R: Threads + Sync, T: Trial>(
    rt: &R,
    alloc: Global,
    tables: &Tables,
    captures: &[Capture],
    trial: &T,
) -> bool
    requires { AreTables tables.now }
{
    if captures.len() != tables.setup.kinds.as_slice().len() {
        return false;
    }
    match Schedule::of(rt, alloc, captures, tables) {
        Ok(schedule) => {
            let given = Given {
                tables,
                captures,
                schedule: &schedule,
            };
            trial.is_seen(rt, alloc, given)
        }
        Err(_) => false,
    }
}
