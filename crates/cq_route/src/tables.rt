//! The tables of a switch.
ghost use Rattle.std.specs.Prelude.{◌≡◌, IfOk};
ghost use Rattle.cq_route.specs.Plain.{plain_ports, plain_setup, plain_tables};
ghost use Rattle.cq_route.specs.Tables.{AreTables};

use crate::{
    DEFAULT_CELL_BYTES, DEFAULT_CLASS, DEFAULT_COST, DEFAULT_LEVEL, DEFAULT_LIMIT_BYTES,
    DEFAULT_OUTPUT, DEFAULT_PRIORITY, DEFAULT_SLOT_NS, DEFAULT_WORKERS,
};
use cq_base::{Class, ClassRow, Kind, Name, NoMemory, Port, Sequence, Setup};
use std::alloc::Global;

/// The files of a port.
#[derive(Drop)]
pub struct PortRow {
    /// The capture of what arrives at its input. None where no packet does.
    pub read: Option<Name>,
    /// The capture of what leaves its output.
    pub write: Name,
}

/// An address, and where frames to it go.
#[derive(Clone, Copy, Debug, PartialEq, Eq)]
pub struct AddressRow {
    /// The address, as a frame has it: the byte that is sent first stands first.
    pub mac: [u8; 6],
    /// The output of frames to it.
    pub output: Port,
}

/// A rule, which gives packets a class. It speaks of the fields that it states, and of no other.
#[derive(Clone, Copy, Debug, PartialEq, Eq)]
pub struct RuleRow {
    /// The input at which the packet arrives.
    pub input: Option<Port>,
    /// The priority code point of the packet's outermost tag (IEEE 802.1Q).
    pub pcp: Option<u8>,
    /// The EtherType of the packet (IEEE 802.3).
    pub ether_type: Option<u16>,
    /// The code point of differentiated services of the packet (RFC 2474).
    pub dscp: Option<u8>,
    /// The class of the packets that have all of this.
    pub class: Class,
}

/// What a switch is told.
#[derive(Drop)]
pub struct Tables {
    /// The bytes of a packet that one cell carries.
    pub cell_bytes: u32,
    /// The nanoseconds of a slot.
    pub slot_ns: u64,
    /// The greatest length of a capture that is read, in bytes.
    pub limit_bytes: u64,
    /// How many workers look for a matching at a time.
    pub workers: u16,
    /// The output of the frames that no address row speaks of.
    pub default_output: Port,
    /// The class of the packets that no rule speaks of.
    pub default_class: Class,
    /// The file to which the departures are written.
    pub trace: Name,
    /// The file to which the transfers are written.
    pub log: Name,
    /// The classes, and the discipline of each port.
    pub setup: Setup,
    /// The files of each port, in order.
    pub ports: Sequence<PortRow>,
    /// How many cells fill the output of each port, in order: a packet whose first cell finds so many there or more is
    /// refused whole. None where the output has no limit.
    pub limits: Sequence<Option<u64>>,
    /// The addresses that are known, each at most once.
    pub addresses: Sequence<AddressRow>,
    /// The rules. The first one that a packet meets gives its class.
    pub rules: Sequence<RuleRow>,
}

impl Tables {
    /// The tables of a switch of one port that reads one file and writes the other, with every default: cells of 64
    /// bytes, slots of 512 nanoseconds, captures of at most 67,108,864 bytes, one worker, one class, which is of
    /// level 0 and priority 0 and costs 1, and an output without a limit that sends in the order of arrival. No
    /// address and no rule is known, and no trace and no log is named. The error is want of memory.
    #[tactic(auto, unfolding(crate::specs::Plain::plain_tables))]
    pub fn plain(alloc: Global, read: &str, write: &str) -> Result<Tables, NoMemory>
        ensures tables { IfOk result (λ tables. tables ≡ plain_tables read.now write.now) }
        ensures in_range { IfOk result (λ tables. AreTables tables) }
    {
        Ok(Tables {
            cell_bytes: DEFAULT_CELL_BYTES as u32,
            slot_ns: DEFAULT_SLOT_NS,
            limit_bytes: DEFAULT_LIMIT_BYTES,
            workers: DEFAULT_WORKERS as u16,
            default_output: DEFAULT_OUTPUT as u16,
            default_class: DEFAULT_CLASS as u16,
            trace: Name::of(alloc, "")?,
            log: Name::of(alloc, "")?,
            setup: plain_setup(alloc)?,
            ports: Sequence::of(one_port(alloc, read, write)?),
            limits: Sequence::of(Vec::from_array(alloc, [None])?),
            addresses: Sequence::of(Vec::new(alloc)),
            rules: Sequence::of(Vec::new(alloc)),
        })
    }
}

// One class and one first-come output.
fn plain_setup(alloc: Global) -> Result<Setup, NoMemory>
    ensures { IfOk result (λ setup. setup ≡ plain_setup) }
{
    let class = ClassRow {
        level: DEFAULT_LEVEL as u8,
        priority: DEFAULT_PRIORITY,
        cost: DEFAULT_COST,
    };
    Ok(Setup {
        classes: Sequence::of(Vec::from_array(alloc, [class])?),
        kinds: Sequence::of(Vec::from_array(alloc, [Kind::FirstCome])?),
    })
}

// The files of a switch of one port.
fn one_port(alloc: Global, read: &str, write: &str) -> Result<Vec<PortRow>, NoMemory>
    ensures { IfOk result (λ ports. ports.items ≡ plain_ports read.now write.now) }
{
    let port = PortRow {
        read: Some(Name::of(alloc, read)?),
        write: Name::of(alloc, write)?,
    };
    Ok(Vec::from_array(alloc, [port])?)
}
