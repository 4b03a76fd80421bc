//! Packets on their way through small tables.
ghost use Rattle.cq_route.specs.Directory.{IsDirectoryOf};

use cq_base::{NoMemory, Sequence};
use cq_route::{AddressRow, Directory, RuleRow, Tables};
use std::alloc::Global;

const ONE: [u8; 6] = [0x02, 0, 0, 0, 0, 0x01];

const TWO: [u8; 6] = [0x02, 0, 0, 0, 0, 0x02];

// Address one with its bytes in the other order.
const TURNED: [u8; 6] = [0x01, 0, 0, 0, 0, 0x02];

// To address one: IPv4 with code point 46 behind a customer's tag with priority 3.
const TAGGED: [u8; 20] = [
    0x02, 0, 0, 0, 0, 0x01, 0x02, 0, 0, 0, 0, 0xaa, //
    0x81, 0x00, 0x60, 0x05, 0x08, 0x00, 0x45, 0xb8,
];

// To address two: IPv4 with code point 10.
const PLAIN: [u8; 16] = [
    0x02, 0, 0, 0, 0, 0x02, 0x02, 0, 0, 0, 0, 0xaa, 0x08, 0x00, 0x45, 0x28,
];

// To address one turned round.
const AROUND: [u8; 12] = [0x01, 0, 0, 0, 0, 0x02, 0x02, 0, 0, 0, 0, 0xaa];

// To all.
const BROADCAST: [u8; 14] = [
    0xff, 0xff, 0xff, 0xff, 0xff, 0xff, 0x02, 0, 0, 0, 0, 0xaa, 0x08, 0x06,
];

const ANY: RuleRow = RuleRow {
    input: None,
    pcp: None,
    ether_type: None,
    dscp: None,
    class: 0,
};

// Three addresses, of which one stands twice.
const ADDRESSES: [AddressRow; 4] = [
    AddressRow {
        mac: TWO,
        output: 2,
    },
    AddressRow {
        mac: ONE,
        output: 1,
    },
    AddressRow {
        mac: TURNED,
        output: 3,
    },
    AddressRow {
        mac: ONE,
        output: 4,
    },
];

// Four rules, of which the last asks for more than the ones before.
const RULES: [RuleRow; 4] = [
    RuleRow {
        pcp: Some(3),
        input: Some(7),
        class: 1,
        ..ANY
    },
    RuleRow {
        pcp: Some(3),
        class: 2,
        ..ANY
    },
    RuleRow {
        ether_type: Some(0x0800),
        input: Some(4),
        class: 3,
        ..ANY
    },
    RuleRow {
        dscp: Some(10),
        class: 4,
        ..ANY
    },
];

// From here on the tables speak of these addresses and rules. Other packets go to output 9, and are of class 5.
fn learn(tables: &mut Tables, addresses: Vec<AddressRow>, rules: Vec<RuleRow>) {
    tables.default_output = 9;
    tables.default_class = 5;
    tables.addresses = Sequence::of(addresses);
    tables.rules = Sequence::of(rules);
}

fn small_tables(alloc: Global) -> Result<Tables, NoMemory> {
    let addresses = Vec::from_array(alloc, ADDRESSES)?;
    let rules = Vec::from_array(alloc, RULES)?;
    let mut tables = Tables::plain(alloc, "in", "out")?;
    learn(&mut tables, addresses, rules);
    Ok(tables)
}

// Whether the packet takes this route, by the tables and by their directory.
fn takes_route(
    tables: &Tables,
    directory: &Directory,
    packet: (u16, &[u8]),
    route: (u16, u16),
) -> bool
    requires { IsDirectoryOf tables.now directory.now }
{
    let (input, bytes) = packet;
    tables.route(input, bytes) == route && directory.route(tables, input, bytes) == route
}

// The input at which a packet arrives, its first bytes, how many of them are there, and its route.
type Routed = (u16, &'static [u8], usize, (u16, u16));

// Whether the packet, of which so many bytes are there, takes this route.
fn takes_its_route(tables: &Tables, directory: &Directory, packet: &Routed) -> bool
    requires { IsDirectoryOf tables.now directory.now }
{
    let (input, bytes, there, route) = *packet;
    let bytes = bytes.get(..there).unwrap_or(bytes);
    takes_route(tables, directory, (input, bytes), route)
}

fn take_their_routes(tables: &Tables, directory: &Directory, packets: &[Routed]) -> bool
    requires { IsDirectoryOf tables.now directory.now }
{
    for packet in packets {
        if !takes_its_route(tables, directory, packet) {
            return false;
        }
    }
    true
}

// Whether the packets take these routes.
fn take_routes(alloc: Global, tables: &Tables, packets: &[Routed]) -> bool {
    match Directory::of(alloc, tables) {
        Ok(directory) => take_their_routes(tables, &directory, packets),
        Err(_) => false,
    }
}

const PACKETS: &[Routed] = &[
    (7, &TAGGED, 20, (1, 1)),
    (6, &TAGGED, 20, (1, 2)),
    (4, &TAGGED, 20, (1, 2)),
    (4, &PLAIN, 16, (2, 3)),
    (6, &PLAIN, 16, (2, 4)),
    (4, &AROUND, 12, (3, 5)),
    (4, &BROADCAST, 14, (9, 5)),
    (4, &PLAIN, 5, (9, 5)),
    (4, &PLAIN, 13, (2, 5)),
    (6, &PLAIN, 15, (2, 5)),
    (4, &[], 0, (9, 5)),
];

fn take_routes_of_small_tables(alloc: Global) -> bool {
    match small_tables(alloc) {
        Ok(tables) => take_routes(alloc, &tables, PACKETS),
        Err(_) => false,
    }
}

#[test]
fn a_packet_goes_by_its_address_and_the_first_rule_it_meets(rt: HostRuntime) {
    assert!(rt; take_routes_of_small_tables(rt.alloc()));
}

// Whether the tables have every default, and one port that writes this file.
fn are_plain(alloc: Global, tables: &Tables, file: &str) -> bool {
    let routes = take_routes(alloc, tables, &[(0, &TAGGED, 20, (0, 0))]);
    let numbers = (
        tables.cell_bytes,
        tables.slot_ns,
        tables.limit_bytes,
        tables.workers,
    );
    let ports = tables.ports.as_slice();
    let one = ports.len() == 1 && ports[0].write.text() == file;
    one && routes && numbers == (64, 512, 67_108_864, 1)
}

fn plain_tables_are_plain(alloc: Global) -> bool {
    match Tables::plain(alloc, "in.pcap", "out.pcap") {
        Ok(tables) => {
            let plain = are_plain(alloc, &tables, "out.pcap");
            drop(tables);
            plain
        }
        Err(_) => false,
    }
}

#[test]
fn plain_tables_have_one_port_and_every_default(rt: HostRuntime) {
    assert!(rt; plain_tables_are_plain(rt.alloc()));
}
