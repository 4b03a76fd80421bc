//! A switch of an office: an uplink and telephones, a priority and a fair output, and marks of two kinds.
//!
//! The same switch is shipped in `examples/office`, and told there.
use cq_base::NoMemory;
use cq_trial_kit::HEADER;
use cq_trials::{Call, Disk, MICROSECONDS, Told, all_leave, leaves_ahead, put_packet};
use std::alloc::Global;
use std::sync::Wait;
use std::thread::Threads;

const CONFIGURATION: &str = r#"version = 1
trace = "trace.txt"
log = "log.txt"
[[class]]
priority = 7
cost = 4
[[class]]
priority = 0
cost = 1
[[port]]
read = "uplink.pcap"
write = "uplink-out.pcap"
[[port]]
read = "phones.pcap"
write = "phones-out.pcap"
discipline = "priority"
[[port]]
write = "servers-out.pcap"
discipline = "fair"
[[port]]
write = "spare-out.pcap"
[[address]]
mac = "02:00:00:00:00:01"
output = 1
[[address]]
mac = "02:00:00:00:00:02"
output = 2
[[rule]]
pcp = 5
class = 1
[[rule]]
ether_type = 2048
dscp = 46
class = 1
"#;

const TRACE: &str = "\
0 1 0 0 0
1 1 1 0 0
2 1 0 1 0
3 1 0 0 1
4 0 1 1 0
4 1 1 0 1
5 1 1 0 2
5 2 0 2 0
6 1 1 0 3
6 2 1 2 0
";

const LOG: &str = "\
0 1 0 1 0 0
0 2 1 1 0 0
1 1 0 1 0 1
1 2 1 1 0 1
2 1 0 1 1 0
2 2 1 1 0 2
3 1 1 1 0 3
4 1 1 0 1 0
5 1 0 2 2 0
5 2 1 2 2 0
";

const REPORT: &str = "\
slots 7
proposals 14
most 2
input 0 cells 4 longest 1 slack 0
input 1 cells 6 longest 1 slack 0
input 2 cells 0 longest 0 slack -
input 3 cells 0 longest 0 slack -
output 0 cells 1 idle 6 wait 0
output 1 cells 7 idle 0 wait 3
output 2 cells 2 idle 5 wait 1
output 3 cells 0 idle 7 wait -
";

/// The length of a frame, and its bytes up to the last that is not zero.
type Packet = (u32, &'static [u8]);

/// To the telephones.
const UPLINK_0: Packet = (98, &[2, 0, 0, 0, 0, 1, 2, 0, 0, 0, 0, 0xaa, 8, 0, 0x45]);

/// To the telephones, with a tag of urgency 5.
const UPLINK_1: Packet = (
    60,
    &[
        2, 0, 0, 0, 0, 1, 2, 0, 0, 0, 0, 0xaa, 0x81, 0, 0xa0, 0x0a, 8, 0, 0x45,
    ],
);

/// To the servers, with the mark of a voice.
const UPLINK_2: Packet = (
    60,
    &[2, 0, 0, 0, 0, 2, 2, 0, 0, 0, 0, 0xaa, 8, 0, 0x45, 0xb8],
);

/// To a station behind the same port.
const PHONES_0: Packet = (200, &[2, 0, 0, 0, 0, 1, 2, 0, 0, 0, 0, 0xaa, 8, 0, 0x45]);

/// To all.
const PHONES_1: Packet = (
    60,
    &[
        0xff, 0xff, 0xff, 0xff, 0xff, 0xff, 2, 0, 0, 0, 0, 0xaa, 8, 6,
    ],
);

/// To the servers.
const PHONES_2: Packet = (60, &[2, 0, 0, 0, 0, 2, 2, 0, 0, 0, 0, 0xaa, 8, 0, 0x45]);

/// Packets at these subseconds of one second.
type Packets = &'static [(u32, Packet)];

const UPLINK: Packets = &[(0, UPLINK_0), (1, UPLINK_1), (3, UPLINK_2)];

const PHONES: Packets = &[(0, PHONES_0), (2, PHONES_1), (3, PHONES_2)];

/// What leaves the uplink.
const UPLINK_OUT: Packets = &[(2048, PHONES_1)];

/// What leaves to the telephones.
const PHONES_OUT: Packets = &[(1024, UPLINK_1), (1536, UPLINK_0), (3072, PHONES_0)];

/// What leaves to the servers.
const SERVERS_OUT: Packets = &[(2560, UPLINK_2), (3072, PHONES_2)];

/// Puts a capture of these packets.
fn put_capture(capture: &mut Vec<u8>, header: &[u8], packets: Packets) -> Result<(), NoMemory> {
    capture.extend_from_slice(header)?;
    for (subseconds, (len, head)) in packets {
        let numbers = [1_700_000_000, *subseconds, *len, *len];
        put_packet(capture, numbers, head)?;
    }
    Ok(())
}

/// What the switch reads, and what it writes but for the capture of the spare port.
#[derive(Drop)]
struct Office {
    text: String,
    uplink: Vec<u8>,
    phones: Vec<u8>,
    uplink_out: Vec<u8>,
    phones_out: Vec<u8>,
    servers_out: Vec<u8>,
}

impl Office {
    fn new(alloc: Global) -> Office {
        Office {
            text: String::new(alloc),
            uplink: Vec::new(alloc),
            phones: Vec::new(alloc),
            uplink_out: Vec::new(alloc),
            phones_out: Vec::new(alloc),
            servers_out: Vec::new(alloc),
        }
    }

    /// Puts the configuration with so many workers, and the packets.
    fn put(&mut self, workers: u8) -> Result<(), NoMemory> {
        write!(self.text, "workers = {workers}\n{CONFIGURATION}")?;
        put_capture(&mut self.uplink, &MICROSECONDS, UPLINK)?;
        put_capture(&mut self.phones, &MICROSECONDS, PHONES)?;
        put_capture(&mut self.uplink_out, &HEADER, UPLINK_OUT)?;
        put_capture(&mut self.phones_out, &HEADER, PHONES_OUT)?;
        put_capture(&mut self.servers_out, &HEADER, SERVERS_OUT)
    }

    fn disk(&self, alloc: Global) -> Disk {
        Disk::new(alloc).holding(&[
            ("c.toml", self.text.as_bytes()),
            ("uplink.pcap", &self.uplink),
            ("phones.pcap", &self.phones),
        ])
    }

    /// All that is written.
    fn written(&self) -> [(&str, &[u8]); 6] {
        [
            ("uplink-out.pcap", &self.uplink_out),
            ("phones-out.pcap", &self.phones_out),
            ("servers-out.pcap", &self.servers_out),
            ("spare-out.pcap", &HEADER),
            ("trace.txt", TRACE.as_bytes()),
            ("log.txt", LOG.as_bytes()),
        ]
    }
}

/// What a call tells that does all.
const DONE: Told = (0, REPORT, "");

/// Whether the switch with so many workers sends it all in these calls.
fn all_send<R: Threads + Sync>(rt: &R, alloc: Global, workers: u8, calls: &[Call]) -> bool {
    let mut office = Office::new(alloc);
    match office.put(workers) {
        Ok(()) => {
            let disk = office.disk(alloc);
            all_leave(rt, alloc, calls, disk, (&office.written(), &[]))
        }
        Err(_) => false,
    }
}

/// A run, and its audit.
const AUDITED: &[Call] = &[
    (&["run", "c.toml"], DONE),
    (&["audit", "c.toml"], (0, "audit yes\n", "")),
];

const WORKERS: &[u8] = &[1, 2, 64];

#[test]
fn an_office_sends_by_urgency_whatever_the_workers(rt: HostRuntime) {
    for workers in WORKERS {
        assert!(rt; all_send(&rt, rt.alloc(), *workers, AUDITED));
    }
}

const STOPPED: Told = (0, "", "");

const RESUME: Call = (&["resume", "c.toml", "s.txt"], DONE);

/// A run that stops before a slot, and the one that goes on from there.
const STOPS: &[[Call; 2]] = &[
    [(&["part", "c.toml", "0", "s.txt"], STOPPED), RESUME],
    [(&["part", "c.toml", "1", "s.txt"], STOPPED), RESUME],
    [(&["part", "c.toml", "2", "s.txt"], STOPPED), RESUME],
];

#[test]
fn an_office_goes_on_after_a_stop(rt: HostRuntime) {
    for calls in STOPS {
        assert!(rt; all_send(&rt, rt.alloc(), 1, calls));
    }
}

/// Whether it is all sent too where the captures are read ahead.
fn streams<R>(rt: R, alloc: Global) -> bool
where
    R: Threads + Wait + Sync + Copy + Send + 'static,
{
    let mut office = Office::new(alloc);
    match office.put(1) {
        Ok(()) => {
            let disk = office.disk(alloc);
            let call: Call = (&["stream", "c.toml"], DONE);
            leaves_ahead(rt, alloc, call, disk, (&office.written(), &[]))
        }
        Err(_) => false,
    }
}

#[test]
fn an_office_is_the_same_where_captures_are_read_ahead(rt: HostRuntime) {
    assert!(rt; streams(rt, rt.alloc()));
}
