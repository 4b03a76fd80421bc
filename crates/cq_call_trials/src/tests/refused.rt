//! Configurations with one fault, or near one: each has its line.
use super::configured::SAME_FILE;
use cq_base::NoMemory;
use cq_trials::{Call, Told, touches_nothing};
use std::alloc::Global;
use std::thread::Threads;

/// The parts of a configuration of two ports that is accepted.
const TOP: &str = "version = 1\ntrace = \"trace.txt\"\nlog = \"log.txt\"\n";

const PORTS: &str = "[[port]]\nread = \"in0.pcap\"\nwrite = \"out0.pcap\"\n\
    [[port]]\nread = \"in1.pcap\"\nwrite = \"out1.pcap\"\n";

const ADDRESSES: &str = "[[address]]\nmac = \"02:00:00:00:00:00\"\noutput = 0\n\
    [[address]]\nmac = \"02:00:00:00:00:01\"\noutput = 1\n";

const ACCEPTED: &str = "ok ports 2 classes 1 addresses 2 rules 0\n";

/// The parts of a configuration, and the line that refuses it.
type Fault = ([&'static str; 4], &'static str);

const FAULTS: &[Fault] = &[
    (
        [
            "version = 1\nlog = \"log.txt\"\nzzz = 1\n",
            PORTS,
            ADDRESSES,
            "",
        ],
        "configuration: C5 at zzz\n",
    ),
    (
        [TOP, "class = []\n", PORTS, ADDRESSES],
        "configuration: C4 at class\n",
    ),
    (
        [TOP, "port = 3\n", ADDRESSES, ""],
        "configuration: C3 at port\n",
    ),
    (
        [TOP, "port = [1]\n", ADDRESSES, ""],
        "configuration: C3 at port[0]\n",
    ),
    (
        [TOP, PORTS, ADDRESSES, "[[class]]\ncost = \"0\"\n"],
        "configuration: C4 at class[0].cost\n",
    ),
    (
        [TOP, PORTS, ADDRESSES, "[[class]]\ncost = -1\n"],
        "configuration: C4 at class[0].cost\n",
    ),
    (
        [
            TOP,
            PORTS,
            ADDRESSES,
            "[[class]]\ncost = \"340282366920938463463374607431768211456\"\n",
        ],
        "configuration: C4 at class[0].cost\n",
    ),
    (
        [TOP, PORTS, ADDRESSES, "[[class]]\npriority = 1.5\n"],
        "configuration: C3 at class[0].priority\n",
    ),
    (
        [TOP, PORTS, ADDRESSES, "[[class]]\nlevel = 0\n"],
        "configuration: C5 at class[0].level\n",
    ),
    (
        [
            "version = 2\ntrace = \"trace.txt\"\nlog = \"log.txt\"\n",
            PORTS,
            ADDRESSES,
            "[[class]]\nlevel = 16\n",
        ],
        "configuration: C4 at class[0].level\n",
    ),
    (
        [TOP, PORTS, ADDRESSES, "[[rule]]\nclass = 1\n"],
        "configuration: C9 at rule[0].class\n",
    ),
    (
        [
            TOP,
            PORTS,
            "[[address]]\nmac = \"02:00:00:00:00:00\"\noutput = 0\n",
            "[[address]]\nmac = \"02:00:00:00:00:1\"\noutput = 1\n",
        ],
        "configuration: C8 at address[1].mac\n",
    ),
    (
        [TOP, PORTS, PORTS, ADDRESSES],
        "configuration: C7 at port[2].write\n",
    ),
    (
        [TOP, PORTS, ADDRESSES, "[[port]]\nread = \"in2.pcap\"\n"],
        "configuration: C2 at port[2].write\n",
    ),
    (
        [SAME_FILE, "", "", ""],
        "configuration: C7 at port[0].write\n",
    ),
    (["version =", "", "", ""], "configuration: C1 at -\n"),
];

/// Puts the parts one after another, and then as many of the byte as make it so long.
fn put_text(text: &mut Vec<u8>, parts: &[&str], byte: u8, len: usize) -> Result<(), NoMemory> {
    for part in parts {
        text.extend_from_slice(part.as_bytes())?;
    }
    text.resize(len.max(text.len()), byte)?;
    Ok(())
}

/// Whether `check` tells this of the configuration, and touches nothing.
fn is_told<R: Threads + Sync>(rt: &R, alloc: Global, text: &[u8], told: Told) -> bool {
    let call: Call = (&["check", "c.toml"], told);
    touches_nothing(rt, alloc, call, &[("c.toml", text)])
}

/// Whether `check` tells this of the parts, with as many of the byte behind them as make it so long.
fn is_told_of<R: Threads + Sync>(
    rt: &R,
    alloc: Global,
    parts: &[&str],
    (byte, len): (u8, usize),
    told: Told,
) -> bool {
    let mut text = Vec::new(alloc);
    match put_text(&mut text, parts, byte, len) {
        Ok(()) => is_told(rt, alloc, &text, told),
        Err(_) => false,
    }
}

#[test]
fn a_configuration_with_one_fault_is_refused_for_it(rt: HostRuntime) {
    for (parts, line) in FAULTS {
        assert!(rt; is_told_of(&rt, rt.alloc(), parts, (0, 0), (2, "", line)));
    }
}

/// Puts so many ports that write files of their own.
fn put_ports(text: &mut String, count: u8) -> Result<(), NoMemory> {
    for i in 0..count {
        write!(text, "[[port]]\nwrite = \"out{i}.pcap\"\n")?;
    }
    Ok(())
}

/// Whether `check` refuses a configuration of so many ports.
fn are_too_many<R: Threads + Sync>(rt: &R, alloc: Global, count: u8) -> bool {
    let mut ports = String::new(alloc);
    match put_ports(&mut ports, count) {
        Ok(()) => {
            let told = (2, "", "configuration: C4 at port\n");
            is_told_of(rt, alloc, &[TOP, ports.as_str()], (0, 0), told)
        }
        Err(_) => false,
    }
}

#[test]
fn a_configuration_has_64_ports_at_most(rt: HostRuntime) {
    assert!(rt; are_too_many(&rt, rt.alloc(), 65));
}

const ONE_FILE: &str = "[[port]]\nread = \"in0.pcap\"\nwrite = \"out0.pcap\"\n\
    [[port]]\nread = \"in0.pcap\"\nwrite = \"out1.pcap\"\n";

/// The parts of a configuration, the byte that it ends in, how long it is, and what is told of it.
type Filled = ([&'static str; 4], (u8, usize), Told<'static>);

const FILLED: &[Filled] = &[
    (
        // A configuration is UTF-8.
        [TOP, PORTS, ADDRESSES, ""],
        (0xff, 1000),
        (2, "", "configuration: C1 at -\n"),
    ),
    (
        // A configuration above its limit is told.
        [""; 4],
        (b' ', 1_048_577),
        (2, "", "configuration: C10 at -\n"),
    ),
    (
        // A long comment is accepted.
        [TOP, PORTS, ADDRESSES, "#"],
        (b'#', 1_048_576),
        (0, ACCEPTED, ""),
    ),
    (
        // Two readers of a file are accepted.
        [TOP, ONE_FILE, ADDRESSES, ""],
        (b'#', 0),
        (0, ACCEPTED, ""),
    ),
];

#[test]
fn a_configuration_is_text_up_to_a_limit_and_two_ports_may_read_a_file(rt: HostRuntime) {
    for (parts, end, told) in FILLED {
        assert!(rt; is_told_of(&rt, rt.alloc(), parts, *end, *told));
    }
}
