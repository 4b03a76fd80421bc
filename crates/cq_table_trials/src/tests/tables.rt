//! Configurations from outside, each with the tables or the refusal that it gives.
use cq_base::Kind;
use cq_tables::{TableRefusal, Tables, read_tables};
use std::alloc::Global;

/// The check that a text fails, by its number, and the key that it is told at.
type Told = (u8, &'static str);

/// What a text is told that gives tables.
const NOTHING: Told = (0, "");

/// Whether a text is told this.
fn is_told(alloc: Global, text: &[u8], told: Told) -> bool {
    match read_tables(alloc, text) {
        Ok(tables) => {
            drop(tables);
            told == NOTHING
        }
        Err(TableRefusal::At { code, path }) => code == told.0 && path.text() == told.1,
        Err(TableRefusal::NoMemory) => false,
    }
}

/// Texts, each with what it is told.
const TEXTS: &[(&str, Told)] = &[
    ("", (2, "version")),
    ("version =", (1, "-")),
    ("version = 1", (2, "trace")),
    ("version = \"1\"", (3, "version")),
    ("version = 2", (2, "trace")),
    ("version = 0", (4, "version")),
    ("version = 3", (4, "version")),
    ("versoin = 1", (5, "versoin")),
    ("zz = 1\nversion = 2\naa = 1", (5, "aa")),
    ("version = 1\nworkers = 0", (4, "workers")),
    ("version = 1\nworkers = 65", (4, "workers")),
    ("version = 1\ncell_bytes = 0", (4, "cell_bytes")),
    ("version = 1\nlimit_bytes = 23", (4, "limit_bytes")),
    ("version = 1\ntrace = \"\"", (4, "trace")),
];

#[test]
fn the_first_check_that_fails_is_told(rt: HostRuntime) {
    for (text, told) in TEXTS {
        assert!(rt; is_told(rt.alloc(), text.as_bytes(), *told));
    }
}

/// The pieces of a configuration of two ports. Where one is empty, lines may be put in.
const TWO_PORTS: [&str; 20] = [
    "version = 1\n",
    "", // TOP
    "trace = \"trace.txt\"\n",
    "log = \"log.txt\"\n", // LOG
    "[[port]]\n",
    "read = \"in0.pcap\"\n",
    "write = \"out0.pcap\"\n",
    "", // PORT_0
    "[[port]]\n",
    "read = \"in1.pcap\"\n", // READ_1
    "write = \"out1.pcap\"\n", // WRITE_1
    "", // PORT_1
    "[[address]]\nmac = \"",
    "02:00:00:00:00:00", // MAC_0
    "\"\noutput = 0\n",
    "[[address]]\nmac = \"",
    "02:00:00:00:00:01", // MAC_1
    "\"\n",
    "output = 1\n", // OUTPUT_1
    "", // END
];

// Places of pieces: what may come at the top, at the end of each port, and at the end of all, and what may be replaced.
const TOP: usize = 1;

const LOG: usize = 3;

const PORT_0: usize = 7;

const READ_1: usize = 9;

const WRITE_1: usize = 10;

const PORT_1: usize = 11;

const MAC_0: usize = 13;

const MAC_1: usize = 16;

const OUTPUT_1: usize = 18;

const END: usize = 19;

/// The version of the configuration, the place of a piece, what stands there instead, and what the text is then told.
type Change = (u8, usize, &'static str, Told);

/// Changes of it, those that are told nothing first. What `check` tells in `cq_call_trials` does not stand here again.
/// A class has a level in version two.
const CHANGES: &[Change] = &[
    (1, PORT_1, "limit = 1\n", NOTHING),
    (2, END, "[[class]]\nlevel = 0\n", NOTHING),
    (2, END, "[[class]]\n[[class]]\nlevel = 15\n", NOTHING),
    (1, TOP, "default_output = 2\n", (9, "default_output")),
    (1, TOP, "default_class = 1\n", (9, "default_class")),
    (1, LOG, "log = \"trace.txt\"\n", (7, "log")),
    (1, PORT_0, "limit = 1000000001\n", (4, "port[0].limit")),
    (1, PORT_0, "limit = \"1\"\n", (3, "port[0].limit")),
    (1, READ_1, "read = \"out0.pcap\"\n", (7, "port[1].read")),
    (1, WRITE_1, "write = \"in0.pcap\"\n", (7, "port[1].write")),
    (1, PORT_1, "limit = 0\n", (4, "port[1].limit")),
    (
        1,
        PORT_1,
        "discipline = \"fifo\"\n",
        (4, "port[1].discipline"),
    ),
    (1, MAC_0, "03:00:00:00:00:00", (8, "address[0].mac")),
    (1, MAC_1, "02:00:00:00:00:00", (6, "address[1].mac")),
    (1, OUTPUT_1, "output = 2\n", (9, "address[1].output")),
    (1, END, "[[rule]]\npcp = 8\n", (4, "rule[0].pcp")),
    (2, END, "[[class]]\nlevel = 16\n", (4, "class[0].level")),
    (2, END, "[[class]]\nlevel = \"1\"\n", (3, "class[0].level")),
    (
        2,
        END,
        "[[class]]\nlevel = 16\npriority = -1\n",
        (4, "class[0].priority"),
    ),
];

/// Whether the configuration of two ports, changed so, is told this.
fn change_is_told(alloc: Global, change: &Change) -> bool {
    let (version, place, piece, told) = *change;
    let mut pieces = TWO_PORTS;
    if place >= pieces.len() {
        return false;
    }
    pieces[place] = piece;
    if version == 2 {
        pieces[0] = "version = 2\n";
    }
    match pieces.concat(alloc) {
        Ok(text) => is_told(alloc, text.as_bytes(), told),
        Err(_) => false,
    }
}

#[test]
fn a_change_of_a_good_configuration_is_told_at_its_key(rt: HostRuntime) {
    for change in CHANGES {
        assert!(rt; change_is_told(rt.alloc(), change));
    }
}

/// Whether a text that is longer than a configuration may be is told so, and the same but for its first byte is read.
fn length_is_told(alloc: Global) -> bool {
    match vec![in alloc; b' '; 1_048_577] {
        Ok(blanks) => {
            is_told(alloc, &blanks, (10, "-")) && is_told(alloc, &blanks[1..], (2, "version"))
        }
        Err(_) => false,
    }
}

#[test]
fn a_text_that_is_too_long_is_told(rt: HostRuntime) {
    assert!(rt; length_is_told(rt.alloc()));
}

/// A good configuration of four ports, one that names no discipline and one of each, with two classes, two addresses
/// and a rule.
const GOOD: &str =
    "version = 1\nslot_ns = 3\nworkers = 64\ntrace = \"trace.txt\"\nlog = \"log.txt\"\n[[port]]\nread = \"in0.pcap\"\nwrite = \"out0.pcap\"\n[[port]]\nread = \"in1.pcap\"\nwrite = \"out1.pcap\"\ndiscipline = \"priority\"\nlimit = 7\n[[port]]\nwrite = \"out2.pcap\"\ndiscipline = \"fair\"\n[[port]]\nwrite = \"out3.pcap\"\ndiscipline = \"first-come\"\n[[address]]\nmac = \"02:00:00:00:00:00\"\noutput = 0\n[[address]]\nmac = \"02:00:aA:Bb:00:01\"\noutput = 1\n[[class]]\npriority = \"007\"\n[[class]]\ncost = \"340282366920938463463374607431768211455\"\n[[rule]]\ninput = 1\npcp = 7\nether_type = 65535\ndscp = 63\nclass = 1\n";

/// The figures that stand at its head, and those that it leaves to be.
fn has_figures(tables: &Tables) -> bool {
    tables.cell_bytes == 64
        && tables.slot_ns == 3
        && tables.limit_bytes == 67_108_864
        && tables.workers == 64
        && tables.default_output == 0
        && tables.default_class == 0
        && tables.trace.text() == "trace.txt"
        && tables.log.text() == "log.txt"
}

/// Its classes.
fn has_classes(tables: &Tables) -> bool {
    let classes = tables.setup.classes.as_slice();
    classes.len() == 2
        && classes[0].level == 0
        && classes[0].priority == 7
        && classes[0].cost == 1
        && classes[1].level == 0
        && classes[1].priority == 0
        && classes[1].cost == u128::MAX
}

/// The disciplines of its ports.
const KINDS: [Kind; 4] = [Kind::FirstCome, Kind::Priority, Kind::Fair, Kind::FirstCome];

/// Their limits.
const LIMITS: [Option<u64>; 4] = [None, Some(7), None, None];

/// Its ports, with their files, disciplines and limits.
fn has_ports(tables: &Tables) -> bool {
    let ports = tables.ports.as_slice();
    ports.len() == 4
        && ports[1].write.text() == "out1.pcap"
        && match &ports[1].read {
            Some(read) => read.text() == "in1.pcap",
            None => false,
        }
        && ports[2].read.is_none()
        && tables.setup.kinds.as_slice() == KINDS.as_slice()
        && tables.limits.as_slice() == LIMITS.as_slice()
}

/// Its addresses.
fn has_addresses(tables: &Tables) -> bool {
    let addresses = tables.addresses.as_slice();
    addresses.len() == 2 && addresses[1].mac == [2, 0, 0xaa, 0xbb, 0, 1] && addresses[1].output == 1
}

/// Its rule.
fn has_rule(tables: &Tables) -> bool {
    let rules = tables.rules.as_slice();
    rules.len() == 1
        && rules[0].input == Some(1)
        && rules[0].pcp == Some(7)
        && rules[0].ether_type == Some(65_535)
        && rules[0].dscp == Some(63)
        && rules[0].class == 1
}

/// Whether tables have all this.
fn are_good(tables: &Tables) -> bool {
    has_figures(tables)
        && has_classes(tables)
        && has_ports(tables)
        && has_addresses(tables)
        && has_rule(tables)
}

/// Whether that configuration gives all this.
fn is_good(alloc: Global) -> bool {
    match read_tables(alloc, GOOD.as_bytes()) {
        Ok(tables) => {
            let good = are_good(&tables);
            drop(tables);
            good
        }
        Err(_) => false,
    }
}

fn has_one_worker(alloc: Global, text: &str) -> bool {
    match read_tables(alloc, text.as_bytes()) {
        Ok(tables) => {
            let workers = tables.workers;
            drop(tables);
            workers == 1
        }
        Err(_) => false,
    }
}

/// Whether the configuration of two ports has one worker.
fn two_ports_have_one_worker(alloc: Global) -> bool {
    match TWO_PORTS.concat(alloc) {
        Ok(text) => has_one_worker(alloc, &text),
        Err(_) => false,
    }
}

#[test]
fn a_good_configuration_gives_its_tables(rt: HostRuntime) {
    assert!(rt; is_good(rt.alloc()) && two_ports_have_one_worker(rt.alloc()));
}
