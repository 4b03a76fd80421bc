//! Configurations: what `check` says of them, and how the runs that they describe are refused or cut off.
use cq_trial_kit::HEADER;
use cq_trials::{
    Call, DEAREST, DEFAULTS, Disk, Frame, Keys, Left, SENT_CAPTURE, TWO_FOR_ONE, Told, WRITTEN,
    leaves, leaves_within, touches_nothing,
};
use std::alloc::Global;
use std::thread::Threads;

/// The two commands that run a switch.
const RUNNING: &[&[&str]] = &[&["ideal", "c.toml"], &["run", "c.toml"]];

const TWO_CLASSES: Keys = Keys {
    last: "[[class]]\n[[class]]\ncost = 2\n",
    ..DEFAULTS
};

/// A configuration by its ports, its workers and its keys, and what is told of it.
type Made = (usize, u8, Keys, Told<'static>);

const MADE: &[Made] = &[
    (
        2,
        1,
        DEFAULTS,
        (0, "ok ports 2 classes 1 addresses 2 rules 0\n", ""),
    ),
    (
        1,
        64,
        TWO_CLASSES,
        (0, "ok ports 1 classes 2 addresses 1 rules 0\n", ""),
    ),
    (1, 65, DEFAULTS, (2, "", "configuration: C4 at workers\n")),
];

/// Whether `check` tells this of the configuration, and writes nothing.
fn is_checked<R: Threads + Sync>(rt: &R, alloc: Global, made: &Made) -> bool {
    let (ports, workers, keys, told) = made;
    let disk = Disk::of_ports(alloc, *ports, *workers, keys);
    let call: Call = (&["check", "c.toml"], *told);
    leaves(rt, alloc, call, disk, (&[], WRITTEN))
}

#[test]
fn a_configuration_is_checked(rt: HostRuntime) {
    for made in MADE {
        assert!(rt; is_checked(&rt, rt.alloc(), made));
    }
}

/// The commands that read a configuration.
const COMMANDS: &[&[&str]] = &[
    &["check", "c.toml"],
    &["ideal", "c.toml"],
    &["run", "c.toml"],
];

#[test]
fn a_missing_configuration_is_a_read_fault(rt: HostRuntime) {
    for words in COMMANDS {
        let call = (*words, (5, "", "read fault: c.toml\n"));
        assert!(rt; touches_nothing(&rt, rt.alloc(), call, &[]));
    }
}

/// Whether a command is refused over the disk, and writes nothing.
fn is_refused<R: Threads + Sync>(
    rt: &R,
    alloc: Global,
    words: &[&str],
    disk: Disk,
    (code, line): (u8, &str),
) -> bool {
    leaves(rt, alloc, (words, (code, "", line)), disk, (&[], WRITTEN))
}

/// Whether a command is refused where reading a capture fails in its midst.
fn is_unread<R: Threads + Sync>(rt: &R, alloc: Global, words: &[&str]) -> bool {
    let disk = TWO_FOR_ONE.disk(alloc, 1).failing_read("in1.pcap", 30);
    is_refused(rt, alloc, words, disk, (5, "read fault: in1.pcap\n"))
}

/// Two packets for a fair output in two slots after one another.
const DEAR: &[&[Frame]] = &[&[(0, 0, 0, 60), (0, 512, 0, 60)]];

/// Whether a command is refused where a rank would be 2 to the 128.
fn is_above_ranks<R: Threads + Sync>(rt: &R, alloc: Global, words: &[&str]) -> bool {
    let disk = Disk::of_switch(alloc, DEAR, 1, &DEAREST);
    let told = (4, "tag: slot 1, input 0, output 0\n");
    is_refused(rt, alloc, words, disk, told)
}

#[test]
fn a_capture_that_fails_in_its_midst_and_a_rank_of_2_to_the_128_are_told(rt: HostRuntime) {
    for words in RUNNING {
        assert!(rt; is_unread(&rt, rt.alloc(), words) && is_above_ranks(&rt, rt.alloc(), words));
    }
}

/// How many bytes of its line standard error takes.
const ROOMS: &[u64] = &[100, 3];

/// Whether a command whose second capture cannot be written leaves the first one whole, where standard error takes so
/// many bytes.
fn is_cut<R: Threads + Sync>(rt: &R, alloc: Global, words: &[&str], room: u64) -> bool {
    let disk = TWO_FOR_ONE
        .disk(alloc, 1)
        .holding(&[("log.txt", b"kept")])
        .failing_write("out1.pcap", 10);
    let call: Call = (words, (6, "", "write fault: out1.pcap\n"));
    let wanted: [(&str, &[u8]); 3] = [
        ("out0.pcap", SENT_CAPTURE),
        ("out1.pcap", &HEADER[..10]),
        ("log.txt", b"kept"),
    ];
    let left: Left = (&wanted, &["trace.txt"]);
    leaves_within(rt, alloc, call, disk, (u64::MAX, room), left)
}

#[test]
fn a_capture_that_cannot_be_written_leaves_those_before_it_whole(rt: HostRuntime) {
    for words in RUNNING {
        assert!(rt; is_cut(&rt, rt.alloc(), words, 100) && is_cut(&rt, rt.alloc(), words, 3));
    }
}

/// Whether a run whose report is cut leaves whole files, where standard error takes so many bytes.
fn is_whole_but_for_out<R: Threads + Sync>(rt: &R, alloc: Global, room: u64) -> bool {
    let told = (6, TWO_FOR_ONE.report, "write fault: -\n");
    let wanted: [(&str, &[u8]); 4] = [
        ("out0.pcap", SENT_CAPTURE),
        ("out1.pcap", &HEADER),
        ("trace.txt", TWO_FOR_ONE.trace.as_bytes()),
        ("log.txt", TWO_FOR_ONE.log.as_bytes()),
    ];
    let disk = TWO_FOR_ONE.disk(alloc, 1);
    let call: Call = (&["run", "c.toml"], told);
    leaves_within(rt, alloc, call, disk, (6, room), (&wanted, &[]))
}

#[test]
fn standard_output_that_fails_comes_after_whole_files(rt: HostRuntime) {
    for room in ROOMS {
        assert!(rt; is_whole_but_for_out(&rt, rt.alloc(), *room));
    }
}

/// A configuration whose one port writes what it reads.
pub(super) const SAME_FILE: &str =
    "version = 1\ntrace = \"t\"\nlog = \"l\"\n[[port]]\nread = \"a\"\nwrite = \"a\"\n";

/// Under what name a run finds a configuration, and the code and the line.
const REFUSED: &[(&str, u8, &str)] = &[
    ("other.toml", 5, "read fault: c.toml\n"),
    ("c.toml", 2, "configuration: C7 at port[0].write\n"),
];

fn is_refused_in_short<R: Threads + Sync>(
    rt: &R,
    alloc: Global,
    name: &str,
    code: u8,
    line: &str,
) -> bool {
    let disk = Disk::new(alloc).holding(&[(name, SAME_FILE.as_bytes())]);
    let call: Call = (&["run", "c.toml"], (code, "", line));
    leaves_within(rt, alloc, call, disk, (u64::MAX, 3), (&[], WRITTEN))
}

#[test]
fn a_line_that_is_cut_changes_no_status(rt: HostRuntime) {
    for (name, code, line) in REFUSED {
        assert!(rt; is_refused_in_short(&rt, rt.alloc(), name, *code, line));
    }
}
