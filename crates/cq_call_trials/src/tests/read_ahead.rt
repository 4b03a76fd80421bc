//! Captures that are refused, also where they are read ahead: the lowest input is told, whatever happens behind it.
use super::words::USAGE;
use cq_base::NoMemory;
use cq_trial_kit::HEADER;
use cq_trials::{
    Call, DEFAULTS, Disk, FRAME, Keys, Left, WRITTEN, leaves, leaves_ahead, put_packet,
};
use std::alloc::Global;
use std::sync::Wait;
use std::thread::Threads;

/// What stands under the name of an input.
#[derive(Clone, Copy)]
enum Input {
    /// A capture without a packet.
    Empty,
    /// A capture of one packet.
    One,
    /// A capture of more packets than are read at once.
    Long,
    /// A header and ten bytes.
    Cut,
    /// A header and one byte.
    OneMore,
    /// A file of one byte more than the limit.
    Above,
    /// A file whose reading fails at its end.
    Unread,
    /// There is no such file.
    Missing,
}

/// The status and the line.
type Fault = (u8, &'static str);

const CUT_0: Fault = (3, "capture of input 0: 5 at 24\n");

const CUT_1: Fault = (3, "capture of input 1: 5 at 24\n");

const UNREAD_0: Fault = (5, "read fault: in0.pcap\n");

const UNREAD_1: Fault = (5, "read fault: in1.pcap\n");

const ABOVE_0: Fault = (3, "capture of input 0: 8, limit 40000\n");

const ABOVE_1: Fault = (3, "capture of input 1: 8, limit 40000\n");

const ABOVE_SMALL_0: Fault = (3, "capture of input 0: 8, limit 24\n");

const ABOVE_SMALL_1: Fault = (3, "capture of input 1: 8, limit 24\n");

/// The keys, the two inputs, and what is told.
type Case = (Keys, [Input; 2], Fault);

const CASES: &[Case] = &[
    (LIMITED, [Input::Cut, Input::One], CUT_0),
    (LIMITED, [Input::Empty, Input::Cut], CUT_1),
    (LIMITED, [Input::Long, Input::Cut], CUT_1),
    (LIMITED, [Input::Cut, Input::Cut], CUT_0),
    (LIMITED, [Input::Cut, Input::Missing], CUT_0),
    (LIMITED, [Input::Cut, Input::Unread], CUT_0),
    (LIMITED, [Input::Missing, Input::Cut], UNREAD_0),
    (LIMITED, [Input::Unread, Input::Cut], UNREAD_0),
    (LIMITED, [Input::One, Input::Unread], UNREAD_1),
    (LIMITED, [Input::Long, Input::Missing], UNREAD_1),
    (LIMITED, [Input::Long, Input::Above], ABOVE_1),
    (LIMITED, [Input::Above, Input::Missing], ABOVE_0),
    (DEFAULTS, [Input::Cut, Input::Missing], CUT_0),
    (DEFAULTS, [Input::Missing, Input::Cut], UNREAD_0),
    (DEFAULTS, [Input::Empty, Input::Cut], CUT_1),
    (DEFAULTS, [Input::Empty, Input::Missing], UNREAD_1),
    (SMALL, [Input::Empty, Input::Cut], ABOVE_SMALL_1),
    (SMALL, [Input::OneMore, Input::Missing], ABOVE_SMALL_0),
];

/// A limit that the longest capture here keeps.
const LIMITED: Keys = Keys {
    first: "limit_bytes = 40000\n",
    ..DEFAULTS
};

/// As many bytes as a header has.
const SMALL: Keys = Keys {
    first: "limit_bytes = 24\n",
    ..DEFAULTS
};

/// A header, and ten bytes of a record's.
const CUT: &[u8] = &[
    0x4d, 0x3c, 0xb2, 0xa1, 2, 0, 4, 0, 0, 0, 0, 0, 0, 0, 0, 0, 0, 0, 4, 0, 1, 0, 0, 0, //
    0, 0, 0, 0, 0, 0, 0, 0, 0, 0,
];

/// A capture of one packet of 14 bytes.
const ONE: &[u8] = &[
    0x4d, 0x3c, 0xb2, 0xa1, 2, 0, 4, 0, 0, 0, 0, 0, 0, 0, 0, 0, 0, 0, 4, 0, 1, 0, 0, 0, //
    0, 0, 0, 0, 0, 0, 0, 0, 14, 0, 0, 0, 14, 0, 0, 0, //
    2, 0, 0, 0, 0, 0, 2, 0, 0, 0, 0, 0xaa, 0x88, 0xb5,
];

/// Puts a capture of 1025 packets of 14 bytes.
fn put_long(capture: &mut Vec<u8>) -> Result<(), NoMemory> {
    capture.extend_from_slice(&HEADER)?;
    for _ in 0..1025 {
        put_packet(capture, [0, 0, 14, 14], &FRAME)?;
    }
    Ok(())
}

/// A capture of more packets than are read at once, and a file above the limit.
type Large<'a> = (&'a [u8], &'a [u8]);

/// The bytes of an input, where it is there.
fn bytes_of<'a>(input: Input, large: Large<'a>) -> &'a [u8] {
    match input {
        Input::One => ONE,
        Input::Long => large.0,
        Input::Above => large.1,
        Input::Cut => CUT,
        Input::OneMore => &CUT[..25],
        Input::Empty | Input::Unread | Input::Missing => &HEADER,
    }
}

/// The disk with what stands under the name of an input.
fn with_input(disk: Disk, name: &str, input: Input, large: Large) -> Disk {
    match input {
        Input::Missing => disk,
        Input::Unread => disk
            .holding(&[(name, bytes_of(input, large))])
            .failing_read(name, 24),
        _ => disk.holding(&[(name, bytes_of(input, large))]),
    }
}

/// A switch of two ports with these inputs.
fn disk_with(alloc: Global, case: &Case, large: Large) -> Disk {
    let (keys, [zero, one], _) = *case;
    let disk = Disk::of_ports(alloc, 2, 1, &keys);
    let disk = with_input(disk, "in0.pcap", zero, large);
    with_input(disk, "in1.pcap", one, large)
}

/// What is left: nothing is written.
const NOTHING: Left = (&[], WRITTEN);

/// Whether a command refuses the inputs, and writes nothing.
fn is_refused<R: Threads + Sync>(
    rt: &R,
    alloc: Global,
    words: &[&str],
    case: &Case,
    large: Large,
) -> bool {
    let (_, _, (code, line)) = *case;
    let disk = disk_with(alloc, case, large);
    leaves(rt, alloc, (words, (code, "", line)), disk, NOTHING)
}

/// Whether `stream`, which may read ahead, does, and `ideal` and `run`.
fn is_refused_by_all<R>(rt: R, alloc: Global, case: &Case, large: Large) -> bool
where
    R: Threads + Wait + Sync + Copy + Send + 'static,
{
    let (_, _, (code, line)) = *case;
    let call: Call = (&["stream", "c.toml"], (code, "", line));
    let disk = disk_with(alloc, case, large);
    leaves_ahead(rt, alloc, call, disk, NOTHING)
        && is_refused(&rt, alloc, &["ideal", "c.toml"], case, large)
        && is_refused(&rt, alloc, &["run", "c.toml"], case, large)
}

fn are_refused<R>(rt: R, alloc: Global, large: Large) -> bool
where
    R: Threads + Wait + Sync + Copy + Send + 'static,
{
    for case in CASES {
        if !is_refused_by_all(rt, alloc, case, large) {
            return false;
        }
    }
    true
}

/// Whether all are refused, where that capture is the long one.
fn are_refused_with<R>(rt: R, alloc: Global, long: &[u8]) -> bool
where
    R: Threads + Wait + Sync + Copy + Send + 'static,
{
    let mut above = Vec::new(alloc);
    match above.resize(40_001, 0) {
        Ok(()) => are_refused(rt, alloc, (long, &above)),
        Err(_) => false,
    }
}

fn all_are_refused<R>(rt: R, alloc: Global) -> bool
where
    R: Threads + Wait + Sync + Copy + Send + 'static,
{
    let mut long = Vec::new(alloc);
    match put_long(&mut long) {
        Ok(()) => are_refused_with(rt, alloc, &long),
        Err(_) => false,
    }
}

#[test]
fn the_lowest_input_at_fault_is_told(rt: HostRuntime) {
    assert!(rt; all_are_refused(rt, rt.alloc()));
}

/// Words, and the code and the line of the call that reads ahead where no file is there.
const OTHERS: &[(&[&str], u8, &str)] = &[
    (&["stream"], 1, USAGE),
    (&["stream", "a", "b"], 1, USAGE),
    (&["stream", "-"], 1, USAGE),
    (&["pass", "a", "b"], 5, "read fault: a\n"),
    (&["soak", "1", "2", "0"], 1, USAGE),
    (&["stream", "c.toml"], 5, "read fault: c.toml\n"),
];

#[test]
fn other_words_are_answered_too(rt: HostRuntime) {
    for (words, code, line) in OTHERS {
        let call = (*words, (*code, "", *line));
        let disk = Disk::new(rt.alloc());
        assert!(rt; leaves_ahead(rt, rt.alloc(), call, disk, NOTHING));
    }
}
