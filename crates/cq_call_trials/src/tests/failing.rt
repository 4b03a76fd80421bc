//! Each outside call fails in turn, and each moves one byte at a time.
use cq_trial_kit::HEADER;
use cq_trials::{Call, Disk, SENT_CAPTURE, TWO_FOR_ONE, leaves_within};
use std::alloc::Global;
use std::thread::Threads;

/// What is read and then written, in order: the number of the first call for it, and the status and the
/// line of a fault there. Each name takes three calls: it is begun, moved by one call, and ended,
/// in reading by a look for more.
type Place = (u64, u8, &'static str);

const PLACES: &[Place] = &[
    (0, 5, "read fault: c.toml\n"),
    (3, 5, "read fault: in0.pcap\n"),
    (6, 5, "read fault: in1.pcap\n"),
    (OUT_0, 6, "write fault: out0.pcap\n"),
    (OUT_1, 6, "write fault: out1.pcap\n"),
    (TRACE, 6, "write fault: trace.txt\n"),
    (LOG, 6, "write fault: log.txt\n"),
];

/// The number of the first call for each name that is written.
const OUT_0: u64 = 9;

const OUT_1: u64 = 12;

const TRACE: u64 = 15;

const LOG: u64 = 18;

/// How many calls a run makes.
const CALLS: u64 = 21;

/// What the written names hold before.
const BEFORE: &[(&str, &[u8])] = &[
    ("out0.pcap", KEPT),
    ("out1.pcap", KEPT),
    ("trace.txt", KEPT),
    ("log.txt", KEPT),
];

const KEPT: &[u8] = b"kept";

fn disk_before(alloc: Global) -> Disk {
    TWO_FOR_ONE.disk(alloc, 1).holding(BEFORE)
}

/// What a name holds whose first call is this one, where the call of this step for another fails: all where the other
/// comes later, what it held where it comes earlier. The one itself holds what it held where it was not begun, nothing
/// where no byte went in, and all where only its end failed.
fn held(first: u64, whole: &[u8], at: u64, step: u64) -> &[u8] {
    if at < first || at == first && step == 0 {
        KEPT
    } else if at == first && step == 1 {
        b""
    } else {
        whole
    }
}

/// Whether a run in which this call for the name fails ends as it should, where `err` takes so many bytes.
fn fails<R: Threads + Sync>(rt: &R, alloc: Global, place: &Place, step: u64, room: u64) -> bool {
    let (at, code, line) = *place;
    let disk = disk_before(alloc).failing_call(at.saturating_add(step));
    let call: Call = (&["run", "c.toml"], (code, "", line));
    let (trace, log) = (TWO_FOR_ONE.trace.as_bytes(), TWO_FOR_ONE.log.as_bytes());
    let wanted = [
        ("out0.pcap", held(OUT_0, SENT_CAPTURE, at, step)),
        ("out1.pcap", held(OUT_1, &HEADER, at, step)),
        ("trace.txt", held(TRACE, trace, at, step)),
        ("log.txt", held(LOG, log, at, step)),
    ];
    leaves_within(rt, alloc, call, disk, (u64::MAX, room), (&wanted, &[]))
}

/// Which of the three calls for a name fails, and how many bytes `err` takes.
const STEPS: &[(u64, u64)] = &[
    (0, u64::MAX),
    (0, 3),
    (1, u64::MAX),
    (1, 3),
    (2, u64::MAX),
    (2, 3),
];

#[test]
fn each_outside_call_fails_in_turn(rt: HostRuntime) {
    for place in PLACES {
        for (step, room) in STEPS {
            assert!(rt; fails(&rt, rt.alloc(), place, *step, *room));
        }
    }
}

/// The call that fails, which is none that is made, and whether each call moves one byte alone.
const WHOLE: &[(u64, bool)] = &[(u64::MAX, false), (CALLS, false), (u64::MAX, true)];

/// Whether a run does all, where this call fails, and where each moves one byte alone if that is asked for.
fn does_all<R: Threads + Sync>(rt: &R, alloc: Global, call: u64, is_short: bool) -> bool {
    let mut disk = disk_before(alloc).failing_call(call);
    if is_short {
        disk.short(1);
    }
    TWO_FOR_ONE.crosses(rt, alloc, disk, &[])
}

#[test]
fn with_no_call_left_that_fails_all_is_done_also_a_byte_at_a_time(rt: HostRuntime) {
    for (call, is_short) in WHOLE {
        assert!(rt; does_all(&rt, rt.alloc(), *call, *is_short));
    }
}
