//! Reading or writing fails, or goes on for too long, while a capture is passed on; and what is to be read is not
//! there.
use cq_trial_kit::HEADER;
use cq_trials::{Call, Disk, Left, MICROSECONDS, TWO_FOR_ONE, WRITTEN, leaves, leaves_within};
use std::alloc::Global;
use std::thread::Threads;

/// Where reading is cut. At 24 every byte has been read, and the look for more fails.
const READ_CUTS: &[u64] = &[0, 10, 24];

fn is_unread<R: Threads + Sync>(rt: &R, alloc: Global, after: u64) -> bool {
    let disk = Disk::new(alloc)
        .holding(&[("a", &MICROSECONDS)])
        .failing_read("a", after);
    let call: Call = (&["pass", "a", "b"], (5, "", "read fault: a\n"));
    leaves(rt, alloc, call, disk, (&[], &["b"]))
}

#[test]
fn a_failing_read_is_told_and_starts_no_file(rt: HostRuntime) {
    for after in READ_CUTS {
        assert!(rt; is_unread(&rt, rt.alloc(), *after));
    }
}

/// Where writing is cut, and how much of the line standard error takes.
const WRITE_CUTS: &[(u64, u64)] = &[(0, 100), (10, 100), (12, 5), (23, 0)];

fn is_unwritten<R: Threads + Sync>(rt: &R, alloc: Global, after: u64, room: u64) -> bool {
    let disk = Disk::new(alloc)
        .holding(&[("a", &MICROSECONDS), ("b", b"lost")])
        .failing_write("b", after);
    let call: Call = (&["pass", "a", "b"], (6, "", "write fault: b\n"));
    let kept = HEADER.len().min(after as usize);
    let left: Left = (&[("b", &HEADER[..kept])], &[]);
    leaves_within(rt, alloc, call, disk, (0, room), left)
}

#[test]
fn a_failing_write_is_told_and_leaves_the_first_bytes(rt: HostRuntime) {
    for (after, room) in WRITE_CUTS {
        assert!(rt; is_unwritten(&rt, rt.alloc(), *after, *room));
    }
}

/// Whether a capture of these bytes is too long.
fn is_above_limit<R: Threads + Sync>(rt: &R, alloc: Global, bytes: &[u8]) -> bool {
    let disk = Disk::new(alloc).holding(&[("a", bytes)]);
    let told = (3, "", "capture of input 0: 8, limit 67108864\n");
    leaves(rt, alloc, (&["pass", "a", "b"], told), disk, (&[], &["b"]))
}

/// So many zeros as a capture.
fn is_too_long<R: Threads + Sync>(rt: &R, alloc: Global, len: usize) -> bool {
    let mut bytes = Vec::new(alloc);
    match bytes.resize(len, 0) {
        Ok(()) => is_above_limit(rt, alloc, &bytes),
        Err(_) => false,
    }
}

#[test]
fn a_capture_above_the_limit_is_told(rt: HostRuntime) {
    assert!(rt; is_too_long(&rt, rt.alloc(), 67_108_865));
}

/// The words of a call, what is there beside what a run reads and what is not, before and afterwards, and the line.
type Missing = (&'static [&'static str], Left<'static>, &'static str);

const MISSING: &[Missing] = &[
    (
        &["audit", "c.toml"],
        (
            &[("log.txt", b"kept")],
            &["trace.txt", "out0.pcap", "out1.pcap"],
        ),
        "read fault: trace.txt\n",
    ),
    (
        &["resume", "c.toml", "s.txt"],
        (&[], WRITTEN),
        "read fault: s.txt\n",
    ),
];

#[test]
fn an_audit_without_a_trace_and_a_run_without_a_state_are_read_faults(rt: HostRuntime) {
    for (words, left, line) in MISSING {
        let call = (*words, (5, "", *line));
        assert!(rt; TWO_FOR_ONE.leaves(&rt, rt.alloc(), call, left.0, *left));
    }
}
