//! Traces and logs that an audit says no to.
use cq_trial_kit::{LOG, TRACE};
use cq_trials::{Call, Left, TWO_FOR_ONE};
use std::alloc::Global;
use std::thread::Threads;

/// A trace, a log, and the line of their audit.
type Denied = (&'static str, &'static str, &'static str);

const DENIED: &[Denied] = &[
    (
        TRACE,
        "0 1 0 0 0 0\n",
        "audit: A3 at slot 0 phase 2 input 1 output 0\n",
    ),
    (
        TRACE,
        "0 1 1 0 0 0\n0 2 0 0 0 0\n",
        "audit: A3 at slot 0 phase 1 input 0 output 0\n",
    ),
    (
        TRACE,
        "0 1 0 1 0 0\n0 2 1 0 0 0\n",
        "audit: A2 at slot 0 phase 1 input 0\n",
    ),
    (TRACE, "0 1 0 0 0\n0 2 1 0 0 0\n", "audit: A1 at line 1\n"),
    (TRACE, "0 1 0 0 0 0\n0 2 1 0 0 0", "audit: A1 at line 2\n"),
    (
        TRACE,
        "0 1 0 0 0 0\n0 2 1 0 0 0\n9 1 0 0 0 0\n",
        "audit: A4 at line 3\n",
    ),
    ("0 0 0 0 0\n1 0 1 0 1\n", LOG, "audit: A5 at line 2\n"),
    ("0 0 0 0 0\n", LOG, "audit: A5 at line 2\n"),
];

/// Whether the audit of the trace and the log says so, and leaves both.
fn is_denied<R: Threads + Sync>(rt: &R, alloc: Global, denied: &Denied) -> bool {
    let (trace, log, line) = *denied;
    let call: Call = (&["audit", "c.toml"], (8, "", line));
    let given: [(&str, &[u8]); 2] = [("trace.txt", trace.as_bytes()), ("log.txt", log.as_bytes())];
    let left: Left = (&given, &["out0.pcap", "out1.pcap"]);
    TWO_FOR_ONE.leaves(rt, alloc, call, &given, left)
}

#[test]
fn an_audit_tells_what_is_wrong_first_and_leaves_both_files(rt: HostRuntime) {
    for denied in DENIED {
        assert!(rt; is_denied(&rt, rt.alloc(), denied));
    }
}
