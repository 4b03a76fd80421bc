//! Made traffic.
use cq_trials::{Call, Disk, Left, leaves};
use std::alloc::Global;
use std::thread::Threads;

/// Of `examples/fabric_model.py soak 1 3 50`.
const REPORT: &str = "\
slots 60
proposals 206
most 4
input 0 cells 50 longest 2 slack 0
input 1 cells 50 longest 2 slack 0
input 2 cells 50 longest 2 slack 0
output 0 cells 44 idle 16 wait 3
output 1 cells 51 idle 9 wait 34
output 2 cells 55 idle 5 wait 19
";

/// Whether it is reported so, and no file is touched.
fn is_reported<R: Threads + Sync>(rt: &R, alloc: Global) -> bool {
    let call: Call = (&["soak", "01", "3", "50"], (0, REPORT, ""));
    // No name: the made ports, the trace and the log have it.
    let left: Left = (&[], &[""]);
    leaves(rt, alloc, call, Disk::new(alloc), left)
}

#[test]
fn made_traffic_is_reported_alike_each_time_and_no_file_is_touched(rt: HostRuntime) {
    assert!(rt; is_reported(&rt, rt.alloc()) && is_reported(&rt, rt.alloc()));
}
