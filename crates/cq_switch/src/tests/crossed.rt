//! Worked runs of the ideal switch and of the crossbar switch, to the last byte.
use cq_trials::{Keys, RUNS, RUNS_BY_KEYS, Run, TWO_FOR_ONE};
use std::alloc::Global;
use std::thread::Threads;

/// The worked runs by defaults. The tests ask for them, so that the table stands in one proof alone.
pub(super) fn by_defaults() -> &'static [Run] {
    RUNS
}

/// The worked runs by keys.
pub(super) fn by_keys() -> &'static [Run] {
    RUNS_BY_KEYS
}

/// Whether both switches write the run, the crossbar switch with 1, 2 and 64 workers, and audits say yes.
fn is_written<R: Threads + Sync>(rt: &R, alloc: Global, run: &Run) -> bool {
    run.is_ideal(rt, alloc)
        && run.is_audited(rt, alloc, 1)
        && run.is_audited(rt, alloc, 2)
        && run.is_audited(rt, alloc, 64)
}

#[test]
fn both_switches_write_worked_runs_whatever_the_workers_and_audits_say_yes(rt: HostRuntime) {
    for run in by_defaults().iter().chain(by_keys()) {
        assert!(rt; is_written(&rt, rt.alloc(), run), "{}", run.shows);
    }
}

/// Whether the run goes on after each of its first stops.
fn goes_on<R: Threads + Sync>(rt: &R, alloc: Global, run: &Run) -> bool {
    run.goes_on(rt, alloc, "0") && run.goes_on(rt, alloc, "1") && run.goes_on(rt, alloc, "2")
}

#[test]
fn worked_runs_go_on_after_a_stop(rt: HostRuntime) {
    for run in by_defaults().iter().chain(by_keys()) {
        assert!(rt; goes_on(&rt, rt.alloc(), run));
    }
}

/// Whether an audit says yes to the run where its configuration is of version 2.
fn is_the_same<R: Threads + Sync>(rt: &R, alloc: Global, run: &Run) -> bool {
    let keys = Keys {
        version: 2,
        ..run.keys
    };
    let newer = Run { keys, ..*run };
    newer.is_audited(rt, alloc, 1)
}

#[test]
fn version_two_without_levels_is_version_one(rt: HostRuntime) {
    for run in by_defaults().iter().chain(by_keys()) {
        assert!(rt; is_the_same(&rt, rt.alloc(), run));
    }
}

/// A big-endian capture with microseconds of one packet of 60 bytes.
const BIG_ENDIAN: &[u8] = &[
    0xa1, 0xb2, 0xc3, 0xd4, 0, 2, 0, 4, 0, 0, 0, 0, 0, 0, 0, 0, 0, 4, 0, 0, 0, 0, 0, 1, //
    0, 0, 0, 0, 0, 0, 0, 0, 0, 0, 0, 60, 0, 0, 0, 60, //
    2, 0, 0, 0, 0, 0, 2, 0, 0, 0, 0, 0xaa, 0x88, 0xb5, //
    0, 0, 0, 0, 0, 0, 0, 0, 0, 0, 0, 0, 0, 0, 0, 0, 0, 0, 0, 0, 0, 0, 0, //
    0, 0, 0, 0, 0, 0, 0, 0, 0, 0, 0, 0, 0, 0, 0, 0, 0, 0, 0, 0, 0, 0, 0,
];

/// Whether the run does all from this capture of its first input on, and leaves that as it is.
fn runs_from<R: Threads + Sync>(rt: &R, alloc: Global, input: &[u8]) -> bool {
    let given: [(&str, &[u8]); 1] = [("in0.pcap", input)];
    let disk = TWO_FOR_ONE.disk(alloc, 1).holding(&given);
    TWO_FOR_ONE.crosses(rt, alloc, disk, &given)
}

#[test]
fn a_capture_of_another_form_runs_as_one_of_the_written_form(rt: HostRuntime) {
    assert!(rt; runs_from(&rt, rt.alloc(), BIG_ENDIAN));
}
