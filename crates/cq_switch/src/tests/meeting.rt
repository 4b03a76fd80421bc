//! Two workers of one phase meet in a run of the whole program, and in one that goes on. It shows that both are at work
//! at once.

use cq_base::Port;
use cq_crew::{Gate, LedgerSeat, Outcome};
use cq_trial_kit::Meeting;
use cq_trials::{THREE_INPUTS, TWO_FOR_ONE};
use std::alloc::Global;
use std::sync::atomic::AtomicU64;
use std::sync::atomic::Ordering::SeqCst;
use std::thread::Threads;

/// Whether two workers met at the gate, each with a proposal, none in vain.
fn have_met(gate: &Meeting) -> bool {
    // The first phase alone has two workers and two proposals.
    [gate.in_vain(), gate.miscounted()] == [0, 0] && gate.proposals() == [1, 1, 0]
}

/// Whether two workers do all of a run and meet.
fn meet<R: Threads + Sync>(rt: &R, alloc: Global) -> bool {
    let gate = Meeting::of(2);
    TWO_FOR_ONE.crosses_watched(rt, alloc, 2, &gate) && have_met(&gate)
}

/// Whether two workers do all of a run that goes on from its first slot, and meet.
fn meet_again<R: Threads + Sync>(rt: &R, alloc: Global) -> bool {
    let gate = Meeting::of(2);
    TWO_FOR_ONE.goes_on_watched(rt, alloc, 2, &gate) && have_met(&gate)
}

#[test]
fn two_workers_meet(rt: HostRuntime) {
    assert!(rt; meet(&rt, rt.alloc()) && meet_again(&rt, rt.alloc()));
}

/// Counts the claims that it is told of, and those of workers beyond the first two.
#[derive(Drop)]
struct Counting {
    claims: AtomicU64,
    beyond_two: AtomicU64,
}

impl Gate for Counting {
    fn claimed(&self, worker: u16, _input: Port) {
        self.claims.fetch_add(1, SeqCst);
        if worker >= 2 {
            self.beyond_two.fetch_add(1, SeqCst);
        }
    }

    fn proposed(&self, _worker: u16, _input: Port, _outcome: Outcome, _seat: &LedgerSeat) {}
}

/// Whether so many workers do all of a run, of whom only the first two claim anything, and none where one is all.
fn is_done_by<R: Threads + Sync>(rt: &R, alloc: Global, workers: u8) -> bool {
    let gate = Counting {
        claims: AtomicU64::new(0),
        beyond_two: AtomicU64::new(0),
    };
    let crosses = THREE_INPUTS.crosses_watched(rt, alloc, workers, &gate);
    let are_used = (gate.claims.load(SeqCst) > 0) == (workers > 1);
    crosses && are_used && gate.beyond_two.load(SeqCst) == 0
}

#[test]
fn no_more_workers_are_used_than_asked_for(rt: HostRuntime) {
    // Three inputs have a cell in the first slot.
    assert!(rt; is_done_by(&rt, rt.alloc(), 1) && is_done_by(&rt, rt.alloc(), 2));
}
