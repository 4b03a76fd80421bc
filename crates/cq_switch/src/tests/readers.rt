//! Captures are decoded by readers ahead of the engine, and two of them are at work at once.

use super::crossed::{by_defaults, by_keys};
use cq_base::Port;
use cq_stream::{OpenWatch, Watch};
use cq_trials::TWO_FOR_ONE;
use std::alloc::Global;
use std::sync::atomic::AtomicU64;
use std::sync::atomic::Ordering::SeqCst;
use std::sync::{Arc, Wait};
use std::thread::{Threads, yield_now};

/// How many turns a reader is held for at most.
const TURNS: u32 = 10_000_000;

/// How often readers have told that they begin, and how many were held in vain.
#[derive(Drop)]
struct Told {
    zero: AtomicU64,
    one: AtomicU64,
    others: AtomicU64,
    in_vain: AtomicU64,
}

impl Told {
    fn nothing() -> Told {
        Told {
            zero: AtomicU64::new(0),
            one: AtomicU64::new(0),
            others: AtomicU64::new(0),
            in_vain: AtomicU64::new(0),
        }
    }

    /// What is told for an input.
    fn by(&self, input: Port) -> &AtomicU64 {
        match input {
            0 => &self.zero,
            1 => &self.one,
            _ => &self.others,
        }
    }

    fn all(&self) -> [u64; 4] {
        [
            self.zero.load(SeqCst),
            self.one.load(SeqCst),
            self.others.load(SeqCst),
            self.in_vain.load(SeqCst),
        ]
    }
}

/// Holds the reader that begins first until that of another input begins. With no memory for another watch it is
/// told of nothing, and the test fails.
#[derive(Drop)]
struct Meeting {
    told: Option<Arc<Told, Global>>,
}

impl Watch for Meeting {
    fn began(&self, input: Port) {
        let Some(told) = &self.told else {
            return;
        };
        told.by(input).fetch_add(1, SeqCst);
        let other = told.by(if input == 0 { 1 } else { 0 });
        'turns: for _ in 0..TURNS {
            if other.load(SeqCst) > 0 {
                return;
            }
            yield_now();
        }
        told.in_vain.fetch_add(1, SeqCst);
    }

    fn again(&self) -> Self {
        match &self.told {
            Some(told) => Meeting {
                told: Arc::try_clone(told).ok(),
            },
            None => Meeting { told: None },
        }
    }
}

/// Whether a run is all done where a watch keeps what is told here, the readers of inputs 0 and 1 tell once each, no
/// other does, and none waits in vain.
fn meet_under<R>(rt: R, alloc: Global, told: &Arc<Told, Global>) -> bool
where
    R: Threads + Wait + Sync + Copy + Send + 'static,
{
    let watch = Meeting {
        told: Arc::try_clone(told).ok(),
    };
    TWO_FOR_ONE.streams(rt, alloc, &watch) && told.all() == [1, 1, 0, 0]
}

fn meet<R>(rt: R, alloc: Global) -> bool
where
    R: Threads + Wait + Sync + Copy + Send + 'static,
{
    match Arc::new(alloc, Told::nothing()) {
        Ok(told) => meet_under(rt, alloc, &told),
        Err(_) => false,
    }
}

#[test]
fn readers_meet(rt: HostRuntime) {
    assert!(rt; meet(rt, rt.alloc()));
}

#[test]
fn worked_runs_are_the_same_where_captures_are_read_ahead(rt: HostRuntime) {
    for run in by_defaults().iter().chain(by_keys()) {
        assert!(rt; run.streams(rt, rt.alloc(), &OpenWatch));
    }
}
