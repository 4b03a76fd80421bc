//! A gate at which two workers or three meet. It shows that all are at work at once.

use cq_base::Port;
use cq_crew::{Gate, LedgerSeat, Outcome};
use std::sync::atomic::AtomicU64;
use std::sync::atomic::Ordering::SeqCst;
use std::thread::yield_now;

/// How many turns a claim is held for at most.
const TURNS: u32 = 10_000_000;

/// What one worker has told of.
#[derive(Drop)]
struct Told {
    // A bit for each input that it claimed.
    claims: AtomicU64,
    // How many proposals it made.
    proposals: AtomicU64,
}

impl Told {
    fn nothing() -> Told {
        Told {
            claims: AtomicU64::new(0),
            proposals: AtomicU64::new(0),
        }
    }
}

/// Holds the first claim of each worker until all workers have told of one, and counts what it is told.
#[derive(Drop)]
pub struct Meeting {
    workers: u16,
    zero: Told,
    one: Told,
    two: Told,
    held: AtomicU64,
    in_vain: AtomicU64,
    miscounted: AtomicU64,
    misclaimed: AtomicU64,
}

impl Meeting {
    /// A gate for two workers or three.
    pub fn of(workers: u16) -> Meeting {
        Meeting {
            workers,
            zero: Told::nothing(),
            one: Told::nothing(),
            two: Told::nothing(),
            held: AtomicU64::new(0),
            in_vain: AtomicU64::new(0),
            miscounted: AtomicU64::new(0),
            misclaimed: AtomicU64::new(0),
        }
    }

    /// Whether each worker has told of a claim.
    pub fn have_met(&self) -> bool {
        let two_have = self.claims_of(0) > 0 && self.claims_of(1) > 0;
        two_have && (self.workers < 3 || self.claims_of(2) > 0)
    }

    /// How many claims were held for all turns, and some worker told of none.
    pub fn in_vain(&self) -> u64 {
        self.in_vain.load(SeqCst)
    }

    /// How often the seat shown with a proposal had not made as many as its worker has told of.
    pub fn miscounted(&self) -> u64 {
        self.miscounted.load(SeqCst)
    }

    /// How many claims were told again, and how many proposals were told by a worker that had not told of just the
    /// claims of its seat, or for an input whose claim nobody had told.
    pub fn misclaimed(&self) -> u64 {
        self.misclaimed.load(SeqCst)
    }

    /// How many proposals were told to be held by an output that held nobody.
    pub fn held(&self) -> u64 {
        self.held.load(SeqCst)
    }

    /// How many proposals each of the three workers told of.
    pub fn proposals(&self) -> [u64; 3] {
        [
            self.zero.proposals.load(SeqCst),
            self.one.proposals.load(SeqCst),
            self.two.proposals.load(SeqCst),
        ]
    }

    fn told_by(&self, worker: u16) -> &Told {
        match worker {
            0 => &self.zero,
            1 => &self.one,
            _ => &self.two,
        }
    }

    fn claims_of(&self, worker: u16) -> u64 {
        self.told_by(worker).claims.load(SeqCst)
    }

    // Whether some worker has told of the claim of an input.
    fn is_claimed(&self, input: Port) -> bool {
        let claims = self.claims_of(0) | self.claims_of(1) | self.claims_of(2);
        has_bit(claims, input)
    }

    // Whether a worker has told of just the claims of its seat.
    fn has_told_claims_of(&self, worker: u16, seat: &LedgerSeat) -> bool {
        let told = self.claims_of(worker);
        'inputs: for input in 0..64 {
            if seat.claimed(input) != has_bit(told, input) {
                return false;
            }
        }
        true
    }
}

/// The bit of an input among 64.
fn bit_of(input: Port) -> u64 {
    1u64.wrapping_shl(input as u32)
}

fn has_bit(inputs: u64, input: Port) -> bool {
    inputs & bit_of(input) > 0
}

impl Gate for Meeting {
    /// Returns once each worker has told of a claim.
    fn claimed(&self, worker: u16, input: Port) {
        if self.is_claimed(input) {
            self.misclaimed.fetch_add(1, SeqCst);
        }
        self.told_by(worker).claims.fetch_or(bit_of(input), SeqCst);
        'turns: for _ in 0..TURNS {
            if self.have_met() {
                return;
            }
            yield_now();
        }
        self.in_vain.fetch_add(1, SeqCst);
    }

    fn proposed(&self, worker: u16, input: Port, outcome: Outcome, seat: &LedgerSeat) {
        if !self.is_claimed(input) || !self.has_told_claims_of(worker, seat) {
            self.misclaimed.fetch_add(1, SeqCst);
        }
        if outcome == Outcome::Held {
            self.held.fetch_add(1, SeqCst);
        }
        let before = self.told_by(worker).proposals.fetch_add(1, SeqCst);
        if seat.made() != before.wrapping_add(1) {
            self.miscounted.fetch_add(1, SeqCst);
        }
    }
}
