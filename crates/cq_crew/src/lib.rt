//! Finds the matching of a phase by several workers at once.
//!
//! Each worker claims inputs and proposes for them, in a thread of its own, on a ledger that all of them share.
//! Whoever claims what, and however their steps fall between one another, the answer is the one stable matching
//! that is best for the inputs, and as many proposals as that matching has. Where there is nothing to share, no
//! memory for a ledger, or an input that nobody claimed, one thread settles it alone. So there is no refusal.
#![tactic(auto)]

mod crew;
mod gate;
mod phase;
mod settled;
mod worker;

pub use cq_ledger::{Closed, LedgerSeat, Outcome, Phase};
pub use gate::{Gate, OpenGate};
pub use phase::{pair_phase, settle_kept};
pub use settled::Settled;
