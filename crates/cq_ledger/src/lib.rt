//! Finds the matching of a phase by several workers at once, over shared words.
//!
//! Each proposal is one atomic step on the word of the output that is asked, and each claim of an input one
//! atomic step on the word of claims. Whoever makes the steps, and however they fall between one another, a
//! ledger that is closed has the one stable matching that is best for the inputs, and as many proposals as that
//! matching has. No call waits for another.
#![tactic(auto)]

mod answer;
mod closed;
mod laws;
mod ledger;
mod plays;
mod reading;
mod seat;
mod view;
mod words;

pub use closed::Closed;
pub use cq_prefs::{Outcome, Phase};
pub use laws::{rule_shows_proposals, step_is_event, steps_keep_the_rule};
pub use ledger::Ledger;
pub use seat::LedgerSeat;
