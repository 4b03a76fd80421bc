//! Finds the matching of a phase.
//!
//! Free inputs propose to outputs, one at a time, and each output keeps the best that it was offered. Whoever
//! proposes next, it ends with the one stable matching that is best for the inputs, after as many proposals as
//! that matching has. So the order is left to the caller.
#![tactic(auto)]

mod before;
mod free_inputs;
mod order;
mod per_port;
mod proposal_core;

pub use cq_prefs::{Outcome, Phase};
pub use order::{LastFirst, LowestFirst, Order};
pub use proposal_core::Core;
