//! The crossbar, over which matched cells cross from the inputs to the outputs.
//!
//! In each phase a matching says who may cross. This crate does what it says and no more: the contract names the
//! cell that leaves each list, the buffer that it comes to, and the note that is kept of it.
#![tactic(auto)]

mod crossing;
mod laws;

pub use crossing::transfer;
pub use laws::one_cell_crosses_at_most;
