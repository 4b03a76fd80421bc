//! Trials of whole runs: arrivals, runs, packets, states, audits.
//!
//! The crate has nothing but tests, those of `cq_cells`, `cq_reasm`, `cq_state`, `cq_audit` and `cq_simulate`. A
//! crate with tests is proved twice, once without them. Here that proof is empty, and the crates under test have no
//! second one. Nothing stands on this crate.
#![tactic(auto)]

#[cfg(test)]
mod tests;
