//! Trials of configurations.
//!
//! The crate has nothing but tests, those of `cq_tables`. A crate with tests is proved twice, once without them. Here
//! that proof is empty, and the crate under test has no second one. Nothing stands on this crate.
#![tactic(auto)]

#[cfg(test)]
mod tests;
