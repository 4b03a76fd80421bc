//! Trials of whole calls that are refused or fail.
//!
//! The crate has nothing but tests: words that are no command, damaged captures, faulty configurations, states and
//! logs, and files that fail, each with its status and its line. What is done whole is tried in the program's crate.
//! What the trials are made of is `cq_trials`, which the two share, so that it is proved once. Nothing stands on this
//! crate.
#![tactic(auto)]

#[cfg(test)]
mod tests;
