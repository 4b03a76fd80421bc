//! The trials, by the crate that they try, and what they share.
mod coming;
mod engine;
mod fabric;
mod ideal;
mod outputs;
mod rank;
mod scfq;
mod slow;
