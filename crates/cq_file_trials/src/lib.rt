//! Trials of what files are read and written through: files and sinks, captures read ahead, and made traffic.
//!
//! The crate has nothing but tests, those of `cq_space`, `cq_stream` and `cq_gen`. A crate with tests is proved twice,
//! once without them. Here that proof is empty, and the crates under test have no second one. Nothing stands on this
//! crate, and it uses of the others what they make public.
#![tactic(auto)]

#[cfg(test)]
mod tests;
