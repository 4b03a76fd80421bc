//! Trials of what is read and written: plain types, words, frames, captures, routes, lines and texts.
//!
//! The crate has nothing but tests, those of `cq_base`, `cq_words`, `cq_frame`, `cq_pcap`, `cq_route`, `cq_lines` and
//! `cq_report`. A crate with tests is proved twice, once without them. Here that proof is empty, and the crates under
//! test have no second one. Nothing stands on this crate, and it uses of the others what they make public.
#![tactic(auto)]

#[cfg(test)]
mod tests;
