//! Trials of ranks and of one slot: the ideal switch, the queues of a fabric, the engine.
//!
//! The crate has nothing but tests. Each stands in the file of the crate that it tries, and what several of them
//! begin with in a file of its own or in `cq_trial_kit`. No crate uses anything of it, and it uses of the others what
//! they make public.
#![tactic(auto)]

#[cfg(test)]
mod tests;
