//! Trials of what a slot is made of: the list of an input, the buffer of an output, offers, the crossbar, and
//! proposals, by one thread and by several.
//!
//! The crate has nothing but tests. Each stands in the file of the crate that it tries, but for those of offers that
//! are renewed, which stand in `followed.rt` beside `prefs.rt`. What several of them begin with has a file of its own,
//! or stands in `cq_trial_kit`. No crate uses anything of it, and it uses of the others what they make public.
#![tactic(auto)]

#[cfg(test)]
mod tests;
