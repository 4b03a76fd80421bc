//! What trials of several crates begin with: cells that wait and the lists that they come to, numbers that look drawn,
//! a capture in each form, the texts of a run, and a gate at which workers meet.
//!
//! The crate exists so that each of these stands once. Trials alone use it, and the program uses nothing of it.
#![tactic(auto)]

mod cells;
mod draws;
mod forms;
mod meeting;
mod two_for_one;

pub use cells::{arrive, list_of, waiting};
pub use draws::Draws;
pub use forms::{BIG_MICROSECONDS, BIG_NANOSECONDS, FORMS, HEADER, MICROSECONDS, NANOSECONDS};
pub use meeting::Meeting;
pub use two_for_one::{LOG, STATE, TRACE};
