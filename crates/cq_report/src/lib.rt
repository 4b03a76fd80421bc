//! The texts of a run: the trace of its departures, the log of its transfers, and its report.
//!
//! Each is built once, in memory that is asked for at its start, so that it is whole before any of it
//! is written.
#![tactic(auto)]

mod lines;
mod numerals;
mod report;
mod sheet;
mod texts;

pub use report::report_text;
pub use texts::{log_text, log_text_of_room, trace_text, trace_text_of_packed};
